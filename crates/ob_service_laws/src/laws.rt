//! Laws of a program that is served.
ghost use Rattle.ob_service_laws.specs.BySource.{SchedulesGoAsTheSource, BatchesEndAsTheSource};
ghost use Rattle.ob_service_laws.specs.Bounds.{EnteredRunsEnd};
ghost use Rattle.ob_service_laws.specs.Disks.{EachDiskIsStoreOrRefused};
ghost use Rattle.ob_service_laws.specs.Sure.{SureCallsSucceed};

/// Whatever events of lanes come, the requests of a batch are answered by the source meaning one after another in the order of their
/// commits, from every store at rest, by code that is sound for a program; and the turns of a batch end so.
pub fn lanes_go_as_the_source<S, L>()
    ensures events { SchedulesGoAsTheSource S L }
    ensures turns { BatchesEndAsTheSource S L }
{}

/// The run of what a request enters in a store at rest is over after at most (fuel + 2) * n steps, where n is the number of instructions
/// of the longest body, by the code of terms that are well-formed and derive.
pub fn entered_runs_end()
    ensures { EnteredRunsEnd }
{}

/// The bytes of a disk represent a store of a program, or are refused: exactly one of both, one store, and for one cause.
pub fn each_disk()
    ensures { EachDiskIsStoreOrRefused }
{}

/// A call whose errors come only where the count of faults rose never fails over a disk in memory that never fails: so each commit to
/// one is Ok.
pub fn calls_of_sure_disks_succeed<T, E>()
    ensures { SureCallsSucceed T E }
{}
