//! Laws of the schedule, and of objects without an owner.
ghost use Rattle.ob_lanes_laws.specs.Laws.{SchedulesAreSerializable, TurnsLowerTheMeasure, BatchesEnd, AnsweredBatchesStay, ConflictsAreDifferences, RequestsAreSerializable, RequestBatchesEnd};
ghost use Rattle.ob_lanes_laws.specs.Orders.{OneLaneKeepsTheOrder, OneClientKeepsTheOrder};
ghost use Rattle.ob_lanes_laws.specs.UnownedLaws.{UnownedStaySo};

/// An object of a store at rest that has no owning place has none after any request, by code that leaves each store at rest.
pub fn objects_stay_unowned()
    ensures { UnownedStaySo }
{}

/// For stores, requests, runs and answers of any kind: where runs are local a schedule is serializable, whatever events come.
pub fn schedules_are_serializable<S, Q, R, A>()
    ensures { SchedulesAreSerializable S Q R A }
{}

/// Each turn of a batch lowers a measure until the batch is answered, so its turns end; from then on they change nothing.
pub fn batches_end<S, Q, R, A>()
    ensures lower { TurnsLowerTheMeasure S Q R A }
    ensures end { BatchesEnd S Q R A }
    ensures stay { AnsweredBatchesStay S Q R A }
{}

/// A run of a request is stale exactly where something that it has read has changed.
pub fn conflicts_are_differences()
    ensures { ConflictsAreDifferences }
{}

/// For stores of any kind: a schedule of requests is serializable, and the turns of a batch of them end.
pub fn requests_are_serializable<S, L>()
    ensures serializable { RequestsAreSerializable S L }
    ensures end { RequestBatchesEnd S L }
{}

/// The requests of a batch are answered in their order there in one lane, and in any number of lanes where all are of one client.
pub fn batches_keep_their_order<S, Q, R, A>()
    ensures lane { OneLaneKeepsTheOrder S Q R A }
    ensures client { OneClientKeepsTheOrder S Q R A }
{}
