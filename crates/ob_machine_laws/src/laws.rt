//! Laws of the machine's steps.
ghost use Rattle.ob_machine_laws.specs.Laws.{SlicesAddUp, SlicesEndAsRuns, WholeSlicesEnd, StepsLowerTheMeasure, RunsGoNoFurther, RunsEnd, EntriesEnd};
ghost use Rattle.ob_machine_laws.specs.Laws.{UnitsAddUp, ReadsGrow, ObjectsStay, UnreadStay, FramesStayTold, LocksAreSets, EntriesLockOnce};
ghost use Rattle.ob_machine_laws.specs.Laws.{SoundRunsAreSoundInSlices, PausedRunsAreSound};
ghost use Rattle.ob_machine_laws.specs.Laws.{ContractsAgree, FieldsAgree, StatesAgree, NamesAgree};
ghost use Rattle.ob_machine_laws.specs.Laws.{StepsIgnoreReads, SlicesIgnoreReads, SameReadsSameSteps, SameReadsSameSlices};

/// Two slices one after another are one slice of the sum, and where one stops with the run, that is what the run comes to. A slice
/// of as many units as the run has left never waits for one.
pub fn slices_add_up()
    ensures sum { SlicesAddUp }
    ensures end { SlicesEndAsRuns }
    ensures whole { WholeSlicesEnd }
{}

/// Where jumps lead ahead, or to a `unit`, each step leaves fewer steps that can still come.
pub fn steps_lower_the_measure()
    ensures { StepsLowerTheMeasure }
{}

/// Where jumps lead ahead, or to a `unit`, a run is over after at most so many steps as its units and the longest body say.
pub fn runs_end()
    ensures further { RunsGoNoFurther }
    ensures runs { RunsEnd }
    ensures entries { EntriesEnd }
{}

/// It doesn't matter to a run what was read before: neither which items, nor in which order, nor how often.
pub fn reads_dont_matter()
    ensures steps { StepsIgnoreReads }
    ensures slices { SlicesIgnoreReads }
    ensures same { SameReadsSameSteps }
    ensures same_slices { SameReadsSameSlices }
{}

/// Units left and units taken add up to those that were there, what was read stays read, and no object goes away.
pub fn steps_keep()
    ensures units { UnitsAddUp }
    ensures reads { ReadsGrow }
    ensures objects { ObjectsStay }
{}

/// A run that always has a next step has one wherever a slice of it goes on.
pub fn sound_runs()
    ensures slices { SoundRunsAreSoundInSlices }
    ensures paused { PausedRunsAreSound }
{}

/// The class table that an image gives says of contracts, fields, states and names what the image says.
pub fn tables_agree()
    ensures contracts { ContractsAgree }
    ensures fields { FieldsAgree }
    ensures states { StatesAgree }
    ensures names { NamesAgree }
{}

/// No object is locked twice, and none has two transactions in progress.
pub fn locks_are_sets()
    ensures steps { LocksAreSets }
    ensures entries { EntriesLockOnce }
{}

/// What a run changes it has made or read.
pub fn unread_stay()
    ensures objects { UnreadStay }
    ensures frames { FramesStayTold }
{}
