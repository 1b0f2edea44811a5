//! Laws of locality.
ghost use Rattle.ob_request_run_laws.specs.LocalityLaws.{StepsAreLocal, StepsStayGood, RunsAreLocal, SlicesAreLocal};
ghost use Rattle.ob_request_run_laws.specs.LocalityLaws.{EntriesAreLocal, EntrySlicesAreLocal, ChangesAreRead};

/// On each content that agrees on the items that are read, a step of a run leads to the same, with the same reads.
pub fn steps_are_local()
    ensures local { StepsAreLocal }
    ensures good { StepsStayGood }
{}

/// So do any number of steps, and slices.
pub fn runs_are_local()
    ensures runs { RunsAreLocal }
    ensures slices { SlicesAreLocal }
{}

/// So does a run from its entry on, with the marks of what comes in.
pub fn entries_are_local()
    ensures runs { EntriesAreLocal }
    ensures slices { EntrySlicesAreLocal }
{}

/// What a run changes and didn't make it has read.
pub fn changes_are_read()
    ensures { ChangesAreRead }
{}
