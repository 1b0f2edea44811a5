//! Laws of the code's runs.
ghost use Rattle.ob_exec.specs.Laws.{PausedRunsStandElsewhere, FirstSlicesMayBeEmpty};

/// A paused run represents the run of its request also on what a store holds after a change of nothing that the run has read.
pub fn paused_runs_stand_elsewhere()
    ensures { PausedRunsStandElsewhere }
{}

/// A first slice of no units changes nothing of what follows: a run that was started is opened by its first slice all the same.
pub fn first_slices_may_be_empty()
    ensures { FirstSlicesMayBeEmpty }
{}
