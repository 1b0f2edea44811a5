//! Laws of the runs of requests.
ghost use Rattle.ob_request_run_laws.specs.Laws.{SlicesComeToTheInvocation, WholeSlicesEnd, RequestsAreLocal, RequestsReadChanges, AnswersDifferOnReads, RequestsDifferOnReads};
ghost use Rattle.ob_request_run_laws.specs.Pauses.{HeldIsLaidBack, UnchangedIsOfTheMoment, SlicesTakeTheirUnits, PausedRunsTookTheirUnits};

/// A run that is taken to its end in any slices is the invocation of its request on that content, and one slice of all the units that
/// the request has takes it there.
pub fn slices_come_to_the_invocation()
    ensures comes { SlicesComeToTheInvocation }
    ensures ends { WholeSlicesEnd }
{}

/// A run that was given these units is the same run on each content that agrees on the items that it has read so far.
pub fn requests_are_local()
    ensures { RequestsAreLocal }
{}

/// What a request changes and didn't make it has read, and the content after it differs on nothing else.
pub fn requests_read_changes()
    ensures read { RequestsReadChanges }
    ensures differ { AnswersDifferOnReads }
    ensures requests { RequestsDifferOnReads }
{}

/// What is taken off a run of code, laid over its content, gives the run's objects: it is all that the run has changed and made.
pub fn what_is_held_is_laid_back()
    ensures { HeldIsLaidBack }
{}

/// What a paused run has and hasn't changed is what each content has that agrees on the items that it has read so far. So nothing else
/// is kept of an earlier store.
pub fn unchanged_is_of_the_moment()
    ensures { UnchangedIsOfTheMoment }
{}

/// A slice that doesn't end a run takes just its units. So a paused run has taken just the units of its slices.
pub fn slices_take_their_units()
    ensures slice { SlicesTakeTheirUnits }
    ensures all { PausedRunsTookTheirUnits }
{}
