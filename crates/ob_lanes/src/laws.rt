//! Laws of lanes.
ghost use Rattle.ob_lanes.specs.Seen.{TurnsAreSeen, CommitsAreSeen};

/// For stores of any kind: a turn and a commit of the schedule over them are those over what they hold, for which lanes stand.
pub fn schedules_are_seen<S, L>()
    ensures turns { TurnsAreSeen S L }
    ensures commits { CommitsAreSeen S L }
{}
