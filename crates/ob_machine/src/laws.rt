//! Laws of what the machine's contracts say.
ghost use Rattle.ob_machine.specs.Slicing.{StuckSlicesNeverStop, WholeSlicesAreOver, SoundAlike, StopsAlike, StuckAlike};

/// A slice that comes to where the run has no next step stops nowhere. One of as many units as the run has left never waits
/// for one.
pub fn slices_stop_or_are_stuck()
    ensures stuck { StuckSlicesNeverStop }
    ensures whole { WholeSlicesAreOver }
{}

/// Of two runs that are the same but for the order in which items were read, and how often, one goes on soundly where the other
/// does, stops where it stops, and has no next step where it has none.
pub fn same_phases_go_alike()
    ensures sound { SoundAlike }
    ensures stops { StopsAlike }
    ensures stuck { StuckAlike }
{}
