//! The laws of verified code.
ghost use Rattle.ob_code_laws.specs.Keeping.{VerifiedCodeKeeps, VerifiedCodeEnds};
ghost use Rattle.ob_code_laws.specs.Leading.{VerifiedJumpsLeadAheadOrToUnit};
ghost use Rattle.ob_code_laws.specs.Stepping.{VerifiedCodeSteps};

/// Verified code that the machine runs never leaves its slots, its code or its kinds: in each configuration that is reached there is
/// a next instruction, each slot that it names is one of the frame's, and what the slots hold is what it needs. What a run ends with
/// is of its kinds, too.
pub fn verified_code_keeps_to_itself()
    ensures runs { VerifiedCodeKeeps }
    ensures ends { VerifiedCodeEnds }
{}

/// Where verified code that the machine runs has no next step, a field has no value, a field isn't available in a state, or no test
/// is noted that could end.
pub fn verified_code_goes_on()
    ensures { VerifiedCodeSteps }
{}

/// Each jump of verified code leads ahead, or to a `unit`, so that its runs end.
pub fn verified_jumps_lead_ahead_or_to_unit()
    ensures { VerifiedJumpsLeadAheadOrToUnit }
{}
