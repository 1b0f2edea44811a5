//! Permission soundness: each step keeps to coherent configurations, so no run gets stuck and no request goes wrong; and each
//! request leaves the store at rest.
#![tactic(auto)]

ghost use Rattle.ob_soundness_laws.specs.Requests.{BeginsSo, EndsSo, NoRequestGoesWrongBy, NoRequestGoesWrong, RunsMeetStates};
ghost use Rattle.ob_soundness_laws.specs.Running.{StepsKeep};
ghost use Rattle.ob_soundness_laws.specs.Sound.{CompiledProgramsAreSound};

/// Each step from a coherent configuration, of a program whose bodies are well-formed and derive by the permission rules,
/// comes to a coherent configuration, to the end of the run, or to an abort. None is stuck.
pub fn steps_keep_coherence()
    ensures { StepsKeep }
{}

/// The run that a request enters on a store at rest begins with a coherent configuration, or aborts. Where it has ended, the
/// store is at rest again.
pub fn runs_lead_from_rest_to_rest()
    ensures begins { BeginsSo }
    ensures ends { EndsSo }
{}

/// Of a program that is checked no request on a store at rest goes wrong by a meaning that comes to what its terms do, with any number of
/// units, and each leaves the store at rest. So it is by the source meaning of a program that is lowered and checked. In each
/// configuration of a run each object that a frame or a field owns is in one of the states that are noted there, and at a return in one
/// of those that an owning exit declares: no transaction meets an object that it owns outside its states.
pub fn no_request_goes_wrong()
    ensures by { NoRequestGoesWrongBy }
    ensures requests { NoRequestGoesWrong }
    ensures states { RunsMeetStates }
{}

/// A program whose class table meets the conditions, whose bodies are well-formed and lowered, and whose terms are well-formed
/// and derive, is sound: its steps keep coherence, its requests don't go wrong and leave the store at rest, and each stored
/// asset that is marked neither as shared nor as disowned has exactly one owner.
pub fn compiled_programs_are_sound()
    ensures { CompiledProgramsAreSound }
{}
