//! Sound code: the machine runs each request of a program whose terms are well-formed and derive to its end, and of an accepted text to the
//! end that the source meaning says.
#![tactic(auto)]

ghost use Rattle.ob_sound_code.specs.Emitted.{InvocationsByEmittedCode};
ghost use Rattle.ob_sound_code.specs.SoundCode.{CheckedImagesAreSound, CheckedCodeIsSound, CompiledCodeIsSound};

/// The invocation by emitted code is the one by the program's own class table, with what a `new` and a `call` do by the code.
pub fn invocations_by_emitted_code()
    ensures { InvocationsByEmittedCode }
{}

/// The image of a class table and of terms that are well-formed and derive is sound: the run of what a request enters in a store at rest
/// always has a next step, and each request leaves the store at rest. No source is asked for.
pub fn checked_code_is_sound()
    ensures images { CheckedImagesAreSound }
    ensures by_table { CheckedCodeIsSound }
{}

/// The code of a compiled program is sound, and each request comes by the code to the reply and the content that the source meaning says.
pub fn compiled_code_is_sound()
    ensures { CompiledCodeIsSound }
{}
