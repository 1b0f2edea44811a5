//! Lowering keeps the meaning of programs.
#![tactic(auto)]

ghost use Rattle.ob_lower_correct.specs.Bodies.{BodiesKeepMeaning};
ghost use Rattle.ob_lower_correct.specs.Law.{CallsKeepMeaning, NewsKeepMeaning};

/// Where a class table meets its conditions, each invocation ends by the Silica steps of the terms to which its bodies
/// may be lowered as it does by the source meaning: with the same result and objects, having taken as many units and read
/// the same set of items; or by an abort with the same cause, having taken as many units and read the same items. Where
/// the source meaning goes wrong, the Silica run reaches a configuration that has no step, so neither goes wrong alone.
pub fn lowering_keeps_meaning()
    ensures calls { CallsKeepMeaning }
    ensures news { NewsKeepMeaning }
{}

/// Where a class table meets its conditions, each of its bodies ends by the Silica steps of the terms to which it may be
/// lowered as it does by the source meaning: in each frame of it, with `this` and the arguments in their slots and with
/// any frames waiting below, in each world, and with any number of units left. It returns with the same result and
/// objects, having taken as many units and read the same set of items, and the frame below goes on with the result; or it
/// aborts with the same cause, having taken as many units and read the same items. Where the source meaning goes wrong,
/// the Silica run reaches a configuration that has no step.
pub fn lowering_keeps_bodies()
    ensures bodies { BodiesKeepMeaning }
{}
