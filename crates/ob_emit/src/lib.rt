//! Emission: from the terms of bodies to an image of instructions, with the targets of jumps ahead written back.
#![tactic(auto)]

mod bodies;
mod code;
mod declarations;
mod emission;
mod forms;
mod frame;
mod operands;
mod scratch;
mod straight;
mod terms;
mod weigh;

pub use emission::{EmitError, emit};
