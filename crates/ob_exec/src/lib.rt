//! The answer to a request: what it comes to by the code of a program, and what differs in the store. It is a run, which can also be made in
//! slices of units, on what the store holds at the moment.
#![tactic(auto)]

mod answering;
mod bodies;
mod ending;
mod invoked;
mod laws;
mod opening;
mod outside;
mod puts;
mod reading;
mod reads;
mod runs;
mod spending;
mod stage;
mod still;

pub use answering::answer;
pub use laws::{first_slices_may_be_empty, paused_runs_stand_elsewhere};
pub use runs::{Run, SliceOutcome};
