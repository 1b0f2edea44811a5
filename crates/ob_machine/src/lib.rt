//! The machine: it runs code on the objects of a store.
#![tactic(auto)]

mod beginning;
mod calling;
mod changing;
mod entering;
mod entry;
mod frame;
mod laws;
mod machine;
mod marking;
mod progress;
mod returning;
mod run;
mod slice;
mod step;
mod straight;
mod stretch;
mod testing;
mod waiting;

pub use entry::Entry;
pub use laws::{same_phases_go_alike, slices_stop_or_are_stuck};
pub use machine::Machine;
pub use progress::{Cause, Progress};
