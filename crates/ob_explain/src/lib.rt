//! Errors that teach: the first fault of a program's text told to a person, with the line that it is about, what is wrong in this
//! program's own names, and how to mend it. Nothing is claimed of what is said but that it has a bound.
#![tactic(auto)]

mod bodies;
mod calling;
mod hiding;
mod noting;
mod telling;

pub use telling::{explain, explain_memory, notes};
