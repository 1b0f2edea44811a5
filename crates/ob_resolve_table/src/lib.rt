//! The class table of a program, with its bodies.
#![tactic(auto)]

mod bodies;
mod constructors;
mod contracts;
mod fields;
mod kinds;
mod signatures;
mod tables;

pub use tables::make_table;
