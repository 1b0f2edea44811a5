//! A store is the same by the class table of a program and by that of its emitted image.
#![tactic(auto)]

mod laws;

pub use laws::stores_ignore_names;
