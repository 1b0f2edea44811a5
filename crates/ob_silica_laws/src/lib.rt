//! Laws of Silica steps: what each of them keeps, and how their numbers add up.
#![tactic(auto)]

mod laws;

pub use laws::{objects_stay, reads_grow, runs_end, steps_are_enough, units_add_up};
