//! Faults of the permission rules in words: what a place is held as where a premise fails, what is wanted there, and by which part
//! of which declaration; and where an accepted text lets go of assets.
#![tactic(auto)]

mod case;
mod exits;
mod fields;
mod forgetting;
mod forms;
mod holding;
mod known;
mod letting;
mod looping;
mod own;
mod permissions;
mod telling;
mod tested;
mod unreached;
mod uses;
mod ways;

pub use letting::say_letting;
pub use telling::explain_body;
