//! Faults of names and types in words: what a name denotes, which name is near, which types differ, what a declaration says, and
//! in which instance of a generic contract it is so.
#![tactic(auto)]

mod calls;
mod declarations;
mod duplicates;
mod hints;
mod interfaces;
mod kinds;
mod mismatches;
mod naming;
mod near;
mod sites;
mod telling;
mod types;
mod within;

pub use telling::{explain_names, explain_too_many, explain_types};
pub use within::Within;
