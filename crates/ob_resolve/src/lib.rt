//! From a program's tree to its class table, or its first fault of names and types.
#![tactic(auto)]

mod contract;
mod member;
mod names;
mod program;
mod resolving;

pub use program::fault_of_contract;
pub use resolving::resolve;
