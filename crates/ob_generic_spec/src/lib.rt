//! The instances of generic contracts: which of them a program needs and in which order, which faults the types of a program
//! have, and the tree that has a contract in the place of each instance.
#![tactic(auto)]

mod head;
mod instance;
mod role;

pub use head::Head;
pub use instance::{Argument, Instance, Written};
pub use role::Role;
