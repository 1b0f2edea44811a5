//! The instances that a program needs, and the least fault of its type parameters and type arguments.
#![tactic(auto)]

mod contracts;
mod copied;
mod declaring;
mod error;
mod expressions;
mod fault_instance;
mod finding;
mod found;
mod headings;
mod known;
mod members;
mod statements;
mod type_notes;
mod visiting;

pub use error::WalkError;
pub use fault_instance::{InstanceOfFault, instance_of_fault};
pub use finding::find;
pub use found::Found;
pub use known::Known;
