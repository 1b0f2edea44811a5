//! The tree of the instances of a program with generic contracts, or its first fault of type parameters and type arguments.
#![tactic(auto)]

mod contracts;
mod expressions;
mod making;
mod members;
mod naming;
mod statements;

pub use making::{GenericError, instance_of_fault, instances, one_first_type_fault, tree_or_fault};
pub use ob_generic_walk::InstanceOfFault;
