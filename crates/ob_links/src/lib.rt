//! Linked lists, whose nodes stand in one vector.
#![tactic(auto)]

mod chains;
mod links;
mod node;
mod steps;

pub use links::Links;
pub use node::NodeId;
pub use steps::Steps;
