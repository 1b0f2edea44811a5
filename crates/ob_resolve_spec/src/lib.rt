//! What a program's tree means: its class table, or the faults that it has.
#![tactic(auto)]

mod kind;
mod variable;

pub use kind::InferredKind;
pub use variable::ScopeVariable;
