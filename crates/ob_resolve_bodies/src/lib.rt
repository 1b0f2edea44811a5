//! The bodies of a program with numbers in place of names, and permissions over the numbers of states.
#![tactic(auto)]

mod expressions;
mod numbers;
mod operators;
mod permissions;
mod statements;

pub use numbers::{contract_id, field_id, wide};
pub use permissions::{own_perm_on, own_states_named, perm_on};
pub use statements::resolve_stmts;
