//! The faults of bodies: a walk over their statements and expressions, which gives the least fault.
#![tactic(auto)]

mod expressions;
mod parts;
mod statements;

pub use statements::walk_body;
