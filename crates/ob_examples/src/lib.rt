//! Small programs, worked out: their faults and class tables, what their bodies do by the source meaning, to which terms
//! these may be lowered, what their runs by steps tell, and which stores are at rest.
#![tactic(auto)]

pub mod meaning;
pub mod mistakes;
pub mod source;
pub mod steps;
pub mod stores;
pub mod terms;
