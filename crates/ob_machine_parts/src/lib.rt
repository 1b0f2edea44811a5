//! What an instruction does to slots, objects and locks, and what it looks up in an image.
#![tactic(auto)]

pub mod arguments;
pub mod calling;
pub mod entered;
pub mod fields;
pub mod guard;
pub mod heap;
pub mod locks;
pub mod lookups;
mod numbers;
pub mod off;
pub mod operations;
pub mod seen;
pub mod slots;
pub mod units;
