//! What an image says of its contracts, their bodies and their states, and the class table that it gives; and what stands
//! in it at a number, as that table has it.
#![tactic(auto)]

mod available;
mod lookups;

pub use available::{bits, has_bit, is_available_in, state_number};
pub use lookups::{body_code, constructor_code, contract_at};
