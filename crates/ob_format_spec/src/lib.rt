//! Formats of bytes: what spells a value, what begins one, and where bytes fail; how formats are put together, and what holds of
//! each that is lawful.
#![tactic(auto)]

mod laws;
mod range;
mod text;

pub use laws::{Formatted, one_answer};
pub use range::Range;
pub use text::Due;
