//! Reading the parts of formats from the front of bytes, and appending them. No count takes memory before that many bytes were
//! seen.
#![tactic(auto)]

mod halt;
mod numbers;
mod part;
mod range;
mod texts;

pub use halt::{Halt, refused};
pub use numbers::{any_byte, byte_below, integer, number, one_byte};
pub use part::{Part, counted, counted_by_byte, put_counted, put_counted_by_byte};
pub use range::number_in;
pub use texts::{put_text_bytes, text};
