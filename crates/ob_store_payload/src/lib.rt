//! The payloads of a store that say what differs after a delta, and all that it holds then: they are written, and read again.
#![tactic(auto)]

mod conditions;
mod error;
mod reading;
mod reading_payload;
mod rows;
mod values;
mod whole;
mod writing;

pub use error::PayloadError;
pub use reading_payload::read_payload;
pub use whole::put_whole;
pub use writing::put_payload;
