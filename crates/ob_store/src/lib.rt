//! A store on a disk: its content in memory, and a journal whose payloads lead to it, in one of two areas.
#![tactic(auto)]

mod error;
mod opening;
mod reading;
mod store;
mod telling;
mod writing;

pub use error::{OpenError, PrepareError};
pub use reading::read_store;
pub use store::{Prepared, Store};
