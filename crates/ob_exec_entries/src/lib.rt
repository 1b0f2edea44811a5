//! What a request enters: a constructor or a transaction, or why it enters none.
#![tactic(auto)]

mod arguments;
mod checks;
mod entered;
mod entering;
mod finding;
mod lookups;
mod modes;
mod names;
mod numbering;
mod target;

pub use entered::{EnterError, Entered, HandleUse};
pub use entering::{enter_call, enter_new};
pub use names::Names;
