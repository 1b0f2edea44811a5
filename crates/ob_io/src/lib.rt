//! The outside: where bytes come from, where they go, and the files that are read whole.
#![tactic(auto)]

mod asks;
mod files;
mod lines;
mod memory;
mod sink;
mod source;
mod sure;

pub use asks::Asks;
pub use files::{FileError, Files};
pub use lines::{Lines, Next};
pub use memory::{MemoryFiles, MemorySink, MemorySource};
pub use sink::{Sink, write_all};
pub use source::Source;
pub use sure::{SureFiles, SureSink, SureSource};
