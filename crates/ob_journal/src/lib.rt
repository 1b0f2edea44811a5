//! A journal: records on a disk behind the bytes of an image, each of them whole or not there, whenever a crash comes.
#![tactic(auto)]

mod appending;
mod beginning;
mod error;
mod finding;
mod heads;
mod journal;
mod parts;
mod place;
mod recorded;
mod records;
mod spare;

pub use error::{BuildError, DiskFault, JournalError};
pub use journal::{AreaDraft, Built, BuiltArea, Found, Journal};
pub use recorded::Recorded;
pub use records::first_record;
