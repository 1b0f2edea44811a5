//! What the bytes of a disk represent: areas with their headers and records, and where they are none.
#![tactic(auto)]

mod laws;

pub use laws::{each_finding, one_finding, one_journal, one_meaning, one_outcome};
