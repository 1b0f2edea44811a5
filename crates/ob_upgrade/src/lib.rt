//! Whether the stores of a program go on with a new one, and the change of a store that makes it one of the new program.
#![tactic(auto)]

mod comparing;
mod matching;
mod upgrading;

pub use matching::match_programs;
pub use upgrading::upgraded;
