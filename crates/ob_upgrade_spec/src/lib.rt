//! When a store of one program goes on with another program, and what becomes of it.
#![tactic(auto)]

/// Why the stores of a program don't go on with a new one: of which contract, by its number in the old program.
#[derive(Clone, Copy)]
pub enum Mismatch {
    /// The new program has no contract of its name.
    Missing(usize),
    /// The new program's contract of its name declares something else.
    Changed(usize),
}
