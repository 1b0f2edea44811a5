//! Ranges of numbers.

/// The numbers from `low` to `high`.
#[derive(Clone, Copy)]
pub struct Range {
    /// The least of them.
    pub low: u32,
    /// The greatest of them.
    pub high: u32,
}
