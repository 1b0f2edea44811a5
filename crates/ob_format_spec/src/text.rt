//! What is known between two bytes of a text.

/// What is due of a character of a text: how many bytes of it are still to come, and between which the next one lies.
#[derive(Clone, Copy)]
pub struct Due {
    /// How many bytes are still to come; 0 between characters.
    pub count: u8,
    /// The least that the next one may be.
    pub low: u8,
    /// The greatest that the next one may be.
    pub high: u8,
}
