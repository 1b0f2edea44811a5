//! Why bytes are no image.

/// Why no image was decoded.
#[derive(Clone, Copy)]
pub enum CodeError {
    /// The bytes spell no image; this is the first offset at which none goes on.
    BadImage(u64),
    /// Memory ran out.
    Memory,
}
