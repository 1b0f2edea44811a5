//! The numbers of a trial.

/// How many lines a trial has, how many of their replies are of each kind, and what the store holds after them.
#[derive(Clone, Copy)]
pub struct Counts {
    /// The lines that got a reply.
    pub lines: u64,
    /// The requests that were done.
    pub ok: u64,
    /// The requests that were begun and undone.
    pub aborted: u64,
    /// The lines of which nothing was begun.
    pub refused: u64,
    /// The objects of the store.
    pub objects: u64,
    /// The handles of all clients together.
    pub handles: u64,
}
