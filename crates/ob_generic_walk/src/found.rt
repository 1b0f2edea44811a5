//! What a walk over a program has found so far.
use crate::known::Known;
use ob_resolve_sites::Least;

/// The instances that are needed, and the least fault.
#[derive(Drop)]
pub struct Found {
    /// The instances, in the order in which they were first needed.
    pub known: Known,
    /// The fault of the least place, and of the least number there.
    pub least: Least,
}
