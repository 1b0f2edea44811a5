//! Copies of plain data.
ghost use Rattle.std.specs.Prelude.{◌≡◌, ◌&&◌, false, IfOk, MatchResult, is_ok};

use crate::{Items, Memory};
use std::alloc::Global;

/// Plain data that can be copied, though a copy takes memory.
pub trait Duplicate {
    /// An equal value.
    fn copy(&self, alloc: Global) -> Result<Self, Memory>
        ensures { IfOk result (λ copy. copy ≡ self.now) };
}

/// A list of copies, in the same order.
pub fn copy_items<T: Duplicate + Drop>(alloc: Global, items: &Items<T>) -> Result<Items<T>, Memory>
    ensures { IfOk result (λ copies. copies ≡ items.now) }
{
    let mut copies = Items::new(alloc);
    for item in items.as_slice() {
        copies.push(item.copy(alloc)?)?;
    }
    Ok(copies)
}

/// A copy of a value that may be missing.
pub fn copy_option<T: Duplicate + Drop>(
    alloc: Global,
    value: &Option<T>,
) -> Result<Option<T>, Memory>
    ensures { IfOk result (λ copy. copy ≡ value.now) }
{
    match value {
        None => Ok(None),
        Some(value) => Ok(Some(value.copy(alloc)?)),
    }
}

/// The two parts, exactly where there was memory for both.
pub fn both<A: Drop, B: Drop>(
    first: Result<A, Memory>,
    second: Result<B, Memory>,
) -> Result<(A, B), Memory>
    ensures { MatchResult result (λ parts. (first ≡ Ok parts.0) × (second ≡ Ok parts.1))
        (λ _. is_ok first && is_ok second ≡ false) }
{
    match (first, second) {
        (Ok(first), Ok(second)) => Ok((first, second)),
        _ => Err(Memory),
    }
}
