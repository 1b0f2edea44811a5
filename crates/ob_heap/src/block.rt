//! A part of the handles of a store.
ghost use Rattle.std.specs.Prelude.{◌≡◌, ◌<◌, ◌≤◌, suc, [], ◌++◌, nat_le, nat_eq, length, IfOk};
ghost use Rattle.std.specs.Vec.{vec_capacity};
ghost use Rattle.ob_heap.specs.Blocks.{block_size};
ghost use Rattle.ob_heap.specs.Contents.{IsInOrder};
ghost use Rattle.ob_heap.specs.Deltas.{with_handle, without_handle};

use crate::object::Handle;
use crate::ordered;
use ob_base::{Label, Memory};
use std::alloc::Global;
use std::marker::Model;

// How many handles a block takes.
const BLOCK_SIZE: usize = 64;

/// Handles with their names, 64 at most.
#[derive(Drop)]
pub struct Block {
    items: Vec<((Label, Label), Handle)>,
}

impl Model for Block {
    ghost use Rattle.std.specs.Prelude.{List, ◌≤◌, length};
    ghost use Rattle.std.specs.Vec.{vec_capacity};
    ghost use Rattle.ob_base.specs.declared.name.Label.{Label};
    ghost use Rattle.ob_heap.specs.declared.object.Handle.{Handle};
    ghost use Rattle.ob_heap.specs.Blocks.{block_size};

    ghost Value = { List ((Label × Label) × Handle) };

    ghost view = { λ b. b.items.items };

    ghost invariant = { λ b. (length b.items.items ≤ block_size) × (block_size ≤ vec_capacity b.items) };
}

// The last handle of one list goes to the front of the other.
fn move_last(lower: &mut Vec<((Label, Label), Handle)>, upper: &mut Vec<((Label, Label), Handle)>)
    requires filled { 0 < length lower.old.items }
    requires room { length upper.old.items < vec_capacity upper.old }
    ensures items { lower.new.items ++ upper.new.items ≡ lower.old.items ++ upper.old.items }
    ensures lower { suc (length lower.new.items) ≡ length lower.old.items }
    ensures upper { length upper.new.items ≡ suc (length upper.old.items) }
    ensures capacity { (vec_capacity lower.old ≤ vec_capacity lower.new) × (vec_capacity upper.old ≤ vec_capacity upper.new) }
{
    if let Some(handle) = lower.pop() {
        match upper.insert(0, handle) {
            Ok(()) => {}
            Err(_) => unreachable!(),
        }
    }
}

// The later half of the handles of a full block goes into an empty one.
fn halve(lower: &mut Vec<((Label, Label), Handle)>, upper: &mut Vec<((Label, Label), Handle)>)
    requires full { length lower.old.items ≡ block_size }
    requires empty { upper.old.items ≡ [] }
    requires room { block_size ≤ vec_capacity upper.old }
    ensures items { lower.new.items ++ upper.new.items ≡ lower.old.items }
    ensures lower { (0 < length lower.new.items) × (length lower.new.items < block_size) }
    ensures upper { (0 < length upper.new.items) × (length upper.new.items < block_size) }
    ensures capacity { (vec_capacity lower.old ≤ vec_capacity lower.new) × (vec_capacity upper.old ≤ vec_capacity upper.new) }
{
    for _ in 0..BLOCK_SIZE / 2 {
        move_last(lower, upper);
    }
}

impl Block {
    /// A block with no handle.
    pub fn new(alloc: Global) -> Result<Block, Memory>
        ensures { IfOk result (λ block. block ≡ []) }
    {
        Ok(Block {
            items: Vec::with_capacity(alloc, BLOCK_SIZE)?,
        })
    }

    /// The handles.
    pub fn as_slice(&self) -> &[((Label, Label), Handle)]
        ensures { result.now ≡ self.now }
    {
        self.items.as_slice()
    }

    /// Whether there is no handle.
    pub fn is_empty(&self) -> bool
        ensures { result ≡ nat_eq (length self.now) 0 }
    {
        self.items.is_empty()
    }

    /// Whether there is no room for another handle.
    pub fn is_full(&self) -> bool
        ensures { result ≡ nat_le block_size (length self.now) }
    {
        self.items.len() >= BLOCK_SIZE
    }

    /// All handles go.
    pub fn clear(&mut self)
        ensures { self.new ≡ [] }
    {
        self.items.clear();
    }

    /// A handle is put among those of a block that isn't full; another of its name goes.
    #[tactic(auto, using(crate::proofs::DeltasLemmas::changes))]
    pub fn put(&mut self, name: (Label, Label), handle: Handle)
        requires order { IsInOrder self.old }
        requires room { length self.old < block_size }
        ensures { self.new ≡ with_handle name handle self.old }
    {
        ordered::put_handle(&mut self.items, name, handle);
    }

    /// The handle of the name goes, if there is one.
    #[tactic(auto, using(crate::proofs::DeltasLemmas::changes))]
    pub fn remove(&mut self, name: &(Label, Label))
        requires { IsInOrder self.old }
        ensures { self.new ≡ without_handle name.now self.old }
    {
        ordered::remove_handle(&mut self.items, name);
    }

    /// A handle is put among those of a full block, whose later half goes into an empty one; another of its name goes.
    pub fn put_halving(&mut self, upper: &mut Block, name: (Label, Label), handle: Handle)
        requires order { IsInOrder self.old }
        requires full { block_size ≤ length self.old }
        requires empty { upper.old ≡ [] }
        ensures items { self.new ++ upper.new ≡ with_handle name handle self.old }
        ensures filled { (0 < length self.new) × (0 < length upper.new) }
    {
        halve(&mut self.items, &mut upper.items);
        if ordered::starts_after(upper.as_slice(), &name.0, &name.1) {
            self.put(name, handle);
        } else {
            upper.put(name, handle);
        }
    }
}
