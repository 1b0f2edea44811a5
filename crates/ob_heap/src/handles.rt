//! The handles of a store, in blocks.
ghost use Rattle.std.specs.Prelude.{◌≡◌, ◌<◌, ◌≤◌, ◌+◌, ◌^◌, suc, [], nat_le, length, slice_index_or, OnOk};
ghost use Rattle.std.specs.Vec.{vec_capacity, vec_len};
ghost use Rattle.ob_heap.specs.Blocks.{block_size, joined, block_place, AreFilled};
ghost use Rattle.ob_heap.specs.Contents.{name_of, handle_at, IsInOrder};
ghost use Rattle.ob_heap.specs.Deltas.{with_handle, without_handle};

use crate::block::Block;
use crate::object::Handle;
use crate::ordered;
use ob_base::{Label, Memory};
use std::alloc::Global;
use std::marker::Model;

/// Handles in the order of their names, each name once. They stand in blocks, so that a handle that is put or goes moves those of
/// one block alone.
#[derive(Drop)]
pub struct Handles {
    // None is empty.
    blocks: Vec<Block>,
    // Blocks for handles to come: each that is put takes one at most.
    spare: Vec<Block>,
    count: usize,
    room: usize,
}

impl Model for Handles {
    ghost use Rattle.std.specs.Prelude.{◌≤◌, ◌<◌, ◌+◌, ◌^◌};
    ghost use Rattle.std.specs.Vec.{vec_len, vec_capacity};
    ghost use Rattle.ob_heap.specs.Blocks.{Kept, AreBlocks, joined};

    ghost Value = { Kept };

    ghost view = { λ h. record { handles = joined h.blocks.items; room = h.room } };

    ghost invariant = { λ h. AreBlocks h.blocks.items h.count × (h.room ≤ vec_len h.spare)
        × (vec_len h.blocks + h.room ≤ vec_capacity h.blocks) × (h.count + h.room < 2 ^ 64) };
}

// The place of the block that a name belongs into.
fn block_of(blocks: &[Block], who: &Label, name: &Label) -> usize
    requires order { IsInOrder (joined blocks.now) }
    requires filled { AreFilled blocks.now }
    ensures { result ≡ block_place (record { who = who.now; name = name.now }) blocks.now }
{
    let mut low = 0;
    let mut high = blocks.len();
    while high - low > 1 {
        let middle = low + (high - low) / 2;
        if ordered::starts_after(blocks[middle].as_slice(), who, name) {
            high = middle;
        } else {
            low = middle;
        }
    }
    low
}

fn find(blocks: &[Block], who: &Label, name: &Label) -> Option<Handle>
    requires order { IsInOrder (joined blocks.now) }
    requires filled { AreFilled blocks.now }
    ensures { result ≡ handle_at (record { who = who.now; name = name.now }) (joined blocks.now) }
{
    let place = block_of(blocks, who, name);
    if place >= blocks.len() {
        return None;
    }
    ordered::find(blocks[place].as_slice(), who, name)
}

// Puts a handle where there is none.
fn put_first(blocks: &mut Vec<Block>, mut block: Block, name: (Label, Label), handle: Handle)
    requires none { blocks.old.items ≡ [] }
    requires empty { block ≡ [] }
    requires room { vec_len blocks.old < vec_capacity blocks.old }
    ensures items { joined blocks.new.items ≡ with_handle name handle (joined blocks.old.items) }
    ensures filled { AreFilled blocks.new.items }
    ensures len { vec_len blocks.new ≤ suc (vec_len blocks.old) }
    ensures capacity { vec_capacity blocks.old ≤ vec_capacity blocks.new }
{
    block.put(name, handle);
    match blocks.push(block) {
        Ok(()) => {}
        Err(_) => unreachable!(),
    }
}

// Puts a handle into the block at the place that its name belongs into.
fn put_in(blocks: &mut Vec<Block>, place: usize, name: (Label, Label), handle: Handle)
    requires order { IsInOrder (joined blocks.old.items) }
    requires filled { AreFilled blocks.old.items }
    requires place { (place ≡ block_place (name_of name) blocks.old.items) × (place < length blocks.old.items) }
    requires room { length (slice_index_or blocks.old.items place []) < block_size }
    ensures items { joined blocks.new.items ≡ with_handle name handle (joined blocks.old.items) }
    ensures filled { AreFilled blocks.new.items }
    ensures len { vec_len blocks.new ≡ vec_len blocks.old }
    ensures capacity { vec_capacity blocks.old ≤ vec_capacity blocks.new }
{
    blocks[place].put(name, handle);
}

// Puts a handle into the full block at the place that its name belongs into, whose later half goes into a block of its own.
fn put_halving(
    blocks: &mut Vec<Block>,
    mut upper: Block,
    place: usize,
    name: (Label, Label),
    handle: Handle,
)
    requires empty { upper ≡ [] }
    requires order { IsInOrder (joined blocks.old.items) }
    requires filled { AreFilled blocks.old.items }
    requires place { (place ≡ block_place (name_of name) blocks.old.items) × (place < length blocks.old.items) }
    requires full { block_size ≤ length (slice_index_or blocks.old.items place []) }
    requires room { vec_len blocks.old < vec_capacity blocks.old }
    ensures items { joined blocks.new.items ≡ with_handle name handle (joined blocks.old.items) }
    ensures filled { AreFilled blocks.new.items }
    ensures len { vec_len blocks.new ≤ suc (vec_len blocks.old) }
    ensures capacity { vec_capacity blocks.old ≤ vec_capacity blocks.new }
{
    blocks[place].put_halving(&mut upper, name, handle);
    match blocks.insert(place + 1, upper) {
        Ok(()) => {}
        Err(_) => unreachable!(),
    }
}

// Whether there is no room for another handle in the block at a place.
fn is_full_at(blocks: &[Block], place: usize) -> bool
    requires { place < length blocks.now }
    ensures { result ≡ nat_le block_size (length (slice_index_or blocks.now place [])) }
{
    blocks[place].is_full()
}

// Takes a block with no handle.
fn take_spare(spare: &mut Vec<Block>) -> Block
    requires { 0 < vec_len spare.old }
    ensures block { result ≡ [] }
    ensures len { suc (vec_len spare.new) ≡ vec_len spare.old }
{
    match spare.pop() {
        Some(mut block) => {
            block.clear();
            block
        }
        None => unreachable!(),
    }
}

fn put(blocks: &mut Vec<Block>, spare: &mut Vec<Block>, name: (Label, Label), handle: Handle)
    requires order { IsInOrder (joined blocks.old.items) }
    requires filled { AreFilled blocks.old.items }
    requires room { vec_len blocks.old < vec_capacity blocks.old }
    requires spare { 0 < vec_len spare.old }
    ensures items { joined blocks.new.items ≡ with_handle name handle (joined blocks.old.items) }
    ensures filled { AreFilled blocks.new.items }
    ensures len { vec_len blocks.new ≤ suc (vec_len blocks.old) }
    ensures capacity { vec_capacity blocks.old ≤ vec_capacity blocks.new }
    ensures spare { vec_len spare.old ≤ suc (vec_len spare.new) }
{
    let place = block_of(blocks.as_slice(), &name.0, &name.1);
    if place >= blocks.len() {
        put_first(blocks, take_spare(spare), name, handle);
    } else if is_full_at(blocks.as_slice(), place) {
        put_halving(blocks, take_spare(spare), place, name, handle);
    } else {
        put_in(blocks, place, name, handle);
    }
}

fn remove(blocks: &mut Vec<Block>, name: &(Label, Label))
    requires order { IsInOrder (joined blocks.old.items) }
    requires filled { AreFilled blocks.old.items }
    ensures items { joined blocks.new.items ≡ without_handle name.now (joined blocks.old.items) }
    ensures filled { AreFilled blocks.new.items }
    ensures len { vec_len blocks.new ≤ vec_len blocks.old }
    ensures capacity { vec_capacity blocks.old ≤ vec_capacity blocks.new }
{
    let place = block_of(blocks.as_slice(), &name.0, &name.1);
    if place >= blocks.len() {
        return;
    }
    let block = &mut blocks[place];
    block.remove(name);
    if block.is_empty() {
        let _emptied = blocks.remove(place);
    }
}

// How many handles there are once this one is put among so many.
fn count_with(blocks: &[Block], count: usize, name: &(Label, Label), handle: Handle) -> usize
    requires order { IsInOrder (joined blocks.now) }
    requires filled { AreFilled blocks.now }
    requires count { count ≡ length (joined blocks.now) }
    requires room { count + 1 < 2 ^ 64 }
    ensures { result ≡ length (with_handle name.now handle (joined blocks.now)) }
{
    if find(blocks, &name.0, &name.1).is_some() {
        return count;
    }
    count + 1
}

// How many handles there are of so many once that of a name is gone.
fn count_without(blocks: &[Block], count: usize, name: &(Label, Label)) -> usize
    requires order { IsInOrder (joined blocks.now) }
    requires filled { AreFilled blocks.now }
    requires count { count ≡ length (joined blocks.now) }
    ensures { result ≡ length (without_handle name.now (joined blocks.now)) }
{
    if find(blocks, &name.0, &name.1).is_some() {
        return count - 1;
    }
    count
}

// Makes blocks until there are so many.
fn add_spare(spare: &mut Vec<Block>, alloc: Global, most: usize) -> Result<(), Memory>
    ensures ok { OnOk result (most ≤ vec_len spare.new) }
    ensures more { vec_len spare.old ≤ vec_len spare.new }
{
    while spare.len() < most {
        spare.push(Block::new(alloc)?)?;
    }
    Ok(())
}

impl Handles {
    /// No handles.
    pub fn new(alloc: Global) -> Handles
        ensures handles { result.handles ≡ [] }
    {
        Handles {
            blocks: Vec::new(alloc),
            spare: Vec::new(alloc),
            count: 0,
            room: 0,
        }
    }

    /// The handle of this name.
    pub fn find(&self, who: &Label, name: &Label) -> Option<Handle>
        ensures { result ≡ handle_at (record { who = who.now; name = name.now }) self.now.handles }
    {
        find(self.blocks.as_slice(), who, name)
    }

    /// How many there are.
    pub fn count(&self) -> usize
        ensures count { result ≡ length self.now.handles }
        ensures order { IsInOrder self.now.handles }
    {
        self.count
    }

    /// The blocks, one after another.
    pub fn blocks(&self) -> &[Block]
        ensures { joined result.now ≡ self.now.handles }
    {
        self.blocks.as_slice()
    }

    /// Makes room for so many more.
    pub fn reserve(&mut self, more: usize) -> Result<(), Memory>
        ensures handles { self.new.handles ≡ self.old.handles }
        ensures room { OnOk result (more ≤ self.new.room) }
    {
        if more <= self.room {
            return Ok(());
        }
        if more > usize::MAX - self.count {
            return Err(Memory);
        }
        self.blocks.reserve(more)?;
        let alloc = *self.spare.allocator();
        add_spare(&mut self.spare, alloc, more)?;
        self.room = more;
        Ok(())
    }

    /// A handle is put among them; another of its name goes.
    pub fn put(&mut self, name: (Label, Label), handle: Handle)
        requires { 0 < self.old.room }
        ensures handles { self.new.handles ≡ with_handle name handle self.old.handles }
        ensures room { suc self.new.room ≡ self.old.room }
    {
        self.count = count_with(self.blocks.as_slice(), self.count, &name, handle);
        put(&mut self.blocks, &mut self.spare, name, handle);
        self.room -= 1;
    }

    /// The handle of the name goes, if there is one.
    pub fn remove(&mut self, name: &(Label, Label))
        ensures handles { self.new.handles ≡ without_handle name.now self.old.handles }
        ensures room { self.new.room ≡ self.old.room }
    {
        self.count = count_without(self.blocks.as_slice(), self.count, name);
        remove(&mut self.blocks, name);
    }
}
