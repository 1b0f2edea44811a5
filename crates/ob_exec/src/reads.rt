//! What a run has read.
ghost use Rattle.std.specs.Prelude.{◌≡◌, ◌++◌, ◌&&◌, not, map, length, option_map, IfOk};
ghost use Rattle.ob_heap.specs.Plain.{value_of};
ghost use Rattle.ob_heap_spec.specs.Worlds.{ReadSame};
ghost use Rattle.ob_machine_parts.specs.Shown.{reads_of};
ghost use Rattle.ob_exec_handles.specs.Spending.{item_of};
ghost use Rattle.ob_exec.specs.Going.{IsFresh};
ghost use Rattle.ob_exec.specs.Reading.{given_read};

use crate::spending::{read_next, read_numbers, read_put};
use ob_base::{Items, Label, Memory, Mode};
use ob_exec_handles::ReadItem;
use ob_heap::{Content, Overlay, Value};
use std::alloc::Global;
use std::marker::Model;

/// The items that a run has read, in the order in which they were noted. What was noted of its overlay stands beside them.
#[derive(Drop)]
pub struct Reads {
    items: Items<ReadItem>,
    numbers: Items<u32>,
    next: bool,
}

impl Model for Reads {
    ghost use Rattle.std.specs.Prelude.{List, ◌++◌, map};
    ghost use Rattle.ob_heap_spec.specs.Worlds.{ReadItem, AllRead, object_item};
    ghost use Rattle.ob_machine_parts.specs.Shown.{next_read};
    ghost use Rattle.ob_exec_handles.specs.Spending.{item_of};

    ghost Value = { List ReadItem };

    ghost view = { λ r. map item_of r.items };

    ghost invariant = { λ r. AllRead (next_read r.next ++ map object_item r.numbers) (map item_of r.items) };
}

// Numbers that weren't noted: what was noted stands first, in the same order.
fn fresh<'a>(noted: &[u32], numbers: &'a [u32]) -> &'a [u32]
    ensures { IsFresh noted.now numbers.now result.now }
{
    match numbers.strip_prefix(noted) {
        Some(rest) => rest,
        None => numbers,
    }
}

// Whether it is read for the first time.
fn is_first(is_read: bool, was_read: bool) -> bool
    ensures { result ≡ (is_read && not was_read) }
{
    is_read && !was_read
}

impl Reads {
    /// These items are read, and nothing through an overlay.
    pub fn new(alloc: Global, items: Items<ReadItem>) -> Reads
        ensures { result ≡ map item_of items }
    {
        Reads {
            items,
            numbers: Items::new(alloc),
            next: false,
        }
    }

    /// What was read through the overlay is noted too.
    pub fn noted(self, alloc: Global, overlay: &Overlay) -> Result<Reads, Memory>
        ensures { IfOk result (λ reads. ReadSame (self ++ reads_of overlay.now) reads) }
    {
        let Reads {
            items,
            numbers,
            next,
        } = self;
        let mut items = items;
        let has_next = overlay.has_read_next();
        read_next(&mut items, is_first(has_next, next))?;
        let all = overlay.reads(alloc)?;
        read_numbers(&mut items, fresh(numbers.as_slice(), all.as_slice()))?;
        Ok(Reads {
            items,
            numbers: Items::from_vec(all),
            next: has_next,
        })
    }

    /// The object that is put into a Shared handle is read, since it is marked.
    pub fn with_given(
        self,
        content: &Content,
        into: &Option<Label>,
        given: Option<Mode>,
        value: &Option<Value>,
    ) -> Result<Reads, Memory>
        ensures { IfOk result (λ reads. reads ≡ self ++ given_read (length content.now.objects) into.now given (option_map value_of value.now)) }
    {
        let Reads {
            items,
            numbers,
            next,
        } = self;
        let mut items = items;
        read_put(&mut items, content, into, given, value)?;
        Ok(Reads {
            items,
            numbers,
            next,
        })
    }

    /// The items.
    pub fn as_slice(&self) -> &[ReadItem]
        ensures { map item_of result.now ≡ self.now }
    {
        self.items.as_slice()
    }

    /// The items alone.
    pub fn into_items(self) -> Items<ReadItem>
        ensures { map item_of result ≡ self }
    {
        let Reads { items, .. } = self;
        items
    }
}
