//! What the run of each lane has read of objects.
ghost use Rattle.std.specs.Prelude.{◌≡◌, ℕ, ◌<◌, ◌≤◌, ◌++◌, ◌∷◌, [], suc, map, take, length, replicate, slice_set, slice_index_or, IfOk, IfSome, OnOk};
ghost use Rattle.std.specs.Option.{option_to_list};
ghost use Rattle.ob_exec_handles.specs.Spending.{item_of};
ghost use Rattle.ob_lanes.specs.Readers.{object_in, objects_of, IsTied, IsWithin, AreTied, OthersStay, IsReader};

use crate::lists::Lists;
use ob_base::{Items, Memory};
use ob_exec_handles::ReadItem;
use std::alloc::Global;
use std::marker::Model;

/// The objects that the run of each lane has read, lane by lane, in the order in which they were noted. For each of these objects there
/// is a list of the lanes whose runs have read it.
#[derive(Drop)]
pub struct Readers {
    lists: Lists,
    entered: Vec<Items<u32>>,
}

impl Model for Readers {
    ghost use Rattle.std.specs.Prelude.{ℕ, List};
    ghost use Rattle.ob_lanes.specs.Readers.{AreTied};

    ghost Value = { List (List ℕ) };

    ghost view = { λ r. r.entered.items };

    ghost invariant = { λ r. AreTied r.lists r.entered.items };
}

// The object that an item is, if it is one.
fn object_in(item: &ReadItem) -> Option<u32>
    ensures { result ≡ object_in (item_of item.now) }
{
    match item {
        ReadItem::Object(id) => Some(id.0),
        ReadItem::Next => None,
        ReadItem::Handle(_, _) => None,
        ReadItem::HandlesFull => None,
    }
}

// How many objects stand first once an item was looked at, if it is none of them or the next one.
fn found_after(item: &ReadItem, objects: &[u32], found: usize) -> Option<usize>
    requires { found < length objects.now }
    ensures found { IfSome result (λ m. take m objects.now ≡ take found objects.now ++ option_to_list (object_in (item_of item.now))) }
    ensures within { IfSome result (λ m. m ≤ length objects.now) }
{
    match object_in(item) {
        None => Some(found),
        Some(object) => {
            if object == objects[found] {
                Some(found + 1)
            } else {
                None
            }
        }
    }
}

// How many items have just these objects, if they stand first.
fn known(items: &[ReadItem], objects: &[u32]) -> Option<usize>
    ensures { IfSome result (λ m. objects.now ≡ objects_of (take m (map item_of items.now))) }
{
    let mut found = 0;
    let mut at = 0;
    while found < objects.len() {
        if at >= items.len() {
            return None;
        }
        found = found_after(&items[at], objects, found)?;
        at += 1;
    }
    Some(at)
}

// Puts a lane into the list of an object, and the object behind those of the lane.
fn put(lists: &mut Lists, entered: &mut Items<u32>, lane: usize, object: u32) -> Result<(), Memory>
    requires tied { IsTied lists.old lane entered.old }
    ensures tied { IsTied lists.new lane entered.new }
    ensures ok { OnOk result (entered.new ≡ entered.old ++ object ∷ []) }
    ensures others { OthersStay lane lists.old lists.new }
{
    entered.push(object)?;
    match lists.put(object, lane) {
        Ok(()) => Ok(()),
        Err(Memory) => {
            let _object = entered.pop();
            Err(Memory)
        }
    }
}

// The same of an item, if it is an object.
fn put_item(
    lists: &mut Lists,
    entered: &mut Items<u32>,
    lane: usize,
    item: &ReadItem,
) -> Result<(), Memory>
    requires tied { IsTied lists.old lane entered.old }
    ensures tied { IsTied lists.new lane entered.new }
    ensures ok { OnOk result (entered.new ≡ entered.old ++ option_to_list (object_in (item_of item.now))) }
    ensures others { OthersStay lane lists.old lists.new }
{
    match object_in(item) {
        Some(object) => put(lists, entered, lane, object),
        None => Ok(()),
    }
}

// The same of all items from one on.
fn put_from(
    lists: &mut Lists,
    entered: &mut Items<u32>,
    lane: usize,
    items: &[ReadItem],
    from: usize,
) -> Result<(), Memory>
    requires tied { IsTied lists.old lane entered.old }
    requires first { entered.old ≡ objects_of (take from (map item_of items.now)) }
    ensures tied { IsTied lists.new lane entered.new }
    ensures ok { OnOk result (entered.new ≡ objects_of (map item_of items.now)) }
    ensures others { OthersStay lane lists.old lists.new }
{
    for at in from..items.len() {
        put_item(lists, entered, lane, &items[at])?;
    }
    Ok(())
}

// Takes a lane out of the list of the last of its objects.
fn take_last(lists: &mut Lists, entered: &mut Items<u32>, lane: usize)
    requires some { 0 < length entered.old }
    requires within { IsWithin lists.old lane entered.old }
    ensures within { IsWithin lists.new lane entered.new }
    ensures shorter { suc (length entered.new) ≡ length entered.old }
    ensures others { OthersStay lane lists.old lists.new }
{
    if let Some(object) = entered.pop() {
        lists.take(object, lane);
    }
}

// Takes a lane out of all lists.
fn clear(lists: &mut Lists, entered: &mut Items<u32>, lane: usize)
    requires tied { IsTied lists.old lane entered.old }
    ensures tied { IsTied lists.new lane entered.new }
    ensures none { entered.new ≡ [] }
    ensures others { OthersStay lane lists.old lists.new }
{
    while !entered.is_empty() {
        take_last(lists, entered, lane);
    }
}

// How many items have just the objects of a lane. Where they have others, the lane is taken out of all lists first.
fn known_or_clear(
    lists: &mut Lists,
    entered: &mut Items<u32>,
    lane: usize,
    items: &[ReadItem],
) -> usize
    requires tied { IsTied lists.old lane entered.old }
    ensures tied { IsTied lists.new lane entered.new }
    ensures first { entered.new ≡ objects_of (take result (map item_of items.now)) }
    ensures others { OthersStay lane lists.old lists.new }
{
    match known(items, entered.as_slice()) {
        Some(at) => at,
        None => {
            clear(lists, entered, lane);
            0
        }
    }
}

// Puts a lane into the lists of the objects among items, and into no others.
fn enter(
    lists: &mut Lists,
    entered: &mut Items<u32>,
    lane: usize,
    items: &[ReadItem],
) -> Result<(), Memory>
    requires tied { IsTied lists.old lane entered.old }
    ensures tied { IsTied lists.new lane entered.new }
    ensures ok { OnOk result (entered.new ≡ objects_of (map item_of items.now)) }
    ensures others { OthersStay lane lists.old lists.new }
{
    let from = known_or_clear(lists, entered, lane, items);
    put_from(lists, entered, lane, items, from)
}

// The same of one lane among all.
fn enter_at(
    lists: &mut Lists,
    entered: &mut [Items<u32>],
    lane: usize,
    items: &[ReadItem],
) -> Result<(), Memory>
    requires lane { lane < length entered.old }
    requires tied { AreTied lists.old entered.old }
    ensures tied { AreTied lists.new entered.new }
    ensures ok { OnOk result (entered.new ≡ slice_set entered.old lane (objects_of (map item_of items.now))) }
    ensures stay { entered.new ≡ slice_set entered.old lane (slice_index_or entered.new lane []) }
{
    enter(lists, &mut entered[lane], lane, items)
}

// Takes one lane among all out of all lists.
fn clear_at(lists: &mut Lists, entered: &mut [Items<u32>], lane: usize)
    requires lane { lane < length entered.old }
    requires tied { AreTied lists.old entered.old }
    ensures tied { AreTied lists.new entered.new }
    ensures is { entered.new ≡ slice_set entered.old lane [] }
{
    clear(lists, &mut entered[lane], lane);
}

// No objects for so many lanes.
fn none_entered(alloc: Global, lanes: usize) -> Result<Vec<Items<u32>>, Memory>
    ensures { IfOk result (λ entered. entered.items ≡ replicate lanes []) }
{
    let mut entered = Vec::new(alloc);
    for _lane in 0..lanes {
        entered.push(Items::new(alloc))?;
    }
    Ok(entered)
}

impl Readers {
    /// So many lanes, of which none has read an object.
    ///
    /// # Errors
    ///
    /// `Memory` where memory runs out.
    pub fn new(alloc: Global, lanes: usize) -> Result<Readers, Memory>
        ensures { IfOk result (λ readers. readers ≡ replicate lanes []) }
    {
        let lists = Lists::new(alloc)?;
        let entered = none_entered(alloc, lanes)?;
        Ok(Readers { lists, entered })
    }

    /// The run of a lane has read these items. Where it went on since it was entered last, the items from then stand first, and just those
    /// behind them are entered.
    ///
    /// # Errors
    ///
    /// `Memory` where memory runs out. A part of the objects may be entered.
    pub fn enter(&mut self, lane: usize, items: &[ReadItem]) -> Result<(), Memory>
        requires lane { lane < length self.old }
        ensures ok { OnOk result (self.new ≡ slice_set self.old lane (objects_of (map item_of items.now))) }
        ensures stay { self.new ≡ slice_set self.old lane (slice_index_or self.new lane []) }
    {
        enter_at(&mut self.lists, &mut self.entered, lane, items)
    }

    /// A lane has read no objects. It takes no memory.
    pub fn clear(&mut self, lane: usize)
        requires lane { lane < length self.old }
        ensures { self.new ≡ slice_set self.old lane [] }
    {
        clear_at(&mut self.lists, &mut self.entered, lane);
    }

    /// A lane that has read an object, if there is one.
    pub fn first(&self, object: u32) -> Option<usize>
        ensures { IsReader object self.now result }
    {
        self.lists.first(object)
    }
}
