//! For each object the lanes whose runs have read it.
ghost use Rattle.std.specs.Prelude.{◌≡◌, ℕ, ◌<◌, ◌≤◌, ◌++◌, ◌∷◌, ◌^◌, [], true, false, Some, length, slice_get, slice_index_or, suc, IfOk, IfSome, IfNone, OnOk, OnErr};
ghost use Rattle.ob_links.specs.Lists.{joined, AreApart};
ghost use Rattle.ob_lanes.specs.Readers.{items_of, node_with, is_at, is_listed, place_in, IsListOf, SameBut};

use indexmap::IndexSet;
use ob_base::Memory;
use ob_links::{Links, NodeId, Steps};
use std::alloc::Global;
use std::marker::{Brand, Model};
use std::sync::ledger::{Blank, Ledger};

// Of lists and of lanes in them there are fewer than this.
const MOST: u32 = u32::MAX;

/// Lists of lanes, one for each object that a run has read.
#[derive(Drop)]
pub struct Lists {
    // The objects, in the order of their lists.
    objects: IndexSet<u32>,
    links: Links,
    // How many lanes there are in all lists.
    count: u32,
}

impl Model for Lists {
    ghost use Rattle.ob_lanes.specs.Readers.{Listing, items_of, AreCounted};

    ghost Value = { Listing };

    ghost view = { λ l. record { objects = l.objects.keys; lanes = items_of l.links } };

    ghost invariant = { λ l. AreCounted l.objects.keys l.links l.count };
}

// The first node of a list that is a lane's, if there is one.
fn node_of<L: Ledger>(links: &Links, list: u32, lane: u64, steps: &mut Steps<L>) -> Option<NodeId>
    requires list { list < length links.now.lists }
    ensures node { result ≡ node_with lane (slice_index_or links.now.lists list []) }
    ensures apart { IfSome result (λ n. AreApart (joined links.now.lists)) }
{
    let mut at = links.first(list, steps);
    while let Some(node) = at {
        if lane == links.item(node) {
            return Some(node);
        }
        at = links.after(node, steps);
    }
    None
}

// The same, with a new ledger for the steps.
fn find<L: Ledger>(links: &Links, list: u32, lane: u64, blank: Blank) -> Option<NodeId>
    requires list { list < length links.now.lists }
    requires name { blank.name ≡ L.name }
    requires parts { (blank.parts ≡ L.parts) × (0 < L.parts) }
    ensures node { result ≡ node_with lane (slice_index_or links.now.lists list []) }
    ensures apart { IfSome result (λ n. AreApart (joined links.now.lists)) }
{
    let mut steps = Steps::<L>::new(blank);
    node_of(links, list, lane, &mut steps)
}

// The same, whatever the ledger.
fn node(links: &Links, list: u32, lane: u64) -> Option<NodeId>
    requires list { list < length links.now.lists }
    ensures node { result ≡ node_with lane (slice_index_or links.now.lists list []) }
    ensures apart { IfSome result (λ n. AreApart (joined links.now.lists)) }
{
    find::<Brand>(links, list, lane, Blank::new(1))
}

// The first lane of a list, if it has one.
fn head<L: Ledger>(links: &Links, list: u32, blank: Blank) -> Option<u64>
    requires list { list < length links.now.lists }
    requires name { blank.name ≡ L.name }
    requires parts { (blank.parts ≡ L.parts) × (0 < L.parts) }
    ensures { result ≡ slice_get (slice_index_or (items_of links.now) list []) 0 }
{
    let mut steps = Steps::<L>::new(blank);
    match links.first(list, &mut steps) {
        Some(node) => Some(links.item(node)),
        None => None,
    }
}

// Puts a lane into a list, at its end.
fn enter(links: &mut Links, list: u32, lane: u64) -> Result<(), Memory>
    requires list { list < length links.old.lists }
    requires few { suc (length (joined links.old.lists)) < 2 ^ 32 }
    ensures listed { OnOk result (is_at (items_of links.new) lane list ≡ true) }
    ensures others { SameBut lane list (is_at (items_of links.old)) (is_at (items_of links.new)) }
    ensures lists { length links.new.lists ≡ length links.old.lists }
    ensures count { OnOk result (length (joined links.new.lists) ≡ suc (length (joined links.old.lists))) }
    ensures err { OnErr result (links.new.lists ≡ links.old.lists) }
{
    links.reserve(1)?;
    links.insert(list, None, lane);
    Ok(())
}

// Takes the first node of a list that is a lane's out of it.
fn remove(links: &mut Links, list: u32, lane: u64, node: NodeId)
    requires list { list < length links.old.lists }
    requires node { Some node ≡ node_with lane (slice_index_or links.old.lists list []) }
    requires apart { AreApart (joined links.old.lists) }
    ensures others { SameBut lane list (is_at (items_of links.old)) (is_at (items_of links.new)) }
    ensures count { suc (length (joined links.new.lists)) ≡ length (joined links.old.lists) }
    ensures lists { length links.new.lists ≡ length links.old.lists }
{
    let _lane = links.remove(node);
}

// Takes a lane out of a list.
fn take_out(links: &mut Links, count: &mut u32, list: u32, lane: u64)
    requires list { list < length links.old.lists }
    requires count { count.old ≡ length (joined links.old.lists) }
    ensures gone { is_at (items_of links.new) lane list ≡ false }
    ensures others { SameBut lane list (is_at (items_of links.old)) (is_at (items_of links.new)) }
    ensures count { count.new ≡ length (joined links.new.lists) }
    ensures lists { length links.new.lists ≡ length links.old.lists }
{
    let mut at = node(links, list, lane);
    while let Some(found) = at {
        remove(links, list, lane, found);
        *count -= 1;
        at = node(links, list, lane);
    }
}

// Puts an object that isn't there behind the others.
fn add_last(objects: &mut IndexSet<u32>, object: u32) -> Result<(), Memory>
    requires { length objects.old.keys ≤ place_in object objects.old.keys }
    ensures ok { OnOk result (objects.new.keys ≡ objects.old.keys ++ object ∷ []) }
    ensures err { OnErr result (objects.new.keys ≡ objects.old.keys) }
{
    match objects.insert(object) {
        Ok(_) => Ok(()),
        Err(_) => Err(Memory),
    }
}

impl Lists {
    /// No lists.
    ///
    /// # Errors
    ///
    /// `Memory` where memory runs out.
    pub fn new(alloc: Global) -> Result<Lists, Memory>
        ensures { IfOk result (λ l. (k n : ℕ) → is_listed l k n ≡ false) }
    {
        Ok(Lists {
            objects: IndexSet::new(alloc),
            links: Links::new(alloc, 0)?,
            count: 0,
        })
    }

    // The number of an object's list, if it has one.
    fn list(&self, object: u32) -> Option<u32>
        ensures found { IfSome result (IsListOf object self.now) }
        ensures none { IfNone result (length self.now.lanes ≤ place_in object self.now.objects) }
    {
        match self.objects.get_index_of(&object) {
            Some(at) => Some(at as u32),
            None => None,
        }
    }

    // A list for an object that has none.
    fn add(&mut self, object: u32) -> Result<u32, Memory>
        requires { length self.old.lanes ≤ place_in object self.old.objects }
        ensures found { IfOk result (IsListOf object self.new) }
        ensures same { (k n : ℕ) → is_listed self.new k n ≡ is_listed self.old k n }
    {
        let list = self.objects.len();
        if list >= MOST as usize {
            return Err(Memory);
        }
        add_last(&mut self.objects, object)?;
        match self.links.more(1) {
            Ok(()) => Ok(list as u32),
            Err(Memory) => {
                self.objects.truncate(list);
                Err(Memory)
            }
        }
    }

    // The number of an object's list, which is made if it has none.
    fn list_for(&mut self, object: u32) -> Result<u32, Memory>
        ensures found { IfOk result (IsListOf object self.new) }
        ensures same { (k n : ℕ) → is_listed self.new k n ≡ is_listed self.old k n }
    {
        match self.list(object) {
            Some(list) => Ok(list),
            None => self.add(object),
        }
    }

    // Puts a lane into the list of a number, unless it is there.
    fn put_at(&mut self, list: u32, lane: usize) -> Result<(), Memory>
        requires { list < length self.old.lanes }
        ensures objects { self.new.objects ≡ self.old.objects }
        ensures lanes { length self.new.lanes ≡ length self.old.lanes }
        ensures listed { OnOk result (is_at self.new.lanes lane list ≡ true) }
        ensures others { SameBut lane list (is_at self.old.lanes) (is_at self.new.lanes) }
        ensures err { OnErr result (self.new.lanes ≡ self.old.lanes) }
    {
        if node(&self.links, list, lane as u64).is_some() {
            return Ok(());
        }
        if self.count >= MOST - 1 {
            return Err(Memory);
        }
        enter(&mut self.links, list, lane as u64)?;
        self.count += 1;
        Ok(())
    }

    /// Puts a lane into the list of an object, unless it is there.
    ///
    /// # Errors
    ///
    /// `Memory` where memory runs out. Each lane is in the lists as before.
    pub fn put(&mut self, object: u32, lane: usize) -> Result<(), Memory>
        ensures listed { OnOk result (is_listed self.new lane object ≡ true) }
        ensures others { SameBut lane object (is_listed self.old) (is_listed self.new) }
        ensures err { OnErr result (is_listed self.new lane object ≡ is_listed self.old lane object) }
    {
        let list = self.list_for(object)?;
        self.put_at(list, lane)
    }

    /// Takes a lane out of the list of an object, if it is there.
    pub fn take(&mut self, object: u32, lane: usize)
        ensures gone { is_listed self.new lane object ≡ false }
        ensures others { SameBut lane object (is_listed self.old) (is_listed self.new) }
    {
        if let Some(list) = self.list(object) {
            take_out(&mut self.links, &mut self.count, list, lane as u64);
        }
    }

    /// The first lane in the list of an object, if there is one.
    pub fn first(&self, object: u32) -> Option<usize>
        ensures some { IfSome result (λ k. is_listed self.now k object ≡ true) }
        ensures none { IfNone result ((k : ℕ) → is_listed self.now k object ≡ false) }
    {
        let list = self.list(object)?;
        match head::<Brand>(&self.links, list, Blank::new(1)) {
            Some(lane) => Some(lane as usize),
            None => None,
        }
    }
}
