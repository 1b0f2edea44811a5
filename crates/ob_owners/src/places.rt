//! Lists of places.
ghost use Rattle.std.specs.Prelude.{◌≡◌, ℕ, ◌<◌, ◌≤◌, ◌++◌, ◌∷◌, suc, length, replicate, [], option_map, IfOk, OnOk, OnErr, IfSome, IsTrue, map, slice_get, slice_set, slice_index_or, option_copied};
ghost use Rattle.slab.specs.Slab.{HasRoomFor};
ghost use Rattle.ob_links.specs.Lists.{joined as pairs_of, has_node, without_node, AreApart};
ghost use Rattle.ob_owners.specs.Order.{spots_with, with_place, without_place};
ghost use Rattle.ob_owners.specs.Places.{AreKeyed, listed_of, spots_of};
ghost use Rattle.ob_owners.specs.Spots.{place_of};

use crate::spot::Spot;
use crate::walking::{node_of, node_past};
use ob_base::Memory;
use ob_links::{Links, NodeId, Steps};
use slab::Slab;
use std::alloc::Global;
use std::marker::Model;
use std::sync::ledger::Ledger;

// Of lists and of places there are fewer than this.
const MOST: u32 = u32::MAX;

/// Lists of places, each of which stands in a slab under the key that its pair has.
#[derive(Drop)]
pub struct Places {
    links: Links,
    spots: Slab<Spot>,
    // How many lists there are.
    lists: u32,
    // How many places there are.
    count: u32,
    // How many places may be added without memory.
    room: u32,
}

impl Model for Places {
    ghost use Rattle.ob_owners.specs.Places.{Listed, listed_of, places_of, AreKept};

    ghost Value = { Listed };

    ghost view = { λ p. record { lists = places_of (listed_of p.spots p.links); room = p.room } };

    ghost invariant = { λ p. AreKept p.links p.spots p.lists p.count p.room };
}

// Puts a place into a list, before that of a node or at the end.
fn insert(links: &mut Links, spots: &mut Slab<Spot>, list: u32, before: Option<NodeId>, spot: Spot)
    requires list { list < length links.old.lists }
    requires before { IfSome before (λ n. IsTrue (has_node n (slice_index_or links.old.lists list []))) }
    requires node { 0 < links.old.spare }
    requires place { HasRoomFor spots.old 1 }
    requires keyed { AreKeyed spots.old (pairs_of links.old.lists) }
    ensures keyed { AreKeyed spots.new (pairs_of links.new.lists) }
    ensures places { listed_of spots.new links.new ≡ slice_set (listed_of spots.old links.old) list (spots_with spots.old before spot (slice_index_or links.old.lists list [])) }
    ensures lists { length links.new.lists ≡ length links.old.lists }
    ensures count { length (pairs_of links.new.lists) ≡ suc (length (pairs_of links.old.lists)) }
    ensures spare { suc links.new.spare ≡ links.old.spare }
    ensures room { (more : ℕ) → HasRoomFor spots.old (suc more) → HasRoomFor spots.new more }
{
    let key = spots.insert_reserved(spot);
    links.insert(list, before, key as u64);
}

// Takes the place of a node out of its list.
fn remove(links: &mut Links, spots: &mut Slab<Spot>, node: NodeId)
    requires node { IsTrue (has_node node (pairs_of links.old.lists)) }
    requires apart { AreApart (pairs_of links.old.lists) }
    requires keyed { AreKeyed spots.old (pairs_of links.old.lists) }
    ensures keyed { AreKeyed spots.new (pairs_of links.new.lists) }
    ensures places { listed_of spots.new links.new ≡ map (λ xs. spots_of spots.old (without_node node xs)) links.old.lists }
    ensures lists { length links.new.lists ≡ length links.old.lists }
    ensures count { suc (length (pairs_of links.new.lists)) ≡ length (pairs_of links.old.lists) }
    ensures spare { links.new.spare ≡ suc links.old.spare }
    ensures room { (more : ℕ) → HasRoomFor spots.old more → HasRoomFor spots.new more }
{
    let key = links.remove(node);
    let _spot = spots.remove(key as usize);
}

// The first place of a list, in one step.
fn first<'a, L: Ledger>(
    links: &Links,
    spots: &'a Slab<Spot>,
    list: u32,
    steps: &mut Steps<L>,
) -> Option<&'a Spot>
    requires list { list < length links.now.lists }
    requires keyed { AreKeyed spots.now (pairs_of links.now.lists) }
    ensures place { option_copied result ≡ slice_get (slice_index_or (listed_of spots.now links.now) list []) 0 }
    ensures step { steps.new ≡ suc steps.old }
{
    match links.first(list, steps) {
        Some(node) => spots.get(links.item(node) as usize),
        None => None,
    }
}

impl Places {
    /// So many lists without places.
    pub fn new(alloc: Global, lists: u32) -> Result<Places, Memory>
        ensures { IfOk result (λ places. places.lists ≡ replicate lists []) }
    {
        let links = Links::new(alloc, lists)?;
        let spots = Slab::new(alloc);
        Ok(Places {
            links,
            spots,
            lists,
            count: 0,
            room: 0,
        })
    }

    /// How many lists there are.
    pub fn count_lists(&self) -> u32
        ensures { result ≡ length self.now.lists }
    {
        self.lists
    }

    /// So many lists more, without places, behind the others.
    pub fn more(&mut self, lists: u32) -> Result<(), Memory>
        ensures ok { OnOk result (self.new.lists ≡ self.old.lists ++ replicate lists []) }
        ensures err { OnErr result (self.new.lists ≡ self.old.lists) }
        ensures room { self.new.room ≡ self.old.room }
    {
        if lists >= MOST - self.lists {
            return Err(Memory);
        }
        self.links.more(lists)?;
        self.lists += lists;
        Ok(())
    }

    /// Makes room for so many places.
    pub fn reserve(&mut self, places: u32) -> Result<(), Memory>
        ensures room { OnOk result (places ≤ self.new.room) }
        ensures kept { self.old.room ≤ self.new.room }
        ensures lists { self.new.lists ≡ self.old.lists }
    {
        if places <= self.room {
            return Ok(());
        }
        if places >= MOST - self.count {
            return Err(Memory);
        }
        self.spots.reserve(places as usize)?;
        self.links.reserve(places)?;
        self.room = places;
        Ok(())
    }

    /// Puts a place before the others of a list.
    pub fn put_first<L: Ledger>(&mut self, list: u32, spot: Spot, steps: &mut Steps<L>)
        requires list { list < length self.old.lists }
        requires room { 0 < self.old.room }
        ensures lists { self.new.lists ≡ slice_set self.old.lists list (place_of spot ∷ slice_index_or self.old.lists list []) }
        ensures room { suc self.new.room ≡ self.old.room }
    {
        let before = self.links.first(list, steps);
        insert(&mut self.links, &mut self.spots, list, before, spot);
        self.count += 1;
        self.room -= 1;
    }

    /// Puts a place into a list whose places are in order, where it stands among them.
    pub fn put<L: Ledger>(&mut self, list: u32, spot: Spot, steps: &mut Steps<L>)
        requires list { list < length self.old.lists }
        requires room { 0 < self.old.room }
        ensures lists { self.new.lists ≡ slice_set self.old.lists list (with_place (place_of spot) (slice_index_or self.old.lists list [])) }
        ensures room { suc self.new.room ≡ self.old.room }
    {
        let before = node_past(&self.links, &self.spots, list, &spot, steps);
        insert(&mut self.links, &mut self.spots, list, before, spot);
        self.count += 1;
        self.room -= 1;
    }

    /// Takes a place out of a list, if it is there.
    pub fn take<L: Ledger>(&mut self, list: u32, spot: &Spot, steps: &mut Steps<L>)
        requires list { list < length self.old.lists }
        ensures lists { self.new.lists ≡ slice_set self.old.lists list (without_place (place_of spot.now) (slice_index_or self.old.lists list [])) }
        ensures room { self.new.room ≡ self.old.room }
    {
        if let Some(node) = node_of(&self.links, &self.spots, list, spot, steps) {
            remove(&mut self.links, &mut self.spots, node);
            self.count -= 1;
        }
    }

    /// The first place of a list, in one step.
    pub fn first<L: Ledger>(&self, list: u32, steps: &mut Steps<L>) -> Option<&Spot>
        requires { list < length self.now.lists }
        ensures place { option_map place_of (option_copied result) ≡ slice_get (slice_index_or self.now.lists list []) 0 }
        ensures step { steps.new ≡ suc steps.old }
    {
        first(&self.links, &self.spots, list, steps)
    }
}
