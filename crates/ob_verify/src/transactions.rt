//! The transactions of a contract by their names.
ghost use Rattle.std.specs.Prelude.{◌≡◌, [], ◌∷◌, ◌++◌, None, OnOk, IfOk};
ghost use Rattle.ob_verify.specs.Named.{place_in, added, plain, with_body, HavePlaces};

use indexmap::IndexMap;
use ob_base::Memory;
use ob_code::{BodyCode, is_constructor};
use std::alloc::Global;
use std::marker::Model;

/// Names, each with a place. A name that is there already keeps its place.
#[derive(Drop)]
pub struct Places {
    map: IndexMap<Vec<u8>, usize>,
}

impl Model for Places {
    ghost use Rattle.std.specs.Prelude.{ℕ, List};
    ghost use Rattle.ob_verify.specs.Named.{plain};

    ghost Value = { List (List ℕ × ℕ) };

    ghost view = { λ p. plain p.map.entries };
}

fn find_in(map: &IndexMap<Vec<u8>, usize>, name: &[u8]) -> Option<usize>
    ensures { result ≡ place_in name.now (plain map.now.entries) }
{
    map.get(name).copied()
}

#[tactic(auto, using(crate::proofs::PlaceLemmas::names))]
fn put_last(map: &mut IndexMap<Vec<u8>, usize>, key: Vec<u8>, place: usize) -> Result<(), Memory>
    requires { place_in key.items (plain map.old.entries) ≡ None }
    ensures { OnOk result (plain map.new.entries ≡ plain map.old.entries ++ (key.items, place) ∷ []) }
{
    match map.insert(key, place) {
        Ok(_) => Ok(()),
        Err(_) => Err(Memory),
    }
}

fn add_to(
    map: &mut IndexMap<Vec<u8>, usize>,
    alloc: Global,
    name: &[u8],
    place: usize,
) -> Result<(), Memory>
    ensures { OnOk result (plain map.new.entries ≡ added (plain map.old.entries) name.now place) }
{
    if find_in(map, name).is_some() {
        return Ok(());
    }
    let key = Vec::from_slice(alloc, name)?;
    put_last(map, key, place)
}

impl Places {
    fn new(alloc: Global) -> Places
        ensures { result ≡ [] }
    {
        Places {
            map: IndexMap::new(alloc),
        }
    }

    /// The place of the name, in a time that doesn't grow with the number of names.
    pub fn find(&self, name: &[u8]) -> Option<usize>
        ensures { result ≡ place_in name.now self.now }
    {
        find_in(&self.map, name)
    }

    // Adds the name, unless it is there.
    fn add(&mut self, alloc: Global, name: &[u8], place: usize) -> Result<(), Memory>
        ensures { OnOk result (self.new ≡ added self.old name.now place) }
    {
        add_to(&mut self.map, alloc, name, place)
    }

    // Adds the name of a body at this place, unless it is a constructor's.
    fn add_body(&mut self, alloc: Global, body: &BodyCode, place: usize) -> Result<(), Memory>
        ensures { OnOk result (self.new ≡ with_body self.old body.now place) }
    {
        if is_constructor(body) {
            return Ok(());
        }
        self.add(alloc, body.name.as_bytes(), place)
    }
}

/// The places of a contract's transactions by their names.
pub fn places_of(alloc: Global, bodies: &[BodyCode]) -> Result<Places, Memory>
    ensures { IfOk result (λ places. HavePlaces places bodies.now) }
{
    let mut places = Places::new(alloc);
    for (place, body) in bodies.iter().enumerate() {
        places.add_body(alloc, body, place)?;
    }
    Ok(places)
}
