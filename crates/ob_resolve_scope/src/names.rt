//! Names with a number each.
ghost use Rattle.std.specs.Prelude.{◌≡◌, true, [], ◌∷◌, ◌++◌, None, take, length, slice_get, option_map, OnOk, OnErr};
ghost use Rattle.std.specs.Option.{option_copied, option_map_or};
ghost use Rattle.std.specs.List.{list_all};
ghost use Rattle.ob_resolve_scope.specs.Numbered.{find, is_found, added, plain};

use indexmap::IndexMap;
use ob_base::Memory;
use std::alloc::Global;
use std::marker::Model;

/// Names in the order in which they were added, each with a number. A name that is there already keeps its number.
#[derive(Drop)]
pub struct Names {
    map: IndexMap<Vec<u8>, usize>,
}

impl Model for Names {
    ghost use Rattle.std.specs.Prelude.{ℕ, List};
    ghost use Rattle.ob_resolve_scope.specs.Numbered.{plain};

    ghost Value = { List (List ℕ × ℕ) };

    ghost view = { λ n. plain n.map.entries };
}

fn find_in(map: &IndexMap<Vec<u8>, usize>, name: &[u8]) -> Option<usize>
    ensures { result ≡ find name.now (plain map.now.entries) }
{
    map.get(name).copied()
}

#[tactic(auto, using(crate::proofs::NamesLemmas::names))]
fn put_last(map: &mut IndexMap<Vec<u8>, usize>, key: Vec<u8>, number: usize) -> Result<(), Memory>
    requires { find key.items (plain map.old.entries) ≡ None }
    ensures ok { OnOk result (plain map.new.entries ≡ plain map.old.entries ++ (key.items, number) ∷ []) }
    ensures err { OnErr result (map.new.entries ≡ map.old.entries) }
{
    match map.insert(key, number) {
        Ok(_) => Ok(()),
        Err(_) => Err(Memory),
    }
}

fn add_to(
    map: &mut IndexMap<Vec<u8>, usize>,
    alloc: Global,
    name: &[u8],
    number: usize,
) -> Result<(), Memory>
    ensures ok { OnOk result (plain map.new.entries ≡ added (plain map.old.entries) name.now number) }
    ensures err { OnErr result (plain map.new.entries ≡ plain map.old.entries) }
{
    if find_in(map, name).is_some() {
        return Ok(());
    }
    let key = Vec::from_slice(alloc, name)?;
    put_last(map, key, number)
}

fn cut(map: &mut IndexMap<Vec<u8>, usize>, len: usize)
    ensures { plain map.new.entries ≡ take len (plain map.old.entries) }
{
    map.truncate(len);
}

// The name at this place.
fn name_at(map: &IndexMap<Vec<u8>, usize>, place: usize) -> Option<&[u8]>
    ensures { option_copied result ≡ option_map (λ e. e.0) (slice_get (plain map.now.entries) place) }
{
    match map.get_index(place) {
        Some((name, _)) => Some(name.as_slice()),
        None => None,
    }
}

// The number of the name at this place.
fn number_at(map: &IndexMap<Vec<u8>, usize>, place: usize) -> Option<usize>
    ensures { result ≡ option_map (λ e. e.1) (slice_get (plain map.now.entries) place) }
{
    match map.get_index(place) {
        Some((_, number)) => Some(*number),
        None => None,
    }
}

impl Names {
    /// No names.
    pub fn new(alloc: Global) -> Names
        ensures { result ≡ [] }
    {
        Names {
            map: IndexMap::new(alloc),
        }
    }

    /// The number of the name.
    pub fn find(&self, name: &[u8]) -> Option<usize>
        ensures { result ≡ find name.now self.now }
    {
        find_in(&self.map, name)
    }

    /// Adds the name, unless it is there.
    pub fn add(&mut self, alloc: Global, name: &[u8], number: usize) -> Result<(), Memory>
        ensures ok { OnOk result (self.new ≡ added self.old name.now number) }
        ensures err { OnErr result (self.new ≡ self.old) }
    {
        add_to(&mut self.map, alloc, name, number)
    }

    /// How many names there are.
    pub fn len(&self) -> usize
        ensures { result ≡ length self.now }
    {
        self.map.len()
    }

    /// Keeps the first names alone, as at the end of a block.
    pub fn truncate(&mut self, len: usize)
        ensures { self.new ≡ take len self.old }
    {
        cut(&mut self.map, len);
    }

    // Whether the name at this place is one of the others.
    fn is_found_at(&self, place: usize, others: &Names) -> bool
        ensures { result ≡ option_map_or (is_found others.now) (slice_get self.now place) true }
    {
        match self.name(place) {
            Some(name) => others.find(name).is_some(),
            None => true,
        }
    }

    /// Whether each of these names is one of the others: the first that isn't ends the search.
    #[tactic(auto, using(crate::proofs::NamesLemmas::within))]
    pub fn is_within(&self, others: &Names) -> bool
        ensures { result ≡ list_all (is_found others.now) self.now }
    {
        for place in 0..self.len() {
            if !self.is_found_at(place, others) {
                return false;
            }
        }
        true
    }

    /// The name at this place, in the order in which the names were added.
    pub fn name(&self, place: usize) -> Option<&[u8]>
        ensures { option_copied result ≡ option_map (λ e. e.0) (slice_get self.now place) }
    {
        name_at(&self.map, place)
    }

    /// The number of the name at this place.
    pub fn number(&self, place: usize) -> Option<usize>
        ensures { result ≡ option_map (λ e. e.1) (slice_get self.now place) }
    {
        number_at(&self.map, place)
    }
}
