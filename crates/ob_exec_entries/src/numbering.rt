//! Names with a number each.
ghost use Rattle.std.specs.Prelude.{◌≡◌, [], ◌∷◌, ◌++◌, None, OnOk};
ghost use Rattle.ob_exec_entries.specs.Numbered.{number_in, added, plain};

use indexmap::IndexMap;
use ob_base::Memory;
use std::alloc::Global;
use std::marker::Model;

/// Names, each with a number. A name that is there already keeps its number.
#[derive(Drop)]
pub struct Numbering {
    map: IndexMap<Vec<u8>, u32>,
}

impl Model for Numbering {
    ghost use Rattle.std.specs.Prelude.{ℕ, List};
    ghost use Rattle.ob_exec_entries.specs.Numbered.{plain};

    ghost Value = { List (List ℕ × ℕ) };

    ghost view = { λ n. plain n.map.entries };
}

fn find_in(map: &IndexMap<Vec<u8>, u32>, name: &[u8]) -> Option<u32>
    ensures { result ≡ number_in name.now (plain map.now.entries) }
{
    map.get(name).copied()
}

#[tactic(auto, using(crate::proofs::NumberedLemmas::names))]
fn put_last(map: &mut IndexMap<Vec<u8>, u32>, key: Vec<u8>, number: u32) -> Result<(), Memory>
    requires { number_in key.items (plain map.old.entries) ≡ None }
    ensures { OnOk result (plain map.new.entries ≡ plain map.old.entries ++ (key.items, number) ∷ []) }
{
    match map.insert(key, number) {
        Ok(_) => Ok(()),
        Err(_) => Err(Memory),
    }
}

fn add_to(
    map: &mut IndexMap<Vec<u8>, u32>,
    alloc: Global,
    name: &[u8],
    number: u32,
) -> Result<(), Memory>
    ensures { OnOk result (plain map.new.entries ≡ added (plain map.old.entries) name.now number) }
{
    if find_in(map, name).is_some() {
        return Ok(());
    }
    let key = Vec::from_slice(alloc, name)?;
    put_last(map, key, number)
}

impl Numbering {
    /// No names.
    pub fn new(alloc: Global) -> Numbering
        ensures { result ≡ [] }
    {
        Numbering {
            map: IndexMap::new(alloc),
        }
    }

    /// The number of the name, in a time that doesn't grow with the number of names.
    pub fn find(&self, name: &[u8]) -> Option<u32>
        ensures { result ≡ number_in name.now self.now }
    {
        find_in(&self.map, name)
    }

    /// Adds the name, unless it is there.
    pub fn add(&mut self, alloc: Global, name: &[u8], number: u32) -> Result<(), Memory>
        ensures { OnOk result (self.new ≡ added self.old name.now number) }
    {
        add_to(&mut self.map, alloc, name, number)
    }
}
