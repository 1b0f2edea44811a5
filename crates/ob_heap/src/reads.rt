//! The numbers of objects that a run has read.
ghost use Rattle.std.specs.Prelude.{◌≡◌, ◌++◌, [], IfOk, OnOk};
ghost use Rattle.ob_heap.specs.Overlays.{with_number};

use indexmap::IndexSet;
use ob_base::Memory;
use std::alloc::Global;
use std::marker::Model;

/// Numbers, each once. The first mostly stands alone, so it has a place of its own, which takes no memory.
#[derive(Drop)]
pub struct Reads {
    first: Option<u32>,
    later: IndexSet<u32>,
}

impl Model for Reads {
    ghost use Rattle.std.specs.Prelude.{ℕ, List, ◌++◌};
    ghost use Rattle.std.specs.Option.{option_to_list};

    ghost Value = { List ℕ };

    ghost view = { λ r. option_to_list r.first ++ r.later.keys };
}

fn add_later(later: &mut IndexSet<u32>, number: u32) -> Result<(), Memory>
    ensures { OnOk result (later.new.keys ≡ with_number number later.old.keys) }
{
    // The object that was read last is read again most often.
    if later.last().copied() == Some(number) {
        return Ok(());
    }
    match later.insert(number) {
        Ok(_) => Ok(()),
        Err(_) => Err(Memory),
    }
}

impl Reads {
    /// Nothing is read.
    pub fn new(alloc: Global) -> Reads
        ensures { result ≡ [] }
    {
        Reads {
            first: None,
            later: IndexSet::new(alloc),
        }
    }

    /// A number is read.
    pub fn add(&mut self, number: u32) -> Result<(), Memory>
        ensures { OnOk result (self.new ≡ with_number number self.old) }
    {
        if self.first == Some(number) {
            return Ok(());
        }
        if self.first.is_none() && self.later.is_empty() {
            self.first = Some(number);
            return Ok(());
        }
        add_later(&mut self.later, number)
    }

    /// The numbers, in the order in which they were first read.
    pub fn list(&self, alloc: Global) -> Result<Vec<u32>, Memory>
        ensures { IfOk result (λ list. list.items ≡ self.now) }
    {
        let mut list = Vec::from_slice(alloc, self.later.as_slice())?;
        if let Some(first) = self.first {
            list.insert(0, first)?;
        }
        Ok(list)
    }
}
