//! Numbers that are there at most once each, of which the newest goes first in practice.
ghost use Rattle.std.specs.Prelude.{◌≡◌, [], ◌∷◌, false, reverse, OnOk, OnErr};
ghost use Rattle.std.specs.Option.{option_to_list};
ghost use Rattle.ob_heap_spec.specs.Marks.{is_among, without_first};

use indexmap::IndexSet;
use ob_base::Memory;
use std::alloc::Global;
use std::marker::Model;

/// Numbers that are there at most once each. Contracts see them as a list, the newest first. The oldest mostly stands alone, so it
/// has a place of its own, which takes no memory.
#[derive(Drop)]
pub struct Numbers {
    oldest: Option<u32>,
    set: IndexSet<u32>,
}

impl Model for Numbers {
    ghost use Rattle.std.specs.Prelude.{ℕ, List, reverse, ◌++◌};
    ghost use Rattle.std.specs.Option.{option_to_list};

    ghost Value = { List ℕ };

    ghost view = { λ n. reverse n.set.keys ++ option_to_list n.oldest };
}

fn is_oldest(oldest: Option<u32>, number: u32) -> bool
    ensures { result ≡ is_among number (option_to_list oldest) }
{
    match oldest {
        Some(other) => number == other,
        None => false,
    }
}

fn is_in(set: &IndexSet<u32>, number: u32) -> bool
    ensures { result ≡ is_among number (reverse set.now.keys) }
{
    if set.is_empty() {
        return false;
    }
    set.contains(&number)
}

fn put_last(set: &mut IndexSet<u32>, number: u32) -> Result<(), Memory>
    requires { is_among number (reverse set.old.keys) ≡ false }
    ensures ok { OnOk result (reverse set.new.keys ≡ number ∷ reverse set.old.keys) }
    ensures err { OnErr result (reverse set.new.keys ≡ reverse set.old.keys) }
{
    match set.insert(number) {
        Ok(_) => Ok(()),
        Err(_) => Err(Memory),
    }
}

// Only a number that isn't the newest needs more than constant time.
fn take_out(set: &mut IndexSet<u32>, number: u32)
    ensures { reverse set.new.keys ≡ without_first number (reverse set.old.keys) }
{
    let _unique = set.len();
    if set.last().copied() == Some(number) {
        let _last = set.pop();
    } else {
        let _found = set.shift_remove(&number);
    }
}

impl Numbers {
    /// No numbers.
    pub fn new(alloc: Global) -> Numbers
        ensures { result ≡ [] }
    {
        Numbers {
            oldest: None,
            set: IndexSet::new(alloc),
        }
    }

    /// Whether the number is there.
    #[tactic(auto, using(crate::proofs::NewestLemmas::among_both))]
    pub fn has(&self, number: u32) -> bool
        ensures { result ≡ is_among number self.now }
    {
        is_in(&self.set, number) || is_oldest(self.oldest, number)
    }

    /// Adds a number that isn't there.
    pub fn add(&mut self, number: u32) -> Result<(), Memory>
        requires { is_among number self.old ≡ false }
        ensures ok { OnOk result (self.new ≡ number ∷ self.old) }
        ensures err { OnErr result (self.new ≡ self.old) }
    {
        if self.oldest.is_none() && self.set.is_empty() {
            self.oldest = Some(number);
            return Ok(());
        }
        put_last(&mut self.set, number)
    }

    /// Takes the number out, where it is there: in constant time where it is the newest.
    pub fn remove(&mut self, number: u32)
        ensures { self.new ≡ without_first number self.old }
    {
        if is_in(&self.set, number) {
            take_out(&mut self.set, number);
        } else if is_oldest(self.oldest, number) {
            self.oldest = None;
        }
    }
}
