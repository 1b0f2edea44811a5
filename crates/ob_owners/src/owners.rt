//! The places that own each object of a store.
ghost use Rattle.std.specs.Prelude.{◌≡◌, ℕ, ◌≤◌, ◌<◌, ◌+◌, suc, [], map, length, slice_index_or, option_map, option_copied, IfOk, OnOk};
ghost use Rattle.ob_heap.specs.Contents.{Stored, content_of};
ghost use Rattle.ob_heap.specs.Deltas.{IsDelta};
ghost use Rattle.ob_heap.specs.declared.delta.Delta.{Delta as StoredDelta};
ghost use Rattle.ob_heap_spec.specs.Contents.{Content as PlainContent, IsContent};
ghost use Rattle.ob_table.specs.Tables.{ClassTable};
ghost use Rattle.ob_code_table.specs.ImageTables.{table_of_image};
ghost use Rattle.ob_rest_spec.specs.Incoming.{incoming_references};
ghost use Rattle.ob_owners.specs.Indexes.{IsIndexOf, IsReadyFor, content_after, told_owner};
ghost use Rattle.ob_owners.specs.Moving.{with_first_places, with_places, without_places};
ghost use Rattle.ob_owners.specs.Owning.{owning_of};
ghost use Rattle.ob_owners.specs.Spots.{place_of, owner_place};

use crate::declared::declarations;
use crate::gathering::{Owning, gather_all, gather_coming, gather_going};
use crate::moving::{put_all, put_all_first, take_all};
use crate::places::Places;
use crate::spot::Spot;
use ob_base::{Memory, ObjectId};
use ob_code::Image;
use ob_heap::{Content, Delta};
use ob_links::Steps;
use std::alloc::Global;
use std::marker::{Brand, Model};
use std::sync::ledger::{Blank, Ledger};

/// An index of the owners of a store's objects: for each object a list of the places that own it, in the order of the incoming
/// references.
#[derive(Drop)]
pub struct Owners {
    // The contracts of the image, without bodies.
    declared: Image,
    places: Places,
    // The places that go with a change that is made ready.
    going: Vec<Owning>,
    // The places that come with it.
    coming: Vec<Owning>,
}

impl Model for Owners {
    ghost use Rattle.std.specs.Prelude.{◌≤◌, map, length};
    ghost use Rattle.ob_owners.specs.Indexes.{Indexed};
    ghost use Rattle.ob_owners.specs.Owning.{owning_of};

    ghost Value = { Indexed };

    ghost view = { λ o. record {
      declared = o.declared;
      lists = o.places.lists;
      going = map owning_of o.going.items;
      coming = map owning_of o.coming.items;
    } };

    ghost invariant = { λ o. length o.coming.items ≤ o.places.room };
}

// Puts the places of a store, which stand in order, into lists that have none, with a new ledger for the steps.
fn fill<L: Ledger>(places: &mut Places, gathered: Vec<Owning>, blank: Blank) -> Result<(), Memory>
    requires name { blank.name ≡ L.name }
    requires parts { (blank.parts ≡ L.parts) × (0 < L.parts) }
    ensures { OnOk result (places.new.lists ≡ with_first_places (map owning_of gathered.items) places.old.lists) }
{
    let count = gathered.len();
    if count > 0xffff_ffff {
        return Err(Memory);
    }
    places.reserve(count as u32)?;
    let mut steps = Steps::<L>::new(blank);
    put_all_first(places, gathered, &mut steps);
    Ok(())
}

impl Owners {
    /// The index of a store, by one pass over the fields of its objects and one over its handles.
    ///
    /// # Errors
    ///
    /// `Memory` where memory runs out.
    pub fn build(alloc: Global, code: &Image, content: &Content) -> Result<Owners, Memory>
        ensures { IfOk result (λ owners. IsContent (table_of_image code.now) (content_of content.now)
            → IsIndexOf (table_of_image code.now) (content_of content.now) owners) }
    {
        let count = content.objects().len();
        if count > 0xffff_ffff {
            return Err(Memory);
        }
        let gathered = gather_all(alloc, code, content)?;
        let mut places = Places::new(alloc, count as u32)?;
        fill::<Brand>(&mut places, gathered, Blank::new(1))?;
        let declared = declarations(alloc, code)?;
        Ok(Owners {
            declared,
            places,
            going: Vec::new(alloc),
            coming: Vec::new(alloc),
        })
    }

    /// The place of the owner of the object of a number, if there is such an object and it has one. It takes one step at most.
    pub fn owner<L: Ledger>(&self, id: ObjectId, steps: &mut Steps<L>) -> Option<&Spot>
        ensures told { option_map place_of (option_copied result) ≡ told_owner self.now id.0 }
        ensures place { (table : ClassTable) (content : PlainContent) → IsIndexOf table content self.now
            → option_map place_of (option_copied result) ≡ owner_place table content id.0 }
        ensures step { steps.new ≤ suc steps.old }
        ensures steps { (table : ClassTable) (content : PlainContent)
            → steps.new ≤ steps.old + suc (length (incoming_references table content id.0)) }
    {
        let count = self.places.count_lists();
        if id.0 < count {
            return self.places.first(id.0, steps);
        }
        None
    }

    // Makes room for places to come, and keeps them and those that go.
    fn keep(&mut self, going: Vec<Owning>, coming: Vec<Owning>) -> Result<(), Memory>
        ensures going { OnOk result (self.new.going ≡ map owning_of going.items) }
        ensures coming { OnOk result (self.new.coming ≡ map owning_of coming.items) }
        ensures declared { self.new.declared ≡ self.old.declared }
        ensures lists { self.new.lists ≡ self.old.lists }
    {
        let count = coming.len();
        if count > 0xffff_ffff {
            return Err(Memory);
        }
        self.places.reserve(count as u32)?;
        self.going = going;
        self.coming = coming;
        Ok(())
    }

    // Makes lists, so that there are so many at least.
    fn lengthen(&mut self, count: usize) -> Result<(), Memory>
        ensures lists { OnOk result (count ≤ length self.new.lists) }
        ensures kept { (n : ℕ) → slice_index_or self.new.lists n [] ≡ slice_index_or self.old.lists n [] }
        ensures going { self.new.going ≡ self.old.going }
        ensures coming { self.new.coming ≡ self.old.coming }
        ensures declared { self.new.declared ≡ self.old.declared }
    {
        let lists = self.places.count_lists();
        if count > 0xffff_ffff {
            return Err(Memory);
        }
        if count as u32 <= lists {
            return Ok(());
        }
        self.places.more(count as u32 - lists)?;
        Ok(())
    }

    /// Makes the index ready for a delta of its content: takes the memory that `apply` needs.
    ///
    /// # Errors
    ///
    /// `Memory` where memory runs out. The index is that of the content as before.
    pub fn reserve(&mut self, content: &Content, delta: &Delta) -> Result<(), Memory>
        ensures ready { OnOk result (IsReadyFor content.now delta.now self.new) }
        ensures index { (table : ClassTable) (c : PlainContent) → IsIndexOf table c self.old → IsIndexOf table c self.new }
    {
        let alloc = *self.coming.allocator();
        let going = gather_going(alloc, &self.declared, content, delta)?;
        let coming = gather_coming(alloc, &self.declared, delta)?;
        self.keep(going, coming)?;
        self.lengthen(content.objects().len() + delta.objects.as_slice().len())
    }

    /// The index becomes that of the content with the delta for which it was made ready. It takes no memory.
    pub fn apply(&mut self)
        ensures { (table : ClassTable) (content : Stored) (delta : StoredDelta) → IsDelta content delta → IsReadyFor content delta self.old
            → IsContent table (content_of content) → IsContent table (content_after content delta)
            → IsIndexOf table (content_of content) self.old → IsIndexOf table (content_after content delta) self.new }
    {
        self.change::<Brand>(Blank::new(1));
    }

    // The same, with a new ledger for the steps.
    fn change<L: Ledger>(&mut self, blank: Blank)
        requires name { blank.name ≡ L.name }
        requires parts { (blank.parts ≡ L.parts) × (0 < L.parts) }
        ensures lists { self.new.lists ≡ with_places self.old.coming (without_places self.old.going self.old.lists) }
        ensures declared { self.new.declared ≡ self.old.declared }
    {
        let mut steps = Steps::<L>::new(blank);
        take_all(&mut self.places, &mut self.going, &mut steps);
        put_all(&mut self.places, &mut self.coming, &mut steps);
    }
}
