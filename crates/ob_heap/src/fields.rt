//! The values of an object's fields.
ghost use Rattle.std.specs.Prelude.{◌≡◌, [], ◌∷◌, ◌++◌, ◌≤◌, ℕ, nat_eq, nat_le, IfOk, OnOk, OnErr, remove, length, slice_get};
ghost use Rattle.std.specs.Option.{option_copied};
ghost use Rattle.std.specs.List.{insert, position_or_len};
ghost use Rattle.ob_base.specs.declared.id.FieldId.{FieldId as FieldNumber};
ghost use Rattle.ob_heap.specs.declared.value.Value.{Value as FieldValue};
ghost use Rattle.ob_heap.specs.Ascending.{IsAscending};
ghost use Rattle.ob_heap.specs.Fields.{place_of, is_at, value_at, with_value, without_value};

use crate::value::Value;
use ob_base::{Duplicate, FieldId, Memory};
use std::alloc::Global;
use std::marker::Model;

/// Values by the numbers of their fields, which ascend.
#[derive(Drop)]
pub struct Fields {
    items: Vec<(FieldId, Value)>,
}

impl Model for Fields {
    ghost use Rattle.std.specs.Prelude.{List};
    ghost use Rattle.ob_base.specs.declared.id.FieldId.{FieldId};
    ghost use Rattle.ob_heap.specs.declared.value.Value.{Value as FieldValue};
    ghost use Rattle.ob_heap.specs.Ascending.{IsAscending};

    ghost Value = { List (FieldId × FieldValue) };

    ghost view = { λ f. f.items.items };

    ghost invariant = { λ f. IsAscending (λ (e : FieldId × FieldValue). e.0.0) f.items.items };
}

// The place of the first field from this number on, or the end.
fn place(items: &[(FieldId, Value)], field: FieldId) -> usize
    ensures { result ≡ place_of field items.now }
{
    for (place, item) in items.iter().enumerate() {
        if field.0 <= item.0.0 {
            return place;
        }
    }
    items.len()
}

fn find(items: &[(FieldId, Value)], field: FieldId) -> Option<&Value>
    ensures { option_copied result ≡ value_at field items.now }
{
    for item in items {
        if item.0.0 == field.0 {
            return Some(&item.1);
        }
    }
    None
}

// Whether the place is that of the field.
fn has_at(items: &[(FieldId, Value)], place: usize, field: FieldId) -> bool
    ensures { result ≡ is_at field items.now place }
{
    match items.get(place) {
        Some(item) => item.0.0 == field.0,
        None => false,
    }
}

// A field and its value go in at a place.
#[inline(never)]
fn insert_at(
    items: &mut Vec<(FieldId, Value)>,
    place: usize,
    item: (FieldId, Value),
) -> Result<(), Memory>
    requires { place ≤ length items.old.items }
    ensures ok { OnOk result (items.new.items ≡ insert items.old.items place item) }
    ensures err { OnErr result (items.new.items ≡ items.old.items) }
{
    match items.insert(place, item) {
        Ok(()) => Ok(()),
        Err(_) => Err(Memory),
    }
}

#[inline(always)]
#[tactic(auto, using(crate::proofs::FieldsLemmas::places))]
fn put_in(items: &mut Vec<(FieldId, Value)>, field: FieldId, value: Value) -> Result<(), Memory>
    ensures ok { OnOk result (items.new.items ≡ with_value field value items.old.items) }
    ensures err { OnErr result (items.new.items ≡ items.old.items) }
{
    let place = place(items.as_slice(), field);
    if has_at(items.as_slice(), place, field) {
        items[place] = (field, value);
        return Ok(());
    }
    insert_at(items, place, (field, value))
}

#[tactic(auto, using(crate::proofs::FieldsLemmas::places))]
fn remove_from(items: &mut Vec<(FieldId, Value)>, field: FieldId)
    ensures { items.new.items ≡ without_value field items.old.items }
{
    let place = place(items.as_slice(), field);
    if has_at(items.as_slice(), place, field) {
        let _removed = items.remove(place);
    }
}

fn copy_all(alloc: Global, items: &[(FieldId, Value)]) -> Result<Vec<(FieldId, Value)>, Memory>
    ensures { IfOk result (λ copies. copies.items ≡ items.now) }
{
    let mut copies = Vec::new(alloc);
    for item in items {
        copies.push((item.0, item.1.copy(alloc)?))?;
    }
    Ok(copies)
}

impl Fields {
    /// No field has a value.
    pub fn new(alloc: Global) -> Fields
        ensures { result ≡ [] }
    {
        Fields {
            items: Vec::new(alloc),
        }
    }

    /// The value of the field, if it has one.
    #[inline(always)]
    pub fn get(&self, field: FieldId) -> Option<&Value>
        ensures { option_copied result ≡ value_at field self.now }
    {
        find(self.items.as_slice(), field)
    }

    /// The field gets the value, in place of one that it has.
    #[inline(always)]
    pub fn put(&mut self, field: FieldId, value: Value) -> Result<(), Memory>
        ensures ok { OnOk result (self.new ≡ with_value field value self.old) }
        ensures err { OnErr result (self.new ≡ self.old) }
    {
        put_in(&mut self.items, field, value)
    }

    /// The field has no value any more.
    pub fn remove(&mut self, field: FieldId)
        ensures { self.new ≡ without_value field self.old }
    {
        remove_from(&mut self.items, field);
    }

    // How many fields have a value. Their numbers ascend.
    #[inline(always)]
    pub(crate) fn count(&self) -> usize
        ensures count { result ≡ length self.now }
        ensures order { IsAscending (λ (e : FieldNumber × FieldValue). e.0.0) self.now }
    {
        self.items.len()
    }

    /// The fields that have a value, in the order of their numbers, with their values.
    pub fn as_slice(&self) -> &[(FieldId, Value)]
        ensures { result.now ≡ self.now }
    {
        self.items.as_slice()
    }
}

impl Duplicate for Fields {
    fn copy(&self, alloc: Global) -> Result<Fields, Memory> {
        Ok(Fields {
            items: copy_all(alloc, self.items.as_slice())?,
        })
    }
}
