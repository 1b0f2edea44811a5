//! What is known of each place at a point of a body.
ghost use Rattle.std.specs.Prelude.{◌≡◌, ◌≤◌, ℕ, length, slice_get, option_map, OnOk};
ghost use Rattle.std.specs.Option.{option_flatten};
ghost use Rattle.ob_perm.specs.Masks.{permission_of};
ghost use Rattle.ob_silica_places.specs.Places.{location_of};
ghost use Rattle.ob_silica_places.specs.Known.{at};
ghost use Rattle.ob_silica_places.specs.Known.{unowned_under};
ghost use Rattle.ob_flow_spec.specs.Contexts.{put, now, with_permission, permission_at, counted};
ghost use Rattle.ob_flow_spec.specs.Contexts.{is_set, is_held_as};
ghost use Rattle.ob_flow_spec.specs.Uses.{kind_known};
ghost use Rattle.ob_flow_context.specs.View.{known_of, known_at, context_of};

use ob_base::{Duplicate, Items, Memory, Mode, Perm};
use ob_perm::{matches, unowned};
use ob_silica::Place;
use ob_table::Kind;
use std::alloc::Global;

/// What is known of a place.
#[derive(Clone, Copy)]
pub struct Known {
    /// The kind of its value, without a permission.
    pub kind: Kind,
    /// The permission on it, which is Unowned if it is no reference.
    pub permission: Perm,
}

/// What is known of each place; a place past the end of its list is unset.
#[derive(Drop)]
pub struct Context {
    // Slot 0 is `this`.
    slots: Items<Option<Known>>,
    fields: Items<Option<Known>>,
}

// What is known of the place of this number.
#[tactic(auto, using(crate::proofs::KnownLemmas::knowing))]
fn known_at(known: &Items<Option<Known>>, number: u8) -> Option<Known>
    ensures { option_map known_of result ≡ known_at known.now number }
{
    match known.get(usize::from(number)) {
        Some(known) => *known,
        None => None,
    }
}

// Makes the list this long.
#[tactic(auto, using(crate::proofs::KnownLemmas::knowing))]
fn grow(known: &mut Items<Option<Known>>, count: usize) -> Result<(), Memory>
    ensures same { known_at known.new ≡ known_at known.old }
    ensures long { OnOk result (count ≤ length known.new) }
{
    while known.len() < count {
        known.push(None)?;
    }
    Ok(())
}

// Sets or unsets the place of this number.
#[tactic(auto, using(crate::proofs::KnownLemmas::knowing))]
fn put_at(known: &mut Items<Option<Known>>, number: u8, to: Option<Known>) -> Result<(), Memory>
    ensures { OnOk result (known_at known.new ≡ at (known_at known.old) number (option_map known_of to)) }
{
    let number = usize::from(number);
    grow(known, number + 1)?;
    known.set(number, to);
    Ok(())
}

// Gives the place of this number another permission, if it is set.
#[tactic(auto, using(crate::proofs::KnownLemmas::knowing))]
fn set_permission_at(known: &mut Items<Option<Known>>, number: u8, permission: Perm)
    ensures { known_at known.new ≡ at (known_at known.old) number
        (with_permission (permission_of permission) (known_at known.old number)) }
{
    if let Some(before) = known_at(known, number) {
        let after = Known {
            kind: before.kind,
            permission,
        };
        known.set(usize::from(number), Some(after));
    }
}

// An owner's permission counts as Unowned under an Unowned `this`.
fn unowned_under(this: Perm, permission: Perm) -> Perm
    ensures { permission_of result ≡ unowned_under (permission_of this) (permission_of permission) }
{
    match (this.mode, permission.mode) {
        (Mode::Unowned, Mode::Owned) => unowned(),
        _ => permission,
    }
}

impl Context {
    /// What is known of the slots, `this` first, and of the fields.
    pub fn of(slots: Items<Option<Known>>, fields: Items<Option<Known>>) -> Context
        ensures { result ≡ record { slots = slots; fields = fields } }
    {
        Context { slots, fields }
    }

    /// What is known of the slots; of those past the end nothing is.
    pub fn slots(&self) -> &[Option<Known>]
        ensures { result.now ≡ self.now.slots }
    {
        self.slots.as_slice()
    }

    /// What is known of the fields; of those past the end nothing is.
    pub fn fields(&self) -> &[Option<Known>]
        ensures { result.now ≡ self.now.fields }
    {
        self.fields.as_slice()
    }

    /// What is known of a place, if it is set.
    #[tactic(auto, using(crate::proofs::KnownLemmas::knowing))]
    pub fn get(&self, place: Place) -> Option<Known>
        ensures { option_map known_of result ≡ context_of self.now (location_of place) }
    {
        match place {
            Place::This => known_at(&self.slots, 0),
            Place::Slot(slot) => known_at(&self.slots, slot),
            Place::Field(field) => known_at(&self.fields, field.0),
        }
    }

    /// Sets or unsets a place.
    #[tactic(auto, using(crate::proofs::KnownLemmas::knowing))]
    pub fn put(&mut self, place: Place, known: Option<Known>) -> Result<(), Memory>
        ensures { OnOk result (context_of self.new
            ≡ put (context_of self.old) (location_of place) (option_map known_of known)) }
    {
        match place {
            Place::This => put_at(&mut self.slots, 0, known),
            Place::Slot(slot) => put_at(&mut self.slots, slot, known),
            Place::Field(field) => put_at(&mut self.fields, field.0, known),
        }
    }

    /// Gives a place another permission, if it is set.
    #[tactic(auto, using(crate::proofs::KnownLemmas::knowing))]
    pub fn set_permission(&mut self, place: Place, permission: Perm)
        ensures { context_of self.new
            ≡ now (context_of self.old) (location_of place) (permission_of permission) }
    {
        match place {
            Place::This => set_permission_at(&mut self.slots, 0, permission),
            Place::Slot(slot) => set_permission_at(&mut self.slots, slot, permission),
            Place::Field(field) => set_permission_at(&mut self.fields, field.0, permission),
        }
    }

    /// The permission on a place, which is Unowned where the place is unset.
    pub fn permission(&self, place: Place) -> Perm
        ensures { permission_of result ≡ permission_at (context_of self.now) (location_of place) }
    {
        match self.get(place) {
            Some(known) => known.permission,
            None => unowned(),
        }
    }

    /// The permission on a place as it counts: an owner's on a field counts as Unowned while `this` is Unowned.
    pub fn counted(&self, place: Place) -> Perm
        ensures { permission_of result ≡ counted (context_of self.now) (location_of place) }
    {
        match place {
            Place::This | Place::Slot(_) => self.permission(place),
            Place::Field(_) => {
                unowned_under(self.permission(Place::This), self.permission(place))
            }
        }
    }

    /// The kind of a place; that of one that is unset is no reference's.
    pub fn kind(&self, place: Place) -> Kind
        ensures { result ≡ kind_known (context_of self.now (location_of place)) }
    {
        match self.get(place) {
            Some(known) => known.kind,
            None => Kind::Int,
        }
    }

    /// Whether a place is set.
    pub fn is_set(&self, place: Place) -> bool
        ensures { result ≡ is_set (context_of self.now (location_of place)) }
    {
        self.get(place).is_some()
    }

    /// Whether a place is set and held as a permission says.
    pub fn is_held_as(&self, place: Place, permission: Perm) -> bool
        ensures { result ≡ is_held_as (context_of self.now (location_of place)) (permission_of permission) }
    {
        match self.get(place) {
            Some(known) => matches(known.permission, permission),
            None => false,
        }
    }
}

impl Duplicate for Context {
    fn copy(&self, alloc: Global) -> Result<Context, Memory> {
        Ok(Context {
            slots: Items::from_slice(alloc, self.slots.as_slice())?,
            fields: Items::from_slice(alloc, self.fields.as_slice())?,
        })
    }
}
