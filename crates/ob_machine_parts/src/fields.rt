//! Fields: which may be set, what an object keeps of them in a state, and what is given to it.
ghost use Rattle.std.specs.Prelude.{◌≡◌, length, IfOk, OnOk};
ghost use Rattle.ob_heap.specs.Overlays.{KeepsUnread, only};
ghost use Rattle.ob_heap.specs.Plain.{object_of, fields_of};
ghost use Rattle.ob_machine_steps.specs.Changing.{given_values, are_available};
ghost use Rattle.ob_machine_parts.specs.Changes.{is_storable, stored, are_given, kept_in};
ghost use Rattle.ob_machine_parts.specs.Giving.{Gives};
ghost use Rattle.ob_machine_parts.specs.Guards.{Guarded};
ghost use Rattle.ob_machine_parts.specs.Shown.{slots_of, world_with};
ghost use Rattle.ob_machine_parts.specs.Units.{Metered};

use crate::heap::{find, set_field};
use crate::lookups::{contract_at, has_field};
use crate::off::Off;
use crate::slots::{copy_of, is_set};
use ob_base::{Duplicate, FieldId, Items, Memory, ObjectId, StateId};
use ob_code::{ContractCode, Image};
use ob_heap::{Content, Fields, Object, Overlay, Value};
use std::alloc::Global;

// Whether a field of an object is available in its state.
fn is_storable(code: &Image, object: &Object, field: FieldId) -> Result<bool, Off>
    ensures { Gives result (is_storable code.now field (object_of object.now)) (λ b. b) }
{
    let own = contract_at(code, object.contract)?;
    Ok(has_field(own, object.state, field))
}

/// A field of the object of a number, which is available in its state, gets what a slot holds.
#[inline(always)]
pub fn store(
    alloc: Global,
    code: &Image,
    base: &Content,
    overlay: &mut Overlay,
    slots: &Items<Option<Value>>,
    this: ObjectId,
    field: FieldId,
    a: u8,
) -> Result<(), Off>
    ensures told { (g : Guarded) (u : Metered) → Gives result (stored code.now field a this.0 (slots_of slots.now) (world_with g u base.now.objects overlay.old)) (λ _. world_with g u base.now.objects overlay.new) }
    ensures unread { OnOk result (KeepsUnread (only (length base.now.objects) this.0) overlay.old overlay.new) }
{
    if !is_storable(code, find(base, overlay, this)?, field)? {
        return Err(Off::NoStep);
    }
    let value = copy_of(alloc, slots, a)?;
    set_field(alloc, base, overlay, this, field, value)?;
    Ok(())
}

/// Whether each slot that is given to a field is set.
pub fn are_given(slots: &Items<Option<Value>>, given: &[(FieldId, u8)]) -> bool
    ensures { result ≡ are_given (slots_of slots.now) given.now }
{
    for field in given {
        if !is_set(slots, field.1) {
            return false;
        }
    }
    true
}

/// Whether each field that is given is available in a state.
pub fn are_available(own: &ContractCode, state: StateId, given: &[(FieldId, u8)]) -> bool
    ensures { result ≡ are_available own.now state given.now }
{
    for field in given {
        if !has_field(own, Some(state), field.0) {
            return false;
        }
    }
    true
}

/// Copies of the values of the fields that are available in a state.
pub fn kept_in(
    alloc: Global,
    own: &ContractCode,
    state: StateId,
    fields: &[(FieldId, Value)],
) -> Result<Fields, Memory>
    ensures { IfOk result (λ kept. fields_of kept ≡ kept_in own.now state (fields_of fields.now)) }
{
    let mut kept = Fields::new(alloc);
    let mut place = fields.len();
    while place > 0 {
        place -= 1;
        let field = &fields[place];
        if has_field(own, Some(state), field.0) {
            kept.put(field.0, field.1.copy(alloc)?)?;
        }
    }
    Ok(kept)
}

/// These fields, with the values of slots in those that are given.
pub fn with_given(
    alloc: Global,
    slots: &Items<Option<Value>>,
    given: &[(FieldId, u8)],
    fields: Fields,
) -> Result<Fields, Off>
    ensures { Gives result (given_values (slots_of slots.now) given.now (fields_of fields)) (λ f. fields_of f) }
{
    let mut filled = fields;
    for field in given {
        filled.put(field.0, copy_of(alloc, slots, field.1)?)?;
    }
    Ok(filled)
}
