//! The slots of a frame.
ghost use Rattle.std.specs.Prelude.{◌≡◌, option_map};
ghost use Rattle.ob_heap.specs.Plain.{value_of};
ghost use Rattle.ob_machine_steps.specs.Returning.{with_result};
ghost use Rattle.ob_machine_steps.specs.Slots.{value_at, truth_at, text_at, reference_at, with_value_at};
ghost use Rattle.ob_machine_parts.specs.Arguments.{are_set};
ghost use Rattle.ob_machine_parts.specs.Changes.{is_set};
ghost use Rattle.ob_machine_parts.specs.Giving.{Gives};
ghost use Rattle.ob_machine_parts.specs.Shown.{slots_of, number_of};

use crate::off::Off;
use ob_base::{Duplicate, Items, ObjectId};
use ob_code::NO_RESULT;
use ob_heap::{RcStr, Value};
use std::alloc::Global;

/// The value of a slot.
#[tactic(auto, using(crate::proofs::SlotsLemmas::slot_lemmas))]
pub fn value(slots: &Items<Option<Value>>, slot: u8) -> Result<&Value, Off>
    ensures { Gives result (value_at (slots_of slots.now) slot) (λ v. value_of v.now) }
{
    match slots.get(slot as usize) {
        Some(Some(value)) => Ok(value),
        _ => Err(Off::NoStep),
    }
}

/// Sets a slot.
#[inline(always)]
#[tactic(auto, using(crate::proofs::SlotsLemmas::slot_lemmas))]
pub fn put(slots: &mut Items<Option<Value>>, slot: u8, value: Value) -> Result<(), Off>
    ensures { Gives result (with_value_at (slots_of slots.old) slot (value_of value)) (λ _. slots_of slots.new) }
{
    if (slot as usize) < slots.len() {
        slots.set(slot as usize, Some(value));
        Ok(())
    } else {
        Err(Off::NoStep)
    }
}

/// A copy of the value of a slot.
#[inline(always)]
pub fn copy_of(alloc: Global, slots: &Items<Option<Value>>, slot: u8) -> Result<Value, Off>
    ensures { Gives result (value_at (slots_of slots.now) slot) value_of }
{
    let value = value(slots, slot)?;
    Ok(value.copy(alloc)?)
}

/// The truth value in a slot.
pub fn truth(slots: &Items<Option<Value>>, slot: u8) -> Result<bool, Off>
    ensures { Gives result (truth_at (slots_of slots.now) slot) (λ b. b) }
{
    match value(slots, slot)? {
        Value::Bool(truth) => Ok(*truth),
        _ => Err(Off::NoStep),
    }
}

/// The object to which a slot refers.
pub fn reference(slots: &Items<Option<Value>>, slot: u8) -> Result<ObjectId, Off>
    ensures { Gives result (reference_at (slots_of slots.now) slot) number_of }
{
    match value(slots, slot)? {
        Value::Object(id) => Ok(*id),
        _ => Err(Off::NoStep),
    }
}

/// The text in a slot.
pub fn text(alloc: Global, slots: &Items<Option<Value>>, slot: u8) -> Result<RcStr, Off>
    ensures { Gives result (text_at (slots_of slots.now) slot) (λ t. t) }
{
    match value(slots, slot)? {
        Value::Text(text) => Ok(text.copy(alloc)?),
        _ => Err(Off::NoStep),
    }
}

/// Whether a slot is set.
#[tactic(auto, using(crate::proofs::SlotsLemmas::slot_lemmas))]
pub fn is_set(slots: &Items<Option<Value>>, slot: u8) -> bool
    ensures { result ≡ is_set (slots_of slots.now) slot }
{
    match slots.get(slot as usize) {
        Some(Some(_)) => true,
        _ => false,
    }
}

/// Whether each of these slots is set.
pub fn are_set(slots: &Items<Option<Value>>, args: &[u8]) -> bool
    ensures { result ≡ are_set (slots_of slots.now) args.now }
{
    for slot in args {
        if !is_set(slots, *slot) {
            return false;
        }
    }
    true
}

/// A slot gets a result, if one gets it.
pub fn give(slots: &mut Items<Option<Value>>, into: u8, value: Option<Value>) -> Result<(), Off>
    ensures { Gives result (with_result (slots_of slots.old) into (option_map value_of value)) (λ _. slots_of slots.new) }
{
    if into == NO_RESULT {
        return Ok(());
    }
    match value {
        Some(value) => put(slots, into, value),
        None => Err(Off::NoStep),
    }
}
