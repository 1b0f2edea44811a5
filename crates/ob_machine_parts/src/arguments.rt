//! The slots with which a body begins: `this`, the arguments, and slots that aren't set.
ghost use Rattle.std.specs.Prelude.{◌≡◌, ◌++◌, Some, map, option_map};
ghost use Rattle.ob_heap.specs.Plain.{value_of};
ghost use Rattle.ob_machine_steps.specs.Slots.{first_slots};
ghost use Rattle.ob_machine_parts.specs.Arguments.{gathered, padded, pushed, given_first};
ghost use Rattle.ob_machine_parts.specs.Giving.{Gives};
ghost use Rattle.ob_machine_parts.specs.Shown.{slots_of};

use crate::off::Off;
use crate::slots::copy_of;
use ob_base::{Duplicate, Items, ObjectId};
use ob_heap::Value;
use std::alloc::Global;

#[tactic(auto, using(crate::proofs::SlotsLemmas::slots_push))]
fn push(slots: &mut Vec<Option<Value>>, value: Option<Value>) -> Result<(), Off>
    ensures { Gives result (Some (pushed (slots_of slots.old.items) (option_map value_of value))) (λ _. slots_of slots.new.items) }
{
    match slots.push(value) {
        Ok(()) => Ok(()),
        Err(_) => Err(Off::Memory),
    }
}

fn gather(
    alloc: Global,
    slots: &Items<Option<Value>>,
    args: &[u8],
    out: Vec<Option<Value>>,
) -> Result<Vec<Option<Value>>, Off>
    ensures { Gives result (gathered (slots_of slots.now) args.now (slots_of out.items)) (λ v. slots_of v.items) }
{
    let mut gathered = out;
    for slot in args {
        push(&mut gathered, Some(copy_of(alloc, slots, *slot)?))?;
    }
    Ok(gathered)
}

fn pad(count: u8, slots: Vec<Option<Value>>) -> Result<Items<Option<Value>>, Off>
    ensures { Gives result (Some (padded count (slots_of slots.items))) slots_of }
{
    let missing = (count as usize).saturating_sub(slots.len());
    let mut padded = slots;
    padded.reserve(missing)?;
    for place in 0..missing {
        padded.push_reserved(None);
    }
    Ok(Items::from_vec(padded))
}

/// The slots with which a body begins, with what these slots hold as its arguments.
pub fn first(
    alloc: Global,
    count: u8,
    this: ObjectId,
    slots: &Items<Option<Value>>,
    args: &[u8],
) -> Result<Items<Option<Value>>, Off>
    ensures { Gives result (given_first (slots_of slots.now) args.now this.0 count) slots_of }
{
    let mut first = Vec::with_capacity(alloc, count as usize)?;
    push(&mut first, Some(Value::Object(this)))?;
    match gather(alloc, slots, args, first) {
        Ok(given) => pad(count, given),
        Err(off) => Err(off),
    }
}

fn gather_values(
    alloc: Global,
    args: &[Value],
    out: Vec<Option<Value>>,
) -> Result<Vec<Option<Value>>, Off>
    ensures { Gives result (Some (slots_of out.items ++ map (λ v. Some v) (map value_of args.now))) (λ v. slots_of v.items) }
{
    let mut gathered = out;
    for value in args {
        push(&mut gathered, Some(value.copy(alloc)?))?;
    }
    Ok(gathered)
}

/// The slots with which a body begins, with these values as its arguments.
pub fn first_of(
    alloc: Global,
    count: u8,
    this: ObjectId,
    args: &[Value],
) -> Result<Items<Option<Value>>, Off>
    ensures { Gives result (Some (first_slots count this.0 (map value_of args.now))) slots_of }
{
    let mut first = Vec::with_capacity(alloc, count as usize)?;
    push(&mut first, Some(Value::Object(this)))?;
    let given = gather_values(alloc, args, first)?;
    pad(count, given)
}
