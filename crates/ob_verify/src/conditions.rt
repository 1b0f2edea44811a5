//! The conditions on jumps, slots and fields, which don't speak of what slots hold.
ghost use Rattle.std.specs.Prelude.{◌≡◌, true, nat_lt, length};
ghost use Rattle.std.specs.List.{list_all};
ghost use Rattle.std.specs.Option.{option_map_or};
ghost use Rattle.ob_verify_spec.specs.Instructions.{reads, slot_set};
ghost use Rattle.ob_verify_spec.specs.Conditions.{is_within, bad_jump, lacks_slots, may_set, bad_slot, bad_field, is_unit, is_ahead_or_unit, no_fuel_mark};

use crate::frame::CodeFrame;
use ob_base::FieldId;
use ob_code::{Instruction, NO_RESULT};

fn is_within(frame: &CodeFrame<'_>, target: u32) -> bool
    ensures { result ≡ is_within frame.now target }
{
    (target as usize) < frame.body.instructions.len()
}

/// Whether an instruction leads to a place that isn't in the body.
pub fn bad_jump(frame: &CodeFrame<'_>, instruction: &Instruction) -> bool
    ensures { result ≡ bad_jump frame.now instruction.now }
{
    match instruction {
        Instruction::Jump { target } => !is_within(frame, *target),
        Instruction::Unless { target, .. } => !is_within(frame, *target),
        Instruction::Test { target, .. } => !is_within(frame, *target),
        _ => false,
    }
}

fn is_unit(instruction: &Instruction) -> bool
    ensures { result ≡ is_unit instruction.now }
{
    matches!(instruction, Instruction::Unit)
}

// Whether a target is ahead of a place, or a `unit` stands there.
fn is_ahead_or_unit(frame: &CodeFrame<'_>, place: usize, target: u32) -> bool
    ensures { result ≡ is_ahead_or_unit frame.now place target }
{
    let target = target as usize;
    if place < target {
        return true;
    }
    match frame.body.instructions.get(target) {
        Some(instruction) => is_unit(instruction),
        None => false,
    }
}

/// Whether an instruction at a place leads to one that isn't ahead and is no `unit`.
pub fn no_fuel_mark(frame: &CodeFrame<'_>, place: usize, instruction: &Instruction) -> bool
    ensures { result ≡ no_fuel_mark frame.now place instruction.now }
{
    match instruction {
        Instruction::Jump { target } => !is_ahead_or_unit(frame, place, *target),
        Instruction::Unless { target, .. } => !is_ahead_or_unit(frame, place, *target),
        Instruction::Test { target, .. } => !is_ahead_or_unit(frame, place, *target),
        _ => false,
    }
}

/// Whether this is the first place of a body that has fewer slots than `this` and its parameters take.
pub fn lacks_slots(frame: &CodeFrame<'_>, place: usize) -> bool
    ensures { result ≡ lacks_slots frame.now place }
{
    place == 0 && usize::from(frame.body.slots) <= frame.body.params.len()
}

fn are_below(slots: u8, named: &[u8]) -> bool
    ensures { result ≡ list_all (λ k. nat_lt k slots) named.now }
{
    named.iter().all(|slot| *slot < slots)
}

fn are_given_below(slots: u8, given: &[(FieldId, u8)]) -> bool
    ensures { result ≡ list_all (λ pair. nat_lt pair.1 slots) given.now }
{
    given.iter().all(|pair| pair.1 < slots)
}

// Whether each slot that an instruction reads is below this number.
fn reads_below(slots: u8, instruction: &Instruction) -> bool
    ensures { result ≡ list_all (λ k. nat_lt k slots) (reads instruction.now) }
{
    match instruction {
        Instruction::Copy { a, .. }
        | Instruction::Store { a, .. }
        | Instruction::Unless { a, .. }
        | Instruction::Test { a, .. }
        | Instruction::Share { a }
        | Instruction::Disown { a }
        | Instruction::RetValue { a }
        | Instruction::Revert { a } => *a < slots,
        Instruction::Op { a, b, .. } => *a < slots && *b < slots,
        Instruction::Change { given, .. } => are_given_below(slots, given.as_slice()),
        Instruction::New { args, .. } => are_below(slots, args.as_slice()),
        Instruction::Call { a, args, .. } => *a < slots && are_below(slots, args.as_slice()),
        Instruction::SelfCall { args, .. } => are_below(slots, args.as_slice()),
        _ => true,
    }
}

fn may_set(frame: &CodeFrame<'_>, slot: u8) -> bool
    ensures { result ≡ may_set frame.now slot }
{
    slot != 0 && slot < frame.body.slots
}

// Whether the slot that an instruction sets, if it sets any, can be set.
fn sets_well(frame: &CodeFrame<'_>, instruction: &Instruction) -> bool
    ensures { result ≡ option_map_or (may_set frame.now) (slot_set instruction.now) true }
{
    match instruction {
        Instruction::Int { slot, .. }
        | Instruction::Bool { slot, .. }
        | Instruction::Text { slot, .. }
        | Instruction::Copy { slot, .. }
        | Instruction::Load { slot, .. }
        | Instruction::Op { slot, .. }
        | Instruction::New { slot, .. } => may_set(frame, *slot),
        Instruction::Call { slot, .. } | Instruction::SelfCall { slot, .. } => {
            *slot == NO_RESULT || may_set(frame, *slot)
        }
        _ => true,
    }
}

/// Whether an instruction at a place names a slot that the body doesn't have, or sets that of `this`, or is the first one of a
/// body that lacks slots.
pub fn bad_slot(frame: &CodeFrame<'_>, place: usize, instruction: &Instruction) -> bool
    ensures { result ≡ bad_slot frame.now place instruction.now }
{
    lacks_slots(frame, place)
        || !reads_below(frame.body.slots, instruction)
        || !sets_well(frame, instruction)
}

fn has_field(frame: &CodeFrame<'_>, field: FieldId) -> bool
    ensures { result ≡ nat_lt field.0 (length frame.now.own.fields) }
{
    usize::from(field.0) < frame.own.fields.len()
}

fn has_fields(frame: &CodeFrame<'_>, given: &[(FieldId, u8)]) -> bool
    ensures { result ≡ list_all (λ pair. nat_lt pair.0.0 (length frame.now.own.fields)) given.now }
{
    given.iter().all(|pair| has_field(frame, pair.0))
}

/// Whether an instruction names a field that the contract doesn't have.
pub fn bad_field(frame: &CodeFrame<'_>, instruction: &Instruction) -> bool
    ensures { result ≡ bad_field frame.now instruction.now }
{
    match instruction {
        Instruction::Load { field, .. } | Instruction::Store { field, .. } => {
            !has_field(frame, *field)
        }
        Instruction::Change { given, .. } => !has_fields(frame, given.as_slice()),
        _ => false,
    }
}
