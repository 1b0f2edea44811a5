//! How code reads the operands of a form, and marks the objects that come into places declared Shared.
ghost use Rattle.std.specs.Prelude.{◌≡◌, ◌∷◌, ◌++◌, ◌≤◌, map, OnOk, IfOk};
ghost use Rattle.std.specs.Option.{option_map_or};
ghost use Rattle.ob_silica_places.specs.Parameters.{Parameter, parameters};
ghost use Rattle.ob_table.specs.declared.contract.Contract.{Contract};
ghost use Rattle.ob_perm.specs.Masks.{permission_of};
ghost use Rattle.ob_perm.specs.Permissions.{is_shared};
ghost use Rattle.ob_emit_spec.specs.Operands.{slot_read, load, slots_read, loads, values_given, share, shares};
ghost use Rattle.ob_emit_spec.specs.Emission.{given_slots, share_in_field, shares_of_given};

use crate::code::Code;
use crate::frame::EmissionFrame;
use ob_base::{FieldId, Items, Memory, Mode, Perm};
use ob_code::Instruction;
use ob_silica::{Given, Operand, Place};
use ob_table::{Param, ResolvedType};

// The slot from which the operand of a number is read. A number past those of slots counts as want of memory.
fn slot_read(scratch: u8, number: usize, place: Place) -> Result<u8, Memory>
    ensures { IfOk result (λ k. k ≡ slot_read scratch number place) }
{
    match place {
        Place::This => Ok(0),
        Place::Slot(slot) => Ok(slot),
        Place::Field(_) => {
            let Ok(number) = u8::try_from(number) else {
                return Err(Memory);
            };
            scratch.checked_add(number).ok_or(Memory)
        }
    }
}

/// The operand of a number is loaded, if it is a field; the slot from which it is read.
#[tactic(auto, using(crate::proofs::CodeLemmas::codes))]
pub fn load(scratch: u8, number: usize, place: Place, out: &mut Code) -> Result<u8, Memory>
    ensures slot { IfOk result (λ k. k ≡ slot_read scratch number place) }
    ensures code { OnOk result (out.new ≡ out.old ++ load scratch number place) }
{
    let slot = slot_read(scratch, number, place)?;
    if let Place::Field(field) = place {
        out.put(Instruction::Load { slot, field })?;
    }
    Ok(slot)
}

/// The fields among operands are loaded, of which the first has this number; the slots from which they are read.
#[tactic(auto, using(crate::proofs::CodeLemmas::codes))]
pub fn load_all(
    operands: &[Operand],
    scratch: u8,
    first: u8,
    out: &mut Code,
) -> Result<Items<u8>, Memory>
    ensures slots { IfOk result (λ ks. ks ≡ slots_read scratch first operands.now) }
    ensures code { OnOk result (out.new ≡ out.old ++ loads scratch first operands.now) }
{
    let mut slots = Items::new(out.alloc());
    let mut number = usize::from(first);
    for operand in operands {
        slots.push(load(scratch, number, operand.place, out)?)?;
        number = number.checked_add(1).ok_or(Memory)?;
    }
    Ok(slots)
}

/// The fields among the values of given fields are loaded; each given field, with the slot of its value.
#[tactic(auto, using(crate::proofs::CodeLemmas::codes))]
pub fn load_given(
    given: &[Given],
    scratch: u8,
    out: &mut Code,
) -> Result<Items<(FieldId, u8)>, Memory>
    ensures slots { IfOk result (λ gs. gs ≡ given_slots scratch 0 given.now) }
    ensures code { OnOk result (out.new ≡ out.old ++ loads scratch 0 (values_given given.now)) }
{
    let mut slots = Items::new(out.alloc());
    let mut number: usize = 0;
    for one in given {
        let slot = load(scratch, number, one.from.place, out)?;
        slots.push((one.field, slot))?;
        number = number.checked_add(1).ok_or(Memory)?;
    }
    Ok(slots)
}

/// Whether a permission is Shared.
pub fn is_shared(permission: Perm) -> bool
    ensures { result ≡ is_shared (permission_of permission) }
{
    permission.mode == Mode::Shared
}

/// The object of a slot is marked where it comes into a place of this type that is declared Shared.
#[tactic(auto, using(crate::proofs::CodeLemmas::codes))]
pub fn share(of: ResolvedType, slot: u8, out: &mut Code) -> Result<(), Memory>
    ensures { OnOk result (out.new ≡ out.old ++ share of slot) }
{
    match of {
        ResolvedType::Reference(_, permission) => {
            if is_shared(permission) {
                out.put(Instruction::Share { a: slot })?;
            }
            Ok(())
        }
        ResolvedType::Int | ResolvedType::Bool | ResolvedType::Text => Ok(()),
    }
}

/// The objects of arguments are marked, where they come into parameters that are declared Shared.
#[tactic(auto, using(crate::proofs::CodeLemmas::sharing))]
pub fn share_params(params: &[Param], slots: &[u8], out: &mut Code) -> Result<(), Memory>
    ensures { OnOk result (out.new ≡ out.old ++ shares (map (λ p. p.of) params.now) slots.now) }
{
    for index in 0..params.len().min(slots.len()) {
        share(params[index].of, slots[index], out)?;
    }
    Ok(())
}

/// The object of a slot is marked where the field that gets it is declared Shared.
#[tactic(auto, using(crate::proofs::CodeLemmas::codes))]
pub fn share_in_field(
    frame: &EmissionFrame<'_>,
    field: FieldId,
    slot: u8,
    out: &mut Code,
) -> Result<(), Memory>
    ensures { OnOk result (out.new ≡ out.old ++ share_in_field frame.now.static.own field slot) }
{
    match frame.field(field) {
        Some(field) => share(field.of, slot, out),
        None => Ok(()),
    }
}

/// The objects that come into given fields are marked.
#[tactic(auto, using(crate::proofs::CodeLemmas::codes))]
pub fn share_given(
    given: &[(FieldId, u8)],
    frame: &EmissionFrame<'_>,
    out: &mut Code,
) -> Result<(), Memory>
    ensures { OnOk result (out.new ≡ out.old ++ shares_of_given frame.now.static.own given.now) }
{
    for one in given {
        share_in_field(frame, one.0, one.1, out)?;
    }
    Ok(())
}
