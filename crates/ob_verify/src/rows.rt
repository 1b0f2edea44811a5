//! Rows of what the slots of a body hold, and what instructions do to them.
ghost use Rattle.std.specs.Prelude.{◌≡◌, slice_get, slice_set, map, ◌∷◌, OnOk, IfOk};
ghost use Rattle.std.specs.Option.{option_copied};
ghost use Rattle.ob_table.specs.declared.seen.Kind.TheVariants.{Reference};
ghost use Rattle.ob_verify_spec.specs.Frames.{kinds_of_params};
ghost use Rattle.ob_verify_spec.specs.Instructions.{kind_given, slot_of_result, effect_of_call, effect};
ghost use Rattle.ob_verify_spec.specs.Passing.{row_of, meet, row_after, held_at};

use crate::frame::CodeFrame;
use crate::interfaces::both_hold;
use crate::kinds::{kind_of_param, kind_of_result};
use crate::needs::held;
use crate::survey::Surveyed;
use ob_base::{Items, Memory, Operator};
use ob_code::{BodyCode, Instruction, NO_RESULT};
use ob_table::Kind;
use std::alloc::Global;

/// What the slots of a body hold, one after another; a slot that is unset holds nothing.
pub type KindRow = Items<Option<Kind>>;

fn kind_given(operator: Operator) -> Kind
    ensures { result ≡ kind_given operator }
{
    match operator {
        Operator::Add | Operator::Sub | Operator::Mul => Kind::Int,
        Operator::Div | Operator::Rem | Operator::Negate => Kind::Int,
        _ => Kind::Bool,
    }
}

fn set(row: &mut KindRow, slot: usize, kind: Option<Kind>)
    ensures { row.new ≡ slice_set row.old slot kind }
{
    if slot < row.len() {
        row.set(slot, kind);
    }
}

// A call's result comes into its slot, if one gets it.
fn set_result(row: &mut KindRow, slot: u8, callee: Option<&BodyCode>)
    ensures { row.new ≡ row_after (effect_of_call (slot_of_result slot) (option_copied callee.entry)) row.old }
{
    if slot == NO_RESULT {
        return;
    }
    match callee {
        Some(body) => set(row, usize::from(slot), kind_of_result(body)),
        None => set(row, usize::from(slot), None),
    }
}

/// Makes a row what it is after an instruction.
pub fn apply(frame: &CodeFrame<'_>, instruction: &Instruction, row: &mut KindRow)
    ensures { row.new ≡ row_after (effect frame.now instruction.now) row.old }
{
    match instruction {
        Instruction::Int { slot, .. } => set(row, usize::from(*slot), Some(Kind::Int)),
        Instruction::Bool { slot, .. } => set(row, usize::from(*slot), Some(Kind::Bool)),
        Instruction::Text { slot, .. } => set(row, usize::from(*slot), Some(Kind::Text)),
        Instruction::Copy { slot, a } => {
            let copied = held(row.as_slice(), usize::from(*a));
            set(row, usize::from(*slot), copied);
        }
        Instruction::Load { slot, field } => set(
            row,
            usize::from(*slot),
            frame.kind_of_field(*field),
        ),
        Instruction::Op { slot, operator, .. } => set(
            row,
            usize::from(*slot),
            Some(kind_given(*operator)),
        ),
        Instruction::New { slot, contract, .. } => set(
            row,
            usize::from(*slot),
            Some(Kind::Reference(*contract)),
        ),
        Instruction::Call {
            slot,
            contract,
            tx,
            ..
        } => set_result(row, *slot, frame.image.body(*contract, *tx)),
        Instruction::SelfCall { slot, tx, .. } => {
            set_result(row, *slot, frame.own.bodies.get(tx.0 as usize));
        }
        _ => {}
    }
}

/// Makes a row what it is where another way meets it.
#[tactic(auto, using(crate::proofs::RowLoops::meeting))]
pub fn meet_with(image: &Surveyed<'_>, row: &mut KindRow, other: &[Option<Kind>])
    ensures { row.new ≡ meet image.now row.old other.now }
{
    for slot in 0..row.len() {
        let both = both_hold(image, held(row.as_slice(), slot), held(other, slot));
        set(row, slot, both);
    }
}

// What a slot holds at the entry.
#[tactic(auto, using(crate::proofs::RowLoops::after_first))]
fn held_at_entry(frame: &CodeFrame<'_>, slot: usize) -> Option<Kind>
    ensures { result ≡ slice_get (Reference frame.now.here ∷ kinds_of_params frame.now.body) slot }
{
    if slot == 0 {
        return Some(Kind::Reference(frame.here));
    }
    match frame.body.params.get(slot - 1) {
        Some(of) => Some(kind_of_param(*of)),
        None => None,
    }
}

/// The row of the entry.
#[tactic(auto, using(crate::proofs::RowLoops::entry_more))]
pub fn entry_row(alloc: Global, frame: &CodeFrame<'_>) -> Result<KindRow, Memory>
    ensures { IfOk result (λ row. row
        ≡ row_of frame.now.body.slots (Reference frame.now.here ∷ kinds_of_params frame.now.body)) }
{
    let mut row = Items::new(alloc);
    for slot in 0..usize::from(frame.body.slots) {
        row.push(held_at_entry(frame, slot))?;
    }
    Ok(row)
}
