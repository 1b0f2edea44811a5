//! The first fault of a body, found on one pass over its instructions in their order, with the rows that are known before it. A row is
//! kept only as long as the pass hasn't come to its place, and copied only where an instruction leads to two places.
ghost use Rattle.std.specs.Prelude.{◌≡◌, ◌<◌, true, None, slice_set, OnOk, IfOk};
ghost use Rattle.std.specs.Option.{option_copied, option_flatten};
ghost use Rattle.ob_verify_spec.specs.Instructions.{leads};
ghost use Rattle.ob_verify_spec.specs.Conditions.{may_go_on};
ghost use Rattle.ob_verify_spec.specs.Passing.{held_at, put_row, put_rows, passed, mismatched, fault_at, fault_at_end, first_fault};

use crate::calls::bad_call;
use crate::conditions::{bad_field, bad_jump, bad_slot, lacks_slots, no_fuel_mark};
use crate::frame::CodeFrame;
use crate::known::known_rows;
use crate::needs::meets_needs;
use crate::rows::{KindRow, apply, meet_with};
use crate::survey::Surveyed;
use ob_base::{Items, Memory};
use ob_code::Instruction;
use ob_table::Kind;
use ob_verify_spec::CodeFault;
use std::alloc::Global;
use std::marker::Model;

/// A fault of a body.
#[derive(Drop)]
pub struct FaultAt {
    /// The place of the instruction, from 0; at the end of the body, the number of its instructions.
    pub instruction: usize,
    /// What is wrong there.
    pub fault: CodeFault,
}

impl Model for FaultAt {
    ghost use Rattle.ob_verify_spec.specs.Passing.{FaultAt};

    ghost Value = { FaultAt };

    ghost view = { λ f. record { instruction = f.instruction; fault = f.fault } };
}

/// Takes the row of a place out.
pub fn take_row(rows: &mut [Option<KindRow>], place: usize) -> Option<KindRow>
    ensures value { result ≡ held_at rows.old place }
    ensures rest { rows.new ≡ slice_set rows.old place None }
{
    if place < rows.len() {
        rows[place].take()
    } else {
        None
    }
}

// One more way leads to a place.
#[tactic(auto, using(crate::proofs::PassLoops::putting))]
fn put_row(image: &Surveyed<'_>, rows: &mut [Option<KindRow>], place: usize, row: KindRow)
    ensures { rows.new ≡ put_row image.now rows.old place row }
{
    if place >= rows.len() {
        return;
    }
    match take_row(rows, place) {
        Some(mut known) => {
            meet_with(image, &mut known, row.as_slice());
            rows[place] = Some(known);
        }
        None => rows[place] = Some(row),
    }
}

// The same, with the row kept.
#[tactic(auto, using(crate::proofs::PassLoops::putting))]
fn put_copy(
    alloc: Global,
    image: &Surveyed<'_>,
    rows: &mut [Option<KindRow>],
    place: usize,
    row: &[Option<Kind>],
) -> Result<(), Memory>
    ensures { OnOk result (rows.new ≡ put_row image.now rows.old place row.now) }
{
    if place >= rows.len() {
        return Ok(());
    }
    match take_row(rows, place) {
        Some(mut known) => {
            meet_with(image, &mut known, row);
            rows[place] = Some(known);
        }
        None => rows[place] = Some(Items::from_slice(alloc, row)?),
    }
    Ok(())
}

// The ways go on after the instruction at a place, with this row.
fn put_rows(
    alloc: Global,
    image: &Surveyed<'_>,
    place: usize,
    instruction: &Instruction,
    rows: &mut [Option<KindRow>],
    row: KindRow,
) -> Result<(), Memory>
    requires { place < usize.MAX }
    ensures { OnOk result (rows.new ≡ put_rows image.now rows.old (leads place instruction.now) row) }
{
    match instruction {
        Instruction::Jump { target } => put_row(image, rows, *target as usize, row),
        Instruction::Unless { target, .. } | Instruction::Test { target, .. } => {
            put_copy(alloc, image, rows, *target as usize, row.as_slice())?;
            put_row(image, rows, place + 1, row);
        }
        Instruction::Ret | Instruction::RetValue { .. } | Instruction::Revert { .. } => {}
        _ => put_row(image, rows, place + 1, row),
    }
    Ok(())
}

/// Passes an instruction at which no condition holds that doesn't speak of what slots hold.
pub fn pass(
    alloc: Global,
    frame: &CodeFrame<'_>,
    place: usize,
    instruction: &Instruction,
    rows: &mut [Option<KindRow>],
) -> Result<(), Memory>
    requires few { place < usize.MAX }
    requires sound { may_go_on frame.now place instruction.now ≡ true }
    ensures { OnOk result (rows.new ≡ passed frame.now place instruction.now rows.old) }
{
    match take_row(rows, place) {
        Some(mut row) => {
            apply(frame, instruction, &mut row);
            put_rows(alloc, frame.image, place, instruction, rows, row)
        }
        None => Ok(()),
    }
}

// Whether what an instruction needs isn't met by the row of its place.
fn mismatched(
    frame: &CodeFrame<'_>,
    instruction: &Instruction,
    row: Option<&Option<KindRow>>,
) -> bool
    ensures { result ≡ mismatched frame.now instruction.now (option_flatten (option_copied row.entry)) }
{
    match row {
        Some(Some(row)) => !meets_needs(frame, instruction, row.as_slice()),
        _ => false,
    }
}

// The fault of the least number at an instruction.
fn fault_at(
    frame: &CodeFrame<'_>,
    place: usize,
    instruction: &Instruction,
    rows: &[Option<KindRow>],
) -> Option<CodeFault>
    ensures { result ≡ fault_at frame.now place instruction.now (held_at rows.now place) }
{
    if bad_jump(frame, instruction) {
        Some(CodeFault::BadJump)
    } else if bad_slot(frame, place, instruction) {
        Some(CodeFault::BadSlot)
    } else if mismatched(frame, instruction, rows.get(place)) {
        Some(CodeFault::KindMismatch)
    } else if bad_field(frame, instruction) {
        Some(CodeFault::BadField)
    } else if bad_call(frame, instruction) {
        Some(CodeFault::BadCall)
    } else if no_fuel_mark(frame, place, instruction) {
        Some(CodeFault::NoFuelMark)
    } else {
        None
    }
}

// The fault at the end of a body.
fn fault_at_end(frame: &CodeFrame<'_>, place: usize, rows: &[Option<KindRow>]) -> Option<CodeFault>
    ensures { result ≡ fault_at_end frame.now place (held_at rows.now place) }
{
    if lacks_slots(frame, place) {
        return Some(CodeFault::BadSlot);
    }
    match rows.get(place) {
        Some(Some(_)) => Some(CodeFault::FallsOff),
        _ => None,
    }
}

/// The first fault of a body.
#[tactic(auto, using(crate::proofs::PassLoops::passing))]
pub fn first_fault(alloc: Global, frame: &CodeFrame<'_>) -> Result<Option<FaultAt>, Memory>
    ensures { IfOk result (λ found. found ≡ first_fault frame.now) }
{
    let mut rows = known_rows(alloc, frame)?;
    let instructions = frame.body.instructions.as_slice();
    for place in 0..instructions.len() {
        if let Some(fault) = fault_at(frame, place, &instructions[place], rows.as_slice()) {
            return Ok(Some(FaultAt {
                instruction: place,
                fault,
            }));
        }
        pass(
            alloc,
            frame,
            place,
            &instructions[place],
            rows.as_mut_slice(),
        )?;
    }
    match fault_at_end(frame, instructions.len(), rows.as_slice()) {
        Some(fault) => Ok(Some(FaultAt {
            instruction: instructions.len(),
            fault,
        })),
        None => Ok(None),
    }
}
