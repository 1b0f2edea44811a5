//! The rows that are known before a body is passed for its first fault. Where no instruction leads behind that is the row of the entry
//! alone. Else passes go on until none changes a row: what a pass leaves is met with what was known before it. Only the rows of places
//! to which some instruction leads behind are kept from pass to pass.
ghost use Rattle.std.specs.Prelude.{◌≡◌, ◌<◌, length, OnOk, IfOk};
ghost use Rattle.ob_verify_spec.specs.Instructions.{targets};
ghost use Rattle.ob_verify_spec.specs.Conditions.{may_go_on, same_result};
ghost use Rattle.ob_verify_spec.specs.Passing.{first_rows, passed, all_passed, merged_row, merged, rows_after_passes, most_changes, some_behind, some_lead_behind, known_rows};
ghost use Rattle.ob_verify.specs.Changing.{slot_changes, row_changes, place_changes, some_change};

use crate::answers::same_result;
use crate::calls::bad_call;
use crate::conditions::{bad_field, bad_jump, bad_slot, no_fuel_mark};
use crate::frame::CodeFrame;
use crate::interfaces::both_hold;
use crate::needs::held;
use crate::pass::{pass, take_row};
use crate::rows::{KindRow, entry_row, meet_with};
use crate::survey::Surveyed;
use ob_base::{Items, Memory};
use ob_code::Instruction;
use ob_table::Kind;
use std::alloc::Global;

// The rows that are known before any pass: that of the entry.
#[tactic(auto, using(crate::proofs::PassLoops::rows_more))]
fn first_rows(alloc: Global, frame: &CodeFrame<'_>) -> Result<Vec<Option<KindRow>>, Memory>
    ensures { IfOk result (λ rows. rows.items ≡ first_rows frame.now) }
{
    let row = entry_row(alloc, frame)?;
    let places = frame.body.instructions.len().saturating_add(1);
    let mut rows = Vec::with_capacity(alloc, places)?;
    rows.push(Some(row))?;
    for _i in 0..frame.body.instructions.len() {
        rows.push(None)?;
    }
    Ok(rows)
}

// Whether ways go on after an instruction.
fn may_go_on(frame: &CodeFrame<'_>, place: usize, instruction: &Instruction) -> bool
    ensures { result ≡ may_go_on frame.now place instruction.now }
{
    !bad_jump(frame, instruction)
        && !bad_slot(frame, place, instruction)
        && !bad_field(frame, instruction)
        && !bad_call(frame, instruction)
        && !no_fuel_mark(frame, place, instruction)
}

// Passes an instruction, whatever conditions hold there.
#[tactic(auto, using(crate::proofs::KnownLoops::stopped))]
fn pass_any(
    alloc: Global,
    frame: &CodeFrame<'_>,
    place: usize,
    instruction: &Instruction,
    rows: &mut [Option<KindRow>],
) -> Result<(), Memory>
    requires { place < usize.MAX }
    ensures { OnOk result (rows.new ≡ passed frame.now place instruction.now rows.old) }
{
    if may_go_on(frame, place, instruction) {
        return pass(alloc, frame, place, instruction, rows);
    }
    take_row(rows, place);
    Ok(())
}

// Passes all instructions.
#[tactic(auto, using(crate::proofs::KnownLoops::passing))]
fn pass_all(
    alloc: Global,
    frame: &CodeFrame<'_>,
    rows: &mut [Option<KindRow>],
) -> Result<(), Memory>
    ensures { OnOk result (rows.new ≡ all_passed frame.now 0 frame.now.body.instructions rows.old) }
{
    let instructions = frame.body.instructions.as_slice();
    for place in 0..instructions.len() {
        pass_any(alloc, frame, place, &instructions[place], rows)?;
    }
    Ok(())
}

// A copy of what is known of the slots at a place.
fn copy_row(alloc: Global, row: &Option<KindRow>) -> Result<Option<KindRow>, Memory>
    ensures { IfOk result (λ copy. copy ≡ row.now) }
{
    match row {
        None => Ok(None),
        Some(row) => Ok(Some(Items::from_slice(alloc, row.as_slice())?)),
    }
}

// A copy of what is known of the slots at each place.
fn copy_rows(alloc: Global, rows: &[Option<KindRow>]) -> Result<Vec<Option<KindRow>>, Memory>
    ensures { IfOk result (λ copies. copies.items ≡ rows.now) }
{
    let mut copies = Vec::with_capacity(alloc, rows.len())?;
    for row in rows {
        copies.push(copy_row(alloc, row)?)?;
    }
    Ok(copies)
}

// Whether what a slot is known to hold changes where another way meets it.
fn slot_changes(image: &Surveyed<'_>, known: Option<Kind>, other: Option<Kind>) -> bool
    ensures { result ≡ slot_changes image.now known other }
{
    !same_result(both_hold(image, known, other), known)
}

// Whether what some slot is known to hold changes where another way meets it.
#[tactic(auto, using(crate::proofs::KnownLoops::slots))]
fn row_changes(image: &Surveyed<'_>, known: &[Option<Kind>], other: &[Option<Kind>]) -> bool
    ensures { result ≡ row_changes image.now known.now other.now }
{
    for slot in 0..known.len() {
        if slot_changes(image, held(known, slot), held(other, slot)) {
            return true;
        }
    }
    false
}

// Whether what is known at a place changes where another way meets it.
fn place_changes(image: &Surveyed<'_>, known: &Option<KindRow>, left: &Option<KindRow>) -> bool
    ensures { result ≡ place_changes image.now known.now left.now }
{
    match (known, left) {
        (Some(known), Some(left)) => row_changes(image, known.as_slice(), left.as_slice()),
        (None, Some(_)) => true,
        _ => false,
    }
}

// Whether what a pass has left changes what was known before it.
#[tactic(auto, using(crate::proofs::KnownLoops::places))]
fn some_change(image: &Surveyed<'_>, rows: &[Option<KindRow>], left: &[Option<KindRow>]) -> bool
    requires { length rows.now ≡ length left.now }
    ensures { result ≡ some_change image.now rows.now left.now }
{
    for place in 0..rows.len() {
        if place_changes(image, &rows[place], &left[place]) {
            return true;
        }
    }
    false
}

// What is known at a place on both ways to it; on one of them, where the other one doesn't come there.
fn merged_row(
    image: &Surveyed<'_>,
    known: Option<KindRow>,
    left: Option<KindRow>,
) -> Option<KindRow>
    ensures { result ≡ merged_row image.now known left }
{
    match (known, left) {
        (known, None) => known,
        (None, Some(left)) => Some(left),
        (Some(mut known), Some(left)) => {
            meet_with(image, &mut known, left.as_slice());
            Some(known)
        }
    }
}

// What a pass has left is met with what was known before it.
#[tactic(auto, using(crate::proofs::KnownLoops::merging))]
fn merge(image: &Surveyed<'_>, rows: &mut [Option<KindRow>], left: &mut [Option<KindRow>])
    requires { length rows.old ≡ length left.old }
    ensures { rows.new ≡ merged image.now rows.old left.old }
{
    for place in 0..rows.len() {
        let known = take_row(rows, place);
        let other = take_row(left, place);
        rows[place] = merged_row(image, known, other);
    }
}

// Passes until none changes a row.
fn settle(
    alloc: Global,
    frame: &CodeFrame<'_>,
    first: Vec<Option<KindRow>>,
) -> Result<Vec<Option<KindRow>>, Memory>
    requires { first.items ≡ first_rows frame.now }
    ensures { IfOk result (λ rows. rows.items
        ≡ rows_after_passes (most_changes frame.now) frame.now (first_rows frame.now)) }
{
    let mut rows = first;
    loop {
        let mut left = copy_rows(alloc, rows.as_slice())?;
        pass_all(alloc, frame, left.as_mut_slice())?;
        if !some_change(frame.image, rows.as_slice(), left.as_slice()) {
            return Ok(rows);
        }
        merge(frame.image, rows.as_mut_slice(), left.as_mut_slice());
    }
}

// Whether an instruction at a place jumps backward, or to itself.
fn leads_behind(place: usize, instruction: &Instruction) -> bool
    ensures { result ≡ some_behind place (targets instruction.now) }
{
    match instruction {
        Instruction::Jump { target } => (*target as usize) <= place,
        Instruction::Unless { target, .. } => (*target as usize) <= place,
        Instruction::Test { target, .. } => (*target as usize) <= place,
        _ => false,
    }
}

// Whether some instruction jumps backward, or to itself.
#[tactic(auto, using(crate::proofs::KnownLoops::behind))]
fn some_lead_behind(instructions: &[Instruction]) -> bool
    ensures { result ≡ some_lead_behind 0 instructions.now }
{
    for place in 0..instructions.len() {
        if leads_behind(place, &instructions[place]) {
            return true;
        }
    }
    false
}

/// The rows that are known before a body is passed for its first fault.
pub fn known_rows(alloc: Global, frame: &CodeFrame<'_>) -> Result<Vec<Option<KindRow>>, Memory>
    ensures { IfOk result (λ rows. rows.items ≡ known_rows frame.now) }
{
    let first = first_rows(alloc, frame)?;
    if some_lead_behind(frame.body.instructions.as_slice()) {
        settle(alloc, frame, first)
    } else {
        Ok(first)
    }
}
