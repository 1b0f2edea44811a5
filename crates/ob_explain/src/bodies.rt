//! The faults of the permission rules of a program's bodies.

use ob_base::{Memory, ProgramFault};
use ob_explain_flow::explain_body;
use ob_explain_names::Within;
use ob_explain_page::{Explanation, Page, word_of};
use ob_flow::Trace;
use ob_front::{AskedProgram, Seen, next_fault};
use ob_silica::TermBody;
use ob_tree::Tree;
use std::alloc::Global;

/// The most faults that are told beside the first.
const MOST_OTHERS: usize = 10;

// The instance in which a body stands, if it stands in one.
fn instance_around<'a>(
    written: &'a Option<Tree>,
    asked: &'a AskedProgram,
    body: &TermBody,
) -> Option<Within<'a>> {
    let contract = asked.table().contract(body.contract)?;
    Within::new(written.as_ref()?, word_of(contract.name.as_bytes()))
}

// What is said of the fault of the body of this number.
fn explain_number(
    alloc: Global,
    text: &[u8],
    written: &Option<Tree>,
    asked: &AskedProgram,
    number: usize,
    fault: ProgramFault,
    trace: &Trace,
) -> Option<Explanation> {
    let body = asked.bodies().get(number)?;
    let mut told = explain_body(alloc, text, asked.table(), body, fault, trace)?;
    if let Some(within) = instance_around(written, asked, body) {
        within.put_around(alloc, &mut told);
    }
    Some(told)
}

// Tells the fault of the body of this number on a line.
fn tell_other(
    alloc: Global,
    page: &mut Page,
    file: &str,
    text: &[u8],
    written: &Option<Tree>,
    asked: &AskedProgram,
    number: usize,
    fault: ProgramFault,
    trace: &Trace,
) -> Result<(), Memory> {
    match explain_number(alloc, text, written, asked, number, fault, trace) {
        Some(told) => told.tell_shortly(page, file, fault),
        None => Ok(()),
    }
}

// Whether a fault of this place and number is among these: instances of one contract have the same places.
fn is_among(told: &[ProgramFault], fault: ProgramFault) -> bool {
    for other in told {
        if other.span.start == fault.span.start && other.number == fault.number {
            return true;
        }
    }
    false
}

// Tells the first faults of the bodies behind this one on a line each, one that several instances have once.
fn tell_others(
    alloc: Global,
    page: &mut Page,
    file: &str,
    text: &[u8],
    written: &Option<Tree>,
    asked: &AskedProgram,
    number: usize,
    told: &mut Vec<ProgramFault>,
) -> Result<(), Memory> {
    let mut trace = Trace::new(alloc, false);
    let mut from = number.saturating_add(1);
    for _ in 0..asked.bodies().len() {
        let next = next_fault(alloc, asked.table(), asked.bodies(), from, &mut trace)?;
        let Some((number, fault)) = next else {
            return Ok(());
        };
        if !is_among(told.as_slice(), fault) {
            tell_other(
                alloc, page, file, text, written, asked, number, fault, &trace,
            )?;
            told.push(fault)?;
        }
        if told.len() > MOST_OTHERS {
            return Ok(());
        }
        from = number.saturating_add(1);
    }
    Ok(())
}

/// Tells the fault of the body of which a premise failed, and then the first faults of those behind it.
pub fn tell_bodies(
    alloc: Global,
    page: &mut Page,
    file: &str,
    text: &[u8],
    fault: ProgramFault,
    seen: &Seen,
) -> Result<(), Memory> {
    let Some(asked) = &seen.asked else {
        return Ok(());
    };
    let number = seen.trace.bodies.saturating_sub(1);
    let written = &seen.tree;
    if let Some(told) = explain_number(alloc, text, written, asked, number, fault, &seen.trace) {
        told.tell(page, file, text, fault, fault.span)?;
    }
    let mut told = Vec::new(alloc);
    told.push(fault)?;
    tell_others(alloc, page, file, text, written, asked, number, &mut told)
}
