//! The check of permissions over the bodies of a class table.
ghost use Rattle.std.specs.Prelude.{◌↔◌, map, drop, All, IfOk, IfErr, IfSome, IsNone};
ghost use Rattle.ob_silica.specs.TermsView.{silica_body_of};
ghost use Rattle.ob_table_spec.specs.Conditions.{IsClassTable};
ghost use Rattle.ob_flow_spec.specs.Deriving.{Derives};
ghost use Rattle.ob_base.specs.TextErrors.{OnFault};
ghost use Rattle.ob_front.specs.Checked.{AllNumbered, FailsPremise, IsNextFault};

use ob_base::{Memory, ProgramFault};
use ob_flow::{FlowError, Trace, check};
use ob_silica::TermBody;
use ob_table::Table;
use std::alloc::Global;

/// Asks the permission rules of bodies, one after another; the fault is that of the first one that doesn't derive.
pub fn check_bodies(
    alloc: Global,
    table: &Table,
    bodies: &[TermBody],
    trace: &mut Trace,
) -> Result<(), FlowError>
    requires table { IsClassTable table.now }
    requires states { AllNumbered (map silica_body_of bodies.now) }
    ensures derive { IfOk result (λ _. All (Derives table.now) (map silica_body_of bodies.now)) }
    ensures fault { IfErr result (λ e. OnFault e (FailsPremise table.now (map silica_body_of bodies.now))) }
{
    for body in bodies {
        check(alloc, table, body, trace)?;
    }
    Ok(())
}

/// The first of these bodies, from a number on, that doesn't derive: its number, and its fault, that of the first premise that fails
/// in it. `None` where each body from that number on derives. Where one is found, the trace tells what was known there.
pub fn next_fault(
    alloc: Global,
    table: &Table,
    bodies: &[TermBody],
    from: usize,
    trace: &mut Trace,
) -> Result<Option<(usize, ProgramFault)>, Memory>
    requires table { IsClassTable table.now }
    requires states { AllNumbered (map silica_body_of bodies.now) }
    ensures found { IfOk result (λ next. IfSome next
        (λ found. IsNextFault table.now (map silica_body_of bodies.now) from found.0 found.1)) }
    ensures none { IfOk result (λ next. IsNone next
        ↔ All (Derives table.now) (drop from (map silica_body_of bodies.now))) }
{
    for number in from..bodies.len() {
        match check(alloc, table, &bodies[number], trace) {
            Ok(()) => {}
            Err(FlowError::Fault(fault)) => return Ok(Some((number, fault))),
            Err(FlowError::Memory) => return Err(Memory),
        }
    }
    Ok(None)
}
