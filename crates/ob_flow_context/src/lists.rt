//! Giving places to parameters one after another, and what they get back.
ghost use Rattle.std.specs.Prelude.{◌≡◌, option_map, OnOk};
ghost use Rattle.ob_silica_places.specs.Places.{location_of};
ghost use Rattle.ob_flow_spec.specs.Binding.{reads_of, gives_all, given_all, got_back, got_back_all};
ghost use Rattle.ob_flow_spec.specs.Binding.{with_result};
ghost use Rattle.ob_flow_context.specs.View.{context_of, tested_of};
ghost use Rattle.ob_flow_context.specs.Checking.{Leaves};
ghost use Rattle.ob_flow_context.specs.Parameters.{plain_parameter, plain_parameters};

use crate::checking::FlowError;
use crate::context::Context;
use crate::frame::BodyFrame;
use crate::kinds::{kind_of, known_as};
use crate::once::wants_owner;
use crate::passing::Parameter;
use crate::using::give;
use ob_base::Memory;
use ob_silica::{Operand, Place};
use ob_table::ResolvedType;
use std::alloc::Global;

/// Gives places to parameters one after another.
#[tactic(auto, using(crate::proofs::ListLemmas::giving))]
pub fn give_all(
    alloc: Global,
    frame: &BodyFrame<'_>,
    tested: &[Place],
    context: &mut Context,
    reads: &[Operand],
    params: &[Parameter],
) -> Result<(), FlowError>
    ensures { Leaves result (context_of context.new)
        (gives_all frame.now (tested_of tested.now) (context_of context.old) (reads_of reads.now) (plain_parameters params.now))
        (given_all (context_of context.old) (reads_of reads.now) (plain_parameters params.now)) }
{
    let count = reads.len().min(params.len());
    for i in 0..count {
        give(alloc, frame, tested, context, reads[i], params[i])?;
    }
    Ok(())
}

// Gives a place that was given to an owner the exit, said for its own contract.
fn get_back(
    alloc: Global,
    frame: &BodyFrame<'_>,
    context: &mut Context,
    place: Place,
    to: Parameter,
) -> Result<(), Memory>
    ensures { OnOk result (context_of context.new
        ≡ got_back frame.now (context_of context.old) (location_of place) (plain_parameter to)) }
{
    if wants_owner(to.of) {
        let back = frame.converted(alloc, kind_of(to.of), context.kind(place), to.exit)?;
        context.set_permission(place, back);
    }
    Ok(())
}

/// Gives each place back what its parameter gives back.
#[tactic(auto, using(crate::proofs::ListLemmas::giving))]
pub fn get_back_all(
    alloc: Global,
    frame: &BodyFrame<'_>,
    context: &mut Context,
    reads: &[Operand],
    params: &[Parameter],
) -> Result<(), Memory>
    ensures { OnOk result (context_of context.new
        ≡ got_back_all frame.now (context_of context.old) (reads_of reads.now) (plain_parameters params.now)) }
{
    let count = reads.len().min(params.len());
    for i in 0..count {
        get_back(alloc, frame, context, reads[i].place, params[i])?;
    }
    Ok(())
}

/// Puts a result into its slot, if there are both.
pub fn put_result(
    context: &mut Context,
    slot: Option<u8>,
    result_kind: Option<ResolvedType>,
) -> Result<(), Memory>
    ensures { OnOk result (context_of context.new ≡ with_result (context_of context.old) slot result_kind) }
{
    match (slot, result_kind) {
        (Some(slot), Some(of)) => context.put(Place::Slot(slot), Some(known_as(of))),
        _ => Ok(()),
    }
}
