//! Where forms end, and what follows after branches and turns.
ghost use Rattle.std.specs.Prelude.{◌≡◌, Some, IfOk, OnOk};
ghost use Rattle.ob_perm.specs.Masks.{permission_of};
ghost use Rattle.ob_silica.specs.TermsView.{terms_of};
ghost use Rattle.ob_silica_places.specs.Places.{location_of};
ghost use Rattle.ob_flow_spec.specs.Joining.{joined_branches};
ghost use Rattle.ob_flow_spec.specs.Looping.{head_context, frame_is_as_at_head_if};
ghost use Rattle.ob_flow_spec.specs.Premises.{checked};
ghost use Rattle.ob_flow_spec.specs.Testing.{tested_with, first_branch_ended, this_left};
ghost use Rattle.ob_flow_context.specs.View.{context_of, tested_of};
ghost use Rattle.ob_flow.specs.Outcomes.{reached, DerivesTo};

use crate::joining::join;
use crate::testing::end_test;
use crate::trace::Trace;
use ob_base::{Duplicate, Items, Memory, Mode, Perm, Span};
use ob_flow_context::{BodyFrame, Context, FlowError};
use ob_flow_premises::{frame_is_as_at_head, head_context};
use ob_perm::unowned;
use ob_silica::{Operand, Place, Term};
use std::alloc::Global;

/// Whether the point after forms is reached.
#[derive(Clone, Copy)]
pub enum Flow {
    /// They go on to it.
    On,
    /// They return or revert.
    Ended,
}

/// The places under test in the first branch of a test of a place of this permission; the innermost stands last.
#[tactic(auto, using(ob_flow_context::proofs::TestedLemmas::tested))]
pub(crate) fn tested_with(
    alloc: Global,
    permission: Perm,
    place: Place,
    tested: &[Place],
) -> Result<Items<Place>, Memory>
    ensures { IfOk result (λ places. tested_of places
        ≡ tested_with (permission_of permission) (location_of place) (tested_of tested.now)) }
{
    let mut places = Items::from_slice(alloc, tested)?;
    match permission.mode {
        Mode::Shared => {
            places.push(place)?;
            Ok(places)
        }
        Mode::Owned | Mode::Unowned => Ok(places),
    }
}

/// Ends the first branch of a test of a place of this permission.
#[tactic(auto, using(crate::proofs::OutcomeLemmas::outcomes))]
pub(crate) fn end_branch(
    permission: Perm,
    place: Operand,
    flow: Flow,
    context: &mut Context,
) -> Result<Flow, FlowError>
    ensures { DerivesTo result (context_of context.new)
        (first_branch_ended (permission_of permission) place (reached flow (context_of context.old))) }
{
    match (permission.mode, flow) {
        (Mode::Shared, Flow::On) => {
            end_test(context, place)?;
            Ok(Flow::On)
        }
        (Mode::Shared, Flow::Ended) => Ok(Flow::Ended),
        (Mode::Owned, _) | (Mode::Unowned, _) => Ok(flow),
    }
}

/// The permission on `this` where a branch ends.
pub(crate) fn this_left(flow: Flow, context: &Context) -> Perm
    ensures { permission_of result ≡ this_left (reached flow (context_of context.now)) }
{
    match flow {
        Flow::On => context.permission(Place::This),
        Flow::Ended => unowned(),
    }
}

/// Joins two branches; `under` is the permission on `this` where the first ends.
#[tactic(auto, using(crate::proofs::OutcomeLemmas::outcomes))]
pub(crate) fn join_branches(
    alloc: Global,
    frame: &BodyFrame<'_>,
    under: Perm,
    first: Flow,
    context: &mut Context,
    second: Flow,
    other: Context,
    at: Span,
    trace: &mut Trace,
) -> Result<Flow, FlowError>
    ensures { DerivesTo result (context_of context.new)
        (joined_branches frame.now (permission_of under) (reached first (context_of context.old))
        (reached second (context_of other)) at) }
{
    match (first, second) {
        (Flow::Ended, _) => {
            *context = other;
            Ok(second)
        }
        (Flow::On, Flow::Ended) => Ok(Flow::On),
        (Flow::On, Flow::On) => match join(alloc, frame, under, context, &other, at) {
            Ok(()) => Ok(Flow::On),
            Err(error) => {
                trace.part(other);
                Err(error)
            }
        },
    }
}

/// Goes to the head of a loop with this first part and this body, and gives what is known there.
pub(crate) fn begin_turn(
    alloc: Global,
    frame: &BodyFrame<'_>,
    first: &[Term],
    body: &[Term],
    context: &mut Context,
) -> Result<Context, Memory>
    ensures head { IfOk result (λ head. context_of head
        ≡ head_context frame.now (terms_of first.now) (terms_of body.now) (context_of context.old)) }
    ensures here { OnOk result (context_of context.new
        ≡ head_context frame.now (terms_of first.now) (terms_of body.now) (context_of context.old)) }
{
    let head = head_context(alloc, frame, first, body, context)?;
    *context = head.copy(alloc)?;
    Ok(head)
}

/// Ends a turn of a loop that has led to `turned`: that has to be as at the head. Where it isn't, the context is the head, which the
/// explanation compares with `turned`.
#[tactic(auto, using(crate::proofs::OutcomeLemmas::outcomes))]
pub(crate) fn end_turn(
    frame: &BodyFrame<'_>,
    context: &mut Context,
    head: Context,
    flow: Flow,
    turned: Context,
    end: Span,
    trace: &mut Trace,
) -> Result<Flow, FlowError>
    ensures { DerivesTo result (context_of context.new)
        (checked (frame_is_as_at_head_if frame.now (context_of head) (reached flow (context_of turned)) end)
        (Some (context_of context.old))) }
{
    match flow {
        Flow::Ended => Ok(Flow::On),
        Flow::On => match frame_is_as_at_head(frame, &head, &turned, end) {
            Ok(()) => Ok(Flow::On),
            Err(error) => {
                *context = head;
                trace.part(turned);
                Err(error)
            }
        },
    }
}
