//! What the forms without branches and calls are asked for.
ghost use Rattle.ob_silica_places.specs.Places.{location_of, slot};
ghost use Rattle.ob_flow_spec.specs.Straight.{operates_on, copies_place, moves_to_slot, asserts_permission, disowns_place, drops_slot};
ghost use Rattle.ob_flow_context.specs.View.{context_of, tested_of};
ghost use Rattle.ob_flow_context.specs.Checking.{MeetsPremises};

use crate::changing::may_change;
use crate::modes::is_owner;
use ob_base::{
    ASSERT_FAILS, ASSET_LOST, ASSET_OVERWRITTEN, NOT_ACCESSIBLE, NOT_OWNING, Perm, Span, UNDER_TEST,
};
use ob_flow_context::{BodyFrame, Context, FlowError, is_tested, must, reads_place, uses_place};
use ob_perm::matches;
use ob_silica::{Operand, Place};

/// An operator's operands are used.
#[tactic(auto, using(ob_flow_context::proofs::PremiseLemmas::premises))]
pub fn operates_on(
    frame: &BodyFrame<'_>,
    context: &Context,
    a: Operand,
    b: Operand,
) -> Result<(), FlowError>
    ensures { MeetsPremises result (operates_on frame.now (context_of context.now) a b) }
{
    uses_place(frame, context, a)?;
    uses_place(frame, context, b)
}

/// What a copy is asked for.
#[tactic(auto, using(ob_flow_context::proofs::PremiseLemmas::premises))]
pub fn copies_place(
    frame: &BodyFrame<'_>,
    context: &Context,
    at: Span,
    to: Place,
    from: Operand,
) -> Result<(), FlowError>
    ensures { MeetsPremises result (copies_place frame.now (context_of context.now) at (location_of to) from) }
{
    uses_place(frame, context, from)?;
    match to {
        Place::This | Place::Slot(_) => Ok(()),
        Place::Field(field) => {
            may_change(context, at)?;
            must(NOT_ACCESSIBLE, at, frame.accessible(context, field))
        }
    }
}

/// What a move into a slot is asked for.
#[tactic(auto, using(ob_flow_context::proofs::PremiseLemmas::premises))]
pub fn moves_to_slot(
    frame: &BodyFrame<'_>,
    tested: &[Place],
    context: &Context,
    at: Span,
    slot: u8,
    from: Operand,
) -> Result<(), FlowError>
    ensures { MeetsPremises result (moves_to_slot frame.now (tested_of tested.now) (context_of context.now) at slot from) }
{
    uses_place(frame, context, from)?;
    must(UNDER_TEST, from.span, !is_tested(tested, from.place))?;
    must(UNDER_TEST, at, !is_tested(tested, Place::Slot(slot)))?;
    must(
        ASSET_OVERWRITTEN,
        at,
        !frame.owns_asset(context, Place::Slot(slot)),
    )
}

/// What giving ownership up is asked for.
#[tactic(auto, using(ob_flow_context::proofs::PremiseLemmas::premises))]
pub fn disowns_place(
    frame: &BodyFrame<'_>,
    tested: &[Place],
    context: &Context,
    place: Operand,
) -> Result<(), FlowError>
    ensures { MeetsPremises result (disowns_place frame.now (tested_of tested.now) (context_of context.now) place) }
{
    uses_place(frame, context, place)?;
    must(
        NOT_OWNING,
        place.span,
        is_owner(context.counted(place.place)),
    )?;
    must(UNDER_TEST, place.span, !is_tested(tested, place.place))
}

/// What ending a slot is asked for.
#[tactic(auto, using(ob_flow_context::proofs::PremiseLemmas::premises))]
pub fn drops_slot(
    frame: &BodyFrame<'_>,
    tested: &[Place],
    context: &Context,
    at: Span,
    slot: u8,
) -> Result<(), FlowError>
    ensures { MeetsPremises result (drops_slot frame.now (tested_of tested.now) (context_of context.now) at slot) }
{
    must(
        ASSET_LOST,
        at,
        !frame.owns_asset(context, Place::Slot(slot)),
    )?;
    must(UNDER_TEST, at, !is_tested(tested, Place::Slot(slot)))
}

/// Says what a place holds.
#[tactic(auto, using(ob_flow_context::proofs::PremiseLemmas::premises))]
pub fn assert_held(
    frame: &BodyFrame<'_>,
    context: &Context,
    place: Operand,
    permission: Perm,
) -> Result<(), FlowError>
    ensures { MeetsPremises result (asserts_permission frame.now (context_of context.now) place permission) }
{
    reads_place(frame, context, place)?;
    let held = matches(context.counted(place.place), permission);
    must(ASSERT_FAILS, place.span, held)
}
