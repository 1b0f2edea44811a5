//! What is known at the head of a loop, and what the end of a turn is asked for.
ghost use Rattle.std.specs.Prelude.{◌≡◌, max, option_map, IfOk};
ghost use Rattle.ob_silica.specs.TermsView.{terms_of};
ghost use Rattle.ob_silica_places.specs.Places.{location_of};
ghost use Rattle.ob_silica_formed.specs.Holdings.{at_head};
ghost use Rattle.ob_silica_kinds.specs.Kinds.{kinds_of, kinds_held};
ghost use Rattle.ob_flow_spec.specs.Premises.{each};
ghost use Rattle.ob_flow_spec.specs.Contexts.{static_of, field_count};
ghost use Rattle.ob_flow_spec.specs.Looping.{holding, head_context, is_as_at_head, place_is_as_at_head, frame_is_as_at_head};
ghost use Rattle.ob_flow_context.specs.View.{known_of, known_at, context_of};
ghost use Rattle.ob_flow_context.specs.Checking.{MeetsPremises};
ghost use Rattle.ob_flow_premises.specs.Loops.{numbers_below, all_kinds, is_kept_by, kept_by, numbers_kept};
ghost use Rattle.ob_flow_premises.specs.Loops.{slot_is_as_at_head, field_is_as_at_head};

use crate::joining::same_kind;
use crate::modes::{is_owned_asset, known_at, room_for};
use ob_base::{FieldId, Items, LOOP_CHANGES, Memory, Span};
use ob_flow_context::{BodyFrame, Context, FlowError, Known, must};
use ob_perm::matches;
use ob_silica::{Place, Term};
use ob_silica_kinds::{Kinds, StaticFrame, go_to_head};
use ob_table::Kind;
use std::alloc::Global;

// What is known of the places below a number.
fn known_below(
    alloc: Global,
    known: &[Option<Known>],
    count: usize,
) -> Result<Items<Option<Known>>, Memory>
    ensures { IfOk result (λ kept. known_at kept ≡ numbers_below count (known_at known.now)) }
{
    let kept = count.min(known.len());
    Ok(Items::from_slice(alloc, &known[..kept])?)
}

// The kind of what is known, if something is.
fn kind_known(known: Option<Known>) -> Option<Kind>
    ensures { result ≡ option_map (λ x. x.kind) known }
{
    match known {
        Some(known) => Some(known.kind),
        None => None,
    }
}

// The kinds of what is known of places.
fn all_kinds(alloc: Global, known: &[Option<Known>]) -> Result<Items<Option<Kind>>, Memory>
    ensures { IfOk result (λ kinds. kinds ≡ all_kinds known.now) }
{
    let mut kinds = Items::new(alloc);
    for one in known {
        kinds.push(kind_known(*one))?;
    }
    Ok(kinds)
}

// What stands around the terms of the body.
fn static_of<'a>(frame: &BodyFrame<'a>) -> StaticFrame<'a>
    ensures { result ≡ static_of frame.now }
{
    StaticFrame::new(frame.table(), frame.here(), frame.own(), frame.signature())
}

// The kinds that slots hold at the head of a loop, as far as what is known before it says.
fn kinds_at_head(
    alloc: Global,
    frame: &BodyFrame<'_>,
    first: &[Term],
    body: &[Term],
    context: &Context,
) -> Result<Kinds, Memory>
    ensures { IfOk result (λ kinds. kinds_of kinds.slots ≡ kinds_held
        (at_head (static_of frame.now) (terms_of first.now) (terms_of body.now) (holding (context_of context.now)))) }
{
    let slots = all_kinds(alloc, context.slots())?;
    let mut kinds = Kinds::of(slots);
    go_to_head(alloc, first, body, &static_of(frame), &mut kinds)?;
    Ok(kinds)
}

// Whether a value of this kind is known at the head, by the kind that its slot holds there.
fn is_kept_by(there: Option<Kind>, kind: Kind) -> bool
    ensures { result ≡ is_kept_by there kind }
{
    match (kind, there) {
        (Kind::Reference(_), _) => true,
        (_, Some(there)) => same_kind(kind, there),
        (_, None) => false,
    }
}

// What is known of a slot at the head, by the kind that it holds there.
fn kept_by(there: Option<Kind>, known: Option<Known>) -> Option<Known>
    ensures { option_map known_of result ≡ kept_by there (option_map known_of known) }
{
    match known {
        Some(one) => {
            if is_kept_by(there, one.kind) {
                known
            } else {
                None
            }
        }
        None => None,
    }
}

// What is known at the head of `this`, or of the slot of a number, by the kinds that slots hold there.
fn kept_at(there: &Kinds, context: &Context, number: usize) -> Option<Known>
    ensures { option_map known_of result
        ≡ numbers_kept (kinds_of there.now.slots) (known_at context.now.slots) number }
{
    let known = known_at(context.slots(), number);
    if number == 0 {
        known
    } else {
        kept_by(there.kind_of_slot(number), known)
    }
}

// What is known at the head of `this` and the slots of the body, by the kinds that they hold there.
fn slots_at_head(
    alloc: Global,
    frame: &BodyFrame<'_>,
    there: &Kinds,
    context: &Context,
) -> Result<Items<Option<Known>>, Memory>
    ensures { IfOk result (λ slots. known_at slots ≡ numbers_below (max frame.now.slots 1)
        (numbers_kept (kinds_of there.now.slots) (known_at context.now.slots))) }
{
    let count = usize::from(frame.slots()).max(1);
    let mut slots = room_for(alloc, count)?;
    for number in 0..count {
        slots.push(kept_at(there, context, number))?;
    }
    Ok(slots)
}

// What is known of the fields of the body's contract.
fn fields_at_head(
    alloc: Global,
    frame: &BodyFrame<'_>,
    context: &Context,
) -> Result<Items<Option<Known>>, Memory>
    ensures { IfOk result (λ fields. known_at fields
        ≡ numbers_below (field_count frame.now) (known_at context.now.fields)) }
{
    known_below(alloc, context.fields(), usize::from(frame.field_count()))
}

/// What is known at the head of a loop with this first part and this body, from what is known before it: of `this`, of the body's
/// slots as far as a turn may keep it, and of its fields.
pub fn head_context(
    alloc: Global,
    frame: &BodyFrame<'_>,
    first: &[Term],
    body: &[Term],
    context: &Context,
) -> Result<Context, Memory>
    ensures { IfOk result (λ head. context_of head
        ≡ head_context frame.now (terms_of first.now) (terms_of body.now) (context_of context.now)) }
{
    let there = kinds_at_head(alloc, frame, first, body, context)?;
    let slots = slots_at_head(alloc, frame, &there, context)?;
    let fields = fields_at_head(alloc, frame, context)?;
    Ok(Context::of(slots, fields))
}

/// Whether a place is at the end of a turn as at the head of the loop.
pub fn is_as_at_head(frame: &BodyFrame<'_>, head: Option<Known>, known: Option<Known>) -> bool
    ensures { result ≡ is_as_at_head frame.now.table (option_map known_of head) (option_map known_of known) }
{
    match (head, known) {
        (Some(first), Some(last)) => {
            same_kind(last.kind, first.kind) && matches(last.permission, first.permission)
        }
        (Some(_), None) => false,
        (None, _) => !is_owned_asset(frame, known),
    }
}

// A place is at the end of a turn as at the head.
fn place_is_as_at_head(
    frame: &BodyFrame<'_>,
    head: &Context,
    context: &Context,
    end: Span,
    place: Place,
) -> Result<(), FlowError>
    ensures { MeetsPremises result (place_is_as_at_head frame.now (context_of head.now) (context_of context.now) end
        (location_of place)) }
{
    let same = is_as_at_head(frame, head.get(place), context.get(place));
    must(LOOP_CHANGES, end, same)
}

// Each slot is at the end of a turn as at the head.
#[tactic(auto, using(ob_flow_context::proofs::PremiseLemmas::for_each))]
fn slots_turn(
    frame: &BodyFrame<'_>,
    head: &Context,
    context: &Context,
    end: Span,
) -> Result<(), FlowError>
    ensures { MeetsPremises result (each frame.now.slots
        (slot_is_as_at_head frame.now (context_of head.now) (context_of context.now) end)) }
{
    for slot in 0..frame.slots() {
        place_is_as_at_head(frame, head, context, end, Place::Slot(slot))?;
    }
    Ok(())
}

// Each field is at the end of a turn as at the head.
#[tactic(auto, using(ob_flow_context::proofs::PremiseLemmas::for_each))]
fn fields_turn(
    frame: &BodyFrame<'_>,
    head: &Context,
    context: &Context,
    end: Span,
) -> Result<(), FlowError>
    ensures { MeetsPremises result (each (field_count frame.now)
        (field_is_as_at_head frame.now (context_of head.now) (context_of context.now) end)) }
{
    for number in 0..frame.field_count() {
        place_is_as_at_head(frame, head, context, end, Place::Field(FieldId(number)))?;
    }
    Ok(())
}

/// `this`, each slot and each field is at the end of a turn as at the head.
#[tactic(auto, using(ob_flow_context::proofs::PremiseLemmas::premises))]
pub fn frame_is_as_at_head(
    frame: &BodyFrame<'_>,
    head: &Context,
    context: &Context,
    end: Span,
) -> Result<(), FlowError>
    ensures { MeetsPremises result (frame_is_as_at_head frame.now (context_of head.now) (context_of context.now) end) }
{
    place_is_as_at_head(frame, head, context, end, Place::This)?;
    slots_turn(frame, head, context, end)?;
    fields_turn(frame, head, context, end)
}
