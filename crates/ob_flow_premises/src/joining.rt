//! What a join of two branches is asked for, and what is known after it.
ghost use Rattle.std.specs.Prelude.{◌≡◌, option_map, IfOk};
ghost use Rattle.ob_perm.specs.Permissions.{joined};
ghost use Rattle.ob_perm.specs.Masks.{permission_of};
ghost use Rattle.ob_flow_spec.specs.Premises.{each};
ghost use Rattle.ob_flow_spec.specs.Contexts.{field_count};
ghost use Rattle.ob_flow_spec.specs.Joining.{same_kind, same_mode, joined_known, agrees_with, join_loses};
ghost use Rattle.ob_flow_spec.specs.Joining.{joined_context, joins_slot, hands_field_on, joins_field};
ghost use Rattle.ob_flow_context.specs.View.{known_of, known_at, context_of};
ghost use Rattle.ob_flow_context.specs.Checking.{MeetsPremises};
ghost use Rattle.ob_flow_premises.specs.Joins.{joined_numbers, field_stays};

use crate::modes::{is_owned_asset, known_at, room_for};
use ob_base::{BRANCH_LOSES, FIELD_MISMATCH, FieldId, Items, Memory, Mode, Perm, Span};
use ob_flow_context::{BodyFrame, Context, FlowError, Known, must};
use ob_perm::{owned, shared, union, unowned};
use ob_silica::Place;
use ob_table::Kind;
use std::alloc::Global;

/// Whether two kinds are the same.
pub(crate) fn same_kind(a: Kind, b: Kind) -> bool
    ensures { result ≡ same_kind a b }
{
    match (a, b) {
        (Kind::Int, Kind::Int) => true,
        (Kind::Bool, Kind::Bool) => true,
        (Kind::Text, Kind::Text) => true,
        (Kind::Reference(a), Kind::Reference(b)) => a.0 == b.0,
        _ => false,
    }
}

/// Whether two permissions are an owner's, or both Shared, or both Unowned.
pub fn same_mode(a: Perm, b: Perm) -> bool
    ensures { result ≡ same_mode (permission_of a) (permission_of b) }
{
    match (a.mode, b.mode) {
        (Mode::Owned, Mode::Owned) => true,
        (Mode::Shared, Mode::Shared) => true,
        (Mode::Unowned, Mode::Unowned) => true,
        _ => false,
    }
}

// What is held after two branches.
fn joined(a: Perm, b: Perm) -> Perm
    ensures { permission_of result ≡ joined (permission_of a) (permission_of b) }
{
    match (a.mode, b.mode) {
        (Mode::Owned, Mode::Owned) => owned(union(a.states, b.states)),
        (Mode::Shared, Mode::Shared) => shared(),
        _ => unowned(),
    }
}

// What is known of a place after two branches.
fn joined_known(a: Option<Known>, b: Option<Known>) -> Option<Known>
    ensures { option_map known_of result ≡ joined_known (option_map known_of a) (option_map known_of b) }
{
    let (Some(a), Some(b)) = (a, b) else {
        return None;
    };
    if same_kind(a.kind, b.kind) {
        Some(Known {
            kind: a.kind,
            permission: joined(a.permission, b.permission),
        })
    } else {
        None
    }
}

// Whether a place is held in the same way in both branches.
fn agrees(a: Known, b: Known) -> bool
    ensures { result ≡ agrees_with (known_of a) (known_of b) }
{
    same_kind(a.kind, b.kind) && same_mode(a.permission, b.permission)
}

// Whether an owner of an asset is lost at the join.
fn join_loses(frame: &BodyFrame<'_>, a: Option<Known>, b: Option<Known>) -> bool
    ensures { result ≡ join_loses frame.now.table (option_map known_of a) (option_map known_of b) }
{
    match (a, b) {
        (Some(first), Some(second)) => {
            !agrees(first, second) && (is_owned_asset(frame, a) || is_owned_asset(frame, b))
        }
        _ => is_owned_asset(frame, a) || is_owned_asset(frame, b),
    }
}

// What is known of the place of this number after two branches.
fn joined_at(a: &[Option<Known>], b: &[Option<Known>], number: usize) -> Option<Known>
    ensures { option_map known_of result ≡ joined_numbers (known_at a.now) (known_at b.now) number }
{
    joined_known(known_at(a, number), known_at(b, number))
}

// What is known of places after two branches; nothing is of one past the end of a list.
fn join_all(
    alloc: Global,
    a: &[Option<Known>],
    b: &[Option<Known>],
) -> Result<Items<Option<Known>>, Memory>
    ensures { IfOk result (λ joined. known_at joined ≡ joined_numbers (known_at a.now) (known_at b.now)) }
{
    let count = a.len().min(b.len());
    let mut joined = room_for(alloc, count)?;
    for number in 0..count {
        joined.push(joined_at(a, b, number))?;
    }
    Ok(joined)
}

fn join_all_slots(alloc: Global, a: &Context, b: &Context) -> Result<Items<Option<Known>>, Memory>
    ensures { IfOk result (λ joined. known_at joined
        ≡ joined_numbers (known_at a.now.slots) (known_at b.now.slots)) }
{
    join_all(alloc, a.slots(), b.slots())
}

fn join_all_fields(alloc: Global, a: &Context, b: &Context) -> Result<Items<Option<Known>>, Memory>
    ensures { IfOk result (λ joined. known_at joined
        ≡ joined_numbers (known_at a.now.fields) (known_at b.now.fields)) }
{
    join_all(alloc, a.fields(), b.fields())
}

/// The context after two branches.
pub fn joined_context(alloc: Global, a: &Context, b: &Context) -> Result<Context, Memory>
    ensures { IfOk result (λ c. context_of c ≡ joined_context (context_of a.now) (context_of b.now)) }
{
    let slots = join_all_slots(alloc, a, b)?;
    let fields = join_all_fields(alloc, a, b)?;
    Ok(Context::of(slots, fields))
}

// A slot of which no owner of an asset is lost.
fn joins_slot(
    frame: &BodyFrame<'_>,
    a: &Context,
    b: &Context,
    at: Span,
    slot: u8,
) -> Result<(), FlowError>
    ensures { MeetsPremises result (joins_slot frame.now (context_of a.now) (context_of b.now) at slot) }
{
    let place = Place::Slot(slot);
    let loses = join_loses(frame, a.get(place), b.get(place));
    must(BRANCH_LOSES, at, !loses)
}

/// No slot loses an owner of an asset.
#[tactic(auto, using(ob_flow_context::proofs::PremiseLemmas::for_each))]
pub fn joins_slots(
    frame: &BodyFrame<'_>,
    a: &Context,
    b: &Context,
    at: Span,
) -> Result<(), FlowError>
    ensures { MeetsPremises result (each frame.now.slots
        (joins_slot frame.now (context_of a.now) (context_of b.now) at)) }
{
    for slot in 0..frame.slots() {
        joins_slot(frame, a, b, at, slot)?;
    }
    Ok(())
}

// A field that is accessible in a branch and not after it is held there as declared.
fn hands_field_on(
    frame: &BodyFrame<'_>,
    under: Perm,
    context: &Context,
    after: &Context,
    at: Span,
    field: FieldId,
) -> Result<(), FlowError>
    ensures { MeetsPremises result (hands_field_on frame.now (permission_of under) (context_of context.now)
        (context_of after.now) at field.0) }
{
    let place = Place::Field(field);
    let hands_on = !frame.accessible_under(under, field)
        || frame.accessible(after, field)
        || context.is_held_as(place, frame.declared_permission(field));
    must(FIELD_MISMATCH, at, hands_on)
}

// A field of which no owner of an asset is lost.
fn field_stays(
    frame: &BodyFrame<'_>,
    a: &Context,
    b: &Context,
    at: Span,
    field: FieldId,
) -> Result<(), FlowError>
    ensures { MeetsPremises result (field_stays frame.now (context_of a.now) (context_of b.now) at field.0) }
{
    let place = Place::Field(field);
    let loses = join_loses(frame, a.get(place), b.get(place));
    must(BRANCH_LOSES, at, !loses)
}

// A field, which each branch hands on, and of which no owner of an asset is lost.
#[tactic(auto, using(ob_flow_context::proofs::PremiseLemmas::premises))]
fn joins_field(
    frame: &BodyFrame<'_>,
    under: Perm,
    a: &Context,
    b: &Context,
    after: &Context,
    at: Span,
    field: FieldId,
) -> Result<(), FlowError>
    requires { context_of after.now ≡ joined_context (context_of a.now) (context_of b.now) }
    ensures { MeetsPremises result (joins_field frame.now (permission_of under) (context_of a.now) (context_of b.now) at
        field.0) }
{
    hands_field_on(frame, under, a, after, at, field)?;
    hands_field_on(frame, b.permission(Place::This), b, after, at, field)?;
    field_stays(frame, a, b, at, field)
}

/// Each branch hands its fields on, and none loses an owner of an asset.
#[tactic(auto, using(ob_flow_context::proofs::PremiseLemmas::for_each))]
pub fn joins_fields(
    frame: &BodyFrame<'_>,
    under: Perm,
    a: &Context,
    b: &Context,
    after: &Context,
    at: Span,
) -> Result<(), FlowError>
    requires { context_of after.now ≡ joined_context (context_of a.now) (context_of b.now) }
    ensures { MeetsPremises result (each (field_count frame.now)
        (joins_field frame.now (permission_of under) (context_of a.now) (context_of b.now) at)) }
{
    for number in 0..frame.field_count() {
        joins_field(frame, under, a, b, after, at, FieldId(number))?;
    }
    Ok(())
}
