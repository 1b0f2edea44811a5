//! What a change of state is asked for, and what becomes of the fields.
ghost use Rattle.std.specs.Prelude.{◌≡◌, ◌≤◌, [], ◌∷◌, ◌++◌, Some, not, reverse, take, length, IfOk, OnOk};
ghost use Rattle.ob_base.specs.Faults.{view_changes};
ghost use Rattle.ob_perm.specs.Permissions.{is_unowned};
ghost use Rattle.ob_silica_places.specs.Places.{location_of, this};
ghost use Rattle.ob_flow_spec.specs.Numbered.{IsStateNumber};
ghost use Rattle.ob_flow_spec.specs.Premises.{one, each, for_all};
ghost use Rattle.ob_flow_spec.specs.Contexts.{field_count, available, permission_at};
ghost use Rattle.ob_flow_spec.specs.Changing.{given_at, is_given, is_of_state, has_value, takes_owner};
ghost use Rattle.ob_flow_spec.specs.Changing.{fills_owner, fills_once, tested_field, stays_under_test, fills_all};
ghost use Rattle.ob_flow_spec.specs.Changing.{filled_all, overwrites_none, loses_none, in_state};
ghost use Rattle.ob_flow_spec.specs.Changing.{given_from, shares_as_declared};
ghost use Rattle.ob_flow_context.specs.View.{known_of, context_of, all_known, tested_of};
ghost use Rattle.ob_flow_context.specs.Checking.{MeetsPremises, Leaves};
ghost use Rattle.ob_flow_premises.specs.Forms.{all_got, put_got};
ghost use Rattle.ob_flow_premises.specs.Changes.{fills_once_at, this_in_state, field_in_state, fields_in_state};
ghost use Rattle.ob_flow_spec.specs.Binding.{read_of};
ghost use Rattle.ob_flow_spec.specs.Filling.{fills_field, after_fill, got};

use crate::modes::{is_owner, is_shared, is_unowned};
use ob_base::{
    ASSET_LOST, ASSET_OVERWRITTEN, FIELD_MISMATCH, FieldId, Items, Memory, NOT_ACCESSIBLE, Span,
    StateId, UNDER_TEST, UNSET, USED_TWICE, VIEW_CHANGES,
};
use ob_flow_context::{
    BodyFrame, Context, FlowError, Known, fill, got, is_tested, known_as, must, same_place,
};
use ob_perm::{contains, only, owned};
use ob_silica::{Given, Place};
use std::alloc::Global;

/// Whether `this` lets its fields change.
pub fn may_change(context: &Context, at: Span) -> Result<(), FlowError>
    ensures { MeetsPremises result (one view_changes at (not (is_unowned (permission_at (context_of context.now) this)))) }
{
    must(
        VIEW_CHANGES,
        at,
        !is_unowned(context.permission(Place::This)),
    )
}

// Whether a field is there in a state.
fn is_in_state(frame: &BodyFrame<'_>, field: FieldId, state: StateId) -> bool
    requires { IsStateNumber state }
    ensures { result ≡ available frame.now field.0 state.0 }
{
    contains(frame.available(field), state)
}

/// Each given field is there in the state.
#[tactic(auto, using(ob_flow_context::proofs::PremiseLemmas::for_all_things))]
pub fn all_of_state(frame: &BodyFrame<'_>, state: StateId, given: &[Given]) -> Result<(), FlowError>
    requires { IsStateNumber state }
    ensures { MeetsPremises result (for_all given.now (is_of_state frame.now state)) }
{
    for one in given {
        must(
            NOT_ACCESSIBLE,
            one.span,
            is_in_state(frame, one.field, state),
        )?;
    }
    Ok(())
}

// The first given field of this number, if it is given.
#[tactic(auto, using(crate::proofs::GivenLemmas::givens))]
fn given_at(given: &[Given], field: FieldId) -> Option<Given>
    ensures { result ≡ given_at field.0 given.now }
{
    for one in given {
        if one.field.0 == field.0 {
            return Some(*one);
        }
    }
    None
}

// Whether a field is given.
#[tactic(auto, using(crate::proofs::FormsLemmas::is_given_at))]
fn is_given(given: &[Given], field: FieldId) -> bool
    ensures { result ≡ is_given field.0 given.now }
{
    given_at(given, field).is_some()
}

// A field of the state that isn't given is accessible and set.
fn has_value(
    frame: &BodyFrame<'_>,
    context: &Context,
    at: Span,
    state: StateId,
    given: &[Given],
    field: FieldId,
) -> Result<(), FlowError>
    requires { IsStateNumber state }
    ensures { MeetsPremises result (has_value frame.now (context_of context.now) at state given.now field.0) }
{
    let has = !is_in_state(frame, field, state)
        || is_given(given, field)
        || frame.accessible(context, field) && context.is_set(Place::Field(field));
    must(UNSET, at, has)
}

/// Each field of the state that isn't given is accessible and set.
#[tactic(auto, using(ob_flow_context::proofs::PremiseLemmas::for_each))]
pub fn all_have_values(
    frame: &BodyFrame<'_>,
    context: &Context,
    at: Span,
    state: StateId,
    given: &[Given],
) -> Result<(), FlowError>
    requires { IsStateNumber state }
    ensures { MeetsPremises result (each (field_count frame.now)
        (has_value frame.now (context_of context.now) at state given.now)) }
{
    for number in 0..frame.field_count() {
        has_value(frame, context, at, state, given, FieldId(number))?;
    }
    Ok(())
}

// Whether a given field wants an owner.
fn takes_owner(frame: &BodyFrame<'_>, one: &Given) -> bool
    ensures { result ≡ takes_owner frame.now one.now }
{
    is_owner(frame.declared_permission(one.field))
}

// Whether a place fills some of the fields before this number that want an owner.
#[tactic(auto, using(crate::proofs::GivenLemmas::fills_owner_turn))]
fn fills_owner(frame: &BodyFrame<'_>, place: Place, given: &[Given], count: usize) -> bool
    requires { count ≤ length given.now }
    ensures { result ≡ fills_owner frame.now (location_of place) (reverse (take count given.now)) }
{
    let mut found = false;
    for number in 0..count {
        if same_place(place, given[number].from.place) && takes_owner(frame, &given[number]) {
            found = true;
        }
    }
    found
}

// No place before this number fills a field that wants an owner together with this one, which isn't `this`.
fn fills_once_at(
    frame: &BodyFrame<'_>,
    given: &[Given],
    count: usize,
    one: &Given,
) -> Result<(), FlowError>
    requires { count ≤ length given.now }
    ensures { MeetsPremises result (fills_once_at frame.now (reverse (take count given.now)) one.now) }
{
    let this = same_place(one.from.place, Place::This);
    let again = this || fills_owner(frame, one.from.place, given, count);
    must(
        USED_TWICE,
        one.from.span,
        !(takes_owner(frame, one) && again),
    )
}

/// No place fills two fields that want an owner, and `this` fills none.
#[tactic(auto, using(crate::proofs::GivenLemmas::once))]
pub fn fills_once(frame: &BodyFrame<'_>, given: &[Given]) -> Result<(), FlowError>
    ensures { MeetsPremises result (fills_once frame.now [] given.now) }
{
    for number in 0..given.len() {
        fills_once_at(frame, given, number, &given[number])?;
    }
    Ok(())
}

// Where a fault of a field under test stands: at its name where it is given, and else where the form does.
fn tested_field(
    frame: &BodyFrame<'_>,
    at: Span,
    state: StateId,
    field: FieldId,
    given: Option<Given>,
) -> Result<(), FlowError>
    requires { IsStateNumber state }
    ensures { MeetsPremises result (tested_field frame.now at state field.0 given) }
{
    match given {
        Some(one) => must(UNDER_TEST, one.span, false),
        None => must(UNDER_TEST, at, is_in_state(frame, field, state)),
    }
}

// A field under test isn't given, and is there in the state.
fn stays_under_test(
    frame: &BodyFrame<'_>,
    tested: &[Place],
    at: Span,
    state: StateId,
    given: &[Given],
    field: FieldId,
) -> Result<(), FlowError>
    requires { IsStateNumber state }
    ensures { MeetsPremises result (stays_under_test frame.now (tested_of tested.now) at state given.now field.0) }
{
    if is_tested(tested, Place::Field(field)) {
        tested_field(frame, at, state, field, given_at(given, field))
    } else {
        Ok(())
    }
}

/// No field under test is given, and each is there in the state.
#[tactic(auto, using(ob_flow_context::proofs::PremiseLemmas::for_each))]
pub fn all_stay_under_test(
    frame: &BodyFrame<'_>,
    tested: &[Place],
    at: Span,
    state: StateId,
    given: &[Given],
) -> Result<(), FlowError>
    requires { IsStateNumber state }
    ensures { MeetsPremises result (each (field_count frame.now)
        (stays_under_test frame.now (tested_of tested.now) at state given.now)) }
{
    for number in 0..frame.field_count() {
        stays_under_test(frame, tested, at, state, given, FieldId(number))?;
    }
    Ok(())
}

// Fills a field, and adds what it gets.
fn fill_one(
    alloc: Global,
    frame: &BodyFrame<'_>,
    tested: &[Place],
    context: &mut Context,
    at: Span,
    one: &Given,
    gots: &mut Items<Option<Known>>,
) -> Result<(), FlowError>
    ensures fills { Leaves result (context_of context.new)
        (fills_field frame.now (tested_of tested.now) (context_of context.old) at one.now.field.0 (read_of one.now.from))
        (after_fill frame.now (context_of context.old) one.now.field.0 (given_from one.now)) }
    ensures gets { OnOk result (all_known gots.new ≡ all_known gots.old
        ++ got frame.now (context_of context.old) one.now.field.0 (given_from one.now) ∷ []) }
{
    let known = got(alloc, frame, context, one.field, one.from.place)?;
    add_got(gots, known)?;
    fill(alloc, frame, tested, context, at, one.field, one.from)
}

// Adds what a field gets.
#[tactic(auto, using(crate::proofs::GivenLemmas::known_push))]
fn add_got(gots: &mut Items<Option<Known>>, known: Known) -> Result<(), Memory>
    ensures { OnOk result (all_known gots.new ≡ all_known gots.old ++ Some (known_of known) ∷ []) }
{
    gots.push(Some(known))?;
    Ok(())
}

/// Fields are filled one after another: what each gets.
#[tactic(auto, using(crate::proofs::GivenLemmas::filling))]
pub fn fill_all(
    alloc: Global,
    frame: &BodyFrame<'_>,
    tested: &[Place],
    context: &mut Context,
    at: Span,
    given: &[Given],
) -> Result<Items<Option<Known>>, FlowError>
    ensures fills { Leaves result (context_of context.new)
        (fills_all frame.now (tested_of tested.now) (context_of context.old) at given.now)
        (filled_all frame.now (context_of context.old) given.now) }
    ensures gets { IfOk result (λ gots. all_known gots ≡ all_got frame.now (context_of context.old) given.now) }
{
    let mut gots = Items::new(alloc);
    for one in given {
        fill_one(alloc, frame, tested, context, at, one, &mut gots)?;
    }
    Ok(gots)
}

/// Given fields that may be there own no asset any more.
#[tactic(auto, using(ob_flow_context::proofs::PremiseLemmas::for_all_things))]
pub fn all_overwrite_none(
    frame: &BodyFrame<'_>,
    context: &Context,
    given: &[Given],
) -> Result<(), FlowError>
    ensures { MeetsPremises result (for_all given.now (overwrites_none frame.now (context_of context.now))) }
{
    for one in given {
        let overwrites = frame.maybe_there(context, one.field)
            && frame.owns_asset(context, Place::Field(one.field));
        must(ASSET_OVERWRITTEN, one.span, !overwrites)?;
    }
    Ok(())
}

// A field that may be there and isn't in the state owns no asset.
fn loses_none(
    frame: &BodyFrame<'_>,
    context: &Context,
    at: Span,
    state: StateId,
    field: FieldId,
) -> Result<(), FlowError>
    requires { IsStateNumber state }
    ensures { MeetsPremises result (loses_none frame.now (context_of context.now) at state field.0) }
{
    let loses = !is_in_state(frame, field, state)
        && frame.maybe_there(context, field)
        && frame.owns_asset(context, Place::Field(field));
    must(ASSET_LOST, at, !loses)
}

/// No field that may be there and isn't in the state owns an asset.
#[tactic(auto, using(ob_flow_context::proofs::PremiseLemmas::for_each))]
pub fn all_lose_none(
    frame: &BodyFrame<'_>,
    context: &Context,
    at: Span,
    state: StateId,
) -> Result<(), FlowError>
    requires { IsStateNumber state }
    ensures { MeetsPremises result (each (field_count frame.now) (loses_none frame.now (context_of context.now) at state)) }
{
    for number in 0..frame.field_count() {
        loses_none(frame, context, at, state, FieldId(number))?;
    }
    Ok(())
}

/// The given fields get their permissions.
#[tactic(auto, using(crate::proofs::GivenLemmas::putting))]
pub fn put_got(context: &mut Context, given: &[Given], gots: &[Option<Known>]) -> Result<(), Memory>
    requires { length gots.now ≡ length given.now }
    ensures { OnOk result (context_of context.new ≡ put_got (context_of context.old) given.now (all_known gots.now)) }
{
    for number in 0..given.len() {
        context.put(Place::Field(given[number].field), gots[number])?;
    }
    Ok(())
}

// Under a Shared `this` a given field that isn't accessible is held as declared.
fn shares_as_declared(
    frame: &BodyFrame<'_>,
    filled: &Context,
    context: &Context,
    one: &Given,
) -> Result<(), FlowError>
    ensures { MeetsPremises result (shares_as_declared frame.now (context_of filled.now) (context_of context.now) one.now) }
{
    let place = Place::Field(one.field);
    let shares = !is_shared(filled.permission(Place::This))
        || frame.accessible(filled, one.field)
        || context.is_held_as(place, frame.declared_permission(one.field));
    must(FIELD_MISMATCH, one.span, shares)
}

/// Under a Shared `this` each given field that isn't accessible is held as declared.
#[tactic(auto, using(ob_flow_context::proofs::PremiseLemmas::for_all_things))]
pub fn all_share_as_declared(
    frame: &BodyFrame<'_>,
    filled: &Context,
    context: &Context,
    given: &[Given],
) -> Result<(), FlowError>
    ensures { MeetsPremises result (for_all given.now
        (shares_as_declared frame.now (context_of filled.now) (context_of context.now))) }
{
    for one in given {
        shares_as_declared(frame, filled, context, one)?;
    }
    Ok(())
}

// An owner's `this` is in the state.
fn this_in_state(context: &mut Context, state: StateId)
    requires { IsStateNumber state }
    ensures { context_of context.new ≡ this_in_state state (context_of context.old) }
{
    if is_owner(context.permission(Place::This)) {
        context.set_permission(Place::This, owned(only(state)));
    }
}

// A field that isn't there in the state has what is declared.
fn field_in_state(
    frame: &BodyFrame<'_>,
    context: &mut Context,
    state: StateId,
    field: FieldId,
) -> Result<(), Memory>
    requires { IsStateNumber state }
    ensures { OnOk result (context_of context.new
        ≡ field_in_state frame.now state field.0 (context_of context.old)) }
{
    if !is_in_state(frame, field, state) {
        context.put(
            Place::Field(field),
            Some(known_as(frame.type_of_field(field))),
        )?;
    }
    Ok(())
}

#[tactic(auto, using(crate::proofs::StateLemmas::fields_turn))]
fn fields_in_state(
    frame: &BodyFrame<'_>,
    context: &mut Context,
    state: StateId,
) -> Result<(), Memory>
    requires { IsStateNumber state }
    ensures { OnOk result (context_of context.new
        ≡ fields_in_state frame.now state (field_count frame.now) (context_of context.old)) }
{
    for number in 0..frame.field_count() {
        field_in_state(frame, context, state, FieldId(number))?;
    }
    Ok(())
}

/// Goes to what holds in the state.
#[tactic(auto, using(crate::proofs::StateLemmas::in_state_is))]
pub fn in_state(frame: &BodyFrame<'_>, context: &mut Context, state: StateId) -> Result<(), Memory>
    requires { IsStateNumber state }
    ensures { OnOk result (context_of context.new ≡ in_state frame.now state (context_of context.old)) }
{
    this_in_state(context, state);
    fields_in_state(frame, context, state)
}
