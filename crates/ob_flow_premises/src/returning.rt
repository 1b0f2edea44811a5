//! What a return is asked for.
ghost use Rattle.std.specs.Prelude.{◌≡◌, option_map};
ghost use Rattle.ob_perm.specs.Permissions.{shared};
ghost use Rattle.ob_perm.specs.Masks.{permission_of};
ghost use Rattle.ob_silica_places.specs.Places.{slot, location_of};
ghost use Rattle.ob_flow_spec.specs.Premises.{each, for_all};
ghost use Rattle.ob_flow_spec.specs.Contexts.{now, field_count};
ghost use Rattle.ob_flow_spec.specs.Returning.{tests_ended, is_let_go};
ghost use Rattle.ob_flow_spec.specs.Returning.{leaves_as, leaves_params, gives_object, leaves_this, sets_field};
ghost use Rattle.ob_flow_spec.specs.Returning.{still_owns, leaves_field};
ghost use Rattle.ob_flow_context.specs.View.{known_of, context_of, tested_of};
ghost use Rattle.ob_flow_context.specs.Checking.{MeetsPremises};
ghost use Rattle.ob_flow_premises.specs.Forms.{all_own, leaves_known_as};

use crate::modes::{is_held, is_owned_asset, is_owner, slot_known};
use ob_base::{
    ASSET_LOST, EXIT_MISMATCH, FIELD_MISMATCH, FieldId, Mode, Perm, Span, UNDER_TEST, UNSET,
};
use ob_flow_context::{BodyFrame, Context, FlowError, Known, is_stateless, must};
use ob_perm::{fits, shared};
use ob_silica::Place;
use ob_table::Param;

// Whether each place under test owns.
#[tactic(auto, using(crate::proofs::StateLemmas::all_own_turn, std::proofs::lemmas::List::take_all))]
fn all_own(context: &Context, tested: &[Place]) -> bool
    ensures { result ≡ all_own (context_of context.now) (tested_of tested.now) }
{
    let mut all = true;
    for place in tested {
        if !is_owner(context.permission(*place)) {
            all = false;
        }
    }
    all
}

// A place is Shared again.
fn share_again(context: &mut Context, place: Place)
    ensures { context_of context.new ≡ now (context_of context.old) (location_of place) shared }
{
    context.set_permission(place, shared());
}

/// Each place under test is Shared again.
#[tactic(auto, using(crate::proofs::StateLemmas::ended_next, std::proofs::lemmas::List::take_all))]
pub fn end_tests(context: &mut Context, tested: &[Place])
    ensures { context_of context.new ≡ tests_ended (tested_of tested.now) (context_of context.old) }
{
    for place in tested {
        share_again(context, *place);
    }
}

// A slot that is no parameter's owns no asset.
fn is_let_go(frame: &BodyFrame<'_>, context: &Context, at: Span, slot: u8) -> Result<(), FlowError>
    ensures { MeetsPremises result (is_let_go frame.now (context_of context.now) at slot) }
{
    let param = usize::from(slot) <= frame.signature().params.len();
    let kept = !param && frame.owns_asset(context, Place::Slot(slot));
    must(ASSET_LOST, at, !kept)
}

/// No slot but a parameter's owns an asset.
#[tactic(auto, using(ob_flow_context::proofs::PremiseLemmas::for_each))]
pub fn all_let_go(frame: &BodyFrame<'_>, context: &Context, at: Span) -> Result<(), FlowError>
    ensures { MeetsPremises result (each frame.now.slots (is_let_go frame.now (context_of context.now) at)) }
{
    for slot in 0..frame.slots() {
        is_let_go(frame, context, at, slot)?;
    }
    Ok(())
}

// A place of which this is known is left with an exit.
fn leaves_known_as(
    frame: &BodyFrame<'_>,
    known: Option<Known>,
    at: Span,
    exit: Perm,
) -> Result<(), FlowError>
    ensures { MeetsPremises result (leaves_known_as frame.now (option_map known_of known) at (permission_of exit)) }
{
    match exit.mode {
        Mode::Owned | Mode::Shared => must(EXIT_MISMATCH, at, is_held(known, exit)),
        Mode::Unowned => must(ASSET_LOST, at, !is_owned_asset(frame, known)),
    }
}

// A slot is left with an exit.
#[tactic(auto, using(crate::proofs::FormsLemmas::leaves_known))]
fn leaves_slot_as(
    frame: &BodyFrame<'_>,
    context: &Context,
    at: Span,
    number: usize,
    exit: Perm,
) -> Result<(), FlowError>
    ensures { MeetsPremises result (leaves_as frame.now (context_of context.now) at (slot number) (permission_of exit)) }
{
    leaves_known_as(frame, slot_known(context, number), at, exit)
}

/// The parameters are left with their exits.
#[tactic(auto, using(crate::proofs::ParamLemmas::params))]
pub fn leaves_params(
    frame: &BodyFrame<'_>,
    context: &Context,
    at: Span,
    params: &[Param],
) -> Result<(), FlowError>
    ensures { MeetsPremises result (leaves_params frame.now (context_of context.now) at 1 params.now) }
{
    for number in 0..params.len() {
        leaves_slot_as(frame, context, at, number + 1, params[number].exit)?;
    }
    Ok(())
}

// A constructor leaves an object that serves as what it gives, and that is in a state if there are any.
#[tactic(auto, using(ob_flow_context::proofs::PremiseLemmas::premises))]
fn gives_object(frame: &BodyFrame<'_>, context: &Context, at: Span) -> Result<(), FlowError>
    ensures { MeetsPremises result (gives_object frame.now (context_of context.now) at) }
{
    let this = context.permission(Place::This);
    must(
        EXIT_MISMATCH,
        at,
        fits(this, frame.signature().exit).is_ok(),
    )?;
    let stateless = is_stateless(frame.possible_under(this));
    must(
        EXIT_MISMATCH,
        at,
        frame.own().states.len() == 0 || !stateless,
    )
}

/// `this` is left with its exit.
pub fn leaves_this(frame: &BodyFrame<'_>, context: &Context, at: Span) -> Result<(), FlowError>
    ensures { MeetsPremises result (leaves_this frame.now (context_of context.now) at) }
{
    if frame.constructs() {
        gives_object(frame, context, at)
    } else {
        leaves_slot_as(frame, context, at, 0, frame.signature().exit)
    }
}

// A constructor has set each accessible field.
fn sets_field(
    frame: &BodyFrame<'_>,
    context: &Context,
    at: Span,
    field: FieldId,
) -> Result<(), FlowError>
    ensures { MeetsPremises result (sets_field frame.now (context_of context.now) at field.0) }
{
    let sets = !frame.constructs()
        || !frame.accessible(context, field)
        || context.is_set(Place::Field(field));
    must(UNSET, at, sets)
}

/// A constructor has set each accessible field.
#[tactic(auto, using(ob_flow_context::proofs::PremiseLemmas::for_each))]
pub fn sets_fields(frame: &BodyFrame<'_>, context: &Context, at: Span) -> Result<(), FlowError>
    ensures { MeetsPremises result (each (field_count frame.now) (sets_field frame.now (context_of context.now) at)) }
{
    for number in 0..frame.field_count() {
        sets_field(frame, context, at, FieldId(number))?;
    }
    Ok(())
}

// A field that may be there is left as it is declared or listed.
fn leaves_field(
    frame: &BodyFrame<'_>,
    context: &Context,
    at: Span,
    field: FieldId,
) -> Result<(), FlowError>
    ensures { MeetsPremises result (leaves_field frame.now (context_of context.now) at field.0) }
{
    let place = Place::Field(field);
    let leaves = !frame.maybe_there(context, field)
        || context.is_held_as(place, frame.exit_of_field(frame.signature(), field));
    must(FIELD_MISMATCH, at, leaves)
}

/// Each field that may be there is left as it is declared or listed.
#[tactic(auto, using(ob_flow_context::proofs::PremiseLemmas::for_each))]
pub fn leaves_fields(frame: &BodyFrame<'_>, context: &Context, at: Span) -> Result<(), FlowError>
    ensures { MeetsPremises result (each (field_count frame.now) (leaves_field frame.now (context_of context.now) at)) }
{
    for number in 0..frame.field_count() {
        leaves_field(frame, context, at, FieldId(number))?;
    }
    Ok(())
}

/// Each place under test still owns.
#[tactic(auto, using(crate::proofs::FormsLemmas::still_own))]
pub fn still_own(context: &Context, tested: &[Place], at: Span) -> Result<(), FlowError>
    ensures { MeetsPremises result (for_all (tested_of tested.now) (still_owns (context_of context.now) at)) }
{
    must(UNDER_TEST, at, all_own(context, tested))
}
