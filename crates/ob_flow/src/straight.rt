//! The forms without branches and calls.
ghost use Rattle.std.specs.Prelude.{◌≡◌, None, OnOk};
ghost use Rattle.ob_silica_places.specs.Known.{kind_of_constant, kind_of_operator};
ghost use Rattle.ob_silica_places.specs.Places.{location_of, located, slot};
ghost use Rattle.ob_perm.specs.Permissions.{unowned};
ghost use Rattle.ob_flow_spec.specs.Contexts.{now};
ghost use Rattle.ob_flow_spec.specs.Straight.{put_value, operates_on, copies_place, after_copy, moves_to_slot, moved_kind};
ghost use Rattle.ob_flow_spec.specs.Straight.{moved_to_slot, moves_to_field, moved_to_field, moves_place, after_move};
ghost use Rattle.ob_flow_spec.specs.Straight.{disowns_place, drops_slot};
ghost use Rattle.ob_flow_spec.specs.Contexts.{put};
ghost use Rattle.ob_flow_context.specs.View.{context_of, tested_of};
ghost use Rattle.ob_flow_context.specs.Checking.{MeetsPremises, Leaves};
ghost use Rattle.ob_flow.specs.Forms.{copied_kind};

use ob_base::{ASSET_OVERWRITTEN, ContractId, FieldId, Memory, NOT_ACCESSIBLE, Span, UNDER_TEST};
use ob_flow_context::{BodyFrame, Context, FlowError, Known, fill, got, is_tested, kind_of, must};
use ob_flow_premises::{copies_place, disowns_place, drops_slot, moves_to_slot, operates_on};
use ob_perm::{give, unowned};
use ob_silica::{Constant, Operand, Place, SilicaOperator};
use ob_silica_kinds::{kind_of_constant, kind_of_operator};
use ob_table::Kind;
use std::alloc::Global;

// Sets a slot to a value that is no reference.
fn put_value(context: &mut Context, slot: u8, kind: Kind) -> Result<(), Memory>
    ensures { OnOk result (context_of context.new ≡ put_value (context_of context.old) slot kind) }
{
    let known = Known {
        kind,
        permission: unowned(),
    };
    context.put(Place::Slot(slot), Some(known))
}

/// Sets a slot to a value of the text.
pub fn put_constant(context: &mut Context, slot: u8, value: &Constant) -> Result<(), Memory>
    ensures { OnOk result (context_of context.new
        ≡ put_value (context_of context.old) slot (kind_of_constant value.now)) }
{
    put_value(context, slot, kind_of_constant(value))
}

/// Sets a slot to an operator's value.
pub fn operate(
    frame: &BodyFrame<'_>,
    context: &mut Context,
    slot: u8,
    operator: SilicaOperator,
    a: Operand,
    b: Operand,
) -> Result<(), FlowError>
    ensures { Leaves result (context_of context.new) (operates_on frame.now (context_of context.old) a b)
        (put_value (context_of context.old) slot (kind_of_operator operator)) }
{
    operates_on(frame, context, a, b)?;
    put_value(context, slot, kind_of_operator(operator))?;
    Ok(())
}

// The kind of a place to which a value is copied.
fn copied_kind(frame: &BodyFrame<'_>, context: &Context, to: Place, from: Operand) -> Kind
    ensures { result ≡ copied_kind frame.now (context_of context.now) (location_of to) from }
{
    match to {
        Place::This | Place::Slot(_) => context.kind(from.place),
        Place::Field(field) => kind_of(frame.type_of_field(field)),
    }
}

/// Copies a value that is no reference.
#[tactic(auto, using(crate::proofs::FormsLemmas::copied_is))]
pub fn copy(
    frame: &BodyFrame<'_>,
    context: &mut Context,
    at: Span,
    to: Place,
    from: Operand,
) -> Result<(), FlowError>
    ensures { Leaves result (context_of context.new)
        (copies_place frame.now (context_of context.old) at (location_of to) from)
        (after_copy frame.now (context_of context.old) (location_of to) from) }
{
    copies_place(frame, context, at, to, from)?;
    let known = Known {
        kind: copied_kind(frame, context, to, from),
        permission: unowned(),
    };
    context.put(to, Some(known))?;
    Ok(())
}

// The kind of a slot of this contract, or else of the place from which it is set.
fn moved_kind(context: &Context, from: Operand, contract: Option<ContractId>) -> Kind
    ensures { result ≡ moved_kind (context_of context.now) from contract }
{
    match contract {
        Some(contract) => Kind::Reference(contract),
        None => context.kind(from.place),
    }
}

// Moves a reference into a slot: an owner's permission goes over.
fn moved_to_slot(
    alloc: Global,
    frame: &BodyFrame<'_>,
    context: &mut Context,
    slot: u8,
    from: Operand,
    contract: Option<ContractId>,
) -> Result<(), Memory>
    ensures { OnOk result (context_of context.new
        ≡ moved_to_slot frame.now (context_of context.old) slot from contract) }
{
    let kind = moved_kind(context, from, contract);
    let counted = context.counted(from.place);
    let permission = frame.converted(alloc, context.kind(from.place), kind, counted)?;
    let kept = give(context.permission(from.place), counted);
    context.set_permission(from.place, kept);
    context.put(Place::Slot(slot), Some(Known { kind, permission }))
}

// Moves a reference into a field.
#[tactic(auto, using(ob_flow_context::proofs::PremiseLemmas::premises))]
fn move_to_field(
    alloc: Global,
    frame: &BodyFrame<'_>,
    tested: &[Place],
    context: &mut Context,
    at: Span,
    field: FieldId,
    from: Operand,
) -> Result<(), FlowError>
    ensures { Leaves result (context_of context.new)
        (moves_to_field frame.now (tested_of tested.now) (context_of context.old) at field.0 from)
        (moved_to_field frame.now (context_of context.old) field.0 from) }
{
    must(NOT_ACCESSIBLE, at, frame.accessible(context, field))?;
    must(UNDER_TEST, at, !is_tested(tested, Place::Field(field)))?;
    let known = got(alloc, frame, context, field, from.place)?;
    fill(alloc, frame, tested, context, at, field, from)?;
    let overwrites = frame.owns_asset(context, Place::Field(field));
    must(ASSET_OVERWRITTEN, at, !overwrites)?;
    context.put(Place::Field(field), Some(known))?;
    Ok(())
}

// Moves a reference into a slot.
fn move_to_slot(
    alloc: Global,
    frame: &BodyFrame<'_>,
    tested: &[Place],
    context: &mut Context,
    at: Span,
    slot: u8,
    from: Operand,
    contract: Option<ContractId>,
) -> Result<(), FlowError>
    ensures { Leaves result (context_of context.new)
        (moves_to_slot frame.now (tested_of tested.now) (context_of context.old) at slot from)
        (moved_to_slot frame.now (context_of context.old) slot from contract) }
{
    moves_to_slot(frame, tested, context, at, slot, from)?;
    moved_to_slot(alloc, frame, context, slot, from, contract)?;
    Ok(())
}

/// Moves a reference.
pub fn move_reference(
    alloc: Global,
    frame: &BodyFrame<'_>,
    tested: &[Place],
    context: &mut Context,
    at: Span,
    to: Place,
    from: Operand,
    contract: Option<ContractId>,
) -> Result<(), FlowError>
    ensures { Leaves result (context_of context.new)
        (moves_place frame.now (tested_of tested.now) (context_of context.old) at (location_of to) from)
        (after_move frame.now (context_of context.old) (location_of to) from contract) }
{
    match to {
        Place::This => move_to_slot(alloc, frame, tested, context, at, 0, from, contract),
        Place::Slot(slot) => move_to_slot(alloc, frame, tested, context, at, slot, from, contract),
        Place::Field(field) => move_to_field(alloc, frame, tested, context, at, field, from),
    }
}

/// Gives ownership up.
pub fn disown(
    frame: &BodyFrame<'_>,
    tested: &[Place],
    context: &mut Context,
    place: Operand,
) -> Result<(), FlowError>
    ensures { Leaves result (context_of context.new)
        (disowns_place frame.now (tested_of tested.now) (context_of context.old) place)
        (now (context_of context.old) (located place) unowned) }
{
    disowns_place(frame, tested, context, place)?;
    context.set_permission(place.place, unowned());
    Ok(())
}

/// Ends a slot.
pub fn drop_slot(
    frame: &BodyFrame<'_>,
    tested: &[Place],
    context: &mut Context,
    at: Span,
    number: u8,
) -> Result<(), FlowError>
    ensures { Leaves result (context_of context.new)
        (drops_slot frame.now (tested_of tested.now) (context_of context.old) at number)
        (put (context_of context.old) (slot number) None) }
{
    drops_slot(frame, tested, context, at, number)?;
    context.put(Place::Slot(number), None)?;
    Ok(())
}
