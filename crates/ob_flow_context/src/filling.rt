//! Filling a field from a place.
ghost use Rattle.std.specs.Prelude.{◌≡◌, Some, IfOk};
ghost use Rattle.ob_perm.specs.Masks.{permission_of};
ghost use Rattle.ob_silica_places.specs.Places.{located, location_of};
ghost use Rattle.ob_silica_places.specs.Converting.{gotten};
ghost use Rattle.ob_flow_spec.specs.Binding.{read_of};
ghost use Rattle.ob_flow_spec.specs.Contexts.{declared_permission};
ghost use Rattle.ob_flow_spec.specs.Filling.{fills_as, fills_field, after_fill, got};
ghost use Rattle.ob_flow_context.specs.View.{known_of, context_of, tested_of};
ghost use Rattle.ob_flow_context.specs.Checking.{MeetsPremises, Leaves};

use crate::checking::{FlowError, must};
use crate::context::{Context, Known};
use crate::frame::BodyFrame;
use crate::kinds::kind_of;
use crate::passing::Parameter;
use crate::places::is_tested;
use crate::using::{gives_place, hand, uses_place};
use ob_base::{FieldId, Memory, Mode, NOT_OWNING, Perm, Span, UNDER_TEST, VIEW_CHANGES};
use ob_perm::{shared, unowned};
use ob_silica::{Operand, Place};
use std::alloc::Global;

// Asks that a place may fill a field: it is an owner that isn't under test, or what may be given.
#[tactic(auto, using(crate::proofs::PremiseLemmas::premises))]
fn fills_as(
    alloc: Global,
    frame: &BodyFrame<'_>,
    tested: &[Place],
    context: &Context,
    field: FieldId,
    read: Operand,
) -> Result<(), FlowError>
    ensures { MeetsPremises result (fills_as frame.now (tested_of tested.now) (context_of context.now) field.0 (read_of read)
        (declared_permission frame.now field.0)) }
{
    match frame.declared_permission(field).mode {
        Mode::Owned => {
            uses_place(frame, context, read)?;
            let owns = context.counted(read.place).mode == Mode::Owned;
            must(NOT_OWNING, read.span, owns)?;
            must(UNDER_TEST, read.span, !is_tested(tested, read.place))
        }
        Mode::Shared | Mode::Unowned => {
            let to = Parameter {
                of: frame.type_of_field(field),
                exit: unowned(),
            };
            gives_place(alloc, frame, tested, context, read, to)
        }
    }
}

/// Fills a field from a place, where `this` lets its fields change; the form stands at this span. What the
/// field gets is `got`, from the context before.
#[tactic(auto, using(crate::proofs::PremiseLemmas::premises))]
pub fn fill(
    alloc: Global,
    frame: &BodyFrame<'_>,
    tested: &[Place],
    context: &mut Context,
    at: Span,
    field: FieldId,
    read: Operand,
) -> Result<(), FlowError>
    ensures { Leaves result (context_of context.new)
        (fills_field frame.now (tested_of tested.now) (context_of context.old) at field.0 (read_of read))
        (after_fill frame.now (context_of context.old) field.0 (located read)) }
{
    let changes = context.permission(Place::This).mode != Mode::Unowned;
    must(VIEW_CHANGES, at, changes)?;
    fills_as(alloc, frame, tested, context, field, read)?;
    hand(context, read.place, frame.declared_permission(field));
    Ok(())
}

// What a place of a declared permission gets of a permission.
fn gotten(declared: Perm, permission: Perm) -> Perm
    ensures { permission_of result ≡ gotten (permission_of declared) (permission_of permission) }
{
    match declared.mode {
        Mode::Owned => permission,
        Mode::Shared => shared(),
        Mode::Unowned => unowned(),
    }
}

/// What a field gets of a place.
pub fn got(
    alloc: Global,
    frame: &BodyFrame<'_>,
    context: &Context,
    field: FieldId,
    place: Place,
) -> Result<Known, Memory>
    ensures { IfOk result (λ k. Some (known_of k) ≡ got frame.now (context_of context.now) field.0 (location_of place)) }
{
    let of = frame.type_of_field(field);
    let said = frame.said_for_type(alloc, context, place, of)?;
    Ok(Known {
        kind: kind_of(of),
        permission: gotten(frame.declared_permission(field), said),
    })
}
