//! Reading and using a place, and giving it to a parameter.
ghost use Rattle.std.specs.Prelude.{◌≡◌};
ghost use Rattle.ob_perm.specs.Permissions.{fit_fault, owns};
ghost use Rattle.ob_perm.specs.Masks.{permission_of};
ghost use Rattle.ob_silica_places.specs.Places.{located, location_of};
ghost use Rattle.ob_flow_spec.specs.Uses.{reads_place, uses_place, fitting, goes_away, gives_place, after_give, given_to};
ghost use Rattle.ob_flow_spec.specs.Binding.{read_of};
ghost use Rattle.ob_flow_context.specs.View.{context_of, tested_of};
ghost use Rattle.ob_flow_context.specs.Checking.{MeetsPremises, Leaves};
ghost use Rattle.ob_flow_context.specs.Parameters.{plain_parameter};

use crate::checking::{FlowError, must};
use crate::context::Context;
use crate::frame::BodyFrame;
use crate::kinds::permission_of_type;
use crate::passing::Parameter;
use crate::places::{is_tested, same_place};
use ob_base::{Mode, NOT_ACCESSIBLE, Perm, Span, THIS_IN_CONSTRUCTOR, UNDER_TEST, UNSET};
use ob_silica::{Operand, Place};
use std::alloc::Global;

/// Reads a place: a field is accessible, and the place is set.
#[tactic(auto, using(crate::proofs::PremiseLemmas::premises))]
pub fn reads_place(frame: &BodyFrame<'_>, context: &Context, read: Operand) -> Result<(), FlowError>
    ensures { MeetsPremises result (reads_place frame.now (context_of context.now) (located read) read.span) }
{
    if let Place::Field(field) = read.place {
        must(NOT_ACCESSIBLE, read.span, frame.accessible(context, field))?;
    }
    must(UNSET, read.span, context.is_set(read.place))
}

/// Uses a place: a constructor doesn't use `this`, and else it is read.
#[tactic(auto, using(crate::proofs::PremiseLemmas::premises))]
pub fn uses_place(frame: &BodyFrame<'_>, context: &Context, read: Operand) -> Result<(), FlowError>
    ensures { MeetsPremises result (uses_place frame.now (context_of context.now) (read_of read)) }
{
    let is_own = frame.constructs() && same_place(read.place, Place::This);
    must(THIS_IN_CONSTRUCTOR, read.span, !is_own)?;
    reads_place(frame, context, read)
}

/// Asks that a permission serves where another is wanted.
pub fn fitting(permission: Perm, wanted: Perm, span: Span) -> Result<(), FlowError>
    ensures { MeetsPremises result (fitting (fit_fault (permission_of permission) (permission_of wanted)) span) }
{
    match ob_perm::fits(permission, wanted) {
        Ok(()) => Ok(()),
        Err(cause) => must(cause.number(), span, false),
    }
}

// Whether a place given where a permission is wanted doesn't come back as an owner's.
fn goes_away(wanted: Perm, exit: Perm) -> bool
    ensures { result ≡ goes_away (permission_of wanted) (permission_of exit) }
{
    match wanted.mode {
        Mode::Owned => exit.mode != Mode::Owned,
        Mode::Shared => true,
        Mode::Unowned => false,
    }
}

// Asks that a place may be given to a parameter.
#[tactic(auto, using(crate::proofs::PremiseLemmas::premises))]
pub(crate) fn gives_place(
    alloc: Global,
    frame: &BodyFrame<'_>,
    tested: &[Place],
    context: &Context,
    read: Operand,
    to: Parameter,
) -> Result<(), FlowError>
    ensures { MeetsPremises result (gives_place frame.now (tested_of tested.now) (context_of context.now) (read_of read) (plain_parameter to)) }
{
    uses_place(frame, context, read)?;
    let said = frame.said_for_type(alloc, context, read.place, to.of)?;
    let wanted = permission_of_type(to.of);
    fitting(said, wanted, read.span)?;
    let leaves = is_tested(tested, read.place) && goes_away(wanted, to.exit);
    must(UNDER_TEST, read.span, !leaves)
}

// Gives a place where a permission is wanted.
pub(crate) fn hand(context: &mut Context, place: Place, wanted: Perm)
    ensures { context_of context.new ≡ after_give (context_of context.old) (location_of place) (permission_of wanted) }
{
    let kept = ob_perm::give(context.permission(place), wanted);
    context.set_permission(place, kept);
}

/// Gives a place to a parameter: it is used, it serves what the parameter's type wants, and a place under test stays its
/// owner's.
pub fn give(
    alloc: Global,
    frame: &BodyFrame<'_>,
    tested: &[Place],
    context: &mut Context,
    read: Operand,
    to: Parameter,
) -> Result<(), FlowError>
    ensures { Leaves result (context_of context.new)
        (gives_place frame.now (tested_of tested.now) (context_of context.old) (read_of read) (plain_parameter to))
        (given_to (context_of context.old) (located read) (plain_parameter to)) }
{
    gives_place(alloc, frame, tested, context, read, to)?;
    hand(context, read.place, permission_of_type(to.of));
    Ok(())
}
