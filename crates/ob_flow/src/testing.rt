//! Tests of states.
ghost use Rattle.std.specs.Prelude.{◌≡◌};
ghost use Rattle.ob_base.specs.Faults.{under_test};
ghost use Rattle.ob_perm.specs.Permissions.{shared, owns};
ghost use Rattle.ob_perm.specs.Masks.{permission_of};
ghost use Rattle.ob_silica_places.specs.Places.{location_of, located};
ghost use Rattle.ob_flow_spec.specs.Premises.{one};
ghost use Rattle.ob_flow_spec.specs.Contexts.{now, permission_at};
ghost use Rattle.ob_flow_spec.specs.Numbered.{IsStateNumber};
ghost use Rattle.ob_flow_spec.specs.Testing.{tests_state, in_tested_state, in_other_state};
ghost use Rattle.ob_flow_context.specs.View.{context_of, tested_of};
ghost use Rattle.ob_flow_context.specs.Checking.{MeetsPremises, Leaves};

use ob_base::{Mode, Perm, StateId, TEST_TWICE, TEST_UNOWNED, UNDER_TEST};
use ob_flow_context::{BodyFrame, Context, FlowError, is_tested, must, uses_place};
use ob_flow_premises::{is_owner, is_unowned};
use ob_perm::{only, owned, shared, within, without};
use ob_silica::{Operand, Place};

/// What a test is asked for.
#[tactic(auto, using(ob_flow_context::proofs::PremiseLemmas::premises))]
pub fn test(
    frame: &BodyFrame<'_>,
    tested: &[Place],
    context: &Context,
    place: Operand,
) -> Result<(), FlowError>
    ensures { MeetsPremises result (tests_state frame.now (tested_of tested.now) (context_of context.now) place) }
{
    uses_place(frame, context, place)?;
    must(
        TEST_UNOWNED,
        place.span,
        !is_unowned(context.counted(place.place)),
    )?;
    must(TEST_TWICE, place.span, !is_tested(tested, place.place))
}

/// Goes to the context in which the first branch begins, of a test of a place of this permission.
pub fn in_tested_state(context: &mut Context, permission: Perm, state: StateId, place: Place)
    requires { IsStateNumber state }
    ensures { context_of context.new
        ≡ in_tested_state (permission_of permission) state (location_of place) (context_of context.old) }
{
    match permission.mode {
        Mode::Owned => context.set_permission(place, within(permission, state)),
        Mode::Shared => context.set_permission(place, owned(only(state))),
        Mode::Unowned => {}
    }
}

/// Goes to the context in which the second branch begins.
pub fn in_other_state(context: &mut Context, permission: Perm, state: StateId, place: Place)
    requires { IsStateNumber state }
    ensures { context_of context.new
        ≡ in_other_state (permission_of permission) state (location_of place) (context_of context.old) }
{
    match permission.mode {
        Mode::Owned => context.set_permission(place, without(permission, state)),
        Mode::Shared | Mode::Unowned => {}
    }
}

/// Where the first branch of a shared object's test ends, the place still owns and is Shared again.
pub fn end_test(context: &mut Context, place: Operand) -> Result<(), FlowError>
    ensures { Leaves result (context_of context.new)
        (one under_test place.span (owns (permission_at (context_of context.old) (located place))))
        (now (context_of context.old) (located place) shared) }
{
    let owns = is_owner(context.permission(place.place));
    must(UNDER_TEST, place.span, owns)?;
    context.set_permission(place.place, shared());
    Ok(())
}
