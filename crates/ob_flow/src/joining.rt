//! Joins of two branches.
ghost use Rattle.std.specs.Prelude.{◌≡◌};
ghost use Rattle.ob_perm.specs.Masks.{permission_of};
ghost use Rattle.ob_flow_spec.specs.Joining.{joined_context, joins_branches};
ghost use Rattle.ob_flow_context.specs.View.{context_of};
ghost use Rattle.ob_flow_context.specs.Checking.{MeetsPremises, Leaves};

use ob_base::{Perm, Span, THIS_DIFFERS};
use ob_flow_context::{BodyFrame, Context, FlowError, must};
use ob_flow_premises::{joined_context, joins_fields, joins_slots, same_mode};
use ob_silica::Place;
use std::alloc::Global;

// What a join is asked for.
#[tactic(auto, using(ob_flow_context::proofs::PremiseLemmas::premises))]
fn joins(
    frame: &BodyFrame<'_>,
    under: Perm,
    a: &Context,
    b: &Context,
    after: &Context,
    at: Span,
) -> Result<(), FlowError>
    requires { context_of after.now ≡ joined_context (context_of a.now) (context_of b.now) }
    ensures { MeetsPremises result (joins_branches frame.now (permission_of under) (context_of a.now) (context_of b.now) at) }
{
    let same = same_mode(a.permission(Place::This), b.permission(Place::This));
    must(THIS_DIFFERS, at, same)?;
    joins_slots(frame, a, b, at)?;
    joins_fields(frame, under, a, b, after, at)
}

/// Joins the context of one branch with that of another; `under` is the permission on `this` where the first ends.
pub fn join(
    alloc: Global,
    frame: &BodyFrame<'_>,
    under: Perm,
    context: &mut Context,
    other: &Context,
    at: Span,
) -> Result<(), FlowError>
    ensures { Leaves result (context_of context.new)
        (joins_branches frame.now (permission_of under) (context_of context.old) (context_of other.now) at)
        (joined_context (context_of context.old) (context_of other.now)) }
{
    let after = joined_context(alloc, context, other)?;
    joins(frame, under, context, other, &after, at)?;
    *context = after;
    Ok(())
}
