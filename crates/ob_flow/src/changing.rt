//! Changes of state.
ghost use Rattle.std.specs.Prelude.{◌≡◌, IfOk};
ghost use Rattle.ob_flow_spec.specs.Numbered.{IsStateNumber};
ghost use Rattle.ob_flow_spec.specs.Changing.{filled_all, changes_state, after_change, refilled};
ghost use Rattle.ob_flow_context.specs.View.{context_of, all_known, tested_of};
ghost use Rattle.ob_flow_context.specs.Checking.{MeetsPremises, Leaves};
ghost use Rattle.ob_flow_premises.specs.Forms.{all_got};
ghost use Rattle.ob_flow.specs.Changes.{may_change_to, refills, refills_and_shares};

use ob_base::{Duplicate, Items, Span, StateId};
use ob_flow_context::{BodyFrame, Context, FlowError, Known};
use ob_flow_premises::{
    all_have_values, all_lose_none, all_of_state, all_overwrite_none, all_share_as_declared,
    all_stay_under_test, fill_all, fills_once, in_state, may_change, put_got,
};
use ob_silica::{Given, Place};
use std::alloc::Global;

// What a change of state is asked for before any field is filled.
#[tactic(auto, using(ob_flow_context::proofs::PremiseLemmas::premises), unfolding(crate::specs::Changes::may_change_to))]
fn may_change_to(
    frame: &BodyFrame<'_>,
    tested: &[Place],
    context: &Context,
    at: Span,
    state: StateId,
    given: &[Given],
) -> Result<(), FlowError>
    requires { IsStateNumber state }
    ensures { MeetsPremises result (may_change_to frame.now (tested_of tested.now) (context_of context.now) at state
        given.now) }
{
    may_change(context, at)?;
    all_of_state(frame, state, given)?;
    all_have_values(frame, context, at, state, given)?;
    fills_once(frame, given)?;
    all_stay_under_test(frame, tested, at, state, given)
}

// Fields are filled, and no asset is overwritten or lost: what each gets.
#[tactic(auto, using(ob_flow_context::proofs::PremiseLemmas::premises))]
fn refill(
    alloc: Global,
    frame: &BodyFrame<'_>,
    tested: &[Place],
    context: &mut Context,
    at: Span,
    state: StateId,
    given: &[Given],
) -> Result<Items<Option<Known>>, FlowError>
    requires { IsStateNumber state }
    ensures asks { Leaves result (context_of context.new)
        (refills frame.now (tested_of tested.now) (context_of context.old) at state given.now)
        (filled_all frame.now (context_of context.old) given.now) }
    ensures gets { IfOk result (λ gots. all_known gots ≡ all_got frame.now (context_of context.old) given.now) }
{
    may_change_to(frame, tested, context, at, state, given)?;
    let gots = fill_all(alloc, frame, tested, context, at, given)?;
    all_overwrite_none(frame, context, given)?;
    all_lose_none(frame, context, at, state)?;
    Ok(gots)
}

// Fields are filled and get their permissions.
#[tactic(auto, using(ob_flow_context::proofs::PremiseLemmas::premises, crate::proofs::StateLemmas::refilling))]
fn change_fields(
    alloc: Global,
    frame: &BodyFrame<'_>,
    tested: &[Place],
    context: &mut Context,
    at: Span,
    state: StateId,
    given: &[Given],
) -> Result<(), FlowError>
    requires { IsStateNumber state }
    ensures { Leaves result (context_of context.new)
        (refills_and_shares frame.now (tested_of tested.now) (context_of context.old) at state given.now)
        (refilled frame.now (context_of context.old) given.now) }
{
    let gots = refill(alloc, frame, tested, context, at, state, given)?;
    let filled = context.copy(alloc)?;
    put_got(context, given, gots.as_slice())?;
    all_share_as_declared(frame, &filled, context, given)
}

/// Changes the state of `this`.
#[tactic(auto, using(crate::proofs::StateLemmas::changing))]
pub fn change(
    alloc: Global,
    frame: &BodyFrame<'_>,
    tested: &[Place],
    context: &mut Context,
    at: Span,
    state: StateId,
    given: &[Given],
) -> Result<(), FlowError>
    requires { IsStateNumber state }
    ensures { Leaves result (context_of context.new)
        (changes_state frame.now (tested_of tested.now) (context_of context.old) at state given.now)
        (after_change frame.now (context_of context.old) state given.now) }
{
    change_fields(alloc, frame, tested, context, at, state, given)?;
    in_state(frame, context, state)?;
    Ok(())
}
