//! Returns.
ghost use Rattle.ob_flow_spec.specs.Returning.{returns_value, value_returned, leaves_all, returns_result};
ghost use Rattle.ob_flow_context.specs.View.{context_of, tested_of};
ghost use Rattle.ob_flow_context.specs.Checking.{MeetsPremises, Leaves};

use ob_base::{Mode, Perm, Span};
use ob_flow_context::{BodyFrame, Context, FlowError, Parameter, give, uses_place};
use ob_flow_premises::{
    all_let_go, end_tests, leaves_fields, leaves_params, leaves_this, sets_fields, still_own,
};
use ob_silica::{Operand, Place};
use std::alloc::Global;

// The permission of one that has no say.
const NO_SAY: Perm = Perm {
    mode: Mode::Unowned,
    states: 0,
};

// Gives the value that is returned.
fn give_value(
    alloc: Global,
    frame: &BodyFrame<'_>,
    tested: &[Place],
    context: &mut Context,
    value: Option<Operand>,
) -> Result<(), FlowError>
    ensures { Leaves result (context_of context.new)
        (returns_value frame.now (tested_of tested.now) (context_of context.old) value frame.now.signature.result)
        (value_returned (context_of context.old) value frame.now.signature.result) }
{
    match (value, frame.signature().result) {
        (None, _) => Ok(()),
        (Some(value), None) => uses_place(frame, context, value),
        (Some(value), Some(of)) => {
            let to = Parameter { of, exit: NO_SAY };
            give(alloc, frame, tested, context, value, to)
        }
    }
}

// What must hold once each place under test is Shared again.
#[tactic(auto, using(ob_flow_context::proofs::PremiseLemmas::premises))]
fn leaves_all(frame: &BodyFrame<'_>, context: &Context, at: Span) -> Result<(), FlowError>
    ensures { MeetsPremises result (leaves_all frame.now (context_of context.now) at) }
{
    all_let_go(frame, context, at)?;
    leaves_params(frame, context, at, frame.signature().params.as_slice())?;
    leaves_this(frame, context, at)?;
    sets_fields(frame, context, at)?;
    leaves_fields(frame, context, at)
}

/// Returns, with the value of a place or with none.
#[tactic(auto, using(ob_flow_context::proofs::PremiseLemmas::premises))]
pub fn leave(
    alloc: Global,
    frame: &BodyFrame<'_>,
    tested: &[Place],
    context: &mut Context,
    at: Span,
    value: Option<Operand>,
) -> Result<(), FlowError>
    ensures { MeetsPremises result (returns_result frame.now (tested_of tested.now) (context_of context.old) at value) }
{
    give_value(alloc, frame, tested, context, value)?;
    still_own(context, tested, at)?;
    end_tests(context, tested);
    leaves_all(frame, context, at)
}
