//! The check of bodies.
ghost use Rattle.std.specs.Prelude.{◌≡◌, IfOk, IfErr};
ghost use Rattle.std.specs.Option.{option_copied};
ghost use Rattle.ob_perm.specs.Masks.{permission_of};
ghost use Rattle.ob_table.specs.Tables.{signature_of};
ghost use Rattle.ob_silica.specs.TermsView.{form_of, terms_of, silica_body_of};
ghost use Rattle.ob_silica_places.specs.Places.{located};
ghost use Rattle.ob_table_spec.specs.Conditions.{IsClassTable};
ghost use Rattle.ob_flow_spec.specs.Numbered.{NamesStates, AllNameStates};
ghost use Rattle.ob_flow_spec.specs.Testing.{tested_with};
ghost use Rattle.ob_flow_spec.specs.Deriving.{derive, derive_all, Derives, IsFlowFault};
ghost use Rattle.ob_flow_context.specs.View.{context_of, tested_of};
ghost use Rattle.ob_base.specs.TextErrors.{OnFault};
ghost use Rattle.ob_flow.specs.Loops.{derive_turn};
ghost use Rattle.ob_flow.specs.Outcomes.{reached, DerivesTo};

use crate::branches::{
    Flow, begin_turn, end_branch, end_turn, join_branches, tested_with, this_left,
};
use crate::calling::{call, call_this, make};
use crate::changing::change;
use crate::returning::leave;
use crate::straight::{copy, disown, drop_slot, move_reference, operate, put_constant};
use crate::testing::{in_other_state, in_tested_state, test};
use crate::trace::Trace;
use ob_base::{BAD_TRANSITION, ContractId, Duplicate, Items, Perm, ProgramFault, Span, TxId};
use ob_flow_context::{BodyFrame, Context, FlowError, beginning, uses_place};
use ob_flow_premises::assert_held;
use ob_silica::{Form, Operand, Place, Term, TermBody};
use ob_table::{Signature, Table};
use std::alloc::Global;

// The constructor or transaction of this number, of the contract or interface of a number.
fn signature_of<'a>(frame: &BodyFrame<'a>, contract: ContractId, tx: TxId) -> Option<&'a Signature>
    ensures { option_copied result ≡ signature_of frame.now.table contract tx }
{
    match frame.table().contract(contract) {
        Some(contract) => contract.signature(tx),
        None => None,
    }
}

// A form.
#[cycle(check)]
#[tactic(auto, using(ob_silica::specs::TermsView::term_views, crate::proofs::OutcomeLemmas::outcomes))]
fn check_form(
    form: &Form,
    at: Span,
    frame: &BodyFrame<'_>,
    tested: &[Place],
    context: &mut Context,
    alloc: Global,
    trace: &mut Trace,
) -> Result<Flow, FlowError>
    requires { NamesStates (form_of form.now) }
    ensures { DerivesTo result (context_of context.new)
        (derive frame.now (tested_of tested.now) (form_of form.now) at (context_of context.old)) }
{
    match form {
        Form::Unit => Ok(Flow::On),
        Form::Const { slot, value } => {
            put_constant(context, *slot, value)?;
            Ok(Flow::On)
        }
        Form::Op {
            slot,
            operator,
            a,
            b,
            ..
        } => {
            operate(frame, context, *slot, *operator, *a, *b)?;
            Ok(Flow::On)
        }
        Form::Copy { to, from } => {
            copy(frame, context, at, *to, *from)?;
            Ok(Flow::On)
        }
        Form::Move { to, from, contract } => {
            move_reference(alloc, frame, tested, context, at, *to, *from, *contract)?;
            Ok(Flow::On)
        }
        Form::New {
            slot,
            contract,
            args,
        } => {
            if let Some(signature) = signature_of(frame, *contract, TxId(0)) {
                let args = args.as_slice();
                make(
                    alloc, frame, tested, context, *slot, *contract, signature, args,
                )?;
            }
            Ok(Flow::On)
        }
        Form::Call {
            slot,
            receiver,
            contract,
            tx,
            args,
        } => {
            if let Some(signature) = signature_of(frame, *contract, *tx) {
                let args = args.as_slice();
                call(
                    alloc, frame, tested, context, *slot, *receiver, *contract, signature, args,
                )?;
            }
            Ok(Flow::On)
        }
        Form::CallThis { slot, tx, args } => {
            if let Some(signature) = frame.own().signature(*tx) {
                let args = args.as_slice();
                call_this(alloc, frame, tested, context, at, *slot, signature, args)?;
            }
            Ok(Flow::On)
        }
        Form::Change { state, given } => {
            change(alloc, frame, tested, context, at, *state, given.as_slice())?;
            Ok(Flow::On)
        }
        Form::Test {
            place,
            state,
            then,
            otherwise,
            join,
        } => {
            test(frame, tested, context, *place)?;
            let permission = context.counted(place.place);
            let mut other = context.copy(alloc)?;
            in_other_state(&mut other, permission, *state, place.place);
            in_tested_state(context, permission, *state, place.place);
            let then = then.as_slice();
            let left = check_branch(
                then, permission, *place, frame, tested, context, alloc, trace,
            )?;
            let under = this_left(left, context);
            let first = end_branch(permission, *place, left, context)?;
            let otherwise = otherwise.as_slice();
            let second = check_terms(otherwise, frame, tested, &mut other, alloc, trace)?;
            join_branches(
                alloc, frame, under, first, context, second, other, *join, trace,
            )
        }
        Form::If {
            a,
            then,
            otherwise,
            join,
        } => {
            uses_place(frame, context, *a)?;
            let mut other = context.copy(alloc)?;
            let first = check_terms(then.as_slice(), frame, tested, context, alloc, trace)?;
            let otherwise = otherwise.as_slice();
            let second = check_terms(otherwise, frame, tested, &mut other, alloc, trace)?;
            let under = this_left(first, context);
            join_branches(
                alloc, frame, under, first, context, second, other, *join, trace,
            )
        }
        Form::Loop {
            first,
            a,
            body,
            end,
        } => {
            let first = first.as_slice();
            let body = body.as_slice();
            let head = begin_turn(alloc, frame, first, body, context)?;
            let flow = check_terms(first, frame, tested, context, alloc, trace)?;
            check_turn(
                flow, *a, body, *end, head, frame, tested, context, alloc, trace,
            )
        }
        Form::Assert { place, perm } => {
            assert_held(frame, context, *place, *perm)?;
            Ok(Flow::On)
        }
        Form::Disown { place } => {
            disown(frame, tested, context, *place)?;
            Ok(Flow::On)
        }
        Form::Drop { slot } => {
            drop_slot(frame, tested, context, at, *slot)?;
            Ok(Flow::On)
        }
        Form::Return { place } => {
            leave(alloc, frame, tested, context, at, *place)?;
            Ok(Flow::Ended)
        }
        Form::Revert { text } => {
            uses_place(frame, context, *text)?;
            Ok(Flow::Ended)
        }
        Form::BadRow => Err(FlowError::Fault(ProgramFault {
            number: BAD_TRANSITION,
            span: at,
        })),
    }
}

// The first branch of a test.
#[cycle(check)]
fn check_branch(
    terms: &[Term],
    permission: Perm,
    place: Operand,
    frame: &BodyFrame<'_>,
    tested: &[Place],
    context: &mut Context,
    alloc: Global,
    trace: &mut Trace,
) -> Result<Flow, FlowError>
    requires { AllNameStates (terms_of terms.now) }
    ensures { DerivesTo result (context_of context.new) (derive_all frame.now
        (tested_with (permission_of permission) (located place) (tested_of tested.now)) (terms_of terms.now)
        (context_of context.old)) }
{
    let tested = tested_with(alloc, permission, place.place, tested)?;
    check_terms(terms, frame, tested.as_slice(), context, alloc, trace)
}

// A turn of a loop with this head, from where its first part ends.
#[cycle(check)]
#[tactic(auto, using(crate::proofs::OutcomeLemmas::outcomes))]
fn check_turn(
    flow: Flow,
    a: Operand,
    body: &[Term],
    end: Span,
    head: Context,
    frame: &BodyFrame<'_>,
    tested: &[Place],
    context: &mut Context,
    alloc: Global,
    trace: &mut Trace,
) -> Result<Flow, FlowError>
    requires { AllNameStates (terms_of body.now) }
    ensures { DerivesTo result (context_of context.new) (derive_turn frame.now (tested_of tested.now) (context_of head) a
        (terms_of body.now) end (reached flow (context_of context.old))) }
{
    match flow {
        Flow::Ended => Ok(Flow::Ended),
        Flow::On => {
            uses_place(frame, context, a)?;
            let mut turned = context.copy(alloc)?;
            let flow = check_terms(body, frame, tested, &mut turned, alloc, trace)?;
            end_turn(frame, context, head, flow, turned, end, trace)
        }
    }
}

// Forms one after another; after one that ends nothing is looked at.
#[cycle(check)]
#[tactic(auto, using(crate::proofs::TermLemmas::terms))]
fn check_terms(
    terms: &[Term],
    frame: &BodyFrame<'_>,
    tested: &[Place],
    context: &mut Context,
    alloc: Global,
    trace: &mut Trace,
) -> Result<Flow, FlowError>
    requires { AllNameStates (terms_of terms.now) }
    ensures { DerivesTo result (context_of context.new)
        (derive_all frame.now (tested_of tested.now) (terms_of terms.now) (context_of context.old)) }
{
    for term in terms {
        trace.see(frame, context, term);
        match check_form(&term.form, term.span, frame, tested, context, alloc, trace) {
            Ok(Flow::On) => trace.pass(term),
            Ok(Flow::Ended) => return Ok(Flow::Ended),
            Err(error) => {
                trace.stop_at(tested, context, term);
                return Err(error);
            }
        }
    }
    Ok(Flow::On)
}

/// Checks a body of a class table by the permission rules: whether it derives, or else the fault of the first premise that
/// fails. The trace tells what was known on the way.
pub fn check(
    alloc: Global,
    table: &Table,
    body: &TermBody,
    trace: &mut Trace,
) -> Result<(), FlowError>
    requires table { IsClassTable table.now }
    requires states { AllNameStates (terms_of body.now.terms) }
    ensures derives { IfOk result (λ _. Derives table.now (silica_body_of body.now)) }
    ensures fault { IfErr result (λ e. OnFault e (IsFlowFault table.now (silica_body_of body.now))) }
{
    trace.begin();
    let Some(frame) = BodyFrame::new(table, body) else {
        return Ok(());
    };
    let mut context = beginning(alloc, &frame)?;
    let tested = Items::new(alloc);
    check_terms(
        body.terms.as_slice(),
        &frame,
        tested.as_slice(),
        &mut context,
        alloc,
        trace,
    )?;
    Ok(())
}
