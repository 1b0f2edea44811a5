//! Calls and `new` after their arguments (the Obsidian language documentation, "Expressions").
ghost use Rattle.std.specs.Prelude.{◌≡◌, Some, true};
ghost use Rattle.ob_silica.specs.Terms.{new_form};
ghost use Rattle.ob_silica.specs.TermsView.{form_of};
ghost use Rattle.ob_lower_functions.specs.Progress.{into_slot};
ghost use Rattle.ob_lower_functions.specs.ExpressionCode.{form_of_call, kind_of_result, call_code};
ghost use Rattle.ob_lower_parts.specs.Makes.{Makes, progress};
ghost use Rattle.ob_lower_parts.specs.Operands.{with_value};

use crate::frame::AroundExpression;
use crate::operands::{is_reference, keep_reference, put_into};
use crate::{Code, Slots, Stopped};
use ob_base::{ContractId, Items, Span, TxId};
use ob_silica::{Form, Operand};
use ob_table::{Kind, ResolvedCall};

// The form of a call with this slot for its result, if it has one.
fn form_of_call(
    slot: Option<u8>,
    receiver: Option<Operand>,
    contract: ContractId,
    tx: TxId,
    args: Items<Operand>,
) -> Form
    ensures { form_of result ≡ form_of_call slot receiver contract tx args }
{
    match receiver {
        None => Form::CallThis { slot, tx, args },
        Some(receiver) => Form::Call {
            slot,
            receiver,
            contract,
            tx,
            args,
        },
    }
}

// A call after its arguments, whose result is of this kind.
fn put_valued_call(
    kind: Kind,
    call: &ResolvedCall,
    receiver: Option<Operand>,
    args: Items<Operand>,
    span: Span,
    around: &AroundExpression<'_>,
    out: &mut Code,
    slots: &mut Slots,
) -> Result<Option<Operand>, Stopped>
    ensures { Makes result (λ o. (progress out.new slots.new, o))
        (call_code around.now receiver call.now.contract call.now.tx span (Some kind) (progress out.old slots.old, args)) }
{
    let slot = slots.next(span)?;
    keep_reference(is_reference(kind), slot, slots)?;
    let form = form_of_call(Some(slot), receiver, call.contract, call.tx, args);
    put_into(slot, form, span, around, out)
}

/// A call after its arguments, with a slot for its result if it has one.
pub fn put_call(
    call: &ResolvedCall,
    receiver: Option<Operand>,
    args: Items<Operand>,
    span: Span,
    around: &AroundExpression<'_>,
    out: &mut Code,
    slots: &mut Slots,
) -> Result<Option<Operand>, Stopped>
    ensures { Makes result (λ o. (progress out.new slots.new, o))
        (call_code around.now receiver call.now.contract call.now.tx span
        (kind_of_result around.now call.now.contract call.now.tx) (progress out.old slots.old, args)) }
{
    match around.kind_of_result(call.contract, call.tx) {
        Some(kind) => put_valued_call(kind, call, receiver, args, span, around, out, slots),
        None => {
            let form = form_of_call(None, receiver, call.contract, call.tx, args);
            out.put(form, around.span())?;
            Ok(None)
        }
    }
}

/// A `new` after its arguments.
pub fn put_new(
    contract: ContractId,
    args: Items<Operand>,
    span: Span,
    around: &AroundExpression<'_>,
    out: &mut Code,
    slots: &mut Slots,
) -> Result<Option<Operand>, Stopped>
    ensures { Makes result (λ o. (progress out.new slots.new, o))
        (with_value (into_slot around.now true span (λ k. new_form k contract args) (progress out.old slots.old))) }
{
    let slot = slots.next(span)?;
    slots.keep(slot)?;
    let form = Form::New {
        slot,
        contract,
        args,
    };
    put_into(slot, form, span, around, out)
}
