//! Forms that have no branches: their code, and the slot that they set.
ghost use Rattle.std.specs.Prelude.{◌≡◌, ◌++◌, OnOk, IfOk};
ghost use Rattle.ob_silica.specs.TermsView.{form_of};
ghost use Rattle.ob_silica_formed.specs.Holdings.{slot_written, kind_written};
ghost use Rattle.ob_silica_kinds.specs.Kinds.{kinds_of, holding, with_kind, straight_ends};
ghost use Rattle.ob_emit.specs.Making.{entering_code, straight_code};

use crate::code::Code;
use crate::forms::{
    put_call, put_call_this, put_change, put_constant, put_copy, put_disown, put_move, put_new,
    put_operation, put_return, put_revert,
};
use crate::frame::EmissionFrame;
use ob_base::Memory;
use ob_code::Instruction;
use ob_silica::Form;
use ob_silica_kinds::{Kinds, pass_straight};

// The code of a form that enters a body; each other form has none here.
#[tactic(auto, using(ob_silica::specs::TermsView::term_views, crate::proofs::CodeLemmas::codes))]
fn put_entering(form: &Form, frame: &EmissionFrame<'_>, out: &mut Code) -> Result<(), Memory>
    ensures { OnOk result (out.new ≡ out.old ++ entering_code frame.now (form_of form.now)) }
{
    match form {
        Form::New {
            slot,
            contract,
            args,
        } => put_new(frame, *slot, *contract, args.as_slice(), out),
        Form::Call {
            slot,
            receiver,
            contract,
            tx,
            args,
        } => {
            let args = args.as_slice();
            put_call(frame, *slot, *receiver, *contract, *tx, args, out)
        }
        Form::CallThis { slot, tx, args } => {
            put_call_this(frame, *slot, *tx, args.as_slice(), out)
        }
        _ => Ok(()),
    }
}

// The code of a form that has no branches and is no loop; each other form has none here.
#[tactic(auto, using(ob_silica::specs::TermsView::term_views, crate::proofs::CodeLemmas::codes))]
fn put_straight(form: &Form, frame: &EmissionFrame<'_>, out: &mut Code) -> Result<(), Memory>
    ensures { OnOk result (out.new ≡ out.old ++ straight_code frame.now (form_of form.now)) }
{
    let scratch = frame.scratch();
    match form {
        Form::Unit => out.put(Instruction::Unit),
        Form::Const { slot, value } => put_constant(*slot, value, out),
        Form::Op {
            slot,
            operator,
            a,
            b,
            line,
        } => put_operation(scratch, *slot, *operator, *a, *b, *line, out),
        Form::Copy { to, from } => put_copy(scratch, *to, *from, out),
        Form::Move { to, from, .. } => put_move(frame, *to, *from, out),
        Form::Change { state, given } => put_change(frame, *state, given.as_slice(), out),
        Form::Disown { place } => put_disown(scratch, *place, out),
        Form::Return { place } => put_return(frame, *place, out),
        Form::Revert { text } => put_revert(scratch, *text, out),
        Form::New { .. } | Form::Call { .. } | Form::CallThis { .. } => {
            put_entering(form, frame, out)
        }
        Form::Test { .. }
        | Form::If { .. }
        | Form::Loop { .. }
        | Form::Assert { .. }
        | Form::Drop { .. }
        | Form::BadRow => Ok(()),
    }
}

/// A form that has no branches and is no loop: its code, and what `pass_straight` says. Each other form changes nothing.
pub fn emit_straight(
    form: &Form,
    frame: &EmissionFrame<'_>,
    kinds: &mut Kinds,
    out: &mut Code,
) -> Result<bool, Memory>
    ensures ends { IfOk result (λ ends. ends ≡ straight_ends (form_of form.now)) }
    ensures kinds { OnOk result (kinds_of kinds.new.slots ≡ with_kind (slot_written (form_of form.now))
        (kind_written frame.now.static (holding (kinds_of kinds.old.slots)) (form_of form.now)) (kinds_of kinds.old.slots)) }
    ensures code { OnOk result (out.new ≡ out.old ++ straight_code frame.now (form_of form.now)) }
{
    put_straight(form, frame, out)?;
    pass_straight(form, frame.static_frame(), kinds)
}
