//! The code of terms.
ghost use Rattle.std.specs.Prelude.{◌≡◌, ◌++◌, ◌||◌, length, OnOk, IfOk};
ghost use Rattle.ob_silica.specs.TermsView.{form_of, terms_of};
ghost use Rattle.ob_silica_formed.specs.Holdings.{form_ends, terms_end};
ghost use Rattle.ob_emit_spec.specs.Emission.{contract_referred};
ghost use Rattle.ob_silica_kinds.specs.Kinds.{kinds_of, kinds_after_form, kinds_after};
ghost use Rattle.ob_emit.specs.Making.{choice_of_value, choice_of_state, with_operand, jumps_over_terms, branch_ended};
ghost use Rattle.ob_emit.specs.Making.{choice_of_form, with_operand_of, between, kinds_after_loop, with_loop};
ghost use Rattle.ob_emit.specs.Making.{form_made, terms_made};

use crate::code::{Choice, Code};
use crate::frame::EmissionFrame;
use crate::operands::load;
use crate::straight::emit_straight;
use ob_base::{ContractId, Duplicate, Memory, StateId};
use ob_silica::{Form, Operand, Term};
use ob_silica_kinds::{Kinds, go_to_head};
use ob_table::Kind;

// The contract or interface to which a place refers; the place of a test is known to be a reference.
fn contract_referred(kind: Option<Kind>) -> ContractId
    ensures { result ≡ contract_referred kind }
{
    match kind {
        Some(Kind::Reference(contract)) => contract,
        _ => ContractId(0),
    }
}

// The operand of a choice by a truth value is loaded.
#[tactic(auto, using(crate::proofs::CodeLemmas::codes))]
fn choose_by_value(
    frame: &EmissionFrame<'_>,
    place: Operand,
    out: &mut Code,
) -> Result<Choice, Memory>
    ensures choice { IfOk result (λ c. c ≡ choice_of_value frame.now place) }
    ensures code { OnOk result (out.new ≡ with_operand frame.now place out.old) }
{
    let a = load(frame.scratch(), 0, place.place, out)?;
    Ok(Choice::Value(a))
}

// The operand of a choice by the state of an object is loaded.
#[tactic(auto, using(crate::proofs::CodeLemmas::codes))]
fn choose_by_state(
    frame: &EmissionFrame<'_>,
    kinds: &Kinds,
    place: Operand,
    state: StateId,
    out: &mut Code,
) -> Result<Choice, Memory>
    ensures choice { IfOk result (λ c. c ≡ choice_of_state frame.now (kinds_of kinds.now.slots) place state) }
    ensures code { OnOk result (out.new ≡ with_operand frame.now place out.old) }
{
    let a = load(frame.scratch(), 0, place.place, out)?;
    let contract = contract_referred(kinds.kind_at(frame.static_frame(), place.place));
    Ok(Choice::State(a, contract, state))
}

// Whether a branch ends with a jump over the other one.
fn jumps_over(ends: bool, other: &[Term]) -> bool
    ensures { result ≡ jumps_over_terms ends (terms_of other.now) }
{
    match other {
        [] => false,
        [_, ..] => !ends,
    }
}

// Whether one of two is so.
fn either(a: bool, b: bool) -> bool
    ensures { result ≡ (a || b) }
{
    a || b
}

// What the first branch of a choice ends with.
fn put_branch_end(choice: Choice, ends: bool, out: &mut Code) -> Result<(), Memory>
    ensures { OnOk result (out.new ≡ out.old ++ branch_ended choice ends) }
{
    match choice {
        Choice::Value(_) => Ok(()),
        Choice::State(..) => out.put_end_test(ends),
    }
}

// What a form with branches chooses by, with its operand loaded; for each other form nothing is loaded.
#[tactic(auto, using(ob_silica::specs::TermsView::term_views))]
fn choose(
    form: &Form,
    frame: &EmissionFrame<'_>,
    kinds: &Kinds,
    out: &mut Code,
) -> Result<Choice, Memory>
    ensures choice { IfOk result (λ c. c ≡ choice_of_form frame.now (kinds_of kinds.now.slots) (form_of form.now)) }
    ensures code { OnOk result (out.new ≡ with_operand_of frame.now (form_of form.now) out.old) }
{
    match form {
        Form::Test { place, state, .. } => choose_by_state(frame, kinds, *place, *state, out),
        Form::If { a, .. } => choose_by_value(frame, *a, out),
        _ => Ok(Choice::Value(0)),
    }
}

// The first branch of a choice ends here: the place of the jump over the other one, if there is one.
#[tactic(auto, using(crate::proofs::CodeLemmas::codes))]
fn end_first_branch(
    choice: Choice,
    start: u32,
    ends: bool,
    jumps: bool,
    out: &mut Code,
) -> Result<u32, Memory>
    ensures place { IfOk result (λ place. place ≡ length (out.old ++ branch_ended choice ends)) }
    ensures code { OnOk result (out.new ≡ between choice jumps 0 start (out.old ++ branch_ended choice ends)) }
{
    put_branch_end(choice, ends, out)?;
    let place = out.here();
    out.put_between(choice, jumps, 0, start)?;
    Ok(place)
}

// A loop: its code, and what is known after it. Each other form is left alone.
#[cycle(emit)]
#[tactic(auto, using(ob_silica::specs::TermsView::term_views, crate::proofs::CodeLemmas::codes))]
fn emit_loop(
    form: &Form,
    frame: &EmissionFrame<'_>,
    kinds: &mut Kinds,
    out: &mut Code,
) -> Result<(), Memory>
    ensures kinds { OnOk result (kinds_of kinds.new.slots
        ≡ kinds_after_loop frame.now.static (form_of form.now) (kinds_of kinds.old.slots)) }
    ensures code { OnOk result (out.new ≡ with_loop frame.now (kinds_of kinds.old.slots) (form_of form.now) out.old) }
{
    match form {
        Form::Loop { first, a, body, .. } => {
            let start = out.here();
            let (first, body) = (first.as_slice(), body.as_slice());
            go_to_head(out.alloc(), first, body, frame.static_frame(), kinds)?;
            emit_terms(first, frame, kinds, out)?;
            let choice = choose_by_value(frame, *a, out)?;
            let place = out.here();
            out.put_choice(choice)?;
            let mut inside = kinds.copy(out.alloc())?;
            let ends = emit_terms(body, frame, &mut inside, out)?;
            out.put_between(choice, !ends, start, place)
        }
        _ => Ok(()),
    }
}

// A form: its code, and whether nothing is reached after it.
#[cycle(emit)]
#[tactic(auto, using(ob_silica::specs::TermsView::term_views, crate::proofs::CodeLemmas::codes))]
fn emit_form(
    form: &Form,
    frame: &EmissionFrame<'_>,
    kinds: &mut Kinds,
    out: &mut Code,
) -> Result<bool, Memory>
    ensures ends { IfOk result (λ ends. ends ≡ form_ends (form_of form.now)) }
    ensures kinds { OnOk result (kinds_of kinds.new.slots
        ≡ kinds_after_form frame.now.static (form_of form.now) (kinds_of kinds.old.slots)) }
    ensures code { OnOk result (out.new ≡ form_made frame.now (kinds_of kinds.old.slots) (form_of form.now) out.old) }
{
    match form {
        Form::Test {
            then,
            otherwise,
            ..
        }
        | Form::If {
            then,
            otherwise,
            ..
        } => {
            let choice = choose(form, frame, kinds, out)?;
            let start = out.here();
            out.put_choice(choice)?;
            let mut other = kinds.copy(out.alloc())?;
            let ends = emit_terms(then.as_slice(), frame, kinds, out)?;
            let jumps = jumps_over(ends, otherwise.as_slice());
            let middle = end_first_branch(choice, start, ends, jumps, out)?;
            let other_ends = emit_terms(otherwise.as_slice(), frame, &mut other, out)?;
            out.land(jumps, middle);
            kinds.join(out.alloc(), ends, other_ends, other)?;
            Ok(ends && other_ends)
        }
        Form::Loop { .. } => {
            emit_loop(form, frame, kinds, out)?;
            Ok(false)
        }
        Form::Unit
        | Form::Const { .. }
        | Form::Op { .. }
        | Form::Copy { .. }
        | Form::Move { .. }
        | Form::New { .. }
        | Form::Call { .. }
        | Form::CallThis { .. }
        | Form::Change { .. }
        | Form::Assert { .. }
        | Form::Disown { .. }
        | Form::Drop { .. }
        | Form::Return { .. }
        | Form::Revert { .. }
        | Form::BadRow => emit_straight(form, frame, kinds, out),
    }
}

/// Terms one after another: their code, and whether nothing is reached after them.
#[cycle(emit)]
#[tactic(auto, using(ob_silica::specs::TermsView::term_views, crate::proofs::CodeLemmas::codes))]
pub fn emit_terms(
    terms: &[Term],
    frame: &EmissionFrame<'_>,
    kinds: &mut Kinds,
    out: &mut Code,
) -> Result<bool, Memory>
    ensures ends { IfOk result (λ ends. ends ≡ terms_end (terms_of terms.now)) }
    ensures kinds { OnOk result (kinds_of kinds.new.slots
        ≡ kinds_after frame.now.static (terms_of terms.now) (kinds_of kinds.old.slots)) }
    ensures code { OnOk result (out.new ≡ terms_made frame.now (kinds_of kinds.old.slots) (terms_of terms.now) out.old) }
{
    let mut ends = false;
    for term in terms {
        let last = emit_form(&term.form, frame, kinds, out)?;
        ends = either(ends, last);
    }
    Ok(ends)
}
