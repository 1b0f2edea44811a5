//! How many scratch slots terms need.
ghost use Rattle.std.specs.Prelude.{◌≡◌, ◌+◌, IfOk};
ghost use Rattle.ob_silica.specs.TermsView.{form_of, terms_of};
ghost use Rattle.ob_emit_spec.specs.Operands.{scratch_slots, all_scratch_slots, values_given};
ghost use Rattle.ob_emit_spec.specs.Emission.{scratch_of_form, scratch_of_terms};

use ob_base::Memory;
use ob_silica::{Form, Given, Operand, Place, Term};

// How many an operand of this number needs.
fn of_place(number: usize, place: Place) -> Result<usize, Memory>
    ensures { IfOk result (λ n. n ≡ scratch_slots number place) }
{
    match place {
        Place::This | Place::Slot(_) => Ok(0),
        Place::Field(_) => number.checked_add(1).ok_or(Memory),
    }
}

// How many operands need, of which the first has this number.
#[tactic(auto, using(crate::proofs::ScratchLemmas::counts))]
fn of_operands(operands: &[Operand], first: u8) -> Result<usize, Memory>
    ensures { IfOk result (λ n. n ≡ all_scratch_slots first operands.now) }
{
    let mut most: usize = 0;
    let mut number = usize::from(first);
    for operand in operands {
        most = most.max(of_place(number, operand.place)?);
        number = number.checked_add(1).ok_or(Memory)?;
    }
    Ok(most)
}

// How many the values of given fields need.
#[tactic(auto, using(crate::proofs::ScratchLemmas::counts))]
fn of_given(given: &[Given]) -> Result<usize, Memory>
    ensures { IfOk result (λ n. n ≡ all_scratch_slots 0 (values_given given.now)) }
{
    let mut most: usize = 0;
    let mut number: usize = 0;
    for one in given {
        most = most.max(of_place(number, one.from.place)?);
        number = number.checked_add(1).ok_or(Memory)?;
    }
    Ok(most)
}

#[cycle(scratch_of_form)]
#[tactic(auto, using(ob_silica::specs::TermsView::term_views, crate::proofs::ScratchLemmas::counts))]
fn of_form(form: &Form) -> Result<usize, Memory>
    ensures { IfOk result (λ n. n ≡ scratch_of_form (form_of form.now)) }
{
    match form {
        Form::Unit
        | Form::Const { .. }
        | Form::Assert { .. }
        | Form::Drop { .. }
        | Form::Return { place: None }
        | Form::BadRow => Ok(0),
        Form::Op { a, b, .. } => Ok(of_place(0, a.place)?.max(of_place(1, b.place)?)),
        Form::Copy { from: a, .. }
        | Form::Move { from: a, .. }
        | Form::Disown { place: a }
        | Form::Return { place: Some(a) }
        | Form::Revert { text: a } => of_place(0, a.place),
        Form::New { args, .. } | Form::CallThis { args, .. } => of_operands(args.as_slice(), 0),
        Form::Call { receiver, args, .. } => {
            Ok(of_place(0, receiver.place)?.max(of_operands(args.as_slice(), 1)?))
        }
        Form::Change { given, .. } => of_given(given.as_slice()),
        Form::Test {
            place: a,
            then,
            otherwise,
            ..
        }
        | Form::If {
            a,
            then,
            otherwise,
            ..
        }
        | Form::Loop {
            a,
            first: then,
            body: otherwise,
            ..
        } => {
            let branches = of_terms(then.as_slice())?.max(of_terms(otherwise.as_slice())?);
            Ok(of_place(0, a.place)?.max(branches))
        }
    }
}

#[cycle(scratch_of_form)]
#[tactic(auto, using(ob_silica::specs::TermsView::term_views, crate::proofs::ScratchLemmas::counts))]
fn of_terms(terms: &[Term]) -> Result<usize, Memory>
    ensures { IfOk result (λ n. n ≡ scratch_of_terms (terms_of terms.now)) }
{
    let mut most: usize = 0;
    for term in terms {
        most = most.max(of_form(&term.form)?);
    }
    Ok(most)
}

/// How many slots a frame of a body has: those of its terms, and its scratch slots. More than 255 count as want of memory.
pub fn count_slots(slots: u8, terms: &[Term]) -> Result<u8, Memory>
    ensures { IfOk result (λ n. n ≡ slots + scratch_of_terms (terms_of terms.now)) }
{
    let Ok(scratch) = u8::try_from(of_terms(terms)?) else {
        return Err(Memory);
    };
    slots.checked_add(scratch).ok_or(Memory)
}
