//! The slots that terms name.
ghost use Rattle.std.specs.Prelude.{◌≡◌, ◌<◌};
ghost use Rattle.ob_silica.specs.Slots.{slots_of_place, slots_of_operand, slots_of_operands, slots_of_given};
ghost use Rattle.ob_silica.specs.Slots.{slots_of_result, slots_of_returned, slots_of_form, slots_of_terms, slots_of};
ghost use Rattle.ob_silica.specs.TermsView.{form_of, terms_of};

use ob_base::MOST_SLOTS;
use ob_silica::{Form, Given, Operand, Place, Term};

// One more than the slot of a place.
fn of_place(place: Place) -> usize
    ensures { result ≡ slots_of_place place }
{
    match place {
        Place::This => 1,
        Place::Slot(slot) => slot as usize + 1,
        Place::Field(_) => 0,
    }
}

fn of_operand(operand: Operand) -> usize
    ensures { result ≡ slots_of_operand operand }
{
    of_place(operand.place)
}

#[tactic(auto, using(crate::proofs::CountsLemmas::counts))]
fn of_operands(operands: &[Operand]) -> usize
    ensures { result ≡ slots_of_operands operands.now }
{
    let mut most = 0;
    for operand in operands {
        most = most.max(of_operand(*operand));
    }
    most
}

#[tactic(auto, using(crate::proofs::CountsLemmas::counts))]
fn of_given(given: &[Given]) -> usize
    ensures { result ≡ slots_of_given given.now }
{
    let mut most = 0;
    for one in given {
        most = most.max(of_operand(one.from));
    }
    most
}

fn of_result(slot: Option<u8>) -> usize
    ensures { result ≡ slots_of_result slot }
{
    match slot {
        None => 0,
        Some(slot) => slot as usize + 1,
    }
}

fn of_returned(place: Option<Operand>) -> usize
    ensures { result ≡ slots_of_returned place }
{
    match place {
        None => 0,
        Some(operand) => of_operand(operand),
    }
}

#[cycle(slots_of_form)]
#[tactic(auto, using(ob_silica::specs::TermsView::term_views))]
fn of_form(form: &Form) -> usize
    ensures { result ≡ slots_of_form (form_of form.now) }
{
    match form {
        Form::Unit | Form::BadRow => 0,
        Form::Const { slot, .. } | Form::Drop { slot } => *slot as usize + 1,
        Form::Op { slot, a, b, .. } => {
            (*slot as usize + 1).max(of_operand(*a).max(of_operand(*b)))
        }
        Form::Copy { to, from } | Form::Move { to, from, .. } => {
            of_place(*to).max(of_operand(*from))
        }
        Form::New { slot, args, .. } => (*slot as usize + 1).max(of_operands(args.as_slice())),
        Form::Call {
            slot,
            receiver,
            args,
            ..
        } => of_result(*slot).max(of_operand(*receiver).max(of_operands(args.as_slice()))),
        Form::CallThis { slot, args, .. } => of_result(*slot).max(of_operands(args.as_slice())),
        Form::Change { given, .. } => of_given(given.as_slice()),
        Form::Test {
            place: a,
            then,
            otherwise,
            ..
        }
        | Form::If {
            a,
            then,
            otherwise,
            ..
        } => {
            let branches = of_terms(then.as_slice()).max(of_terms(otherwise.as_slice()));
            of_operand(*a).max(branches)
        }
        Form::Loop { first, a, body, .. } => {
            let rest = of_operand(*a).max(of_terms(body.as_slice()));
            of_terms(first.as_slice()).max(rest)
        }
        Form::Assert { place: a, .. } | Form::Disown { place: a } | Form::Revert { text: a } => {
            of_operand(*a)
        }
        Form::Return { place } => of_returned(*place),
    }
}

#[cycle(slots_of_form)]
#[tactic(auto, using(ob_silica::specs::TermsView::term_views, crate::proofs::CountsLemmas::counts))]
fn of_terms(terms: &[Term]) -> usize
    ensures { result ≡ slots_of_terms (terms_of terms.now) }
{
    let mut most = 0;
    for term in terms {
        most = most.max(of_form(&term.form));
    }
    most
}

/// One more than the greatest slot among `this`, so many parameters, and the slots that these terms name.
pub fn count_slots(params: usize, terms: &[Term]) -> usize
    requires { params < MOST_SLOTS }
    ensures { result ≡ slots_of params (terms_of terms.now) }
{
    (params + 1).max(of_terms(terms))
}
