//! What is known of the kinds of slots after terms, and at the head of a loop.
ghost use Rattle.std.specs.Prelude.{◌≡◌, ◌||◌, false, OnOk, IfOk};
ghost use Rattle.ob_silica.specs.TermsView.{form_of, terms_of};
ghost use Rattle.ob_silica_formed.specs.Holdings.{form_ends, terms_end};
ghost use Rattle.ob_silica_kinds.specs.Kinds.{kinds_of, joined_kinds, kinds_after_form, kinds_after, kinds_at_head};

use crate::ends::terms_end;
use crate::frame::StaticFrame;
use crate::heads::ask_slots;
use crate::kinds::Kinds;
use crate::straight::pass_straight;
use ob_base::{Duplicate, Memory};
use ob_silica::{Form, Term};
use std::alloc::Global;

// Whether one of two is so.
fn either(a: bool, b: bool) -> bool
    ensures { result ≡ (a || b) }
{
    a || b
}

// The body of a loop, from what is known after its first part: joins what is known before the loop with what is so after the turn.
#[cycle(pass)]
fn join_turn(
    alloc: Global,
    body: &[Term],
    frame: &StaticFrame<'_>,
    kinds: &mut Kinds,
    mut turn: Kinds,
) -> Result<(), Memory>
    ensures { OnOk result (kinds_of kinds.new.slots ≡ joined_kinds false (terms_end (terms_of body.now))
        (kinds_of kinds.old.slots) (kinds_after frame.now (terms_of body.now) (kinds_of turn.slots))) }
{
    let ends = pass_terms(alloc, body, frame, &mut turn)?;
    kinds.join(alloc, false, ends, turn)
}

// A form: what is known after it, and whether nothing is reached then.
#[cycle(pass)]
#[tactic(auto, using(ob_silica::specs::TermsView::term_views))]
fn pass_form(
    alloc: Global,
    form: &Form,
    frame: &StaticFrame<'_>,
    kinds: &mut Kinds,
) -> Result<bool, Memory>
    ensures ends { IfOk result (λ ends. ends ≡ form_ends (form_of form.now)) }
    ensures kinds { OnOk result (kinds_of kinds.new.slots
        ≡ kinds_after_form frame.now (form_of form.now) (kinds_of kinds.old.slots)) }
{
    match form {
        Form::Test {
            then,
            otherwise,
            ..
        }
        | Form::If {
            then,
            otherwise,
            ..
        } => {
            let mut other = kinds.copy(alloc)?;
            let ends = pass_terms(alloc, then.as_slice(), frame, kinds)?;
            let other_ends = pass_terms(alloc, otherwise.as_slice(), frame, &mut other)?;
            kinds.join(alloc, ends, other_ends, other)?;
            Ok(ends && other_ends)
        }
        Form::Loop { first, body, .. } => {
            let first = first.as_slice();
            let mut turn = kinds.copy(alloc)?;
            pass_terms(alloc, first, frame, &mut turn)?;
            join_turn(alloc, body.as_slice(), frame, kinds, turn)?;
            pass_terms(alloc, first, frame, kinds)?;
            Ok(false)
        }
        Form::Unit
        | Form::Const { .. }
        | Form::Op { .. }
        | Form::Copy { .. }
        | Form::Move { .. }
        | Form::New { .. }
        | Form::Call { .. }
        | Form::CallThis { .. }
        | Form::Change { .. }
        | Form::Assert { .. }
        | Form::Disown { .. }
        | Form::Drop { .. }
        | Form::Return { .. }
        | Form::Revert { .. }
        | Form::BadRow => pass_straight(form, frame, kinds),
    }
}

// Terms one after another.
#[cycle(pass)]
#[tactic(auto, using(ob_silica::specs::TermsView::term_views))]
fn pass_terms(
    alloc: Global,
    terms: &[Term],
    frame: &StaticFrame<'_>,
    kinds: &mut Kinds,
) -> Result<bool, Memory>
    ensures ends { IfOk result (λ ends. ends ≡ terms_end (terms_of terms.now)) }
    ensures kinds { OnOk result (kinds_of kinds.new.slots
        ≡ kinds_after frame.now (terms_of terms.now) (kinds_of kinds.old.slots)) }
{
    let mut ends = false;
    for term in terms {
        let last = pass_form(alloc, &term.form, frame, kinds)?;
        ends = either(ends, last);
    }
    Ok(ends)
}

// The kinds at the head of a loop, by passing a turn.
fn pass_head(
    alloc: Global,
    first: &[Term],
    body: &[Term],
    frame: &StaticFrame<'_>,
    kinds: &mut Kinds,
) -> Result<(), Memory>
    ensures { OnOk result (kinds_of kinds.new.slots
        ≡ kinds_at_head frame.now (terms_of first.now) (terms_of body.now) (kinds_of kinds.old.slots)) }
{
    let mut turn = kinds.copy(alloc)?;
    pass_terms(alloc, first, frame, &mut turn)?;
    join_turn(alloc, body, frame, kinds, turn)
}

// The same, where the body doesn't end: asked slot by slot, which is cheaper in loops within loops, or else by passing a turn.
#[tactic(auto, using(crate::proofs::KindsLemmas::kinds_of_common))]
fn find_head(
    alloc: Global,
    first: &[Term],
    body: &[Term],
    frame: &StaticFrame<'_>,
    kinds: &mut Kinds,
) -> Result<(), Memory>
    requires { terms_end (terms_of body.now) ≡ false }
    ensures { OnOk result (kinds_of kinds.new.slots
        ≡ kinds_at_head frame.now (terms_of first.now) (terms_of body.now) (kinds_of kinds.old.slots)) }
{
    match ask_slots(alloc, first, body, frame, kinds.slots())? {
        Some(slots) => {
            *kinds = Kinds::of(slots);
            Ok(())
        }
        None => pass_head(alloc, first, body, frame, kinds),
    }
}

/// Turns the kinds before a loop with this first part and this body into those at its head: what is so before it and after one turn.
pub fn go_to_head(
    alloc: Global,
    first: &[Term],
    body: &[Term],
    frame: &StaticFrame<'_>,
    kinds: &mut Kinds,
) -> Result<(), Memory>
    ensures { OnOk result (kinds_of kinds.new.slots
        ≡ kinds_at_head frame.now (terms_of first.now) (terms_of body.now) (kinds_of kinds.old.slots)) }
{
    if terms_end(body) {
        Ok(())
    } else {
        find_head(alloc, first, body, frame, kinds)
    }
}
