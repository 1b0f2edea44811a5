//! Whether a slot holds a value of a kind after terms, asked from the last of them back.
ghost use Rattle.std.specs.Prelude.{◌≡◌, false};
ghost use Rattle.ob_silica.specs.TermsView.{form_of, terms_of};
ghost use Rattle.ob_silica_formed.specs.Holdings.{terms_end};
ghost use Rattle.ob_silica_kinds.specs.Kinds.{kinds_of, has_kind};
ghost use Rattle.ob_silica_kinds.specs.Asking.{settled, both, is_same, joined_holds, at_place, written_holds, straight_holds};
ghost use Rattle.ob_silica_kinds.specs.Asking.{form_holds, terms_hold, turn_holds};
ghost use Rattle.ob_silica_kinds.specs.declared.asking.Holds.TheVariants.{As};

use crate::ends::terms_end;
use crate::frame::StaticFrame;
use crate::kinds::{has_kind, kind_in};
use crate::straight::{kind_made, slot_written};
use ob_base::Items;
use ob_silica::{Form, Place, Term};
use ob_table::Kind;

/// When a slot holds a value of a kind after terms.
#[derive(Clone, Copy)]
pub enum Holds {
    /// Whatever slots hold before them.
    Always,
    /// Never.
    Never,
    /// Where this slot holds one before them.
    As(usize),
    /// That depends on more than one slot.
    Unclear,
}

// What is so on each way or on none.
fn settled(always: bool) -> Holds
    ensures { result ≡ settled always }
{
    if always { Holds::Always } else { Holds::Never }
}

// When both hold.
fn both(a: Holds, b: Holds) -> Holds
    ensures { result ≡ both a b }
{
    match (a, b) {
        (Holds::Always, _) => b,
        (Holds::Never, _) | (Holds::As(_) | Holds::Unclear, Holds::Never) => Holds::Never,
        (Holds::As(_), Holds::Always) => a,
        (Holds::As(first), Holds::As(second)) => {
            if first == second { a } else { Holds::Unclear }
        }
        (Holds::As(_), Holds::Unclear) | (Holds::Unclear, _) => Holds::Unclear,
    }
}

// Whether two are the same.
fn is_same(a: Holds, b: Holds) -> bool
    ensures { result ≡ is_same a b }
{
    match (a, b) {
        (Holds::Always, Holds::Always)
        | (Holds::Never, Holds::Never)
        | (Holds::Unclear, Holds::Unclear) => true,
        (Holds::As(first), Holds::As(second)) => first == second,
        _ => false,
    }
}

// After two branches that differ, from what is so after each of them.
fn joined_apart(first: &[Term], second: &[Term], a: Holds, b: Holds) -> Holds
    ensures { result ≡ joined_holds (terms_end (terms_of first.now)) (terms_end (terms_of second.now)) a b }
{
    if terms_end(first) {
        b
    } else if terms_end(second) {
        a
    } else {
        both(a, b)
    }
}

// After two branches. Where the same is so after both, no matter which of them ends.
#[tactic(auto, using(crate::proofs::AskingLemmas::joined_same))]
fn joined(first: &[Term], second: &[Term], a: Holds, b: Holds) -> Holds
    ensures { result ≡ joined_holds (terms_end (terms_of first.now)) (terms_end (terms_of second.now)) a b }
{
    if is_same(a, b) {
        a
    } else {
        joined_apart(first, second, a, b)
    }
}

// At the head of a loop with this body, from what is so after a turn.
fn at_head(body: &[Term], slot: usize, turned: Holds) -> Holds
    ensures { result ≡ joined_holds false (terms_end (terms_of body.now)) (As slot) turned }
{
    joined(&[], body, Holds::As(slot), turned)
}

// Where a value at this place is of the kind.
fn at_place(frame: &StaticFrame<'_>, kind: Kind, place: Place) -> Holds
    ensures { result ≡ at_place frame.now kind place }
{
    match place {
        Place::Slot(slot) => Holds::As(usize::from(slot)),
        Place::This | Place::Field(_) => settled(has_kind(kind, frame.kind_at(place))),
    }
}

// Where what a form without branches leaves in the slot that it sets is of the kind.
#[tactic(auto, using(ob_silica::specs::TermsView::term_views))]
fn ask_written(form: &Form, frame: &StaticFrame<'_>, kind: Kind) -> Holds
    ensures { result ≡ written_holds frame.now kind (form_of form.now) }
{
    match form {
        Form::Copy { from, .. } => at_place(frame, kind, from.place),
        _ => settled(has_kind(kind, kind_made(form, frame))),
    }
}

// After a form without branches.
fn ask_straight(form: &Form, frame: &StaticFrame<'_>, kind: Kind, slot: usize) -> Holds
    ensures { result ≡ straight_holds frame.now kind (form_of form.now) slot }
{
    match slot_written(form) {
        Some(written) => {
            if slot == usize::from(written) {
                ask_written(form, frame, kind)
            } else {
                Holds::As(slot)
            }
        }
        None => Holds::As(slot),
    }
}

// After a form, where slots whose kinds are left are set by no form.
#[cycle(ask)]
#[tactic(auto, using(ob_silica::specs::TermsView::term_views))]
fn ask_form(
    form: &Form,
    left: &Items<Option<Kind>>,
    frame: &StaticFrame<'_>,
    kind: Kind,
    slot: usize,
) -> Holds
    ensures { result ≡ form_holds (kinds_of left.now) frame.now kind (form_of form.now) slot }
{
    match form {
        Form::Test {
            then,
            otherwise,
            ..
        }
        | Form::If {
            then,
            otherwise,
            ..
        } => {
            let (then, otherwise) = (then.as_slice(), otherwise.as_slice());
            let first = ask_terms(then, left, frame, kind, slot);
            let second = ask_terms(otherwise, left, frame, kind, slot);
            joined(then, otherwise, first, second)
        }
        Form::Loop { first, body, .. } => {
            let (first, body) = (first.as_slice(), body.as_slice());
            match ask_terms(first, left, frame, kind, slot) {
                Holds::As(slot) => {
                    let turned = match ask_terms(body, left, frame, kind, slot) {
                        Holds::As(slot) => ask_terms(first, left, frame, kind, slot),
                        other => other,
                    };
                    at_head(body, slot, turned)
                }
                other => other,
            }
        }
        _ => ask_straight(form, frame, kind, slot),
    }
}

// After terms.
#[cycle(ask)]
fn ask_terms(
    terms: &[Term],
    left: &Items<Option<Kind>>,
    frame: &StaticFrame<'_>,
    kind: Kind,
    slot: usize,
) -> Holds
    ensures { result ≡ terms_hold (kinds_of left.now) frame.now kind (terms_of terms.now) slot }
{
    if kind_in(left, slot).is_some() {
        return Holds::As(slot);
    }
    let mut holds = Holds::As(slot);
    let mut index = terms.len();
    while index > 0 {
        index -= 1;
        let form = &terms[index].form;
        if let Holds::As(slot) = holds {
            holds = ask_form(form, left, frame, kind, slot);
        }
    }
    holds
}

/// When a slot holds a value of a kind after one turn of a loop with this first part and this body, where
/// slots whose kinds are left are set by no form of theirs.
pub(crate) fn ask_turn(
    first: &[Term],
    body: &[Term],
    left: &Items<Option<Kind>>,
    frame: &StaticFrame<'_>,
    kind: Kind,
    slot: usize,
) -> Holds
    ensures { result ≡ turn_holds (kinds_of left.now) frame.now kind (terms_of first.now) (terms_of body.now) slot }
{
    match ask_terms(body, left, frame, kind, slot) {
        Holds::As(slot) => ask_terms(first, left, frame, kind, slot),
        other => other,
    }
}
