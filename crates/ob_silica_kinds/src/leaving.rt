//! What is known of the slots that terms leave alone.
ghost use Rattle.std.specs.Prelude.{◌≡◌, None as Nothing};
ghost use Rattle.ob_silica.specs.TermsView.{form_of, terms_of};
ghost use Rattle.ob_silica_kinds.specs.Kinds.{kinds_of, with_kind};
ghost use Rattle.ob_silica_kinds.specs.Leaving.{left_by_form, left_by};

use crate::straight::slot_written;
use ob_base::Items;
use ob_silica::{Form, Term};
use ob_table::Kind;

// Nothing is known of the slot, if there is one.
#[tactic(auto, using(crate::proofs::KindsLemmas::knowing))]
fn forget(slots: &mut Items<Option<Kind>>, slot: Option<u8>)
    ensures { kinds_of slots.new ≡ with_kind slot Nothing (kinds_of slots.old) }
{
    if let Some(slot) = slot {
        let slot = usize::from(slot);
        if slot < slots.len() {
            slots.set(slot, None);
        }
    }
}

// A form.
#[cycle(leave)]
#[tactic(auto, using(ob_silica::specs::TermsView::term_views))]
fn leave_form(form: &Form, slots: &mut Items<Option<Kind>>)
    ensures { kinds_of slots.new ≡ left_by_form (form_of form.now) (kinds_of slots.old) }
{
    match form {
        Form::Test {
            then,
            otherwise,
            ..
        }
        | Form::If {
            then,
            otherwise,
            ..
        } => {
            leave_terms(then.as_slice(), slots);
            leave_terms(otherwise.as_slice(), slots);
        }
        Form::Loop { first, body, .. } => {
            leave_terms(first.as_slice(), slots);
            leave_terms(body.as_slice(), slots);
        }
        _ => forget(slots, slot_written(form)),
    }
}

/// Forgets the slots that terms set or end.
#[cycle(leave)]
pub(crate) fn leave_terms(terms: &[Term], slots: &mut Items<Option<Kind>>)
    ensures { kinds_of slots.new ≡ left_by (terms_of terms.now) (kinds_of slots.old) }
{
    for term in terms {
        leave_form(&term.form, slots);
    }
}
