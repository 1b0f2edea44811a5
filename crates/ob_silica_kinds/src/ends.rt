//! Whether each way through terms ends.
ghost use Rattle.std.specs.Prelude.{◌≡◌};
ghost use Rattle.ob_silica.specs.TermsView.{form_of, terms_of};
ghost use Rattle.ob_silica_formed.specs.Holdings.{form_ends, terms_end};

use ob_silica::{Form, Term};

// Whether nothing is reached after a form.
#[cycle(ends)]
#[tactic(auto, using(ob_silica::specs::TermsView::term_views))]
fn form_ends(form: &Form) -> bool
    ensures { result ≡ form_ends (form_of form.now) }
{
    match form {
        Form::Test {
            then,
            otherwise,
            ..
        }
        | Form::If {
            then,
            otherwise,
            ..
        } => { terms_end(then.as_slice()) && terms_end(otherwise.as_slice()) }
        Form::Return { .. } | Form::Revert { .. } => true,
        _ => false,
    }
}

/// Whether nothing is reached after terms.
#[cycle(ends)]
pub(crate) fn terms_end(terms: &[Term]) -> bool
    ensures { result ≡ terms_end (terms_of terms.now) }
{
    for term in terms {
        if form_ends(&term.form) {
            return true;
        }
    }
    false
}
