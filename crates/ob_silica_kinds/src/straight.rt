//! Forms that have no branches: the slot that they set, and the kind of its value.
ghost use Rattle.std.specs.Prelude.{◌≡◌, OnOk, IfOk};
ghost use Rattle.ob_silica.specs.TermsView.{form_of};
ghost use Rattle.ob_silica_formed.specs.Holdings.{slot_of_place, slot_written, kind_written};
ghost use Rattle.ob_silica_kinds.specs.Kinds.{kinds_of, holding, nothing_held, with_kind, straight_ends};

use crate::frame::StaticFrame;
use crate::kinds::{Kinds, kind_of_constant, kind_of_operator};
use ob_base::Memory;
use ob_silica::{Form, Place};
use ob_table::Kind;

// The slot of a place, if it has one.
fn slot_of_place(place: Place) -> Option<u8>
    ensures { result ≡ slot_of_place place }
{
    match place {
        Place::This => Some(0),
        Place::Slot(slot) => Some(slot),
        Place::Field(_) => None,
    }
}

/// The slot that a form sets or ends, if there is one.
#[tactic(auto, using(ob_silica::specs::TermsView::term_views))]
pub(crate) fn slot_written(form: &Form) -> Option<u8>
    ensures { result ≡ slot_written (form_of form.now) }
{
    match form {
        Form::Const { slot, .. }
        | Form::Op { slot, .. }
        | Form::New { slot, .. }
        | Form::Drop { slot } => Some(*slot),
        Form::Copy { to, .. } | Form::Move { to, .. } => slot_of_place(*to),
        Form::Call { slot, .. } | Form::CallThis { slot, .. } => *slot,
        _ => None,
    }
}

/// The kind of what a form leaves in that slot, if it is known where nothing is known of slots.
#[tactic(auto, using(ob_silica::specs::TermsView::term_views))]
pub(crate) fn kind_made(form: &Form, frame: &StaticFrame<'_>) -> Option<Kind>
    ensures { result ≡ kind_written frame.now nothing_held (form_of form.now) }
{
    match form {
        Form::Const { value, .. } => Some(kind_of_constant(value)),
        Form::Op { operator, .. } => Some(kind_of_operator(*operator)),
        Form::Copy { from, .. } => frame.kind_at(from.place),
        Form::Move { contract, .. } => contract.map(Kind::Reference),
        Form::New { contract, .. } => Some(Kind::Reference(*contract)),
        Form::Call { contract, tx, .. } => frame.kind_of_result(*contract, *tx),
        Form::CallThis { tx, .. } => frame.kind_of_result(frame.here(), *tx),
        _ => None,
    }
}

// The kind of what a form leaves in that slot, if it is known.
#[tactic(auto, using(ob_silica::specs::TermsView::term_views))]
fn kind_written(form: &Form, frame: &StaticFrame<'_>, kinds: &Kinds) -> Option<Kind>
    ensures { result ≡ kind_written frame.now (holding (kinds_of kinds.now.slots)) (form_of form.now) }
{
    match form {
        Form::Copy { from, .. } => kinds.kind_at(frame, from.place),
        _ => kind_made(form, frame),
    }
}

// Whether nothing is reached after a form that has no branches.
#[tactic(auto, using(ob_silica::specs::TermsView::term_views))]
fn straight_ends(form: &Form) -> bool
    ensures { result ≡ straight_ends (form_of form.now) }
{
    match form {
        Form::Return { .. } | Form::Revert { .. } => true,
        _ => false,
    }
}

/// A form that has no branches and is no loop: the kind of the slot that it sets, and whether nothing is reached after it.
pub fn pass_straight(
    form: &Form,
    frame: &StaticFrame<'_>,
    kinds: &mut Kinds,
) -> Result<bool, Memory>
    ensures ends { IfOk result (λ ends. ends ≡ straight_ends (form_of form.now)) }
    ensures kinds { OnOk result (kinds_of kinds.new.slots ≡ with_kind (slot_written (form_of form.now))
        (kind_written frame.now (holding (kinds_of kinds.old.slots)) (form_of form.now)) (kinds_of kinds.old.slots)) }
{
    let slot = slot_written(form);
    let kind = kind_written(form, frame, kinds);
    kinds.put(slot, kind)?;
    Ok(straight_ends(form))
}
