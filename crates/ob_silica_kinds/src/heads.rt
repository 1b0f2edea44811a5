//! What is known at the head of a loop, asked slot by slot.
ghost use Rattle.std.specs.Prelude.{◌≡◌, IfOk, IfSome};
ghost use Rattle.ob_silica.specs.TermsView.{terms_of};
ghost use Rattle.ob_silica_formed.specs.Holdings.{common_kind};
ghost use Rattle.ob_silica_kinds.specs.Kinds.{kinds_of, common_list, kinds_turned};
ghost use Rattle.ob_silica_kinds.specs.Asking.{told};
ghost use Rattle.ob_silica_kinds.specs.Leaving.{left_by};

use crate::asking::{Holds, ask_turn};
use crate::frame::StaticFrame;
use crate::kinds::{has_kind, kind_in};
use crate::leaving::leave_terms;
use ob_base::{Items, Memory};
use ob_silica::Term;
use ob_table::Kind;
use std::alloc::Global;

// Of how many slots a loop is asked at most: for more, passing a turn costs less.
const MOST_ASKED: usize = 12;

// Of how many slots something is known.
fn count_known(slots: &Items<Option<Kind>>) -> usize {
    slots
        .as_slice()
        .iter()
        .filter(|kind| kind.is_some())
        .count()
}

// Whether few of the slots that are known before a loop aren't left alone by it.
fn are_few(slots: &Items<Option<Kind>>, left: &Items<Option<Kind>>) -> bool {
    count_known(slots).saturating_sub(count_known(left)) <= MOST_ASKED
}

// What is known of the slots that a loop leaves alone.
fn left_alone(
    alloc: Global,
    first: &[Term],
    body: &[Term],
    slots: &Items<Option<Kind>>,
) -> Result<Items<Option<Kind>>, Memory>
    ensures { IfOk result (λ left. kinds_of left ≡ left_by (terms_of body.now) (left_by (terms_of first.now) (kinds_of slots.now))) }
{
    let mut left = Items::from_slice(alloc, slots.as_slice())?;
    leave_terms(first, &mut left);
    leave_terms(body, &mut left);
    Ok(left)
}

// What is known of a slot at the head, if that is clear, where a value of this kind is known before the loop and this is so after a turn.
fn told(kind: Kind, holds: Holds, slots: &Items<Option<Kind>>) -> Option<Option<Kind>>
    ensures { result ≡ told kind holds (kinds_of slots.now) }
{
    match holds {
        Holds::Always => Some(Some(kind)),
        Holds::Never => Some(None),
        Holds::As(slot) => {
            if has_kind(kind, kind_in(slots, slot)) {
                Some(Some(kind))
            } else {
                Some(None)
            }
        }
        Holds::Unclear => None,
    }
}

// The same of a slot, from what is known before the loop.
fn ask_slot(
    first: &[Term],
    body: &[Term],
    frame: &StaticFrame<'_>,
    slots: &Items<Option<Kind>>,
    left: &Items<Option<Kind>>,
    slot: usize,
) -> Option<Option<Kind>>
    requires { kinds_of left.now ≡ left_by (terms_of body.now) (left_by (terms_of first.now) (kinds_of slots.now)) }
    ensures { IfSome result (λ known. known ≡ common_kind (kinds_of slots.now slot)
        (kinds_turned frame.now (terms_of first.now) (terms_of body.now) (kinds_of slots.now) slot)) }
{
    match kind_in(slots, slot) {
        Some(kind) => told(kind, ask_turn(first, body, left, frame, kind, slot), slots),
        None => Some(None),
    }
}

/// The kinds at the head of a loop with this first part and this body, which doesn't end, from those before it; `None` where one of
/// them is unclear, or too many are known.
#[tactic(auto, using(crate::proofs::KindsLemmas::common_list_end))]
pub(crate) fn ask_slots(
    alloc: Global,
    first: &[Term],
    body: &[Term],
    frame: &StaticFrame<'_>,
    slots: &Items<Option<Kind>>,
) -> Result<Option<Items<Option<Kind>>>, Memory>
    ensures { IfOk result (λ found. IfSome found (λ kinds. kinds ≡ common_list slots.now
        (kinds_turned frame.now (terms_of first.now) (terms_of body.now) (kinds_of slots.now)) 0)) }
{
    let left = left_alone(alloc, first, body, slots)?;
    if !are_few(slots, &left) {
        return Ok(None);
    }
    let mut kinds = Items::new(alloc);
    for slot in 0..slots.len() {
        match ask_slot(first, body, frame, slots, &left, slot) {
            Some(kind) => kinds.push(kind)?,
            None => return Ok(None),
        }
    }
    Ok(Some(kinds))
}
