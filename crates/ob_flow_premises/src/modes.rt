//! How a permission is held, and what is known.
ghost use Rattle.std.specs.Prelude.{◌≡◌, [], option_map, IfOk};
ghost use Rattle.ob_perm.specs.Permissions.{owns, is_shared, is_unowned};
ghost use Rattle.ob_perm.specs.Masks.{permission_of};
ghost use Rattle.ob_silica_places.specs.Places.{slot};
ghost use Rattle.ob_flow_spec.specs.Contexts.{is_held_as, is_owned_asset};
ghost use Rattle.ob_flow_context.specs.View.{known_of, known_at, context_of};

use ob_base::{Items, Memory, Mode, Perm};
use ob_flow_context::{BodyFrame, Context, Known};
use ob_perm::matches;
use std::alloc::Global;

/// Whether it is the owner's.
pub fn is_owner(permission: Perm) -> bool
    ensures { result ≡ owns (permission_of permission) }
{
    permission.mode == Mode::Owned
}

/// Whether it is that of one of those that share the object.
pub(crate) fn is_shared(permission: Perm) -> bool
    ensures { result ≡ is_shared (permission_of permission) }
{
    permission.mode == Mode::Shared
}

/// Whether it is that of one that has no say.
pub fn is_unowned(permission: Perm) -> bool
    ensures { result ≡ is_unowned (permission_of permission) }
{
    permission.mode == Mode::Unowned
}

/// A list with room for what is known of this many places, of none of which anything is known yet.
pub(crate) fn room_for(alloc: Global, count: usize) -> Result<Items<Option<Known>>, Memory>
    ensures { IfOk result (λ known. known ≡ []) }
{
    Ok(Items::from_vec(Vec::with_capacity(alloc, count)?))
}

/// What is known of the place of this number; nothing is of one past the end.
#[tactic(auto, using(crate::proofs::JoinLemmas::known_here, crate::proofs::JoinLemmas::known_past))]
pub(crate) fn known_at(known: &[Option<Known>], number: usize) -> Option<Known>
    ensures { option_map known_of result ≡ known_at known.now number }
{
    if number < known.len() {
        known[number]
    } else {
        None
    }
}

/// What is known of the slot of this number.
#[tactic(auto, using(ob_flow_context::proofs::KnownLemmas::knowing))]
pub(crate) fn slot_known(context: &Context, number: usize) -> Option<Known>
    ensures { option_map known_of result ≡ context_of context.now (slot number) }
{
    known_at(context.slots(), number)
}

/// Whether what is known matches a permission.
pub(crate) fn is_held(known: Option<Known>, permission: Perm) -> bool
    ensures { result ≡ is_held_as (option_map known_of known) (permission_of permission) }
{
    match known {
        Some(known) => matches(known.permission, permission),
        None => false,
    }
}

/// Whether something is known to own an asset.
pub(crate) fn is_owned_asset(frame: &BodyFrame<'_>, known: Option<Known>) -> bool
    ensures { result ≡ is_owned_asset frame.now.table (option_map known_of known) }
{
    match known {
        Some(known) => is_owner(known.permission) && frame.is_asset(known.kind),
        None => false,
    }
}
