//! What a reference may do with its object.
ghost use Rattle.std.specs.Prelude.{◌≡◌, ◌<◌, ◌≤◌, ◌↔◌, ◌&&◌, IfOk, IsErr, IsTrue};
ghost use Rattle.std.specs.Result.{result_err};
ghost use Rattle.ob_perm.specs.Permissions.{owned, shared, unowned, fit_fault, fault_number, matches};
ghost use Rattle.ob_perm.specs.Permissions.{kept, joined, loses_owner, permission_within};
ghost use Rattle.ob_perm.specs.Permissions.{permission_without, possible};
ghost use Rattle.ob_perm.specs.Masks.{states_of, permission_of, IsCanonical};

use crate::states::{all_states, bit, difference, intersection, subset, union};
use ob_base::{Mode, NOT_OWNING, NOT_SHARED, Perm, StateId, WRONG_STATE};

/// Why a reference doesn't serve where another permission is wanted.
#[derive(Clone, Copy)]
pub enum FitFault {
    /// An owner is wanted, and the reference is none.
    NotOwning,
    /// An owner is wanted whose object is in one of certain states, and this one's may be in another.
    WrongState,
    /// A shared reference is wanted, and this one has no say.
    NotShared,
}

impl FitFault {
    /// The number of the fault of a program's text.
    pub fn number(self) -> u16
        ensures { result ≡ fault_number self }
    {
        match self {
            FitFault::NotOwning => NOT_OWNING,
            FitFault::WrongState => WRONG_STATE,
            FitFault::NotShared => NOT_SHARED,
        }
    }
}

/// One branch holds the object as its owner and the other doesn't, so an asset would be lost after them.
#[derive(Clone, Copy)]
pub struct Loses;

/// The permission of an owner whose object is in one of these states.
pub fn owned(states: u64) -> Perm
    ensures is { permission_of result ≡ owned (states_of states) }
    ensures canonical { IsCanonical result }
{
    Perm {
        mode: Mode::Owned,
        states,
    }
}

/// The permission of one of those that share an object.
pub fn shared() -> Perm
    ensures is { permission_of result ≡ shared }
    ensures canonical { IsCanonical result }
{
    Perm {
        mode: Mode::Shared,
        states: 0,
    }
}

/// The permission of one that has no say.
pub fn unowned() -> Perm
    ensures is { permission_of result ≡ unowned }
    ensures canonical { IsCanonical result }
{
    Perm {
        mode: Mode::Unowned,
        states: 0,
    }
}

/// Whether a reference serves where another permission is wanted, and else why not.
pub fn fits(p: Perm, want: Perm) -> Result<(), FitFault>
    ensures { result_err result ≡ fit_fault (permission_of p) (permission_of want) }
{
    match (p.mode, want.mode) {
        (_, Mode::Unowned) => Ok(()),
        (Mode::Unowned, Mode::Shared) => Err(FitFault::NotShared),
        (_, Mode::Shared) => Ok(()),
        (Mode::Owned, Mode::Owned) => {
            if subset(p.states, want.states) {
                Ok(())
            } else {
                Err(FitFault::WrongState)
            }
        }
        (_, Mode::Owned) => Err(FitFault::NotOwning),
    }
}

/// Whether a reference is held as another permission says: in the same way, and with no other states.
pub fn matches(p: Perm, want: Perm) -> bool
    ensures { result ≡ matches (permission_of p) (permission_of want) }
{
    match (p.mode, want.mode) {
        (Mode::Owned, Mode::Owned) => subset(p.states, want.states),
        (Mode::Shared, Mode::Shared) | (Mode::Unowned, Mode::Unowned) => true,
        _ => false,
    }
}

/// What the giver keeps of a permission, given where another is wanted.
pub fn give(p: Perm, want: Perm) -> Perm
    ensures is { permission_of result ≡ kept (permission_of p) (permission_of want) }
    ensures canonical { IsCanonical p → IsCanonical result }
{
    match want.mode {
        Mode::Owned => unowned(),
        Mode::Shared => shared(),
        Mode::Unowned => p,
    }
}

/// What is held after two branches. `Loses` exactly where the object is an asset, and one branch holds it as its owner
/// and the other doesn't.
pub fn join(a: Perm, b: Perm, asset: bool) -> Result<Perm, Loses>
    ensures is { IfOk result (λ p. permission_of p ≡ joined (permission_of a) (permission_of b)) }
    ensures canonical { IfOk result IsCanonical }
    ensures loses { IsErr result ↔ IsTrue (asset && loses_owner (permission_of a) (permission_of b)) }
{
    match (a.mode, b.mode) {
        (Mode::Owned, Mode::Owned) => Ok(owned(union(a.states, b.states))),
        (Mode::Shared, Mode::Shared) => Ok(shared()),
        (Mode::Owned, _) | (_, Mode::Owned) if asset => Err(Loses),
        _ => Ok(unowned()),
    }
}

/// The permission cut to one state.
pub fn within(p: Perm, state: StateId) -> Perm
    requires { state.0 < 32 }
    ensures is { permission_of result ≡ permission_within (permission_of p) state.0 }
    ensures canonical { IsCanonical p → IsCanonical result }
{
    match p.mode {
        Mode::Owned => owned(intersection(p.states, bit(state.0))),
        Mode::Shared | Mode::Unowned => p,
    }
}

/// The permission with one state taken out.
pub fn without(p: Perm, state: StateId) -> Perm
    requires { state.0 < 32 }
    ensures is { permission_of result ≡ permission_without (permission_of p) state.0 }
    ensures canonical { IsCanonical p → IsCanonical result }
{
    match p.mode {
        Mode::Owned => owned(difference(p.states, bit(state.0))),
        Mode::Shared | Mode::Unowned => p,
    }
}

/// The states in which the object may be, of a contract that has so many: those that the owner knows of, or else any.
pub fn possible(p: Perm, count: u8) -> u64
    requires { count ≤ 32 }
    ensures { states_of result ≡ possible count (permission_of p) }
{
    match p.mode {
        Mode::Owned => p.states,
        Mode::Shared | Mode::Unowned => all_states(count),
    }
}
