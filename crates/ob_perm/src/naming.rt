//! States by name between a contract and its interface.
ghost use Rattle.std.specs.Prelude.{◌≡◌, ◌<◌};
ghost use Rattle.ob_perm.specs.Naming.{IsNaming, seen, states_for_interface, states_for_contract};
ghost use Rattle.ob_perm.specs.Naming.{for_interface, for_contract};
ghost use Rattle.ob_perm.specs.Masks.{states_of, permission_of, IsCanonical};

use crate::permission::owned;
use crate::states::{NUMBERS, all_states, bit, has, intersection, union};
use ob_base::{Mode, NO_STATE_BIT, OTHER_STATE_BIT, Perm, StateId};

// As which state the interface sees one of the contract, or no state.
fn seen(names: &[Option<StateId>], number: u8) -> u8
    requires { IsNaming names.now }
    ensures is { result ≡ seen names.now number }
    ensures small { result < 34 }
{
    if number == NO_STATE_BIT {
        return NO_STATE_BIT;
    }
    match names.get(number as usize) {
        Some(Some(state)) => state.0,
        _ => OTHER_STATE_BIT,
    }
}

// The states of the contract, said for the interface.
fn states_for_interface(states: u64, names: &[Option<StateId>]) -> u64
    requires { IsNaming names.now }
    ensures { states_of result ≡ states_for_interface names.now (states_of states) }
{
    let mut said = 0;
    for number in 0..NUMBERS {
        if has(states, number) {
            said = union(said, bit(seen(names, number)));
        }
    }
    said
}

// The states of the interface, said for the contract.
fn states_for_contract(states: u64, names: &[Option<StateId>]) -> u64
    requires { IsNaming names.now }
    ensures { states_of result ≡ states_for_contract names.now (states_of states) }
{
    let mut said = 0;
    for number in 0..NUMBERS {
        if has(states, seen(names, number)) {
            said = union(said, bit(number));
        }
    }
    intersection(all_states(names.len() as u8), said)
}

/// A permission on a contract, said for its interface. `names` has for each state of the contract, in order, the
/// interface's state of that name, if it has one.
pub fn for_interface(p: Perm, names: &[Option<StateId>]) -> Perm
    requires { IsNaming names.now }
    ensures is { permission_of result ≡ for_interface names.now (permission_of p) }
    ensures canonical { IsCanonical p → IsCanonical result }
{
    match p.mode {
        Mode::Owned => owned(states_for_interface(p.states, names)),
        Mode::Shared | Mode::Unowned => p,
    }
}

/// A permission on an interface, said for a contract that implements it. `names` is as in `for_interface`.
pub fn for_contract(p: Perm, names: &[Option<StateId>]) -> Perm
    requires { IsNaming names.now }
    ensures is { permission_of result ≡ for_contract names.now (permission_of p) }
    ensures canonical { IsCanonical p → IsCanonical result }
{
    match p.mode {
        Mode::Owned => owned(states_for_contract(p.states, names)),
        Mode::Shared | Mode::Unowned => p,
    }
}
