//! Sets of states, each as a number whose bit i says whether state i is in it.
ghost use Rattle.std.specs.Prelude.{◌≡◌, ◌<◌, ◌≤◌, nat_lt};
ghost use Rattle.ob_perm.specs.States.{only, union, intersection, difference, subset, meets};
ghost use Rattle.ob_perm.specs.States.{all_states, interface_states, anywhere};
ghost use Rattle.ob_perm.specs.Masks.{states_of};

use ob_base::{NO_STATE_BIT, OTHER_STATE_BIT, StateId};

// How many numbers there are for states, with those of no state and of any state that an interface doesn't name.
pub(crate) const NUMBERS: u8 = OTHER_STATE_BIT + 1;

// The bits of these numbers.
const ALL_BITS: u64 = (1 << NUMBERS) - 1;

// The set of what has this number.
pub(crate) fn bit(number: u8) -> u64
    requires { number < 64 }
    ensures { states_of result ≡ only number }
{
    1 << number
}

// Whether what has this number is in the set.
pub(crate) fn has(states: u64, number: u8) -> bool
    requires { number < 64 }
    ensures { result ≡ states_of states number }
{
    (states >> number) & 1 == 1
}

// The set of what has a number below this one.
fn below(number: u8) -> u64
    requires { number < 64 }
    ensures { states_of result ≡ (λ i. nat_lt i number) }
{
    (1 << number) - 1
}

/// The set of one state of a contract.
pub fn only(state: StateId) -> u64
    requires { state.0 < 32 }
    ensures { states_of result ≡ only state.0 }
{
    bit(state.0)
}

/// Whether a state of a contract is in the set.
pub fn contains(states: u64, state: StateId) -> bool
    requires { state.0 < 32 }
    ensures { result ≡ states_of states state.0 }
{
    has(states, state.0)
}

/// The states that are in one of the two sets.
pub fn union(a: u64, b: u64) -> u64
    ensures { states_of result ≡ union (states_of a) (states_of b) }
{
    a | b
}

// The states that are in both sets.
pub(crate) fn intersection(a: u64, b: u64) -> u64
    ensures { states_of result ≡ intersection (states_of a) (states_of b) }
{
    a & b
}

// The states of the first set that aren't in the second.
pub(crate) fn difference(a: u64, b: u64) -> u64
    ensures { states_of result ≡ difference (states_of a) (states_of b) }
{
    a & !b
}

/// Whether each state of the first set is in the second.
pub fn subset(a: u64, b: u64) -> bool
    ensures { result ≡ subset (states_of a) (states_of b) }
{
    difference(a, b) & ALL_BITS == 0
}

/// Whether some state is in both sets.
pub fn meets(a: u64, b: u64) -> bool
    ensures { result ≡ meets (states_of a) (states_of b) }
{
    intersection(a, b) & ALL_BITS != 0
}

/// The states of a contract that has so many: no state alone where it has none.
pub fn all_states(count: u8) -> u64
    requires { count ≤ 32 }
    ensures { states_of result ≡ all_states count }
{
    match count {
        0 => bit(NO_STATE_BIT),
        _ => below(count),
    }
}

/// The states in which an object may be that is known by an interface which names so many: these and any other, and no
/// state too where it names none.
pub fn interface_states(count: u8) -> u64
    requires { count ≤ 32 }
    ensures { states_of result ≡ interface_states count }
{
    union(all_states(count), bit(OTHER_STATE_BIT))
}

/// Every state of a contract, and no state: where a field at the top of a contract is available.
pub fn anywhere() -> u64
    ensures { states_of result ≡ anywhere }
{
    below(OTHER_STATE_BIT)
}
