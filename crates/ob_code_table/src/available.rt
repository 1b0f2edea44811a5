//! The states in which a field is available.
ghost use Rattle.std.specs.Prelude.{◌≡◌};
ghost use Rattle.ob_heap_spec.specs.Objects.{state_number};
ghost use Rattle.ob_code_table.specs.Images.{bits_of, is_available_in};
ghost use Rattle.ob_perm.specs.Masks.{states_of};

use ob_base::{NO_STATE_BIT, StateId};
use ob_code::FieldCode;

/// The number whose bits are those of a number with a sign.
pub fn bits(number: i64) -> u64
    ensures { result ≡ bits_of number }
{
    if number < 0 {
        u64::MAX - (-(number + 1)) as u64
    } else {
        number as u64
    }
}

/// Whether a bit is in a set of states, which is a word of 64 bits.
#[tactic(auto, unfolding(ob_perm::specs::Masks::states_of))]
pub fn has_bit(set: u64, number: usize) -> bool
    ensures { result ≡ states_of set number }
{
    if number >= 64 {
        return false;
    }
    (set >> number) & 1 == 1
}

/// The number of a state, or that of no state.
pub fn state_number(state: Option<StateId>) -> u8
    ensures { result ≡ state_number state }
{
    match state {
        Some(state) => state.0,
        None => NO_STATE_BIT,
    }
}

/// Whether a field is available in a state.
pub fn is_available_in(state: Option<StateId>, field: &FieldCode) -> bool
    ensures { result ≡ is_available_in state field.now }
{
    has_bit(bits(field.available), state_number(state) as usize)
}
