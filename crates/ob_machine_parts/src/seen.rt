//! As which state a contract or interface sees the state of an object.
ghost use Rattle.std.specs.Prelude.{◌≡◌};
ghost use Rattle.ob_code.specs.Code.{contract_code};
ghost use Rattle.ob_heap.specs.Plain.{object_of};
ghost use Rattle.ob_code_table.specs.Images.{bits_of, state_seen_by, is_in_state_of, named_between};
ghost use Rattle.ob_machine_parts.specs.Naming.{named_as};
ghost use Rattle.ob_perm.specs.Masks.{states_of};
ghost use Rattle.ob_table_spec.specs.Names.{number_of};

use ob_base::{ContractId, NO_STATE_BIT, OTHER_STATE_BIT, StateId};
use ob_code::{CodeText, ContractCode, Image, contract_code};
use ob_code_table::{bits, has_bit, state_number};
use ob_heap::Object;

// The place of the first of these names that is the same.
#[tactic(auto, using(crate::proofs::NamesLemmas::numbering))]
fn place_of_name(name: &[u8], names: &[CodeText]) -> Option<usize>
    ensures { result ≡ number_of name.now names.now }
{
    for (place, other) in names.iter().enumerate() {
        if name == other.as_bytes() {
            return Some(place);
        }
    }
    None
}

// What a contract or interface calls the state of a number of another one.
fn named_as(declared: &ContractCode, own: &ContractCode, number: u8) -> usize
    ensures { result ≡ named_as declared.now own.now number }
{
    if number == NO_STATE_BIT {
        return NO_STATE_BIT as usize;
    }
    match own.states.get(number as usize) {
        Some(name) => match place_of_name(name.as_bytes(), declared.states.as_slice()) {
            Some(place) => place,
            None => OTHER_STATE_BIT as usize,
        },
        None => OTHER_STATE_BIT as usize,
    }
}

// As which state the contract or interface of a number sees a state of another contract.
fn named_between(code: &Image, declared: ContractId, own: ContractId, number: u8) -> usize
    ensures { result ≡ named_between (contract_code code.now declared) (contract_code code.now own) number }
{
    match (contract_code(code, declared), contract_code(code, own)) {
        (Some(declared), Some(own)) => named_as(declared, own, number),
        _ => OTHER_STATE_BIT as usize,
    }
}

// As which state the contract or interface of a number sees an object's state.
fn state_seen(code: &Image, declared: ContractId, object: &Object) -> usize
    ensures { result ≡ state_seen_by code.now declared (object_of object.now) }
{
    let number = state_number(object.state);
    if declared.0 == object.contract.0 {
        return number as usize;
    }
    named_between(code, declared, object.contract, number)
}

/// Whether an object is in a state of a contract or interface.
pub fn is_in_state(code: &Image, declared: ContractId, state: StateId, object: &Object) -> bool
    ensures { result ≡ is_in_state_of code.now declared state (object_of object.now) }
{
    state_seen(code, declared, object) == state.0 as usize
}

/// Whether an object is in one of these states of a contract or interface, which are a set of bits.
pub fn is_in_states(code: &Image, declared: ContractId, states: i64, object: &Object) -> bool
    ensures { result ≡ states_of (bits_of states) (state_seen_by code.now declared (object_of object.now)) }
{
    has_bit(bits(states), state_seen(code, declared, object))
}
