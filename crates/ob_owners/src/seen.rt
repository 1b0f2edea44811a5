//! In which states of a contract or interface an object is, and whether it may stand where one of them is declared.
ghost use Rattle.std.specs.Prelude.{◌≡◌, position};
ghost use Rattle.ob_heap.specs.Plain.{object_of};
ghost use Rattle.ob_heap_spec.specs.Objects.{seen_state, seen_between, is_in_states};
ghost use Rattle.ob_code_table.specs.ImageTables.{contract_of_code, perm_of_code, table_of_image};
ghost use Rattle.ob_perm.specs.Naming.{seen};
ghost use Rattle.ob_rest_spec.specs.Failing.{is_asset};
ghost use Rattle.ob_table.specs.Tables.{contract_at};
ghost use Rattle.ob_table.specs.declared.seen.Kind.TheVariants.{Reference};
ghost use Rattle.ob_table_spec.specs.Conditions.{naming};
ghost use Rattle.ob_table_spec.specs.Names.{same};
ghost use Rattle.ob_table_spec.specs.WellFormed.{serves_as, is_implemented};

use ob_base::{ContractId, NO_STATE_BIT, OTHER_STATE_BIT};
use ob_code::{CodeText, ContractCode, Image, PermCode};
use ob_code_table::{bits, has_bit, state_number};
use ob_heap::Object;

// The number of the bit that marks an asset.
const ASSET_BIT: usize = 0;

// Whether two names are the same.
fn is_same(name: &[u8], other: &CodeText) -> bool
    ensures { result ≡ same name.now other.now }
{
    name == other.as_bytes()
}

// The place of the first of these names that is the same.
fn place_of_name(name: &[u8], names: &[CodeText]) -> Option<usize>
    ensures { result ≡ position (same name.now) names.now }
{
    names.iter().position(|other| is_same(name, other))
}

// What a contract or interface calls the state of a number of another one.
fn seen(declared: &ContractCode, own: &ContractCode, number: u8) -> usize
    ensures { result ≡ seen (naming (contract_of_code declared.now) (contract_of_code own.now)) number }
{
    if number == NO_STATE_BIT {
        return NO_STATE_BIT as usize;
    }
    match own.states.get(number as usize) {
        Some(name) => match place_of_name(name.as_bytes(), declared.states.as_slice()) {
            Some(place) => place,
            None => OTHER_STATE_BIT as usize,
        },
        None => OTHER_STATE_BIT as usize,
    }
}

// As which state the contract or interface of a number sees a state of another contract.
fn seen_between(code: &Image, declared: ContractId, own: ContractId, number: u8) -> usize
    ensures { result ≡ seen_between (contract_at (table_of_image code.now) declared) (contract_at (table_of_image code.now) own) number }
{
    let declared = code.contracts.get(declared.0 as usize);
    let own = code.contracts.get(own.0 as usize);
    match (declared, own) {
        (Some(declared), Some(own)) => seen(declared, own, number),
        _ => OTHER_STATE_BIT as usize,
    }
}

// As which state the contract or interface of a number sees an object's state.
fn seen_state(code: &Image, declared: ContractId, object: &Object) -> usize
    ensures { result ≡ seen_state (table_of_image code.now) declared (object_of object.now) }
{
    let number = state_number(object.state);
    if declared.0 == object.contract.0 {
        return number as usize;
    }
    seen_between(code, declared, object.contract, number)
}

/// Whether an object is in one of the states of a permission on a contract or interface.
pub fn is_in_states(code: &Image, declared: ContractId, perm: PermCode, object: &Object) -> bool
    ensures { result ≡ is_in_states (table_of_image code.now) declared (perm_of_code perm) (object_of object.now) }
{
    has_bit(bits(perm.states), seen_state(code, declared, object))
}

// Whether the contract of the first number implements the interface of the second.
fn is_implemented(code: &Image, contract: ContractId, interface: ContractId) -> bool
    ensures { result ≡ is_implemented (table_of_image code.now) contract interface }
{
    match code.contracts.get(contract.0 as usize) {
        Some(own) => own.implements > 0 && own.implements - 1 == interface.0,
        None => false,
    }
}

/// Whether an object of a contract may stand where one of another contract or interface is declared.
pub fn serves_as(code: &Image, declared: ContractId, own: ContractId) -> bool
    ensures { result ≡ serves_as (table_of_image code.now) (Reference declared) (Reference own) }
{
    declared.0 == own.0 || is_implemented(code, own, declared)
}

/// Whether an object's contract is an asset.
pub fn is_asset(code: &Image, object: &Object) -> bool
    ensures { result ≡ is_asset (table_of_image code.now) (object_of object.now) }
{
    match code.contracts.get(object.contract.0 as usize) {
        Some(contract) => has_bit(contract.flags as u64, ASSET_BIT),
        None => false,
    }
}
