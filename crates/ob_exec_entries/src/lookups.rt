//! What an image says of its contracts, constructors and transactions, as its class table has it.
ghost use Rattle.std.specs.Prelude.{◌≡◌, ◌<◌, Bool, false, not, nat_eq, option_map, slice_get};
ghost use Rattle.std.specs.Option.{option_map_or};
ghost use Rattle.ob_table.specs.Tables.{contract_at};
ghost use Rattle.ob_table.specs.declared.contract.Contract.{Contract};
ghost use Rattle.ob_table.specs.declared.seen.Kind.TheVariants.{Reference};
ghost use Rattle.ob_table_spec.specs.WellFormed.{is_implemented, serves_as};
ghost use Rattle.ob_code.specs.Code.{is_marked, contract_code};
ghost use Rattle.ob_invocation_spec.specs.Entries.{mode_of_result};
ghost use Rattle.ob_code_table.specs.ImageTables.{type_of_code, interface_of, table_of_image};

use ob_base::{ContractId, Mode};
use ob_code::{ContractCode, Image, TypeCode, contract_code, is_main};

/// Whether a contract is there, and isn't the main contract.
#[tactic(auto, using(ob_code_table::proofs::ImageLemmas::signatures))]
pub fn is_other_contract(code: &Image, contract: ContractId) -> bool
    ensures { result ≡ option_map_or (λ (c : Contract). not c.main) (contract_at (table_of_image code.now) contract) false }
{
    match contract_code(code, contract) {
        Some(contract) => !is_main(contract),
        None => false,
    }
}

#[tactic(auto, using(ob_code_table::proofs::ImageLemmas::signatures))]
fn implements(contract: &ContractCode, declared: ContractId) -> bool
    ensures { result ≡ option_map_or (λ k. nat_eq declared.0 k.0) (interface_of contract.now.implements) false }
{
    contract.implements > 0 && contract.implements - 1 == declared.0
}

#[tactic(auto, using(ob_code_table::proofs::ImageLemmas::signatures))]
fn is_implemented(code: &Image, own: ContractId, declared: ContractId) -> bool
    ensures { result ≡ is_implemented (table_of_image code.now) own declared }
{
    match contract_code(code, own) {
        Some(contract) => implements(contract, declared),
        None => false,
    }
}

/// Whether an object of a contract may stand where one of the declared contract or interface is needed.
pub fn serves_as(code: &Image, declared: ContractId, own: ContractId) -> bool
    ensures { result ≡ serves_as (table_of_image code.now) (Reference declared) (Reference own) }
{
    declared.0 == own.0 || is_implemented(code, own, declared)
}

/// The mode of the reference that a result is, if it is one.
pub fn mode_of_result(given: &Option<TypeCode>) -> Option<Mode>
    ensures { result ≡ mode_of_result (option_map type_of_code given.now) }
{
    match given {
        Some(TypeCode::Reference(_, perm)) => Some(perm.mode),
        _ => None,
    }
}
