//! What stands in an image at a number, as its class table has it.
ghost use Rattle.std.specs.Prelude.{◌≡◌, option_map};
ghost use Rattle.std.specs.Option.{option_copied};
ghost use Rattle.ob_table.specs.Tables.{contract_at, signature_of};
ghost use Rattle.ob_table_spec.specs.WellFormed.{constructor_at};
ghost use Rattle.ob_code_table.specs.ImageTables.{contract_of_code, signature_of_code, table_of_image};

use ob_base::{ContractId, TxId};
use ob_code::{BodyCode, ContractCode, Image, contract_code, is_interface};

/// The contract or interface of a number.
pub fn contract_at(code: &Image, id: ContractId) -> Option<&ContractCode>
    ensures { option_map contract_of_code (option_copied result) ≡ contract_at (table_of_image code.now) id }
{
    code.contracts.get(id.0 as usize)
}

/// The constructor or transaction of a number.
#[tactic(auto, using(crate::proofs::ImageLemmas::signatures))]
pub fn body_code(code: &Image, contract: ContractId, tx: TxId) -> Option<&BodyCode>
    ensures { option_map signature_of_code (option_copied result) ≡ signature_of (table_of_image code.now) contract tx }
{
    match contract_code(code, contract) {
        Some(contract) => contract.bodies.get(tx.0 as usize),
        None => None,
    }
}

/// The constructor of a contract that isn't an interface.
#[tactic(auto, using(crate::proofs::ImageLemmas::signatures))]
pub fn constructor_code(code: &Image, contract: ContractId) -> Option<&BodyCode>
    ensures { option_map signature_of_code (option_copied result) ≡ constructor_at (table_of_image code.now) contract }
{
    match contract_code(code, contract) {
        Some(contract) => {
            if is_interface(contract) {
                None
            } else {
                contract.bodies.get(0)
            }
        }
        None => None,
    }
}
