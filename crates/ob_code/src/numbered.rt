//! What stands in an image at a number.
ghost use Rattle.std.specs.Prelude.{◌≡◌, position};
ghost use Rattle.std.specs.Option.{option_copied};
ghost use Rattle.ob_code.specs.Code.{contract_code, body_code, is_constructor};

use crate::image::{BodyCode, ContractCode, Image};
use crate::marks::is_constructor;
use ob_base::{ContractId, TxId};

/// The contract or interface of a number.
pub fn contract_code(code: &Image, id: ContractId) -> Option<&ContractCode>
    ensures { option_copied result ≡ contract_code code.now id }
{
    code.contracts.get(id.0 as usize)
}

/// The constructor or transaction of a contract, by its number there.
pub fn body_code(code: &Image, contract: ContractId, tx: TxId) -> Option<&BodyCode>
    ensures { option_copied result ≡ body_code code.now contract tx }
{
    match contract_code(code, contract) {
        Some(own) => own.bodies.get(tx.0 as usize),
        None => None,
    }
}

/// The place of the first constructor among bodies.
pub fn constructor_place(bodies: &[BodyCode]) -> Option<usize>
    ensures { result ≡ position is_constructor bodies.now }
{
    bodies.iter().position(|body| is_constructor(body))
}
