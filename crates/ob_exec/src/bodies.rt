//! The body that runs where something is entered.
ghost use Rattle.std.specs.Prelude.{◌≡◌, Some, option_map, IsSome, IfOk};
ghost use Rattle.ob_code_table.specs.Images.{constructor_of};
ghost use Rattle.ob_machine_parts.specs.Shown.{number_of};
ghost use Rattle.ob_exec.specs.Bodies.{body_number};

use ob_base::{ContractId, Memory, ObjectId, TxId};
use ob_code::{Image, constructor_place, contract_code};

// The number of a contract's constructor. There are always fewer than 2^32 bodies, of which memory has so many.
fn constructor_of(code: &Image, contract: ContractId) -> Result<Option<TxId>, Memory>
    ensures { IfOk result (λ found. found ≡ constructor_of code.now contract) }
{
    match contract_code(code, contract) {
        None => Ok(None),
        Some(own) => match constructor_place(own.bodies.as_slice()) {
            None => Ok(None),
            Some(place) if place > 0xffff_ffff => Err(Memory),
            Some(place) => Ok(Some(TxId(place as u32))),
        },
    }
}

/// The number of the body that runs: on an object, that of its transaction; else that of the constructor, which there is.
pub fn body_number(
    code: &Image,
    receiver: Option<ObjectId>,
    contract: ContractId,
    tx: TxId,
) -> Result<TxId, Memory>
    requires { IsSome (body_number code.now (option_map number_of receiver) contract tx) }
    ensures { IfOk result (λ number. body_number code.now (option_map number_of receiver) contract tx ≡ Some number) }
{
    if receiver.is_some() {
        return Ok(tx);
    }
    match constructor_of(code, contract)? {
        Some(number) => Ok(number),
        None => unreachable!(),
    }
}
