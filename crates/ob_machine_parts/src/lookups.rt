//! What stands in an image at a number.
ghost use Rattle.std.specs.Prelude.{◌≡◌, ◌<◌, ◌+◌, ◌^◌, ℕ, IfOk, OnOk, position, slice_get, Some};
ghost use Rattle.ob_heap.specs.Plain.{object_of};
ghost use Rattle.ob_code.specs.Code.{contract_code, body_code, is_transaction_named};
ghost use Rattle.ob_code_table.specs.Images.{instruction_of, instruction_at, constructor_number};
ghost use Rattle.ob_code_table.specs.Images.{transaction_number, has_field_code, callee};
ghost use Rattle.ob_machine_parts.specs.Giving.{Gives};
ghost use Rattle.ob_machine_parts.specs.Images.{answered_by};
ghost use Rattle.ob_machine_parts.specs.Images.{AreInstructionsOf};

use crate::off::Off;
use ob_base::{ContractId, FieldId, Items, StateId, TxId};
use ob_code::{
    BodyCode, ContractCode, Image, Instruction, body_code, constructor_place, contract_code,
    is_interface, is_transaction_named,
};
use ob_code_table::is_available_in;
use ob_heap::Object;

/// The contract or interface of a number.
pub fn contract_at(code: &Image, id: ContractId) -> Result<&ContractCode, Off>
    ensures { Gives result (contract_code code.now id) (λ c. c.now) }
{
    match contract_code(code, id) {
        Some(contract) => Ok(contract),
        None => Err(Off::NoStep),
    }
}

/// The constructor or transaction of a number.
pub fn body_at(code: &Image, contract: ContractId, tx: TxId) -> Result<&BodyCode, Off>
    ensures { Gives result (body_code code.now contract tx) (λ b. b.now) }
{
    match body_code(code, contract, tx) {
        Some(body) => Ok(body),
        None => Err(Off::NoStep),
    }
}

fn instruction_in(instructions: &Items<Instruction>, place: usize) -> Result<&Instruction, Off>
    ensures instruction { Gives result (slice_get instructions.now place) (λ i. i.now) }
    ensures within { OnOk result (place + 1 < 2 ^ 64) }
{
    let _length = instructions.len();
    match instructions.get(place) {
        Some(instruction) => Ok(instruction),
        None => Err(Off::NoStep),
    }
}

/// The instruction at a place of a body; an interface's bodies have none that are run.
pub fn fetch(
    code: &Image,
    contract: ContractId,
    tx: TxId,
    place: usize,
) -> Result<&Instruction, Off>
    ensures instruction { Gives result (instruction_at code.now contract tx place) (λ i. i.now) }
    ensures within { OnOk result (place + 1 < 2 ^ 64) }
{
    let own = contract_at(code, contract)?;
    if is_interface(own) {
        return Err(Off::NoStep);
    }
    match own.bodies.get(tx.0 as usize) {
        Some(body) => instruction_in(&body.instructions, place),
        None => Err(Off::NoStep),
    }
}

// The instructions of a body that are run.
fn code_in(own: &ContractCode, tx: TxId) -> Result<&Items<Instruction>, Off>
    ensures { IfOk result (λ instructions. (place : ℕ) → instruction_of own.now tx place ≡ slice_get instructions.now place) }
{
    if is_interface(own) {
        return Err(Off::NoStep);
    }
    match own.bodies.get(tx.0 as usize) {
        Some(body) => Ok(&body.instructions),
        None => Err(Off::NoStep),
    }
}

/// The instructions of the body of a number that are run; an interface's bodies have none.
pub fn code_of(code: &Image, contract: ContractId, tx: TxId) -> Result<&Items<Instruction>, Off>
    ensures { IfOk result (λ instructions. AreInstructionsOf code.now contract tx instructions.now) }
{
    code_in(contract_at(code, contract)?, tx)
}

// A number for a place; there are always fewer than 2^32 of what memory holds of them.
fn number_of_place(place: usize) -> Result<TxId, Off>
    ensures { Gives result (Some (record { 0 = place })) (λ tx. tx) }
{
    if place > 0xffff_ffff {
        return Err(Off::Memory);
    }
    Ok(TxId(place as u32))
}

/// The number of a contract's constructor.
pub fn constructor_of(contract: &ContractCode) -> Result<TxId, Off>
    ensures { Gives result (constructor_number contract.now) (λ tx. tx) }
{
    match constructor_place(contract.bodies.as_slice()) {
        Some(place) => number_of_place(place),
        None => Err(Off::NoStep),
    }
}

// The place of a contract's first transaction of a name.
fn transaction_place(name: &[u8], bodies: &[BodyCode]) -> Option<usize>
    ensures { result ≡ position (is_transaction_named name.now) bodies.now }
{
    bodies
        .iter()
        .position(|body| is_transaction_named(name, body))
}

// The number of a contract's first transaction of a name.
fn transaction_of(contract: &ContractCode, name: &[u8]) -> Result<TxId, Off>
    ensures { Gives result (transaction_number contract.now name.now) (λ tx. tx) }
{
    match transaction_place(name, contract.bodies.as_slice()) {
        Some(place) => number_of_place(place),
        None => Err(Off::NoStep),
    }
}

/// Whether a contract has a field of this number that is available in a state.
pub fn has_field(contract: &ContractCode, state: Option<StateId>, field: FieldId) -> bool
    ensures { result ≡ has_field_code contract.now state field.0 }
{
    match contract.fields.get(field.0 as usize) {
        Some(field) => is_available_in(state, field),
        None => false,
    }
}

// The transaction of an object's contract that answers for one of an interface.
fn answer_of(code: &Image, own: ContractId, asked: &BodyCode) -> Result<(ContractId, TxId), Off>
    ensures { Gives result (answered_by code.now own asked.now) (λ id. id) }
{
    let tx = transaction_of(contract_at(code, own)?, asked.name.as_bytes())?;
    Ok((own, tx))
}

/// What a call of a transaction of a contract or interface runs on an object.
pub fn callee(
    code: &Image,
    contract: ContractId,
    tx: TxId,
    object: &Object,
) -> Result<(ContractId, TxId), Off>
    ensures { Gives result (callee code.now contract tx (object_of object.now)) (λ id. id) }
{
    let declared = contract_at(code, contract)?;
    if !is_interface(declared) {
        return Ok((contract, tx));
    }
    match declared.bodies.get(tx.0 as usize) {
        Some(asked) => answer_of(code, object.contract, asked),
        None => Err(Off::NoStep),
    }
}
