//! The condition on calls: that there is what they name.
ghost use Rattle.std.specs.Prelude.{◌≡◌, Some, find};
ghost use Rattle.std.specs.Option.{option_copied};
ghost use Rattle.ob_code.specs.declared.image.BodyCode.{BodyCode};
ghost use Rattle.ob_code.specs.Code.{is_constructor, body_code};
ghost use Rattle.ob_verify_spec.specs.Instructions.{slot_of_result};
ghost use Rattle.ob_verify_spec.specs.Conditions.{has_state, takes, is_answered, constructs, bad_call};

use crate::frame::CodeFrame;
use crate::survey::Surveyed;
use ob_base::{ContractId, StateId, TxId};
use ob_code::{BodyCode, ContractCode, Instruction, NO_RESULT, is_constructor, is_interface};

fn has_state(state: StateId, own: &ContractCode) -> bool
    ensures { result ≡ has_state state own.now }
{
    usize::from(state.0) < own.states.len()
}

// Whether a body is no constructor's, and takes so many arguments, and has a result where a slot gets one.
fn takes(count: usize, slot: u8, body: &BodyCode) -> bool
    ensures { result ≡ takes count (slot_of_result slot) body.now }
{
    !is_constructor(body)
        && count == body.params.len()
        && (slot == NO_RESULT || body.result.is_some())
}

// Whether each contract that implements an interface has an answer for its transaction.
fn is_answered(image: &Surveyed<'_>, contract: ContractId, tx: TxId) -> bool
    ensures { (asked : BodyCode) → body_code image.now contract tx ≡ Some asked → result ≡ is_answered image.now contract asked }
{
    match image.contract(contract) {
        Some(own) => !is_interface(own) || image.all_answer(contract, tx),
        None => true,
    }
}

// Whether a `new` of a contract with this constructor takes so many arguments.
fn constructs(count: usize, own: &ContractCode, constructor: Option<&BodyCode>) -> bool
    requires { option_copied constructor ≡ find is_constructor own.now.bodies }
    ensures { result ≡ constructs count own.now }
{
    match constructor {
        Some(body) => !is_interface(own) && count == body.params.len(),
        None => false,
    }
}

/// Whether an instruction names a contract, state, body, number of arguments or result that there isn't.
pub fn bad_call(frame: &CodeFrame<'_>, instruction: &Instruction) -> bool
    ensures { result ≡ bad_call frame.now instruction.now }
{
    match instruction {
        Instruction::Test {
            contract,
            state,
            ..
        } => match frame.image.contract(*contract) {
            Some(own) => !has_state(*state, own),
            None => true,
        },
        Instruction::Change { state, .. } => !has_state(*state, frame.own),
        Instruction::New { contract, args, .. } => match frame.image.contract(*contract) {
            Some(own) => !constructs(args.len(), own, frame.image.constructor(*contract)),
            None => true,
        },
        Instruction::Call {
            slot,
            contract,
            tx,
            args,
            ..
        } => match frame.image.body(*contract, *tx) {
            Some(body) => {
                !takes(args.len(), *slot, body) || !is_answered(frame.image, *contract, *tx)
            }
            None => true,
        },
        Instruction::SelfCall { slot, tx, args } => match frame.own.bodies.get(tx.0 as usize) {
            Some(body) => !takes(args.len(), *slot, body),
            None => true,
        },
        Instruction::Ret => frame.body.result.is_some(),
        Instruction::RetValue { .. } => !frame.body.result.is_some(),
        _ => false,
    }
}
