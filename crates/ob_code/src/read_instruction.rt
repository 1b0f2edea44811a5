//! Instructions from bytes.
ghost use Rattle.std.specs.Prelude.{◌≡◌};
ghost use Rattle.ob_format.specs.Answering.{Answers};
ghost use Rattle.ob_code.specs.Instructions.{operator, int_code, bool_code, text_code, copy_code, load_code, store_code, op_code, jump_code, unless_code, test_code, change_code, new_code, call_code, self_call_code, share_code, disown_code, ret_value_code, revert_code, instruction};

use crate::instruction::Instruction;
use crate::text::CodeText;
use ob_base::{ContractId, FieldId, Operator, StateId, TxId};
use ob_format::{Halt, Part, any_byte, byte_below, counted_by_byte, integer, number, refused};
use std::alloc::Global;

// The operator of a byte.
#[tactic(auto, unfolding(crate::specs::Instructions::operator))]
fn operator(bytes: &[u8]) -> Result<(Operator, &[u8]), Halt>
    ensures { Answers result (operator.read bytes.now) }
{
    match bytes {
        [0, rest @ ..] => Ok((Operator::Add, rest)),
        [1, rest @ ..] => Ok((Operator::Sub, rest)),
        [2, rest @ ..] => Ok((Operator::Mul, rest)),
        [3, rest @ ..] => Ok((Operator::Div, rest)),
        [4, rest @ ..] => Ok((Operator::Rem, rest)),
        [5, rest @ ..] => Ok((Operator::Equal, rest)),
        [6, rest @ ..] => Ok((Operator::NotEqual, rest)),
        [7, rest @ ..] => Ok((Operator::Less, rest)),
        [8, rest @ ..] => Ok((Operator::LessEqual, rest)),
        [9, rest @ ..] => Ok((Operator::Greater, rest)),
        [10, rest @ ..] => Ok((Operator::GreaterEqual, rest)),
        [11, rest @ ..] => Ok((Operator::And, rest)),
        [12, rest @ ..] => Ok((Operator::Or, rest)),
        [13, rest @ ..] => Ok((Operator::Not, rest)),
        [14, rest @ ..] => Ok((Operator::Negate, rest)),
        _ => Err(refused(bytes)),
    }
}

#[tactic(auto, unfolding(crate::specs::Instructions::int_code))]
fn int_code(bytes: &[u8]) -> Result<(Instruction, &[u8]), Halt>
    ensures { Answers result (int_code.read bytes.now) }
{
    let (slot, rest) = any_byte(bytes)?;
    let (value, rest) = integer(rest)?;
    Ok((Instruction::Int { slot, value }, rest))
}

#[tactic(auto, unfolding(crate::specs::Instructions::bool_code))]
fn bool_code(bytes: &[u8]) -> Result<(Instruction, &[u8]), Halt>
    ensures { Answers result (bool_code.read bytes.now) }
{
    let (slot, rest) = any_byte(bytes)?;
    let (value, rest) = byte_below(2, rest)?;
    Ok((Instruction::Bool { slot, value }, rest))
}

#[tactic(auto, unfolding(crate::specs::Instructions::text_code))]
fn text_code(alloc: Global, bytes: &[u8]) -> Result<(Instruction, &[u8]), Halt>
    ensures { Answers result (text_code.read bytes.now) }
{
    let (slot, rest) = any_byte(bytes)?;
    let (value, rest) = CodeText::read(alloc, rest)?;
    Ok((Instruction::Text { slot, value }, rest))
}

#[tactic(auto, unfolding(crate::specs::Instructions::copy_code))]
fn copy_code(bytes: &[u8]) -> Result<(Instruction, &[u8]), Halt>
    ensures { Answers result (copy_code.read bytes.now) }
{
    let (slot, rest) = any_byte(bytes)?;
    let (a, rest) = any_byte(rest)?;
    Ok((Instruction::Copy { slot, a }, rest))
}

#[tactic(auto, unfolding(crate::specs::Instructions::load_code))]
fn load_code(bytes: &[u8]) -> Result<(Instruction, &[u8]), Halt>
    ensures { Answers result (load_code.read bytes.now) }
{
    let (slot, rest) = any_byte(bytes)?;
    let (field, rest) = any_byte(rest)?;
    Ok((
        Instruction::Load {
            slot,
            field: FieldId(field),
        },
        rest,
    ))
}

#[tactic(auto, unfolding(crate::specs::Instructions::store_code))]
fn store_code(bytes: &[u8]) -> Result<(Instruction, &[u8]), Halt>
    ensures { Answers result (store_code.read bytes.now) }
{
    let (field, rest) = any_byte(bytes)?;
    let (a, rest) = any_byte(rest)?;
    Ok((
        Instruction::Store {
            field: FieldId(field),
            a,
        },
        rest,
    ))
}

#[tactic(auto, unfolding(crate::specs::Instructions::op_code))]
fn op_code(bytes: &[u8]) -> Result<(Instruction, &[u8]), Halt>
    ensures { Answers result (op_code.read bytes.now) }
{
    let (slot, rest) = any_byte(bytes)?;
    let (operator, rest) = operator(rest)?;
    let (a, rest) = any_byte(rest)?;
    let (b, rest) = any_byte(rest)?;
    let (line, rest) = number(rest)?;
    Ok((
        Instruction::Op {
            slot,
            operator,
            a,
            b,
            line,
        },
        rest,
    ))
}

#[tactic(auto, unfolding(crate::specs::Instructions::jump_code))]
fn jump_code(bytes: &[u8]) -> Result<(Instruction, &[u8]), Halt>
    ensures { Answers result (jump_code.read bytes.now) }
{
    let (target, rest) = number(bytes)?;
    Ok((Instruction::Jump { target }, rest))
}

#[tactic(auto, unfolding(crate::specs::Instructions::unless_code))]
fn unless_code(bytes: &[u8]) -> Result<(Instruction, &[u8]), Halt>
    ensures { Answers result (unless_code.read bytes.now) }
{
    let (a, rest) = any_byte(bytes)?;
    let (target, rest) = number(rest)?;
    Ok((Instruction::Unless { a, target }, rest))
}

#[tactic(auto, unfolding(crate::specs::Instructions::test_code))]
fn test_code(bytes: &[u8]) -> Result<(Instruction, &[u8]), Halt>
    ensures { Answers result (test_code.read bytes.now) }
{
    let (a, rest) = any_byte(bytes)?;
    let (contract, rest) = number(rest)?;
    let (state, rest) = any_byte(rest)?;
    let (target, rest) = number(rest)?;
    Ok((
        Instruction::Test {
            a,
            contract: ContractId(contract),
            state: StateId(state),
            target,
        },
        rest,
    ))
}

#[tactic(auto, unfolding(crate::specs::Instructions::change_code))]
fn change_code(alloc: Global, bytes: &[u8]) -> Result<(Instruction, &[u8]), Halt>
    ensures { Answers result (change_code.read bytes.now) }
{
    let (state, rest) = any_byte(bytes)?;
    let (given, rest) = counted_by_byte(alloc, rest)?;
    Ok((
        Instruction::Change {
            state: StateId(state),
            given,
        },
        rest,
    ))
}

#[tactic(auto, unfolding(crate::specs::Instructions::new_code))]
fn new_code(alloc: Global, bytes: &[u8]) -> Result<(Instruction, &[u8]), Halt>
    ensures { Answers result (new_code.read bytes.now) }
{
    let (slot, rest) = any_byte(bytes)?;
    let (contract, rest) = number(rest)?;
    let (args, rest) = counted_by_byte(alloc, rest)?;
    Ok((
        Instruction::New {
            slot,
            contract: ContractId(contract),
            args,
        },
        rest,
    ))
}

#[tactic(auto, unfolding(crate::specs::Instructions::call_code))]
fn call_code(alloc: Global, bytes: &[u8]) -> Result<(Instruction, &[u8]), Halt>
    ensures { Answers result (call_code.read bytes.now) }
{
    let (slot, rest) = any_byte(bytes)?;
    let (a, rest) = any_byte(rest)?;
    let (contract, rest) = number(rest)?;
    let (tx, rest) = number(rest)?;
    let (args, rest) = counted_by_byte(alloc, rest)?;
    Ok((
        Instruction::Call {
            slot,
            a,
            contract: ContractId(contract),
            tx: TxId(tx),
            args,
        },
        rest,
    ))
}

#[tactic(auto, unfolding(crate::specs::Instructions::self_call_code))]
fn self_call_code(alloc: Global, bytes: &[u8]) -> Result<(Instruction, &[u8]), Halt>
    ensures { Answers result (self_call_code.read bytes.now) }
{
    let (slot, rest) = any_byte(bytes)?;
    let (tx, rest) = number(rest)?;
    let (args, rest) = counted_by_byte(alloc, rest)?;
    Ok((
        Instruction::SelfCall {
            slot,
            tx: TxId(tx),
            args,
        },
        rest,
    ))
}

#[tactic(auto, unfolding(crate::specs::Instructions::share_code))]
fn share_code(bytes: &[u8]) -> Result<(Instruction, &[u8]), Halt>
    ensures { Answers result (share_code.read bytes.now) }
{
    let (a, rest) = any_byte(bytes)?;
    Ok((Instruction::Share { a }, rest))
}

#[tactic(auto, unfolding(crate::specs::Instructions::disown_code))]
fn disown_code(bytes: &[u8]) -> Result<(Instruction, &[u8]), Halt>
    ensures { Answers result (disown_code.read bytes.now) }
{
    let (a, rest) = any_byte(bytes)?;
    Ok((Instruction::Disown { a }, rest))
}

#[tactic(auto, unfolding(crate::specs::Instructions::ret_value_code))]
fn ret_value_code(bytes: &[u8]) -> Result<(Instruction, &[u8]), Halt>
    ensures { Answers result (ret_value_code.read bytes.now) }
{
    let (a, rest) = any_byte(bytes)?;
    Ok((Instruction::RetValue { a }, rest))
}

#[tactic(auto, unfolding(crate::specs::Instructions::revert_code))]
fn revert_code(bytes: &[u8]) -> Result<(Instruction, &[u8]), Halt>
    ensures { Answers result (revert_code.read bytes.now) }
{
    let (a, rest) = any_byte(bytes)?;
    Ok((Instruction::Revert { a }, rest))
}

#[tactic(auto, unfolding(crate::specs::Instructions::instruction))]
pub fn instruction(alloc: Global, bytes: &[u8]) -> Result<(Instruction, &[u8]), Halt>
    ensures { Answers result (instruction.read bytes.now) }
{
    match bytes {
        [0, rest @ ..] => Ok((Instruction::Unit, rest)),
        [1, rest @ ..] => int_code(rest),
        [2, rest @ ..] => bool_code(rest),
        [3, rest @ ..] => text_code(alloc, rest),
        [4, rest @ ..] => copy_code(rest),
        [5, rest @ ..] => load_code(rest),
        [6, rest @ ..] => store_code(rest),
        [7, rest @ ..] => op_code(rest),
        [8, rest @ ..] => jump_code(rest),
        [9, rest @ ..] => unless_code(rest),
        [10, rest @ ..] => test_code(rest),
        [11, rest @ ..] => Ok((Instruction::EndTest, rest)),
        [12, rest @ ..] => change_code(alloc, rest),
        [13, rest @ ..] => new_code(alloc, rest),
        [14, rest @ ..] => call_code(alloc, rest),
        [15, rest @ ..] => self_call_code(alloc, rest),
        [16, rest @ ..] => share_code(rest),
        [17, rest @ ..] => disown_code(rest),
        [18, rest @ ..] => Ok((Instruction::Ret, rest)),
        [19, rest @ ..] => ret_value_code(rest),
        [20, rest @ ..] => revert_code(rest),
        _ => Err(refused(bytes)),
    }
}
