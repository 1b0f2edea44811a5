//! Instructions to bytes.
ghost use Rattle.std.specs.Prelude.{◌≡◌, ◌++◌, [], ◌∷◌, ℕ, List, OnOk};
ghost use Rattle.ob_base.specs.Bytes.{u8_bytes, u32_bytes, i64_bytes};
ghost use Rattle.ob_format_spec.specs.Combinators.{◌⨟◌, any_byte, counted_by_byte};
ghost use Rattle.ob_format_spec.specs.Ids.{field_id};
ghost use Rattle.ob_format_spec.specs.Texts.{text};
ghost use Rattle.ob_code.specs.Instructions.{number_of_operator, operator};

use crate::instruction::Instruction;
use crate::read_instruction::instruction;
use crate::text::CodeText;
use ob_base::{
    ContractId, FieldId, Items, Memory, Operator, StateId, TxId, put_i64, put_u8, put_u32,
};
use ob_format::{Halt, Part, put_counted_by_byte};
use std::alloc::Global;

// The byte of an operator.
fn number_of_operator(operator: Operator) -> u8
    ensures { result ≡ number_of_operator operator }
{
    match operator {
        Operator::Add => 0,
        Operator::Sub => 1,
        Operator::Mul => 2,
        Operator::Div => 3,
        Operator::Rem => 4,
        Operator::Equal => 5,
        Operator::NotEqual => 6,
        Operator::Less => 7,
        Operator::LessEqual => 8,
        Operator::Greater => 9,
        Operator::GreaterEqual => 10,
        Operator::And => 11,
        Operator::Or => 12,
        Operator::Not => 13,
        Operator::Negate => 14,
    }
}

// Appends an op and one byte.
fn put_two(out: &mut Vec<u8>, op: u8, a: u8) -> Result<(), Memory>
    ensures { OnOk result (out.new.items ≡ out.old.items ++ op ∷ a ∷ []) }
{
    put_u8(out, op)?;
    put_u8(out, a)
}

// Appends an op and two bytes.
fn put_three(out: &mut Vec<u8>, op: u8, a: u8, b: u8) -> Result<(), Memory>
    ensures { OnOk result (out.new.items ≡ out.old.items ++ op ∷ a ∷ b ∷ []) }
{
    put_u8(out, op)?;
    put_u8(out, a)?;
    put_u8(out, b)
}

fn put_int(out: &mut Vec<u8>, slot: u8, value: i64) -> Result<(), Memory>
    ensures { OnOk result (out.new.items ≡ out.old.items ++ (1 ∷ slot ∷ i64_bytes value)) }
{
    put_two(out, 1, slot)?;
    put_i64(out, value)
}

fn put_text(out: &mut Vec<u8>, slot: u8, value: &CodeText) -> Result<(), Memory>
    requires { text.fits value.now }
    ensures { OnOk result (out.new.items ≡ out.old.items ++ (3 ∷ slot ∷ text.bytes value.now)) }
{
    put_two(out, 3, slot)?;
    value.put(out)
}

#[tactic(auto, using(crate::proofs::Spellings::operator_bytes))]
fn put_operator(out: &mut Vec<u8>, value: Operator) -> Result<(), Memory>
    ensures { OnOk result (out.new.items ≡ out.old.items ++ operator.bytes value) }
{
    put_u8(out, number_of_operator(value))
}

fn put_op(
    out: &mut Vec<u8>,
    slot: u8,
    value: Operator,
    operands: (u8, u8),
    line: u32,
) -> Result<(), Memory>
    ensures { OnOk result (out.new.items ≡ out.old.items ++ (7 ∷ slot ∷ (operator.bytes value ++ (operands.0 ∷ operands.1 ∷ u32_bytes line)))) }
{
    put_two(out, 7, slot)?;
    put_operator(out, value)?;
    put_two(out, operands.0, operands.1)?;
    put_u32(out, line)
}

fn put_jump(out: &mut Vec<u8>, target: u32) -> Result<(), Memory>
    ensures { OnOk result (out.new.items ≡ out.old.items ++ (8 ∷ u32_bytes target)) }
{
    put_u8(out, 8)?;
    put_u32(out, target)
}

fn put_unless(out: &mut Vec<u8>, a: u8, target: u32) -> Result<(), Memory>
    ensures { OnOk result (out.new.items ≡ out.old.items ++ (9 ∷ a ∷ u32_bytes target)) }
{
    put_two(out, 9, a)?;
    put_u32(out, target)
}

fn put_test(
    out: &mut Vec<u8>,
    a: u8,
    contract: ContractId,
    state: StateId,
    target: u32,
) -> Result<(), Memory>
    ensures { OnOk result (out.new.items ≡ out.old.items ++ (10 ∷ a ∷ (u32_bytes contract.0 ++ (state.0 ∷ u32_bytes target)))) }
{
    put_two(out, 10, a)?;
    put_u32(out, contract.0)?;
    put_u8(out, state.0)?;
    put_u32(out, target)
}

fn put_change(out: &mut Vec<u8>, state: StateId, given: &Items<(FieldId, u8)>) -> Result<(), Memory>
    requires { (counted_by_byte (field_id ⨟ any_byte)).fits given.now }
    ensures { OnOk result (out.new.items ≡ out.old.items ++ (12 ∷ state.0 ∷ (counted_by_byte (field_id ⨟ any_byte)).bytes given.now)) }
{
    put_two(out, 12, state.0)?;
    put_counted_by_byte(out, given)
}

fn put_new(
    out: &mut Vec<u8>,
    slot: u8,
    contract: ContractId,
    args: &Items<u8>,
) -> Result<(), Memory>
    requires { (counted_by_byte any_byte).fits args.now }
    ensures { OnOk result (out.new.items ≡ out.old.items ++ (13 ∷ slot ∷ (u32_bytes contract.0 ++ (counted_by_byte any_byte).bytes args.now))) }
{
    put_two(out, 13, slot)?;
    put_u32(out, contract.0)?;
    put_counted_by_byte(out, args)
}

fn put_call(
    out: &mut Vec<u8>,
    slots: (u8, u8),
    contract: ContractId,
    tx: TxId,
    args: &Items<u8>,
) -> Result<(), Memory>
    requires { (counted_by_byte any_byte).fits args.now }
    ensures { OnOk result (out.new.items ≡ out.old.items
        ++ (14 ∷ slots.0 ∷ slots.1 ∷ (u32_bytes contract.0 ++ (u32_bytes tx.0 ++ (counted_by_byte any_byte).bytes args.now)))) }
{
    put_three(out, 14, slots.0, slots.1)?;
    put_u32(out, contract.0)?;
    put_u32(out, tx.0)?;
    put_counted_by_byte(out, args)
}

fn put_self_call(out: &mut Vec<u8>, slot: u8, tx: TxId, args: &Items<u8>) -> Result<(), Memory>
    requires { (counted_by_byte any_byte).fits args.now }
    ensures { OnOk result (out.new.items ≡ out.old.items ++ (15 ∷ slot ∷ (u32_bytes tx.0 ++ (counted_by_byte any_byte).bytes args.now))) }
{
    put_two(out, 15, slot)?;
    put_u32(out, tx.0)?;
    put_counted_by_byte(out, args)
}

impl Part for Instruction {
    ghost use Rattle.ob_code.specs.Instructions.{instruction};

    ghost format = { instruction };

    fn read(alloc: Global, bytes: &[u8]) -> Result<(Instruction, &[u8]), Halt> {
        instruction(alloc, bytes)
    }

    fn put(&self, out: &mut Vec<u8>) -> Result<(), Memory> {
        match self {
            Instruction::Unit => put_u8(out, 0),
            Instruction::Int { slot, value } => put_int(out, *slot, *value),
            Instruction::Bool { slot, value } => put_three(out, 2, *slot, *value),
            Instruction::Text { slot, value } => put_text(out, *slot, value),
            Instruction::Copy { slot, a } => put_three(out, 4, *slot, *a),
            Instruction::Load { slot, field } => put_three(out, 5, *slot, field.0),
            Instruction::Store { field, a } => put_three(out, 6, field.0, *a),
            Instruction::Op {
                slot,
                operator,
                a,
                b,
                line,
            } => put_op(out, *slot, *operator, (*a, *b), *line),
            Instruction::Jump { target } => put_jump(out, *target),
            Instruction::Unless { a, target } => put_unless(out, *a, *target),
            Instruction::Test {
                a,
                contract,
                state,
                target,
            } => put_test(out, *a, *contract, *state, *target),
            Instruction::EndTest => put_u8(out, 11),
            Instruction::Change { state, given } => put_change(out, *state, given),
            Instruction::New {
                slot,
                contract,
                args,
            } => put_new(out, *slot, *contract, args),
            Instruction::Call {
                slot,
                a,
                contract,
                tx,
                args,
            } => put_call(out, (*slot, *a), *contract, *tx, args),
            Instruction::SelfCall { slot, tx, args } => put_self_call(out, *slot, *tx, args),
            Instruction::Share { a } => put_two(out, 16, *a),
            Instruction::Disown { a } => put_two(out, 17, *a),
            Instruction::Ret => put_u8(out, 18),
            Instruction::RetValue { a } => put_two(out, 19, *a),
            Instruction::Revert { a } => put_two(out, 20, *a),
        }
    }
}
