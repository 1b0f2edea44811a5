//! The code of forms that have no branches.
ghost use Rattle.std.specs.Prelude.{◌≡◌, [], ◌∷◌, ◌++◌, OnOk};
ghost use Rattle.std.specs.Option.{option_copied};
ghost use Rattle.ob_emit_spec.specs.Emission.{constant_code, unary_code, binary_code, operation_code};
ghost use Rattle.ob_emit_spec.specs.Emission.{fetch_code, copy_code, move_code, result_slot};
ghost use Rattle.ob_emit_spec.specs.Emission.{shares_of_call, shares_of_new, call_code, call_this_code, new_code};
ghost use Rattle.ob_emit_spec.specs.Emission.{change_code, return_none_code, share_result, return_code};
ghost use Rattle.ob_emit.specs.Making.{disown_code, revert_code};

use crate::code::Code;
use crate::frame::EmissionFrame;
use crate::operands::{
    load, load_all, load_given, share, share_given, share_in_field, share_params,
};
use ob_base::{ContractId, Items, Memory, Operator, StateId, TxId};
use ob_code::{CodeText, Instruction, NO_RESULT};
use ob_silica::{Constant, Given, Operand, Place, SilicaOperator};
use ob_table::{BinaryOperator, ResolvedType, Signature, UnaryOperator};

/// A slot is set to a constant.
#[tactic(auto, using(crate::proofs::CodeLemmas::texts))]
pub fn put_constant(slot: u8, value: &Constant, out: &mut Code) -> Result<(), Memory>
    ensures { OnOk result (out.new ≡ out.old ++ constant_code slot value.now ∷ []) }
{
    match value {
        Constant::Int(value) => out.put(Instruction::Int {
            slot,
            value: *value,
        }),
        Constant::Bool(value) => out.put(Instruction::Bool {
            slot,
            value: if *value { 1 } else { 0 },
        }),
        Constant::Text(text) => {
            let bytes = Items::from_slice(out.alloc(), text.as_bytes())?;
            out.put(Instruction::Text {
                slot,
                value: CodeText::of(bytes),
            })
        }
    }
}

// The operator of an instruction that has one operand.
fn unary_code(operator: UnaryOperator) -> Operator
    ensures { result ≡ unary_code operator }
{
    match operator {
        UnaryOperator::Not => Operator::Not,
        UnaryOperator::Negate => Operator::Negate,
    }
}

// The operator of an instruction that has two operands.
fn binary_code(operator: BinaryOperator) -> Operator
    ensures { result ≡ binary_code operator }
{
    match operator {
        BinaryOperator::Add => Operator::Add,
        BinaryOperator::Sub => Operator::Sub,
        BinaryOperator::Mul => Operator::Mul,
        BinaryOperator::Div => Operator::Div,
        BinaryOperator::Rem => Operator::Rem,
        BinaryOperator::Equal => Operator::Equal,
        BinaryOperator::NotEqual => Operator::NotEqual,
        BinaryOperator::Less => Operator::Less,
        BinaryOperator::LessEqual => Operator::LessEqual,
        BinaryOperator::Greater => Operator::Greater,
        BinaryOperator::GreaterEqual => Operator::GreaterEqual,
    }
}

/// An operation: the left operand is read before the right one, and a single one stands twice.
#[tactic(auto, using(crate::proofs::CodeLemmas::codes))]
pub fn put_operation(
    scratch: u8,
    slot: u8,
    operator: SilicaOperator,
    a: Operand,
    b: Operand,
    line: u32,
    out: &mut Code,
) -> Result<(), Memory>
    ensures { OnOk result (out.new ≡ out.old ++ operation_code scratch slot operator a b line) }
{
    let left = load(scratch, 0, a.place, out)?;
    match operator {
        SilicaOperator::Unary(operator) => out.put(Instruction::Op {
            slot,
            operator: unary_code(operator),
            a: left,
            b: left,
            line,
        }),
        SilicaOperator::Binary(operator) => {
            let right = load(scratch, 1, b.place, out)?;
            out.put(Instruction::Op {
                slot,
                operator: binary_code(operator),
                a: left,
                b: right,
                line,
            })
        }
    }
}

// A slot gets the value of a place.
fn fetch_code(slot: u8, from: Place) -> Instruction
    ensures { result ≡ fetch_code slot from }
{
    match from {
        Place::This => Instruction::Copy { slot, a: 0 },
        Place::Slot(a) => Instruction::Copy { slot, a },
        Place::Field(field) => Instruction::Load { slot, field },
    }
}

/// A value that is no reference is copied to a place.
#[tactic(auto, using(crate::proofs::CodeLemmas::codes))]
pub fn put_copy(scratch: u8, to: Place, from: Operand, out: &mut Code) -> Result<(), Memory>
    ensures { OnOk result (out.new ≡ out.old ++ copy_code scratch to from) }
{
    match to {
        Place::This => out.put(fetch_code(0, from.place)),
        Place::Slot(slot) => out.put(fetch_code(slot, from.place)),
        Place::Field(field) => {
            let a = load(scratch, 0, from.place, out)?;
            out.put(Instruction::Store { field, a })
        }
    }
}

/// A reference is moved to a place.
#[tactic(auto, using(crate::proofs::CodeLemmas::codes))]
pub fn put_move(
    frame: &EmissionFrame<'_>,
    to: Place,
    from: Operand,
    out: &mut Code,
) -> Result<(), Memory>
    ensures { OnOk result (out.new ≡ out.old ++ move_code frame.now.static.own frame.now.scratch to from) }
{
    match to {
        Place::This => out.put(fetch_code(0, from.place)),
        Place::Slot(slot) => out.put(fetch_code(slot, from.place)),
        Place::Field(field) => {
            let a = load(frame.scratch(), 0, from.place, out)?;
            share_in_field(frame, field, a, out)?;
            out.put(Instruction::Store { field, a })
        }
    }
}

// The slot of an instruction that gets a result, which may be none.
fn result_slot(slot: Option<u8>) -> u8
    ensures { result ≡ result_slot slot }
{
    match slot {
        Some(slot) => slot,
        None => NO_RESULT,
    }
}

// The objects that come into a callee are marked: its receiver, and then its arguments.
#[tactic(auto, using(crate::proofs::CodeLemmas::parameters_marked))]
fn share_call(
    contract: ContractId,
    signature: Option<&Signature>,
    receiver: u8,
    args: &[u8],
    out: &mut Code,
) -> Result<(), Memory>
    ensures { OnOk result (out.new ≡ out.old ++ shares_of_call contract (option_copied signature.entry) (receiver ∷ args.now)) }
{
    match signature {
        Some(signature) => {
            share(
                ResolvedType::Reference(contract, signature.entry),
                receiver,
                out,
            )?;
            share_params(signature.params.as_slice(), args, out)
        }
        None => Ok(()),
    }
}

// The objects that come into a constructor are marked.
#[tactic(auto, using(crate::proofs::CodeLemmas::parameters_marked))]
fn share_new(signature: Option<&Signature>, args: &[u8], out: &mut Code) -> Result<(), Memory>
    ensures { OnOk result (out.new ≡ out.old ++ shares_of_new (option_copied signature.entry) args.now) }
{
    match signature {
        Some(signature) => share_params(signature.params.as_slice(), args, out),
        None => Ok(()),
    }
}

/// A call of the object of a place.
#[tactic(auto, using(crate::proofs::CodeLemmas::codes))]
pub fn put_call(
    frame: &EmissionFrame<'_>,
    slot: Option<u8>,
    receiver: Operand,
    contract: ContractId,
    tx: TxId,
    args: &[Operand],
    out: &mut Code,
) -> Result<(), Memory>
    ensures { OnOk result (out.new ≡ out.old ++ call_code frame.now slot receiver contract tx args.now) }
{
    let a = load(frame.scratch(), 0, receiver.place, out)?;
    let args = load_all(args, frame.scratch(), 1, out)?;
    let signature = frame.signature_of(contract, tx);
    share_call(contract, signature, a, args.as_slice(), out)?;
    out.put(Instruction::Call {
        slot: result_slot(slot),
        a,
        contract,
        tx,
        args,
    })
}

/// A call of a transaction of `this`.
#[tactic(auto, using(crate::proofs::CodeLemmas::codes))]
pub fn put_call_this(
    frame: &EmissionFrame<'_>,
    slot: Option<u8>,
    tx: TxId,
    args: &[Operand],
    out: &mut Code,
) -> Result<(), Memory>
    ensures { OnOk result (out.new ≡ out.old ++ call_this_code frame.now slot tx args.now) }
{
    let args = load_all(args, frame.scratch(), 0, out)?;
    let signature = frame.signature_of(frame.here(), tx);
    share_call(frame.here(), signature, 0, args.as_slice(), out)?;
    out.put(Instruction::SelfCall {
        slot: result_slot(slot),
        tx,
        args,
    })
}

/// A `new`.
#[tactic(auto, using(crate::proofs::CodeLemmas::codes))]
pub fn put_new(
    frame: &EmissionFrame<'_>,
    slot: u8,
    contract: ContractId,
    args: &[Operand],
    out: &mut Code,
) -> Result<(), Memory>
    ensures { OnOk result (out.new ≡ out.old ++ new_code frame.now slot contract args.now) }
{
    let args = load_all(args, frame.scratch(), 0, out)?;
    share_new(frame.constructor_of(contract), args.as_slice(), out)?;
    out.put(Instruction::New {
        slot,
        contract,
        args,
    })
}

/// A change of state: it comes before the marks, since it may abort.
#[tactic(auto, using(crate::proofs::CodeLemmas::codes))]
pub fn put_change(
    frame: &EmissionFrame<'_>,
    state: StateId,
    given: &[Given],
    out: &mut Code,
) -> Result<(), Memory>
    ensures { OnOk result (out.new ≡ out.old ++ change_code frame.now.static.own frame.now.scratch state given.now) }
{
    let shared = load_given(given, frame.scratch(), out)?;
    let given = Items::from_slice(out.alloc(), shared.as_slice())?;
    out.put(Instruction::Change { state, given })?;
    share_given(shared.as_slice(), frame, out)
}

/// The object of a place is marked as disowned.
#[tactic(auto, using(crate::proofs::CodeLemmas::codes))]
pub fn put_disown(scratch: u8, place: Operand, out: &mut Code) -> Result<(), Memory>
    ensures { OnOk result (out.new ≡ out.old ++ disown_code scratch place) }
{
    let a = load(scratch, 0, place.place, out)?;
    out.put(Instruction::Disown { a })
}

/// The run is undone, with the text of a place.
#[tactic(auto, using(crate::proofs::CodeLemmas::codes))]
pub fn put_revert(scratch: u8, text: Operand, out: &mut Code) -> Result<(), Memory>
    ensures { OnOk result (out.new ≡ out.old ++ revert_code scratch text) }
{
    let a = load(scratch, 0, text.place, out)?;
    out.put(Instruction::Revert { a })
}

// A return without a value: a constructor's object is marked where it is given as Shared.
#[tactic(auto, using(crate::proofs::CodeLemmas::codes))]
fn put_return_none(frame: &EmissionFrame<'_>, out: &mut Code) -> Result<(), Memory>
    ensures { OnOk result (out.new ≡ out.old ++ return_none_code frame.now) }
{
    if frame.constructs() {
        let given = ResolvedType::Reference(frame.here(), frame.signature().exit);
        share(given, 0, out)?;
    }
    out.put(Instruction::Ret)
}

// A value comes into the result.
#[tactic(auto, using(crate::proofs::CodeLemmas::codes))]
fn share_result(signature: &Signature, slot: u8, out: &mut Code) -> Result<(), Memory>
    ensures { OnOk result (out.new ≡ out.old ++ share_result signature.now slot) }
{
    match signature.result {
        Some(of) => share(of, slot, out),
        None => Ok(()),
    }
}

/// A return.
#[tactic(auto, using(crate::proofs::CodeLemmas::codes))]
pub fn put_return(
    frame: &EmissionFrame<'_>,
    place: Option<Operand>,
    out: &mut Code,
) -> Result<(), Memory>
    ensures { OnOk result (out.new ≡ out.old ++ return_code frame.now place) }
{
    match place {
        None => put_return_none(frame, out),
        Some(place) => {
            let a = load(frame.scratch(), 0, place.place, out)?;
            share_result(frame.signature(), a, out)?;
            out.put(Instruction::RetValue { a })
        }
    }
}
