//! The instructions of the machine (this project's own).
use crate::text::CodeText;
use ob_base::{ContractId, Duplicate, FieldId, Items, Memory, Operator, StateId, TxId};
use std::alloc::Global;

/// The slot that a call names where no slot gets a result.
pub const NO_RESULT: u8 = 255;

/// An instruction. Operands that name slots are numbers of slots of the frame, and targets are places of instructions in the
/// body.
#[derive(Drop)]
pub enum Instruction {
    /// Takes a unit of fuel.
    Unit,
    /// A slot gets this whole number.
    Int {
        /// The slot that is set.
        slot: u8,
        /// The number.
        value: i64,
    },
    /// A slot gets this truth value.
    Bool {
        /// The slot that is set.
        slot: u8,
        /// 1 for true and 0 for false.
        value: u8,
    },
    /// A slot gets this text.
    Text {
        /// The slot that is set.
        slot: u8,
        /// The text.
        value: CodeText,
    },
    /// A slot gets what another holds.
    Copy {
        /// The slot that is set.
        slot: u8,
        /// The slot that is read.
        a: u8,
    },
    /// A slot gets the value of a field of `this`.
    Load {
        /// The slot that is set.
        slot: u8,
        /// The field that is read.
        field: FieldId,
    },
    /// A field of `this` gets what a slot holds.
    Store {
        /// The field that is set.
        field: FieldId,
        /// The slot that is read.
        a: u8,
    },
    /// A slot gets what an operator gives; an overflow aborts with the line.
    Op {
        /// The slot that is set.
        slot: u8,
        /// The operator.
        operator: Operator,
        /// The slot of the left operand, or of the only one.
        a: u8,
        /// The slot of the right operand; for an operator of one operand, the same again.
        b: u8,
        /// The line of the operator in the program's text, from 1.
        line: u32,
    },
    /// Goes to the target.
    Jump {
        /// The place of the next instruction.
        target: u32,
    },
    /// Goes to the target where a slot holds false.
    Unless {
        /// The slot that is read.
        a: u8,
        /// The place of the next instruction where it is false.
        target: u32,
    },
    /// Tests the state of an object; goes to the target where it is another one, and else notes the test, with its lock if it
    /// takes one.
    Test {
        /// The slot of the object.
        a: u8,
        /// The contract or interface whose state is meant.
        contract: ContractId,
        /// The state.
        state: StateId,
        /// The place of the next instruction where the object is in another state.
        target: u32,
    },
    /// Ends the last noted test, with its lock.
    EndTest,
    /// `this` changes its state.
    Change {
        /// The new state.
        state: StateId,
        /// The fields that are given with it, each with the slot of its value.
        given: Items<(FieldId, u8)>,
    },
    /// Makes an object and runs its constructor; a slot gets the object.
    New {
        /// The slot that is set.
        slot: u8,
        /// The contract of the object.
        contract: ContractId,
        /// The slots of the arguments.
        args: Items<u8>,
    },
    /// Calls a transaction of an object.
    Call {
        /// The slot that gets the result, or `NO_RESULT`.
        slot: u8,
        /// The slot of the object that is called.
        a: u8,
        /// The contract or interface whose transaction is meant.
        contract: ContractId,
        /// The transaction.
        tx: TxId,
        /// The slots of the arguments.
        args: Items<u8>,
    },
    /// Calls a transaction of `this`.
    SelfCall {
        /// The slot that gets the result, or `NO_RESULT`.
        slot: u8,
        /// The transaction.
        tx: TxId,
        /// The slots of the arguments.
        args: Items<u8>,
    },
    /// Marks an object as shared.
    Share {
        /// The slot of the object.
        a: u8,
    },
    /// Marks an object as disowned.
    Disown {
        /// The slot of the object.
        a: u8,
    },
    /// Returns without a result.
    Ret,
    /// Returns what a slot holds.
    RetValue {
        /// The slot of the result.
        a: u8,
    },
    /// Aborts with a text.
    Revert {
        /// The slot of the text.
        a: u8,
    },
}

impl Duplicate for Instruction {
    fn copy(&self, alloc: Global) -> Result<Instruction, Memory> {
        match self {
            Instruction::Unit => Ok(Instruction::Unit),
            Instruction::Int { slot, value } => Ok(Instruction::Int {
                slot: *slot,
                value: *value,
            }),
            Instruction::Bool { slot, value } => Ok(Instruction::Bool {
                slot: *slot,
                value: *value,
            }),
            Instruction::Text { slot, value } => Ok(Instruction::Text {
                slot: *slot,
                value: value.copy(alloc)?,
            }),
            Instruction::Copy { slot, a } => Ok(Instruction::Copy { slot: *slot, a: *a }),
            Instruction::Load { slot, field } => Ok(Instruction::Load {
                slot: *slot,
                field: *field,
            }),
            Instruction::Store { field, a } => Ok(Instruction::Store {
                field: *field,
                a: *a,
            }),
            Instruction::Op {
                slot,
                operator,
                a,
                b,
                line,
            } => Ok(Instruction::Op {
                slot: *slot,
                operator: *operator,
                a: *a,
                b: *b,
                line: *line,
            }),
            Instruction::Jump { target } => Ok(Instruction::Jump { target: *target }),
            Instruction::Unless { a, target } => Ok(Instruction::Unless {
                a: *a,
                target: *target,
            }),
            Instruction::Test {
                a,
                contract,
                state,
                target,
            } => Ok(Instruction::Test {
                a: *a,
                contract: *contract,
                state: *state,
                target: *target,
            }),
            Instruction::EndTest => Ok(Instruction::EndTest),
            Instruction::Change { state, given } => Ok(Instruction::Change {
                state: *state,
                given: Items::from_slice(alloc, given.as_slice())?,
            }),
            Instruction::New {
                slot,
                contract,
                args,
            } => Ok(Instruction::New {
                slot: *slot,
                contract: *contract,
                args: Items::from_slice(alloc, args.as_slice())?,
            }),
            Instruction::Call {
                slot,
                a,
                contract,
                tx,
                args,
            } => Ok(Instruction::Call {
                slot: *slot,
                a: *a,
                contract: *contract,
                tx: *tx,
                args: Items::from_slice(alloc, args.as_slice())?,
            }),
            Instruction::SelfCall { slot, tx, args } => Ok(Instruction::SelfCall {
                slot: *slot,
                tx: *tx,
                args: Items::from_slice(alloc, args.as_slice())?,
            }),
            Instruction::Share { a } => Ok(Instruction::Share { a: *a }),
            Instruction::Disown { a } => Ok(Instruction::Disown { a: *a }),
            Instruction::Ret => Ok(Instruction::Ret),
            Instruction::RetValue { a } => Ok(Instruction::RetValue { a: *a }),
            Instruction::Revert { a } => Ok(Instruction::Revert { a: *a }),
        }
    }
}
