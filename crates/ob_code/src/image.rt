//! Images: what a program's contracts declare, and the code of their bodies (this project's own). Each type has one field for
//! each part of its row in the grammar of their bytes.
use crate::instruction::Instruction;
use crate::text::CodeText;
use ob_base::{ContractId, Duplicate, Items, Memory, Mode, both, copy_items};
use std::alloc::Global;

/// A permission.
#[derive(Clone, Copy)]
pub struct PermCode {
    /// How the object is held.
    pub mode: Mode,
    /// The states of an owner, as a set of bits: bit i is the state i, bit `NO_STATE_BIT` no state, bit `OTHER_STATE_BIT` any
    /// state that an interface doesn't name.
    pub states: i64,
}

/// The type of a field or a result.
#[derive(Clone, Copy)]
pub enum TypeCode {
    /// `int`: a whole number from -2^63 to 2^63 - 1.
    Int,
    /// `bool`
    Bool,
    /// `string`
    Text,
    /// A reference to an object of this contract, or of one that implements this interface, and what it holds of it.
    Reference(ContractId, PermCode),
}

/// The type of a parameter.
#[derive(Clone, Copy)]
pub enum ParamCode {
    /// `int`: a whole number from -2^63 to 2^63 - 1.
    Int,
    /// `bool`
    Bool,
    /// `string`
    Text,
    /// A reference to an object of this contract, or of one that implements this interface, with its permission at the entry
    /// and at the exit.
    Reference(ContractId, PermCode, PermCode),
}

/// A field.
#[derive(Drop)]
pub struct FieldCode {
    /// The name of the field.
    pub name: CodeText,
    /// Its type.
    pub of: TypeCode,
    /// The states in which an object has it, as a set of bits: bit i is the state i, and bit `NO_STATE_BIT` no state.
    pub available: i64,
}

impl Duplicate for FieldCode {
    fn copy(&self, alloc: Global) -> Result<FieldCode, Memory> {
        Ok(FieldCode {
            name: self.name.copy(alloc)?,
            of: self.of,
            available: self.available,
        })
    }
}

/// The body of a constructor or transaction, or the signature of an interface's transaction.
#[derive(Drop)]
pub struct BodyCode {
    /// The name of the transaction; empty for a constructor.
    pub name: CodeText,
    /// Marks as bits: 1 for a private transaction, 2 for a constructor, 4 for a body whose `this` is Shared at the entry.
    pub flags: u8,
    /// The permission of `this` at the entry.
    pub entry: PermCode,
    /// The permission of `this` at the exit; of a constructor, what it gives.
    pub exit: PermCode,
    /// The parameters beside `this`, in their order.
    pub params: Items<ParamCode>,
    /// The type of its result; `None` without a result.
    pub result: Option<TypeCode>,
    /// How many slots a frame of it has: slot 0 holds `this`, and the next ones the arguments.
    pub slots: u8,
    /// The instructions, in their order, so that the place of each is the number by which jumps name it.
    pub instructions: Items<Instruction>,
}

impl Duplicate for BodyCode {
    fn copy(&self, alloc: Global) -> Result<BodyCode, Memory> {
        let params = Items::from_slice(alloc, self.params.as_slice())?;
        let (name, instructions) = both(
            self.name.copy(alloc),
            copy_items(alloc, &self.instructions),
        )?;
        Ok(BodyCode {
            name,
            flags: self.flags,
            entry: self.entry,
            exit: self.exit,
            params,
            result: self.result,
            slots: self.slots,
            instructions,
        })
    }
}

/// A contract, or an interface.
#[derive(Drop)]
pub struct ContractCode {
    /// The name of the contract or interface.
    pub name: CodeText,
    /// Marks as bits: 1 for an asset, 2 for the main contract, 4 for an interface.
    pub flags: u8,
    /// The number of the interface that it implements, plus 1; 0 for none.
    pub implements: u32,
    /// The names of its states, in their order.
    pub states: Items<CodeText>,
    /// Its fields, in their order.
    pub fields: Items<FieldCode>,
    /// Its constructor, if it has one, and its transactions, in their order, so that the place of each is its number.
    pub bodies: Items<BodyCode>,
}

impl Duplicate for ContractCode {
    fn copy(&self, alloc: Global) -> Result<ContractCode, Memory> {
        let ((name, states), (fields, bodies)) = both(
            both(self.name.copy(alloc), copy_items(alloc, &self.states)),
            both(
                copy_items(alloc, &self.fields),
                copy_items(alloc, &self.bodies),
            ),
        )?;
        Ok(ContractCode {
            name,
            flags: self.flags,
            implements: self.implements,
            states,
            fields,
            bodies,
        })
    }
}

/// A program's code: its contracts and interfaces in the order of their numbers.
#[derive(Drop)]
pub struct Image {
    /// The contracts and interfaces.
    pub contracts: Items<ContractCode>,
}

impl Duplicate for Image {
    fn copy(&self, alloc: Global) -> Result<Image, Memory> {
        Ok(Image {
            contracts: copy_items(alloc, &self.contracts)?,
        })
    }
}
