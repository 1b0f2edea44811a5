//! What a contract declares (Coblenz et al., TOPLAS 42(3), 2020; the Obsidian language documentation, "Contracts").
ghost use Rattle.std.specs.Prelude.{◌≡◌};
ghost use Rattle.std.specs.Option.{option_copied};
ghost use Rattle.ob_table.specs.Tables.{field_at, signature_at};

use ob_base::{
    ContractId, Duplicate, FieldId, Items, Memory, Name, Perm, Text, TxId, both, copy_items,
};
use std::alloc::Global;

/// The type of a field, a parameter or a result.
#[derive(Clone, Copy)]
pub enum ResolvedType {
    /// `int`: a whole number from -2^63 to 2^63 - 1.
    Int,
    /// `bool`
    Bool,
    /// `string`
    Text,
    /// A reference to an object of this contract, or of one that implements this interface, and what it holds of it.
    Reference(ContractId, Perm),
}

/// A field.
#[derive(Drop)]
pub struct Field {
    /// The name of the field.
    pub name: Name,
    /// Its type, with the permission that is declared of a reference.
    pub of: ResolvedType,
    /// The states in which an object has it, as a set of bits: bit i is the state i, and bit `NO_STATE_BIT` no state.
    pub available: u64,
}

impl Duplicate for Field {
    fn copy(&self, alloc: Global) -> Result<Field, Memory> {
        Ok(Field {
            name: self.name.copy(alloc)?,
            of: self.of,
            available: self.available,
        })
    }
}

/// A parameter of a transaction or a constructor, other than `this`.
#[derive(Drop)]
pub struct Param {
    /// The name of the parameter.
    pub name: Name,
    /// Its type, with the permission at the entry.
    pub of: ResolvedType,
    /// The permission at the exit; `Unowned` for a value.
    pub exit: Perm,
}

impl Duplicate for Param {
    fn copy(&self, alloc: Global) -> Result<Param, Memory> {
        Ok(Param {
            name: self.name.copy(alloc)?,
            of: self.of,
            exit: self.exit,
        })
    }
}

/// A field that a private transaction lists, since it isn't as declared there.
#[derive(Clone, Copy)]
pub struct Listed {
    /// The field, which is a reference.
    pub field: FieldId,
    /// The permission of the field at the entry.
    pub entry: Perm,
    /// The permission of the field at the exit.
    pub exit: Perm,
}

/// A transaction or a constructor, without its body.
#[derive(Drop)]
pub struct Signature {
    /// Empty for a constructor.
    pub name: Text,
    /// Whether it is called on `this` alone.
    pub private: bool,
    /// The permission of `this` at the entry.
    pub entry: Perm,
    /// The permission of `this` at the exit; of a constructor, what it gives.
    pub exit: Perm,
    /// The parameters beside `this`, in the order of the text.
    pub params: Items<Param>,
    /// The type of its result, with what the caller holds of it; `None` without a result.
    pub result: Option<ResolvedType>,
    /// The fields that it lists, each once: none unless it is private.
    pub listed: Items<Listed>,
}

impl Duplicate for Signature {
    fn copy(&self, alloc: Global) -> Result<Signature, Memory> {
        let listed = Items::from_slice(alloc, self.listed.as_slice())?;
        let (name, params) = both(self.name.copy(alloc), copy_items(alloc, &self.params))?;
        Ok(Signature {
            name,
            private: self.private,
            entry: self.entry,
            exit: self.exit,
            params,
            result: self.result,
            listed,
        })
    }
}

/// A contract, or an interface.
#[derive(Drop)]
pub struct Contract {
    /// The name of the contract or interface.
    pub name: Text,
    /// Whether its objects are assets, which must not be lost.
    pub asset: bool,
    /// Whether it is the one that clients make objects of.
    pub main: bool,
    /// Whether it is an interface, whose transactions have no bodies.
    pub interface: bool,
    /// The interface that it implements.
    pub implements: Option<ContractId>,
    /// In the order of the text, so that the place of a state is its number.
    pub states: Items<Name>,
    /// In the order of the text, those of states included, so that the place of a field is its number.
    pub fields: Items<Field>,
    /// The number of its constructor, written or default; an interface has none.
    pub constructor: Option<TxId>,
    /// The constructor, if there is one, and then the transactions in the order of the text, so that the place of each is
    /// its number.
    pub transactions: Items<Signature>,
}

impl Contract {
    /// The field of this number.
    pub fn field(&self, id: FieldId) -> Option<&Field>
        ensures { option_copied result ≡ field_at self.now id }
    {
        self.fields.get(id.0 as usize)
    }

    /// The constructor or transaction of this number.
    pub fn signature(&self, id: TxId) -> Option<&Signature>
        ensures { option_copied result ≡ signature_at self.now id }
    {
        self.transactions.get(id.0 as usize)
    }
}

impl Duplicate for Contract {
    fn copy(&self, alloc: Global) -> Result<Contract, Memory> {
        let ((name, states), (fields, transactions)) = both(
            both(self.name.copy(alloc), copy_items(alloc, &self.states)),
            both(
                copy_items(alloc, &self.fields),
                copy_items(alloc, &self.transactions),
            ),
        )?;
        Ok(Contract {
            name,
            asset: self.asset,
            main: self.main,
            interface: self.interface,
            implements: self.implements,
            states,
            fields,
            constructor: self.constructor,
            transactions,
        })
    }
}
