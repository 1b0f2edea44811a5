//! What stands around the terms of a body.
ghost use Rattle.std.specs.Prelude.{◌≡◌};
ghost use Rattle.std.specs.Option.{option_copied};
ghost use Rattle.ob_table.specs.Tables.{field_at, signature_of};
ghost use Rattle.ob_table_spec.specs.WellFormed.{frame_of, kind_of_resolved};
ghost use Rattle.ob_silica_formed.specs.Holdings.{kind_of_place, kind_of_result};
ghost use Rattle.ob_silica_kinds.specs.Kinds.{nothing_held};

use ob_base::{ContractId, FieldId, TxId};
use ob_silica::Place;
use ob_table::{Contract, Field, Kind, ResolvedType, Signature, Table};
use std::marker::Model;

/// The table, the contract of the body with its number, and its signature.
#[derive(Drop)]
pub struct StaticFrame<'a> {
    table: &'a Table,
    here: ContractId,
    own: &'a Contract,
    signature: &'a Signature,
}

impl<'a> Model for StaticFrame<'a> {
    ghost use Rattle.ob_table_spec.specs.WellFormed.{StaticFrame as Standing, frame_of};
    ghost use Rattle.std.specs.Coded.{codes};
    ghost use Rattle.ob_table.specs.StatementsBack.{statements_code};
    ghost use Rattle.ob_table.specs.contracts.stmt.ResolvedStmt as statement;

    ghost Value = { Standing };

    ghost coded = { Prim.hlevel (codes, statements_code statement.the_row.coded) };

    ghost view = { λ f. frame_of f.table.now f.here f.own.now f.signature.now };
}

/// The kind of a type, without its permission.
pub fn kind_of_resolved(of: ResolvedType) -> Kind
    ensures { result ≡ kind_of_resolved of }
{
    match of {
        ResolvedType::Int => Kind::Int,
        ResolvedType::Bool => Kind::Bool,
        ResolvedType::Text => Kind::Text,
        ResolvedType::Reference(contract, _) => Kind::Reference(contract),
    }
}

impl<'a> StaticFrame<'a> {
    /// Around a body of this contract, which has this number, with this signature.
    pub fn new(
        table: &'a Table,
        here: ContractId,
        own: &'a Contract,
        signature: &'a Signature,
    ) -> StaticFrame<'a>
        ensures { result ≡ frame_of table.now here own.now signature.now }
    {
        StaticFrame {
            table,
            here,
            own,
            signature,
        }
    }

    /// The class table.
    pub fn table(&self) -> &'a Table
        ensures { result.now ≡ self.now.table }
    {
        self.table
    }

    /// The number of the body's contract.
    pub fn here(&self) -> ContractId
        ensures { result ≡ self.now.here }
    {
        self.here
    }

    /// The field of this number of the body's contract.
    pub fn field(&self, id: FieldId) -> Option<&'a Field>
        ensures { option_copied result ≡ field_at self.now.own id }
    {
        self.own.field(id)
    }

    /// The kind of the value at a place, if it is known; that of a slot isn't.
    pub fn kind_at(&self, place: Place) -> Option<Kind>
        ensures { result ≡ kind_of_place self.now nothing_held place }
    {
        match place {
            Place::This => Some(Kind::Reference(self.here())),
            Place::Slot(_) => None,
            Place::Field(id) => match self.field(id) {
                Some(field) => Some(kind_of_resolved(field.of)),
                None => None,
            },
        }
    }

    /// The constructor or transaction of this number, of the contract or interface of a number.
    pub fn signature_of(&self, contract: ContractId, tx: TxId) -> Option<&'a Signature>
        ensures { option_copied result ≡ signature_of self.now.table contract tx }
    {
        match self.table.contract(contract) {
            Some(contract) => contract.signature(tx),
            None => None,
        }
    }

    /// The kind of what a transaction gives back, if it gives something.
    pub fn kind_of_result(&self, contract: ContractId, tx: TxId) -> Option<Kind>
        ensures { result ≡ kind_of_result self.now contract tx }
    {
        match self.signature_of(contract, tx) {
            Some(signature) => match signature.result {
                Some(of) => Some(kind_of_resolved(of)),
                None => None,
            },
            None => None,
        }
    }
}
