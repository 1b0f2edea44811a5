//! What stands around the forms of a body.
ghost use Rattle.std.specs.Prelude.{◌≡◌};
ghost use Rattle.std.specs.Option.{option_copied};
ghost use Rattle.ob_table.specs.Tables.{field_at, signature_of};
ghost use Rattle.ob_table_spec.specs.WellFormed.{is_constructor, constructor_at};
ghost use Rattle.ob_silica.specs.TermsView.{silica_body_of};
ghost use Rattle.ob_emit_spec.specs.EmittedImages.{frame_of_body};

use ob_base::{ContractId, FieldId, TxId};
use ob_silica::TermBody;
use ob_silica_kinds::StaticFrame;
use ob_table::{Contract, Field, Signature, Table};
use std::marker::Model;

/// What stands around the terms of the body, its signature, whether it is a constructor's, and the number of its first scratch slot.
#[derive(Drop)]
pub struct EmissionFrame<'a> {
    static_frame: StaticFrame<'a>,
    signature: &'a Signature,
    constructs: bool,
    scratch: u8,
}

impl<'a> Model for EmissionFrame<'a> {
    ghost use Rattle.ob_emit_spec.specs.Emission.{EmissionFrame as Standing};
    ghost use Rattle.std.specs.Coded.{codes};
    ghost use Rattle.ob_table.specs.StatementsBack.{statements_code};
    ghost use Rattle.ob_table.specs.contracts.stmt.ResolvedStmt as statement;

    ghost Value = { Standing };

    ghost coded = { Prim.hlevel (codes, statements_code statement.the_row.coded) };

    ghost view = { λ f. record {
      static = f.static_frame;
      signature = f.signature.now;
      constructs = f.constructs;
      scratch = f.scratch;
    } };
}

/// Whether a number is that of a constructor.
pub fn is_constructor(table: &Table, contract: ContractId, tx: u32) -> bool
    ensures { result ≡ is_constructor table.now contract tx }
{
    match table.contract(contract) {
        Some(contract) => !contract.interface && tx == 0,
        None => false,
    }
}

impl<'a> EmissionFrame<'a> {
    /// Around a body of this contract, which has this number, with this signature.
    pub fn new(
        table: &'a Table,
        here: ContractId,
        own: &'a Contract,
        tx: TxId,
        signature: &'a Signature,
        body: &TermBody,
    ) -> EmissionFrame<'a>
        ensures { result ≡ frame_of_body table.now here own.now tx signature.now (silica_body_of body.now) }
    {
        EmissionFrame {
            static_frame: StaticFrame::new(table, here, own, signature),
            signature,
            constructs: is_constructor(table, here, tx.0),
            scratch: body.slots,
        }
    }

    /// What stands around the terms of the body.
    pub fn static_frame(&self) -> &StaticFrame<'a>
        ensures { result.now ≡ self.now.static }
    {
        &self.static_frame
    }

    /// The number of the body's contract.
    pub fn here(&self) -> ContractId
        ensures { result ≡ self.now.static.here }
    {
        self.static_frame.here()
    }

    /// The body's signature.
    pub fn signature(&self) -> &'a Signature
        ensures { result.now ≡ self.now.signature }
    {
        self.signature
    }

    /// Whether the body is a constructor's.
    pub fn constructs(&self) -> bool
        ensures { result ≡ self.now.constructs }
    {
        self.constructs
    }

    /// The number of the body's first scratch slot.
    pub fn scratch(&self) -> u8
        ensures { result ≡ self.now.scratch }
    {
        self.scratch
    }

    /// The field of this number of the body's contract.
    pub fn field(&self, id: FieldId) -> Option<&'a Field>
        ensures { option_copied result ≡ field_at self.now.static.own id }
    {
        self.static_frame.field(id)
    }

    /// The constructor or transaction of this number, of the contract or interface of a number.
    pub fn signature_of(&self, contract: ContractId, tx: TxId) -> Option<&'a Signature>
        ensures { option_copied result ≡ signature_of self.now.static.table contract tx }
    {
        self.static_frame.signature_of(contract, tx)
    }

    /// The constructor of a contract that is no interface.
    pub fn constructor_of(&self, contract: ContractId) -> Option<&'a Signature>
        ensures { option_copied result ≡ constructor_at self.now.static.table contract }
    {
        match self.static_frame.table().contract(contract) {
            Some(contract) => {
                if contract.interface {
                    None
                } else {
                    contract.signature(TxId(0))
                }
            }
            None => None,
        }
    }
}
