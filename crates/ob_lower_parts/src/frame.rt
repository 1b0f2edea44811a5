//! What stands around a body and its expressions.
ghost use Rattle.std.specs.Prelude.{◌≡◌, option_map};
ghost use Rattle.std.specs.Option.{option_and_then};
ghost use Rattle.ob_table.specs.Tables.{signature_of};
ghost use Rattle.ob_table_spec.specs.WellFormed.{frame_of, kind_of_seen, kind_of_resolved};
ghost use Rattle.ob_lower_spec.specs.Forms.{locals_of, place_seen};
ghost use Rattle.ob_lower_functions.specs.ExpressionCode.{kind_of_result};

use crate::variables::Variables;
use ob_base::{ContractId, Span, TxId};
use ob_silica::Place;
use ob_table::{Contract, Kind, ResolvedType, Seen, Signature, Table};
use std::marker::Model;

/// The table, the body's contract with its number, and the body's signature.
#[derive(Drop)]
pub struct StaticFrame<'a> {
    table: &'a Table,
    here: ContractId,
    own: &'a Contract,
    signature: &'a Signature,
}

impl<'a> Model for StaticFrame<'a> {
    ghost use Rattle.ob_table_spec.specs.WellFormed.{StaticFrame as Standing};
    ghost use Rattle.std.specs.Coded.{codes};
    ghost use Rattle.ob_table.specs.StatementsBack.{statements_code};
    ghost use Rattle.ob_table.specs.contracts.stmt.ResolvedStmt as statement;

    ghost Value = { Standing };

    ghost coded = { Prim.hlevel (codes, statements_code statement.the_row.coded) };

    ghost use Rattle.ob_table_spec.specs.WellFormed.{frame_of};

    ghost view = { λ f. frame_of f.table.now f.here f.own.now f.signature.now };
}

/// The kind of a type, without its permission.
pub fn kind_of_resolved(kind: &ResolvedType) -> Kind
    ensures { result ≡ kind_of_resolved kind.now }
{
    match kind {
        ResolvedType::Int => Kind::Int,
        ResolvedType::Bool => Kind::Bool,
        ResolvedType::Text => Kind::Text,
        ResolvedType::Reference(contract, _) => Kind::Reference(*contract),
    }
}

impl<'a> StaticFrame<'a> {
    /// Around a body of this contract, which has this number, with this signature.
    pub fn new(
        table: &'a Table,
        here: ContractId,
        own: &'a Contract,
        signature: &'a Signature,
    ) -> StaticFrame<'a>
        ensures { result ≡ frame_of table.now here own.now signature.now }
    {
        StaticFrame {
            table,
            here,
            own,
            signature,
        }
    }
}

/// What stands around an expression: the body's frame, what is visible, and the place of its terms.
#[derive(Drop)]
pub struct AroundExpression<'a> {
    frame: &'a StaticFrame<'a>,
    variables: &'a Variables,
    span: Span,
}

impl<'a> Model for AroundExpression<'a> {
    ghost use Rattle.ob_lower_spec.specs.Forms.{AroundExpression as Standing};
    ghost use Rattle.std.specs.Coded.{codes};
    ghost use Rattle.ob_table.specs.StatementsBack.{statements_code};
    ghost use Rattle.ob_table.specs.contracts.stmt.ResolvedStmt as statement;

    ghost Value = { Standing };

    ghost coded = { Prim.hlevel (codes, statements_code statement.the_row.coded) };

    ghost view = { λ a. record { frame = a.frame.now; variables = a.variables.now; span = a.span } };
}

impl<'a> AroundExpression<'a> {
    /// Around an expression of a statement at this place.
    pub fn new(
        frame: &'a StaticFrame<'a>,
        variables: &'a Variables,
        span: Span,
    ) -> AroundExpression<'a>
        ensures { result ≡ record { frame = frame.now; variables = variables.now; span = span } }
    {
        AroundExpression {
            frame,
            variables,
            span,
        }
    }

    /// The place of the expression's terms.
    pub fn span(&self) -> Span
        ensures { result ≡ self.now.span }
    {
        self.span
    }

    /// The kind of the result of a transaction, if it has one.
    pub fn kind_of_result(&self, contract: ContractId, tx: TxId) -> Option<Kind>
        ensures { result ≡ kind_of_result self.now contract tx }
    {
        let frame = self.frame;
        match frame.table.contract(contract) {
            None => None,
            Some(called) => match called.signature(tx) {
                None => None,
                Some(signature) => match &signature.result {
                    None => None,
                    Some(kind) => Some(kind_of_resolved(kind)),
                },
            },
        }
    }

    /// The kind of what a name denotes.
    pub fn kind_of_seen(&self, seen: Seen) -> Option<Kind>
        ensures { result ≡ kind_of_seen self.now.frame (locals_of self.now.variables) seen }
    {
        let frame = self.frame;
        match seen {
            Seen::This => Some(Kind::Reference(frame.here)),
            Seen::Local(local) => self.variables.kind_of(local),
            Seen::Field(id) => match frame.own.field(id) {
                None => None,
                Some(field) => Some(kind_of_resolved(&field.of)),
            },
        }
    }

    /// Where what a name denotes is found.
    pub fn place_seen(&self, seen: Seen) -> Option<Place>
        ensures { result ≡ place_seen self.now.variables seen }
    {
        self.variables.place_seen(seen)
    }
}
