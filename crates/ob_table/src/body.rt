//! The bodies of transactions and constructors.
ghost use Rattle.std.specs.Prelude.{◌≡◌};
ghost use Rattle.ob_table.specs.StatementsView.{resolved_body_of};
ghost use Rattle.ob_table.specs.declared.body.Body.{Body};

use crate::stmt::ResolvedStmt;
use ob_base::{ContractId, Duplicate, Items, Memory, Span, TxId, copy_items};
use std::alloc::Global;

/// The body of a transaction or a constructor. That of a default constructor has no statement.
#[derive(Drop)]
pub struct Body {
    /// The contract that declares it.
    pub contract: ContractId,
    /// Which transaction or constructor of that contract it is.
    pub tx: TxId,
    /// The statements, in the order of the text.
    pub statements: Items<ResolvedStmt>,
    /// The place of the closing brace; of a default constructor, that of the contract's name.
    pub end: Span,
}

impl Duplicate for Body {
    fn copy(&self, alloc: Global) -> Result<Body, Memory> {
        Ok(Body {
            contract: self.contract,
            tx: self.tx,
            statements: copy_items(alloc, &self.statements)?,
            end: self.end,
        })
    }
}

/// Two bodies whose plain data are the same are the same: no part and no place is lost on the way.
pub fn body_loses_nothing()
    ensures { (a b : Body) → resolved_body_of a ≡ resolved_body_of b → a ≡ b }
{}
