//! The bodies of transactions and constructors as terms.
ghost use Rattle.std.specs.Prelude.{◌≡◌};
ghost use Rattle.ob_silica.specs.TermsView.{silica_body_of};
ghost use Rattle.ob_silica.specs.declared.body.TermBody.{TermBody};

use crate::term::Term;
use ob_base::{ContractId, Duplicate, Items, Memory, Span, TxId, copy_items};
use std::alloc::Global;

/// The body of a transaction or a constructor.
#[derive(Drop)]
pub struct TermBody {
    /// The contract that declares it.
    pub contract: ContractId,
    /// Which transaction or constructor of that contract it is.
    pub tx: TxId,
    /// What the body does, in order.
    pub terms: Items<Term>,
    /// One more than the greatest slot among `this`, the parameters and the slots that the terms name.
    pub slots: u8,
    /// The place of the closing brace; of a default constructor, that of the contract's name.
    pub end: Span,
}

impl Duplicate for TermBody {
    fn copy(&self, alloc: Global) -> Result<TermBody, Memory> {
        Ok(TermBody {
            contract: self.contract,
            tx: self.tx,
            terms: copy_items(alloc, &self.terms)?,
            slots: self.slots,
            end: self.end,
        })
    }
}

/// Two bodies whose plain data are the same are the same: no part and no place is lost on the way.
pub fn term_body_loses_nothing()
    ensures { (a b : TermBody) → silica_body_of a ≡ silica_body_of b → a ≡ b }
{}
