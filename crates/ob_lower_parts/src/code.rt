//! Terms that are being made.
ghost use Rattle.std.specs.Prelude.{◌≡◌, OnOk};
ghost use Rattle.ob_silica.specs.Terms.{no_terms, drop_form, then_terms};
ghost use Rattle.ob_silica.specs.TermsView.{form_of, terms_of};
ghost use Rattle.ob_lower_spec.specs.Forms.{drops};
ghost use Rattle.ob_lower_functions.specs.Progress.{with_term};

use ob_base::{Items, Memory, Span};
use ob_silica::{Form, Term};
use std::alloc::Global;
use std::marker::Model;

/// The terms so far.
#[derive(Drop)]
pub struct Code {
    alloc: Global,
    terms: Items<Term>,
}

impl Model for Code {
    ghost use Rattle.ob_silica.specs.Terms.{SilicaTerms};
    ghost use Rattle.ob_silica.specs.TermsBack.{terms_code};
    ghost use Rattle.ob_silica.specs.contracts.term.Term as term;

    ghost Value = { SilicaTerms };

    ghost coded = { terms_code term.the_row.coded };

    ghost use Rattle.ob_silica.specs.TermsView.{terms_of};

    ghost view = { λ c. terms_of c.terms };
}

impl Code {
    /// No terms yet.
    pub fn new(alloc: Global) -> Code
        ensures { result ≡ no_terms }
    {
        Code {
            alloc,
            terms: Items::new(alloc),
        }
    }

    /// What allocates the terms.
    pub fn alloc(&self) -> Global {
        self.alloc
    }

    /// One more term.
    #[tactic(auto, using(crate::proofs::CodeLemmas::views))]
    pub fn put(&mut self, form: Form, span: Span) -> Result<(), Memory>
        ensures { OnOk result (self.new ≡ with_term self.old (form_of form) span) }
    {
        self.terms.push(Term { form, span })?;
        Ok(())
    }

    /// Drops a slot.
    #[tactic(auto, using(crate::proofs::CodeLemmas::views))]
    pub fn put_drop(&mut self, slot: u8, span: Span) -> Result<(), Memory>
        ensures { OnOk result (self.new ≡ with_term self.old (drop_form slot) span) }
    {
        self.put(Form::Drop { slot }, span)
    }

    /// Drops these slots in their order.
    #[tactic(auto, using(crate::proofs::CodeLemmas::code))]
    pub fn put_drops(&mut self, slots: &[u8], span: Span) -> Result<(), Memory>
        ensures { OnOk result (self.new ≡ then_terms self.old (drops slots.now span)) }
    {
        for slot in slots {
            self.put_drop(*slot, span)?;
        }
        Ok(())
    }

    /// The terms.
    pub fn into_terms(self) -> Items<Term>
        ensures { terms_of result ≡ self }
    {
        self.terms
    }
}
