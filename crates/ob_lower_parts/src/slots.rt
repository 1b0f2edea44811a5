//! The slots of a statement.
ghost use Rattle.std.specs.Prelude.{◌≡◌, ◌<◌, true, IfOk, OnOk};
ghost use Rattle.ob_lower_functions.specs.Progress.{slots_from, next_slot, kept};
ghost use Rattle.ob_lower_parts.specs.Makes.{Makes};

use crate::error::Stopped;
use ob_base::{Items, MOST_SLOTS, Memory, Span};
use std::alloc::Global;
use std::marker::Model;

/// How many slots are in use, and those of the statement's temporaries that are references, in the order made.
#[derive(Drop)]
pub struct Slots {
    top: u8,
    references: Items<u8>,
}

impl Model for Slots {
    ghost use Rattle.ob_lower_functions.specs.Progress.{Slots as InUse};

    ghost Value = { InUse };

    ghost view = { λ s. record { top = s.top; references = s.references } };
}

impl Slots {
    /// So many slots in use, and no temporaries.
    pub fn new(alloc: Global, top: u8) -> Slots
        ensures { result ≡ slots_from top }
    {
        Slots {
            top,
            references: Items::new(alloc),
        }
    }

    /// The next slot, which is needed at this span.
    #[tactic(auto, using(crate::proofs::SlotsLemmas::slots))]
    pub fn next(&mut self, span: Span) -> Result<u8, Stopped>
        ensures slot { Makes result (λ k. (self.new, k)) (next_slot span self.old) }
        ensures within { IfOk result (λ k. k < MOST_SLOTS) }
    {
        if self.top >= MOST_SLOTS {
            return Err(Stopped::Full(span));
        }
        let slot = self.top;
        self.top += 1;
        Ok(slot)
    }

    /// Keeps the slot of a temporary that is a reference.
    pub fn keep(&mut self, slot: u8) -> Result<(), Memory>
        ensures { OnOk result (self.new ≡ kept true slot self.old) }
    {
        self.references.push(slot)?;
        Ok(())
    }

    /// The slots that are kept.
    pub fn references(&self) -> &[u8]
        ensures { result.now ≡ self.now.references }
    {
        self.references.as_slice()
    }
}
