//! What a request came to.
ghost use Rattle.std.specs.Prelude.{◌≡◌};
ghost use Rattle.ob_heap.specs.Contents.{Stored, content_of};
ghost use Rattle.ob_wire.specs.declared.reply.Answer.TheVariants.{Refused};
ghost use Rattle.ob_exec_handles.specs.Coming.{LeadsTo};

use ob_heap::{Delta, Sequence};
use ob_wire::{Answer, Refusal};
use std::alloc::Global;

/// What a request came to: its answer, and what differs in the store.
#[derive(Drop)]
pub struct Answered {
    /// The answer.
    pub answer: Answer,
    /// What differs.
    pub delta: Delta,
}

/// A request that leaves what the store holds.
pub fn unchanged(alloc: Global, answer: Answer) -> Answered
    ensures told { result.answer ≡ answer }
    ensures same { (base : Stored) → LeadsTo base result.delta (content_of base) }
{
    let objects = Sequence::new(alloc);
    let handles = Sequence::new(alloc);
    Answered {
        answer,
        delta: Delta { objects, handles },
    }
}

/// A request that isn't taken up.
pub fn refused(alloc: Global, refusal: Refusal) -> Answered
    ensures told { result.answer ≡ Refused refusal }
    ensures same { (base : Stored) → LeadsTo base result.delta (content_of base) }
{
    unchanged(alloc, Answer::Refused(refusal))
}
