//! What a request comes to.
ghost use Rattle.std.specs.Prelude.{◌≡◌, Ok, IfOk};
ghost use Rattle.ob_heap.specs.Contents.{Stored, content_of};
ghost use Rattle.ob_wire.specs.declared.reply.Answer.TheVariants.{Refused};
ghost use Rattle.ob_exec_handles.specs.Coming.{LeadsTo};

use ob_base::{Items, Memory};
use ob_exec_handles::{Answered, ReadItem, Spent, refused};
use ob_heap::Delta;
use ob_wire::{Answer, Refusal};
use std::alloc::Global;

/// What a request comes to: its answer, what differs in the store, and what it takes and reads.
#[derive(Drop)]
pub struct Invoked {
    /// The answer.
    pub answer: Answer,
    /// What differs.
    pub delta: Delta,
    /// What it takes and reads.
    pub spent: Spent,
}

/// What a request comes to that is answered so and takes and reads this.
pub fn with_spent(answered: Result<Answered, Memory>, spent: Spent) -> Result<Invoked, Memory>
    ensures { IfOk result (λ i. (answered ≡ Ok (record { answer = i.answer; delta = i.delta })) × (i.spent ≡ spent)) }
{
    let Answered { answer, delta } = answered?;
    Ok(Invoked {
        answer,
        delta,
        spent,
    })
}

/// A request that isn't taken up, whose checks have read this.
pub fn refused_with(alloc: Global, refusal: Refusal, reads: Items<ReadItem>) -> Invoked
    ensures told { result.answer ≡ Refused refusal }
    ensures same { (base : Stored) → LeadsTo base result.delta (content_of base) }
    ensures taken { result.spent.taken ≡ 0 }
    ensures reads { result.spent.reads ≡ reads }
{
    let Answered { answer, delta } = refused(alloc, refusal);
    Invoked {
        answer,
        delta,
        spent: Spent { taken: 0, reads },
    }
}
