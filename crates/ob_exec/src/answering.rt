//! The answer to a request.
ghost use Rattle.std.specs.Prelude.{◌≡◌, ℕ, Some, Ok, map, IsSome, IfOk};
ghost use Rattle.ob_heap.specs.Contents.{content_of};
ghost use Rattle.ob_code_table.specs.ImageTables.{table_of_image};
ghost use Rattle.ob_machine_meaning.specs.Meanings.{machine_invocation};
ghost use Rattle.ob_wire.specs.Meanings.{request_of};
ghost use Rattle.ob_owners.specs.Spots.{owner_place};
ghost use Rattle.ob_exec_entries.specs.Naming.{IsNamesOf};
ghost use Rattle.ob_exec_handles.specs.Coming.{ComesTo, IsInLimits};
ghost use Rattle.ob_exec_handles.specs.Spending.{item_of, SpendsSo};

use crate::opening::open;
use crate::stage::{SliceEnd, Stage};
use ob_base::Memory;
use ob_exec_entries::Names;
use ob_exec_handles::{Answered, Spent};
use ob_heap::{Content, Delta};
use ob_owners::Index;
use ob_verify::Verified;
use ob_wire::{Answer, Reply, Request};
use std::alloc::Global;

/// The reply to a request, with this answer.
pub fn reply_to(request: &Request, answer: Answer) -> Reply
    ensures id { result.id ≡ Some request.now.id }
    ensures answer { result.answer ≡ answer }
{
    Reply {
        id: Some(request.id),
        answer,
    }
}

// What is told of a request whose run has ended.
fn told(request: &Request, end: Result<SliceEnd, Memory>) -> Result<(Reply, Delta, Spent), Memory>
    requires { IfOk end (λ end. IsSome end.answered) }
    ensures id { IfOk result (λ a. a.0.id ≡ Some request.now.id) }
    ensures told { IfOk result (λ a. end ≡ Ok (record {
      answered = Some (record { answer = a.0.answer; delta = a.1 });
      reads = map item_of a.2.reads;
      taken = a.2.taken;
    })) }
{
    let SliceEnd {
        answered,
        reads,
        taken,
    } = end?;
    match answered {
        Some(answered) => {
            let Answered { answer, delta } = answered;
            let reply = reply_to(request, answer);
            let reads = reads.into_items();
            Ok((reply, delta, Spent { taken, reads }))
        }
        None => unreachable!(),
    }
}

/// What a request is answered by the code of a program, what differs in the store after it, and what it takes and reads. The index tells
/// the owners of the store's objects. The request must not go wrong, which sound code gives, and leave no more objects than there may be.
pub fn answer<I: Index>(
    alloc: Global,
    code: &Verified,
    names: &Names,
    content: &Content,
    index: &I,
    request: &Request,
    fuel: u32,
) -> Result<(Reply, Delta, Spent), Memory>
    requires names { IsNamesOf names.now code.now }
    requires index { (n : ℕ) → I.owner index.now n ≡ owner_place (table_of_image code.now) (content_of content.now) n }
    requires right { IsInLimits (machine_invocation code.now (content_of content.now) (request_of request.now) fuel) }
    ensures id { IfOk result (λ a. a.0.id ≡ Some request.now.id) }
    ensures answer { IfOk result (λ a. ComesTo (machine_invocation code.now (content_of content.now) (request_of request.now) fuel) content.now a.0.answer a.1) }
    ensures spent { IfOk result (λ a. SpendsSo (machine_invocation code.now (content_of content.now) (request_of request.now) fuel) a.2) }
{
    // `image` says that the code is verified.
    let _image = code.image();
    let mut stage = Stage::Over;
    let end = open(
        alloc,
        code,
        names,
        content,
        index,
        &request.who,
        &request.op,
        &mut stage,
        fuel,
        fuel,
    );
    told(request, end)
}
