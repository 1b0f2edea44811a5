//! What is made ready for a line or a request: its reply, and what it changes.
ghost use Rattle.std.specs.Prelude.{◌≡◌, ℤ, None, Some, IfOk};
ghost use Rattle.ob_heap.specs.Contents.{content_of};
ghost use Rattle.ob_invocation_laws.specs.Laws.{KeepsStoreAtRest};
ghost use Rattle.ob_invocation_spec.specs.Replies.{Invocation};
ghost use Rattle.ob_code_table.specs.ImageTables.{table_of_image};
ghost use Rattle.ob_machine_meaning.specs.Meanings.{machine_invocation};
ghost use Rattle.ob_rest_spec.specs.AtRest.{IsStoreAtRest};
ghost use Rattle.ob_store_laws.specs.Recorded.{IsStorable};
ghost use Rattle.ob_store.specs.Stores.{area_of_store, kept_of, program_of, state_of, HasImage, TellsOwners};
ghost use Rattle.ob_wire.specs.Meanings.{request_of};
ghost use Rattle.ob_exec_handles.specs.Coming.{ComesTo, IsInLimits};
ghost use Rattle.ob_exec_entries.specs.Naming.{IsNamesOf};
ghost use Rattle.ob_serve.specs.Items.{invoked_item};
ghost use Rattle.ob_serve.specs.Stops.{GivesItem, IsOfDelta, refusal_line, room_line};

use ob_base::Memory;
use ob_exec::answer;
use ob_exec_entries::Names;
use ob_heap::Delta;
use ob_store::{PrepareError, Prepared, Store};
use ob_verify::Verified;
use ob_wire::{Answer, Cause, Refusal, Reply, Request, reply_bytes};
use std::alloc::Global;

/// What is made ready for a line or a request.
#[derive(Drop)]
pub struct Ready {
    /// The bytes of its reply.
    pub reply: Vec<u8>,
    /// What is to be committed before the reply is written.
    pub prepared: Option<Prepared>,
}

/// The reply to a line that is refused.
pub fn refuse(alloc: Global, refusal: Refusal) -> Result<Ready, Memory>
    ensures { IfOk result (λ ready. (ready.reply.items ≡ refusal_line refusal) × (ready.prepared ≡ None)) }
{
    let answer = Answer::Refused(refusal);
    let reply = reply_bytes(alloc, &Reply { id: None, answer })?;
    Ok(Ready {
        reply,
        prepared: None,
    })
}

// The reply to the request of an id that the store has no room for.
fn lack_room(alloc: Global, id: Option<i64>, need: u64, size: u64) -> Result<Ready, Memory>
    ensures reply { (number : ℤ) → id ≡ Some number → IfOk result (λ ready. ready.reply.items ≡ room_line number need size) }
    ensures nothing { IfOk result (λ ready. ready.prepared ≡ None) }
{
    let answer = Answer::Abort(Cause::Room(need, size));
    let reply = reply_bytes(alloc, &Reply { id, answer })?;
    Ok(Ready {
        reply,
        prepared: None,
    })
}

// What a request comes to on a store, which tells the owners of its objects.
fn find_answer(
    alloc: Global,
    code: &Verified,
    names: &Names,
    fuel: u32,
    store: &Store,
    request: &Request,
) -> Result<(Reply, Delta), Memory>
    requires names { IsNamesOf names.now code.now }
    requires owners { TellsOwners (program_of code.now) store.now }
    requires right { IsInLimits (machine_invocation code.now (content_of (kept_of store.now)) (request_of request.now) fuel) }
    ensures id { IfOk result (λ found. found.0.id ≡ Some request.now.id) }
    ensures answer { IfOk result (λ found. ComesTo
        (machine_invocation code.now (content_of (kept_of store.now)) (request_of request.now) fuel)
        (kept_of store.now) found.0.answer found.1) }
{
    let content = store.content();
    let (reply, delta, _spent) = answer(alloc, code, names, content, store, request, fuel)?;
    Ok((reply, delta))
}

/// What is made ready for a reply and a delta, to which a request has come.
pub fn ready_reply(
    alloc: Global,
    code: &Verified,
    store: &Store,
    reply: Reply,
    delta: Delta,
) -> Result<Ready, Memory>
    requires storable { IsStorable (table_of_image code.now) }
    requires image { HasImage (program_of code.now) store.now }
    requires at_rest { IsStoreAtRest (table_of_image code.now) (content_of (kept_of store.now)) }
    requires comes { (i : Invocation) × ComesTo i (kept_of store.now) reply.answer delta × KeepsStoreAtRest (table_of_image code.now) i }
    ensures gives { (id : ℤ) (i : Invocation) → reply.id ≡ Some id → ComesTo i (kept_of store.now) reply.answer delta → KeepsStoreAtRest (table_of_image code.now) i
        → IfOk result (GivesItem (program_of code.now) store.now (invoked_item (program_of code.now) (area_of_store store.now) (state_of store.now) id i)) }
    ensures delta { IfOk result (λ ready. IsOfDelta (program_of code.now) store.now delta ready.prepared) }
{
    match store.prepare(alloc, code.image(), delta) {
        Ok(prepared) => {
            let reply = reply_bytes(alloc, &reply)?;
            Ok(Ready {
                reply,
                prepared: Some(prepared),
            })
        }
        Err(PrepareError::Room(need, size)) => lack_room(alloc, reply.id, need, size),
        Err(PrepareError::Memory) => Err(Memory),
    }
}

/// What is made ready for a request.
pub fn ready_request(
    alloc: Global,
    code: &Verified,
    names: &Names,
    fuel: u32,
    store: &Store,
    request: &Request,
) -> Result<Ready, Memory>
    requires names { IsNamesOf names.now code.now }
    requires storable { IsStorable (table_of_image code.now) }
    requires image { HasImage (program_of code.now) store.now }
    requires owners { TellsOwners (program_of code.now) store.now }
    requires at_rest { IsStoreAtRest (table_of_image code.now) (content_of (kept_of store.now)) }
    requires rests { KeepsStoreAtRest (table_of_image code.now)
        (machine_invocation code.now (content_of (kept_of store.now)) (request_of request.now) fuel) }
    ensures { IfOk result (GivesItem (program_of code.now) store.now
        (invoked_item (program_of code.now) (area_of_store store.now) (state_of store.now) request.now.id
        (machine_invocation code.now (content_of (kept_of store.now)) (request_of request.now) fuel))) }
{
    let (reply, delta) = find_answer(alloc, code, names, fuel, store, request)?;
    ready_reply(alloc, code, store, reply, delta)
}
