//! A batch is answered: its requests run in lanes, and one after another is committed and answered.
ghost use Rattle.std.specs.Prelude.{◌≡◌, ◌<◌, ◌≤◌, ℕ, suc, List, Option, Ok, IfOk, length, map};
ghost use Rattle.ob_base.specs.Limits.{most_requests};
ghost use Rattle.ob_code.specs.declared.image.Image.{Image};
ghost use Rattle.ob_exec_entries.specs.Naming.{IsNamesOf};
ghost use Rattle.ob_heap.specs.Contents.{Stored, content_of};
ghost use Rattle.ob_heap.specs.declared.delta.Delta.{Delta as HeapDelta};
ghost use Rattle.ob_invocation_spec.specs.Requests.{HasLabels};
ghost use Rattle.ob_lanes_laws.specs.Laws.{OfEach};
ghost use Rattle.ob_lanes_laws.specs.Schedule.{idle};
ghost use Rattle.ob_lanes.specs.Standing.{LanesRepresentBatch, requests_kept};
ghost use Rattle.ob_store_spec.specs.Stores.{StoreState};
ghost use Rattle.ob_store.specs.Stores.{area_of_store, program_of, state_of};
ghost use Rattle.ob_store.specs.declared.store.Store.{Store as KeptStore};
ghost use Rattle.ob_wire.specs.Meanings.{request_of};
ghost use Rattle.ob_wire.specs.declared.reply.Reply.{Reply as WireReply};
ghost use Rattle.ob_wire.specs.declared.request.Incoming.TheVariants.{Batch};
ghost use Rattle.ob_wire.specs.declared.request.Request.{Request as Asked};
ghost use Rattle.ob_serve.specs.Items.{by_machine, items_of_asked};
ghost use Rattle.ob_serve.specs.Kept.{AreLimits, IsServable};
ghost use Rattle.ob_serve.specs.Serving.{Answers, IsServing};
ghost use Rattle.ob_serve.specs.Stops.{IsOfDelta};
ghost use Rattle.ob_serve.specs.Turning.{BatchOn, batch_on, all_items, round_after, CanBeAnswered, AreAsFar, WaitsWith, Commits, Turns as TurnsTo};

use crate::answering::{Ready, ready_reply};
use crate::limits::Limits;
use crate::lines::answer_ready;
use crate::serving::Served;
use crate::turns::Turns;
use ob_base::{Items, Memory};
use ob_disk::Disk;
use ob_exec_entries::Names;
use ob_heap::{Delta, Sequence};
use ob_io::Sink;
use ob_lanes::{Lanes, Turn};
use ob_store::Store;
use ob_verify::Verified;
use ob_wire::{Reply, Request};
use std::alloc::Global;
use std::marker::Brand;
use std::sync::ledger::{Blank, Ledger};

/// The lanes of a batch, none of whose requests is under way.
pub fn lanes_of(alloc: Global, limits: Limits, batch: Items<Request>) -> Result<Lanes, Memory>
    requires some { 0 < length batch }
    requires most { length batch ≤ most_requests }
    requires limits { AreLimits limits }
    requires most_lanes { limits.lanes ≤ 8 }
    ensures stand { IfOk result (λ lanes. (code : Image) (base : Stored) → LanesRepresentBatch code limits.fuel (map request_of batch) base lanes (idle (content_of base) limits.lanes)) }
    ensures requests { IfOk result (λ lanes. requests_kept lanes ≡ batch) }
    ensures next { IfOk result (λ lanes. lanes.next ≡ 0) }
    ensures slice { IfOk result (λ lanes. lanes.slice ≡ limits.slice) }
{
    let mut lanes = Lanes::new(alloc, limits.lanes, limits.slice)?;
    lanes.begin_batch(alloc, batch)?;
    Ok(lanes)
}

// The lanes learn of a commit before it is made. Where the store lacks room nothing is committed.
fn tell_lanes(alloc: Global, lanes: &mut Lanes, store: &Store, ready: &Ready)
    requires { (b : BatchOn) × (turns : ℕ) × (reply : WireReply) × (delta : HeapDelta) × CanBeAnswered b × WaitsWith b turns store.now lanes.old reply delta
        × IsOfDelta (program_of b.code) store.now delta ready.now.prepared }
    ensures { (b : BatchOn) (turns : ℕ) (reply : WireReply) (delta : HeapDelta) (after : KeptStore) → CanBeAnswered b → WaitsWith b turns store.now lanes.old reply delta
        → IsOfDelta (program_of b.code) store.now delta ready.now.prepared
        → state_of after ≡ (round_after b (suc turns)).lanes.store → area_of_store after ≡ b.area
        → AreAsFar b (suc turns) after lanes.new }
{
    match &ready.prepared {
        Some(prepared) => lanes.committed(store.content(), prepared.delta()),
        None => {
            let nothing = Delta {
                objects: Sequence::new(alloc),
                handles: Sequence::new(alloc),
            };
            lanes.committed(store.content(), &nothing);
        }
    }
}

// What a turn has come to is committed and answered.
fn answer_commit<K: Sink, D: Disk>(
    alloc: Global,
    code: &Verified,
    store: &mut Store,
    lanes: &mut Lanes,
    reply: Reply,
    delta: Delta,
    output: &mut K,
    disk: &mut D,
) -> Result<(), Served>
    requires servable { IsServable code.now }
    requires serving { IsServing code.now (record { store = store.old; output = K.view output.old; disk = D.view disk.old }) }
    requires waits { (limits : Limits) × (area : Option ℕ) × (start : StoreState) × (requests : List Asked) × (turns : ℕ)
        × CanBeAnswered (batch_on code.now limits area start requests) × WaitsWith (batch_on code.now limits area start requests) turns store.old lanes.old reply delta }
    ensures { (limits : Limits) (area : Option ℕ) (start : StoreState) (requests : List Asked) (turns : ℕ)
        → CanBeAnswered (batch_on code.now limits area start requests) → WaitsWith (batch_on code.now limits area start requests) turns store.old lanes.old reply delta
        → Commits (batch_on code.now limits area start requests) turns
        (record { store = store.old; output = K.view output.old; disk = D.view disk.old })
        (record { store = store.new; output = K.view output.new; disk = D.view disk.new }) lanes.new result }
{
    let ready = ready_reply(alloc, code, store, reply, delta)?;
    tell_lanes(alloc, lanes, store, &ready);
    answer_ready(store, output, disk, ready)
}

/// One turn of a batch: what it has come to is committed and answered. It answers whether nothing is left to do.
pub fn answer_turn<K: Sink, D: Disk>(
    alloc: Global,
    code: &Verified,
    names: &Names,
    limits: Limits,
    store: &mut Store,
    lanes: &mut Lanes,
    output: &mut K,
    disk: &mut D,
) -> Result<bool, Served>
    requires names { IsNamesOf names.now code.now }
    requires servable { IsServable code.now }
    requires serving { IsServing code.now (record { store = store.old; output = K.view output.old; disk = D.view disk.old }) }
    requires far { (area : Option ℕ) × (start : StoreState) × (requests : List Asked) × (turns : ℕ)
        × CanBeAnswered (batch_on code.now limits area start requests) × AreAsFar (batch_on code.now limits area start requests) turns store.old lanes.old }
    ensures { (area : Option ℕ) (start : StoreState) (requests : List Asked) (turns : ℕ)
        → CanBeAnswered (batch_on code.now limits area start requests) → AreAsFar (batch_on code.now limits area start requests) turns store.old lanes.old
        → TurnsTo (batch_on code.now limits area start requests) turns
        (record { store = store.old; output = K.view output.old; disk = D.view disk.old })
        (record { store = store.new; output = K.view output.new; disk = D.view disk.new }) lanes.new result }
{
    let turn = lanes.turn(alloc, code, names, store.content(), store, limits.fuel)?;
    match turn {
        Turn::Commit(reply, delta) => {
            answer_commit(alloc, code, store, lanes, reply, delta, output, disk)?;
            Ok(false)
        }
        Turn::Going => Ok(false),
        Turn::Done => Ok(true),
    }
}

// The turns of a batch, counted.
fn answer_turns<L: Ledger, K: Sink, D: Disk>(
    alloc: Global,
    code: &Verified,
    names: &Names,
    limits: Limits,
    store: &mut Store,
    lanes: &mut Lanes,
    output: &mut K,
    disk: &mut D,
    blank: Blank,
) -> Result<(), Served>
    requires name { blank.name ≡ L.name }
    requires parts { (blank.parts ≡ L.parts) × (0 < L.parts) }
    requires names { IsNamesOf names.now code.now }
    requires servable { IsServable code.now }
    requires serving { IsServing code.now (record { store = store.old; output = K.view output.old; disk = D.view disk.old }) }
    requires far { (requests : List Asked) × CanBeAnswered (batch_on code.now limits (area_of_store store.old) (state_of store.old) requests)
        × AreAsFar (batch_on code.now limits (area_of_store store.old) (state_of store.old) requests) 0 store.old lanes.old }
    ensures { (requests : List Asked) → CanBeAnswered (batch_on code.now limits (area_of_store store.old) (state_of store.old) requests)
        → AreAsFar (batch_on code.now limits (area_of_store store.old) (state_of store.old) requests) 0 store.old lanes.old
        → Answers code.now (all_items (batch_on code.now limits (area_of_store store.old) (state_of store.old) requests))
        (record { store = store.old; output = K.view output.old; disk = D.view disk.old })
        (record { store = store.new; output = K.view output.new; disk = D.view disk.new }) result }
{
    let mut turns = Turns::<L>::new(blank);
    'turns: loop {
        let is_done = answer_turn(alloc, code, names, limits, store, lanes, output, disk)?;
        if is_done {
            return Ok(());
        }
        turns.raise();
    }
}

/// A batch is answered: whenever a request ends in its lane it is committed, and its reply is written.
pub fn answer_batch<K: Sink, D: Disk>(
    alloc: Global,
    code: &Verified,
    names: &Names,
    limits: Limits,
    store: &mut Store,
    batch: Items<Request>,
    output: &mut K,
    disk: &mut D,
) -> Result<(), Served>
    requires some { 0 < length batch }
    requires most { length batch ≤ most_requests }
    requires labels { OfEach HasLabels (map request_of batch) }
    requires names { IsNamesOf names.now code.now }
    requires servable { IsServable code.now }
    requires limits { AreLimits limits }
    requires most_lanes { limits.lanes ≤ 8 }
    requires serving { IsServing code.now (record { store = store.old; output = K.view output.old; disk = D.view disk.old }) }
    ensures { Answers code.now
        (items_of_asked (by_machine code.now limits (area_of_store store.old)) (state_of store.old) (Ok (Batch batch)))
        (record { store = store.old; output = K.view output.old; disk = D.view disk.old })
        (record { store = store.new; output = K.view output.new; disk = D.view disk.new }) result }
{
    // `image` says that the code is verified.
    let _image = code.image();
    let mut lanes = lanes_of(alloc, limits, batch)?;
    let blank = Blank::new(1);
    answer_turns::<Brand, K, D>(
        alloc, code, names, limits, store, &mut lanes, output, disk, blank,
    )
}
