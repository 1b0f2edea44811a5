//! The turns of a batch on a store.
ghost use Rattle.std.specs.Prelude.{◌<◌, ◌≤◌, ◌^◌, ℕ, List, Option, length, map};
ghost use Rattle.ob_base.specs.Limits.{most_requests};
ghost use Rattle.ob_code.specs.Images.{image};
ghost use Rattle.ob_code_table.specs.ImageTables.{table_of_image};
ghost use Rattle.ob_heap.specs.Contents.{content_of};
ghost use Rattle.ob_rest_spec.specs.AtRest.{IsStoreAtRest};
ghost use Rattle.ob_store.specs.Stores.{StandsOn, kept_of, program_of as stored_program};
ghost use Rattle.ob_exec_entries.specs.Naming.{IsNamesOf};
ghost use Rattle.ob_invocation_spec.specs.Requests.{HasLabels};
ghost use Rattle.ob_lanes_laws.specs.Laws.{OfEach};
ghost use Rattle.ob_store_spec.specs.Stores.{StoreState};
ghost use Rattle.ob_wire.specs.Meanings.{request_of};
ghost use Rattle.ob_wire.specs.declared.request.Request.{Request as Asked};
ghost use Rattle.ob_serve.specs.Kept.{AreLimits, IsServable};
ghost use Rattle.ob_serve.specs.Serving.{IsServing};
ghost use Rattle.ob_serve.specs.Turning.{batch_on, CanBeAnswered, AreAsFar};

use crate::area::{limits_in, program_of, serve_line};
use crate::page::Page;
use crate::question::{Question, bytes_in};
use ob_base::Items;
use ob_disk::{Disk, MemoryDisk};
use ob_exec_entries::Names;
use ob_front::Seen;
use ob_io::SureSink;
use ob_lanes::Lanes;
use ob_serve::{Limits, answer_turn, lanes_of};
use ob_store::Store;
use ob_verify::Verified;
use ob_wire::{Incoming, Request, read_request};
use std::alloc::Global;

/// How many turns a batch has at most.
const MOST_TURNS: u32 = 1 << 20;

// Puts how many units the run of each lane has taken, or that it has none.
fn put_lanes(lanes: &Lanes, count: u8, page: &mut Page) {
    for lane in 0..count {
        match lanes.lane(lane) {
            Some(run) => page.number(u64::from(run.used())),
            None => page.word("none"),
        }
    }
}

// Puts what a turn has written, and the lanes behind it.
fn put_turn(lanes: &Lanes, count: u8, output: &SureSink, page: &mut Page) {
    page.word("turn");
    match output.bytes() {
        Some(reply) => page.bytes(reply),
        None => page.fail(),
    }
    put_lanes(lanes, count, page);
}

// Puts each turn of a batch, whose requests are answered on the store.
fn put_turns<D: Disk>(
    alloc: Global,
    code: &Verified,
    names: &Names,
    limits: Limits,
    store: &mut Store,
    lanes: &mut Lanes,
    disk: &mut D,
    page: &mut Page,
)
    requires names { IsNamesOf names.now code.now }
    requires servable { IsServable code.now }
    requires at_rest { IsStoreAtRest (table_of_image code.now) (content_of (kept_of store.old)) }
    requires stands { StandsOn (stored_program code.now) store.old (D.view disk.old) }
    requires far { (area : Option ℕ) × (start : StoreState) × (requests : List Asked) × (turns : ℕ)
        × CanBeAnswered (batch_on code.now limits area start requests) × AreAsFar (batch_on code.now limits area start requests) turns store.old lanes.old }
{
    'turns: for _ in 0..MOST_TURNS {
        let mut output = SureSink::new(alloc, usize::MAX);
        match answer_turn(alloc, code, names, limits, store, lanes, &mut output, disk) {
            Ok(true) => return,
            Ok(false) => put_turn(lanes, limits.lanes, &output, page),
            Err(_) => return page.fail(),
        }
    }
    page.fail();
}

// Puts each turn of a batch on a store that was opened.
fn put_batch<D: Disk>(
    alloc: Global,
    code: &Verified,
    limits: Limits,
    store: &mut Store,
    batch: Items<Request>,
    disk: &mut D,
    page: &mut Page,
)
    requires some { 0 < length batch }
    requires most { length batch ≤ most_requests }
    requires labels { OfEach HasLabels (map request_of batch) }
    requires servable { IsServable code.now }
    requires limits { AreLimits limits }
    requires few { limits.lanes ≤ 8 }
    requires at_rest { IsStoreAtRest (table_of_image code.now) (content_of (kept_of store.old)) }
    requires stands { StandsOn (stored_program code.now) store.old (D.view disk.old) }
{
    let Ok(names) = Names::of(alloc, code.image()) else {
        return page.fail();
    };
    let Ok(mut lanes) = lanes_of(alloc, limits, batch) else {
        return page.fail();
    };
    put_turns(alloc, code, &names, limits, store, &mut lanes, disk, page);
}

// Puts each turn of a batch on the store of a disk.
fn put_stored(
    alloc: Global,
    code: &Verified,
    size: u64,
    disk: &mut MemoryDisk,
    limits: Limits,
    batch: Items<Request>,
    page: &mut Page,
)
    requires some { 0 < length batch }
    requires most { length batch ≤ most_requests }
    requires labels { OfEach HasLabels (map request_of batch) }
    requires servable { IsServable code.now }
    requires fits { image.fits code.now }
    requires some_bytes { 1 ≤ size }
    requires small { size ≤ 2 ^ 31 }
    requires limits { AreLimits limits }
    requires few { limits.lanes ≤ 8 }
{
    page.word("batch");
    match Store::open_store(alloc, disk, code, size) {
        Ok(mut store) => put_batch(alloc, code, limits, &mut store, batch, disk, page),
        Err(_) => page.fail(),
    }
}

// Serves lines over the store of a disk.
fn serve_stored(
    alloc: Global,
    code: &Verified,
    size: u64,
    disk: &mut MemoryDisk,
    lines: Vec<u8>,
    page: &mut Page,
)
    requires servable { IsServable code.now }
    requires fits { image.fits code.now }
    requires some { 1 ≤ size }
    requires small { size ≤ 2 ^ 31 }
{
    match Store::open_store(alloc, disk, code, size) {
        Ok(mut store) => serve_line(alloc, code, &mut store, lines, disk, page),
        Err(_) => page.fail(),
    }
}

// Puts each turn of the batch that a line asks, or serves lines.
fn put_line(
    alloc: Global,
    code: &Verified,
    size: u64,
    disk: &mut MemoryDisk,
    limits: Limits,
    lines: Vec<u8>,
    page: &mut Page,
)
    requires servable { IsServable code.now }
    requires fits { image.fits code.now }
    requires some { 1 ≤ size }
    requires small { size ≤ 2 ^ 31 }
    requires lanes { 1 ≤ limits.lanes }
    requires most_lanes { limits.lanes ≤ 8 }
    requires slice { 1 ≤ limits.slice }
{
    match read_request(alloc, &lines) {
        Ok(Incoming::Batch(batch)) => put_stored(alloc, code, size, disk, limits, batch, page),
        _ => serve_stored(alloc, code, size, disk, lines, page),
    }
}

/// Each turn of batches on the store of a disk with areas of some size: what the turn writes, and how many units the run of each lane has
/// taken behind it. Other lines are served over it, with one lane and 100,000 units: `TEXT FUEL LANES SLICE LINES..`.
pub fn lanes_on(
    alloc: Global,
    asked: &mut Question<'_>,
    disk: &mut MemoryDisk,
    size: u64,
    page: &mut Page,
)
    requires some { 1 ≤ size }
    requires small { size ≤ 2 ^ 31 }
{
    let text = asked.bytes(alloc, page);
    let limits = limits_in(asked, page);
    let mut seen = Seen::new(alloc);
    match program_of(alloc, &text, &mut seen) {
        Some(program) => {
            for word in asked.rest().split(' ') {
                let lines = bytes_in(alloc, word, page);
                put_line(alloc, &program.code, size, disk, limits, lines, page);
            }
        }
        None => page.fail(),
    }
}
