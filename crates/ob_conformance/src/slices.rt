//! What a request comes to on a store, at once and in slices of units.
ghost use Rattle.std.specs.Prelude.{◌≡◌, ◌≤◌, ◌^◌, ℕ, List};
ghost use Rattle.ob_code.specs.Images.{image};
ghost use Rattle.ob_code_table.specs.ImageTables.{table_of_image};
ghost use Rattle.ob_heap.specs.Contents.{content_of};
ghost use Rattle.ob_machine_meaning.specs.Meanings.{machine_invocation};
ghost use Rattle.ob_wire.specs.Meanings.{request_of};
ghost use Rattle.ob_wire.specs.Requests.{Asks};
ghost use Rattle.ob_wire.specs.declared.request.Request.{Request};
ghost use Rattle.ob_owners.specs.Spots.{owner_place};
ghost use Rattle.ob_exec_handles.specs.Coming.{IsInLimits};
ghost use Rattle.ob_exec_entries.specs.Naming.{IsNamesOf};
ghost use Rattle.ob_exec.specs.Pausing.{IsRunOn};
ghost use Rattle.ob_serve.specs.Kept.{IsServable};

use crate::area::{program_of, serve_line};
use crate::page::Page;
use crate::question::{Question, bytes_in};
use crate::runs::put_told;
use ob_base::{Label, Memory};
use ob_disk::MemoryDisk;
use ob_exec::{Run, SliceOutcome, answer};
use ob_exec_entries::Names;
use ob_exec_handles::ReadItem;
use ob_front::Seen;
use ob_heap::{Content, Delta, Handle};
use ob_owners::Index;
use ob_store::Store;
use ob_verify::Verified;
use ob_wire::{Incoming, Reply, read_request, reply_bytes};
use std::alloc::Global;

/// How many units the slices have in which a request is run.
const SLICES: [u32; 4] = [1, 2, 3, 1000];

fn put_name(who: &Label, name: &Label, page: &mut Page) {
    page.bytes(who.as_bytes());
    page.bytes(name.as_bytes());
}

fn put_item(item: &ReadItem, page: &mut Page) {
    match item {
        ReadItem::Object(id) => {
            page.word("object");
            page.number(u64::from(id.0));
        }
        ReadItem::Next => page.word("next"),
        ReadItem::Handle(who, name) => {
            page.word("handle");
            put_name(who, name, page);
        }
        ReadItem::HandlesFull => page.word("full"),
    }
}

// Puts how many units were taken, and the items that were read.
fn put_spent(taken: u32, reads: &[ReadItem], page: &mut Page) {
    page.number(u64::from(taken));
    page.number(reads.len() as u64);
    for item in reads {
        put_item(item, page);
    }
}

fn put_handle(handle: &Option<Handle>, page: &mut Page) {
    match handle {
        Some(handle) => {
            page.name(&handle.mode);
            page.number(u64::from(handle.object.0));
        }
        None => page.word("none"),
    }
}

// Puts what differs: objects, and then handles.
fn put_changes(delta: &Delta, page: &mut Page) {
    page.number(delta.objects.as_slice().len() as u64);
    for (id, object) in delta.objects.as_slice() {
        put_told(*id, object, page);
    }
    page.number(delta.handles.as_slice().len() as u64);
    for (name, handle) in delta.handles.as_slice() {
        put_name(&name.0, &name.1, page);
        put_handle(handle, page);
    }
}

// Puts a reply, and what differs in the store with it.
fn put_answer(alloc: Global, reply: &Reply, delta: &Delta, page: &mut Page) {
    if let Some(line) = page.made(reply_bytes(alloc, reply)) {
        page.bytes(&line);
    }
    put_changes(delta, page);
}

// Runs a request to its end in slices of so many units, and puts what it comes to.
fn put_end(
    alloc: Global,
    code: &Verified,
    content: &Content,
    started: &mut Run,
    units: u32,
    page: &mut Page,
)
    requires { (fuel : ℕ) × (given : List ℕ) × IsRunOn code.now fuel content.now given started.old.request started.old.state }
{
    'slices: for _ in 0..u32::MAX {
        match started.slice(code, content, units) {
            Ok(SliceOutcome::Paused) => {}
            Ok(SliceOutcome::Ended(reply, delta)) => {
                put_spent(started.used(), started.reads(), page);
                return put_answer(alloc, &reply, &delta, page);
            }
            Err(Memory) => return page.fail(),
        }
    }
    page.fail();
}

// Puts what the request of a line comes to on a content in slices of so many units.
fn put_sliced<I: Index>(
    alloc: Global,
    code: &Verified,
    names: &Names,
    content: &Content,
    index: &I,
    line: &[u8],
    fuel: u32,
    units: u32,
    page: &mut Page,
)
    requires names { IsNamesOf names.now code.now }
    requires index { (n : ℕ) → I.owner index.now n ≡ owner_place (table_of_image code.now) (content_of content.now) n }
    requires right { (request : Request) → Asks line.now request → IsInLimits (machine_invocation code.now (content_of content.now) (request_of request) fuel) }
{
    let Ok(Incoming::One(request)) = read_request(alloc, line) else {
        return page.fail();
    };
    match Run::start(alloc, code, names, content, index, request, fuel) {
        Ok(mut started) => put_end(alloc, code, content, &mut started, units, page),
        Err(Memory) => page.fail(),
    }
}

// Puts what the request of a line comes to on a content at once.
fn put_whole<I: Index>(
    alloc: Global,
    code: &Verified,
    names: &Names,
    content: &Content,
    index: &I,
    line: &[u8],
    fuel: u32,
    page: &mut Page,
)
    requires names { IsNamesOf names.now code.now }
    requires index { (n : ℕ) → I.owner index.now n ≡ owner_place (table_of_image code.now) (content_of content.now) n }
    requires right { (request : Request) → Asks line.now request → IsInLimits (machine_invocation code.now (content_of content.now) (request_of request) fuel) }
{
    let Ok(Incoming::One(request)) = read_request(alloc, line) else {
        return page.fail();
    };
    match answer(alloc, code, names, content, index, &request, fuel) {
        Ok((reply, delta, spent)) => {
            put_spent(spent.taken, spent.reads.as_slice(), page);
            put_answer(alloc, &reply, &delta, page);
        }
        Err(Memory) => page.fail(),
    }
}

// Puts what the request of a line comes to on a content, at once and in slices.
fn put_ways<I: Index>(
    alloc: Global,
    code: &Verified,
    content: &Content,
    index: &I,
    line: &[u8],
    fuel: u32,
    page: &mut Page,
)
    requires index { (n : ℕ) → I.owner index.now n ≡ owner_place (table_of_image code.now) (content_of content.now) n }
    requires right { (request : Request) → Asks line.now request → IsInLimits (machine_invocation code.now (content_of content.now) (request_of request) fuel) }
{
    let Ok(names) = Names::of(alloc, code.image()) else {
        return page.fail();
    };
    put_whole(alloc, code, &names, content, index, line, fuel, page);
    for units in SLICES {
        put_sliced(alloc, code, &names, content, index, line, fuel, units, page);
    }
}

// Puts what the request of a line comes to on the store of a disk, at once and in slices. The line is served then.
fn put_each(
    alloc: Global,
    code: &Verified,
    size: u64,
    disk: &mut MemoryDisk,
    line: Vec<u8>,
    fuel: u32,
    page: &mut Page,
)
    requires servable { IsServable code.now }
    requires fits { image.fits code.now }
    requires some { 1 ≤ size }
    requires small { size ≤ 2 ^ 31 }
{
    let Ok(mut store) = Store::open_store(alloc, disk, code, size) else {
        return page.fail();
    };
    put_ways(alloc, code, store.content(), &store, &line, fuel, page);
    serve_line(alloc, code, &mut store, line, disk, page);
}

/// What each request comes to that lines ask, one after another on the store of a disk with areas of some size, where it has so many units
/// of fuel: at once, and in slices of 1, 2, 3 and 1,000 units. Each line is served then: `TEXT FUEL LINE..`.
pub fn slices_on(
    alloc: Global,
    asked: &mut Question<'_>,
    disk: &mut MemoryDisk,
    size: u64,
    page: &mut Page,
)
    requires some { 1 ≤ size }
    requires small { size ≤ 2 ^ 31 }
{
    let text = asked.bytes(alloc, page);
    let fuel = u32::try_from(asked.number(page)).unwrap_or(0);
    let mut seen = Seen::new(alloc);
    match program_of(alloc, &text, &mut seen) {
        Some(program) => {
            for word in asked.rest().split(' ') {
                let line = bytes_in(alloc, word, page);
                put_each(alloc, &program.code, size, disk, line, fuel, page);
            }
        }
        None => page.fail(),
    }
}
