//! A store in areas of some size, and what it answers.
ghost use Rattle.std.specs.Prelude.{◌≤◌, ◌^◌, IfSome};
ghost use Rattle.ob_code.specs.Images.{image};
ghost use Rattle.ob_code_table.specs.ImageTables.{table_of_image};
ghost use Rattle.ob_heap.specs.Contents.{content_of};
ghost use Rattle.ob_rest_spec.specs.AtRest.{IsStoreAtRest};
ghost use Rattle.ob_store.specs.Stores.{StandsOn, kept_of, program_of as stored_program};
ghost use Rattle.ob_serve.specs.Kept.{IsServable};

use crate::page::Page;
use crate::question::Question;
use ob_base::{DEFAULT_FUEL, DEFAULT_LANES, DEFAULT_SLICE, MOST_LANES};
use ob_disk::{Disk, MemoryDisk};
use ob_front::{Compiled, Seen, compile};
use ob_io::{SureSink, SureSource};
use ob_serve::{Limits, Served, serve};
use ob_store::{OpenError, Store};
use ob_verify::Verified;
use std::alloc::Global;

/// The limits of a session where none are told.
const LIMITS: Limits = Limits {
    fuel: DEFAULT_FUEL,
    lanes: DEFAULT_LANES as u8,
    slice: DEFAULT_SLICE,
};

/// The limits of a session: `FUEL LANES SLICE`.
pub fn limits_in(asked: &mut Question<'_>, page: &mut Page) -> Limits
    ensures lanes { 1 ≤ result.lanes }
    ensures most_lanes { result.lanes ≤ 8 }
    ensures slice { 1 ≤ result.slice }
{
    let fuel = u32::try_from(asked.number(page)).unwrap_or(0);
    let lanes = u8::try_from(asked.number(page)).unwrap_or(0);
    let slice = u32::try_from(asked.number(page)).unwrap_or(0);
    if lanes == 0 || u32::from(lanes) > MOST_LANES || slice == 0 {
        page.fail();
        return LIMITS;
    }
    Limits { fuel, lanes, slice }
}

/// The program of a text, if it is accepted.
pub fn program_of(alloc: Global, text: &[u8], seen: &mut Seen) -> Option<Compiled>
    ensures fits { IfSome result (λ program. image.fits program.code) }
    ensures servable { IfSome result (λ program. IsServable program.code) }
{
    match compile(alloc, text, seen) {
        Ok(program) => Some(program),
        Err(_) => None,
    }
}

// Puts a word and a number.
fn put_numbered(word: &str, number: u64, page: &mut Page) {
    page.word(word);
    page.number(number);
}

// Puts that an area is too small, how many bytes are needed, and how many it has.
fn put_room(need: u64, size: u64, page: &mut Page) {
    put_numbered("Room", need, page);
    page.number(size);
}

// Puts how a session ended that answered nothing, as its disk failed.
fn put_unanswered(page: &mut Page) {
    page.word("DiskFault");
    page.bytes(&[]);
}

// Puts why no store was opened.
fn put_refused(error: OpenError, page: &mut Page) {
    match error {
        OpenError::NotStore => page.word("NotStore"),
        OpenError::Damaged(offset) => put_numbered("Damaged", offset, page),
        OpenError::OtherProgram(offset) => put_numbered("OtherProgram", offset, page),
        OpenError::NotAtRest(object) => put_numbered("NotAtRest", u64::from(object.0), page),
        OpenError::Room(need, size) => put_room(need, size, page),
        OpenError::DiskFault => put_unanswered(page),
        OpenError::Memory => page.fail(),
    }
}

// Puts how a session ended.
fn put_served(served: Served, page: &mut Page) {
    match served {
        Served::Done => page.word("Done"),
        Served::DiskFault => page.word("DiskFault"),
        _ => page.fail(),
    }
}

/// Serves lines over a store that was opened. Their replies aren't looked at.
pub fn serve_line<D: Disk>(
    alloc: Global,
    code: &Verified,
    store: &mut Store,
    lines: Vec<u8>,
    disk: &mut D,
    page: &mut Page,
)
    requires servable { IsServable code.now }
    requires at_rest { IsStoreAtRest (table_of_image code.now) (content_of (kept_of store.old)) }
    requires stands { StandsOn (stored_program code.now) store.old (D.view disk.old) }
{
    let mut input = SureSource::new(lines);
    let mut output = SureSink::new(alloc, usize::MAX);
    let served = serve(alloc, code, store, LIMITS, &mut input, &mut output, disk);
    if !matches!(served, Served::Done) {
        page.fail();
    }
}

// Serves lines over a store of a program on a disk with areas of this size. Puts how that ended, and the replies; or why no store was opened.
fn put_replies(
    alloc: Global,
    code: &Verified,
    size: u64,
    disk: &mut MemoryDisk,
    limits: Limits,
    input: Vec<u8>,
    page: &mut Page,
)
    requires servable { IsServable code.now }
    requires fits { image.fits code.now }
    requires some { 1 ≤ size }
    requires small { size ≤ 2 ^ 31 }
    requires lanes { 1 ≤ limits.lanes }
    requires most_lanes { limits.lanes ≤ 8 }
    requires slice { 1 ≤ limits.slice }
{
    let mut store = match Store::open_store(alloc, disk, code, size) {
        Ok(store) => store,
        Err(error) => return put_refused(error, page),
    };
    let mut input = SureSource::new(input);
    let mut output = SureSink::new(alloc, usize::MAX);
    let served = serve(
        alloc,
        code,
        &mut store,
        limits,
        &mut input,
        &mut output,
        disk,
    );
    put_served(served, page);
    match output.bytes() {
        Some(replies) => page.bytes(replies),
        None => page.fail(),
    }
}

/// Serves lines over a store on a disk with areas of some size: `TEXT FUEL LANES SLICE LINES`.
pub fn serve_on(
    alloc: Global,
    asked: &mut Question<'_>,
    disk: &mut MemoryDisk,
    size: u64,
    page: &mut Page,
)
    requires some { 1 ≤ size }
    requires small { size ≤ 2 ^ 31 }
{
    let text = asked.bytes(alloc, page);
    let limits = limits_in(asked, page);
    let input = asked.bytes(alloc, page);
    let mut seen = Seen::new(alloc);
    match program_of(alloc, &text, &mut seen) {
        Some(program) => put_replies(alloc, &program.code, size, disk, limits, input, page),
        None => page.fail(),
    }
}
