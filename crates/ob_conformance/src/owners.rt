//! The owners of the objects of a store.
ghost use Rattle.std.specs.Prelude.{◌≤◌, ◌^◌};
ghost use Rattle.ob_code.specs.Images.{image};
ghost use Rattle.ob_serve.specs.Kept.{IsServable};

use crate::area::{program_of, serve_line};
use crate::page::Page;
use crate::question::{Question, bytes_in};
use ob_base::ObjectId;
use ob_disk::MemoryDisk;
use ob_front::Seen;
use ob_owners::{Index, Spot};
use ob_store::Store;
use ob_verify::Verified;
use std::alloc::Global;

// Puts the place that owns an object.
fn put_spot(spot: &Option<Spot>, page: &mut Page) {
    match spot {
        Some(Spot::Field(object, field)) => {
            page.word("field");
            page.number(u64::from(object.0));
            page.number(u64::from(field.0));
        }
        Some(Spot::Handle(who, name)) => {
            page.word("handle");
            page.bytes(who.as_bytes());
            page.bytes(name.as_bytes());
        }
        None => page.word("none"),
    }
}

// Puts how many objects a store has, and the owner of each.
fn put_owners(alloc: Global, store: &Store, page: &mut Page) {
    let count = u32::try_from(store.content().objects().len()).unwrap_or(0);
    page.number(u64::from(count));
    for number in 0..count {
        if let Some(spot) = page.made(store.find(alloc, ObjectId(number))) {
            put_spot(&spot, page);
        }
    }
}

// Serves lines over the store of a disk, and puts the owners then.
fn put_after(
    alloc: Global,
    code: &Verified,
    size: u64,
    disk: &mut MemoryDisk,
    lines: Vec<u8>,
    page: &mut Page,
)
    requires servable { IsServable code.now }
    requires fits { image.fits code.now }
    requires some { 1 ≤ size }
    requires small { size ≤ 2 ^ 31 }
{
    let Ok(mut store) = Store::open_store(alloc, disk, code, size) else {
        return page.fail();
    };
    serve_line(alloc, code, &mut store, lines, disk, page);
    put_owners(alloc, &store, page);
}

/// The owner of each object of the store of a disk with areas of some size, after some lines and then after some more. The store is opened
/// each time: `TEXT LINES..`.
pub fn owners_on(
    alloc: Global,
    asked: &mut Question<'_>,
    disk: &mut MemoryDisk,
    size: u64,
    page: &mut Page,
)
    requires some { 1 ≤ size }
    requires small { size ≤ 2 ^ 31 }
{
    let text = asked.bytes(alloc, page);
    let mut seen = Seen::new(alloc);
    match program_of(alloc, &text, &mut seen) {
        Some(program) => {
            for word in asked.rest().split(' ') {
                let lines = bytes_in(alloc, word, page);
                put_after(alloc, &program.code, size, disk, lines, page);
            }
        }
        None => page.fail(),
    }
}
