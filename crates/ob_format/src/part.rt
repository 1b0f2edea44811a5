//! Values of one format after another.
ghost use Rattle.std.specs.Prelude.{◌≡◌, ◌++◌, OnOk};
ghost use Rattle.ob_format_spec.specs.Combinators.{read_times, Each, each_bytes, counted, counted_by_byte};
ghost use Rattle.ob_format.specs.Answering.{Answers};

use crate::halt::Halt;
use crate::numbers::{any_byte, number};
use ob_base::{FieldId, Items, Memory, put_u8, put_u32};
use std::alloc::Global;

/// A value with a format, of which there may be lists.
pub trait Part {
    ghost use Rattle.ob_format_spec.specs.Formats.{Format};

    /// Its format.
    ghost format: { Format Self };

    /// Reads one from the front of bytes.
    fn read(alloc: Global, bytes: &[u8]) -> Result<(Self, &[u8]), Halt>
        ensures { Answers result (format.read bytes.now) };

    /// Appends its bytes, or some of them where memory runs out.
    fn put(&self, out: &mut Vec<u8>) -> Result<(), Memory>
        requires { format.fits self.now }
        ensures { OnOk result (out.new.items ≡ out.old.items ++ format.bytes self.now) };
}

impl Part for u8 {
    ghost use Rattle.ob_format_spec.specs.Combinators.{any_byte};

    ghost format = { any_byte };

    fn read(_alloc: Global, bytes: &[u8]) -> Result<(u8, &[u8]), Halt> {
        any_byte(bytes)
    }

    fn put(&self, out: &mut Vec<u8>) -> Result<(), Memory> {
        put_u8(out, *self)
    }
}

impl Part for FieldId {
    ghost use Rattle.ob_format_spec.specs.Ids.{field_id};

    ghost format = { field_id };

    fn read(_alloc: Global, bytes: &[u8]) -> Result<(FieldId, &[u8]), Halt> {
        let (field, rest) = any_byte(bytes)?;
        Ok((FieldId(field), rest))
    }

    fn put(&self, out: &mut Vec<u8>) -> Result<(), Memory> {
        put_u8(out, self.0)
    }
}

impl<A: Part + Drop, B: Part + Drop> Part for (A, B) {
    ghost use Rattle.ob_format_spec.specs.Combinators.{◌⨟◌};

    ghost format = { A.format ⨟ B.format };

    fn read(alloc: Global, bytes: &[u8]) -> Result<((A, B), &[u8]), Halt> {
        let (first, rest) = A::read(alloc, bytes)?;
        let (second, rest) = B::read(alloc, rest)?;
        Ok(((first, second), rest))
    }

    fn put(&self, out: &mut Vec<u8>) -> Result<(), Memory> {
        self.0.put(out)?;
        self.1.put(out)
    }
}

// Reads so many values, one after another.
fn times<T: Part + Drop>(alloc: Global, count: u32, bytes: &[u8]) -> Result<(Items<T>, &[u8]), Halt>
    ensures { Answers result (read_times T.format.read count bytes.now) }
{
    let mut items = Items::new(alloc);
    let mut rest = bytes;
    'items: for _ in 0..count {
        let (item, after) = T::read(alloc, rest)?;
        items.push(item)?;
        rest = after;
    }
    Ok((items, rest))
}

/// Reads a count of 32 bits, and so many values.
pub fn counted<T: Part + Drop>(alloc: Global, bytes: &[u8]) -> Result<(Items<T>, &[u8]), Halt>
    ensures { Answers result ((counted T.format).read bytes.now) }
{
    let (count, rest) = number(bytes)?;
    times(alloc, count, rest)
}

/// Reads a count of one byte, and so many values.
pub fn counted_by_byte<T: Part + Drop>(
    alloc: Global,
    bytes: &[u8],
) -> Result<(Items<T>, &[u8]), Halt>
    ensures { Answers result ((counted_by_byte T.format).read bytes.now) }
{
    let (count, rest) = any_byte(bytes)?;
    times(alloc, u32::from(count), rest)
}

// Appends the bytes of each.
fn put_each<T: Part>(out: &mut Vec<u8>, items: &[T]) -> Result<(), Memory>
    requires { Each T.format.fits items.now }
    ensures { OnOk result (out.new.items ≡ out.old.items ++ each_bytes T.format.bytes items.now) }
{
    'items: for item in items {
        item.put(out)?;
    }
    Ok(())
}

/// Appends a count of 32 bits and the bytes of each, or some of them where memory runs out.
pub fn put_counted<T: Part>(out: &mut Vec<u8>, items: &Items<T>) -> Result<(), Memory>
    requires { (counted T.format).fits items.now }
    ensures { OnOk result (out.new.items ≡ out.old.items ++ (counted T.format).bytes items.now) }
{
    put_u32(out, items.len() as u32)?;
    put_each(out, items.as_slice())
}

/// Appends a count of one byte and the bytes of each, or some of them where memory runs out.
pub fn put_counted_by_byte<T: Part>(out: &mut Vec<u8>, items: &Items<T>) -> Result<(), Memory>
    requires { (counted_by_byte T.format).fits items.now }
    ensures { OnOk result (out.new.items ≡ out.old.items ++ (counted_by_byte T.format).bytes items.now) }
{
    put_u8(out, items.len() as u8)?;
    put_each(out, items.as_slice())
}
