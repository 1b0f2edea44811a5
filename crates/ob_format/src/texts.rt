//! Reading and writing texts: bytes of UTF-8, one after another.
ghost use Rattle.std.specs.Prelude.{◌≡◌, ◌++◌, IfOk, OnOk};
ghost use Rattle.std.specs.Str.{IsUtf8};
ghost use Rattle.ob_format_spec.specs.Texts.{no_due, due_after_first, due_after, text_byte, next_due, read_utf8, text};
ghost use Rattle.ob_format.specs.Answering.{Answers};

use crate::halt::{Halt, refused};
use crate::numbers::number;
use ob_base::{Items, Memory, put_u32};
use ob_format_spec::Due;
use std::alloc::Global;

const fn to_come(count: u8, low: u8, high: u8) -> Due
    ensures { result ≡ record { count = count; low = low; high = high } }
{
    Due { count, low, high }
}

// What is due after a first byte (Unicode 15, table 3-7), if it is one.
fn due_after_first(first: u8) -> Option<Due>
    ensures { result ≡ due_after_first first }
{
    if first < 0x80 {
        Some(to_come(0, 0x80, 0xBF))
    } else if first < 0xC2 {
        None
    } else if first < 0xE0 {
        Some(to_come(1, 0x80, 0xBF))
    } else if first < 0xE1 {
        Some(to_come(2, 0xA0, 0xBF))
    } else if first < 0xED {
        Some(to_come(2, 0x80, 0xBF))
    } else if first < 0xEE {
        Some(to_come(2, 0x80, 0x9F))
    } else if first < 0xF0 {
        Some(to_come(2, 0x80, 0xBF))
    } else if first < 0xF1 {
        Some(to_come(3, 0x90, 0xBF))
    } else if first < 0xF4 {
        Some(to_come(3, 0x80, 0xBF))
    } else if first < 0xF5 {
        Some(to_come(3, 0x80, 0x8F))
    } else {
        None
    }
}

// What is due after a byte, if it may come.
fn due_after(due: Due, byte: u8) -> Option<Due>
    ensures { result ≡ due_after due byte }
{
    if due.count == 0 {
        due_after_first(byte)
    } else if due.low <= byte && byte <= due.high {
        Some(to_come(due.count - 1, 0x80, 0xBF))
    } else {
        None
    }
}

// What is due after a byte that came.
fn next_due(due: Due, byte: u8) -> Due
    ensures { result ≡ next_due 0 due byte }
{
    match due_after(due, byte) {
        Some(next) => next,
        None => to_come(0, 0x80, 0xBF),
    }
}

// Reads a byte of a text, after which so many come.
fn text_byte(left: u32, due: Due, bytes: &[u8]) -> Result<(u8, &[u8]), Halt>
    ensures { Answers result ((text_byte left due).read bytes.now) }
{
    let [first, rest @ ..] = bytes else {
        return Err(Halt::Stop { left: 0 });
    };
    match due_after(due, *first) {
        Some(next) if u32::from(next.count) <= left => Ok((*first, rest)),
        _ => Err(refused(bytes)),
    }
}

// Reads so many bytes of UTF-8.
fn utf8(alloc: Global, count: u32, bytes: &[u8]) -> Result<(Items<u8>, &[u8]), Halt>
    ensures { Answers result (read_utf8 count no_due bytes.now) }
{
    let mut items = Items::new(alloc);
    let mut state = to_come(0, 0x80, 0xBF);
    let mut rest = bytes;
    'bytes: for read in 0..count {
        let left = count - 1 - read;
        let (byte, after) = text_byte(left, state, rest)?;
        items.push(byte)?;
        state = next_due(state, byte);
        rest = after;
    }
    Ok((items, rest))
}

#[tactic(auto, unfolding(ob_format_spec::specs::Texts::text))]
fn counted_utf8(alloc: Global, bytes: &[u8]) -> Result<(Items<u8>, &[u8]), Halt>
    ensures { Answers result (text.read bytes.now) }
{
    let (count, rest) = number(bytes)?;
    utf8(alloc, count, rest)
}

/// Reads a text: a count of 32 bits, and so many bytes of UTF-8.
pub fn text(alloc: Global, bytes: &[u8]) -> Result<(Items<u8>, &[u8]), Halt>
    ensures value { Answers result (text.read bytes.now) }
    ensures form { IfOk result (λ x. IsUtf8 x.0) }
{
    let (text, rest) = counted_utf8(alloc, bytes)?;
    Ok((text, rest))
}

/// Appends a text: a count of 32 bits, and its bytes; or some of them where memory runs out.
#[tactic(auto, unfolding(ob_format_spec::specs::Texts::text))]
pub fn put_text_bytes(out: &mut Vec<u8>, bytes: &[u8]) -> Result<(), Memory>
    requires { text.fits bytes.now }
    ensures { OnOk result (out.new.items ≡ out.old.items ++ text.bytes bytes.now) }
{
    put_u32(out, bytes.len() as u32)?;
    out.extend_from_slice(bytes)?;
    Ok(())
}
