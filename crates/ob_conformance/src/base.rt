//! Names, labels and texts, fields as bytes, and what errors say of themselves.
use crate::page::Page;
use crate::question::{Question, text_in};
use ob_base::{
    Duplicate, Failed, Fields, Label, Memory, Name, NameError, Text, put_i64, put_text, put_u8,
    put_u32,
};
use std::alloc::Global;

// Whether bytes are of the form that was tried.
fn put_formed<T: Drop>(made: Result<T, NameError>, page: &mut Page) {
    match made {
        Ok(_) => page.word("true"),
        Err(NameError::Bad) => page.word("false"),
        Err(NameError::Memory) => page.fail(),
    }
}

// A copy of what was made.
fn copied<T: Duplicate + Drop>(alloc: Global, made: Result<T, NameError>) -> Result<T, NameError> {
    match made?.copy(alloc) {
        Ok(copy) => Ok(copy),
        Err(Memory) => Err(NameError::Memory),
    }
}

/// Whether bytes are a name, a label and a text.
pub fn form(alloc: Global, asked: &mut Question<'_>, page: &mut Page) {
    let bytes = asked.bytes(alloc, page);
    put_formed(copied(alloc, Name::of(alloc, &bytes)), page);
    put_formed(copied(alloc, Label::of(alloc, &bytes)), page);
    put_formed(copied(alloc, Text::of(alloc, &bytes)), page);
}

/// A text of a case has fewer bytes than this; `put_text` takes fewer than 2^32.
const TEXT_BOUND: usize = 1 << 20;

// The bytes of four fields, one after another.
fn four_fields(alloc: Global, number: i64, text: &str) -> Result<Vec<u8>, Memory> {
    let mut bytes = Vec::new(alloc);
    put_u8(&mut bytes, u8::try_from(number).unwrap_or(0))?;
    put_u32(&mut bytes, u32::try_from(number).unwrap_or(0))?;
    put_i64(&mut bytes, number)?;
    if text.len() < TEXT_BOUND {
        put_text(&mut bytes, text)?;
    }
    Ok(bytes)
}

// Puts what fields are read as.
fn put_read(alloc: Global, bytes: &[u8], page: &mut Page) {
    let mut fields = Fields::new(bytes);
    match (fields.u8(), fields.u32(), fields.i64(), fields.text(alloc)) {
        (Ok(byte), Ok(long), Ok(whole), Ok(text)) => {
            page.show(&byte);
            page.show(&long);
            page.show(&whole);
            page.bytes(text.as_str().as_bytes());
        }
        _ => page.fail(),
    }
}

/// The bytes of a whole number as fields of one, four and eight bytes (0 where it is none of those), and of a text; and what they are read
/// as.
pub fn fields(alloc: Global, asked: &mut Question<'_>, page: &mut Page) {
    let number = match asked.word().parse() {
        Ok(number) => number,
        Err(_) => return page.fail(),
    };
    let text = asked.bytes(alloc, page);
    let made = four_fields(alloc, number, text_in(&text, page));
    if let Some(bytes) = page.made(made) {
        page.bytes(&bytes);
        put_read(alloc, &bytes, page);
    }
}

/// What the error of a name says of itself.
pub fn message(_: Global, asked: &mut Question<'_>, page: &mut Page) {
    match asked.word() {
        "Memory" => page.show(&Memory),
        "Failed" => page.show(&Failed),
        "Bad" => page.show(&NameError::Bad),
        _ => page.fail(),
    }
}
