//! The line of a text at a place, cut around it.

use crate::page::{Page, is_plain};
use ob_base::{Memory, Span};

/// The most columns of a line before the place, and from it on.
const BEFORE: usize = 50;

const AFTER: usize = 90;

/// How many bytes are looked at on each side: as many as so many characters have.
const BYTES: usize = 400;

// Whether a character of UTF-8 goes on with this byte.
fn goes_on(byte: u8) -> bool {
    byte & 0xc0 == 0x80
}

// The last bytes of a line, from the beginning of a character on.
fn last_bytes(line: &[u8]) -> &[u8] {
    let rest = &line[line.len().saturating_sub(BYTES)..];
    let cut = rest.iter().take_while(|byte| goes_on(**byte)).count();
    &rest[cut.min(rest.len())..]
}

// The first bytes of a line.
fn first_bytes(line: &[u8]) -> &[u8] {
    &line[..line.len().min(BYTES)]
}

// The characters that bytes begin with.
fn characters(bytes: &[u8]) -> &str {
    match str::from_utf8(bytes) {
        Ok(text) => text,
        Err(error) => str::from_utf8(&bytes[..error.valid_up_to().min(bytes.len())]).unwrap_or(""),
    }
}

// What stands on the line before a place.
fn before_place(text: &[u8], place: usize) -> &[u8] {
    let front = &text[..place.min(text.len())];
    match front.iter().rposition(|byte| *byte == b'\n') {
        Some(newline) => &front[newline.saturating_add(1).min(front.len())..],
        None => front,
    }
}

// What stands on the line from a place on.
fn from_place(text: &[u8], place: usize) -> &[u8] {
    let back = &text[place.min(text.len())..];
    let length = back
        .iter()
        .take_while(|byte| **byte != b'\n' && **byte != b'\r')
        .count();
    &back[..length.min(back.len())]
}

/// The characters of the text at a span, no more than a few, and none of another line.
pub fn shown_at(text: &[u8], span: Span) -> &str {
    let back = &text[(span.start as usize).min(text.len())..];
    let length = (span.end as usize).saturating_sub(span.start as usize);
    characters(from_place(first_bytes(&back[..length.min(back.len())]), 0))
}

// The columns of a character: a tab has four.
fn columns_of(sign: char) -> u32 {
    if sign == '\t' { 4 } else { 1 }
}

// The columns of characters.
fn columns_in(text: &str) -> u32 {
    let mut columns: u32 = 0;
    for sign in text.chars() {
        columns = columns.saturating_add(columns_of(sign));
    }
    columns
}

// Characters up to a number of them, a tab as four spaces.
fn put_shown(page: &mut Page, text: &str, most: usize) -> Result<(), Memory> {
    for sign in text.chars().take(most) {
        if sign == '\t' {
            page.put_times(' ', 4)?;
        } else {
            page.put_sign(sign)?;
        }
    }
    Ok(())
}

// The end of what stands before the place: where it is cut, with dots in place of the rest.
fn put_before(page: &mut Page, before: &str) -> Result<(), Memory> {
    let count = before.chars().count();
    if count <= BEFORE {
        return put_shown(page, before, BEFORE);
    }
    page.put("...")?;
    for sign in before.chars().skip(count - BEFORE) {
        page.put_sign(if sign == '\t' { ' ' } else { sign })?;
    }
    Ok(())
}

// The front of what stands from the place on.
fn put_after(page: &mut Page, after: &str) -> Result<(), Memory> {
    put_shown(page, after, AFTER)?;
    if after.chars().count() > AFTER {
        page.put("...")?;
    }
    Ok(())
}

// The mark under a place: from this column on, as wide as what is marked.
fn put_mark(page: &mut Page, margin: u32, from: u32, width: u32) -> Result<(), Memory> {
    page.put_times(' ', margin)?;
    page.put(" | ")?;
    page.put_times(' ', from.saturating_sub(page.column()))?;
    page.put_times('^', width.clamp(1, 90))?;
    page.end_line()
}

/// Two lines: that of the text at a span, with its number, cut around the place if it is long; and a mark under the place.
pub fn put_excerpt(page: &mut Page, text: &[u8], span: Span) -> Result<(), Memory> {
    let place = span.start as usize;
    page.put_number(u64::from(span.line))?;
    let margin = page.column();
    page.put(" | ")?;
    put_before(page, characters(last_bytes(before_place(text, place))))?;
    let from = page.column();
    put_after(page, characters(first_bytes(from_place(text, place))))?;
    page.end_line()?;
    put_mark(page, margin, from, columns_in(shown_at(text, span)))
}
