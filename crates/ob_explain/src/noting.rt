//! Notes on a text: a sign that an editor may show otherwise. On an accepted one also that a client can make nothing of it, transactions
//! that always call themselves, and where it lets go of assets.

use crate::calling::endless_call;
use crate::hiding::{Hidden, first_hidden};
use ob_base::{Memory, Span};
use ob_explain_flow::say_letting;
use ob_explain_grammar::begins_contract;
use ob_explain_page::{Page, Words, put_excerpt, put_place, word_of};
use ob_flow::LettingAt;
use ob_front::Seen;
use ob_lexer::{LexError, Token, lex};
use ob_table::{Body, Table};
use std::alloc::Global;

/// The most notes that are told, as many as have room on a page.
const MOST_NOTES: usize = 6;

/// The place of a text's first character.
const START: Span = Span {
    start: 0,
    end: 0,
    line: 1,
    column: 1,
};

// Tells a note without a line of the text.
fn tell_words(page: &mut Page, file: &str, span: Span, words: &str) -> Result<(), Memory> {
    put_place(page, file, span)?;
    page.put("note: ")?;
    page.put(words)?;
    page.end_line()
}

// Tells a note: the place, what is said, and the line.
fn tell_note(
    page: &mut Page,
    file: &str,
    text: &[u8],
    span: Span,
    words: &str,
) -> Result<(), Memory> {
    tell_words(page, file, span, words)?;
    put_excerpt(page, text, span)
}

// Tells of a sign that an editor may show otherwise.
fn tell_sign(
    alloc: Global,
    page: &mut Page,
    file: &str,
    text: &[u8],
    hidden: Hidden,
) -> Result<(), Memory> {
    let said = hidden.words(alloc)?;
    tell_note(page, file, text, hidden.span, said.as_str())
}

/// Tells of the first sign of a text that an editor may show otherwise than the compiler reads it, unless that begins at this offset, and
/// how many notes that takes.
pub fn tell_hidden(
    alloc: Global,
    page: &mut Page,
    file: &str,
    text: &[u8],
    but: Option<u32>,
) -> Result<usize, Memory> {
    match first_hidden(text) {
        Some(hidden) if but != Some(hidden.span.start) => {
            tell_sign(alloc, page, file, text, hidden)?;
            Ok(1)
        }
        _ => Ok(0),
    }
}

// The place of the first name of a contract or an interface among tokens.
fn first_name(tokens: &[Token]) -> Span {
    let mut is_name = false;
    for token in tokens {
        if is_name {
            return token.span;
        }
        is_name = begins_contract(token);
    }
    START
}

// The same in a text.
fn first_contract(alloc: Global, text: &[u8]) -> Result<Span, Memory> {
    match lex(alloc, text) {
        Ok(lexed) => Ok(first_name(lexed.tokens.as_slice())),
        Err(LexError::Fault(_)) => Ok(START),
        Err(LexError::Memory) => Err(Memory),
    }
}

// Whether a contract is one that clients make objects of.
fn has_main(table: &Table) -> bool {
    for contract in table.contracts() {
        if contract.main {
            return true;
        }
    }
    false
}

// Tells of a text that a client can make nothing of, and how many notes that takes.
fn tell_nothing_made(
    alloc: Global,
    page: &mut Page,
    file: &str,
    text: &[u8],
    table: &Table,
) -> Result<usize, Memory> {
    if has_main(table) {
        return Ok(0);
    }
    let place = first_contract(alloc, text)?;
    if place.end == 0 {
        tell_words(
            page,
            file,
            START,
            "the text has no contract: a client can make no object of it",
        )?;
    } else {
        tell_note(
            page,
            file,
            text,
            place,
            "no contract is `main`: a client can make no object of this text",
        )?;
    }
    Ok(1)
}

// The name of the transaction of a body.
fn name_of<'a>(table: &'a Table, body: &Body) -> &'a str {
    match table.contract(body.contract) {
        Some(contract) => match contract.signature(body.tx) {
            Some(signature) => word_of(signature.name.as_bytes()),
            None => "?",
        },
        None => "?",
    }
}

// Tells of a transaction that always calls itself.
fn tell_endless(
    alloc: Global,
    page: &mut Page,
    file: &str,
    text: &[u8],
    name: &str,
    span: Span,
) -> Result<(), Memory> {
    let mut words = Words::new(alloc);
    words.put_with(
        "`{}` calls itself on each way through it: no call of it comes to an end",
        &[name],
    );
    let said = words.finish()?;
    tell_note(page, file, text, span, said.as_str())
}

// Whether a place was told already: instances of a generic contract have the same places.
fn is_among(places: &[u32], span: Span) -> bool {
    places.contains(&span.start)
}

// Tells of the first transactions that always call themselves, so many at most, and of how many.
fn tell_all_endless(
    alloc: Global,
    page: &mut Page,
    file: &str,
    text: &[u8],
    table: &Table,
    most: usize,
) -> Result<usize, Memory> {
    let mut told = Vec::new(alloc);
    for body in table.bodies() {
        if told.len() >= most {
            return Ok(told.len());
        }
        if let Some(span) = endless_call(body) {
            if !is_among(told.as_slice(), span) {
                tell_endless(alloc, page, file, text, name_of(table, body), span)?;
                told.push(span.start)?;
            }
        }
    }
    Ok(told.len())
}

// Tells where assets are let go.
fn tell_letting(
    alloc: Global,
    page: &mut Page,
    file: &str,
    text: &[u8],
    table: &Table,
    at: LettingAt,
) -> Result<(), Memory> {
    let mut words = Words::new(alloc);
    say_letting(&mut words, text, table, at);
    let said = words.finish()?;
    tell_note(page, file, text, at.span, said.as_str())
}

// The same of all places, of so many at most.
fn tell_lettings(
    alloc: Global,
    page: &mut Page,
    file: &str,
    text: &[u8],
    table: &Table,
    seen: &Seen,
    most: usize,
) -> Result<(), Memory> {
    let mut told = Vec::new(alloc);
    for at in &seen.trace.lettings {
        if told.len() < most && !is_among(told.as_slice(), at.span) {
            tell_letting(alloc, page, file, text, table, *at)?;
            told.push(at.span.start)?;
        }
    }
    Ok(())
}

// Tells all of a text with this class table.
fn tell_all(
    alloc: Global,
    page: &mut Page,
    file: &str,
    text: &[u8],
    table: &Table,
    seen: &Seen,
) -> Result<(), Memory> {
    let hidden = tell_hidden(alloc, page, file, text, None)?;
    let nothing = tell_nothing_made(alloc, page, file, text, table)?;
    let most = MOST_NOTES.saturating_sub(hidden).saturating_sub(nothing);
    let endless = tell_all_endless(alloc, page, file, text, table, most)?;
    let rest = most.saturating_sub(endless);
    tell_lettings(alloc, page, file, text, table, seen, rest)
}

/// Tells what is noted of an accepted text.
pub fn tell_notes(
    alloc: Global,
    page: &mut Page,
    file: &str,
    text: &[u8],
    seen: &Seen,
) -> Result<(), Memory> {
    let Some(table) = &seen.table else {
        return Ok(());
    };
    if seen.trace.lacks {
        return Err(Memory);
    }
    tell_all(alloc, page, file, text, table, seen)
}
