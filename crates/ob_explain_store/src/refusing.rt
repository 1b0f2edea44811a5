//! A file that is no store, and a store with a record that isn't one.
ghost use Rattle.std.specs.Prelude.{string_bytes, IfOk};
ghost use Rattle.ob_explain_page.specs.Pages.{IsPage};

use crate::areas::Areas;
use crate::lines::{page_of, put_count, words_of};
use crate::records::{Records, behind, counted, is_marked};
use ob_base::Memory;
use ob_explain_page::{Explanation, Words};
use std::alloc::Global;

/// A kind of files that is known by its first bytes.
#[derive(Clone, Copy)]
struct FileKind {
    front: &'static [u8],
    what: &'static str,
}

/// What is said of the text of a program.
const PROGRAM: &str = "a text, maybe of a program: is it P in place of STORE?";

/// Those kinds.
const KINDS: [FileKind; 13] = [
    FileKind {
        front: b"OBI1",
        what: "an image of code without the store around it.",
    },
    FileKind {
        front: b"\x7fELF",
        what: "a program of the machine.",
    },
    FileKind {
        front: b"SQLite format 3\0",
        what: "a database of SQLite.",
    },
    FileKind {
        front: b"\x1f\x8b",
        what: "packed by gzip.",
    },
    FileKind {
        front: b"PK\x03\x04",
        what: "a zip archive.",
    },
    FileKind {
        front: b"%PDF",
        what: "a PDF document.",
    },
    FileKind {
        front: b"#!",
        what: "a script.",
    },
    FileKind {
        front: b"{",
        what: "a text, maybe of requests or replies.",
    },
    FileKind {
        front: b"main ",
        what: PROGRAM,
    },
    FileKind {
        front: b"asset ",
        what: PROGRAM,
    },
    FileKind {
        front: b"contract ",
        what: PROGRAM,
    },
    FileKind {
        front: b"//",
        what: PROGRAM,
    },
    FileKind {
        front: b"/*",
        what: PROGRAM,
    },
];

/// How many bytes are looked at, to see whether a file is a text.
const LOOKED_AT: usize = 4096;

// Whether these bytes are characters, up to where they are cut.
fn is_utf8(bytes: &[u8]) -> bool {
    match str::from_utf8(bytes) {
        Ok(_) => true,
        Err(error) => error.error_len().is_none(),
    }
}

// Whether a file with these bytes is a text.
fn is_text(bytes: &[u8]) -> bool {
    let front = &bytes[..bytes.len().min(LOOKED_AT)];
    is_utf8(front) && !front.contains(&0)
}

// What a file is that isn't a store, by its first bytes.
fn kind_of(bytes: &[u8]) -> &'static str {
    for kind in KINDS.iter() {
        if bytes.starts_with(kind.front) {
            return kind.what;
        }
    }
    if is_text(bytes) {
        "a text."
    } else {
        "a file of another kind."
    }
}

// What is said of a file that begins with no area.
fn say_first(told: &mut Explanation, bytes: &[u8]) {
    if is_marked(bytes) {
        told.what.put(
            "it begins as a store does, but what stands before its records isn't whole or was changed.",
        );
        told.help.put("take the last copy.");
    } else {
        told.what.put_with("it is {}", &[kind_of(bytes)]);
        told.help.put(
            "see whether it is the right file. Nothing of it was changed; a new store is begun where no file is, or an empty one.",
        );
    }
}

// What is said of a file with no area where the second one begins.
fn say_second(told: &mut Explanation, start: u64) {
    told.what.put("at byte ");
    told.what.put_number(start);
    told.what
        .put(", where its second area begins, stands none.");
    told.help.put(
        "the file was changed, or is none of a store: take the last copy. Nothing of it was changed by this run.",
    );
}

/// Tells a person what a file is that is no store, by its areas.
pub fn explain_not_store(alloc: Global, name: &str, areas: Areas<'_>) -> Result<String, Memory>
    ensures { IfOk result (λ page. IsPage (string_bytes page)) }
{
    let mut told = Explanation::new(alloc);
    let area = areas.without_header();
    if area.start == 0 {
        say_first(&mut told, area.bytes);
    } else {
        say_second(&mut told, area.start);
    }
    page_of(alloc, name, words_of(alloc, "611 NotStore"), told)
}

// Why the record behind a gate is none.
fn say_flaw(what: &mut Words, bytes: &[u8], gate: usize) {
    match counted(behind(bytes, gate.saturating_add(1))) {
        Some((count, rest)) if count < rest.len() => {
            what.put("says what can't be, as a reference to an object that isn't there.");
        }
        Some((count, rest)) => {
            what.put("isn't whole: it says that it has ");
            put_count(what, count as u64, " byte", " bytes");
            what.put(" and a gate after them, and ");
            put_count(what, rest.len() as u64, " byte follows.", " bytes follow.");
        }
        None => what.put("isn't whole: the store ends in the 4 bytes that tell how long it is."),
    }
}

// What holds of the records before one.
fn say_before(note: &mut Words, count: u64) {
    match count {
        0 => note.put("there is no record before it."),
        1 => note.put("the record before it is whole."),
        _ => {
            note.put("the ");
            note.put_number(count);
            note.put(" records before it are whole.");
        }
    }
}

/// Tells a person which record of a store isn't one, by its areas: its number, its offset, and what is wrong with it.
pub fn explain_damaged(
    alloc: Global,
    name: &str,
    areas: Areas<'_>,
    offset: u64,
) -> Result<String, Memory>
    ensures { IfOk result (λ page. IsPage (string_bytes page)) }
{
    let area = areas.around(offset);
    let bytes = area.bytes;
    let gate = usize::try_from(offset.saturating_sub(area.start)).unwrap_or(bytes.len());
    let mut records = Records::of(bytes);
    records.pass(gate);
    let mut told = Explanation::new(alloc);
    told.what.put("record ");
    told.what.put_number(records.count.saturating_add(1));
    told.what.put(", at byte ");
    told.what.put_number(offset);
    told.what.put(", ");
    say_flaw(&mut told.what, bytes, gate);
    say_before(&mut told.note, records.count);
    told.help.put(
        "the file was cut or changed: take the last copy. No command opens a part of a store.",
    );
    page_of(alloc, name, words_of(alloc, "612 Damaged"), told)
}
