//! Faults of words and signs.

use ob_base::{
    BAD_CHARACTER, BAD_ESCAPE, BIG_NUMBER, LONG_NAME, LONG_PROGRAM, LONG_STRING, Memory, NOT_UTF8,
    OPEN_COMMENT, OPEN_STRING, ProgramFault, is_letter, is_letter_or_digit,
};
use ob_explain_page::{Explanation, Hint, hint_for, shown_at};
use std::alloc::Global;

/// Of characters that begin no token.
const CHARACTERS: [Hint; 6] = [
    Hint {
        of: &["'", "`", "\u{2018}", "\u{2019}", "\u{201c}", "\u{201d}"],
        help: "a string stands between two plain `\"`.",
    },
    Hint {
        of: &["#"],
        help: "a comment begins with `//`, or stands between `/*` and `*/`.",
    },
    Hint {
        of: &["&"],
        help: "`&&` is the sign for 'and'.",
    },
    Hint {
        of: &[":"],
        help: "a type stands before its name, as in `int n` or `C@Owned c`; `S::f = v;` sets a field before a change of state.",
    },
    Hint {
        of: &["?"],
        help: "a choice is an `if` with an `else`.",
    },
    Hint {
        of: &["$", "~", "^", "\\"],
        help: "the signs are { } ( ) [ ] ; , . @ | :: -> >> = == != < <= > >= + - * / % ! && ||.",
    },
];

/// Of a sign of references in front of a name.
const REFERENCE: &str =
    "a reference has no sign: its type says what is held, as in `C@Owned c`, or in a contract A `A@Owned this`.";

/// Of all others.
const LETTERS: &str =
    "names have ASCII letters, digits and `_`; other letters stand in strings and comments only.";

/// A fault of words and signs of which the same is said in each text.
#[derive(Clone, Copy)]
struct Spelling {
    number: u16,
    wrong: &'static str,
    help: &'static str,
}

/// Those faults. Of a program that is too long no length is told: no more of it may have been read than shows that it is.
const SPELLINGS: [Spelling; 6] = [
    Spelling {
        number: OPEN_COMMENT,
        wrong: "this comment isn't closed",
        help: "write `*/` where it ends; comments don't nest.",
    },
    Spelling {
        number: OPEN_STRING,
        wrong: "this string isn't closed on its line",
        help: "write `\"` where it ends; a newline in a string is written `\\n`.",
    },
    Spelling {
        number: BIG_NUMBER,
        wrong: "this number is above 9223372036854775807, the greatest `int`",
        help: "count in a larger unit; the least `int` is written `-9223372036854775807 - 1`.",
    },
    Spelling {
        number: LONG_STRING,
        wrong: "this string has more than 1024 bytes",
        help: "make it shorter: a `string` holds 1024 bytes at most.",
    },
    Spelling {
        number: BAD_ESCAPE,
        wrong: "this backslash begins no escape",
        help: "after a backslash stands `\"`, another backslash, `n` (a newline) or `t` (a tab).",
    },
    Spelling {
        number: LONG_PROGRAM,
        wrong: "the text has more than 1048576 bytes, the most that a program has",
        help: "",
    },
];

// The first byte at a place.
fn byte_at(text: &[u8], place: u32) -> u8 {
    match text.get(place as usize) {
        Some(byte) => *byte,
        None => 0,
    }
}

// How many bytes the name at a place has.
fn name_length(text: &[u8], place: u32) -> usize {
    match text.get(place as usize..) {
        Some(rest) => rest
            .iter()
            .take_while(|byte| is_letter_or_digit(**byte))
            .count(),
        None => 0,
    }
}

// A byte that begins no character.
fn explain_byte(told: &mut Explanation, byte: u8) {
    told.what
        .put("the text isn't UTF-8: no character begins with the byte ");
    told.what.put_number(u64::from(byte));
    told.what.put(" (in decimal) that stands here");
    told.help.put("save the file as UTF-8.");
}

// How to mend a character that begins no token.
fn help_with(sign: &str) -> &'static str {
    let help = hint_for(&CHARACTERS, sign);
    if help.is_empty() { LETTERS } else { help }
}

// Whether a character stands in front of a name, and behind none.
fn is_in_front(text: &[u8], place: u32) -> bool {
    let before = byte_at(text, place.saturating_sub(1));
    is_letter(byte_at(text, place.saturating_add(1)))
        && !is_letter_or_digit(before)
        && before != b')'
}

// A character that begins no token.
fn explain_character(told: &mut Explanation, sign: &str, in_front: bool) {
    told.what.put_with("no word, number, string or sign begins with `{}`", &[sign]);
    told.help.put(if in_front && sign == "&" {
        REFERENCE
    } else {
        help_with(sign)
    });
}

// A name with too many bytes.
fn explain_long_name(told: &mut Explanation, length: usize) {
    told.what.put("this name has ");
    told.what.put_number(length as u64);
    told.what.put(" bytes, and a name has 64 at most");
}

// A fault of which the same is said in each text.
fn explain_spelling(told: &mut Explanation, number: u16) {
    for spelling in &SPELLINGS {
        if spelling.number == number {
            told.what.put(spelling.wrong);
            told.help.put(spelling.help);
        }
    }
}

fn explain(told: &mut Explanation, text: &[u8], fault: ProgramFault) {
    let place = fault.span.start;
    match fault.number {
        NOT_UTF8 => explain_byte(told, byte_at(text, place)),
        BAD_CHARACTER => {
            explain_character(told, shown_at(text, fault.span), is_in_front(text, place));
        }
        LONG_NAME => explain_long_name(told, name_length(text, place)),
        number => explain_spelling(told, number),
    }
}

/// Explains a fault of words and signs.
pub fn explain_token(
    alloc: Global,
    text: &[u8],
    fault: ProgramFault,
) -> Result<Explanation, Memory> {
    let mut told = Explanation::new(alloc);
    explain(&mut told, text, fault);
    Ok(told)
}
