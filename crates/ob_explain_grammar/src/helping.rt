//! How to mend an unexpected token, by what stands around it.

use crate::brackets::{BRACKETS, QUESTIONS};
use crate::expected::Expected;
use crate::forms::{IN_BODIES, IN_MEMBERS};
use crate::hints::hint_for;
use crate::rules::{help_by, put_help};
use crate::slips::tell_slip;
use crate::spots::Spot;
use ob_base::{Memory, Span};
use ob_explain_page::Explanation;
use std::alloc::Global;

// The first text of two.
fn or_else(first: &'static str, second: &'static str) -> &'static str {
    if first.is_empty() { second } else { first }
}

// Whether a token is a word of another language, which the text doesn't declare.
fn is_foreign(spot: &Spot<'_>, token: &str) -> bool {
    !hint_for(token).is_empty() && !spot.declares(token)
}

// The word of another language at the place, at the beginning of the statement, or before the place; empty where none stands there.
fn foreign_word<'a>(spot: &Spot<'a>) -> &'a str {
    let tokens = [spot.found, spot.begin, spot.first];
    for number in 0..3 {
        if is_foreign(spot, tokens[number]) {
            return tokens[number];
        }
    }
    ""
}

// How to mend it by what is asked before words are looked at.
fn help_before(spot: &Spot<'_>, expected: &Expected) -> &'static str {
    or_else(
        help_by(BRACKETS, spot, expected),
        help_by(QUESTIONS, spot, expected),
    )
}

// How to mend it where no other word was meant.
fn help_behind(spot: &Spot<'_>, expected: &Expected) -> &'static str {
    or_else(
        help_by(IN_BODIES, spot, expected),
        help_by(IN_MEMBERS, spot, expected),
    )
}

// How to mend it where no `;` is missing, with the place that the mark is put under.
fn put_other_help(
    alloc: Global,
    told: &mut Explanation,
    spot: &Spot<'_>,
    expected: &Expected,
    open: &[usize],
) -> Result<Span, Memory> {
    let help = help_before(spot, expected);
    let word = foreign_word(spot);
    if !help.is_empty() {
        put_help(&mut told.help, spot, help);
        return Ok(spot.place);
    }
    if !word.is_empty() {
        told.help.put_with(hint_for(word), &[word]);
        return Ok(spot.place);
    }
    if let Some(mark) = tell_slip(alloc, told, spot, expected, open)? {
        return Ok(mark);
    }
    put_help(&mut told.help, spot, help_behind(spot, expected));
    Ok(spot.place)
}

/// How to mend it, if there is something to be said, with the place that the mark is put under. Where a word of the language was meant by
/// a name before the place, what is wrong is said too.
pub fn put_help_at(
    alloc: Global,
    told: &mut Explanation,
    spot: &Spot<'_>,
    expected: &Expected,
    open: &[usize],
) -> Result<Span, Memory> {
    if spot.lacks_semicolon(expected) {
        told.help.put_with("put a `;` after `{}`.", &[spot.first]);
        return Ok(spot.end_before);
    }
    put_other_help(alloc, told, spot, expected, open)
}
