//! Rules of what is said of an unexpected token, one on each line.
//!
//! A rule is what has to fit, ` => `, and the text that is said. What has to fit are parts with ` & ` between, each of them
//!
//! - `could`, `could_not` or one of the names below, and tokens: those that could all stand at the place, those of which none could, or those
//!   of which one stands there; or
//! - `alone`, where no other token could, or `joined`, where nothing stands between the first token before the place and the place.
//!
//! The names are `third`, `second` and `first` for the tokens before the place, `found` for the one there, and `next` and `after` for those
//! behind it; `begin` for the token that begins the member or statement; `named` and `typed` for the words by which the first token and the
//! third are declared, as `state`; `level` for where the place is; and `own` for the name of the contract around. Among tokens `#name` stands
//! for each that is written like a name, `#other` for all else, `#number` for each number, `#string` for each string, `#own` for the name of
//! the contract around, and `#none` for a token that isn't there, as at the end of the text.
//!
//! In the text stands a name between two `#` for its token, `#line#` for the line of the innermost brace that is open, `#decimal#` for
//! the number at the place in decimal digits, and `#loops#` and so on for what several rules say.

use crate::expected::Expected;
use crate::hints::{ARRAYS, LOOPS, SENT, TWO_RESULTS};
use crate::numbers::put_decimal;
use crate::parts::has_word;
use crate::spots::Spot;
use ob_base::is_letter;
use ob_explain_page::{CALLER, FRACTIONS, TIME, Words};

/// Where a place is: in no contract, directly in one, in the fields of a state, or in a body.
pub const PROGRAM: &str = "program";

pub const MEMBER: &str = "member";

pub const STATE: &str = "state";

pub const BODY: &str = "body";

// The first byte of a token; 0 where there is none.
fn first_byte(token: &str) -> u8 {
    match token.as_bytes().first() {
        Some(byte) => *byte,
        None => 0,
    }
}

// Whether a token begins with a letter, or doesn't.
fn class_of(token: &str) -> &'static str {
    if is_letter(first_byte(token)) {
        "#name"
    } else {
        "#other"
    }
}

// Whether it is a number, a string, none of both, or isn't there.
fn value_class(token: &str) -> &'static str {
    match first_byte(token) {
        b'0'..=b'9' => "#number",
        b'"' => "#string",
        0 => "#none",
        _ => "#no_value",
    }
}

// Whether a token is of a class of a list.
fn fits_class(tokens: &str, token: &str) -> bool {
    has_word(tokens, class_of(token)) || has_word(tokens, value_class(token))
}

// Whether a token is of a list, where this is the name of the contract around.
fn fits_token(tokens: &str, token: &str, own: &str) -> bool {
    has_word(tokens, token)
        || fits_class(tokens, token)
        || (token == own && has_word(tokens, "#own"))
}

// What a name between two `#` denotes; another text denotes itself.
fn text_for<'a>(spot: &Spot<'a>, name: &'a str) -> &'a str {
    match name {
        "third" => spot.third,
        "second" => spot.second,
        "first" => spot.first,
        "found" => spot.found,
        "next" => spot.next,
        "after" => spot.after,
        "begin" => spot.begin,
        "named" => spot.named,
        "typed" => spot.typed,
        "level" => spot.level,
        "own" => spot.own,
        "loops" => LOOPS,
        "arrays" => ARRAYS,
        "results" => TWO_RESULTS,
        "sent" => SENT,
        "fractions" => FRACTIONS,
        "caller" => CALLER,
        "time" => TIME,
        _ => name,
    }
}

// Whether a part of a rule with tokens fits.
fn fits_tokens(spot: &Spot<'_>, expected: &Expected, name: &str, tokens: &str) -> bool {
    if name == "could" {
        expected.has_all(tokens)
    } else if name == "could_not" {
        !expected.has_any(tokens)
    } else {
        fits_token(tokens, text_for(spot, name), spot.own)
    }
}

// Whether a part of a rule fits.
fn fits_part(spot: &Spot<'_>, expected: &Expected, part: &str) -> bool {
    match part.split_once(' ') {
        Some((name, tokens)) => fits_tokens(spot, expected, name, tokens),
        None => if part == "alone" {
            expected.is_one()
        } else {
            spot.is_joined()
        },
    }
}

// Whether all of its parts do.
fn fits(spot: &Spot<'_>, expected: &Expected, parts: &str) -> bool {
    for part in parts.split(" & ") {
        if !fits_part(spot, expected, part) {
            return false;
        }
    }
    true
}

/// The text of the first rule that fits; empty where none does.
pub fn help_by(rules: &'static str, spot: &Spot<'_>, expected: &Expected) -> &'static str {
    for rule in rules.split('\n') {
        if let Some((parts, help)) = rule.split_once(" => ") {
            if fits(spot, expected, parts) {
                return help;
            }
        }
    }
    ""
}

// A piece of a text between two `#`.
fn put_piece(words: &mut Words, spot: &Spot<'_>, piece: &str) {
    if piece == "line" {
        words.put_number(u64::from(spot.open_line));
    } else if piece == "decimal" {
        put_decimal(words, spot.first, spot.found);
    } else {
        words.put(text_for(spot, piece));
    }
}

/// The text of a rule, with the tokens of this place.
pub fn put_help(words: &mut Words, spot: &Spot<'_>, help: &str) {
    for piece in help.split('#') {
        put_piece(words, spot, piece);
    }
}
