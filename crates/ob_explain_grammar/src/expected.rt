//! Which tokens could stand at a place: those with which the tokens before it still begin a program.

use crate::fronts::Front;
use crate::helping::put_help_at;
use crate::parts::{ARGUMENT, PARTS, Part, has_word};
use crate::spots::Spot;
use crate::trying::{tokens_at, words_after};
use ob_base::{EXPECTED, Memory, ProgramFault, Span};
use ob_explain_page::{Explanation, Words};
use ob_lexer::{Lexed, Token};
use std::alloc::Global;

/// How many tokens may be open before a place of which it is asked what could follow.
const MOST_OPEN_TOKENS: usize = 600;

/// What could stand at a place.
#[derive(Drop)]
pub struct Expected {
    /// The spellings of the tokens.
    pub words: Vec<&'static str>,
    /// The parts of the grammar that take the place of tokens which were taken out of them, in words.
    parts: Vec<&'static str>,
}

impl Expected {
    /// Whether a token of this spelling could stand there.
    pub fn has(&self, word: &str) -> bool {
        for other in &self.words {
            if *other == word {
                return true;
            }
        }
        false
    }

    /// Whether each of these could.
    pub fn has_all(&self, words: &str) -> bool {
        for word in words.split(' ') {
            if !self.has(word) {
                return false;
            }
        }
        true
    }

    /// Whether one of these could.
    pub fn has_any(&self, words: &str) -> bool {
        for word in words.split(' ') {
            if self.has(word) {
                return true;
            }
        }
        false
    }

    /// Whether one token alone could.
    pub fn is_one(&self) -> bool {
        self.words.len() == 1
    }

    fn is_empty(&self) -> bool {
        self.words.is_empty() && self.parts.is_empty()
    }

    // Takes these tokens out.
    fn take_out(&mut self, words: &str) {
        self.words.retain(|word| !has_word(words, word));
    }

    // Has a part take the place of its tokens, if it could stand there.
    fn take_part(&mut self, part: &Part) -> Result<(), Memory> {
        if self.has_all(part.marks) {
            self.parts.push(part.said)?;
            self.take_out(part.begins);
        }
        Ok(())
    }

    // Has the parts that could stand there take the place of their tokens.
    fn take_parts(&mut self) -> Result<(), Memory> {
        self.take_out(ARGUMENT);
        for part in &PARTS {
            self.take_part(part)?;
        }
        Ok(())
    }
}

// What could stand after these tokens, of which those of these numbers are open. Nothing is said of very many.
fn expected_after(alloc: Global, tokens: &[Token], open: &[usize]) -> Result<Expected, Memory> {
    let words = if open.len() > MOST_OPEN_TOKENS {
        Vec::new(alloc)
    } else {
        words_after(alloc, &mut tokens_at(alloc, tokens, open)?)?
    };
    Ok(Expected {
        words,
        parts: Vec::new(alloc),
    })
}

// What stands in a list before the item of this number, of so many: `or` before the last.
fn before_item(number: usize, count: usize) -> &'static str {
    if number == 0 {
        ""
    } else if number.saturating_add(1) == count {
        " or "
    } else {
        ", "
    }
}

// What could stand there, as a list: signs first.
fn put_list(words: &mut Words, expected: &Expected) {
    let count = expected.words.len().saturating_add(expected.parts.len());
    let mut number: usize = 0;
    for word in &expected.words {
        words.put(before_item(number, count));
        words.put_with("`{}`", &[word]);
        number = number.saturating_add(1);
    }
    for part in &expected.parts {
        words.put(before_item(number, count));
        words.put(part);
        number = number.saturating_add(1);
    }
}

// What is wrong where something could stand.
fn put_expected(words: &mut Words, spot: &Spot<'_>, expected: &Expected) {
    words.put("expected ");
    put_list(words, expected);
    if spot.found.is_empty() {
        words.put(", and the text ends here");
    } else {
        words.put_with(", found `{}`", &[spot.found]);
    }
}

// What is wrong.
fn put_wrong(words: &mut Words, spot: &Spot<'_>, expected: &Expected) {
    if expected.is_empty() {
        words.put_with("`{}` can't stand here", &[spot.found]);
    } else {
        put_expected(words, spot, expected);
    }
}

// An unexpected token, where the tokens of these numbers are open before it: with the place that the mark is put under.
fn explain_spot(
    alloc: Global,
    told: &mut Explanation,
    spot: &Spot<'_>,
    open: &[usize],
) -> Result<Span, Memory> {
    let mut expected = expected_after(alloc, spot.tokens, open)?;
    let mark = put_help_at(alloc, told, spot, &expected, open)?;
    if told.what.is_empty() {
        expected.take_parts()?;
        put_wrong(&mut told.what, spot, &expected);
    }
    Ok(mark)
}

// An unexpected token, with the place that the mark is put under.
fn explain_expected(
    alloc: Global,
    told: &mut Explanation,
    text: &[u8],
    tokens: &[Token],
    fault: ProgramFault,
) -> Result<Span, Memory> {
    let before = tokens
        .iter()
        .take_while(|token| token.span.start < fault.span.start)
        .count();
    let front = Front::of(alloc, &tokens[..before.min(tokens.len())])?;
    let spot = Spot::of(text, tokens, before, &front, fault.span);
    explain_spot(alloc, told, &spot, &front.kept)
}

// More that is open at once than may be.
fn explain_depth(told: &mut Explanation) {
    told.what.put(
        "with this, more than 64 blocks, parentheses, lists of arguments and operators are open at once",
    );
    told.help.put("put a part of it into a local variable, or into a transaction of its own.");
}

fn explain(
    alloc: Global,
    told: &mut Explanation,
    text: &[u8],
    tokens: &[Token],
    fault: ProgramFault,
) -> Result<Span, Memory> {
    if fault.number == EXPECTED {
        return explain_expected(alloc, told, text, tokens, fault);
    }
    explain_depth(told);
    Ok(fault.span)
}

/// Explains a fault of the grammar: with the span under which the mark is put.
pub fn explain_grammar(
    alloc: Global,
    text: &[u8],
    lexed: &Lexed,
    fault: ProgramFault,
) -> Result<(Explanation, Span), Memory> {
    let mut told = Explanation::new(alloc);
    let mark = explain(alloc, &mut told, text, lexed.tokens.as_slice(), fault)?;
    Ok((told, mark))
}
