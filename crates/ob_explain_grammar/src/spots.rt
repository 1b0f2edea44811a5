//! What stands around an unexpected token.

use crate::expected::Expected;
use crate::fronts::Front;
use crate::parts::has_word;
use crate::rules::{BODY, MEMBER, PROGRAM, STATE};
use ob_base::Span;
use ob_explain_page::shown_at;
use ob_lexer::{Token, TokenKind, Word};

/// The tokens around a place as they are written; a missing one is empty.
#[derive(Clone, Copy)]
pub struct Spot<'a> {
    /// The text and its tokens.
    pub text: &'a [u8],
    pub tokens: &'a [Token],
    /// How many of the tokens stand before the place.
    pub before: usize,
    /// The place.
    pub place: Span,
    /// The third, second and first before the place.
    pub third: &'a str,
    pub second: &'a str,
    pub first: &'a str,
    /// The token at the place, and the two after it.
    pub found: &'a str,
    pub next: &'a str,
    pub after: &'a str,
    /// The token that begins the member or statement which the place is in. Empty where the place begins one, and of a name that is
    /// assigned or called upon.
    pub begin: &'a str,
    /// The name of the contract or interface around.
    pub own: &'a str,
    /// The words by which the text declares the first and the third name before the place.
    pub named: &'a str,
    pub typed: &'a str,
    /// Where the place is: `PROGRAM`, `MEMBER`, `STATE` or `BODY`.
    pub level: &'a str,
    /// Just after the token before the place.
    pub end_before: Span,
    /// The line of the innermost brace that is open, or 0.
    pub open_line: u32,
}

// The token of a number, as it is written.
fn word_at<'a>(text: &'a [u8], tokens: &[Token], number: Option<usize>) -> &'a str {
    match number {
        Some(number) => match tokens.get(number) {
            Some(token) => shown_at(text, token.span),
            None => "",
        },
        None => "",
    }
}

// Just after the last token.
fn end_of(read: &[Token]) -> Span {
    match read.last() {
        Some(token) => Span {
            start: token.span.end,
            end: token.span.end,
            line: token.span.line,
            column: token.span.column,
        },
        None => Span {
            start: 0,
            end: 0,
            line: 1,
            column: 1,
        },
    }
}

// The line of the innermost brace that is open.
fn open_line(tokens: &[Token], front: &Front) -> u32 {
    match front.open.last() {
        Some(number) => match tokens.get(*number) {
            Some(token) => token.span.line,
            None => 0,
        },
        None => 0,
    }
}

/// Whether a token begins the head of a contract or an interface.
pub fn begins_contract(token: &Token) -> bool {
    matches!(
        token.kind,
        TokenKind::Word(Word::Contract) | TokenKind::Word(Word::Interface)
    )
}

// The name behind the last word that begins a contract.
fn name_in_head<'a>(text: &'a [u8], head: &[Token]) -> &'a str {
    match head.iter().rposition(|token| begins_contract(token)) {
        Some(number) => word_at(text, head, Some(number.saturating_add(1))),
        None => "",
    }
}

// The name of the contract around.
fn own_name<'a>(text: &'a [u8], tokens: &[Token], front: &Front) -> &'a str {
    match front.open.first() {
        Some(number) => name_in_head(text, &tokens[..(*number).min(tokens.len())]),
        None => "",
    }
}

/// The words by which names are declared that a place may be about.
const DECLARED_BY: &str = "contract interface state transaction";

/// The word by which a text first declares a name, or nothing.
pub fn declaring<'a>(text: &'a [u8], tokens: &[Token], name: &str) -> &'a str {
    let mut before = "";
    for token in tokens {
        let word = shown_at(text, token.span);
        if word == name && has_word(DECLARED_BY, before) {
            return before;
        }
        before = word;
    }
    ""
}

/// Signs behind a name that is assigned or called upon.
const BEHIND_USED: &str = "= . ::";

// The token that begins a member or statement, unless it is used as a name.
fn begin_of<'a>(text: &'a [u8], tokens: &[Token], front: &Front) -> &'a str {
    let Some(number) = front.beginning() else {
        return "";
    };
    let behind = word_at(text, tokens, Some(number.saturating_add(1)));
    if has_word(BEHIND_USED, behind) {
        ""
    } else {
        word_at(text, tokens, Some(number))
    }
}

// Where a place is at which so many braces are open, in a member that begins with this.
fn level_of(open: usize, member: &str) -> &'static str {
    match open {
        0 => PROGRAM,
        1 => MEMBER,
        _ => { if member == "state" { STATE } else { BODY } }
    }
}

/// The tokens that begin or end something else than an expression.
const BEGINNING: &str = "} return if while int bool string -> disown transaction state";

impl<'a> Spot<'a> {
    /// Around a place before which so many of the tokens stand.
    pub fn of(
        text: &'a [u8],
        tokens: &'a [Token],
        before: usize,
        front: &Front,
        place: Span,
    ) -> Spot<'a> {
        let first = word_at(text, tokens, before.checked_sub(1));
        let third = word_at(text, tokens, before.checked_sub(3));
        let member = word_at(text, tokens, front.member());
        Spot {
            text,
            tokens,
            before,
            place,
            third,
            second: word_at(text, tokens, before.checked_sub(2)),
            first,
            found: word_at(text, tokens, Some(before)),
            next: word_at(text, tokens, before.checked_add(1)),
            after: word_at(text, tokens, before.checked_add(2)),
            begin: begin_of(text, tokens, front),
            own: own_name(text, tokens, front),
            named: declaring(text, tokens, first),
            typed: declaring(text, tokens, third),
            level: level_of(front.open.len(), member),
            end_before: end_of(&tokens[..before.min(tokens.len())]),
            open_line: open_line(tokens, front),
        }
    }

    /// Whether the text declares a name as that of a contract, an interface, a state or a transaction.
    pub fn declares(&self, name: &str) -> bool {
        !declaring(self.text, self.tokens, name).is_empty()
    }

    /// Whether nothing stands between the token before the place and the one there.
    pub fn is_joined(&self) -> bool {
        self.end_before.start == self.place.start
    }

    // Whether the place is on a later line than the token before it.
    fn on_new_line(&self) -> bool {
        self.found.is_empty() || self.place.line > self.end_before.line
    }

    /// Whether a `;` could stand here, and the token is one that begins or ends something else.
    pub fn lacks_semicolon(&self, expected: &Expected) -> bool {
        expected.has(";") && (self.on_new_line() || has_word(BEGINNING, self.found))
    }
}
