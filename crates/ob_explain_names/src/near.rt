//! The tokens around a place.

use ob_base::Span;
use ob_explain_page::shown_at;
use ob_lexer::Token;

/// The tokens of a text, and the number of the one at a place.
#[derive(Clone, Copy)]
pub struct Near<'a> {
    text: &'a [u8],
    tokens: &'a [Token],
    at: usize,
}

impl<'a> Near<'a> {
    /// Around the token that begins at a place.
    pub fn new(text: &'a [u8], tokens: &'a [Token], place: u32) -> Near<'a> {
        let at = tokens
            .iter()
            .take_while(|token| token.span.start < place)
            .count();
        Near { text, tokens, at }
    }

    fn word_at(&self, number: usize) -> &'a str {
        match self.tokens.get(number) {
            Some(token) => shown_at(self.text, token.span),
            None => "",
        }
    }

    /// The token at the place, as it is written.
    pub fn word(&self) -> &'a str {
        self.word_at(self.at)
    }

    /// The token so many before it.
    pub fn back(&self, count: usize) -> &'a str {
        match self.at.checked_sub(count) {
            Some(number) => self.word_at(number),
            None => "",
        }
    }

    /// The token so many after it.
    pub fn ahead(&self, count: usize) -> &'a str {
        self.word_at(self.at.saturating_add(count))
    }

    /// The same tokens, around the one so many before.
    pub fn moved_back(&self, count: usize) -> Near<'a> {
        Near {
            text: self.text,
            tokens: self.tokens,
            at: self.at.saturating_sub(count),
        }
    }

    // How many tokens back the argument begins that ends so many tokens back.
    fn begin_of_argument(&self, end: usize) -> usize {
        let mut open: u32 = 0;
        for count in end..2000 {
            match self.back(count) {
                "]" => open = open.saturating_add(1),
                "[" => open = open.saturating_sub(1),
                _ => {}
            }
            if open == 0 {
                return count;
            }
        }
        end
    }

    // How many tokens back the type begins that ends so many tokens back.
    fn begin_of_type(&self, end: usize) -> usize {
        if self.back(end) == "]" {
            self.begin_of_argument(end).saturating_add(1)
        } else {
            end
        }
    }

    // How many tokens back the `@` stands of the permission in which the name at the place is a state: the nearest one with nothing
    // but names, `|`, modes and `>>` between.
    fn sign_before(&self) -> Option<usize> {
        for count in 1..200 {
            match self.back(count) {
                "@" => return Some(count),
                ";" | "{" | "}" | "(" | ")" | "," | "" => return None,
                _ => {}
            }
        }
        None
    }

    /// The name of the type before that permission, without its argument; or nothing.
    pub fn held_name(&self) -> &'a str {
        match self.sign_before() {
            Some(count) => self.back(self.begin_of_type(count.saturating_add(1))),
            None => "",
        }
    }

    // The place of the token so many before.
    fn span_back(&self, count: usize) -> Option<Span> {
        Some(self.tokens.get(self.at.checked_sub(count)?)?.span)
    }

    // The text from one token before to another one.
    fn text_back(&self, from: usize, to: usize) -> Option<&'a str> {
        Some(self.between(self.span_back(from)?, self.span_back(to)?.start))
    }

    /// The type before that permission as it is written; or nothing.
    pub fn held_type(&self) -> &'a str {
        let Some(count) = self.sign_before() else {
            return "";
        };
        match self.text_back(self.begin_of_type(count.saturating_add(1)), count) {
            Some(text) => text.trim_end(),
            None => "",
        }
    }

    /// The written text from one place to another.
    pub fn between(&self, from: Span, to: u32) -> &'a str {
        shown_at(
            self.text,
            Span {
                start: from.start,
                end: to,
                line: from.line,
                column: from.column,
            },
        )
    }
}
