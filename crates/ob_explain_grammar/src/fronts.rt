//! What of the tokens before a place is still open there: which tokens may follow depends on no more.

use ob_base::Memory;
use ob_lexer::{Sign, Token, TokenKind, Word};
use std::alloc::Global;

/// The tokens before a place, without the members and statements that are over, and without what blocks enclose that are.
#[derive(Drop)]
pub struct Front {
    /// The numbers of the tokens.
    pub kept: Vec<usize>,
    /// The numbers of the braces that are open, the innermost last.
    pub open: Vec<usize>,
    // Where in `kept` the tokens begin that stand directly inside each open brace.
    begins: Vec<usize>,
    // Whether a member or statement is over with the last token, unless `else` goes on with it.
    over: bool,
}

// Whether a token goes on with a statement that could be over.
fn goes_on(kind: &TokenKind) -> bool {
    matches!(kind, TokenKind::Word(Word::Else))
}

impl Front {
    fn innermost(&self) -> usize {
        match self.begins.last() {
            Some(begin) => *begin,
            None => 0,
        }
    }

    fn keep(&mut self, number: usize) -> Result<(), Memory> {
        self.kept.push(number)?;
        Ok(())
    }

    fn open_brace(&mut self, number: usize) -> Result<(), Memory> {
        self.keep(number)?;
        let begin = self.kept.len();
        self.begins.push(begin)?;
        self.open.push(number)?;
        Ok(())
    }

    fn close_brace(&mut self, number: usize) -> Result<(), Memory> {
        let begin = self.innermost();
        self.kept.truncate(begin);
        self.begins.pop();
        self.open.pop();
        self.over = true;
        self.keep(number)
    }

    // One more token.
    fn take(&mut self, kind: &TokenKind, number: usize) -> Result<(), Memory> {
        if self.over && !goes_on(kind) {
            let begin = self.innermost();
            self.kept.truncate(begin);
        }
        self.over = matches!(kind, TokenKind::Sign(Sign::Semicolon));
        match kind {
            TokenKind::Sign(Sign::OpenBrace) => self.open_brace(number),
            TokenKind::Sign(Sign::CloseBrace) => self.close_brace(number),
            _ => self.keep(number),
        }
    }

    // The number of the token at a place of those that are kept.
    fn kept_at(&self, place: usize) -> Option<usize> {
        match self.kept.get(place) {
            Some(number) => Some(*number),
            None => None,
        }
    }

    /// The number of the token that begins the member or statement that isn't over at the end, if there is one.
    pub fn beginning(&self) -> Option<usize> {
        if self.over {
            None
        } else {
            self.kept_at(self.innermost())
        }
    }

    /// The number of the token that begins the member, directly in a contract, that isn't over.
    pub fn member(&self) -> Option<usize> {
        match self.begins.first() {
            Some(begin) => self.kept_at(*begin),
            None => None,
        }
    }

    /// What of these tokens is open after them.
    pub fn of(alloc: Global, tokens: &[Token]) -> Result<Front, Memory> {
        let mut front = Front {
            kept: Vec::new(alloc),
            open: Vec::new(alloc),
            begins: Vec::new(alloc),
            over: false,
        };
        for number in 0..tokens.len() {
            front.take(&tokens[number].kind, number)?;
        }
        Ok(front)
    }
}
