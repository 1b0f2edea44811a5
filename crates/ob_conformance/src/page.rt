//! The page on which an answer is written.
use ob_base::{Perm, Span};
use std::alloc::Global;
use std::fmt::{Debug, Display};

/// The hexadecimal digits.
const DIGITS: [&str; 16] = [
    "0", "1", "2", "3", "4", "5", "6", "7", "8", "9", "a", "b", "c", "d", "e", "f",
];

/// An answer: one line of words, each with a blank before it. Where a part of it can't be written there is none, so that no part has to tell
/// why.
#[derive(Drop)]
pub struct Page {
    text: String,
    fails: bool,
}

impl Page {
    /// No words.
    pub fn new(alloc: Global) -> Page {
        Page {
            text: String::new(alloc),
            fails: false,
        }
    }

    /// Notes that there is no answer: memory lacks, or the question is none.
    pub fn fail(&mut self) {
        self.fails = true;
    }

    /// The words, or `None` where there is no answer.
    pub fn words(&self) -> Option<&str> {
        if self.fails {
            None
        } else {
            Some(self.text.as_str())
        }
    }

    // Puts a part of a word.
    fn put(&mut self, part: &str) {
        if self.text.push_str(part).is_err() {
            self.fails = true;
        }
    }

    /// Puts a word.
    pub fn word(&mut self, word: &str) {
        self.put(" ");
        self.put(word);
    }

    /// Puts a value as it is displayed.
    pub fn show<T: Display>(&mut self, value: &T) {
        if write!(self.text, " {value}").is_err() {
            self.fails = true;
        }
    }

    /// Puts a value as it shows itself.
    pub fn name<T: Debug>(&mut self, value: &T) {
        if write!(self.text, " {value:?}").is_err() {
            self.fails = true;
        }
    }

    /// Puts a number.
    pub fn number(&mut self, number: u64) {
        self.show(&number);
    }

    /// Puts a number, or `none`.
    pub fn number_or_none(&mut self, number: Option<u32>) {
        match number {
            Some(number) => self.number(u64::from(number)),
            None => self.word("none"),
        }
    }

    /// Puts `true` or `false`.
    pub fn truth(&mut self, truth: bool) {
        self.word(if truth { "true" } else { "false" });
    }

    /// Puts bytes: two hexadecimal digits for each, or `-` where there is none.
    pub fn bytes(&mut self, bytes: &[u8]) {
        self.put(if bytes.is_empty() { " -" } else { " " });
        for byte in bytes {
            self.put(DIGITS[usize::from(*byte / 16)]);
            self.put(DIGITS[usize::from(*byte % 16)]);
        }
    }

    /// Puts the line and the column at which a stretch of a text begins.
    pub fn place(&mut self, span: Span) {
        self.number(u64::from(span.line));
        self.number(u64::from(span.column));
    }

    /// Begins a thing of this kind, which stands at this place.
    pub fn begin(&mut self, word: &str, span: Span) {
        self.word(word);
        self.place(span);
    }

    /// Puts a permission: its mode and the bits of its states.
    pub fn perm(&mut self, perm: Perm) {
        self.name(&perm.mode);
        self.number(perm.states);
    }

    /// What was made, unless memory lacked for it.
    pub fn made<T: Drop, E: Drop>(&mut self, made: Result<T, E>) -> Option<T> {
        match made {
            Ok(made) => Some(made),
            Err(_) => {
                self.fails = true;
                None
            }
        }
    }

    /// Notes it where memory lacked.
    pub fn done<E: Drop>(&mut self, done: Result<(), E>) {
        if done.is_err() {
            self.fails = true;
        }
    }
}
