//! A question: a line of words, which are read one after another.
use crate::page::Page;
use std::alloc::Global;
use std::mem;

/// The words of a line that aren't read yet.
#[derive(Clone, Copy)]
pub struct Question<'a> {
    rest: &'a str,
}

/// The text of these bytes.
pub fn text_in<'a>(bytes: &'a [u8], page: &mut Page) -> &'a str {
    match str::from_utf8(bytes) {
        Ok(text) => text,
        Err(_) => {
            page.fail();
            ""
        }
    }
}

/// The number that these digits are.
pub fn number_in(digits: &str, page: &mut Page) -> u64 {
    match digits.parse() {
        Ok(number) => number,
        Err(_) => {
            page.fail();
            0
        }
    }
}

/// The bytes that a word tells: two hexadecimal digits for each, or `-` for none.
pub fn bytes_in(alloc: Global, word: &str, page: &mut Page) -> Vec<u8> {
    let digits = if word == "-" { "" } else { word };
    match page.made(hex::decode(alloc, digits)) {
        Some(bytes) => bytes,
        None => Vec::new(alloc),
    }
}

impl<'a> Question<'a> {
    /// No word of this line is read yet.
    pub fn of(line: &'a str) -> Question<'a> {
        Question { rest: line }
    }

    /// All words that are left.
    pub fn rest(&self) -> &'a str {
        self.rest
    }

    /// The next word: none has no characters.
    pub fn word(&mut self) -> &'a str {
        match self.rest.split_once(' ') {
            Some((word, rest)) => {
                self.rest = rest;
                word
            }
            None => mem::replace(&mut self.rest, ""),
        }
    }

    /// The number that is the next word.
    pub fn number(&mut self, page: &mut Page) -> u64 {
        number_in(self.word(), page)
    }

    /// The bytes that the next word tells.
    pub fn bytes(&mut self, alloc: Global, page: &mut Page) -> Vec<u8> {
        bytes_in(alloc, self.word(), page)
    }

    /// The numbers that the next word tells, with commas between, or none where it is `-`.
    pub fn numbers(&mut self, alloc: Global, page: &mut Page) -> Vec<u64> {
        let mut numbers = Vec::new(alloc);
        let word = self.word();
        if word != "-" {
            for digits in word.split(',') {
                let number = number_in(digits, page);
                page.done(numbers.push(number));
            }
        }
        numbers
    }

    /// The words of a command line that the next word tells, of which each has a bar before it.
    pub fn strings(&mut self, alloc: Global, page: &mut Page) -> Vec<String> {
        let bytes = self.bytes(alloc, page);
        let mut strings = Vec::new(alloc);
        if let Some(words) = text_in(&bytes, page).strip_prefix('|') {
            for word in words.split('|') {
                if let Some(word) = page.made(String::from_str(alloc, word)) {
                    page.done(strings.push(word));
                }
            }
        }
        strings
    }
}
