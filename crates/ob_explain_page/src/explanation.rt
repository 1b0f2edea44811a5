//! An explanation in words.

use crate::excerpt::put_excerpt;
use crate::page::Page;
use ob_base::{Memory, ProgramFault, Span, fault_name};
use std::alloc::Global;

/// Words that are put one after another. What memory lacks for is left out and noted, so that whoever says something needn't ask
/// after each word.
#[derive(Drop)]
pub struct Words {
    alloc: Global,
    text: String,
    lacks: bool,
}

impl Words {
    /// No words yet.
    pub fn new(alloc: Global) -> Words {
        Words {
            alloc,
            text: String::new(alloc),
            lacks: false,
        }
    }

    /// Puts these behind the others.
    pub fn put(&mut self, words: &str) {
        if self.text.push_str(words).is_err() {
            self.lacks = true;
        }
    }

    /// Puts a text in which these take the places of its `{}`, in this order.
    pub fn put_with(&mut self, text: &str, values: &[&str]) {
        let mut rest = text;
        for value in values {
            if let Some((before, after)) = rest.split_once("{}") {
                self.put(before);
                self.put(value);
                rest = after;
            }
        }
        self.put(rest);
    }

    /// Puts a name with its article. A `u` is taken for one that is spoken as in `unit`.
    pub fn put_a(&mut self, name: &str) {
        self.put(match name.as_bytes().first() {
            Some(letter) if b"AEIOaeio".contains(letter) => "an `",
            _ => "a `",
        });
        self.put(name);
        self.put("`");
    }

    /// Puts a number in digits.
    pub fn put_number(&mut self, number: u64) {
        match format!(in self.alloc; "{number}") {
            Ok(digits) => self.put(digits.as_str()),
            Err(_) => self.lacks = true,
        }
    }

    /// Notes that memory lacked elsewhere for something that was to be put.
    pub fn lack(&mut self) {
        self.lacks = true;
    }

    /// Whether something was left out.
    pub fn lacks(&self) -> bool {
        self.lacks
    }

    /// The words.
    pub fn as_str(&self) -> &str {
        self.text.as_str()
    }

    /// Whether there are none.
    pub fn is_empty(&self) -> bool {
        self.text.is_empty()
    }

    /// The words, if none was left out.
    pub fn finish(self) -> Result<String, Memory> {
        let Words { text, lacks, .. } = self;
        if lacks { Err(Memory) } else { Ok(text) }
    }
}

/// What is said of a fault: what is wrong, in which instance of a generic contract, what is behind it, and how to mend it. A part
/// without words isn't told.
#[derive(Drop)]
pub struct Explanation {
    /// What is wrong.
    pub what: Words,
    /// In which instance it is, where the text around is a generic contract's.
    pub within: Words,
    /// What it rests on, as a declaration.
    pub note: Words,
    /// How to mend it.
    pub help: Words,
}

impl Explanation {
    /// One that says nothing yet.
    pub fn new(alloc: Global) -> Explanation {
        Explanation {
            what: Words::new(alloc),
            within: Words::new(alloc),
            note: Words::new(alloc),
            help: Words::new(alloc),
        }
    }

    // Whether memory lacked for something that is said.
    fn lacks(&self) -> bool {
        self.what.lacks() || self.within.lacks() || self.note.lacks() || self.help.lacks()
    }

    /// Tells it on a page: the file and the place, the number and name of the fault and what is wrong; in which instance; the line of
    /// the text with a mark; the note and the help.
    pub fn tell(
        &self,
        page: &mut Page,
        file: &str,
        text: &[u8],
        fault: ProgramFault,
        mark: Span,
    ) -> Result<(), Memory> {
        if self.lacks() {
            return Err(Memory);
        }
        put_fault(page, file, fault)?;
        page.end_line()?;
        page.put_words("  ", self.what.as_str())?;
        put_part(page, "  ", self.within.as_str())?;
        put_excerpt(page, text, mark)?;
        put_part(page, "  note: ", self.note.as_str())?;
        put_part(page, "  help: ", self.help.as_str())
    }

    /// Tells it on one line: the place, the number and name of the fault, what is wrong, and in which instance.
    pub fn tell_shortly(
        &self,
        page: &mut Page,
        file: &str,
        fault: ProgramFault,
    ) -> Result<(), Memory> {
        if self.lacks() {
            return Err(Memory);
        }
        put_fault(page, file, fault)?;
        page.put(": ")?;
        page.put(self.what.as_str())?;
        put_behind(page, self.within.as_str())?;
        page.end_line()
    }
}

/// The front of a file's name, if it is long, and a place in it, with a blank after the last colon.
pub fn put_place(page: &mut Page, file: &str, span: Span) -> Result<(), Memory> {
    page.put_cut(file, 120)?;
    page.put(":")?;
    page.put_number(u64::from(span.line))?;
    page.put(":")?;
    page.put_number(u64::from(span.column))?;
    page.put(": ")
}

// The place of a fault, its number and its name.
fn put_fault(page: &mut Page, file: &str, fault: ProgramFault) -> Result<(), Memory> {
    put_place(page, file, fault.span)?;
    page.put_number(u64::from(fault.number))?;
    page.put(" ")?;
    page.put(fault_name(fault.number))
}

// Words behind others, if there are some.
fn put_behind(page: &mut Page, words: &str) -> Result<(), Memory> {
    if words.is_empty() {
        return Ok(());
    }
    page.put(", ")?;
    page.put(words)
}

// A part, if it has words.
fn put_part(page: &mut Page, lead: &str, words: &str) -> Result<(), Memory> {
    if words.is_empty() {
        return Ok(());
    }
    page.put_words(lead, words)
}
