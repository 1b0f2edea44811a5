//! A page of text that has a bound.
ghost use Rattle.std.specs.Prelude.{◌≡◌, ◌<◌, string_bytes, IfOk, OnOk};
ghost use Rattle.ob_explain_page.specs.Pages.{IsBegun, IsPage};

use ob_base::Memory;
use std::alloc::Global;

/// The most lines of a page.
pub const MOST_LINES: u32 = 20;

/// The most columns of a line, in characters.
pub const MOST_COLUMNS: u32 = 200;

/// Up to which column a line of words goes, in characters.
const WORDS_END: u32 = 110;

/// Lines of text. What is past a bound is left out.
#[derive(Drop)]
pub struct Page {
    alloc: Global,
    text: String,
    lines: u32,
    column: u32,
    ghost bound: { IsBegun (string_bytes text) lines column },
    ghost room: { 0 < column → lines < 20 },
}

impl Page {
    /// A page with nothing on it.
    pub fn new(alloc: Global) -> Page {
        Page {
            alloc,
            text: String::new(alloc),
            lines: 0,
            column: 0,
        }
    }

    // A character of a line.
    fn put_char(&mut self, sign: char) -> Result<(), Memory> {
        if self.lines < MOST_LINES && self.column < MOST_COLUMNS && sign != '\n' {
            self.text.push(sign)?;
            self.column += 1;
        }
        Ok(())
    }

    /// Characters of a line; those that would end it or steer a terminal are shown as `?`.
    pub fn put(&mut self, text: &str) -> Result<(), Memory> {
        for sign in text.chars() {
            self.put_sign(sign)?;
        }
        Ok(())
    }

    /// A character of a line, under the same rule.
    pub fn put_sign(&mut self, sign: char) -> Result<(), Memory> {
        self.put_char(if is_plain(sign) { sign } else { '?' })
    }

    /// The front of characters, with dots where there are more.
    pub fn put_cut(&mut self, text: &str, most: usize) -> Result<(), Memory> {
        for sign in text.chars().take(most) {
            self.put_sign(sign)?;
        }
        if text.chars().count() > most {
            self.put("...")?;
        }
        Ok(())
    }

    /// A number in digits.
    pub fn put_number(&mut self, number: u64) -> Result<(), Memory> {
        let digits = format!(in self.alloc; "{number}")?;
        self.put(digits.as_str())
    }

    /// How many columns of the line are filled.
    pub fn column(&self) -> u32 {
        self.column
    }

    /// A character so many times.
    pub fn put_times(&mut self, sign: char, times: u32) -> Result<(), Memory> {
        for _ in 0..times {
            self.put_char(sign)?;
        }
        Ok(())
    }

    /// Ends the line.
    pub fn end_line(&mut self) -> Result<(), Memory>
        ensures { self.old.lines < 20 → OnOk result (self.new.column ≡ 0) }
    {
        if self.lines < MOST_LINES {
            self.text.push('\n')?;
            self.lines += 1;
            self.column = 0;
        }
        Ok(())
    }

    // A word after others, on a new line with so many spaces before it where this one has no room.
    fn put_word(&mut self, word: &str, indent: u32) -> Result<(), Memory> {
        let width = u32::try_from(word.chars().count()).unwrap_or(MOST_COLUMNS);
        let end = self.column.saturating_add(width);
        if self.column > indent && end >= WORDS_END {
            self.end_line()?;
            self.put_times(' ', indent)?;
        } else if self.column > indent {
            self.put(" ")?;
        }
        self.put(word)
    }

    /// Words of which each line but the first begins at this column, and the end of the last line.
    pub fn put_words(&mut self, lead: &str, text: &str) -> Result<(), Memory> {
        self.put(lead)?;
        let indent = self.column;
        for word in text.split(' ') {
            self.put_word(word, indent)?;
        }
        self.end_line()
    }

    /// The text of the page, each of whose lines is ended.
    pub fn into_text(mut self) -> Result<String, Memory>
        ensures { IfOk result (λ text. IsPage (string_bytes text)) }
    {
        if self.column > 0 {
            self.end_line()?;
        }
        let Page { text, .. } = self;
        Ok(text)
    }
}

/// Whether a character shows as one sign, and neither ends a line nor steers a terminal or the order of what is read.
pub fn is_plain(sign: char) -> bool {
    match sign {
        '\u{0}'..='\u{1f}' | '\u{7f}'..='\u{9f}' => false,
        '\u{200b}'..='\u{200f}' | '\u{2028}'..='\u{202e}' | '\u{2060}'..='\u{206f}' => false,
        '\u{feff}' => false,
        _ => true,
    }
}
