//! The lines of what is told of a file.
ghost use Rattle.std.specs.Prelude.{string_bytes, IfOk};
ghost use Rattle.ob_explain_page.specs.Pages.{IsPage};

use ob_base::Memory;
use ob_explain_page::{Explanation, Page, Words};
use std::alloc::Global;

/// The most characters of a file's name.
const LONGEST: usize = 120;

/// A line: the name of a file, and what is said of it.
pub fn put_title(page: &mut Page, name: &str, title: Words) -> Result<(), Memory> {
    let text = title.finish()?;
    page.put_cut(name, LONGEST)?;
    page.put(": ")?;
    page.put(text.as_str())?;
    page.end_line()
}

/// A part on lines of its own, if it has words.
pub fn put_part(page: &mut Page, lead: &str, words: Words) -> Result<(), Memory> {
    let text = words.finish()?;
    if text.is_empty() {
        return Ok(());
    }
    page.put_words(lead, text.as_str())
}

/// The parts of an explanation.
pub fn put_parts(page: &mut Page, told: Explanation) -> Result<(), Memory> {
    let Explanation {
        what,
        note,
        help,
        ..
    } = told;
    put_part(page, "  ", what)?;
    put_part(page, "  note: ", note)?;
    put_part(page, "  help: ", help)
}

/// A page with a title and an explanation.
pub fn page_of(alloc: Global, name: &str, title: Words, told: Explanation) -> Result<String, Memory>
    ensures { IfOk result (λ page. IsPage (string_bytes page)) }
{
    let mut page = Page::new(alloc);
    put_title(&mut page, name, title)?;
    put_parts(&mut page, told)?;
    page.into_text()
}

/// Words that say this.
pub fn words_of(alloc: Global, text: &str) -> Words {
    let mut words = Words::new(alloc);
    words.put(text);
    words
}

/// A number, and what is counted, of one and of more.
pub fn put_count(words: &mut Words, number: u64, one: &str, more: &str) {
    words.put_number(number);
    words.put(if number == 1 { one } else { more });
}
