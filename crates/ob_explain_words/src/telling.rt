//! What is told of words.
ghost use Rattle.std.specs.Prelude.{string_bytes, IfOk};
ghost use Rattle.ob_explain_page.specs.Pages.{IsPage};

use crate::fault::say_fault;
use crate::parts::Parts;
use ob_base::Memory;
use ob_explain_page::{Explanation, Page, Words};
use std::alloc::Global;

// A part on a line of its own.
fn put_part(page: &mut Page, lead: &str, words: Words) -> Result<(), Memory> {
    let text = words.finish()?;
    if text.is_empty() {
        return Ok(());
    }
    page.put_words(lead, text.as_str())
}

// What is said of words that ask for no help.
fn put_fault(alloc: Global, page: &mut Page, parts: &Parts<'_>) -> Result<(), Memory> {
    let mut told = Explanation::new(alloc);
    say_fault(&mut told, parts);
    let Explanation { what, help, .. } = told;
    put_part(page, "obsidian: ", what)?;
    put_part(page, "  help: ", help)
}

/// Tells a person what is wrong with words that are no command: the first word that is no part of one, and the nearest that is. Empty
/// where they ask for help.
pub fn explain_words(alloc: Global, words: &[String]) -> Result<String, Memory>
    ensures { IfOk result (λ page. IsPage (string_bytes page)) }
{
    let parts = Parts::of(alloc, words)?;
    let mut page = Page::new(alloc);
    if !parts.asks_for_help() {
        put_fault(alloc, &mut page, &parts)?;
    }
    page.into_text()
}
