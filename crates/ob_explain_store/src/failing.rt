//! A file, a disk or a stream on which a call of the system failed.
ghost use Rattle.std.specs.Prelude.{string_bytes, IfOk};
ghost use Rattle.ob_explain_page.specs.Pages.{IsPage};

use crate::causes::{help_for, help_for_stream, is_in_doubt, is_plain, is_use, words_for};
use crate::lines::{page_of, words_of};
use ob_base::Memory;
use ob_explain_page::{Explanation, Words};
use ob_io_std::Failure;
use std::alloc::Global;

/// What is done where the system may keep something else of a store in memory than the disk has.
const FORGET: &str =
    " Then let the system forget what it keeps of the file in memory, before the next run: see 'After status 5' in docs/GUIDE.md.";

// Puts what the system answered.
fn put_answer(title: &mut Words, alloc: Global, failure: Failure) {
    let error = failure.error;
    match format!(in alloc; ": {error}") {
        Ok(words) => title.put(words.as_str()),
        Err(_) => title.lack(),
    }
}

// What failed, in the system's words.
fn title_of(alloc: Global, failure: Failure) -> Words {
    let mut title = Words::new(alloc);
    title.put(words_for(failure.call));
    if !is_plain(failure) {
        put_answer(&mut title, alloc, failure);
    }
    title
}

// What became of the store, and what to do before the next run, where bytes of the store or its name may stand otherwise on the disk
// than in the system's memory. Only a run that serves writes to it.
fn say_store(told: &mut Explanation, failure: Failure, is_served: bool) {
    told.note.put(if !is_use(failure.call) {
        "nothing of the store was read or written."
    } else if is_served {
        "each request that has a reply is kept; of the one in hand all or nothing is."
    } else {
        "nothing was written to the store."
    });
    if is_in_doubt(failure) {
        told.help.put(FORGET);
    }
}

/// Tells a person why a program's text wasn't read, by the last call of the files that failed.
pub fn explain_file(alloc: Global, name: &str, failure: Failure) -> Result<String, Memory>
    ensures { IfOk result (λ page. IsPage (string_bytes page)) }
{
    let mut told = Explanation::new(alloc);
    told.help.put(help_for(failure));
    page_of(alloc, name, title_of(alloc, failure), told)
}

/// Tells a person why a store isn't served or audited, or not any longer, by the last call of the disk that failed: what was tried, what
/// the system answered, what became of the store, and what to do.
pub fn explain_disk(
    alloc: Global,
    name: &str,
    failure: Failure,
    is_served: bool,
) -> Result<String, Memory>
    ensures { IfOk result (λ page. IsPage (string_bytes page)) }
{
    let mut told = Explanation::new(alloc);
    told.help.put(help_for(failure));
    say_store(&mut told, failure, is_served);
    page_of(alloc, name, title_of(alloc, failure), told)
}

// What failed of a stream, and what the system answered, if that is known.
fn title_of_stream(alloc: Global, what: &str, failure: Option<Failure>) -> Words {
    let mut title = words_of(alloc, what);
    if let Some(failure) = failure {
        put_answer(&mut title, alloc, failure);
    }
    title
}

/// Tells a person that a read of the input failed, by the call that failed if that is known.
pub fn explain_input(alloc: Global, failure: Option<Failure>) -> Result<String, Memory>
    ensures { IfOk result (λ page. IsPage (string_bytes page)) }
{
    let mut told = Explanation::new(alloc);
    told.note
        .put("each request that was read whole has its reply.");
    told.help.put("begin another run for the rest.");
    told.help.put(help_for_stream(failure));
    let title = title_of_stream(alloc, "a read failed", failure);
    page_of(alloc, "standard input", title, told)
}

/// Tells a person that a write of the output failed, by the call that failed if that is known; and what became of the request whose reply
/// isn't there, where it is replies that were written.
pub fn explain_output(
    alloc: Global,
    failure: Option<Failure>,
    of_replies: bool,
) -> Result<String, Memory>
    ensures { IfOk result (λ page. IsPage (string_bytes page)) }
{
    let mut told = Explanation::new(alloc);
    if of_replies {
        told.note.put(
            "the first request without a whole reply was answered all the same: what it changed is in the store.",
        );
        told.help.put("look before you ask it again.");
    }
    told.help.put(help_for_stream(failure));
    let what = "a write failed, so what stands there may be cut short";
    page_of(
        alloc,
        "standard output",
        title_of_stream(alloc, what, failure),
        told,
    )
}
