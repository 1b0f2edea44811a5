//! The case program. It answers questions of what the shipped program doesn't show by itself: what the stages make of a text, what the
//! verifier says of an image and what runs of its code come to, what disks and journals hold, and how runs end whose outside fails.
//!
//! Each line of its input is a question: a word that says which, and words that belong to it. Each line of its output is an answer: words
//! with a blank before each, or `!` where there is none. tests/cases.py asks it what cases ask, and tells its answers as cases expect them;
//! the file tests/cases/README.md says which questions there are.
#![tactic(auto)]

mod area;
mod base;
mod bodies;
mod desk;
mod files;
mod front;
mod image;
mod lanes;
mod noted;
mod owners;
mod page;
mod question;
mod runs;
mod scripted;
mod slices;
mod table;
mod terms;
mod tokens;
mod told;
mod whole;
mod wire;

use page::Page;
use question::Question;
use std::alloc::Global;
use std::io;
use std::io::{Write, read_to_string, writer};

// Answers a question about an image, a disk or a run.
fn answer(alloc: Global, asked: &mut Question<'_>, page: &mut Page) {
    match asked.word() {
        "image" => image::image(alloc, asked, page),
        "runs" => runs::runs(alloc, asked, page),
        "desk" => desk::steps(alloc, asked, page),
        "file" => files::steps(alloc, asked, page),
        "sure" => whole::sure(alloc, asked, page),
        word => answer_small(alloc, word, asked, page),
    }
}

// Answers a question about a line, about words, about a few bytes, or about a text.
fn answer_small(alloc: Global, word: &str, asked: &mut Question<'_>, page: &mut Page) {
    match word {
        "request" => wire::request(alloc, asked, page),
        "reply" => wire::reply(alloc, asked, page),
        "trial" => wire::trial(alloc, asked, page),
        "words" => wire::words(alloc, asked, page),
        "form" => base::form(alloc, asked, page),
        "fields" => base::fields(alloc, asked, page),
        "message" => base::message(alloc, asked, page),
        _ => front::stage(alloc, word, asked, page),
    }
}

fn main(rt: HostRuntime) -> io::Result<()> {
    let questions = read_to_string(rt.alloc(), rt.reader())?;
    let mut output = writer(&rt);
    for line in questions.lines() {
        let mut page = Page::new(rt.alloc());
        answer(rt.alloc(), &mut Question::of(line), &mut page);
        output.write_all(page.words().unwrap_or("!").as_bytes())?;
        output.write_all(b"\n")?;
    }
    Ok(())
}
