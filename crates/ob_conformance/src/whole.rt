//! Whole runs over the forms in memory: over those that fail as they are told to, and over those that never fail.
use crate::page::Page;
use crate::question::Question;
use ob_base::Memory;
use ob_disk::{Disk, MemoryDisk, SureDisk};
use ob_io::{
    Files, MemoryFiles, MemorySink, MemorySource, Sink, Source, SureFiles, SureSink, SureSource,
};
use ob_outside::{Exit, Outside};
use ob_run::{Examined, run};
use std::alloc::Global;
use std::mem;

/// How many bytes the disk of the forms that never fail holds.
const ROOM: u64 = 1 << 32;

/// What a run is handed: its words, the file `p`, and the input.
#[derive(Drop)]
struct Handed {
    words: Vec<String>,
    files: Vec<(String, Vec<u8>)>,
    input: Vec<u8>,
}

// The file `p` with these bytes.
fn file_of(alloc: Global, text: Vec<u8>) -> Result<(String, Vec<u8>), Memory> {
    Ok((String::from_str(alloc, "p")?, text))
}

fn files_of(alloc: Global, asked: &mut Question<'_>, page: &mut Page) -> Vec<(String, Vec<u8>)> {
    let mut files = Vec::new(alloc);
    let text = asked.bytes(alloc, page);
    if let Some(file) = page.made(file_of(alloc, text)) {
        page.done(files.push(file));
    }
    files
}

fn handed_of(alloc: Global, asked: &mut Question<'_>, page: &mut Page) -> Handed {
    Handed {
        words: asked.strings(alloc, page),
        files: files_of(alloc, asked, page),
        input: asked.bytes(alloc, page),
    }
}

// A run of which nothing is told to a person.
fn run_words<F: Files, S: Source, K: Sink, D: Disk>(
    alloc: Global,
    words: &[String],
    outside: &mut Outside<F, S, K, D>,
) -> Exit {
    run(alloc, words, outside, &mut Examined::nothing(alloc))
}

// Puts how a run ended.
fn put_exit(exit: Exit, page: &mut Page) {
    page.show(&exit.status());
    page.name(&exit);
}

// Puts how many bytes a source has left, of so many, or `none` where its next read fails.
fn put_left<S: Source>(alloc: Global, source: &mut S, most: usize, page: &mut Page) {
    let Some(mut left) = page.made(vec![in alloc; 0; most]) else {
        return;
    };
    match source.read(&mut left) {
        Ok(count) => page.number(count as u64),
        Err(_) => page.word("none"),
    }
}

/// The files, the input, the output and the disk of which calls fail as they are told to.
type Failing = Outside<MemoryFiles, MemorySource, MemorySink, MemoryDisk>;

// What the outside has that fails: the calls of the files, the input and the output, and how many bytes the output takes are told.
fn outside_of(
    alloc: Global,
    files: Vec<(String, Vec<u8>)>,
    input: Vec<u8>,
    asked: &mut Question<'_>,
    page: &mut Page,
) -> Failing {
    Outside {
        files: MemoryFiles::new(alloc, files, asked.numbers(alloc, page)),
        input: MemorySource::new(input, asked.numbers(alloc, page)),
        output: output_of(alloc, asked, page),
        disk: MemoryDisk::new(alloc, 0, Vec::new(alloc)),
    }
}

fn output_of(alloc: Global, asked: &mut Question<'_>, page: &mut Page) -> MemorySink {
    let fails = asked.numbers(alloc, page);
    MemorySink::new(alloc, asked.number(page) as usize, fails)
}

// What a run left whose outside fails.
fn put_rest(alloc: Global, outside: &mut Failing, length: usize, page: &mut Page) {
    page.bytes(outside.output.bytes());
    page.number(outside.files.faults());
    page.number(outside.input.faults());
    page.number(outside.output.faults());
    put_left(alloc, &mut outside.input, length, page);
}

/// How a run over a disk ends, and what it leaves: `WORDS TEXT INPUT`, the calls of the files, the input and the output that fail, and how
/// many bytes the output takes.
pub fn run_over(alloc: Global, asked: &mut Question<'_>, disk: &mut MemoryDisk, page: &mut Page) {
    let handed = handed_of(alloc, asked, page);
    let length = handed.input.len();
    let words = handed.words;
    let mut outside = outside_of(alloc, handed.files, handed.input, asked, page);
    mem::swap(&mut outside.disk, disk);
    put_exit(run_words(alloc, &words, &mut outside), page);
    mem::swap(&mut outside.disk, disk);
    put_rest(alloc, &mut outside, length, page);
}

fn run_sure(alloc: Global, handed: Handed, room: usize, page: &mut Page) {
    let length = handed.input.len();
    let words = handed.words;
    let mut outside = Outside {
        files: SureFiles::new(alloc, handed.files),
        input: SureSource::new(handed.input),
        output: SureSink::new(alloc, room),
        disk: SureDisk::new(alloc, ROOM),
    };
    put_exit(run_words(alloc, &words, &mut outside), page);
    match outside.output.bytes() {
        Some(bytes) => page.bytes(bytes),
        None => page.word("untold"),
    }
    put_left(alloc, &mut outside.input, length, page);
}

/// The same over the forms that never fail: `WORDS TEXT INPUT`, and how many bytes the output takes.
pub fn sure(alloc: Global, asked: &mut Question<'_>, page: &mut Page) {
    let handed = handed_of(alloc, asked, page);
    let room = asked.number(page) as usize;
    run_sure(alloc, handed, room, page);
}
