//! What a client sends and is answered, and what the words of a command line ask for.
use crate::page::Page;
use crate::question::Question;
use ob_base::{Duplicate, Items};
use ob_client::{read_reply, request_line, trial_lines};
use ob_wire::{Incoming, Reply, Request, WireError, read_request, reply_bytes};
use ob_words::{Asked, Command, WordsError, parse_words};
use std::alloc::Global;

fn put_error(error: WireError, page: &mut Page) {
    match error {
        WireError::Json => page.word("json"),
        WireError::Shape => page.word("shape"),
        WireError::BatchSize => page.word("size"),
        WireError::Memory => page.fail(),
    }
}

fn put_request(alloc: Global, request: &Request, page: &mut Page) {
    if let Some(copy) = page.made(request.copy(alloc)) {
        if let Some(line) = page.made(request_line(alloc, &copy)) {
            page.bytes(&line);
        }
    }
}

fn put_batch(alloc: Global, batch: &Items<Request>, page: &mut Page) {
    page.word("batch");
    page.number(batch.as_slice().len() as u64);
    for request in batch.as_slice() {
        put_request(alloc, request, page);
    }
}

fn put_incoming(alloc: Global, incoming: &Incoming, page: &mut Page) {
    match incoming {
        Incoming::One(request) => put_request(alloc, request, page),
        Incoming::Batch(batch) => put_batch(alloc, batch, page),
    }
}

/// The line by which the request that a line asks is sent, from a copy of it; of a batch, how many requests it has and the line of each.
pub fn request(alloc: Global, asked: &mut Question<'_>, page: &mut Page) {
    let line = asked.bytes(alloc, page);
    match read_request(alloc, &line) {
        Ok(incoming) => put_incoming(alloc, &incoming, page),
        Err(error) => put_error(error, page),
    }
}

fn put_reply(alloc: Global, reply: &Reply, page: &mut Page) {
    if let Some(copy) = page.made(reply.copy(alloc)) {
        if let Some(line) = page.made(reply_bytes(alloc, &copy)) {
            page.bytes(&line);
        }
    }
}

/// The line of the reply that a line tells, from a copy of it.
pub fn reply(alloc: Global, asked: &mut Question<'_>, page: &mut Page) {
    let line = asked.bytes(alloc, page);
    match read_reply(alloc, &line) {
        Ok(reply) => put_reply(alloc, &reply, page),
        Err(error) => put_error(error, page),
    }
}

/// The lines of the trial of a length.
pub fn trial(alloc: Global, asked: &mut Question<'_>, page: &mut Page) {
    match u32::try_from(asked.number(page)) {
        Ok(length) => {
            if let Some(lines) = page.made(trial_lines(alloc, length)) {
                page.bytes(&lines);
            }
        }
        Err(_) => page.fail(),
    }
}

fn put_file(name: &str, page: &mut Page) {
    page.bytes(name.as_bytes());
}

fn put_command(command: Command<'_>, page: &mut Page) {
    match command {
        Command::Check(program) => {
            page.word("check");
            put_file(program, page);
        }
        Command::Serve(program) => {
            page.word("serve");
            put_file(program, page);
        }
        Command::ServeStored(program, store) => {
            page.word("store");
            put_file(program, page);
            put_file(store, page);
        }
        Command::Audit(program, store) => {
            page.word("audit");
            put_file(program, page);
            put_file(store, page);
        }
        Command::Trial(length) => {
            page.word("trial");
            page.number(u64::from(length));
        }
    }
}

fn put_asked(asked: &Asked<'_>, page: &mut Page) {
    page.show(&asked.limits.fuel);
    page.show(&asked.limits.lanes);
    page.show(&asked.limits.slice);
    put_command(asked.command, page);
}

/// The settings and the command that the words of a command line ask for.
pub fn words(alloc: Global, asked: &mut Question<'_>, page: &mut Page) {
    let words = asked.strings(alloc, page);
    match parse_words(alloc, &words) {
        Ok(asked) => put_asked(&asked, page),
        Err(WordsError::Usage) => page.word("Usage"),
        Err(WordsError::Memory) => page.fail(),
    }
}
