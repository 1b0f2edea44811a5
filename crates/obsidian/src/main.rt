//! Serves a program of the Obsidian language, request lines in and replies out; or checks its text; or audits a store; or holds a trial.
//! Beside that it tells a person on standard error what is wrong with the words, the text, the files or the store, and how a store was opened.
#![tactic(auto)]

mod announcing;
mod dispatch;
mod explaining;
mod running;
mod saying;

use crate::announcing::{Announced, Announcement, Noted};
use crate::explaining::{
    Ended, Failures, access_of, cause_of, command_of, explain_run, explain_usage, file_of, store_of,
};
use crate::running::{Tells, run_over};
use crate::saying::{say, say_page, writes_over};
use ob_base::Memory;
use ob_explain_store::Watched;
use ob_io_std::{FileDisk, StdFile, StdFiles, StdSink, StdSource, WaitingInput, WaitingOutput};
use ob_outside::{Exit, Outside};
use ob_run::Examined;
use ob_words::Command;
use std::io::{ErrorKind, Read, Write, writer};
use std::process::ExitCode;
use std::{env, io};

// The words of the command line, without the program's own name.
fn words(rt: &HostRuntime) -> io::Result<Vec<String>> {
    let mut words = Vec::new(rt.alloc());
    for word in env::args(rt)?.skip(1) {
        words.push(word)?;
    }
    Ok(words)
}

// Tells a person how a run of these words ended, but not where that would be written over the store.
#[derive(Clone, Copy)]
struct Teller<'a> {
    rt: &'a HostRuntime,
    words: &'a [String],
    command: Option<Command<'a>>,
    noted: &'a Noted,
}

impl<'a, R: Read, W: Write> Tells<
    StdFiles<&'a HostRuntime>,
    Announced<'a, StdSource<R>>,
    StdSink<W>,
    Watched<'a, FileDisk<'a, StdFile<&'a HostRuntime>>>,
> for Teller<'a> {
    fn tell(
        &self,
        outside: &Outside<
            StdFiles<&'a HostRuntime>,
            Announced<'a, StdSource<R>>,
            StdSink<W>,
            Watched<'a, FileDisk<'a, StdFile<&'a HostRuntime>>>,
        >,
        examined: &Examined<'_>,
        exit: Exit,
    ) {
        if writes_over(self.rt, store_of(self.command)) {
            return;
        }
        let alloc = self.rt.alloc();
        let Some(command) = self.command else {
            say_page(self.rt, exit, "", explain_usage(alloc, self.words, exit));
            return;
        };
        let ended = Ended {
            command,
            examined,
            failures: Failures {
                files: outside.files.failure(),
                input: outside.input.source().failure(),
                output: outside.output.failure(),
            },
            front: self.noted.front.get(),
            disk: outside.disk.disk(),
            exit,
        };
        say_page(self.rt, exit, cause_of(ended), explain_run(alloc, ended));
    }
}

// Whether a word means the file to which standard error goes.
fn names_errors(rt: &HostRuntime, words: &[String]) -> bool {
    for word in words {
        if writes_over(rt, Some(word.as_str())) {
            return true;
        }
    }
    false
}

// Ends before a run, where memory lacks for its words: without them it isn't known which file is the store.
fn lack_memory(rt: &HostRuntime, words: &[String]) -> Exit {
    if !names_errors(rt, words) {
        say(rt, Exit::Memory, "", "");
    }
    Exit::Memory
}

// Makes the four objects of a run of this command, and runs what the words ask for over them.
fn run_told<'a>(rt: &'a HostRuntime, words: &'a [String], command: Option<Command<'a>>) -> Exit {
    let noted = Noted::nothing();
    let mut examined = Examined::nothing(rt.alloc());
    examined.opened = Some(&noted.held);
    let others = [file_of(command)];
    let announcement = Announcement::new(rt, store_of(command), &noted);
    let input = StdSource::new(WaitingInput::new(rt.reader(), rt));
    let store = StdFile::new(rt.alloc(), rt);
    let disk = FileDisk::new(rt.alloc(), store, access_of(command), &others);
    let mut outside = Outside {
        files: StdFiles::new(rt.alloc(), rt),
        input: Announced::new(input, announcement),
        output: StdSink::new(WaitingOutput::new(writer(rt), rt, store_of(command))),
        disk: Watched::new(disk, &noted.front),
    };
    let teller = Teller {
        rt,
        words,
        command,
        noted: &noted,
    };
    run_over(rt.alloc(), words, &mut outside, &mut examined, &teller)
}

// Runs what the words ask for.
fn run_words(rt: &HostRuntime, words: &[String]) -> Exit {
    match command_of(rt.alloc(), words) {
        Ok(command) => run_told(rt, words, command),
        Err(Memory) => lack_memory(rt, words),
    }
}

/// What is told of a word that isn't UTF-8.
const NOT_UTF8: &str = "obsidian: one of the words isn't UTF-8\n";

// Tells of words that couldn't be had.
fn lack_words(rt: &HostRuntime, kind: ErrorKind) -> Exit {
    let exit = Exit::without_words(kind);
    say(
        rt,
        exit,
        "",
        if exit == Exit::Usage { NOT_UTF8 } else { "" },
    );
    exit
}

fn main(rt: HostRuntime) -> ExitCode {
    let exit = match words(&rt) {
        Ok(words) => run_words(&rt, &words),
        Err(error) => lack_words(&rt, error.kind()),
    };
    ExitCode::from(exit.status())
}
