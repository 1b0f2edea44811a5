//! What is said on standard error of how a run ended: a word, a line for scripts, and a page for people.

use ob_base::Memory;
use ob_outside::Exit;
use ob_words::help_text;
use std::fs;
use std::os::unix::fs::MetadataExt;

/// The standard error of this run, by its name in /proc.
const ERRORS: &str = "/proc/self/fd/2";

// Whether two names mean one regular file, as a store is kept in. What can't be told is taken for no.
fn is_same<R: fs::Files<File = fs::File>>(host: &R, one: &str, other: &str) -> bool {
    match (host.metadata(one), host.metadata(other)) {
        (Ok(one), Ok(other)) => {
            one.is_file() && one.dev() == other.dev() && one.ino() == other.ino()
        }
        _ => false,
    }
}

/// Whether what is said would be written over a store, since standard error is its file.
pub fn writes_over(rt: &HostRuntime, store: Option<&str>) -> bool {
    match store {
        Some(store) => is_same(&rt, store, ERRORS),
        None => false,
    }
}

// What a run ended by, where its status is neither 0 nor 1.
fn part_of(exit: Exit) -> Option<&'static str> {
    match exit {
        Exit::Done | Exit::Refused => None,
        Exit::Usage => Some("usage"),
        Exit::ReadFault => Some("input"),
        Exit::WriteFault => Some("output"),
        Exit::DiskFault => Some("disk"),
        Exit::StoreRefused => Some("store"),
        Exit::Memory => Some("memory"),
        Exit::FileFault => Some("file"),
        Exit::Long => Some("long"),
    }
}

// Says the line that scripts read: what a run ended by, and the word for the cause, if it has one. Its words stay as they are.
fn say_status(rt: &HostRuntime, exit: Exit, cause: &str) {
    let Some(part) = part_of(exit) else {
        return;
    };
    let _ = if cause.is_empty() {
        eprintln!(rt; "obsidian: status {part}")
    } else {
        eprintln!(rt; "obsidian: status {part} {cause}")
    };
}

/// Says how a run ended, by which cause if its status isn't the cause, and what a person is told of it; of words that ask for help what
/// the commands and options are.
pub fn say(rt: &HostRuntime, exit: Exit, cause: &str, page: &str) {
    if let Some(message) = exit.message() {
        let _ = eprintln!(rt; "{message}");
    }
    say_status(rt, exit, cause);
    let _ = eprint!(rt; "{page}");
    if exit == Exit::Usage && page.is_empty() {
        if let Ok(help) = help_text(rt.alloc()) {
            let _ = eprintln!(rt; "{help}");
        }
    }
}

/// The same, where a person is told nothing if memory lacks for it.
pub fn say_page(rt: &HostRuntime, exit: Exit, cause: &str, page: Result<String, Memory>) {
    match page {
        Ok(page) => say(rt, exit, cause, page.as_str()),
        Err(_) => say(rt, exit, cause, ""),
    }
}
