//! What a person is told beside what the run wrote.
use ob_base::{AREA_BYTES, Memory};
use ob_explain::{explain, explain_memory, notes};
use ob_explain_store::{
    Areas, Front, cause_of_disk, cause_of_file, cause_of_stream, explain_audited, explain_damaged,
    explain_disk, explain_file, explain_input, explain_not_at_rest, explain_not_store,
    explain_other_program, explain_output,
};
use ob_explain_words::explain_words;
use ob_io_std::{Access, Failure, FileDisk, StdFile};
use ob_outside::Exit;
use ob_run::{Examined, StoreRefusal};
use ob_words::{Command, WordsError, parse_words};
use std::alloc::Global;

/// What is told where the input is too long.
const INPUT_TOO_LONG: &str = "\
standard input: a run takes 2^40 bytes of it, and no more
  note: each request that was read whole has its reply.
  help: begin another run for the rest.
";

/// The last call of the system that failed, of each of these; None where none did.
#[derive(Clone, Copy)]
pub struct Failures {
    /// Of the files.
    pub files: Option<Failure>,
    /// Of standard input.
    pub input: Option<Failure>,
    /// Of standard output.
    pub output: Option<Failure>,
}

/// How a run of a command ended, and what is known of it.
#[derive(Clone, Copy)]
pub struct Ended<'a> {
    /// The command.
    pub command: Command<'a>,
    /// What was found in the text and the store.
    pub examined: &'a Examined<'a>,
    /// What failed.
    pub failures: Failures,
    /// What stood on the disk of the store, if it was read.
    pub front: Option<Front>,
    /// That disk.
    pub disk: &'a FileDisk<'a, StdFile<&'a HostRuntime>>,
    /// How it ended.
    pub exit: Exit,
}

/// The command that words are; None where they are none.
pub fn command_of(alloc: Global, words: &[String]) -> Result<Option<Command<'_>>, Memory> {
    match parse_words(alloc, words) {
        Ok(asked) => Ok(Some(asked.command)),
        Err(WordsError::Usage) => Ok(None),
        Err(WordsError::Memory) => Err(Memory),
    }
}

/// The file in which a command keeps its store; None where it keeps none.
pub fn store_of<'a>(command: Option<Command<'a>>) -> Option<&'a str> {
    match command {
        Some(Command::ServeStored(_, store) | Command::Audit(_, store)) => Some(store),
        _ => None,
    }
}

/// What a command does with its store: an audit reads it, and makes none.
pub fn access_of(command: Option<Command<'_>>) -> Access {
    match command {
        Some(Command::Audit(_, _)) => Access::ReadOnly,
        _ => Access::ReadWrite,
    }
}

/// The file of which a command has its text; empty where it has none.
pub fn file_of<'a>(command: Option<Command<'a>>) -> &'a str {
    match command {
        Some(Command::Check(file) | Command::Serve(file)) => file,
        Some(Command::ServeStored(file, _) | Command::Audit(file, _)) => file,
        Some(Command::Trial(_)) | None => "",
    }
}

// Why a text is refused, or for what of it memory lacked; or, of one that is checked and accepted, what is noted of it.
fn explain_text(alloc: Global, ended: Ended<'_>) -> Result<String, Memory> {
    let Some(text) = &ended.examined.text else {
        return Ok(String::new(alloc));
    };
    let (file, seen) = (file_of(Some(ended.command)), &ended.examined.seen);
    match (ended.command, ended.examined.fault) {
        (_, Some(fault)) => explain(alloc, file, text, fault, seen),
        (_, None) if ended.exit == Exit::Memory => explain_memory(alloc, file, seen),
        (Command::Check(_), None) if ended.exit == Exit::Done => notes(alloc, file, text, seen),
        _ => Ok(String::new(alloc)),
    }
}

// Why a store is refused, by its areas and the text that was to be served.
fn explain_areas(
    alloc: Global,
    store: &str,
    text: &[u8],
    areas: Areas<'_>,
    refusal: StoreRefusal,
) -> Result<String, Memory> {
    match refusal {
        StoreRefusal::NotStore => explain_not_store(alloc, store, areas),
        StoreRefusal::Damaged(offset) => explain_damaged(alloc, store, areas, offset),
        StoreRefusal::OtherProgram(_) => explain_other_program(alloc, store, text, areas),
        StoreRefusal::NotAtRest(object) => explain_not_at_rest(alloc, store, areas, object),
    }
}

// Why a store is refused. Its disk still has it, and it is read once more.
fn explain_refusal(alloc: Global, store: &str, ended: Ended<'_>) -> Result<String, Memory> {
    let (Some(text), Some(refusal)) = (&ended.examined.text, ended.examined.refusal) else {
        return Ok(String::new(alloc));
    };
    match ended.disk.front(2 * AREA_BYTES) {
        Ok(bytes) => explain_areas(
            alloc,
            store,
            text,
            Areas::of(&bytes, AREA_BYTES as usize),
            refusal,
        ),
        Err(_) => Ok(String::new(alloc)),
    }
}

// Why the program's file wasn't read.
fn explain_files(alloc: Global, ended: Ended<'_>) -> Result<String, Memory> {
    match ended.failures.files {
        Some(failure) => explain_file(alloc, file_of(Some(ended.command)), failure),
        None => Ok(String::new(alloc)),
    }
}

// Why the disk failed.
fn explain_fault(alloc: Global, store: &str, ended: Ended<'_>) -> Result<String, Memory> {
    let is_served = matches!(ended.command, Command::ServeStored(_, _));
    match ended.disk.failure() {
        Some(failure) => explain_disk(alloc, store, failure, is_served),
        None => Ok(String::new(alloc)),
    }
}

// What is told of a store that was audited. One that was served has had its line when it was opened.
fn explain_kept(alloc: Global, store: &str, ended: Ended<'_>) -> Result<String, Memory> {
    match (ended.command, ended.front) {
        (Command::Audit(_, _), Some(front)) => explain_audited(alloc, store, front),
        _ => Ok(String::new(alloc)),
    }
}

// What is told of a run over a store that ended so; None where that has nothing to do with the store.
fn explain_store(alloc: Global, ended: Ended<'_>) -> Option<Result<String, Memory>> {
    let store = store_of(Some(ended.command))?;
    match ended.exit {
        Exit::DiskFault => Some(explain_fault(alloc, store, ended)),
        Exit::StoreRefused => Some(explain_refusal(alloc, store, ended)),
        Exit::Done => Some(explain_kept(alloc, store, ended)),
        _ => None,
    }
}

// Whether it is replies that are written, where the text has no fault.
fn writes_replies(ended: Ended<'_>) -> bool {
    matches!(
        ended.command,
        Command::Serve(_) | Command::ServeStored(_, _)
    ) && ended.examined.refusal.is_none()
}

/// What a person is told of how a run of a command ended. Empty where there is nothing to tell.
pub fn explain_run(alloc: Global, ended: Ended<'_>) -> Result<String, Memory> {
    if let Some(told) = explain_store(alloc, ended) {
        return told;
    }
    match ended.exit {
        Exit::FileFault => explain_files(alloc, ended),
        Exit::ReadFault => explain_input(alloc, ended.failures.input),
        Exit::Long => Ok(String::from_str(alloc, INPUT_TOO_LONG)?),
        Exit::WriteFault if ended.examined.fault.is_none() => {
            explain_output(alloc, ended.failures.output, writes_replies(ended))
        }
        _ => explain_text(alloc, ended),
    }
}

// The number of a refusal.
fn number_of(refusal: Option<StoreRefusal>) -> &'static str {
    match refusal {
        Some(StoreRefusal::NotStore) => "611",
        Some(StoreRefusal::Damaged(_)) => "612",
        Some(StoreRefusal::OtherProgram(_)) => "615",
        Some(StoreRefusal::NotAtRest(_)) => "601",
        None => "",
    }
}

/// The word for the cause by which a run of a command ended as it did. Empty where its status is the cause.
pub fn cause_of(ended: Ended<'_>) -> &'static str {
    match (ended.exit, ended.disk.failure(), ended.failures.files) {
        (Exit::ReadFault, _, _) => cause_of_stream(ended.failures.input),
        (Exit::WriteFault, _, _) => cause_of_stream(ended.failures.output),
        (Exit::DiskFault, Some(failure), _) => cause_of_disk(failure),
        (Exit::FileFault, _, Some(failure)) => cause_of_file(failure),
        (Exit::StoreRefused, _, _) => number_of(ended.examined.refusal),
        _ => "",
    }
}

/// What a person is told of words that are no command. Empty where they ask for help, or the run didn't end by them.
pub fn explain_usage(alloc: Global, words: &[String], exit: Exit) -> Result<String, Memory> {
    if exit == Exit::Usage {
        explain_words(alloc, words)
    } else {
        Ok(String::new(alloc))
    }
}
