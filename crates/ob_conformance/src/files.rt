//! What steps on a file of the system as a disk come to, over a file that answers as a script tells.
use crate::page::Page;
use crate::question::Question;
use crate::scripted::{Script, ScriptedFile};
use ob_base::Failed;
use ob_disk::Disk;
use ob_io_std::{Access, Failure, FileDisk, SystemCall};
use std::alloc::Global;
use std::io;

/// The most bytes that a step reads.
const MOST_BYTES: u64 = 1 << 16;

// What was asked of the system.
fn call_name(call: SystemCall) -> &'static str {
    match call {
        SystemCall::Note => "Note",
        SystemCall::Open => "Open",
        SystemCall::Kind => "Kind",
        SystemCall::Descriptor => "Descriptor",
        SystemCall::Proc => "Proc",
        SystemCall::Stream => "Stream",
        SystemCall::Other => "Other",
        SystemCall::Lock => "Lock",
        SystemCall::Name => "Name",
        SystemCall::Folder => "Folder",
        SystemCall::Length => "Length",
        SystemCall::Read => "Read",
        SystemCall::Write => "Write",
        SystemCall::Sync => "Sync",
    }
}

// What the system answered.
fn kind_name(kind: io::ErrorKind) -> &'static str {
    match kind {
        io::ErrorKind::NotFound => "NotFound",
        io::ErrorKind::PermissionDenied => "PermissionDenied",
        io::ErrorKind::Interrupted => "Interrupted",
        io::ErrorKind::WouldBlock => "WouldBlock",
        io::ErrorKind::StorageFull => "StorageFull",
        io::ErrorKind::InvalidInput => "InvalidInput",
        io::ErrorKind::UnexpectedEof => "UnexpectedEof",
        io::ErrorKind::WriteZero => "WriteZero",
        io::ErrorKind::FileTooLarge => "FileTooLarge",
        _ => "another",
    }
}

// Puts the call that failed.
fn put_failure(failure: Option<Failure>, page: &mut Page) {
    match failure {
        Some(failure) => {
            page.word(call_name(failure.call));
            page.word(kind_name(failure.error.kind()));
        }
        None => page.fail(),
    }
}

/// A file of a script as a disk.
type Scripted<'others, 'script> = FileDisk<'others, ScriptedFile<'script>>;

// Puts how a step ended that tells nothing else.
fn put_ended(ended: Result<(), Failed>, disk: &Scripted<'_, '_>, page: &mut Page) {
    match ended {
        Ok(()) => page.word("done"),
        Err(Failed) => put_failure(disk.failure(), page),
    }
}

fn attach(disk: &mut Scripted<'_, '_>, name: &str, page: &mut Page) {
    let ended = disk.attach(name);
    put_ended(ended, disk, page);
}

fn len(disk: &mut Scripted<'_, '_>, page: &mut Page) {
    match disk.len() {
        Ok(count) => page.number(count),
        Err(Failed) => put_failure(disk.failure(), page),
    }
}

// Reads: `OFFSET COUNT`.
fn read(alloc: Global, disk: &mut Scripted<'_, '_>, asked: &mut Question<'_>, page: &mut Page) {
    let at = asked.number(page);
    let count = asked.number(page).min(MOST_BYTES) as usize;
    let Some(mut into) = page.made(vec![in alloc; 0; count]) else {
        return;
    };
    match disk.read(at, &mut into) {
        Ok(()) => page.bytes(&into),
        Err(Failed) => put_failure(disk.failure(), page),
    }
}

// Writes: `OFFSET BYTES`.
fn write(alloc: Global, disk: &mut Scripted<'_, '_>, asked: &mut Question<'_>, page: &mut Page) {
    let at = asked.number(page);
    let bytes = asked.bytes(alloc, page);
    let ended = disk.write(at, &bytes);
    put_ended(ended, disk, page);
}

fn sync(disk: &mut Scripted<'_, '_>, page: &mut Page) {
    let ended = disk.sync();
    put_ended(ended, disk, page);
}

fn take(alloc: Global, disk: &mut Scripted<'_, '_>, asked: &mut Question<'_>, page: &mut Page) {
    match asked.word() {
        "attach" => attach(disk, asked.word(), page),
        "len" => len(disk, page),
        "read" => read(alloc, disk, asked, page),
        "write" => write(alloc, disk, asked, page),
        "sync" => sync(disk, page),
        "show" => page.bytes(disk.file().bytes()),
        _ => page.fail(),
    }
}

// Takes a step, and puts what it answers, how many calls it made, and those of them that did what they were to.
fn take_told(
    alloc: Global,
    disk: &mut Scripted<'_, '_>,
    asked: &mut Question<'_>,
    page: &mut Page,
) {
    let (made, calls) = (disk.file().log().count(), disk.file().asked());
    take(alloc, disk, asked, page);
    page.word(":");
    page.number(disk.file().asked().saturating_sub(calls));
    disk.file().log().put_behind(made, page);
    page.word(";");
}

fn access_in(asked: &mut Question<'_>, page: &mut Page) -> Access {
    match asked.word() {
        "reading" => Access::ReadOnly,
        "both" => Access::ReadWrite,
        _ => {
            page.fail();
            Access::ReadOnly
        }
    }
}

/// What steps come to, each with the calls that it made, and a `;` behind it: `ACCESS OTHER CALLS NAMES BYTES STEP;STEP`. `OTHER` is the name
/// of the other file of the run; `CALLS` and `NAMES` are what the script tells.
pub fn steps(alloc: Global, asked: &mut Question<'_>, page: &mut Page) {
    let access = access_in(asked, page);
    let others = [asked.word()];
    let script = Script::new(asked.word(), asked.word());
    let file = ScriptedFile::new(alloc, script, asked.bytes(alloc, page));
    let mut disk = FileDisk::new(alloc, file, access, &others);
    for step in asked.rest().split(';') {
        take_told(alloc, &mut disk, &mut Question::of(step), page);
    }
}
