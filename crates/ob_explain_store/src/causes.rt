//! The causes for which a call of the system fails. Each has a word for scripts, and a help for people.

use ob_io_std::{Failure, SystemCall};
use std::io;

/// What is said of a call, and the word for its failure.
#[derive(Clone, Copy)]
struct Tried {
    call: SystemCall,
    cause: &'static str,
    words: &'static str,
}

/// The calls.
const TRIED: [Tried; 14] = [
    Tried {
        call: SystemCall::Note,
        cause: "memory",
        words: "its name couldn't be noted",
    },
    Tried {
        call: SystemCall::Open,
        cause: "open",
        words: "it couldn't be opened",
    },
    Tried {
        call: SystemCall::Kind,
        cause: "kind",
        words: "it isn't a regular file",
    },
    Tried {
        call: SystemCall::Descriptor,
        cause: "stream",
        words: "a standard stream of this run is closed, and the store would take its place",
    },
    Tried {
        call: SystemCall::Proc,
        cause: "proc",
        words: "/proc doesn't tell which files this run has open",
    },
    Tried {
        call: SystemCall::Stream,
        cause: "stream",
        words: "it is the standard input, output or error of this run",
    },
    Tried {
        call: SystemCall::Other,
        cause: "stream",
        words: "another word of the command names it too",
    },
    Tried {
        call: SystemCall::Lock,
        cause: "lock",
        words: "it couldn't be locked",
    },
    Tried {
        call: SystemCall::Name,
        cause: "replaced",
        words: "its name means another file by now",
    },
    Tried {
        call: SystemCall::Folder,
        cause: "folder",
        words: "its folder couldn't be synced",
    },
    Tried {
        call: SystemCall::Length,
        cause: "length",
        words: "its length couldn't be read",
    },
    Tried {
        call: SystemCall::Read,
        cause: "read",
        words: "it couldn't be read",
    },
    Tried {
        call: SystemCall::Write,
        cause: "write",
        words: "it couldn't be written",
    },
    Tried {
        call: SystemCall::Sync,
        cause: "sync",
        words: "it couldn't be synced",
    },
];

/// What is done about an error of a kind, and the word for it where a file couldn't be opened by it; empty where the call has the word.
#[derive(Clone, Copy)]
struct Cure {
    kind: io::ErrorKind,
    cause: &'static str,
    help: &'static str,
}

/// What is done, by the kind of the error.
const CURES: [Cure; 11] = [
    Cure {
        kind: io::ErrorKind::NotFound,
        cause: "missing",
        help: "see how the name is written, and in which folder the program was started.",
    },
    Cure {
        kind: io::ErrorKind::NotADirectory,
        cause: "missing",
        help: "a part of the name that should be a folder is a file.",
    },
    Cure {
        kind: io::ErrorKind::IsADirectory,
        cause: "kind",
        help: "it is a folder: name a file in it.",
    },
    Cure {
        kind: io::ErrorKind::PermissionDenied,
        cause: "permission",
        help: "the user of this run lacks a right: a text has to be readable; a store readable and writable; its folder readable, and writable too where the store is new.",
    },
    Cure {
        kind: io::ErrorKind::ReadOnlyFilesystem,
        cause: "permission",
        help: "its file system can only be read: mount it so that it can be written, or keep the store elsewhere.",
    },
    Cure {
        kind: io::ErrorKind::StorageFull,
        cause: "full",
        help: "the disk is full: make room on its file system.",
    },
    Cure {
        kind: io::ErrorKind::QuotaExceeded,
        cause: "full",
        help: "the user of this run may keep no more there: make room, or raise the quota.",
    },
    Cure {
        kind: io::ErrorKind::FileTooLarge,
        cause: "full",
        help: "the file may not grow so far: raise the limit of the run (`ulimit -f`), or take another file system.",
    },
    Cure {
        kind: io::ErrorKind::UnexpectedEof,
        cause: "",
        help: "the file became shorter while this run had it: find out which process did that.",
    },
    Cure {
        kind: io::ErrorKind::OutOfMemory,
        cause: "memory",
        help: "give the run more memory.",
    },
    Cure {
        kind: io::ErrorKind::InvalidFilename,
        cause: "",
        help: "see how the name is written.",
    },
];

/// What is done where another process has the lock.
const LOCKED: &str =
    "another process has it: a run that serves or audits it, or `flock`. Let that one end; two never have one store.";

/// A file that is no store of this run, since what was asked of it isn't so.
#[derive(Clone, Copy)]
struct Unfit {
    call: SystemCall,
    help: &'static str,
}

/// What is done about a file that is no store of this run, by what was asked of it.
const UNFIT: [Unfit; 5] = [
    Unfit {
        call: SystemCall::Kind,
        help: "a store is kept in a regular file alone, and in no device, pipe or folder.",
    },
    Unfit {
        call: SystemCall::Descriptor,
        help: "give the run all three streams, as `</dev/null`, `>replies`, `2>/dev/null`: what is written to a stream would be written over the store.",
    },
    Unfit {
        call: SystemCall::Stream,
        help: "give the run other streams, or another store: what is written to a stream would be written over the store.",
    },
    Unfit {
        call: SystemCall::Other,
        help: "a store is kept in a file of its own: see how both names are written.",
    },
    Unfit {
        call: SystemCall::Name,
        help: "find out who moves it, and begin another run.",
    },
];

/// What is done where the files that the run has open aren't told.
const WITHOUT_PROC: &str =
    "mount /proc where this run sees it: by it the run makes sure that no stream of it is the store.";

/// What is done where no more files may be open.
const TOO_MANY: Cure = Cure {
    kind: io::ErrorKind::Uncategorized,
    cause: "files",
    help: "too many files are open: raise the limit of the run (`ulimit -n`), or that of the system.",
};

/// What is done about all other errors.
const OTHERS: Cure = Cure {
    kind: io::ErrorKind::Uncategorized,
    cause: "",
    help: "look into the log of the system, as by `dmesg`: the disk may be broken.",
};

/// What is said of a stream that failed.
#[derive(Clone, Copy)]
struct OfStream {
    cause: &'static str,
    help: &'static str,
}

/// What is said of a stream for which there is no room.
const ROOMLESS: OfStream = OfStream {
    cause: "full",
    help: " Make room for what is written there.",
};

/// What is said of a stream for which no run waits.
const BLOCKING: OfStream = OfStream {
    cause: "blocking",
    help: " The stream is in non-blocking mode, and wasn't ready: give the run one that waits, as a pipe from or to `cat`.",
};

/// What is said of a stream that nobody reads any more.
const CLOSED: OfStream = OfStream {
    cause: "closed",
    help: " Whoever read it has closed it.",
};

/// What is said of any other one.
const FAILED: OfStream = OfStream {
    cause: "failed",
    help: "",
};

// What is said of a call.
fn tried_of(call: SystemCall) -> Tried {
    for row in TRIED.iter() {
        if row.call == call {
            return *row;
        }
    }
    TRIED[0]
}

// Whether this run, or the system, has as many files open as it may.
fn is_limit(error: io::Error) -> bool {
    matches!(error.raw_os_error(), Some(23 | 24))
}

// What is done about an error.
fn cure_of(error: io::Error) -> Cure {
    if is_limit(error) {
        return TOO_MANY;
    }
    let kind = error.kind();
    for row in CURES.iter() {
        if row.kind == kind {
            return *row;
        }
    }
    OTHERS
}

// Whether there is no room for what was to be written.
fn is_full(error: io::Error) -> bool {
    matches!(
        error.kind(),
        io::ErrorKind::StorageFull | io::ErrorKind::QuotaExceeded | io::ErrorKind::FileTooLarge
    )
}

// Whether a folder couldn't even be opened. A sync gives no such answer.
fn is_unopened(error: io::Error) -> bool {
    is_limit(error)
        || matches!(
            error.kind(),
            io::ErrorKind::NotFound | io::ErrorKind::NotADirectory | io::ErrorKind::PermissionDenied
        )
}

// Whether another process has the lock.
fn is_locked(failure: Failure) -> bool {
    failure.call == SystemCall::Lock && failure.error.kind() == io::ErrorKind::WouldBlock
}

// What is done about a file that is no store of this run; None where a call of the system failed instead.
fn unfit_of(failure: Failure) -> Option<&'static str> {
    for row in UNFIT.iter() {
        if row.call == failure.call && failure.error.kind() == io::ErrorKind::InvalidInput {
            return Some(row.help);
        }
    }
    None
}

// What is done about a call of the system that failed.
fn help_with(failure: Failure) -> &'static str {
    if is_locked(failure) {
        LOCKED
    } else if failure.call == SystemCall::Proc {
        WITHOUT_PROC
    } else {
        cure_of(failure.error).help
    }
}

/// What is done about a failure.
pub fn help_for(failure: Failure) -> &'static str {
    match unfit_of(failure) {
        Some(help) => help,
        None => help_with(failure),
    }
}

/// What was tried.
pub fn words_for(call: SystemCall) -> &'static str {
    tried_of(call).words
}

/// Whether the call alone says what is wrong, and the system's answer says nothing more.
pub fn is_plain(failure: Failure) -> bool {
    is_locked(failure) || unfit_of(failure).is_some()
}

/// Whether a store is used by a call, and not only taken.
pub fn is_use(call: SystemCall) -> bool {
    matches!(
        call,
        SystemCall::Length | SystemCall::Read | SystemCall::Write | SystemCall::Sync
    )
}

// Whether the system's answer names the cause why a disk failed, and not the call.
fn is_answered(failure: Failure) -> bool {
    match failure.call {
        SystemCall::Open => true,
        SystemCall::Folder => is_unopened(failure.error),
        SystemCall::Write => is_full(failure.error),
        _ => false,
    }
}

/// Whether bytes of a store, or its name, may stand otherwise on the disk than in the system's memory.
pub fn is_in_doubt(failure: Failure) -> bool {
    (is_use(failure.call) || failure.call == SystemCall::Folder) && !is_answered(failure)
}

/// The word for the cause why a file couldn't be read: by what the system answered, or else by the call.
pub fn cause_of_file(failure: Failure) -> &'static str {
    let cause = cure_of(failure.error).cause;
    if cause.is_empty() {
        tried_of(failure.call).cause
    } else {
        cause
    }
}

/// The word for the cause why a disk failed: by what the system answered where the file or its folder couldn't be opened, or it had no
/// room; else by the call.
pub fn cause_of_disk(failure: Failure) -> &'static str {
    if is_locked(failure) {
        "locked"
    } else if is_answered(failure) {
        cause_of_file(failure)
    } else {
        tried_of(failure.call).cause
    }
}

// What is said of it, by the call that failed if that is known.
fn of_stream(failure: Option<Failure>) -> OfStream {
    match failure {
        Some(failure) if is_full(failure.error) => ROOMLESS,
        Some(failure) if failure.error.kind() == io::ErrorKind::WouldBlock => BLOCKING,
        Some(failure) if failure.error.kind() == io::ErrorKind::BrokenPipe => CLOSED,
        _ => FAILED,
    }
}

/// The word for the cause why a read or a write of a stream failed, by the call that failed if that is known.
pub fn cause_of_stream(failure: Option<Failure>) -> &'static str {
    of_stream(failure).cause
}

/// What is done about it, to be put behind other words.
pub fn help_for_stream(failure: Option<Failure>) -> &'static str {
    of_stream(failure).help
}
