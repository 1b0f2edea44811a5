//! The trusted edge: std's readers, writers and files, none of whose bytes is observable.
ghost use Rattle.std.specs.Prelude.{◌≡◌, ◌<◌, ◌≤◌, ◌++◌, ℕ, List, [], length, IfOk};
ghost use Rattle.std.specs.Io.KnownBytes.{ReadConsumes, WriteAppends};
ghost use Rattle.ob_io.specs.Causes.{HasCause};
ghost use Rattle.ob_io.specs.Told.{ReadTakes, WriteGives};

use crate::again::{read_again, write_again};
use crate::failure::{Failure, SystemCall};
use ob_base::Failed;
use ob_io::{Asks, FileError, Files, Sink, Source};
use std::alloc::Global;
use std::io::{Read, Write};
use std::{fs, io};

// A call that failed.
fn failed(call: SystemCall, error: io::Error) -> Option<Failure> {
    Some(Failure { call, error })
}

// What is told of a write that wrote nothing, though it was given something.
fn wrote_nothing() -> io::Error {
    io::Error::from(io::ErrorKind::WriteZero)
}

/// A reader of std. What is left isn't observable. It counts the bytes in 64 bits: a read that might pass them fails. A read that a
/// signal interrupts is made again.
#[derive(Drop)]
pub struct StdSource<R> {
    inner: R,
    taken: u64,
    faults: u64,
    failure: Option<Failure>,
}

impl<R: Read> StdSource<R> {
    ghost use Rattle.ob_io_std.specs.Adapters.{std_source_view};

    /// Nothing was read yet.
    pub fn new(inner: R) -> Self
        ensures taken { (std_source_view result).taken ≡ 0 }
        ensures faults { (std_source_view result).faults ≡ 0 }
    {
        StdSource {
            inner,
            taken: 0,
            faults: 0,
            failure: None,
        }
    }

    /// The last call of the system that failed; `None` where none did.
    pub fn failure(&self) -> Option<Failure> {
        self.failure
    }
}

impl<R: Read> Source for StdSource<R> {
    ghost use Rattle.ob_io_std.specs.Adapters.{std_source_view, std_source_inner};

    ghost view = { std_source_view };

    fn read(&mut self, into: &mut [u8]) -> Result<usize, Failed>
        ensures bound { IfOk result (λ n. n ≤ length into.new) }
        ensures bytes { ReadTakes (std_source_view self.old) (std_source_view self.new) result into.new }
        ensures cause { HasCause (std_source_view self.old).faults (std_source_view self.new).faults result }
        ensures inner { ReadConsumes (R.remaining (std_source_inner self.old))
            (R.remaining (std_source_inner self.new)) result into.new }
    {
        if into.len() as u64 <= u64::MAX - self.taken {
            match read_again(&mut self.inner, into) {
                Ok(count) => {
                    self.taken += count as u64;
                    return Ok(count);
                }
                Err(error) => self.failure = failed(SystemCall::Read, error),
            }
        }
        self.faults = self.faults.saturating_add(1);
        Err(Failed)
    }
}

/// A writer of std. What was written isn't observable. A write that a signal interrupts is made again.
#[derive(Drop)]
pub struct StdSink<W> {
    inner: W,
    faults: u64,
    failure: Option<Failure>,
}

impl<W: Write> StdSink<W> {
    ghost use Rattle.ob_io_std.specs.Adapters.{std_sink_view};

    /// Nothing has failed yet.
    pub fn new(inner: W) -> Self
        ensures { (std_sink_view result).faults ≡ 0 }
    {
        StdSink {
            inner,
            faults: 0,
            failure: None,
        }
    }

    /// The last call of the system that failed; `None` where none did.
    pub fn failure(&self) -> Option<Failure> {
        self.failure
    }
}

impl<W: Write> Sink for StdSink<W> {
    ghost use Rattle.ob_io_std.specs.Adapters.{std_sink_view, std_sink_inner};

    ghost view = { std_sink_view };

    fn write(&mut self, bytes: &[u8]) -> Result<usize, Failed>
        ensures bound { IfOk result (λ n. n ≤ length bytes.now) }
        ensures some { 0 < length bytes.now → IfOk result (λ n. 0 < n) }
        ensures bytes { WriteGives (std_sink_view self.old).written (std_sink_view self.new).written result bytes.now }
        ensures cause { HasCause (std_sink_view self.old).faults (std_sink_view self.new).faults result }
        ensures inner { WriteAppends (W.contents (std_sink_inner self.old))
            (W.contents (std_sink_inner self.new)) result bytes.now }
    {
        match write_again(&mut self.inner, bytes) {
            Ok(count) if count > 0 || bytes.is_empty() => return Ok(count),
            Ok(_) => self.failure = failed(SystemCall::Write, wrote_nothing()),
            Err(error) => self.failure = failed(SystemCall::Write, error),
        }
        self.faults = self.faults.saturating_add(1);
        Err(Failed)
    }
}

const PIECE: usize = 4096;

// Appends the bytes of a reader up to its end, cut after `limit` bytes, in pieces.
fn append_pieces<R: Read>(
    reader: &mut R,
    limit: usize,
    into: &mut Vec<u8>,
    failure: &mut Option<Failure>,
) -> Result<(), FileError>
    ensures appends { (bytes : List ℕ)
        × (length bytes ≤ limit) × (into.new.items ≡ into.old.items ++ bytes) }
{
    let mut piece = [0; PIECE];
    let mut room = limit;
    'pieces: while room > 0 {
        let most = room.min(PIECE);
        let count = match read_again(reader, &mut piece[..most]) {
            Ok(count) => count,
            Err(error) => {
                *failure = failed(SystemCall::Read, error);
                return Err(FileError::Failed);
            }
        };
        if count == 0 {
            return Ok(());
        }
        into.extend_from_slice(&piece[..count])?;
        room -= count;
    }
    Ok(())
}

// Appends what the file contains, cut after `limit` bytes.
fn append_file<R: fs::Files>(
    host: &R,
    name: &str,
    limit: usize,
    into: &mut Vec<u8>,
    failure: &mut Option<Failure>,
) -> Result<(), FileError>
    ensures appends { (bytes : List ℕ)
        × (length bytes ≤ limit) × (into.new.items ≡ into.old.items ++ bytes) }
{
    let mut file = match fs::open(host, name) {
        Ok(file) => file,
        Err(error) => {
            *failure = failed(SystemCall::Open, error);
            return Err(FileError::Failed);
        }
    };
    append_pieces(&mut file, limit, into, failure)
}

/// The files of std. What they contain isn't observable.
#[derive(Drop)]
pub struct StdFiles<R> {
    host: R,
    asks: Asks,
    faults: u64,
    failure: Option<Failure>,
}

impl<R: fs::Files> StdFiles<R> {
    ghost use Rattle.ob_io_std.specs.Adapters.{std_files_view};

    /// The files that a runtime opens, as `&HostRuntime`. Nothing was asked yet.
    pub fn new(alloc: Global, host: R) -> Self
        ensures asks { (std_files_view result).asks ≡ [] }
        ensures faults { (std_files_view result).faults ≡ 0 }
    {
        StdFiles {
            host,
            asks: Asks::new(alloc),
            faults: 0,
            failure: None,
        }
    }

    /// The last call of the system that failed; `None` where none did.
    pub fn failure(&self) -> Option<Failure> {
        self.failure
    }
}

impl<R: fs::Files> Files for StdFiles<R> {
    ghost use Rattle.ob_io_std.specs.Adapters.{std_files_view};

    ghost view = { std_files_view };

    fn read(&mut self, name: &str, limit: usize, into: &mut Vec<u8>) -> Result<(), FileError> {
        self.asks.note(name, limit)?;
        let start = into.len();
        let result = append_file(&self.host, name, limit, into, &mut self.failure);
        if result.is_err() {
            into.truncate(start);
        }
        if result == Err(FileError::Failed) {
            self.faults = self.faults.saturating_add(1);
        }
        result
    }
}
