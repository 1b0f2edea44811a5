//! The standard input and output of a run, where whoever made them has set them not to wait: a read that finds no byte yet is refused
//! there, and a write that finds no room. The program waits for both. So a stream that refuses is opened once more, by its name in /proc,
//! and used by that from then on, which waits. A pipe and a terminal can be opened so; of any other stream the refusal is told.
//!
//! Nothing is written to a standard output that is the file of the run's store.
ghost use Rattle.std.specs.Io.{ReadsAtMost, WritesAtMost};

use std::io::{IsTerminal, Read, Write};
use std::os::fd::AsRawFd;
use std::os::unix::fs::{FileTypeExt, MetadataExt};
use std::{fs, io};

// The standard input and output of this run, by their names in /proc.
const INPUT: &str = "/proc/self/fd/0";

const OUTPUT: &str = "/proc/self/fd/1";

// Whether nothing of a stream depends on how far it was read or written, so that it may be opened once more; and whether what was opened
// isn't in the place of another stream, which is closed.
fn is_fit(file: &fs::File) -> bool {
    if file.as_raw_fd() <= 2 {
        return false;
    }
    match file.metadata() {
        Ok(metadata) => metadata.file_type().is_fifo() || file.is_terminal(),
        Err(_) => false,
    }
}

// Opens a stream of this run once more; None where it can't be.
fn reopened<H: fs::Files<File = fs::File>>(host: &H, name: &str, writes: bool) -> Option<fs::File> {
    let opened = fs::OpenOptions::new()
        .read(!writes)
        .write(writes)
        .open(host, name);
    match opened {
        Ok(file) if is_fit(&file) => Some(file),
        _ => None,
    }
}

// Whether a stream of this run is the file of a name; also where that can't be told.
fn may_be<H: fs::Files<File = fs::File>>(host: &H, stream: &str, name: &str) -> bool {
    let file = match host.metadata(name) {
        Ok(file) => file,
        Err(error) => return error.kind() != io::ErrorKind::NotFound,
    };
    match host.metadata(stream) {
        Ok(own) => own.dev() == file.dev() && own.ino() == file.ino(),
        Err(_) => true,
    }
}

/// The standard input, waited for.
#[derive(Drop)]
pub struct WaitingInput<R, H> {
    inner: R,
    host: H,
    again: Option<fs::File>,
}

impl<R, H: fs::Files<File = fs::File>> WaitingInput<R, H> {
    /// The standard input of a runtime, as `rt.reader()`, and the files that it opens, as `&HostRuntime`.
    pub fn new(inner: R, host: H) -> Self {
        WaitingInput {
            inner,
            host,
            again: None,
        }
    }

    // Reads from the stream that was opened once more. Where it can't be, the refusal is told.
    fn read_waiting(&mut self, into: &mut [u8], refusal: io::Error) -> io::Result<usize>
        ensures { ReadsAtMost result into.new }
    {
        if self.again.is_none() {
            self.again = reopened(&self.host, INPUT, false);
        }
        match &mut self.again {
            Some(file) => file.read(into),
            None => Err(refusal),
        }
    }
}

impl<R: Read, H: fs::Files<File = fs::File>> Read for WaitingInput<R, H> {
    fn read(&mut self, into: &mut [u8]) -> io::Result<usize> {
        if self.again.is_some() {
            return self.read_waiting(into, io::Error::from(io::ErrorKind::WouldBlock));
        }
        match self.inner.read(into) {
            Ok(count) => Ok(count),
            Err(error) => {
                if error.kind() != io::ErrorKind::WouldBlock {
                    return Err(error);
                }
                self.read_waiting(into, error)
            }
        }
    }
}

/// The standard output, waited for. Where it is the file of the run's store each write fails, and writes nothing.
#[derive(Drop)]
pub struct WaitingOutput<W, H> {
    inner: W,
    host: H,
    again: Option<fs::File>,
    is_store: bool,
}

impl<W, H: fs::Files<File = fs::File>> WaitingOutput<W, H> {
    /// The standard output of a runtime, as `writer(&rt)`, the files that it opens, as `&HostRuntime`, and the name of the run's store, if
    /// it has one.
    pub fn new(inner: W, host: H, store: Option<&str>) -> Self {
        let is_store = match store {
            Some(name) => may_be(&host, OUTPUT, name),
            None => false,
        };
        WaitingOutput {
            inner,
            host,
            again: None,
            is_store,
        }
    }

    // Writes to the stream that was opened once more. Where it can't be, the refusal is told.
    fn write_waiting(&mut self, bytes: &[u8], refusal: io::Error) -> io::Result<usize>
        ensures { WritesAtMost result bytes.now }
    {
        if self.again.is_none() {
            self.again = reopened(&self.host, OUTPUT, true);
        }
        match &mut self.again {
            Some(file) => file.write(bytes),
            None => Err(refusal),
        }
    }
}

impl<W: Write, H: fs::Files<File = fs::File>> Write for WaitingOutput<W, H> {
    fn write(&mut self, bytes: &[u8]) -> io::Result<usize> {
        if self.is_store {
            return Err(io::Error::from(io::ErrorKind::InvalidInput));
        }
        if self.again.is_some() {
            return self.write_waiting(bytes, io::Error::from(io::ErrorKind::WouldBlock));
        }
        match self.inner.write(bytes) {
            Ok(count) => Ok(count),
            Err(error) => {
                if error.kind() != io::ErrorKind::WouldBlock {
                    return Err(error);
                }
                self.write_waiting(bytes, error)
            }
        }
    }

    fn flush(&mut self) -> io::Result<()> {
        Ok(())
    }
}
