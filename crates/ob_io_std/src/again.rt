//! A call that a signal interrupted has done nothing, and is made again.
ghost use Rattle.std.specs.Prelude.{◌↔◌, ◌≡◌, ◌≤◌, IsTrue, IfOk, length};
ghost use Rattle.std.specs.IoError.{error_kind};
ghost use Rattle.std.specs.declared.io.ErrorKind.{ErrorKind};
ghost use Rattle.std.specs.Io.{ReadsAtMost, WritesAtMost};
ghost use Rattle.std.specs.Io.KnownBytes.{ReadConsumes, WriteAppends};

use std::io;
use std::io::{Read, Write};

/// How often a call is made at most, where each is interrupted.
pub const TRIES: u64 = u64::MAX;

/// Whether a signal interrupted a call.
pub fn is_interrupted(error: io::Error) -> bool
    ensures { IsTrue result ↔ (error_kind error ≡ ErrorKind.Interrupted) }
{
    error.kind() == io::ErrorKind::Interrupted
}

/// What is told where each of so many calls was interrupted.
pub fn given_up() -> io::Error {
    io::Error::from(io::ErrorKind::TimedOut)
}

/// One read of a stream. It is made again where a signal interrupts it.
pub fn read_again<R: Read>(reader: &mut R, into: &mut [u8]) -> io::Result<usize>
    ensures bound { ReadsAtMost result into.new }
    ensures bytes { ReadConsumes (R.remaining reader.old) (R.remaining reader.new) result into.new }
{
    'tries: for _ in 0..TRIES {
        match reader.read(into) {
            Ok(count) => return Ok(count),
            Err(error) => {
                if !is_interrupted(error) {
                    return Err(error);
                }
            }
        }
    }
    Err(given_up())
}

/// One write to a stream. It is made again where a signal interrupts it.
pub fn write_again<W: Write>(writer: &mut W, bytes: &[u8]) -> io::Result<usize>
    ensures bound { WritesAtMost result bytes.now }
    ensures bytes { WriteAppends (W.contents writer.old) (W.contents writer.new) result bytes.now }
{
    'tries: for _ in 0..TRIES {
        match writer.write(bytes) {
            Ok(count) => return Ok(count),
            Err(error) => {
                if !is_interrupted(error) {
                    return Err(error);
                }
            }
        }
    }
    Err(given_up())
}
