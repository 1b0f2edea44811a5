//! Ranges of a file, read and written piece by piece: one call of the system may do less than it was asked for.
ghost use Rattle.std.specs.Prelude.{◌≡◌, ◌<◌, ◌≤◌, ◌+◌, ◌^◌, take, drop, length, IfOk, OnOk, OnErr};
ghost use Rattle.ob_io_std.specs.Calls.{AddsSome, Does, read, written};
ghost use Rattle.ob_io_std.specs.Ranges.{Cover, CoverFront};

use crate::again::{TRIES, given_up, is_interrupted};
use crate::system::SystemFile;
use std::io;

// One read of what is yet to come of a range.
fn read_rest<F: SystemFile>(
    file: &mut F,
    at: u64,
    done: usize,
    into: &mut [u8],
) -> io::Result<usize>
    requires some { done < length into.old }
    requires fits { at + done < 2 ^ 64 }
    ensures front { take done into.new ≡ take done into.old }
    ensures bound { IfOk result (λ n. done + n ≤ length into.new) }
    ensures bytes { Does (F.calls file.old) (F.calls file.new) result (λ n. read (at + done) (take n (drop done into.new))) }
{
    file.read_at(at + done as u64, &mut into[done..])
}

// What is told of a range past the end of 64 bits.
fn past_offsets() -> io::Error {
    io::Error::from(io::ErrorKind::InvalidInput)
}

/// Reads the bytes of a range, which all lie within the file.
pub fn read_range<F: SystemFile>(file: &mut F, at: u64, into: &mut [u8]) -> io::Result<()>
    ensures whole { OnOk result (AddsSome (F.calls file.old) (F.calls file.new) (Cover read at into.new)) }
    ensures front { OnErr result (AddsSome (F.calls file.old) (F.calls file.new) (CoverFront read at into.new)) }
{
    if into.len() as u64 > u64::MAX - at {
        return Err(past_offsets());
    }
    let mut done = 0;
    'pieces: for _ in 0..TRIES {
        if done >= into.len() {
            return Ok(());
        }
        match read_rest(file, at, done, into) {
            Ok(0) => {
                let message = "failed to fill whole buffer";
                return Err(io::Error::new(io::ErrorKind::UnexpectedEof, message));
            }
            Ok(count) => done += count,
            Err(error) => {
                if !is_interrupted(error) {
                    return Err(error);
                }
            }
        }
    }
    Err(given_up())
}

// One write of what is yet to come of a range.
fn write_rest<F: SystemFile>(file: &mut F, at: u64, done: usize, bytes: &[u8]) -> io::Result<usize>
    requires some { done < length bytes.now }
    requires fits { at + done < 2 ^ 64 }
    ensures bound { IfOk result (λ n. done + n ≤ length bytes.now) }
    ensures bytes { Does (F.calls file.old) (F.calls file.new) result (λ n. written (at + done) (take n (drop done bytes.now))) }
{
    file.write_at(at + done as u64, &bytes[done..])
}

/// Writes bytes from an offset on.
pub fn write_range<F: SystemFile>(file: &mut F, at: u64, bytes: &[u8]) -> io::Result<()>
    ensures whole { OnOk result (AddsSome (F.calls file.old) (F.calls file.new) (Cover written at bytes.now)) }
    ensures front { OnErr result (AddsSome (F.calls file.old) (F.calls file.new) (CoverFront written at bytes.now)) }
{
    if bytes.len() as u64 > u64::MAX - at {
        return Err(past_offsets());
    }
    let mut done = 0;
    'pieces: for _ in 0..TRIES {
        if done >= bytes.len() {
            return Ok(());
        }
        match write_rest(file, at, done, bytes) {
            Ok(0) => {
                let message = "failed to write whole buffer";
                return Err(io::Error::new(io::ErrorKind::WriteZero, message));
            }
            Ok(count) => done += count,
            Err(error) => {
                if !is_interrupted(error) {
                    return Err(error);
                }
            }
        }
    }
    Err(given_up())
}
