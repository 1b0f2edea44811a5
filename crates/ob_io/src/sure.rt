//! The outside in memory that never fails.
ghost use Rattle.std.specs.Prelude.{◌≡◌, ◌+◌, ◌<◌, ◌≤◌, ◌++◌, ℕ, List, Some, None, [], min, take, length, vec_len, IfOk, OnOk, OnErr, MatchOption, unwrap_or};
ghost use Rattle.ob_io.specs.Causes.{HasCause};
ghost use Rattle.ob_io.specs.FilesInMemory.{content_of};
ghost use Rattle.ob_io.specs.Told.{WriteGives};

use crate::asks::Asks;
use crate::{FileError, Files, Sink, Source};
use ob_base::Failed;
use std::alloc::Global;

// Copies as much of the front as there is room for.
fn copy_front(from: &[u8], into: &mut [u8]) -> usize
    ensures count { result ≡ min (length from.now) (length into.old) }
    ensures len { length into.new ≡ length into.old }
    ensures front { take result into.new ≡ take result from.now }
{
    let count = from.len().min(into.len());
    into[..count].copy_from_slice(&from[..count]);
    count
}

/// A source in memory that never fails.
#[derive(Drop)]
pub struct SureSource {
    bytes: Vec<u8>,
    at: usize,
    ghost within: { at ≤ vec_len bytes },
}

impl SureSource {
    ghost use Rattle.ob_io.specs.Sure.{sure_source_left, sure_source_view};

    /// These bytes are left.
    pub fn new(bytes: Vec<u8>) -> Self
        ensures left { (sure_source_view result).left ≡ Some bytes.items }
        ensures taken { (sure_source_view result).taken ≡ 0 }
        ensures faults { (sure_source_view result).faults ≡ 0 }
    {
        SureSource { bytes, at: 0 }
    }

    // What no read took.
    fn rest(&self) -> &[u8]
        ensures { result.now ≡ sure_source_left self.now }
    {
        &self.bytes[self.at..]
    }
}

impl Source for SureSource {
    ghost use Rattle.ob_io.specs.Sure.{sure_source_view};

    ghost view = { sure_source_view };

    fn read(&mut self, into: &mut [u8]) -> Result<usize, Failed> {
        let count = copy_front(self.rest(), into);
        self.at += count;
        Ok(count)
    }
}

/// A sink in memory that never fails. What was written is observable until a call passes its room or gets no
/// memory. From then on it takes calls and nothing is observable.
#[derive(Drop)]
pub struct SureSink {
    bytes: Vec<u8>,
    room: usize,
    tells: bool,
    ghost within: { vec_len bytes ≤ room },
}

impl SureSink {
    ghost use Rattle.ob_io.specs.Sure.{sure_sink_view, sure_sink_room};

    /// Nothing is written yet. `room` is how many bytes it keeps.
    pub fn new(alloc: Global, room: usize) -> Self
        ensures written { (sure_sink_view result).written ≡ Some [] }
        ensures faults { (sure_sink_view result).faults ≡ 0 }
        ensures room { sure_sink_room result ≡ room }
    {
        SureSink {
            bytes: Vec::new(alloc),
            room,
            tells: true,
        }
    }

    /// What was written, where it is observable.
    pub fn bytes(&self) -> Option<&[u8]>
        ensures { MatchOption result ((sure_sink_view self.now).written ≡ None)
            (λ bytes. (sure_sink_view self.now).written ≡ Some bytes.now) }
    {
        if self.tells { Some(&self.bytes) } else { None }
    }
}

impl Sink for SureSink {
    ghost use Rattle.ob_io.specs.Sure.{sure_sink_view, sure_sink_room};

    ghost view = { sure_sink_view };

    fn write(&mut self, bytes: &[u8]) -> Result<usize, Failed>
        ensures bound { IfOk result (λ n. n ≤ length bytes.now) }
        ensures some { 0 < length bytes.now → IfOk result (λ n. 0 < n) }
        ensures bytes { WriteGives (sure_sink_view self.old).written (sure_sink_view self.new).written
            result bytes.now }
        ensures cause { HasCause (sure_sink_view self.old).faults (sure_sink_view self.new).faults result }
        ensures takes_all { result ≡ Ok (length bytes.now) }
        ensures full { sure_sink_room self.old < length bytes.now → (sure_sink_view self.new).written ≡ None }
        ensures room { MatchOption (sure_sink_view self.new).written
            (sure_sink_room self.new ≡ sure_sink_room self.old)
            (λ _. sure_sink_room self.old ≡ sure_sink_room self.new + length bytes.now) }
    {
        if self.tells {
            self.tells = bytes.len() <= self.room - self.bytes.len()
                && self.bytes.extend_from_slice(bytes).is_ok();
        }
        Ok(bytes.len())
    }
}

// Appends the bytes, cut after `limit`.
pub(crate) fn append_front(bytes: &[u8], limit: usize, into: &mut Vec<u8>) -> Result<(), FileError>
    ensures ok { OnOk result (into.new.items ≡ into.old.items ++ take limit bytes.now) }
    ensures err { OnErr result (into.new.items ≡ into.old.items) }
    ensures memory { OnErr result (result ≡ Err FileError.Memory) }
{
    let count = bytes.len().min(limit);
    into.extend_from_slice(&bytes[..count])?;
    Ok(())
}

// The contents of the first file of this name.
pub(crate) fn contents_of<'a>(files: &'a [(String, Vec<u8>)], name: &str) -> Option<&'a [u8]>
    ensures { MatchOption result (content_of files.now name.now ≡ None)
        (λ bytes. content_of files.now name.now ≡ Some bytes.now) }
{
    for (known, bytes) in files {
        if known.as_str() == name {
            return Some(bytes);
        }
    }
    None
}

/// Files in memory that are always read. A name that they lack has empty contents.
#[derive(Drop)]
pub struct SureFiles {
    files: Vec<(String, Vec<u8>)>,
    asks: Asks,
}

impl SureFiles {
    ghost use Rattle.ob_io.specs.Sure.{sure_files_view};

    /// The files by name. The first of a name is the one that is read.
    pub fn new(alloc: Global, files: Vec<(String, Vec<u8>)>) -> Self
        ensures content { (name : List ℕ) →
            (sure_files_view result).content name ≡ Some (unwrap_or (content_of files.items name) []) }
        ensures faults { (sure_files_view result).faults ≡ 0 }
        ensures asks { (sure_files_view result).asks ≡ [] }
    {
        SureFiles {
            files,
            asks: Asks::new(alloc),
        }
    }
}

impl Files for SureFiles {
    ghost use Rattle.ob_io.specs.Sure.{sure_files_view};

    ghost view = { sure_files_view };

    fn read(&mut self, name: &str, limit: usize, into: &mut Vec<u8>) -> Result<(), FileError> {
        self.asks.note(name, limit)?;
        match contents_of(&self.files, name) {
            Some(bytes) => append_front(bytes, limit, into),
            None => Ok(()),
        }
    }
}
