//! A file in memory that answers as a script tells, and tells each call that it answered.
ghost use Rattle.std.specs.Prelude.{◌≡◌, ◌≤◌, length};

use crate::noted::{ByName, Log, OfFile};
use ob_io_std::{Access, Identity, SystemFile};
use std::alloc::Global;
use std::io;

/// Which file is open, where the script doesn't tell it.
const OWN: Identity = Identity {
    device: 1,
    inode: 7,
};
/// The number under which it is open, where the script doesn't tell it.
const NUMBER: u32 = 3;
/// The most bytes that a file has.
const MOST_BYTES: u64 = 1 << 16;

/// What a script tells: of each call in its turn, with commas between them, and of what names mean, as `s=1.7`, with commas between them.
/// A call is told as the kind of an error, with which it fails; as `no`; as a number; as a file, `1.7`; or as `-`, where nothing is told.
#[derive(Clone, Copy)]
pub struct Script<'a> {
    calls: &'a str,
    names: &'a str,
}

/// The kind of an error that a word names.
fn kind_named(word: &str) -> Option<io::ErrorKind> {
    match word {
        "NotFound" => Some(io::ErrorKind::NotFound),
        "PermissionDenied" => Some(io::ErrorKind::PermissionDenied),
        "Interrupted" => Some(io::ErrorKind::Interrupted),
        "WouldBlock" => Some(io::ErrorKind::WouldBlock),
        "StorageFull" => Some(io::ErrorKind::StorageFull),
        _ => None,
    }
}

// The file that a word tells.
fn file_told(word: &str) -> Option<Identity> {
    let (device, inode) = word.split_once('.')?;
    Some(Identity {
        device: device.parse().ok()?,
        inode: inode.parse().ok()?,
    })
}

impl<'a> Script<'a> {
    /// What is told of calls, and of names.
    pub fn new(calls: &'a str, names: &'a str) -> Self {
        Script { calls, names }
    }

    // What it tells of a call.
    fn of_call(self, call: u64) -> &'a str {
        let mut left = call;
        for told in self.calls.split(',') {
            if left == 0 {
                return told;
            }
            left -= 1;
        }
        ""
    }

    // Which file a name means.
    fn of_name(self, name: &str) -> Option<Identity> {
        for told in self.names.split(',') {
            if let Some((known, file)) = told.split_once('=') {
                if known == name {
                    return file_told(file);
                }
            }
        }
        None
    }
}

/// A file in memory. Its calls fail where the script tells it, and those that speak of the file also where none is open.
#[derive(Drop)]
pub struct ScriptedFile<'a> {
    alloc: Global,
    script: Script<'a>,
    asked: u64,
    bytes: Vec<u8>,
    is_open: bool,
    log: Log,
}

// What a call answers that lacks what it is asked for.
fn lacking() -> io::Error {
    io::Error::from(io::ErrorKind::NotFound)
}

impl<'a> ScriptedFile<'a> {
    /// No call was made yet.
    pub fn new(alloc: Global, script: Script<'a>, bytes: Vec<u8>) -> Self {
        ScriptedFile {
            alloc,
            script,
            asked: 0,
            bytes,
            is_open: false,
            log: Log::new(alloc),
        }
    }

    /// The calls that did what they were to.
    pub fn log(&self) -> &Log {
        &self.log
    }

    /// How many calls were made, with those that failed.
    pub fn asked(&self) -> u64 {
        self.asked
    }

    /// The bytes of the file.
    pub fn bytes(&self) -> &[u8] {
        &self.bytes
    }

    // Counts a call, and answers what the script tells of it.
    fn ask(&mut self) -> io::Result<&'a str>
        ensures { self.new.log ≡ self.old.log }
    {
        let told = self.script.of_call(self.asked);
        self.asked = self.asked.saturating_add(1);
        match kind_named(told) {
            Some(kind) => Err(io::Error::from(kind)),
            None => Ok(told),
        }
    }

    // The same of a call that speaks of the file that is open.
    fn ask_open(&mut self) -> io::Result<&'a str>
        ensures { self.new.log ≡ self.old.log }
    {
        let told = self.ask()?;
        if self.is_open {
            Ok(told)
        } else {
            Err(lacking())
        }
    }

    // Which file a name means, as it is told.
    fn meant(&mut self, name: &str) -> io::Result<Identity>
        ensures { self.new.log ≡ self.old.log }
    {
        let told = self.ask()?;
        let of_name = self.script.of_name(name);
        match file_told(told).or(of_name) {
            Some(own) => Ok(own),
            None => Err(lacking()),
        }
    }

    // Whether the file of a name is a regular one, as it is told.
    fn is_regular(&mut self) -> io::Result<bool>
        ensures { self.new.log ≡ self.old.log }
    {
        let told = self.ask()?;
        Ok(told != "no")
    }

    // Reads bytes as far as there are any, and at most so many.
    fn take(&self, at: u64, most: usize, into: &mut [u8]) -> usize
        ensures { result ≤ length into.new }
    {
        let start = at.min(self.bytes.len() as u64) as usize;
        let count = most.min(into.len()).min(self.bytes.len() - start);
        into[..count].copy_from_slice(&self.bytes[start..start + count]);
        count
    }

    // Writes bytes from an offset on.
    fn put(&mut self, at: u64, bytes: &[u8]) -> io::Result<()>
        ensures { self.new.log ≡ self.old.log }
    {
        let count = bytes.len() as u64;
        if count > MOST_BYTES || at > MOST_BYTES - count {
            return Err(io::Error::from(io::ErrorKind::FileTooLarge));
        }
        let start = at as usize;
        let end = start + bytes.len();
        if end > self.bytes.len() && self.bytes.resize(end, 0).is_err() {
            return Err(io::Error::from(io::ErrorKind::OutOfMemory));
        }
        self.bytes.as_mut_slice()[start..end].copy_from_slice(bytes);
        Ok(())
    }
}

impl<'a> SystemFile for ScriptedFile<'a> {
    ghost use Rattle.ob_conformance.specs.Noted.{calls_of};

    ghost calls = { λ file. calls_of file.log };

    fn kind_of(&mut self, name: &str) -> io::Result<bool> {
        let seen = self.is_regular();
        self.log.note_named(name, ByName::KindOf(seen.ok()));
        seen
    }

    fn open(&mut self, name: &str, access: Access) -> io::Result<()> {
        self.is_open = false;
        self.ask()?;
        self.is_open = true;
        self.log.note_named(name, ByName::Opened(access));
        Ok(())
    }

    fn close(&mut self) {
        self.is_open = false;
    }

    fn kind(&mut self) -> io::Result<bool> {
        let told = self.ask_open()?;
        let is_regular = told != "no";
        self.log.note_plain(OfFile::Kind(is_regular));
        Ok(is_regular)
    }

    fn identity(&mut self) -> io::Result<Identity> {
        let told = self.ask_open()?;
        let own = file_told(told).unwrap_or(OWN);
        self.log.note_plain(OfFile::Identity(own));
        Ok(own)
    }

    fn descriptor(&mut self) -> io::Result<u32> {
        let told = self.ask_open()?;
        let number = told.parse().unwrap_or(NUMBER);
        self.log.note_plain(OfFile::Descriptor(number));
        Ok(number)
    }

    fn identity_of(&mut self, name: &str) -> io::Result<Identity> {
        let found = self.meant(name);
        self.log.note_named(name, ByName::IdentityOf(found.ok()));
        found
    }

    fn lock(&mut self) -> io::Result<()> {
        self.ask_open()?;
        self.log.note_plain(OfFile::Locked);
        Ok(())
    }

    fn sync_folder(&mut self, name: &str) -> io::Result<()> {
        self.ask()?;
        self.log.note_named(name, ByName::FolderSynced);
        Ok(())
    }

    fn len(&mut self) -> io::Result<u64> {
        self.ask_open()?;
        let count = self.bytes.len() as u64;
        self.log.note_plain(OfFile::Measured(count));
        Ok(count)
    }

    fn read_at(&mut self, at: u64, into: &mut [u8]) -> io::Result<usize> {
        let told = self.ask_open()?;
        let most = told.parse().unwrap_or(usize::MAX);
        let count = self.take(at, most, into);
        self.log.note_read(at, &into[..count]);
        Ok(count)
    }

    fn write_at(&mut self, at: u64, bytes: &[u8]) -> io::Result<usize> {
        let told = self.ask_open()?;
        let most = told.parse().unwrap_or(usize::MAX);
        let count = bytes.len().min(most);
        self.put(at, &bytes[..count])?;
        self.log.note_written(at, &bytes[..count]);
        Ok(count)
    }

    fn sync(&mut self) -> io::Result<()> {
        self.ask_open()?;
        self.log.note_plain(OfFile::Synced);
        Ok(())
    }
}
