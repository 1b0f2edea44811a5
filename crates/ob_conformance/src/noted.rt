//! The calls that a scripted file answered, as they are noted and put.
ghost use Rattle.std.specs.Prelude.{◌≡◌, ◌∷◌, [], Some};
ghost use Rattle.ob_io_std.specs.Calls.{Adds, read, written};

use crate::page::Page;
use ob_io_std::{Access, Identity};
use std::alloc::Global;

/// What a call by a name did, or found.
#[derive(Clone, Copy)]
pub enum ByName {
    /// Whether the file is a regular one; `None` where there is none.
    KindOf(Option<bool>),
    /// The file was opened.
    Opened(Access),
    /// Which file it is; `None` where there is none.
    IdentityOf(Option<Identity>),
    /// The names in its folder were synced.
    FolderSynced,
}

/// What a call of the file that is open did, or found.
#[derive(Clone, Copy)]
pub enum OfFile {
    /// Whether it is a regular one.
    Kind(bool),
    /// Which file it is.
    Identity(Identity),
    /// The number under which it is open.
    Descriptor(u32),
    /// It was locked.
    Locked,
    /// How many bytes it has.
    Measured(u64),
    /// It was synced.
    Synced,
}

// A call that did what it was to.
#[derive(Drop)]
enum Made {
    // By this name.
    Named(String, ByName),
    // Of the file that is open.
    Plain(OfFile),
    // From an offset on these bytes were read.
    Read(u64, Vec<u8>),
    // From an offset on these bytes were written.
    Written(u64, Vec<u8>),
}

/// The calls so far. Where memory lacked for one, they aren't known any more.
#[derive(Drop)]
pub struct Log {
    alloc: Global,
    made: Vec<Made>,
    notes_all: bool,
}

fn put_identity(own: Identity, page: &mut Page) {
    page.number(own.device);
    page.number(own.inode);
}

fn put_access(access: Access, page: &mut Page) {
    page.word(if access == Access::ReadWrite {
        "both"
    } else {
        "reading"
    });
}

fn put_seen(seen: Option<bool>, page: &mut Page) {
    match seen {
        Some(is_regular) => page.truth(is_regular),
        None => page.word("none"),
    }
}

fn put_found(found: Option<Identity>, page: &mut Page) {
    match found {
        Some(own) => put_identity(own, page),
        None => page.word("none"),
    }
}

// Puts a word and what is told in words.
fn put_told(word: &str, told: &str, page: &mut Page) {
    page.word(word);
    page.word(told);
}

fn put_named(name: &str, what: ByName, page: &mut Page) {
    match what {
        ByName::KindOf(seen) => {
            put_told("kind_of", name, page);
            put_seen(seen, page);
        }
        ByName::Opened(access) => {
            put_told("open", name, page);
            put_access(access, page);
        }
        ByName::IdentityOf(found) => {
            put_told("identity_of", name, page);
            put_found(found, page);
        }
        ByName::FolderSynced => put_told("sync_folder", name, page),
    }
}

// Puts a word and a number.
fn put_numbered(word: &str, number: u64, page: &mut Page) {
    page.word(word);
    page.number(number);
}

fn put_plain(what: OfFile, page: &mut Page) {
    match what {
        OfFile::Kind(is_regular) => {
            page.word("kind");
            page.truth(is_regular);
        }
        OfFile::Identity(own) => {
            page.word("identity");
            put_identity(own, page);
        }
        OfFile::Descriptor(number) => put_numbered("descriptor", u64::from(number), page),
        OfFile::Locked => page.word("lock"),
        OfFile::Measured(count) => put_numbered("len", count, page),
        OfFile::Synced => page.word("sync"),
    }
}

fn put_range(word: &str, at: u64, bytes: &[u8], page: &mut Page) {
    put_numbered(word, at, page);
    page.bytes(bytes);
}

fn put_made(made: &Made, page: &mut Page) {
    match made {
        Made::Named(name, what) => put_named(name.as_str(), *what, page),
        Made::Plain(what) => put_plain(*what, page),
        Made::Read(at, bytes) => put_range("read_at", *at, bytes, page),
        Made::Written(at, bytes) => put_range("write_at", *at, bytes, page),
    }
}

impl Log {
    ghost use Rattle.ob_conformance.specs.Noted.{calls_of, call_of, by_name, of_file};

    /// No call was made yet.
    pub fn new(alloc: Global) -> Self
        ensures { calls_of result ≡ Some [] }
    {
        Log {
            alloc,
            made: Vec::new(alloc),
            notes_all: true,
        }
    }

    /// How many calls were noted.
    pub fn count(&self) -> usize {
        self.made.len()
    }

    /// Puts the calls but so many first ones.
    pub fn put_behind(&self, first: usize, page: &mut Page) {
        if !self.notes_all {
            page.fail();
        }
        for made in self.made.iter().skip(first) {
            put_made(made, page);
        }
    }

    // Notes a call.
    #[tactic(auto, using(crate::proofs::NotedLemmas::noted))]
    fn note(&mut self, made: Made)
        ensures { Adds (calls_of self.old) (calls_of self.new) (call_of made ∷ []) }
    {
        if self.made.push(made).is_err() {
            self.notes_all = false;
        }
    }

    /// Notes a call by a name.
    pub fn note_named(&mut self, name: &str, what: ByName)
        ensures { Adds (calls_of self.old) (calls_of self.new) (by_name name.now what ∷ []) }
    {
        match String::from_str(self.alloc, name) {
            Ok(name) => self.note(Made::Named(name, what)),
            Err(_) => self.notes_all = false,
        }
    }

    /// Notes a call of the file that is open.
    pub fn note_plain(&mut self, what: OfFile)
        ensures { Adds (calls_of self.old) (calls_of self.new) (of_file what ∷ []) }
    {
        self.note(Made::Plain(what));
    }

    /// Notes bytes that were read.
    pub fn note_read(&mut self, at: u64, bytes: &[u8])
        ensures { Adds (calls_of self.old) (calls_of self.new) (read at bytes.now ∷ []) }
    {
        match bytes.to_vec(self.alloc) {
            Ok(bytes) => self.note(Made::Read(at, bytes)),
            Err(_) => self.notes_all = false,
        }
    }

    /// Notes bytes that were written.
    pub fn note_written(&mut self, at: u64, bytes: &[u8])
        ensures { Adds (calls_of self.old) (calls_of self.new) (written at bytes.now ∷ []) }
    {
        match bytes.to_vec(self.alloc) {
            Ok(bytes) => self.note(Made::Written(at, bytes)),
            Err(_) => self.notes_all = false,
        }
    }
}
