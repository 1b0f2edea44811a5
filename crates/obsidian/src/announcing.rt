//! What is told of a store as soon as it is open, before a line is read.

use ob_base::{AREA_BYTES, Failed};
use ob_explain_store::{Front, Opening, explain_opening};
use ob_io::Source;
use ob_run::Opened;
use std::cell::Cell;

/// What is noted of a store while it is opened.
#[derive(Drop)]
pub struct Noted {
    /// What stands at the front of its disk, by the disk when it is first read.
    pub front: Cell<Option<Front>>,
    /// How much it holds, by the run when it is open.
    pub held: Cell<Option<Opened>>,
}

impl Noted {
    /// Nothing is noted yet.
    pub fn nothing() -> Noted {
        Noted {
            front: Cell::new(None),
            held: Cell::new(None),
        }
    }
}

/// What is told of a store that is open, once.
#[derive(Drop)]
pub struct Announcement<'a> {
    rt: &'a HostRuntime,
    // The name of the store; None where it is in memory.
    store: Option<&'a str>,
    noted: &'a Noted,
    made: bool,
}

impl<'a> Announcement<'a> {
    /// It wasn't made yet.
    pub fn new(rt: &'a HostRuntime, store: Option<&'a str>, noted: &'a Noted) -> Self {
        Announcement {
            rt,
            store,
            noted,
            made: false,
        }
    }

    // Tells of the store of this name.
    fn tell(&self, store: &str) {
        let (Some(front), Some(held)) = (self.noted.front.get(), self.noted.held.get()) else {
            return;
        };
        let opening = Opening {
            front,
            objects: held.objects,
            handles: held.handles,
            area: AREA_BYTES,
        };
        if let Ok(page) = explain_opening(self.rt.alloc(), store, opening) {
            let _ = eprint!(self.rt; "{page}");
        }
    }

    // Makes it, if it wasn't made yet.
    fn make(&mut self) {
        if self.made {
            return;
        }
        self.made = true;
        if let Some(store) = self.store {
            self.tell(store);
        }
    }
}

/// A source, each of whose reads is one of the source that it holds. Before the first of them, when the store is open, it makes an
/// announcement.
#[derive(Drop)]
pub struct Announced<'a, S> {
    source: S,
    announcement: Announcement<'a>,
}

impl<'a, S> Announced<'a, S> {
    /// A source, and what is announced before it is read.
    pub fn new(source: S, announcement: Announcement<'a>) -> Self {
        Announced {
            source,
            announcement,
        }
    }

    /// The source.
    pub fn source(&self) -> &S {
        &self.source
    }
}

impl<'a, S: Source> Source for Announced<'a, S> {
    ghost view = { λ announced. S.view announced.source };

    fn read(&mut self, into: &mut [u8]) -> Result<usize, Failed> {
        self.announcement.make();
        self.source.read(into)
    }
}
