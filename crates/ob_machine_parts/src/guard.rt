//! Locks, and transactions in progress (Coblenz et al., TOPLAS 42(3), 2020, "State tests"; locks are this project's own).
ghost use Rattle.std.specs.Prelude.{◌≡◌, [], not, OnErr, IfOk};
ghost use Rattle.ob_heap_spec.specs.Marks.{is_among, without_first};
ghost use Rattle.ob_machine_parts.specs.Guards.{Guarded, with_lock, with_entry};

use crate::numbers::Numbers;
use ob_base::{Memory, ObjectId};
use std::alloc::Global;
use std::marker::Model;

/// Which objects are locked, and which have a transaction in progress. Contracts see both as lists of their numbers, the
/// newest first, with each number at most once.
#[derive(Drop)]
pub struct Guard {
    locked: Numbers,
    progress: Numbers,
}

impl Model for Guard {
    ghost use Rattle.ob_machine_parts.specs.Guards.{Guarded};

    ghost Value = { Guarded };

    ghost view = { λ g. record { locked = g.locked; progress = g.progress } };
}

impl Guard {
    /// No object is locked, and none has a transaction in progress.
    pub fn new(alloc: Global) -> Guard
        ensures { result ≡ record { locked = []; progress = [] } }
    {
        Guard {
            locked: Numbers::new(alloc),
            progress: Numbers::new(alloc),
        }
    }

    /// A transaction of the object begins, unless one of it is in progress already: then the answer is false, and
    /// nothing changes.
    pub fn enter(&mut self, id: ObjectId) -> Result<bool, Memory>
        ensures ok { IfOk result (λ entered. (entered ≡ not (is_among id.0 self.old.progress)) × (self.new ≡ with_entry id.0 self.old)) }
        ensures err { OnErr result (self.new ≡ self.old) }
    {
        if self.progress.has(id.0) {
            return Ok(false);
        }
        self.progress.add(id.0)?;
        Ok(true)
    }

    /// The transaction of the object ends: in constant time where it is the last that began.
    pub fn leave(&mut self, id: ObjectId)
        ensures { self.new ≡ record self.old { progress = without_first id.0 self.old.progress } }
    {
        self.progress.remove(id.0);
    }

    /// Locks the object, unless it is locked already: then the answer is false, and nothing changes.
    pub fn lock(&mut self, id: ObjectId) -> Result<bool, Memory>
        ensures ok { IfOk result (λ taken. (taken ≡ not (is_among id.0 self.old.locked)) × (self.new ≡ with_lock id.0 self.old)) }
        ensures err { OnErr result (self.new ≡ self.old) }
    {
        if self.locked.has(id.0) {
            return Ok(false);
        }
        self.locked.add(id.0)?;
        Ok(true)
    }

    /// The lock on the object ends: in constant time where it is the newest.
    pub fn unlock(&mut self, id: ObjectId)
        ensures { self.new ≡ record self.old { locked = without_first id.0 self.old.locked } }
    {
        self.locked.remove(id.0);
    }

    /// Whether the object's state may change: it isn't locked.
    pub fn may_change(&self, id: ObjectId) -> bool
        ensures { result ≡ not (is_among id.0 self.now.locked) }
    {
        !self.locked.has(id.0)
    }

    /// Whether a transaction of the object is in progress.
    pub fn busy(&self, id: ObjectId) -> bool
        ensures { result ≡ is_among id.0 self.now.progress }
    {
        self.progress.has(id.0)
    }
}
