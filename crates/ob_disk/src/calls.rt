//! Which calls were made of a disk.
ghost use Rattle.std.specs.Prelude.{◌≡◌, ◌++◌, [], ◌∷◌, OnOk, OnErr};
ghost use Rattle.ob_disk_spec.specs.Calls.{IsOneMore};

use std::alloc::{AllocError, Global};
use std::marker::Model;

// A disk that was attached: its name, and how many other calls there had been.
#[derive(Drop)]
struct Attached {
    name: String,
    calls: u64,
}

/// The calls so far: which disks were attached, in their order, and how many other calls there were. Contracts see
/// both.
#[derive(Drop)]
pub struct Calls {
    attached: Vec<Attached>,
    others: u64,
    alloc: Global,
}

impl Model for Calls {
    ghost use Rattle.ob_disk.specs.Calls.{DiskCalls, calls_of};

    ghost Value = { DiskCalls };

    ghost view = { calls_of };
}

impl Calls {
    /// No call was made yet.
    pub fn new(alloc: Global) -> Self
        ensures attaches { result.attaches ≡ [] }
        ensures others { result.others ≡ 0 }
    {
        Calls {
            attached: Vec::new(alloc),
            others: 0,
            alloc,
        }
    }

    /// Notes that the disk of this name was attached. Where memory runs out, it notes nothing.
    pub fn attach(&mut self, name: &str) -> Result<(), AllocError>
        ensures ok { OnOk result (self.new.attaches ≡ self.old.attaches
            ++ record { name = name.now; calls = self.old.others } ∷ []) }
        ensures err { OnErr result (self.new.attaches ≡ self.old.attaches) }
        ensures others { self.new.others ≡ self.old.others }
    {
        let name = String::from_str(self.alloc, name)?;
        self.attached.push(Attached {
            name,
            calls: self.others,
        })?;
        Ok(())
    }

    /// Counts a call that attaches no disk, up to the end of 64 bits.
    pub fn count(&mut self)
        ensures attaches { self.new.attaches ≡ self.old.attaches }
        ensures others { IsOneMore self.old.others self.new.others }
    {
        self.others = self.others.saturating_add(1);
    }
}
