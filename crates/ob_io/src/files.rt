//! The files that are read whole.
ghost use Rattle.std.specs.Prelude.{◌≡◌, ◌≢◌, ◌+◌, ◌≤◌, ℕ, List, OnOk, OnErr, IsErrOf};
ghost use Rattle.ob_io.specs.Causes.{Rose};
ghost use Rattle.ob_io.specs.Files.{AppendsContent, NotesAsk};
ghost use Rattle.ob_io.specs.Views.{FilesView};

use std::alloc::AllocError;

/// Why a file wasn't read.
#[derive(Clone, Copy, PartialEq, Eq, Debug)]
pub enum FileError {
    /// There is no such file, or it can't be read.
    Failed,
    /// Memory ran out.
    Memory,
}

impl From<AllocError> for FileError {
    ghost use Rattle.std.specs.Prelude.{◌≡◌};
    ghost use Rattle.ob_io.specs.declared.files.FileError.TheVariants.{Memory};

    ghost from_gives = { λ _ e. e ≡ Memory };

    fn from(_: AllocError) -> Self {
        FileError::Memory
    }
}

/// Files by name.
pub trait Files {
    /// What the file of each name contains, where that is observable, what was asked, call by call, and how often a read
    /// failed.
    ghost view: { Self → FilesView };

    /// Appends what the file contains, cut after `limit` bytes. An error leaves `into` as it was.
    /// What is asked is noted before anything is read; only a call that answers `Memory` may lack its note.
    /// `Failed` comes only where the count of faults rose, by one at most. `Ok` and `Memory` leave the count.
    fn read(&mut self, name: &str, limit: usize, into: &mut Vec<u8>) -> Result<(), FileError>
        ensures ok { OnOk result
            (AppendsContent ((view self.old).content name.now) limit into.old.items into.new.items) }
        ensures err { OnErr result (into.new.items ≡ into.old.items) }
        ensures asks { NotesAsk (view self.old).asks (view self.new).asks
            (record { name = name.now; limit = limit }) result }
        ensures same { (other : List ℕ) → (view self.new).content other ≡ (view self.old).content other }
        ensures later { (view self.old).faults ≤ (view self.new).faults }
        ensures cause { IsErrOf result FileError.Failed → Rose (view self.old).faults (view self.new).faults }
        ensures calm { result ≢ Err FileError.Failed → (view self.new).faults ≡ (view self.old).faults }
        ensures once { (view self.new).faults ≤ (view self.old).faults + 1 };
}
