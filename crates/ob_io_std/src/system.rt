//! What the system is asked of the file of a disk, one call at a time. Of the shipped program's files nothing is trusted but that each
//! of these calls does what it says.
ghost use Rattle.std.specs.Prelude.{◌≡◌, ◌≤◌, ◌∷◌, [], List, Option, length, take, IfOk};
ghost use Rattle.ob_io_std.specs.Calls.{Call, Adds, Does, Finds, kind_of, opened, kind, identity, descriptor, identity_of, locked, folder_synced, measured, read, written, synced};

use std::io;

/// What is done with a file.
#[derive(Clone, Copy, PartialEq, Eq)]
pub enum Access {
    /// It is read. One that is missing isn't made.
    ReadOnly,
    /// It is read and written. One that is missing is made, for its owner alone.
    ReadWrite,
}

/// Which file it is: the device on which it lies, and its number there.
#[derive(Clone, Copy, PartialEq, Eq)]
pub struct Identity {
    /// The device.
    pub device: u64,
    /// The number.
    pub inode: u64,
}

/// One file, which may be open, and the system that has it. Where none is open, each call that speaks of the file fails.
pub trait SystemFile {
    /// The calls so far, where they are observable.
    ghost calls: { Self → Option (List Call) };

    /// Whether the file of a name is a regular one. It opens none.
    fn kind_of(&mut self, name: &str) -> io::Result<bool>
        ensures { Finds (calls self.old) (calls self.new) result (kind_of name.now) };

    /// Opens the file of a name. One that was open is closed.
    fn open(&mut self, name: &str, access: Access) -> io::Result<()>
        ensures { Does (calls self.old) (calls self.new) result (λ done. opened name.now access) };

    /// Closes the file. Its lock goes with it.
    fn close(&mut self)
        ensures { Adds (calls self.old) (calls self.new) [] };

    /// Whether the file is a regular one.
    fn kind(&mut self) -> io::Result<bool>
        ensures { Does (calls self.old) (calls self.new) result kind };

    /// Which file it is.
    fn identity(&mut self) -> io::Result<Identity>
        ensures { Does (calls self.old) (calls self.new) result identity };

    /// The number under which it is open.
    fn descriptor(&mut self) -> io::Result<u32>
        ensures { Does (calls self.old) (calls self.new) result descriptor };

    /// Which file a name means; `NotFound` where it means none.
    fn identity_of(&mut self, name: &str) -> io::Result<Identity>
        ensures { Finds (calls self.old) (calls self.new) result (identity_of name.now) };

    /// Locks the file for this run alone, as long as it is open.
    fn lock(&mut self) -> io::Result<()>
        ensures { Does (calls self.old) (calls self.new) result (λ done. locked) };

    /// Brings the names in the folder of the file of a name to the disk for good.
    fn sync_folder(&mut self, name: &str) -> io::Result<()>
        ensures { Does (calls self.old) (calls self.new) result (λ done. folder_synced name.now) };

    /// How many bytes it has.
    fn len(&mut self) -> io::Result<u64>
        ensures { Does (calls self.old) (calls self.new) result measured };

    /// Reads bytes from an offset on, as many as it likes up to those that fit, and answers how many.
    fn read_at(&mut self, at: u64, into: &mut [u8]) -> io::Result<usize>
        ensures bound { IfOk result (λ n. n ≤ length into.new) }
        ensures bytes { Does (calls self.old) (calls self.new) result (λ n. read at (take n into.new)) };

    /// Writes a prefix of bytes from an offset on, as long as it likes, and answers how many bytes it has.
    fn write_at(&mut self, at: u64, bytes: &[u8]) -> io::Result<usize>
        ensures bound { IfOk result (λ n. n ≤ length bytes.now) }
        ensures bytes { Does (calls self.old) (calls self.new) result (λ n. written at (take n bytes.now)) };

    /// Brings the bytes and the length to the disk for good. The file's times needn't come with them.
    fn sync(&mut self) -> io::Result<()>
        ensures { Does (calls self.old) (calls self.new) result (λ done. synced) };
}
