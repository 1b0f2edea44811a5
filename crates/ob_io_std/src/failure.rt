//! What the system answered where a call failed. No clause speaks of it: a person is told of the fault by it.
use std::io;

/// What was asked of the system.
#[derive(Clone, Copy, PartialEq, Eq)]
pub enum SystemCall {
    /// Memory, to note the name of a disk.
    Note,
    /// To open a file, or to make it.
    Open,
    /// Which kind of file it is; only a regular one is taken.
    Kind,
    /// Whether a file has a number of its own, above those of the standard streams.
    Descriptor,
    /// Which files this run has open, by /proc.
    Proc,
    /// Whether a file is none of the standard streams of this run.
    Stream,
    /// Whether a file is none of the others that the run names.
    Other,
    /// To lock a file.
    Lock,
    /// Whether a name still means the file that was locked.
    Name,
    /// To bring the names in a file's folder to the disk.
    Folder,
    /// How long a file is.
    Length,
    /// To read.
    Read,
    /// To write.
    Write,
    /// To bring what was written to the disk.
    Sync,
}

/// A call that failed.
#[derive(Clone, Copy)]
pub struct Failure {
    /// What was asked.
    pub call: SystemCall,
    /// What was answered.
    pub error: io::Error,
}
