//! Why a journal isn't found, begun or written to.

/// Why no journal was found or begun.
#[derive(Clone, Copy, Debug)]
pub enum JournalError {
    /// One of the two areas is open and has no header.
    NotStore,
    /// Behind the open gate at this offset stands no record.
    Damaged(u64),
    /// So many bytes are needed, and the area has this size.
    Room(u64, u64),
    /// A call of the disk failed.
    DiskFault,
    /// Memory ran out.
    Memory,
}

/// Why no record was built.
#[derive(Clone, Copy, Debug)]
pub enum BuildError {
    /// So many bytes are needed, and the area has this size.
    Room(u64, u64),
    /// Memory ran out.
    Memory,
}

/// A call of the disk failed.
#[derive(Clone, Copy, Debug)]
pub struct DiskFault;

/// Why an area says nothing.
#[derive(Clone, Copy)]
pub enum AreaFault {
    /// It isn't open, or has no header.
    NotStore,
    /// Behind the open gate at this offset stands no record.
    Damaged(u64),
    /// Memory ran out.
    Memory,
}

/// Why the front of a disk wasn't read.
#[derive(Clone, Copy)]
pub enum ReadFault {
    /// A call of the disk failed.
    Disk,
    /// Memory ran out.
    Memory,
}
