//! Why no store is opened, or nothing is made ready for one.
use ob_base::ObjectId;

/// Why no store was opened.
#[derive(Clone, Copy)]
pub enum OpenError {
    /// One of the two areas is open and has no header.
    NotStore,
    /// Behind the open gate at this offset, counted from the disk's start, stands no record, or one whose payload says no
    /// changes of the content before it.
    Damaged(u64),
    /// The store is one of another program: the images first differ at this offset, or one ends there.
    OtherProgram(u64),
    /// The object of this number fails, and none before it does.
    NotAtRest(ObjectId),
    /// So many bytes are needed, and the area has this size.
    Room(u64, u64),
    /// A call of the disk failed.
    DiskFault,
    /// Memory ran out.
    Memory,
}

/// Why nothing was made ready for a store.
#[derive(Clone, Copy)]
pub enum PrepareError {
    /// So many bytes are needed, and the area has this size.
    Room(u64, u64),
    /// Memory ran out.
    Memory,
}
