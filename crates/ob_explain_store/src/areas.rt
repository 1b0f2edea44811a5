//! The two areas of a store, from the bytes of its disk.

use crate::records::{behind, is_open, serial_of};

/// The two areas of a store, each as far as the disk has it.
#[derive(Clone, Copy)]
pub struct Areas<'a> {
    first: &'a [u8],
    second: &'a [u8],
    // How many bytes each has at most.
    size: usize,
}

/// One of them, and where it begins on the disk.
#[derive(Clone, Copy)]
pub struct AreaAt<'a> {
    /// Its bytes.
    pub bytes: &'a [u8],
    /// The offset at which it begins.
    pub start: u64,
}

// Whether an area is open, and has no header.
fn lacks_header(bytes: &[u8]) -> bool {
    is_open(bytes) && serial_of(bytes) == 0
}

impl<'a> Areas<'a> {
    /// Those of a disk that begins with these bytes, where each area has a size.
    pub fn of(bytes: &'a [u8], size: usize) -> Areas<'a> {
        let second = behind(bytes, size);
        Areas {
            first: &bytes[..size.min(bytes.len())],
            second: &second[..size.min(second.len())],
            size,
        }
    }

    // The second one.
    fn second_at(&self) -> AreaAt<'a> {
        AreaAt {
            bytes: self.second,
            start: self.size as u64,
        }
    }

    // The first one.
    fn first_at(&self) -> AreaAt<'a> {
        AreaAt {
            bytes: self.first,
            start: 0,
        }
    }

    /// The one that is open and has no header, if one is so: the first, if both are.
    pub fn without_header(&self) -> AreaAt<'a> {
        if lacks_header(self.first) || !lacks_header(self.second) {
            self.first_at()
        } else {
            self.second_at()
        }
    }

    /// The one in which an offset of the disk is.
    pub fn around(&self, offset: u64) -> AreaAt<'a> {
        if offset < self.size as u64 {
            self.first_at()
        } else {
            self.second_at()
        }
    }

    /// The current one: of those that are open the one of the greater serial.
    pub fn current(&self) -> &'a [u8] {
        if serial_of(self.second) > serial_of(self.first) {
            self.second
        } else {
            self.first
        }
    }
}
