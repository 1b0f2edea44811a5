//! A disk of which is noted what stands on it as it is opened.

use crate::records::{Records, is_open, serial_of};
use ob_base::{AREA_BYTES, Failed};
use ob_disk::Disk;
use ob_io_std::{FileDisk, StdFile};
use std::cell::Cell;
use std::io;

/// How many bytes of a disk are looked at, to see whether one behind its first isn't 0: those of both areas.
const LOOKED_AT: u64 = 2 * AREA_BYTES;

/// How many of them at a time.
const PIECE: usize = 4096;

/// What stands on a disk as a store is opened there.
#[derive(Clone, Copy)]
pub struct Front {
    /// How many bytes the disk has.
    pub length: u64,
    /// Whether it is blank, so that a store is begun there.
    pub blank: bool,
    /// Whether its first byte is a closed gate, and a byte behind that isn't 0.
    pub covered: bool,
    /// How many records the current area has.
    pub records: u64,
    /// How many bytes that area has up to the gate behind its records, and with it.
    pub used: usize,
    /// How many of them there were when the store had just moved there: the header, and all that it held then; 0 where it never moved.
    pub moved: usize,
    // How many bytes this is known by.
    read: usize,
}

// What is known of a disk of so many bytes of which none was read.
fn unread(length: u64) -> Front {
    Front {
        length,
        blank: true,
        covered: false,
        records: 0,
        used: 0,
        moved: 0,
        read: 0,
    }
}

// What is known of a disk of so many bytes by these, from the start of an area on.
fn front_of(length: u64, bytes: &[u8]) -> Front {
    let mut records = Records::of(bytes);
    let _ = records.step();
    let first = records.gate.saturating_add(1);
    records.pass(bytes.len());
    Front {
        length,
        blank: !is_open(bytes),
        covered: false,
        records: records.count,
        used: records.gate.saturating_add(1),
        moved: if serial_of(bytes) > 1 { first } else { 0 },
        read: bytes.len(),
    }
}

/// A disk that is looked at for a person.
pub trait Shown {
    /// Reads bytes from an offset on, as they stand. It is no call of the disk, and counts as none.
    fn show(&self, at: u64, into: &mut [u8]) -> io::Result<()>;
}

impl<'a, R> Shown for FileDisk<'a, StdFile<R>> {
    fn show(&self, at: u64, into: &mut [u8]) -> io::Result<()> {
        self.look(at, into)
    }
}

// Whether all bytes are 0.
fn is_zero(bytes: &[u8]) -> bool {
    for byte in bytes {
        if *byte != 0 {
            return false;
        }
    }
    true
}

// Whether a byte of a disk of so many isn't 0, as far as they can be read.
fn is_written<D: Shown>(disk: &D, length: u64) -> bool {
    let most = length.min(LOOKED_AT);
    let mut piece = [0; PIECE];
    for number in 0..most.div_ceil(PIECE as u64) {
        let at = number.saturating_mul(PIECE as u64);
        let count = most.saturating_sub(at).min(PIECE as u64) as usize;
        if disk.show(at, &mut piece[..count]).is_err() {
            return false;
        }
        if !is_zero(&piece[..count]) {
            return true;
        }
    }
    false
}

/// A disk, each of whose calls is one of the disk that it holds. Beside that it notes for a person how long the disk is, whether bytes
/// stand behind a closed gate at its start, and the most bytes that are read of it at once: those are the current area, if there is one.
#[derive(Drop)]
pub struct Watched<'a, D> {
    disk: D,
    front: &'a Cell<Option<Front>>,
}

impl<'a, D> Watched<'a, D> {
    /// A disk that is watched, and where it is noted what stands there.
    pub fn new(disk: D, front: &'a Cell<Option<Front>>) -> Self {
        Watched { disk, front }
    }

    /// The disk.
    pub fn disk(&self) -> &D {
        &self.disk
    }

    // Notes how long the disk is, when that is first told.
    fn note_length(&self, told: &Result<u64, Failed>) {
        if let Ok(length) = told {
            if self.front.get().is_none() {
                self.front.set(Some(unread(*length)));
            }
        }
    }
}

impl<'a, D: Shown> Watched<'a, D> {
    // Whether bytes stand behind a closed gate at the start of a disk of so many, from which on these bytes are read.
    fn is_covered(&self, length: u64, bytes: &[u8]) -> bool {
        matches!(bytes, [0, ..]) && is_written(&self.disk, length)
    }

    // Notes bytes that are read from an offset on, if they are more than before.
    fn note(&self, at: u64, bytes: &[u8]) {
        let known = match self.front.get() {
            Some(front) => front,
            None => unread(0),
        };
        if bytes.len() > known.read {
            let mut front = front_of(known.length, bytes);
            front.covered = known.covered || at == 0 && self.is_covered(known.length, bytes);
            self.front.set(Some(front));
        }
    }
}

impl<'a, D: Disk + Shown> Disk for Watched<'a, D> {
    ghost view = { λ watched. D.view watched.disk };

    ghost only_now = { λ watched c left. D.only_now watched.disk c left };

    ghost counts_now = { λ watched t c le left. D.counts_now watched.disk t c le left };

    ghost own = { λ watched bytes c reads left. D.own watched.disk bytes c reads left };

    fn attach(&mut self, name: &str) -> Result<(), Failed> {
        self.disk.attach(name)
    }

    fn len(&mut self) -> Result<u64, Failed> {
        let told = self.disk.len();
        self.note_length(&told);
        told
    }

    fn read(&mut self, at: u64, into: &mut [u8]) -> Result<(), Failed> {
        let done = self.disk.read(at, into);
        if done.is_ok() {
            self.note(at, into);
        }
        done
    }

    fn write(&mut self, at: u64, bytes: &[u8]) -> Result<(), Failed> {
        self.disk.write(at, bytes)
    }

    fn sync(&mut self) -> Result<(), Failed> {
        self.disk.sync()
    }
}
