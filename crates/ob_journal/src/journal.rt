//! The journal.
ghost use Rattle.std.specs.Prelude.{◌≡◌, ◌+◌, ◌<◌, ◌≤◌, ◌^◌, ◌≤ℤ◌, ◌<ℤ◌, ◌+ℤ◌, pos, length};
ghost use Rattle.ob_journal_spec.specs.Lasting.{last_serial};

use crate::appending::{close_record, put_record, record_of};
use crate::beginning::{header_of, open_first, put_area, put_front};
use crate::error::{AreaFault, BuildError, DiskFault, JournalError, ReadFault};
use crate::finding::{look_at_both, measure, read_area};
use crate::heads::Current;
use crate::place::AreaPlace;
use crate::recorded::Recorded;
use crate::records::{copied, survey_area};
use crate::spare::Spare;
use ob_base::Memory;
use ob_disk::Disk;
use std::alloc::Global;

/// Where the records of a store stand on a disk: in which of two areas of one size, and how far. It keeps no payload, and up to 16 MiB of
/// memory for the next move.
#[derive(Drop)]
pub struct Journal {
    area: u64,
    place: AreaPlace,
    serial: i64,
    image: Vec<u8>,
    gate: u64,
    // Whether the other area begins with a closed gate. A write over that might open it before unknown bytes.
    other_closed: bool,
    spare: Spare,
    ghost small: { area ≤ 2 ^ 31 },
    ghost within: { gate < area },
    ghost pictured: { 17 + length image.items < area },
    ghost counted: { pos 1 ≤ℤ serial },
}

/// A record that is built and not yet written.
#[derive(Drop)]
pub struct Built {
    bytes: Vec<u8>,
}

/// The front of an area that is being built for a move, up to the payload of its one record.
#[derive(Drop)]
pub struct AreaDraft {
    /// The bytes so far. The payload is to be put behind them.
    pub bytes: Vec<u8>,
}

/// An area with one record that is built for a move and not yet written.
#[derive(Drop)]
pub struct BuiltArea {
    bytes: Vec<u8>,
}

// The serial that follows another one. The last one is followed by none, and answered itself.
fn next_serial(serial: i64) -> i64
    ensures { serial <ℤ last_serial → result ≡ serial +ℤ pos 1 }
{
    if serial == i64::MAX {
        serial
    } else {
        serial + 1
    }
}

/// What is found on a disk.
#[derive(Drop)]
pub enum Found {
    /// Both areas are blank.
    Blank,
    /// The disk represents a journal, with these records.
    Current(Journal, Recorded),
}

impl Journal {
    ghost use Rattle.std.specs.Prelude.{◌≡◌, ◌+◌, ◌++◌, ◌∷◌, [], ℕ, List, length, IfOk, OnOk, OnErr};
    ghost use Rattle.ob_disk_spec.specs.Disk.{Reads, WrittenOver};
    ghost use Rattle.ob_disk_spec.specs.Durable.{May, Throughout, During, KeepsBehind};
    ghost use Rattle.ob_io.specs.Causes.{HasCause};
    ghost use Rattle.ob_journal_spec.specs.Disks.{start_of, IsWithOrWithout, IsMovedOrNot, IsBlankOrBegunDisk};
    ghost use Rattle.ob_journal.specs.Moments.{IsFresh, OpensByOne};
    ghost use Rattle.ob_journal.specs.Finding.{Finds, IsFoundIn, FaultsAs};
    ghost use Rattle.ob_journal.specs.Heads.{IsCurrent};
    ghost use Rattle.ob_journal.specs.Places.{place_in};
    ghost use Rattle.ob_journal.specs.Reading.{Counts};
    ghost use Rattle.ob_journal.specs.Rooms.{StaysWithoutRoom, NeedsNoRoom};
    ghost use Rattle.ob_journal.specs.Journals.{place_of, image_of, gate_of, next_offset, end_offset, area_size, journaled, Holds, bytes_built, IsBuilt, IsBuiltArea, IsBuiltFor, IsAreaFor, IsFront, IsDraftOf, IsDraftFor, Builds, BuildsArea, IsAppended, IsMoved, MovedOver, Begins};

    // The journal of the area that is current, and its records.
    fn current<D: Disk>(
        alloc: Global,
        disk: &mut D,
        area: u64,
        count: u64,
        place: AreaPlace,
        other_closed: bool,
    ) -> Result<Found, JournalError>
        requires small { area ≤ 2 ^ 31 }
        requires counts { Counts count (D.view disk.old) }
        requires settled { Throughout (D.view disk.old) (Reads (D.view disk.old)) }
        requires current { (c : List ℕ) → Reads (D.view disk.old) c → IsCurrent area (place_in place) other_closed c }
        ensures found { (c : List ℕ) → Reads (D.view disk.old) c → Finds area result c }
        ensures whole { IfOk result (λ found. IsFoundIn area found (D.view disk.new)) }
        ensures room { NeedsNoRoom result }
        ensures quiet { During (D.view disk.old) (D.view disk.new) (May (D.view disk.old)) }
        ensures behind { (size : ℕ) → KeepsBehind size (D.view disk.old) (D.view disk.new) }
        ensures attaches { (D.view disk.new).attaches ≡ (D.view disk.old).attaches }
        ensures cause { FaultsAs result (D.view disk.old).faults (D.view disk.new).faults }
    {
        let start = place.start(area);
        let bytes = match read_area(alloc, disk, start, area, count) {
            Ok(bytes) => bytes,
            Err(ReadFault::Disk) => return Err(JournalError::DiskFault),
            Err(ReadFault::Memory) => return Err(JournalError::Memory),
        };
        match survey_area(alloc, bytes.as_slice()) {
            Ok(read) => {
                let recorded = Recorded::new(bytes, 17 + read.image.len(), read.gate);
                let journal = Journal {
                    area,
                    place,
                    serial: read.serial,
                    image: read.image,
                    gate: read.gate as u64,
                    other_closed,
                    spare: Spare::new(alloc),
                };
                Ok(Found::Current(journal, recorded))
            }
            Err(AreaFault::NotStore) => Err(JournalError::NotStore),
            Err(AreaFault::Damaged(offset)) => Err(JournalError::Damaged(start + offset)),
            Err(AreaFault::Memory) => Err(JournalError::Memory),
        }
    }

    /// Which journal the two areas of a disk represent, and its records. It begins with a sync, so that what it reads is what a
    /// crash leaves, and writes nothing.
    pub fn find<D: Disk>(alloc: Global, disk: &mut D, area: u64) -> Result<Found, JournalError>
        requires some { 1 ≤ area }
        requires small { area ≤ 2 ^ 31 }
        ensures found { (c : List ℕ) → Reads (D.view disk.old) c → Finds area result c }
        ensures whole { IfOk result (λ found. IsFoundIn area found (D.view disk.new)) }
        ensures room { NeedsNoRoom result }
        ensures quiet { During (D.view disk.old) (D.view disk.new) (May (D.view disk.old)) }
        ensures behind { (size : ℕ) → KeepsBehind size (D.view disk.old) (D.view disk.new) }
        ensures attaches { (D.view disk.new).attaches ≡ (D.view disk.old).attaches }
        ensures cause { FaultsAs result (D.view disk.old).faults (D.view disk.new).faults }
    {
        let Ok(count) = measure(disk) else {
            return Err(JournalError::DiskFault);
        };
        match look_at_both(alloc, disk, area, count) {
            Ok(Current::Nothing) => Ok(Found::Blank),
            Ok(Current::NoStore) => Err(JournalError::NotStore),
            Ok(Current::At(place, other_closed)) => {
                Journal::current(alloc, disk, area, count, place, other_closed)
            }
            Err(ReadFault::Disk) => Err(JournalError::DiskFault),
            Err(ReadFault::Memory) => Err(JournalError::Memory),
        }
    }

    /// Begins the first area for this image on a blank disk. A crash in it, and an `Err`, leave the disk blank or begun. It
    /// writes the header with its two gates, and what follows them stays.
    pub fn begin<D: Disk>(
        alloc: Global,
        disk: &mut D,
        area: u64,
        image: &[u8],
    ) -> Result<Journal, JournalError>
        requires some { 1 ≤ area }
        requires small { area ≤ 2 ^ 31 }
        ensures begun { Begins area image.now result }
        ensures whole { IfOk result (λ journal. IsFresh area (D.view disk.old) → Holds journal [] (D.view disk.new)) }
        ensures opened { OnOk result (Throughout (D.view disk.new) OpensByOne) }
        ensures crash { IsFresh area (D.view disk.old) →
            During (D.view disk.old) (D.view disk.new) (IsBlankOrBegunDisk area image.now) }
        ensures room { StaysWithoutRoom (D.view disk.old) (D.view disk.new) result }
        ensures behind { KeepsBehind area (D.view disk.old) (D.view disk.new) }
        ensures only { KeepsBehind (18 + length image.now) (D.view disk.old) (D.view disk.new) }
        ensures attaches { (D.view disk.new).attaches ≡ (D.view disk.old).attaches }
        ensures cause { FaultsAs result (D.view disk.old).faults (D.view disk.new).faults }
    {
        let count = image.len() as u64;
        if count > area || count + 18 > area {
            return Err(JournalError::Room(count + 18, area));
        }
        let Ok(kept) = copied(alloc, image) else {
            return Err(JournalError::Memory);
        };
        let Ok(header) = header_of(alloc, 1, image) else {
            return Err(JournalError::Memory);
        };
        let Ok(other_closed) = open_first(disk, area, header.as_slice()) else {
            return Err(JournalError::DiskFault);
        };
        Ok(Journal {
            area,
            place: AreaPlace::First,
            serial: 1,
            image: kept,
            gate: count + 17,
            other_closed,
            spare: Spare::new(alloc),
        })
    }

    /// The bytes of the image.
    pub fn image(&self) -> &[u8]
        ensures { (payloads : List (List ℕ)) → result.now ≡ (journaled self.now payloads).image }
    {
        self.image.as_slice()
    }

    /// The serial of the area.
    pub fn serial(&self) -> i64
        ensures { (payloads : List (List ℕ)) → result ≡ (journaled self.now payloads).serial }
    {
        self.serial
    }

    /// The offset of the gate behind the records, from the area's start.
    pub fn gate(&self) -> u64
        ensures { result ≡ gate_of self.now }
    {
        self.gate
    }

    /// The offset of the gate of the first record, from the disk's start.
    pub fn records_offset(&self) -> u64
        ensures value { result ≡ start_of (area_size self.now) (place_of self.now) + (17 + length (image_of self.now)) }
        ensures small { result ≤ 2 ^ 33 }
    {
        self.place.start(self.area) + 17 + self.image.len() as u64
    }

    /// Keeps the memory of records that aren't read any more, for the next move.
    pub fn keep_memory(&self, recorded: Recorded) {
        self.spare.keep(recorded.bytes);
    }

    /// Builds the record of a payload. `Room` where it doesn't fit behind the others.
    pub fn build(&self, alloc: Global, payload: &[u8]) -> Result<Built, BuildError>
        ensures { Builds self.now payload.now result }
    {
        let need = self.gate + 6 + payload.len() as u64;
        if need > self.area {
            return Err(BuildError::Room(need, self.area));
        }
        let Ok(bytes) = record_of(alloc, payload) else {
            return Err(BuildError::Memory);
        };
        Ok(Built { bytes })
    }

    /// Begins to build the other area for a move. The payload of its one record is to be put behind the draft's bytes, so that
    /// it is written once. They have room for a whole area.
    pub fn draft_area(&self, alloc: Global) -> Result<AreaDraft, Memory>
        ensures { IfOk result (λ draft. IsFront self.now draft.bytes.items) }
    {
        let serial = next_serial(self.serial);
        let mut bytes = self.spare.take(alloc);
        bytes.reserve(self.area as usize)?;
        put_front(&mut bytes, serial, self.image.as_slice())?;
        Ok(AreaDraft { bytes })
    }

    /// Builds the other area for a move of a draft with the payload of its one record. `Room` where it would be larger than an
    /// area may be, or this one has the last serial.
    pub fn finish_area(&self, draft: AreaDraft) -> Result<BuiltArea, BuildError>
        requires { IsDraftFor self.now draft }
        ensures { (payload : List ℕ) → IsDraftOf self.now payload draft → BuildsArea self.now payload result }
    {
        let mut bytes = draft.bytes;
        let need = bytes.len() as u64 + 2;
        if need > self.area || self.serial == i64::MAX {
            self.spare.keep(bytes);
            return Err(BuildError::Room(need, self.area));
        }
        let Ok(()) = close_record(&mut bytes, self.image.len() + 17) else {
            return Err(BuildError::Memory);
        };
        Ok(BuiltArea { bytes })
    }

    /// Builds the other area for a move, with one record of a payload. `Room` where it would be larger than an area may be, or
    /// this one has the last serial.
    pub fn build_area(&self, alloc: Global, payload: &[u8]) -> Result<BuiltArea, BuildError>
        ensures { BuildsArea self.now payload.now result }
    {
        let need = self.image.len() as u64 + 23 + payload.len() as u64;
        if need > self.area || self.serial == i64::MAX {
            return Err(BuildError::Room(need, self.area));
        }
        let Ok(mut draft) = self.draft_area(alloc) else {
            return Err(BuildError::Memory);
        };
        if draft.bytes.extend_from_slice(payload).is_err() {
            return Err(BuildError::Memory);
        }
        self.finish_area(draft)
    }

    /// Appends a record. At `Ok` it is there for good. A crash in it, and an `Err`, leave the disk with it or without it, and
    /// what follows the area as it was. It takes no memory.
    pub fn append<D: Disk>(&mut self, disk: &mut D, built: Built) -> Result<(), DiskFault>
        requires { IsBuiltFor self.old built }
        ensures appended { OnOk result ((payload : List ℕ) → IsBuilt self.old payload built → IsAppended self.old payload self.new) }
        ensures whole { OnOk result ((payloads : List (List ℕ)) (payload : List ℕ) → IsBuilt self.old payload built →
            Holds self.old payloads (D.view disk.old) → Holds self.new (payloads ++ payload ∷ []) (D.view disk.new)) }
        ensures crash { (payloads : List (List ℕ)) (payload : List ℕ) → IsBuilt self.old payload built →
            Holds self.old payloads (D.view disk.old) → During (D.view disk.old) (D.view disk.new)
            (IsWithOrWithout (area_size self.old) (place_of self.old) (journaled self.old payloads) payload) }
        ensures written { OnOk result (Throughout (D.view disk.new)
            (WrittenOver (WrittenOver (Reads (D.view disk.old)) (next_offset self.old + 1) (bytes_built built))
            (next_offset self.old) (1 ∷ []))) }
        ensures err { OnErr result (self.new ≡ self.old) }
        ensures behind { KeepsBehind (end_offset self.old) (D.view disk.old) (D.view disk.new) }
        ensures attaches { (D.view disk.new).attaches ≡ (D.view disk.old).attaches }
        ensures cause { HasCause (D.view disk.old).faults (D.view disk.new).faults result }
    {
        let gate = self.place.start(self.area) + self.gate;
        let Ok(()) = put_record(disk, gate, built.bytes.as_slice()) else {
            return Err(DiskFault);
        };
        self.gate += built.bytes.len() as u64;
        Ok(())
    }

    /// Moves into the other area, which gets the next serial and one record. At `Ok` it is there for good. A crash in it, and an
    /// `Err`, leave the disk with the journal as it was or moved, and what follows the second area as it was. It takes no memory.
    pub fn move_to<D: Disk>(&mut self, disk: &mut D, built: BuiltArea) -> Result<(), DiskFault>
        requires { IsAreaFor self.old built }
        ensures moved { OnOk result ((payload : List ℕ) → IsBuiltArea self.old payload built → IsMoved self.old payload self.new) }
        ensures whole { OnOk result ((payloads : List (List ℕ)) (payload : List ℕ) → IsBuiltArea self.old payload built →
            Holds self.old payloads (D.view disk.old) → Holds self.new (payload ∷ []) (D.view disk.new)) }
        ensures crash { (payloads : List (List ℕ)) (payload : List ℕ) → IsBuiltArea self.old payload built →
            Holds self.old payloads (D.view disk.old) → During (D.view disk.old) (D.view disk.new)
            (IsMovedOrNot (area_size self.old) (place_of self.old) (journaled self.old payloads) payload) }
        ensures written { OnOk result (Throughout (D.view disk.new)
            (MovedOver (Reads (D.view disk.old)) self.old built)) }
        ensures err { OnErr result (self.new ≡ self.old) }
        ensures behind { KeepsBehind (area_size self.old + area_size self.old) (D.view disk.old) (D.view disk.new) }
        ensures attaches { (D.view disk.new).attaches ≡ (D.view disk.old).attaches }
        ensures cause { HasCause (D.view disk.old).faults (D.view disk.new).faults result }
    {
        let place = self.place.other();
        let start = place.start(self.area);
        let BuiltArea { bytes } = built;
        let Ok(()) = put_area(disk, start, self.other_closed, bytes.as_slice()) else {
            return Err(DiskFault);
        };
        self.place = place;
        self.serial += 1;
        self.gate = bytes.len() as u64;
        self.other_closed = false;
        self.spare.keep(bytes);
        Ok(())
    }
}
