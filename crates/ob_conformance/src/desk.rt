//! What steps on a disk in memory come to: of a journal on it, and of whole runs over it.
ghost use Rattle.std.specs.Prelude.{◌≤◌, ◌^◌};

use crate::area::serve_on;
use crate::lanes::lanes_on;
use crate::owners::owners_on;
use crate::page::Page;
use crate::question::Question;
use crate::slices::slices_on;
use crate::whole::run_over;
use ob_disk::{Disk, MemoryDisk};
use ob_journal::{BuildError, DiskFault, Found, Journal, JournalError, Recorded, first_record};
use std::alloc::Global;

/// The most bytes that an area may have.
const MOST_AREA: u64 = 1 << 31;
/// How many bytes a disk holds.
const ROOM: u64 = 1 << 33;

// The size of an area that the next word tells.
fn area_in(asked: &mut Question<'_>, page: &mut Page) -> u64
    ensures some { 1 ≤ result }
    ensures small { result ≤ 2 ^ 31 }
{
    let area = asked.number(page);
    if area == 0 || area > MOST_AREA {
        page.fail();
        return MOST_AREA;
    }
    area
}

// Puts what a journal says.
fn put_journal(journal: &Journal, page: &mut Page) {
    page.word("serial");
    page.show(&journal.serial());
    page.bytes(journal.image());
    page.number(journal.gate());
}

// Puts the payloads of the records that were read.
fn put_payloads(recorded: &Recorded, page: &mut Page) {
    let mut records = recorded.records();
    'records: while let Some((payload, behind)) = first_record(records) {
        page.bytes(payload);
        records = behind;
    }
}

// Puts why there is no journal.
fn put_error(error: JournalError, page: &mut Page) {
    match error {
        JournalError::Memory => page.fail(),
        _ => page.name(&error),
    }
}

// Puts why nothing was built.
fn put_unbuilt(error: BuildError, page: &mut Page) {
    match error {
        BuildError::Memory => page.fail(),
        _ => page.name(&error),
    }
}

// Puts what a journal says once it is written to, or why it isn't.
fn put_written(written: Result<(), DiskFault>, journal: &Journal, page: &mut Page) {
    match written {
        Ok(()) => put_journal(journal, page),
        Err(error) => page.name(&error),
    }
}

// Appends a record to a journal.
fn append(
    alloc: Global,
    journal: &mut Journal,
    disk: &mut MemoryDisk,
    payload: &[u8],
    page: &mut Page,
) {
    match journal.build(alloc, payload) {
        Ok(built) => put_written(journal.append(disk, built), journal, page),
        Err(error) => put_unbuilt(error, page),
    }
}

// Moves a journal into the other area, with one record.
fn move_to(
    alloc: Global,
    journal: &mut Journal,
    disk: &mut MemoryDisk,
    payload: &[u8],
    page: &mut Page,
) {
    match journal.build_area(alloc, payload) {
        Ok(built) => put_written(journal.move_to(disk, built), journal, page),
        Err(error) => put_unbuilt(error, page),
    }
}

/// A disk, and the journal that was found or begun on it.
#[derive(Drop)]
struct Desk {
    alloc: Global,
    area: u64,
    disk: MemoryDisk,
    journal: Option<Journal>,
    ghost some: { 1 ≤ area },
    ghost small: { area ≤ 2 ^ 31 },
}

impl Desk {
    // A disk without a byte takes the place of this one: of its calls these will fail.
    fn clear(&mut self, asked: &mut Question<'_>, page: &mut Page) {
        self.journal = None;
        self.disk = MemoryDisk::new(self.alloc, ROOM, asked.numbers(self.alloc, page));
    }

    // Bytes are on the disk for good, from an offset on.
    fn write(&mut self, asked: &mut Question<'_>, page: &mut Page) {
        let offset = asked.number(page);
        let bytes = asked.bytes(self.alloc, page);
        if offset >= MOST_AREA || self.disk.write(offset, &bytes).is_err() {
            page.fail();
        }
        self.disk.stop(0);
    }

    // Stops the disk. The journal isn't known behind it.
    fn stop(&mut self, asked: &mut Question<'_>, page: &mut Page) {
        self.journal = None;
        self.disk.stop(asked.number(page));
    }

    // Puts what a journal says, and keeps it.
    fn keep(&mut self, journal: Journal, page: &mut Page) {
        put_journal(&journal, page);
        self.journal = Some(journal);
    }

    fn find(&mut self, page: &mut Page) {
        self.journal = None;
        match Journal::find(self.alloc, &mut self.disk, self.area) {
            Ok(Found::Blank) => page.word("blank"),
            Ok(Found::Current(journal, recorded)) => {
                self.keep(journal, page);
                put_payloads(&recorded, page);
            }
            Err(error) => put_error(error, page),
        }
    }

    fn begin(&mut self, asked: &mut Question<'_>, page: &mut Page) {
        self.journal = None;
        let image = asked.bytes(self.alloc, page);
        match Journal::begin(self.alloc, &mut self.disk, self.area, &image) {
            Ok(journal) => self.keep(journal, page),
            Err(error) => put_error(error, page),
        }
    }

    // Appends a record to the journal, if there is one.
    fn append(&mut self, asked: &mut Question<'_>, page: &mut Page) {
        let payload = asked.bytes(self.alloc, page);
        match &mut self.journal {
            Some(journal) => append(self.alloc, journal, &mut self.disk, &payload, page),
            None => page.word("none"),
        }
    }

    // Moves the journal into the other area with one record, if there is a journal.
    fn move_to(&mut self, asked: &mut Question<'_>, page: &mut Page) {
        let payload = asked.bytes(self.alloc, page);
        match &mut self.journal {
            Some(journal) => move_to(self.alloc, journal, &mut self.disk, &payload, page),
            None => page.word("none"),
        }
    }

    // Serves lines over a store on the disk. What journal there is isn't known behind it.
    fn serve(&mut self, asked: &mut Question<'_>, page: &mut Page) {
        self.journal = None;
        serve_on(self.alloc, asked, &mut self.disk, self.area, page);
    }

    // Runs requests in slices upon the store on the disk.
    fn run_sliced(&mut self, asked: &mut Question<'_>, page: &mut Page) {
        self.journal = None;
        slices_on(self.alloc, asked, &mut self.disk, self.area, page);
    }

    // Runs batches in lanes upon the store on the disk.
    fn run_lanes(&mut self, asked: &mut Question<'_>, page: &mut Page) {
        self.journal = None;
        lanes_on(self.alloc, asked, &mut self.disk, self.area, page);
    }

    // Puts owners in the store on the disk, after lines.
    fn put_owners(&mut self, asked: &mut Question<'_>, page: &mut Page) {
        self.journal = None;
        owners_on(self.alloc, asked, &mut self.disk, self.area, page);
    }

    fn take(&mut self, asked: &mut Question<'_>, page: &mut Page) {
        match asked.word() {
            "area" => self.area = area_in(asked, page),
            "clear" => self.clear(asked, page),
            "write" => self.write(asked, page),
            "stop" => self.stop(asked, page),
            "find" => self.find(page),
            "begin" => self.begin(asked, page),
            "append" => self.append(asked, page),
            "move" => self.move_to(asked, page),
            "serve" => self.serve(asked, page),
            "slices" => self.run_sliced(asked, page),
            "lanes" => self.run_lanes(asked, page),
            "owners" => self.put_owners(asked, page),
            "show" => page.bytes(self.disk.bytes()),
            "faults" => page.number(self.disk.faults()),
            "run" => run_over(self.alloc, asked, &mut self.disk, page),
            _ => page.fail(),
        }
    }
}

/// What steps come to, a `;` behind each. First there is a disk without a byte, none of whose calls fails.
pub fn steps(alloc: Global, asked: &mut Question<'_>, page: &mut Page) {
    let mut desk = Desk {
        alloc,
        area: MOST_AREA,
        disk: MemoryDisk::new(alloc, ROOM, Vec::new(alloc)),
        journal: None,
    };
    for step in asked.rest().split(';') {
        desk.take(&mut Question::of(step), page);
        page.word(";");
    }
}
