//! A store is opened: begun on a blank disk, or rebuilt from its journal.
ghost use Rattle.std.specs.Prelude.{◌≡◌, ◌≤◌, ◌<◌, ◌+◌, ◌^◌, ⊤, ℕ, List, length, MatchOption, IfOk, OnOk};
ghost use Rattle.ob_base.specs.Limits.{most_objects, most_handles};
ghost use Rattle.ob_disk_spec.specs.Durable.{During, KeepsBehind};
ghost use Rattle.ob_code.specs.Images.{image};
ghost use Rattle.ob_heap.specs.Contents.{content_of};
ghost use Rattle.ob_heap_spec.specs.Contents.{IsContent};
ghost use Rattle.ob_journal_spec.specs.Areas.{Records};
ghost use Rattle.ob_journal_spec.specs.Disks.{IsBlankOrBegunDisk};
ghost use Rattle.ob_journal_spec.specs.Differing.{DifferAt};
ghost use Rattle.ob_journal.specs.Moments.{IsFresh};
ghost use Rattle.ob_journal.specs.Surveys.{HasPayloads};
ghost use Rattle.ob_code_table.specs.ImageTables.{table_of_image};
ghost use Rattle.ob_store_spec.specs.Payloads.{Changes};
ghost use Rattle.ob_store_spec.specs.Changes.{SaysChanges, with_changes};
ghost use Rattle.ob_store.specs.Stores.{program_of, StandsOn};
ghost use Rattle.ob_store.specs.Opening.{FaultsAs, refused_by, IndexesOrLacks, IsKeptContent, Follows, Replays, IsKeptIfOk, first_gate, Rebuilds, BeginsStore, StaysWithoutRoom};

use crate::error::OpenError;
use crate::store::{Store, index_owners};
use ob_base::Memory;
use ob_code::{Image, encode};
use ob_disk::Disk;
use ob_heap::{Content, apply, reserve};
use ob_journal::{Journal, JournalError, Recorded, first_record};
use ob_owners::{RestError, check_at_rest};
use ob_store_payload::{PayloadError, read_payload};
use std::alloc::Global;

/// Why no store is opened, where no journal is found or begun.
pub fn refused_by(error: JournalError) -> OpenError
    ensures { result ≡ refused_by error }
{
    match error {
        JournalError::NotStore => OpenError::NotStore,
        JournalError::Damaged(offset) => OpenError::Damaged(offset),
        JournalError::Room(need, size) => OpenError::Room(need, size),
        JournalError::DiskFault => OpenError::DiskFault,
        JournalError::Memory => OpenError::Memory,
    }
}

// The first offset at which two rows of bytes differ or one ends. `None` where they are the same.
fn first_difference(a: &[u8], b: &[u8]) -> Option<u64>
    ensures { MatchOption result (a.now ≡ b.now) (λ offset. DifferAt offset a.now b.now) }
{
    let common = a.len().min(b.len());
    for at in 0..common {
        if a[at] != b[at] {
            return Some(at as u64);
        }
    }
    if a.len() == b.len() {
        return None;
    }
    Some(common as u64)
}

// The content becomes the one after what a payload says of it.
fn follow(
    alloc: Global,
    code: &Image,
    content: &mut Content,
    payload: &[u8],
) -> Result<(), PayloadError>
    requires { IsKeptContent (table_of_image code.now) (content_of content.old) }
    ensures { Follows (table_of_image code.now) (content_of content.old) payload.now result (content_of content.new) }
{
    let delta = read_payload(alloc, code, content, payload)?;
    let Ok(()) = reserve(content, &delta) else {
        return Err(PayloadError::Memory);
    };
    apply(content, delta);
    Ok(())
}

// The content to which the payloads of records lead, of which the first one's gate is at this offset.
fn replay(alloc: Global, code: &Image, gate: u64, records: &[u8]) -> Result<Content, OpenError>
    requires { gate + length records.now < 2 ^ 62 }
    ensures replayed { (payloads : List (List ℕ)) → Records payloads records.now → Replays (table_of_image code.now) gate payloads result }
    ensures kept { IsKeptIfOk (table_of_image code.now) result }
{
    let mut content = Content::new(alloc);
    let mut rest = records;
    'records: while let Some((payload, after)) = first_record(rest) {
        match follow(alloc, code, &mut content, payload) {
            Ok(()) => rest = after,
            Err(PayloadError::Bad) => {
                let before = records.len() - rest.len();
                return Err(OpenError::Damaged(gate + before as u64));
            }
            Err(PayloadError::Memory) => return Err(OpenError::Memory),
        }
    }
    Ok(content)
}

// The content to which a journal's records lead. The bytes that were read are freed before it is tested, but for memory that the journal
// keeps.
fn replayed(
    alloc: Global,
    code: &Image,
    journal: &Journal,
    recorded: Recorded,
) -> Result<Content, OpenError>
    ensures replayed { (payloads : List (List ℕ)) → HasPayloads recorded payloads →
        Replays (table_of_image code.now) (first_gate journal.now) payloads result }
    ensures kept { IsKeptIfOk (table_of_image code.now) result }
{
    let content = replay(alloc, code, journal.records_offset(), recorded.records());
    journal.keep_memory(recorded);
    content
}

// The store with a content to which a journal's records lead.
fn kept_in(
    alloc: Global,
    code: &Image,
    content: Content,
    journal: Journal,
) -> Result<Store, OpenError>
    ensures { IndexesOrLacks (program_of code.now) content journal result }
{
    match index_owners(alloc, code, content, Some(journal)) {
        Ok(store) => Ok(store),
        Err(Memory) => Err(OpenError::Memory),
    }
}

/// The store that a journal represents with the records that were read, if it is one of this program and at rest.
pub fn rebuilt(
    alloc: Global,
    code: &Image,
    journal: Journal,
    recorded: Recorded,
) -> Result<Store, OpenError>
    requires { image.fits code.now }
    ensures { (payloads : List (List ℕ)) → HasPayloads recorded payloads → Rebuilds (program_of code.now) journal payloads result }
{
    let Ok(image) = encode(alloc, code) else {
        return Err(OpenError::Memory);
    };
    if let Some(offset) = first_difference(journal.image(), image.as_slice()) {
        return Err(OpenError::OtherProgram(offset));
    }
    let content = replayed(alloc, code, &journal, recorded)?;
    match check_at_rest(alloc, code, &content) {
        Ok(()) => kept_in(alloc, code, content, journal),
        Err(RestError::NotAtRest(id)) => Err(OpenError::NotAtRest(id)),
        Err(RestError::Memory) => Err(OpenError::Memory),
    }
}

/// Begins the first area of a blank disk for an empty store of a program.
pub fn begin_store<D: Disk>(
    alloc: Global,
    disk: &mut D,
    code: &Image,
    area: u64,
) -> Result<Store, OpenError>
    requires some { 1 ≤ area }
    requires small { area ≤ 2 ^ 31 }
    requires fits { image.fits code.now }
    ensures begun { BeginsStore (program_of code.now) area result }
    ensures room { StaysWithoutRoom (D.view disk.old) (D.view disk.new) result }
    ensures stands { IfOk result (λ store. IsFresh area (D.view disk.old) → StandsOn (program_of code.now) store (D.view disk.new)) }
    ensures crash { IsFresh area (D.view disk.old) → During (D.view disk.old) (D.view disk.new)
        (IsBlankOrBegunDisk area (image.bytes code.now)) }
    ensures behind { KeepsBehind area (D.view disk.old) (D.view disk.new) }
    ensures attaches { (D.view disk.new).attaches ≡ (D.view disk.old).attaches }
    ensures cause { FaultsAs result (D.view disk.old).faults (D.view disk.new).faults }
{
    let Ok(image) = encode(alloc, code) else {
        return Err(OpenError::Memory);
    };
    let Ok(mut store) = index_owners(alloc, code, Content::new(alloc), None) else {
        return Err(OpenError::Memory);
    };
    match Journal::begin(alloc, disk, area, image.as_slice()) {
        Ok(journal) => {
            store.journal = Some(journal);
            Ok(store)
        }
        Err(error) => Err(refused_by(error)),
    }
}
