//! What is written of a delta: the record of what differs, or a move with all of the content after it.
ghost use Rattle.std.specs.Prelude.{◌≡◌, ◌+◌, ℕ, List, OnOk, OnErr, IsTrue, is_ok};
ghost use Rattle.ob_code_table.specs.ImageTables.{table_of_image};
ghost use Rattle.ob_disk_spec.specs.Calls.{IsUntouched};
ghost use Rattle.ob_disk_spec.specs.Durable.{During, KeepsBehind};
ghost use Rattle.ob_heap.specs.Contents.{content_of};
ghost use Rattle.ob_heap.specs.Deltas.{IsDelta};
ghost use Rattle.ob_heap_spec.specs.Contents.{IsContent};
ghost use Rattle.ob_io.specs.Causes.{HasCause};
ghost use Rattle.ob_journal.specs.Journals.{area_size, Holds};
ghost use Rattle.ob_store_laws.specs.Recorded.{content_with};
ghost use Rattle.ob_store_spec.specs.Settling.{payload_of_all};
ghost use Rattle.ob_store.specs.Stores.{program_of};
ghost use Rattle.ob_store.specs.Preparing.{IsRecordIn, IsBuiltFor, BuildsAppend, BuildsMove, BuildsWhatDiffers};
ghost use Rattle.ob_store.specs.Committing.{IsWrittenTo, payloads_in, HoldsIn, KeepsBehindIn, StandsIn};
ghost use Rattle.ob_store.specs.Writing.{IsRecordOf, IsRecordFor, payloads_with, IsWritten, StandsWithOrWithout};

use crate::error::PrepareError;
use ob_code::Image;
use ob_disk::Disk;
use ob_heap::{Content, Delta};
use ob_journal::{BuildError, Built, BuiltArea, DiskFault, Journal};
use ob_store_payload::{put_payload, put_whole};
use std::alloc::Global;

/// What is built of a delta, to be written.
#[derive(Drop)]
pub enum BuiltChange {
    /// A record of what differs, behind the others.
    Append(Built),
    /// The other area, with one record of all of the content after the delta.
    Move(BuiltArea),
}

// Builds the record that says what differs after a delta. `None` where nothing does.
fn build_append(
    alloc: Global,
    code: &Image,
    content: &Content,
    journal: &Journal,
    delta: &Delta,
) -> Result<Option<Built>, BuildError>
    requires content { IsContent (table_of_image code.now) (content_of content.now) }
    requires delta { IsDelta content.now delta.now }
    ensures { BuildsAppend (program_of code.now) journal.now (content_of content.now) (content_with content.now delta.now) result }
{
    let Ok(payload) = put_payload(alloc, code, content, delta) else {
        return Err(BuildError::Memory);
    };
    let Some(payload) = payload else {
        return Ok(None);
    };
    match journal.build(alloc, payload.as_slice()) {
        Ok(built) => Ok(Some(built)),
        Err(error) => Err(error),
    }
}

// Builds the other area, with one record that says all of the content after a delta.
fn build_move(
    alloc: Global,
    code: &Image,
    content: &Content,
    journal: &Journal,
    delta: &Delta,
) -> Result<BuiltArea, BuildError>
    requires { IsDelta content.now delta.now }
    ensures { BuildsMove journal.now (payload_of_all (program_of code.now) (content_with content.now delta.now)) result }
{
    let Ok(mut draft) = journal.draft_area(alloc) else {
        return Err(BuildError::Memory);
    };
    let Ok(()) = put_whole(&mut draft.bytes, code, content, delta) else {
        return Err(BuildError::Memory);
    };
    match journal.finish_area(draft) {
        Ok(built) => Ok(built),
        Err(error) => Err(error),
    }
}

/// Builds what is written of a delta: the record of what differs, or, where that doesn't fit, the move. `None` where nothing
/// differs.
///
/// # Errors
///
/// `Room`, with what the record of what differs needs, where the move isn't possible either; `Memory` where memory ran out.
pub fn build_change(
    alloc: Global,
    code: &Image,
    content: &Content,
    journal: &Journal,
    delta: &Delta,
) -> Result<Option<BuiltChange>, PrepareError>
    requires content { IsContent (table_of_image code.now) (content_of content.now) }
    requires delta { IsDelta content.now delta.now }
    ensures { BuildsWhatDiffers (program_of code.now) journal.now (content_of content.now) (content_with content.now delta.now) result }
{
    match build_append(alloc, code, content, journal, delta) {
        Ok(None) => Ok(None),
        Ok(Some(built)) => Ok(Some(BuiltChange::Append(built))),
        Err(BuildError::Room(need, size)) => {
            match build_move(alloc, code, content, journal, delta) {
                Ok(built) => Ok(Some(BuiltChange::Move(built))),
                Err(BuildError::Room(_, _)) => Err(PrepareError::Room(need, size)),
                Err(BuildError::Memory) => Err(PrepareError::Memory),
            }
        }
        Err(BuildError::Memory) => Err(PrepareError::Memory),
    }
}

// Appends the record, or moves.
fn write_change<D: Disk>(
    journal: &mut Journal,
    disk: &mut D,
    built: BuiltChange,
) -> Result<(), DiskFault>
    requires { IsRecordFor journal.old built }
    ensures written { OnOk result ((payload : List ℕ) → IsRecordOf journal.old payload built → IsWritten journal.old payload built journal.new) }
    ensures whole { OnOk result ((payloads : List (List ℕ)) (payload : List ℕ) → IsRecordOf journal.old payload built →
        Holds journal.old payloads (D.view disk.old) → Holds journal.new (payloads_with payloads payload built) (D.view disk.new)) }
    ensures crash { (payloads : List (List ℕ)) (payload : List ℕ) → IsRecordOf journal.old payload built →
        Holds journal.old payloads (D.view disk.old) →
        During (D.view disk.old) (D.view disk.new) (StandsWithOrWithout journal.old payloads payload built) }
    ensures behind { KeepsBehind (area_size journal.old + area_size journal.old) (D.view disk.old) (D.view disk.new) }
    ensures attaches { (D.view disk.new).attaches ≡ (D.view disk.old).attaches }
    ensures err { OnErr result (journal.new ≡ journal.old) }
    ensures cause { HasCause (D.view disk.old).faults (D.view disk.new).faults result }
{
    match built {
        BuiltChange::Append(built) => {
            journal.append(disk, built)?;
            Ok(())
        }
        BuiltChange::Move(built) => {
            journal.move_to(disk, built)?;
            Ok(())
        }
    }
}

/// Writes what was built, where there is anything. It takes no memory.
pub fn write_in<D: Disk>(
    journal: &mut Option<Journal>,
    disk: &mut D,
    built: Option<BuiltChange>,
) -> Result<(), DiskFault>
    requires { IsBuiltFor journal.old built }
    ensures written { OnOk result ((payload : List ℕ) → IsRecordIn journal.old payload built → IsWrittenTo journal.old payload built journal.new) }
    ensures whole { OnOk result ((payloads : List (List ℕ)) (payload : List ℕ) → IsRecordIn journal.old payload built →
        HoldsIn journal.old payloads (D.view disk.old) → HoldsIn journal.new (payloads_in payloads payload built) (D.view disk.new)) }
    ensures crash { (payloads : List (List ℕ)) (payload : List ℕ) → IsRecordIn journal.old payload built →
        HoldsIn journal.old payloads (D.view disk.old) →
        During (D.view disk.old) (D.view disk.new) (StandsIn journal.old payloads payload built) }
    ensures sure { built ≡ None → IsTrue (is_ok result) }
    ensures none { built ≡ None → IsUntouched (D.view disk.old) (D.view disk.new) }
    ensures behind { KeepsBehindIn journal.old (D.view disk.old) (D.view disk.new) }
    ensures attaches { (D.view disk.new).attaches ≡ (D.view disk.old).attaches }
    ensures err { OnErr result (journal.new ≡ journal.old) }
    ensures cause { HasCause (D.view disk.old).faults (D.view disk.new).faults result }
{
    let Some(built) = built else {
        return Ok(());
    };
    let Some(journal) = journal else {
        return Ok(());
    };
    write_change(journal, disk, built)?;
    Ok(())
}
