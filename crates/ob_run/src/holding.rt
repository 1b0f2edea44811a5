//! The trial is held.
ghost use Rattle.std.specs.Prelude.{◌≡◌, ◌+◌, ◌≤◌, ◌^◌, ℕ, List, Ok, Some, length, IfOk, OnOk};
ghost use Rattle.ob_code.specs.Images.{image};
ghost use Rattle.ob_disk.specs.Sure.{sure_disk_view};
ghost use Rattle.ob_disk_spec.specs.Disk.{Reads};
ghost use Rattle.ob_heap.specs.Contents.{content_of};
ghost use Rattle.ob_code_table.specs.ImageTables.{table_of_image};
ghost use Rattle.ob_rest_spec.specs.AtRest.{IsStoreAtRest};
ghost use Rattle.ob_serve.specs.Kept.{IsServable, IsSoundFor};
ghost use Rattle.ob_serve.specs.Standing.{source_program};
ghost use Rattle.ob_silica_steps.specs.Configurations.{SilicaProgram};
ghost use Rattle.ob_store.specs.Stores.{area_of_store, kept_of, program_of, state_of, StandsOn};
ghost use Rattle.ob_store_spec.specs.Stores.{IsStoreOf};
ghost use Rattle.ob_run.specs.Holding.{IsUnrefused, EndsUnlessMemory};
ghost use Rattle.ob_run.specs.Kinds.{lines_of_replies, CountsReplies};
ghost use Rattle.ob_run.specs.Trials.{IsTrial};
ghost use Rattle.ob_wire.specs.declared.reply.Reply.{Reply};

use crate::counting::counts_of;
use crate::counts::Counts;
use ob_base::Memory;
use ob_client::trial_lines;
use ob_disk::SureDisk;
use ob_io::{SureSink, SureSource};
use ob_serve::{Limits, Served, serve};
use ob_store::{OpenError, Store};
use ob_verify::Verified;
use std::alloc::Global;

// No store was opened, for the one cause that is left.
fn out_of_memory(error: OpenError) -> Memory
    requires { error ≡ OpenError.Memory }
{
    let _ = error;
    Memory
}

// Opens the store that a disk represents, or none where its bytes aren't observable, since memory ran out.
fn open_told(
    alloc: Global,
    disk: &mut SureDisk,
    code: &Verified,
    area: u64,
) -> Result<Store, Memory>
    requires small { area ≤ 2 ^ 31 }
    requires room { 18 + length (image.bytes code.now) ≤ area }
    requires fits { image.fits code.now }
    requires unrefused { IsUnrefused (program_of code.now) area (sure_disk_view disk.old) }
    ensures told { IfOk result (λ store. (c : List ℕ) × Reads (sure_disk_view disk.old) c
        × IsStoreOf (program_of code.now) area c (state_of store)) }
    ensures area { IfOk result (λ store. area_of_store store ≡ Some area) }
    ensures at_rest { IfOk result (λ store. IsStoreAtRest (table_of_image code.now) (content_of (kept_of store))) }
    ensures stands { IfOk result (λ store. StandsOn (program_of code.now) store (sure_disk_view disk.new)) }
{
    let Some(_told) = disk.bytes() else {
        return Err(Memory);
    };
    match Store::open_store(alloc, disk, code, area) {
        Ok(store) => Ok(store),
        // The disk is refused for no cause, never fails, and has room for an area that is begun.
        Err(error) => Err(out_of_memory(error)),
    }
}

// Whether a session was read to its end. Where its streams and its disk never fail and its input is short, memory ran out otherwise.
fn end_of(served: Served) -> Result<(), Memory>
    requires { EndsUnlessMemory served }
    ensures { OnOk result (served ≡ Served.Done) }
{
    match served {
        Served::Done => Ok(()),
        Served::Memory => Err(Memory),
        Served::ReadFault => unreachable!(),
        Served::WriteFault => unreachable!(),
        Served::DiskFault => unreachable!(),
        Served::Long => unreachable!(),
    }
}

// The numbers of these replies and of a store.
fn counts_with_store(replies: &[u8], store: &Store) -> Counts
    ensures { (rs : List Reply) → replies.now ≡ lines_of_replies rs →
        CountsReplies rs (length (state_of store.now).content.objects) (length (state_of store.now).content.handles) result }
{
    let content = store.content();
    counts_of(
        replies,
        content.objects().len() as u64,
        content.count_handles() as u64,
    )
}

/// Holds the trial of this length: serves its lines by sound code, with these limits, on a blank store in two areas of so many bytes each,
/// on a disk in memory. The store after the last line is the one that the disk then represents.
///
/// # Errors
///
/// `Memory` where memory ran out.
pub fn hold_trial(
    alloc: Global,
    code: &Verified,
    limits: Limits,
    area: u64,
    trial_length: u32,
) -> Result<Counts, Memory>
    requires servable { IsServable code.now }
    requires fits { image.fits code.now }
    requires room { 18 + length (image.bytes code.now) ≤ area }
    requires small { area ≤ 2 ^ 31 }
    requires lanes { 1 ≤ limits.lanes }
    requires most_lanes { limits.lanes ≤ 8 }
    requires slice { 1 ≤ limits.slice }
    ensures { IfOk result (λ counts. (program : SilicaProgram) → IsSoundFor program code.now →
        IsTrial (source_program program.table code.now) code.now limits area trial_length counts) }
{
    let mut input = SureSource::new(trial_lines(alloc, trial_length)?);
    let mut output = SureSink::new(alloc, usize::MAX);
    let mut disk = SureDisk::new(alloc, area + area);
    let mut store = open_told(alloc, &mut disk, code, area)?;
    let served = serve(
        alloc,
        code,
        &mut store,
        limits,
        &mut input,
        &mut output,
        &mut disk,
    );
    end_of(served)?;
    let after = open_told(alloc, &mut disk, code, area)?;
    let Some(replies) = output.bytes() else {
        return Err(Memory);
    };
    Ok(counts_with_store(replies, &after))
}
