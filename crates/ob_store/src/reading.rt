//! A store is read without a write.
ghost use Rattle.std.specs.Prelude.{◌≡◌, ◌≤◌, ◌^◌, ℕ, List, IfOk};
ghost use Rattle.ob_code.specs.Images.{image};
ghost use Rattle.ob_code_table.specs.ImageTables.{table_of_image};
ghost use Rattle.ob_disk_spec.specs.Disk.{Reads};
ghost use Rattle.ob_disk_spec.specs.Durable.{KeepsBehind};
ghost use Rattle.ob_heap.specs.Contents.{content_of};
ghost use Rattle.ob_rest_spec.specs.AtRest.{IsStoreAtRest};
ghost use Rattle.ob_store.specs.Opening.{FaultsAs};
ghost use Rattle.ob_store.specs.Reading.{HoldsAs, NeedsNoArea, ReadsStore};
ghost use Rattle.ob_store.specs.Stores.{program_of};
ghost use Rattle.ob_store.specs.Unchanged.{KeepsBytes};

use crate::error::OpenError;
use crate::opening::{rebuilt, refused_by};
use crate::store::Store;
use ob_disk::Disk;
use ob_heap::Content;
use ob_journal::{Found, Journal};
use ob_verify::Verified;
use std::alloc::Global;

// What a store holds that was opened.
fn content_in(opened: Result<Store, OpenError>) -> Result<Content, OpenError>
    ensures { HoldsAs opened result }
{
    match opened {
        Ok(store) => {
            let Store { content, .. } = store;
            Ok(content)
        }
        Err(error) => Err(error),
    }
}

/// What the store holds that a disk with two areas of so many bytes each represents. It writes nothing: a blank disk, which represents
/// the empty store, stays blank.
///
/// # Errors
///
/// `NotStore`, `Damaged`, `OtherProgram` and `NotAtRest` exactly where the disk represents no store of this program, by their
/// definitions; never `Room`; `DiskFault` where a call of the disk failed; `Memory` where memory ran out.
pub fn read_store<D: Disk>(
    alloc: Global,
    disk: &mut D,
    code: &Verified,
    area: u64,
) -> Result<Content, OpenError>
    requires some { 1 ≤ area }
    requires small { area ≤ 2 ^ 31 }
    requires fits { image.fits code.now }
    ensures read { (c : List ℕ) → Reads (D.view disk.old) c → ReadsStore (program_of code.now) area result c }
    ensures area { NeedsNoArea result }
    ensures at_rest { IfOk result (λ content. IsStoreAtRest (table_of_image code.now) (content_of content)) }
    ensures quiet { KeepsBytes (D.view disk.old) (D.view disk.new) }
    ensures behind { (size : ℕ) → KeepsBehind size (D.view disk.old) (D.view disk.new) }
    ensures attaches { (D.view disk.new).attaches ≡ (D.view disk.old).attaches }
    ensures cause { FaultsAs result (D.view disk.old).faults (D.view disk.new).faults }
{
    match Journal::find(alloc, disk, area) {
        Ok(Found::Blank) => Ok(Content::new(alloc)),
        Ok(Found::Current(journal, recorded)) => {
            content_in(rebuilt(alloc, code.image(), journal, recorded))
        }
        Err(error) => Err(refused_by(error)),
    }
}
