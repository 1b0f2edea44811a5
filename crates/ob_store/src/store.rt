//! The store.
ghost use Rattle.std.specs.Prelude.{◌≡◌, ◌≤◌, ◌+◌, ◌^◌, ◌⊎◌, ℕ, List, IfOk, OnOk, OnErr, IsTrue, is_ok, Some};
ghost use Rattle.ob_disk_spec.specs.Disk.{Reads};
ghost use Rattle.ob_disk_spec.specs.Durable.{May, During, KeepsBehind};
ghost use Rattle.ob_disk_spec.specs.Calls.{IsUntouched};
ghost use Rattle.ob_heap.specs.Contents.{content_of};
ghost use Rattle.ob_heap.specs.Deltas.{IsDelta};
ghost use Rattle.ob_heap_spec.specs.Contents.{IsContent, empty_content};
ghost use Rattle.ob_io.specs.Causes.{HasCause};
ghost use Rattle.ob_journal_spec.specs.Disks.{IsBlankDisk, IsBlankOrBegunDisk};
ghost use Rattle.ob_code.specs.Images.{image};
ghost use Rattle.ob_code_table.specs.ImageTables.{table_of_image};
ghost use Rattle.ob_rest_spec.specs.AtRest.{IsStoreAtRest};
ghost use Rattle.ob_store_laws.specs.Recorded.{content_with, IsStorable};
ghost use Rattle.ob_store_spec.specs.Settling.{settled};
ghost use Rattle.ob_store_spec.specs.Stores.{StoreProgram};
ghost use Rattle.ob_store.specs.Stores.{program_of, area_of_store, kept_of, state_of, HasImage, TellsOwners, StandsOn, IsSameStore};
ghost use Rattle.ob_store.specs.Unchanged.{KeepsBytes};
ghost use Rattle.ob_store.specs.Opening.{IsIndexed, Opens, LacksArea, StaysUnlessBlank, FaultsAs};
ghost use Rattle.ob_store.specs.Preparing.{delta_prepared, IsBuiltForStore, WritesNothing, IsPrepared, Prepares, HasRoomFor};
ghost use Rattle.ob_store.specs.Committing.{IsReady, StandsBeforeOrAfter};

use crate::error::{OpenError, PrepareError};
use crate::opening::{begin_store, rebuilt, refused_by};
use crate::writing::{BuiltChange, build_change, write_in};
use ob_base::Memory;
use ob_code::Image;
use ob_disk::Disk;
use ob_heap::{Content, Delta, apply, reserve};
use ob_journal::{DiskFault, Found, Journal};
use ob_owners::Owners;
use ob_verify::Verified;
use std::alloc::Global;

/// A store: its content in memory with an index of its owners and, where it is kept on a disk, the journal whose records lead to it.
#[derive(Drop)]
pub struct Store {
    pub(crate) content: Content,
    pub(crate) owners: Owners,
    pub(crate) journal: Option<Journal>,
}

/// What is made ready for a store: a delta, and what is written of it, where something differs after it.
#[derive(Drop)]
pub struct Prepared {
    delta: Delta,
    built: Option<BuiltChange>,
}

/// A store with this content and this journal, and the index of its owners.
pub fn index_owners(
    alloc: Global,
    code: &Image,
    content: Content,
    journal: Option<Journal>,
) -> Result<Store, Memory>
    ensures { IfOk result (IsIndexed (program_of code.now) content journal) }
{
    let owners = Owners::build(alloc, code, &content)?;
    Ok(Store {
        content,
        owners,
        journal,
    })
}

impl Prepared {
    /// The delta that was made ready.
    pub fn delta(&self) -> &Delta
        ensures { result.now ≡ delta_prepared self.now }
    {
        &self.delta
    }
}

impl Store {
    /// An empty store of a program, in memory.
    ///
    /// # Errors
    ///
    /// `Memory` where memory ran out.
    pub fn blank(alloc: Global, code: &Verified) -> Result<Store, Memory>
        ensures content { IfOk result (λ store. content_of (kept_of store) ≡ empty_content) }
        ensures memory { IfOk result (λ store. area_of_store store ≡ None) }
        ensures owners { IfOk result (TellsOwners (program_of code.now)) }
    {
        index_owners(alloc, code.image(), Content::new(alloc), None)
    }

    /// Opens the store that a disk with two areas of so many bytes each represents. It writes on a blank disk alone, where it
    /// begins the first area. What follows that stays.
    ///
    /// # Errors
    ///
    /// `NotStore`, `Damaged`, `OtherProgram` and `NotAtRest` exactly where the disk represents no store of this program, by their
    /// definitions; `Room` where the first area of a blank disk is too small to be begun; `DiskFault` where a call of the disk
    /// failed: a disk that isn't blank is then as it was, and a blank one is blank or begun; `Memory` where memory ran out.
    pub fn open_store<D: Disk>(
        alloc: Global,
        disk: &mut D,
        code: &Verified,
        area: u64,
    ) -> Result<Store, OpenError>
        requires some { 1 ≤ area }
        requires small { area ≤ 2 ^ 31 }
        requires fits { image.fits code.now }
        ensures opened { (c : List ℕ) → Reads (D.view disk.old) c → Opens (program_of code.now) area result c }
        ensures room { LacksArea (program_of code.now) area result }
        ensures area { IfOk result (λ store. area_of_store store ≡ Some area) }
        ensures at_rest { IfOk result (λ store. IsStoreAtRest (table_of_image code.now) (content_of (kept_of store))) }
        ensures stands { IfOk result (λ store. StandsOn (program_of code.now) store (D.view disk.new)) }
        ensures quiet { (c : List ℕ) → Reads (D.view disk.old) c → ¬ (IsBlankDisk area c) →
            KeepsBytes (D.view disk.old) (D.view disk.new) }
        ensures still { StaysUnlessBlank (program_of code.now) (D.view disk.old) (D.view disk.new) result }
        ensures reads { (c : List ℕ) → Reads (D.view disk.new) c →
            Reads (D.view disk.old) c ⊎ IsBlankOrBegunDisk area (image.bytes code.now) c }
        ensures crash { During (D.view disk.old) (D.view disk.new)
            (λ c. May (D.view disk.old) c ⊎ IsBlankOrBegunDisk area (image.bytes code.now) c) }
        ensures behind { KeepsBehind area (D.view disk.old) (D.view disk.new) }
        ensures attaches { (D.view disk.new).attaches ≡ (D.view disk.old).attaches }
        ensures cause { FaultsAs result (D.view disk.old).faults (D.view disk.new).faults }
    {
        match Journal::find(alloc, disk, area) {
            Ok(Found::Blank) => begin_store(alloc, disk, code.image(), area),
            Ok(Found::Current(journal, recorded)) => {
                rebuilt(alloc, code.image(), journal, recorded)
            }
            Err(error) => Err(refused_by(error)),
        }
    }

    /// What is kept of the objects and handles.
    pub fn content(&self) -> &Content
        ensures { result.now ≡ kept_of self.now }
    {
        &self.content
    }

    /// Makes a delta ready: builds the record that says what differs after it, or, where that doesn't fit, the other area with one
    /// record of all that the content holds then.
    ///
    /// # Errors
    ///
    /// `Room` exactly where neither area has room, or no serial is left for the other one: it has what the record of what differs
    /// needs. `Memory` where memory ran out.
    pub fn prepare(
        &self,
        alloc: Global,
        code: &Image,
        delta: Delta,
    ) -> Result<Prepared, PrepareError>
        requires image { HasImage (program_of code.now) self.now }
        requires storable { IsStorable (table_of_image code.now) }
        requires at_rest { IsStoreAtRest (table_of_image code.now) (content_of (kept_of self.now)) }
        requires delta { IsDelta (kept_of self.now) delta }
        requires after { IsStoreAtRest (table_of_image code.now) (content_with (kept_of self.now) delta) }
        ensures { Prepares (program_of code.now) self.now delta result }
    {
        let Some(journal) = &self.journal else {
            return Ok(Prepared { delta, built: None });
        };
        match build_change(alloc, code, &self.content, journal, &delta) {
            Ok(built) => Ok(Prepared { delta, built }),
            Err(error) => Err(error),
        }
    }

    /// Takes all memory that committing needs. The store is the same but for that memory, also at an `Err`.
    ///
    /// # Errors
    ///
    /// `Memory` where memory ran out.
    pub fn reserve(&mut self, prepared: &Prepared) -> Result<(), Memory>
        requires { IsDelta (kept_of self.old) (delta_prepared prepared.now) }
        ensures room { OnOk result (HasRoomFor self.new prepared.now) }
        ensures same { IsSameStore self.old self.new }
        ensures state { state_of self.new ≡ state_of self.old }
        ensures area { area_of_store self.new ≡ area_of_store self.old }
        ensures content { content_with (kept_of self.new) (delta_prepared prepared.now) ≡ content_with (kept_of self.old) (delta_prepared prepared.now) }
        ensures prepared { (program : StoreProgram) → IsPrepared program self.old prepared.now → IsPrepared program self.new prepared.now }
        ensures owners { (program : StoreProgram) → TellsOwners program self.old → TellsOwners program self.new }
    {
        let Ok(()) = reserve(&mut self.content, &prepared.delta) else {
            return Err(Memory);
        };
        self.owners.reserve(&self.content, &prepared.delta)
    }

    /// The store becomes the one after what was made ready. It takes no memory.
    ///
    /// # Errors
    ///
    /// `DiskFault` where a call of the disk failed: the store is then as it was, and the disk and each image of it represent the store
    /// before or after. What follows both areas stays. Where there is nothing to write, as in memory, no call of the disk is made.
    pub fn commit<D: Disk>(&mut self, disk: &mut D, prepared: Prepared) -> Result<(), DiskFault>
        requires delta { IsDelta (kept_of self.old) (delta_prepared prepared) }
        requires built { IsBuiltForStore self.old prepared }
        requires room { HasRoomFor self.old prepared }
        ensures content { OnOk result (content_of (kept_of self.new) ≡ content_with (kept_of self.old) (delta_prepared prepared)) }
        ensures settled { OnOk result ((program : StoreProgram) → IsPrepared program self.old prepared →
            settled program (area_of_store self.old) (state_of self.old) (content_with (kept_of self.old) (delta_prepared prepared)) ≡ Ok (state_of self.new)) }
        ensures area { area_of_store self.new ≡ area_of_store self.old }
        ensures stands { OnOk result ((program : StoreProgram) → IsReady program self.old prepared →
            StandsOn program self.old (D.view disk.old) → StandsOn program self.new (D.view disk.new)) }
        ensures crash { (program : StoreProgram) (size : ℕ) → IsReady program self.old prepared → area_of_store self.old ≡ Some size →
            StandsOn program self.old (D.view disk.old) → During (D.view disk.old) (D.view disk.new)
            (StandsBeforeOrAfter program size (state_of self.old) (content_with (kept_of self.old) (delta_prepared prepared))) }
        ensures nothing { WritesNothing self.old prepared → IsUntouched (D.view disk.old) (D.view disk.new) }
        ensures behind { (size : ℕ) → area_of_store self.old ≡ Some size → KeepsBehind (size + size) (D.view disk.old) (D.view disk.new) }
        ensures attaches { (D.view disk.new).attaches ≡ (D.view disk.old).attaches }
        ensures sure { WritesNothing self.old prepared → IsTrue (is_ok result) }
        ensures err { OnErr result (self.new ≡ self.old) }
        ensures cause { HasCause (D.view disk.old).faults (D.view disk.new).faults result }
    {
        let Prepared { delta, built } = prepared;
        let Ok(()) = write_in(&mut self.journal, disk, built) else {
            return Err(DiskFault);
        };
        apply(&mut self.content, delta);
        self.owners.apply();
        Ok(())
    }
}
