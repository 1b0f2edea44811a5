//! What was made ready is kept.
ghost use Rattle.std.specs.Prelude.{◌≡◌, ◌≢◌, ◌⊎◌, ◌≤◌, ◌+◌, ℕ, None, Some, OnOk, OnErr, IsErrOf};
ghost use Rattle.ob_disk_spec.specs.Calls.{IsUntouched};
ghost use Rattle.ob_disk_spec.specs.Durable.{During, KeepsBehind};
ghost use Rattle.ob_heap.specs.Contents.{content_of};
ghost use Rattle.ob_io.specs.Causes.{Rose};
ghost use Rattle.ob_rest_spec.specs.AtRest.{IsStoreAtRest};
ghost use Rattle.ob_store_spec.specs.Stores.{StoreProgram, StoreState};
ghost use Rattle.ob_store.specs.Stores.{area_of_store, kept_of, state_of, StandsOn};
ghost use Rattle.ob_serve.specs.Standing.{RepresentsStore};
ghost use Rattle.ob_serve.specs.Stops.{LeadsOn};

use ob_disk::Disk;
use ob_store::{Prepared, Store};

/// Why what was made ready isn't known to be kept.
#[derive(Clone, Copy)]
pub enum KeepError {
    /// The disk failed: it and each image of it represent the store before or after.
    DiskFault,
    /// Memory ran out, before the disk was touched: nothing is kept.
    Memory,
}

/// Commits what was made ready, if there is anything. All memory is taken before the disk is touched. Over a store in memory no call of
/// the disk is made. What follows its areas stays. What the store holds stays
/// at an `Err`.
pub fn keep<D: Disk>(
    store: &mut Store,
    disk: &mut D,
    prepared: Option<Prepared>,
) -> Result<(), KeepError>
    requires { (program : StoreProgram) × (after : StoreState) × LeadsOn program store.old after prepared }
    ensures kept { OnOk result ((program : StoreProgram) (after : StoreState) → LeadsOn program store.old after prepared →
        state_of store.new ≡ after) }
    ensures err { OnErr result (state_of store.new ≡ state_of store.old) }
    ensures stands { OnOk result ((program : StoreProgram) (after : StoreState) → LeadsOn program store.old after prepared →
        StandsOn program store.old (D.view disk.old) → StandsOn program store.new (D.view disk.new)) }
    ensures crash { (program : StoreProgram) (after : StoreState) → LeadsOn program store.old after prepared →
        IsStoreAtRest program.table (content_of (kept_of store.old)) → StandsOn program store.old (D.view disk.old) → During (D.view disk.old) (D.view disk.new)
        (λ c. RepresentsStore program (area_of_store store.old) (state_of store.old) c
        ⊎ RepresentsStore program (area_of_store store.old) after c) }
    ensures untouched { area_of_store store.old ≡ None → IsUntouched (D.view disk.old) (D.view disk.new) }
    ensures sure { area_of_store store.old ≡ None → result ≢ Err KeepError.DiskFault }
    ensures memory { IsErrOf result KeepError.Memory → IsUntouched (D.view disk.old) (D.view disk.new) }
    ensures behind { (size : ℕ) → area_of_store store.old ≡ Some size →
        KeepsBehind (size + size) (D.view disk.old) (D.view disk.new) }
    ensures attaches { (D.view disk.new).attaches ≡ (D.view disk.old).attaches }
    ensures area { area_of_store store.new ≡ area_of_store store.old }
    ensures cause { IsErrOf result KeepError.DiskFault → Rose (D.view disk.old).faults (D.view disk.new).faults }
    ensures later { (D.view disk.old).faults ≤ (D.view disk.new).faults }
    ensures once { (D.view disk.new).faults ≤ (D.view disk.old).faults + 1 }
    ensures calm { result ≢ Err KeepError.DiskFault → (D.view disk.new).faults ≡ (D.view disk.old).faults }
{
    let Some(prepared) = prepared else {
        return Ok(());
    };
    if store.reserve(&prepared).is_err() {
        return Err(KeepError::Memory);
    }
    if store.commit(disk, prepared).is_err() {
        return Err(KeepError::DiskFault);
    }
    Ok(())
}
