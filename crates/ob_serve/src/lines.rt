//! A line is answered: its items are stored, and their replies written.
ghost use Rattle.std.specs.Prelude.{◌≡◌, ◌≤◌, ℕ, List, [], ◌∷◌, Option, Ok, Err, length};
ghost use Rattle.std.specs.List.{list_all};
ghost use Rattle.ob_base.specs.Limits.{longest_line};
ghost use Rattle.ob_code.specs.declared.image.Image.{Image};
ghost use Rattle.ob_code_table.specs.ImageTables.{table_of_image};
ghost use Rattle.ob_exec_entries.specs.Naming.{IsNamesOf};
ghost use Rattle.ob_invocation_spec.specs.Requests.{HasLabels};
ghost use Rattle.ob_rest_spec.specs.AtRest.{IsStoreAtRest};
ghost use Rattle.ob_store_spec.specs.Stores.{StoreState};
ghost use Rattle.ob_store.specs.Stores.{area_of_store, program_of, state_of};
ghost use Rattle.ob_wire.specs.Meanings.{request_of};
ghost use Rattle.ob_wire.specs.Reading.{value_of};
ghost use Rattle.ob_wire.specs.declared.request.Incoming.TheVariants.{One};
ghost use Rattle.ob_serve.specs.Asked.{asked_by_value};
ghost use Rattle.ob_serve.specs.Items.{by_machine, items_of_asked, items_of_line};
ghost use Rattle.ob_serve.specs.Kept.{AreLimits, IsServable};
ghost use Rattle.ob_serve.specs.Serving.{Answers, IsServing, items_shown};
ghost use Rattle.ob_serve.specs.Session.{SessionItem, is_blank_line, is_space};
ghost use Rattle.ob_serve.specs.Stops.{GivesItem, IsFull};

use crate::answering::{Ready, ready_request, refuse};
use crate::batches::answer_batch;
use crate::committing::{KeepError, keep};
use crate::limits::Limits;
use crate::serving::Served;
use ob_base::Failed;
use ob_disk::Disk;
use ob_exec_entries::Names;
use ob_io::{Sink, write_all};
use ob_store::Store;
use ob_verify::Verified;
use ob_wire::{Incoming, Refusal, Request, WireError, read_request};
use std::alloc::Global;

fn is_space(byte: u8) -> bool
    ensures { result ≡ is_space byte }
{
    matches!(byte, b' ' | b'\t' | b'\r')
}

fn are_spaces(line: &[u8]) -> bool
    ensures { result ≡ list_all is_space line.now }
{
    line.iter().all(|byte| is_space(*byte))
}

fn is_blank(line: &[u8]) -> bool
    requires { length line.now ≤ longest_line }
    ensures { result ≡ is_blank_line line.now }
{
    are_spaces(line)
}

/// What was made ready is committed, and then its reply is written.
pub fn answer_ready<K: Sink, D: Disk>(
    store: &mut Store,
    output: &mut K,
    disk: &mut D,
    ready: Ready,
) -> Result<(), Served>
    requires { (code : Image) × (item : SessionItem StoreState) × GivesItem (program_of code) store.old item ready }
    ensures { (code : Image) (item : SessionItem StoreState) → GivesItem (program_of code) store.old item ready
        → IsServing code (record { store = store.old; output = K.view output.old; disk = D.view disk.old })
        → IsStoreAtRest (table_of_image code) item.after.content
        → Answers code (item ∷ [])
        (record { store = store.old; output = K.view output.old; disk = D.view disk.old })
        (record { store = store.new; output = K.view output.new; disk = D.view disk.new }) result }
{
    let Ready { reply, prepared } = ready;
    match keep(store, disk, prepared) {
        Ok(()) => {}
        Err(KeepError::Memory) => return Err(Served::Memory),
        Err(KeepError::DiskFault) => return Err(Served::DiskFault),
    }
    match write_all(output, &reply) {
        Ok(()) => Ok(()),
        Err(Failed) => Err(Served::WriteFault),
    }
}

// A line is refused.
fn answer_refusal<K: Sink, D: Disk>(
    alloc: Global,
    refusal: Refusal,
    store: &mut Store,
    output: &mut K,
    disk: &mut D,
) -> Result<(), Served>
    ensures { (code : Image) (limits : Limits) (area : Option ℕ)
        → IsServing code (record { store = store.old; output = K.view output.old; disk = D.view disk.old })
        → Answers code (items_of_asked (by_machine code limits area) (state_of store.old) (Err refusal))
        (record { store = store.old; output = K.view output.old; disk = D.view disk.old })
        (record { store = store.new; output = K.view output.new; disk = D.view disk.new }) result }
{
    let ready = refuse(alloc, refusal)?;
    answer_ready(store, output, disk, ready)
}

// A request alone is answered.
fn answer_request<K: Sink, D: Disk>(
    alloc: Global,
    code: &Verified,
    names: &Names,
    limits: Limits,
    store: &mut Store,
    request: &Request,
    output: &mut K,
    disk: &mut D,
) -> Result<(), Served>
    requires names { IsNamesOf names.now code.now }
    requires servable { IsServable code.now }
    requires serving { IsServing code.now (record { store = store.old; output = K.view output.old; disk = D.view disk.old }) }
    requires labels { HasLabels (request_of request.now) }
    ensures { Answers code.now
        (items_of_asked (by_machine code.now limits (area_of_store store.old)) (state_of store.old) (Ok (One request.now)))
        (record { store = store.old; output = K.view output.old; disk = D.view disk.old })
        (record { store = store.new; output = K.view output.new; disk = D.view disk.new }) result }
{
    let ready = ready_request(alloc, code, names, limits.fuel, store, request)?;
    answer_ready(store, output, disk, ready)
}

// A line is answered that isn't too long.
fn answer_text<K: Sink, D: Disk>(
    alloc: Global,
    code: &Verified,
    names: &Names,
    limits: Limits,
    store: &mut Store,
    line: &[u8],
    output: &mut K,
    disk: &mut D,
) -> Result<(), Served>
    requires names { IsNamesOf names.now code.now }
    requires servable { IsServable code.now }
    requires limits { AreLimits limits }
    requires most_lanes { limits.lanes ≤ 8 }
    requires serving { IsServing code.now (record { store = store.old; output = K.view output.old; disk = D.view disk.old }) }
    ensures { Answers code.now
        (items_of_asked (by_machine code.now limits (area_of_store store.old)) (state_of store.old) (asked_by_value (value_of line.now)))
        (record { store = store.old; output = K.view output.old; disk = D.view disk.old })
        (record { store = store.new; output = K.view output.new; disk = D.view disk.new }) result }
{
    match read_request(alloc, line) {
        Ok(Incoming::One(request)) => {
            answer_request(alloc, code, names, limits, store, &request, output, disk)
        }
        Ok(Incoming::Batch(batch)) => {
            answer_batch(alloc, code, names, limits, store, batch, output, disk)
        }
        Err(WireError::Json) => answer_refusal(alloc, Refusal::Json, store, output, disk),
        Err(WireError::Shape) => answer_refusal(alloc, Refusal::Shape, store, output, disk),
        Err(WireError::BatchSize) => {
            answer_refusal(alloc, Refusal::BatchSize, store, output, disk)
        }
        Err(WireError::Memory) => Err(Served::Memory),
    }
}

/// A line is answered, unless it is blank.
pub fn answer_line<K: Sink, D: Disk>(
    alloc: Global,
    code: &Verified,
    names: &Names,
    limits: Limits,
    store: &mut Store,
    is_long: bool,
    line: &[u8],
    output: &mut K,
    disk: &mut D,
) -> Result<(), Served>
    requires short { length line.now ≤ longest_line }
    requires names { IsNamesOf names.now code.now }
    requires servable { IsServable code.now }
    requires limits { AreLimits limits }
    requires most_lanes { limits.lanes ≤ 8 }
    requires serving { IsServing code.now (record { store = store.old; output = K.view output.old; disk = D.view disk.old }) }
    ensures { (full : List ℕ) → IsFull is_long line.now full → Answers code.now
        (items_shown (items_of_line (by_machine code.now limits (area_of_store store.old))) (state_of store.old) full)
        (record { store = store.old; output = K.view output.old; disk = D.view disk.old })
        (record { store = store.new; output = K.view output.new; disk = D.view disk.new }) result }
{
    if is_long {
        return answer_refusal(alloc, Refusal::LongLine, store, output, disk);
    }
    if is_blank(line) {
        return Ok(());
    }
    answer_text(alloc, code, names, limits, store, line, output, disk)
}
