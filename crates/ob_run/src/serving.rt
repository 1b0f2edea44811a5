//! A program is served: over a store in memory, or over one on a disk.
ghost use Rattle.std.specs.Prelude.{◌≡◌, ◌≤◌, ℕ, List, Some, None, OnOk, length};
ghost use Rattle.ob_base.specs.Limits.{area_bytes, most_weight};
ghost use Rattle.ob_code.specs.Images.{image};
ghost use Rattle.ob_disk_spec.specs.Calls.{IsAttached};
ghost use Rattle.ob_disk_spec.specs.Durable.{KeepsBehind};
ghost use Rattle.ob_store.specs.Reading.{NeedsNoArea};
ghost use Rattle.ob_store.specs.Stores.{program_of};
ghost use Rattle.ob_words.specs.Asked.{serve, serve_stored};
ghost use Rattle.ob_run.specs.Attaching.{UsesDisk};
ghost use Rattle.ob_run.specs.Auditing.{unopened_by};
ghost use Rattle.ob_outside.specs.Faults.{CountsFault, EndsAtFault};
ghost use Rattle.ob_run.specs.Openings.{OpensAs};
ghost use Rattle.ob_outside.specs.Outside.{told, devices};
ghost use Rattle.ob_run.specs.Statuses.{Treats};
ghost use Rattle.ob_run.specs.TextRead.{asked_with, exit_of};

use crate::examined::Examined;
use crate::refusal::StoreRefusal;
use crate::telling::{refuse, refuse_store};
use ob_base::{AREA_BYTES, Memory};
use ob_disk::Disk;
use ob_front::compile;
use ob_io::{Files, Sink, Source};
use ob_outside::{Exit, Outside};
use ob_serve::{Limits, Served, serve};
use ob_store::{OpenError, Store};
use ob_verify::Verified;
use std::alloc::Global;

// How the run ends whose session ended so.
fn exit_of(served: Served) -> Exit
    ensures { result ≡ exit_of served }
{
    match served {
        Served::Done => Exit::Done,
        Served::ReadFault => Exit::ReadFault,
        Served::WriteFault => Exit::WriteFault,
        Served::DiskFault => Exit::DiskFault,
        Served::Memory => Exit::Memory,
        Served::Long => Exit::Long,
    }
}

/// Why no store was opened.
#[derive(Clone, Copy)]
pub(crate) enum Unopened {
    // It is refused.
    Refused(StoreRefusal),
    // A call of the disk failed.
    DiskFault,
    // Memory ran out.
    Memory,
}

/// Why a store isn't opened, or not counted. An image has at most 16 MiB, and an area 64 MiB, so there is always room.
pub(crate) fn unopened_by(error: OpenError) -> Unopened
    requires { NeedsNoArea (Err error) }
    ensures { result ≡ unopened_by error }
{
    match error {
        OpenError::NotStore => Unopened::Refused(StoreRefusal::NotStore),
        OpenError::Damaged(offset) => Unopened::Refused(StoreRefusal::Damaged(offset)),
        OpenError::OtherProgram(offset) => Unopened::Refused(StoreRefusal::OtherProgram(offset)),
        OpenError::NotAtRest(object) => Unopened::Refused(StoreRefusal::NotAtRest(object)),
        OpenError::Room(_, _) => unreachable!(),
        OpenError::DiskFault => Unopened::DiskFault,
        OpenError::Memory => Unopened::Memory,
    }
}

// Opens the store of a program on a disk that was taken.
fn open_taken<D: Disk>(alloc: Global, disk: &mut D, code: &Verified) -> Result<Store, Unopened>
    requires fits { image.fits code.now }
    requires light { length (image.bytes code.now) ≤ most_weight }
    ensures opens { OpensAs (program_of code.now) (D.view disk.old) (D.view disk.new) result }
    ensures behind { KeepsBehind area_bytes (D.view disk.old) (D.view disk.new) }
    ensures attaches { (D.view disk.new).attaches ≡ (D.view disk.old).attaches }
    ensures faults { CountsFault (result ≡ Err Unopened.DiskFault) (D.view disk.old).faults (D.view disk.new).faults }
{
    match Store::open_store(alloc, disk, code, AREA_BYTES) {
        Ok(store) => Ok(store),
        Err(error) => Err(unopened_by(error)),
    }
}

// Takes the disk of a name, and opens the store of a program on it.
fn open_named<D: Disk>(
    alloc: Global,
    disk: &mut D,
    name: &str,
    code: &Verified,
) -> Result<Store, Unopened>
    requires fits { image.fits code.now }
    requires light { length (image.bytes code.now) ≤ most_weight }
    ensures opens { OpensAs (program_of code.now) (D.view disk.old) (D.view disk.new) result }
    ensures disk { UsesDisk (Some name.now) (D.view disk.old) (D.view disk.new) }
    ensures attached { OnOk result (IsAttached (D.view disk.old) (D.view disk.new) name.now) }
    ensures faults { CountsFault (result ≡ Err Unopened.DiskFault) (D.view disk.old).faults (D.view disk.new).faults }
{
    match disk.attach(name) {
        Ok(()) => open_taken(alloc, disk, code),
        Err(_) => Err(Unopened::DiskFault),
    }
}

/// Serves the program of a text over a store in memory, or refuses the text. The files stay.
pub fn serve_text<F: Files, S: Source, K: Sink, D: Disk>(
    alloc: Global,
    text: &[u8],
    limits: Limits,
    outside: &mut Outside<F, S, K, D>,
    examined: &mut Examined<'_>,
) -> Exit
    requires lanes { 1 ≤ limits.lanes }
    requires most_lanes { limits.lanes ≤ 8 }
    requires slice { 1 ≤ limits.slice }
    ensures treats { (name : List ℕ) → Treats (asked_with (serve name) limits.fuel limits.lanes limits.slice) text.now
        (devices (told F.view S.view K.view D.view outside.old))
        (devices (told F.view S.view K.view D.view outside.new)) result }
    ensures files { outside.new.files ≡ outside.old.files }
    ensures disk { UsesDisk None (D.view outside.old.disk) (D.view outside.new.disk) }
    ensures faults { EndsAtFault
        (told F.view S.view K.view D.view outside.old)
        (told F.view S.view K.view D.view outside.new) result }
{
    let program = match compile(alloc, text, &mut examined.seen) {
        Ok(program) => program,
        Err(error) => return refuse(alloc, error, &mut outside.output, &mut examined.fault),
    };
    let mut store = match Store::blank(alloc, &program.code) {
        Ok(store) => store,
        Err(Memory) => return Exit::Memory,
    };
    let served = serve(
        alloc,
        &program.code,
        &mut store,
        limits,
        &mut outside.input,
        &mut outside.output,
        &mut outside.disk,
    );
    exit_of(served)
}

/// Serves the program of a text over the store of the disk of a name, or refuses the text or the store. The files stay.
pub fn serve_text_stored<F: Files, S: Source, K: Sink, D: Disk>(
    alloc: Global,
    text: &[u8],
    name: &str,
    limits: Limits,
    outside: &mut Outside<F, S, K, D>,
    examined: &mut Examined<'_>,
) -> Exit
    requires lanes { 1 ≤ limits.lanes }
    requires most_lanes { limits.lanes ≤ 8 }
    requires slice { 1 ≤ limits.slice }
    ensures treats { (file : List ℕ) → Treats (asked_with (serve_stored file name.now) limits.fuel limits.lanes limits.slice) text.now
        (devices (told F.view S.view K.view D.view outside.old))
        (devices (told F.view S.view K.view D.view outside.new)) result }
    ensures files { outside.new.files ≡ outside.old.files }
    ensures disk { UsesDisk (Some name.now) (D.view outside.old.disk) (D.view outside.new.disk) }
    ensures faults { EndsAtFault
        (told F.view S.view K.view D.view outside.old)
        (told F.view S.view K.view D.view outside.new) result }
{
    let program = match compile(alloc, text, &mut examined.seen) {
        Ok(program) => program,
        Err(error) => return refuse(alloc, error, &mut outside.output, &mut examined.fault),
    };
    let mut store = match open_named(alloc, &mut outside.disk, name, &program.code) {
        Ok(store) => store,
        Err(Unopened::Refused(refusal)) => {
            examined.refusal = Some(refusal);
            return refuse_store(alloc, refusal, &mut outside.output);
        }
        Err(Unopened::DiskFault) => return Exit::DiskFault,
        Err(Unopened::Memory) => return Exit::Memory,
    };
    examined.note_opened(&store);
    let served = serve(
        alloc,
        &program.code,
        &mut store,
        limits,
        &mut outside.input,
        &mut outside.output,
        &mut outside.disk,
    );
    exit_of(served)
}
