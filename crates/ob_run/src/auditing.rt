//! A store is audited: its six numbers are written, and nothing is written to its disk.
ghost use Rattle.std.specs.Prelude.{◌≡◌, ℕ, List, Some, IfOk, string_bytes};
ghost use Rattle.ob_code.specs.Images.{image};
ghost use Rattle.ob_code_table.specs.ImageTables.{table_of_image};
ghost use Rattle.ob_disk_spec.specs.Durable.{KeepsBehind};
ghost use Rattle.ob_heap.specs.Contents.{content_of};
ghost use Rattle.ob_store.specs.Stores.{program_of};
ghost use Rattle.ob_words.specs.Asked.{audit};
ghost use Rattle.ob_run.specs.Attaching.{UsesDisk};
ghost use Rattle.ob_run.specs.Auditing.{CountsAs, IsCountOf, TellsNumbers, audit_text};
ghost use Rattle.ob_outside.specs.Faults.{CountsFault, EndsAtFault};
ghost use Rattle.ob_outside.specs.Outside.{told, devices};
ghost use Rattle.ob_run.specs.Sessions.{both_areas};
ghost use Rattle.ob_run.specs.Statuses.{Treats};
ghost use Rattle.ob_run.specs.TextRead.{asked_with};

use crate::examined::Examined;
use crate::serving::{Unopened, unopened_by};
use crate::telling::{put_count, refuse, refuse_store};
use ob_base::{AREA_BYTES, Memory};
use ob_code::Image;
use ob_disk::Disk;
use ob_front::compile;
use ob_heap::Content;
use ob_io::{Files, Sink, Source, write_all};
use ob_outside::{Exit, Outside};
use ob_owners::{StoreCounts, count_store};
use ob_store::read_store;
use ob_verify::Verified;
use std::alloc::Global;

// Counts what a store holds.
fn count_content(alloc: Global, code: &Image, content: &Content) -> Result<StoreCounts, Unopened>
    ensures { IsCountOf (table_of_image code.now) (content_of content.now) result }
{
    match count_store(alloc, code, content) {
        Ok(counts) => Ok(counts),
        Err(Memory) => Err(Unopened::Memory),
    }
}

// Counts what the store of a program holds on a disk that was taken.
fn count_taken<D: Disk>(
    alloc: Global,
    disk: &mut D,
    code: &Verified,
) -> Result<StoreCounts, Unopened>
    requires fits { image.fits code.now }
    ensures counts { CountsAs (program_of code.now) (D.view disk.old) (D.view disk.new) result }
    ensures behind { KeepsBehind both_areas (D.view disk.old) (D.view disk.new) }
    ensures attaches { (D.view disk.new).attaches ≡ (D.view disk.old).attaches }
    ensures faults { CountsFault (result ≡ Err Unopened.DiskFault) (D.view disk.old).faults (D.view disk.new).faults }
{
    match read_store(alloc, disk, code, AREA_BYTES) {
        Ok(content) => count_content(alloc, code.image(), &content),
        Err(error) => Err(unopened_by(error)),
    }
}

// Takes the disk of a name, and counts what the store of a program holds on it.
fn count_named<D: Disk>(
    alloc: Global,
    disk: &mut D,
    name: &str,
    code: &Verified,
) -> Result<StoreCounts, Unopened>
    requires fits { image.fits code.now }
    ensures counts { CountsAs (program_of code.now) (D.view disk.old) (D.view disk.new) result }
    ensures disk { UsesDisk (Some name.now) (D.view disk.old) (D.view disk.new) }
    ensures faults { CountsFault (result ≡ Err Unopened.DiskFault) (D.view disk.old).faults (D.view disk.new).faults }
{
    match disk.attach(name) {
        Ok(()) => count_taken(alloc, disk, code),
        Err(_) => Err(Unopened::DiskFault),
    }
}

// The six numbers, each on a line.
fn audit_text(alloc: Global, counts: StoreCounts) -> Result<String, Memory>
    ensures { IfOk result (λ text. string_bytes text ≡ audit_text counts) }
{
    let mut text = String::new(alloc);
    put_count(&mut text, alloc, "objects", counts.objects as u64)?;
    put_count(&mut text, alloc, "handles", counts.handles as u64)?;
    put_count(&mut text, alloc, "owned", counts.owned as u64)?;
    put_count(&mut text, alloc, "shared", counts.shared as u64)?;
    put_count(&mut text, alloc, "disowned", counts.disowned as u64)?;
    put_count(&mut text, alloc, "loose", counts.loose as u64)?;
    Ok(text)
}

// Writes the numbers of a store.
fn tell_counts<K: Sink>(alloc: Global, counts: StoreCounts, output: &mut K) -> Exit
    ensures tells { TellsNumbers counts (K.view output.old) (K.view output.new) result }
    ensures faults { CountsFault (result ≡ Exit.WriteFault) (K.view output.old).faults (K.view output.new).faults }
{
    let Ok(text) = audit_text(alloc, counts) else {
        return Exit::Memory;
    };
    match write_all(output, text.as_bytes()) {
        Ok(()) => Exit::Done,
        Err(_) => Exit::WriteFault,
    }
}

/// Writes the six numbers of the store of the disk of a name, for the program of a text, or refuses the text or the store. The files and
/// the input stay, and no byte of the disk changes.
pub fn audit_store<F: Files, S: Source, K: Sink, D: Disk>(
    alloc: Global,
    text: &[u8],
    name: &str,
    outside: &mut Outside<F, S, K, D>,
    examined: &mut Examined<'_>,
) -> Exit
    ensures treats { (file : List ℕ) (fuel lanes slice : ℕ) → Treats (asked_with (audit file name.now) fuel lanes slice) text.now
        (devices (told F.view S.view K.view D.view outside.old))
        (devices (told F.view S.view K.view D.view outside.new)) result }
    ensures files { outside.new.files ≡ outside.old.files }
    ensures disk { UsesDisk (Some name.now) (D.view outside.old.disk) (D.view outside.new.disk) }
    ensures faults { EndsAtFault
        (told F.view S.view K.view D.view outside.old)
        (told F.view S.view K.view D.view outside.new) result }
{
    let program = match compile(alloc, text, &mut examined.seen) {
        Ok(program) => program,
        Err(error) => return refuse(alloc, error, &mut outside.output, &mut examined.fault),
    };
    match count_named(alloc, &mut outside.disk, name, &program.code) {
        Ok(counts) => tell_counts(alloc, counts, &mut outside.output),
        Err(Unopened::Refused(refusal)) => {
            examined.refusal = Some(refusal);
            refuse_store(alloc, refusal, &mut outside.output)
        }
        Err(Unopened::DiskFault) => Exit::DiskFault,
        Err(Unopened::Memory) => Exit::Memory,
    }
}
