//! The session.
ghost use Rattle.std.specs.Prelude.{◌≡◌, ◌≢◌, ◌+◌, ◌≤◌, ℕ, None, Some, IfOk, IfErr};
ghost use Rattle.ob_base.specs.Limits.{most_taken};
ghost use Rattle.ob_heap.specs.Contents.{content_of};
ghost use Rattle.ob_disk_spec.specs.Calls.{IsUntouched};
ghost use Rattle.ob_disk_spec.specs.Durable.{KeepsBehind};
ghost use Rattle.ob_io.specs.Lines.{EndIsTold, CountsTaken, taken};
ghost use Rattle.ob_io.specs.Told.{TakesAtMost};
ghost use Rattle.ob_code_table.specs.ImageTables.{table_of_image};
ghost use Rattle.ob_rest_spec.specs.AtRest.{IsStoreAtRest};
ghost use Rattle.ob_silica_steps.specs.Configurations.{SilicaProgram};
ghost use Rattle.ob_store.specs.Stores.{area_of_store, kept_of, program_of, state_of, StandsOn};
ghost use Rattle.ob_serve.specs.Items.{by_machine, by_source, items_of_line};
ghost use Rattle.ob_serve.specs.Kept.{AreLimits, IsServable, IsSoundFor};
ghost use Rattle.ob_serve.specs.Served.{Ends};
ghost use Rattle.ob_serve.specs.Standing.{RepresentsStore, source_program};
ghost use Rattle.ob_serve.specs.Stops.{reader, ReadsLine, IsStop};

use crate::limits::Limits;
use crate::lines::answer_line;
use ob_base::Memory;
use ob_disk::Disk;
use ob_exec_entries::Names;
use ob_io::{Lines, Next, Sink, Source};
use ob_store::Store;
use ob_verify::Verified;
use std::alloc::Global;

/// How a session ended.
#[derive(Clone, Copy)]
pub enum Served {
    /// The input was read to its end, and every line was answered.
    Done,
    /// The source failed.
    ReadFault,
    /// The sink failed.
    WriteFault,
    /// The disk failed.
    DiskFault,
    /// Memory ran out.
    Memory,
    /// 2^40 bytes of input were taken, and no more are.
    Long,
}

impl From<Memory> for Served {
    ghost use Rattle.std.specs.Prelude.{◌≡◌};
    ghost use Rattle.ob_serve.specs.declared.serving.Served.TheVariants.{Memory};

    ghost from_gives = { λ _ e. e ≡ Memory };

    fn from(_: Memory) -> Served {
        Served::Memory
    }
}

// The next line, and whether it is too long; or how the session ends.
fn next_line<S: Source>(
    lines: &mut Lines,
    input: &mut S,
    line: &mut Vec<u8>,
) -> Result<bool, Served>
    requires { EndIsTold lines.old (S.view input.old).left }
    ensures ok { IfOk result (λ is_long. ReadsLine
        (reader lines.old (S.view input.old)) (reader lines.new (S.view input.new)) is_long line.new.items) }
    ensures err { IfErr result (IsStop
        (reader lines.old (S.view input.old)) (reader lines.new (S.view input.new))) }
    ensures taken { CountsTaken lines.old lines.new (S.view input.old) (S.view input.new) }
    ensures bound { taken lines.new ≤ most_taken }
    ensures later { (S.view input.old).faults ≤ (S.view input.new).faults }
    ensures calm { result ≢ Err Served.ReadFault → (S.view input.new).faults ≡ (S.view input.old).faults }
    ensures once { (S.view input.new).faults ≤ (S.view input.old).faults + 1 }
{
    match lines.next(input, line) {
        Err(Memory) => Err(Served::Memory),
        Ok(Next::End) => Err(Served::Done),
        Ok(Next::Fault) => Err(Served::ReadFault),
        Ok(Next::Limit) => Err(Served::Long),
        Ok(Next::Line) => Ok(false),
        Ok(Next::LongLine) => Ok(true),
    }
}

// Answers the lines of the input, by the code.
fn serve_lines<S: Source, K: Sink, D: Disk>(
    alloc: Global,
    code: &Verified,
    store: &mut Store,
    limits: Limits,
    input: &mut S,
    output: &mut K,
    disk: &mut D,
) -> Served
    requires servable { IsServable code.now }
    requires limits { AreLimits limits }
    requires most_lanes { limits.lanes ≤ 8 }
    requires at_rest { IsStoreAtRest (table_of_image code.now) (content_of (kept_of store.old)) }
    requires stands { StandsOn (program_of code.now) store.old (D.view disk.old) }
    ensures ends { Ends (items_of_line (by_machine code.now limits (area_of_store store.old)))
        (RepresentsStore (program_of code.now) (area_of_store store.old)) (state_of store.old)
        (record { input = S.view input.old; output = K.view output.old; disk = D.view disk.old })
        (record { input = S.view input.new; output = K.view output.new; disk = D.view disk.new })
        result }
    ensures untouched { area_of_store store.old ≡ None → IsUntouched (D.view disk.old) (D.view disk.new) }
    ensures sure { area_of_store store.old ≡ None → result ≢ Served.DiskFault }
    ensures behind { (size : ℕ) → area_of_store store.old ≡ Some size →
        KeepsBehind (size + size) (D.view disk.old) (D.view disk.new) }
    ensures attaches { (D.view disk.new).attaches ≡ (D.view disk.old).attaches }
    ensures most_bytes { TakesAtMost (S.view input.old) (S.view input.new) most_taken }
    ensures later_read { (S.view input.old).faults ≤ (S.view input.new).faults }
    ensures later_write { (K.view output.old).faults ≤ (K.view output.new).faults }
    ensures later_disk { (D.view disk.old).faults ≤ (D.view disk.new).faults }
    ensures calm { result ≢ Served.ReadFault → result ≢ Served.WriteFault → result ≢ Served.DiskFault →
        ((S.view input.new).faults ≡ (S.view input.old).faults)
        × ((K.view output.new).faults ≡ (K.view output.old).faults)
        × ((D.view disk.new).faults ≡ (D.view disk.old).faults) }
    ensures once { (S.view input.new).faults + (K.view output.new).faults + (D.view disk.new).faults
        ≤ (S.view input.old).faults + (K.view output.old).faults + (D.view disk.old).faults + 1 }
{
    let Ok(names) = Names::of(alloc, code.image()) else {
        return Served::Memory;
    };
    let Ok(mut lines) = Lines::new(alloc) else {
        return Served::Memory;
    };
    let mut line = Vec::new(alloc);
    'lines: loop {
        let is_long = match next_line(&mut lines, input, &mut line) {
            Ok(is_long) => is_long,
            Err(served) => return served,
        };
        match answer_line(
            alloc, code, &names, limits, store, is_long, &line, output, disk,
        ) {
            Ok(()) => {}
            Err(served) => return served,
        }
    }
}

/// Answers the lines of the input, one after another, by sound code and with these limits, on a store at rest. For each request the reply
/// is built and all memory is taken, then what it changes is committed, then the reply is written. The requests of a batch are answered as
/// they end in their lanes.
pub fn serve<S: Source, K: Sink, D: Disk>(
    alloc: Global,
    code: &Verified,
    store: &mut Store,
    limits: Limits,
    input: &mut S,
    output: &mut K,
    disk: &mut D,
) -> Served
    requires servable { IsServable code.now }
    requires lanes { 1 ≤ limits.lanes }
    requires most_lanes { limits.lanes ≤ 8 }
    requires slice { 1 ≤ limits.slice }
    requires at_rest { IsStoreAtRest (table_of_image code.now) (content_of (kept_of store.old)) }
    requires stands { StandsOn (program_of code.now) store.old (D.view disk.old) }

    // The row of each status, by the code.
    ensures by_code { Ends (items_of_line (by_machine code.now limits (area_of_store store.old)))
        (RepresentsStore (program_of code.now) (area_of_store store.old)) (state_of store.old)
        (record { input = S.view input.old; output = K.view output.old; disk = D.view disk.old })
        (record { input = S.view input.new; output = K.view output.new; disk = D.view disk.new })
        result }

    // The same by the source meaning of each program of which this is sound code.
    ensures ends { (program : SilicaProgram) → IsSoundFor program code.now →
        Ends (items_of_line (by_source (source_program program.table code.now) code.now limits (area_of_store store.old)))
        (RepresentsStore (source_program program.table code.now) (area_of_store store.old)) (state_of store.old)
        (record { input = S.view input.old; output = K.view output.old; disk = D.view disk.old })
        (record { input = S.view input.new; output = K.view output.new; disk = D.view disk.new })
        result }

    // Over a store in memory no call of the disk is made.
    ensures untouched { area_of_store store.old ≡ None → IsUntouched (D.view disk.old) (D.view disk.new) }
    ensures sure { area_of_store store.old ≡ None → result ≢ Served.DiskFault }

    // What follows the two areas of a store on a disk stays, and no other disk is taken.
    ensures behind { (size : ℕ) → area_of_store store.old ≡ Some size →
        KeepsBehind (size + size) (D.view disk.old) (D.view disk.new) }
    ensures attaches { (D.view disk.new).attaches ≡ (D.view disk.old).attaches }

    // However it ends, at most 2^40 bytes of input were taken.
    ensures most_bytes { TakesAtMost (S.view input.old) (S.view input.new) most_taken }

    // No count of faults falls.
    ensures later_read { (S.view input.old).faults ≤ (S.view input.new).faults }
    ensures later_write { (K.view output.old).faults ≤ (K.view output.new).faults }
    ensures later_disk { (D.view disk.old).faults ≤ (D.view disk.new).faults }

    // It ends at the first fault: no call of a stream or of the disk follows.
    ensures calm { result ≢ Served.ReadFault → result ≢ Served.WriteFault → result ≢ Served.DiskFault →
        ((S.view input.new).faults ≡ (S.view input.old).faults)
        × ((K.view output.new).faults ≡ (K.view output.old).faults)
        × ((D.view disk.new).faults ≡ (D.view disk.old).faults) }
    ensures once { (S.view input.new).faults + (K.view output.new).faults + (D.view disk.new).faults
        ≤ (S.view input.old).faults + (K.view output.old).faults + (D.view disk.old).faults + 1 }
{
    serve_lines(alloc, code, store, limits, input, output, disk)
}
