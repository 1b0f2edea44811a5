//! A trial is held, and its numbers are written.
ghost use Rattle.std.specs.Prelude.{◌≡◌, ℕ, List, IfOk, string_bytes};
ghost use Rattle.ob_words.specs.Asked.{trial};
ghost use Rattle.ob_outside.specs.Faults.{CountsFault};
ghost use Rattle.ob_run.specs.Statuses.{IsFinding};
ghost use Rattle.ob_run.specs.TextRead.{Tells};
ghost use Rattle.ob_run.specs.TrialLines.{trial_text};

use crate::counts::Counts;
use crate::examined::Examined;
use crate::holding::hold_trial;
use crate::telling::{put_count, refuse};
use ob_base::{AREA_BYTES, DEFAULT_FUEL, DEFAULT_LANES, DEFAULT_SLICE, Memory};
use ob_front::compile;
use ob_io::{Sink, write_all};
use ob_outside::Exit;
use ob_serve::Limits;
use std::alloc::Global;

// The six numbers, each on a line.
fn trial_text(alloc: Global, counts: Counts) -> Result<String, Memory>
    ensures { IfOk result (λ text. string_bytes text ≡ trial_text counts) }
{
    let mut text = String::new(alloc);
    put_count(&mut text, alloc, "lines", counts.lines)?;
    put_count(&mut text, alloc, "ok", counts.ok)?;
    put_count(&mut text, alloc, "aborted", counts.aborted)?;
    put_count(&mut text, alloc, "refused", counts.refused)?;
    put_count(&mut text, alloc, "objects", counts.objects)?;
    put_count(&mut text, alloc, "handles", counts.handles)?;
    Ok(text)
}

// Writes the numbers of a trial.
fn tell_trial<K: Sink>(alloc: Global, counts: Counts, output: &mut K) -> Exit
    ensures tells { (length : ℕ) (text : List ℕ) → IsFinding (trial length) text (trial_text counts) →
        Tells (trial length) text (K.view output.old) (K.view output.new) result }
    ensures faults { CountsFault (result ≡ Exit.WriteFault) (K.view output.old).faults (K.view output.new).faults }
{
    let Ok(text) = trial_text(alloc, counts) else {
        return Exit::Memory;
    };
    match write_all(output, text.as_bytes()) {
        Ok(()) => Exit::Done,
        Err(_) => Exit::WriteFault,
    }
}

/// Holds the trial of a length with the program of a text, and writes its numbers, or refuses the text.
pub fn try_text<K: Sink>(
    alloc: Global,
    text: &[u8],
    length: u32,
    output: &mut K,
    examined: &mut Examined<'_>,
) -> Exit
    ensures tells { Tells (trial length) text.now (K.view output.old) (K.view output.new) result }
    ensures faults { CountsFault (result ≡ Exit.WriteFault) (K.view output.old).faults (K.view output.new).faults }
{
    let program = match compile(alloc, text, &mut examined.seen) {
        Ok(program) => program,
        Err(error) => return refuse(alloc, error, output, &mut examined.fault),
    };
    let limits = Limits {
        fuel: DEFAULT_FUEL,
        lanes: DEFAULT_LANES as u8,
        slice: DEFAULT_SLICE,
    };
    match hold_trial(alloc, &program.code, limits, AREA_BYTES, length) {
        Ok(counts) => tell_trial(alloc, counts, output),
        Err(Memory) => Exit::Memory,
    }
}
