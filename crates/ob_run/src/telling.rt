//! What is written where no line is served.
ghost use Rattle.std.specs.Prelude.{◌≡◌, ◌++◌, ℕ, List, OnOk, string_bytes};
ghost use Rattle.ob_base.specs.TextErrors.{OnFault};
ghost use Rattle.ob_front.specs.Programs.{IsAccepted, HasTextFault};
ghost use Rattle.ob_words.specs.Asked.{Command, check};
ghost use Rattle.ob_outside.specs.Faults.{CountsFault};
ghost use Rattle.ob_run.specs.StoreLine.{refusal_view};
ghost use Rattle.ob_run.specs.TextRead.{Tells, TellsRefusal};
ghost use Rattle.ob_run.specs.TrialLines.{count_line};

use crate::examined::Examined;
use crate::refusal::{StoreRefusal, store_line};
use ob_base::{Memory, ProgramFault};
use ob_front::{CompileError, check_program};
use ob_io::{Sink, write_all};
use ob_outside::{Exit, fault_line};
use std::alloc::Global;

/// Puts a number behind its word, on a line.
pub fn put_count(text: &mut String, alloc: Global, word: &str, count: u64) -> Result<(), Memory>
    ensures { OnOk result (string_bytes text.new ≡ string_bytes text.old ++ count_line word.now count) }
{
    let line = format!(in alloc; "{word} {count}\n")?;
    text.push_str(&line)?;
    Ok(())
}

/// Writes the line of the fault for which a text is refused, and notes the fault; nothing where memory ran out.
pub fn refuse<K: Sink>(
    alloc: Global,
    error: CompileError,
    output: &mut K,
    refused: &mut Option<ProgramFault>,
) -> Exit
    ensures tells { (command : Command) (text : List ℕ) → OnFault error (HasTextFault text) →
        Tells command text (K.view output.old) (K.view output.new) result }
    ensures faults { CountsFault (result ≡ Exit.WriteFault) (K.view output.old).faults (K.view output.new).faults }
{
    let CompileError::Fault(fault) = error else {
        return Exit::Memory;
    };
    *refused = Some(fault);
    let Ok(line) = fault_line(alloc, fault) else {
        return Exit::Memory;
    };
    match write_all(output, line.as_bytes()) {
        Ok(()) => Exit::Refused,
        Err(_) => Exit::WriteFault,
    }
}

// Writes the line of a text that is accepted.
fn accept<K: Sink>(output: &mut K) -> Exit
    ensures tells { (name text : List ℕ) → IsAccepted text →
        Tells (check name) text (K.view output.old) (K.view output.new) result }
    ensures faults { CountsFault (result ≡ Exit.WriteFault) (K.view output.old).faults (K.view output.new).faults }
{
    match write_all(output, b"accepted\n") {
        Ok(()) => Exit::Done,
        Err(_) => Exit::WriteFault,
    }
}

/// Accepts a text, or refuses it.
pub fn check_text<K: Sink>(
    alloc: Global,
    text: &[u8],
    output: &mut K,
    examined: &mut Examined<'_>,
) -> Exit
    ensures tells { (name : List ℕ) → Tells (check name) text.now (K.view output.old) (K.view output.new) result }
    ensures faults { CountsFault (result ≡ Exit.WriteFault) (K.view output.old).faults (K.view output.new).faults }
{
    match check_program(alloc, text, &mut examined.seen) {
        Ok(()) => accept(output),
        Err(error) => refuse(alloc, error, output, &mut examined.fault),
    }
}

/// Writes the line of a store that is refused.
pub fn refuse_store<K: Sink>(alloc: Global, refusal: StoreRefusal, output: &mut K) -> Exit
    ensures tells { TellsRefusal (refusal_view refusal) (K.view output.old) (K.view output.new) result }
    ensures faults { CountsFault (result ≡ Exit.WriteFault) (K.view output.old).faults (K.view output.new).faults }
{
    let Ok(line) = store_line(alloc, refusal) else {
        return Exit::Memory;
    };
    match write_all(output, line.as_bytes()) {
        Ok(()) => Exit::StoreRefused,
        Err(_) => Exit::WriteFault,
    }
}
