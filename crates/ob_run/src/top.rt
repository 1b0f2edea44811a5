//! The top call.
ghost use Rattle.std.specs.Prelude.{◌≡◌, ◌≤◌, Option, Some, map, option_map, string_bytes, IfOk, IsErrOf};
ghost use Rattle.ob_io.specs.Causes.{Rose};
ghost use Rattle.ob_disk.specs.Sure.{sure_disk_view};
ghost use Rattle.ob_io.specs.Files.{NotesAsk};
ghost use Rattle.ob_io.specs.Sure.{sure_files_view, sure_source_view, sure_sink_view};
ghost use Rattle.ob_words.specs.Asked.{Asked as AskedWords, asked_of};
ghost use Rattle.ob_words.specs.AskedView.{asked_view, command_view};
ghost use Rattle.ob_run.specs.Attaching.{UsesDisk, store_of, store_asked};
ghost use Rattle.ob_run.specs.Commands.{file_of};
ghost use Rattle.ob_run.specs.Corollary.{ServesObservable};
ghost use Rattle.ob_outside.specs.Faults.{CountsFault, EndsAtFault, NamesNoFault};
ghost use Rattle.ob_run.specs.FileAsks.{AsksFor, program_ask};
ghost use Rattle.ob_outside.specs.Outside.{told, devices};
ghost use Rattle.ob_run.specs.Runs.{IsRun};
ghost use Rattle.ob_outside.specs.declared.exit.Exit.{Exit};
ghost use Rattle.ob_outside.specs.declared.outside.Outside.{Outside};
ghost use Rattle.ob_disk.specs.declared.sure.SureDisk.{SureDisk};
ghost use Rattle.ob_io.specs.declared.sure.SureFiles.{SureFiles};
ghost use Rattle.ob_io.specs.declared.sure.SureSink.{SureSink};
ghost use Rattle.ob_io.specs.declared.sure.SureSource.{SureSource};
ghost use Rattle.ob_run.specs.Statuses.{Treats, MeetsStatus};
ghost use Rattle.ob_run.specs.TextRead.{IsReadOf};

use crate::auditing::audit_store;
use crate::examined::Examined;
use crate::machine::vending_machine;
use crate::serving::{serve_text, serve_text_stored};
use crate::telling::check_text;
use crate::trying::try_text;
use ob_base::LONGEST_PROGRAM;
use ob_disk::Disk;
use ob_io::{FileError, Files, Sink, Source};
use ob_outside::{Exit, Outside};
use ob_serve::Limits;
use ob_words::{Asked, Command, WordsError, parse_words};
use std::alloc::Global;

/// The most bytes of a program's file that are read: one more than a program may have.
const MOST_READ: usize = LONGEST_PROGRAM + 1;

// The file P of a command.
fn file_of(command: Command<'_>) -> Option<&str>
    ensures { option_map (λ name. name.now) result ≡ file_of (command_view command.entry) }
{
    match command {
        Command::Check(name) | Command::Serve(name) => Some(name),
        Command::ServeStored(name, _) | Command::Audit(name, _) => Some(name),
        Command::Trial(_) => None,
    }
}

// The text of a command's file, as far as it is read.
fn read_text<F: Files>(alloc: Global, files: &mut F, name: &str) -> Result<Vec<u8>, FileError>
    ensures text { IfOk result (λ text. IsReadOf ((F.view files.old).content name.now) text.items) }
    ensures asks { NotesAsk (F.view files.old).asks (F.view files.new).asks (program_ask name.now) result }
    ensures cause { IsErrOf result FileError.Failed → Rose (F.view files.old).faults (F.view files.new).faults }
    ensures faults { CountsFault (result ≡ Err FileError.Failed) (F.view files.old).faults (F.view files.new).faults }
{
    let mut text = Vec::new(alloc);
    files.read(name, MOST_READ, &mut text)?;
    Ok(text)
}

// Does with a text what is asked. The files stay.
fn treat<F: Files, S: Source, K: Sink, D: Disk>(
    alloc: Global,
    asked: Asked<'_>,
    text: &[u8],
    outside: &mut Outside<F, S, K, D>,
    examined: &mut Examined<'_>,
) -> Exit
    requires lanes { 1 ≤ asked.limits.lanes }
    requires most_lanes { asked.limits.lanes ≤ 8 }
    requires slice { 1 ≤ asked.limits.slice }
    ensures treats { Treats (asked_view asked.entry) text.now
        (devices (told F.view S.view K.view D.view outside.old))
        (devices (told F.view S.view K.view D.view outside.new)) result }
    ensures files { outside.new.files ≡ outside.old.files }
    ensures disk { UsesDisk (store_of (asked_view asked.entry).command) (D.view outside.old.disk) (D.view outside.new.disk) }
    ensures faults { EndsAtFault
        (told F.view S.view K.view D.view outside.old)
        (told F.view S.view K.view D.view outside.new) result }
{
    let fuel = asked.limits.fuel;
    let limits = Limits {
        fuel,
        lanes: asked.limits.lanes,
        slice: asked.limits.slice,
    };
    match asked.command {
        Command::Check(_) => check_text(alloc, text, &mut outside.output, examined),
        Command::Serve(_) => serve_text(alloc, text, limits, outside, examined),
        Command::ServeStored(_, name) => {
            serve_text_stored(alloc, text, name, limits, outside, examined)
        }
        Command::Audit(_, name) => audit_store(alloc, text, name, outside, examined),
        Command::Trial(length) => try_text(alloc, text, length, &mut outside.output, examined),
    }
}

// Does what the words say.
fn run_words<F: Files, S: Source, K: Sink, D: Disk>(
    alloc: Global,
    words: &[String],
    outside: &mut Outside<F, S, K, D>,
    examined: &mut Examined<'_>,
) -> Exit
    ensures status { MeetsStatus (asked_of (map string_bytes words.now))
        (told F.view S.view K.view D.view outside.old)
        (told F.view S.view K.view D.view outside.new) result }
    ensures asks { AsksFor (asked_of (map string_bytes words.now))
        (F.view outside.old.files).asks (F.view outside.new.files).asks }
    ensures disk { UsesDisk (store_asked (asked_of (map string_bytes words.now)))
        (D.view outside.old.disk) (D.view outside.new.disk) }
    ensures faults { EndsAtFault
        (told F.view S.view K.view D.view outside.old)
        (told F.view S.view K.view D.view outside.new) result }
{
    let asked = match parse_words(alloc, words) {
        Ok(asked) => asked,
        Err(WordsError::Usage) => return Exit::Usage,
        Err(WordsError::Memory) => return Exit::Memory,
    };
    let Some(name) = file_of(asked.command) else {
        return treat(
            alloc,
            asked,
            vending_machine().as_bytes(),
            outside,
            examined,
        );
    };
    match read_text(alloc, &mut outside.files, name) {
        Ok(text) => {
            let exit = treat(alloc, asked, &text, outside, examined);
            examined.text = Some(text);
            exit
        }
        Err(FileError::Failed) => Exit::FileFault,
        Err(FileError::Memory) => Exit::Memory,
    }
}

/// Does what the words say, and answers how it ended. The words leave out the program's own name. The theorem is `IsRun`: it speaks of
/// what is observable of the files, the input, the output and the disk, before the run and after it. Its corollary says what follows for
/// `serve P STORE` where all bytes are observable. Words that are a row of the table are asked (`written_words_are_asked` of ob_words), so
/// of these both speak as they are written. Of `examined`, which serves to explain a text and a store to a person, nothing is
/// said.
#[tactic(auto, using(crate::proofs::TopLemmas::is_run, crate::proofs::CorollaryLemmas::serves_observable))]
pub fn run<F: Files, S: Source, K: Sink, D: Disk>(
    alloc: Global,
    words: &[String],
    outside: &mut Outside<F, S, K, D>,
    examined: &mut Examined<'_>,
) -> Exit
    ensures theorem { IsRun (asked_of (map string_bytes words.now))
        (told F.view S.view K.view D.view outside.old)
        (told F.view S.view K.view D.view outside.new) result }
    ensures corollary { ServesObservable (asked_of (map string_bytes words.now))
        (told F.view S.view K.view D.view outside.old)
        (told F.view S.view K.view D.view outside.new) result }
{
    run_words(alloc, words, outside, examined)
}

/// Over files, a source, a sink and a disk that never fail, a run names no fault of a call: it ends with none of `ReadFault`,
/// `WriteFault`, `DiskFault` and `FileFault`.
pub fn sure_runs_name_no_fault()
    ensures { (words : Option AskedWords) (before after : Outside SureFiles SureSource SureSink SureDisk) (exit : Exit)
        → IsRun words (told sure_files_view sure_source_view sure_sink_view sure_disk_view before)
        (told sure_files_view sure_source_view sure_sink_view sure_disk_view after) exit
        → NamesNoFault exit }
{}
