//! The top call: each command goes to what does it.
ghost use Rattle.std.specs.Prelude.{◌≡◌, None, Some, map, string_bytes};
ghost use Rattle.ob_outside.specs.Outside.{told};
ghost use Rattle.ob_outside.specs.Profiles.{KeepsTo};
ghost use Rattle.ob_words.specs.Asked.{asked_of};
ghost use Rattle.ob_words.specs.Further.{AskedFurther as AskedFurtherOf, further_of};
ghost use Rattle.ob_words.specs.FurtherView.{further_view};
ghost use Rattle.ob_run.specs.Corollary.{ServesObservable};
ghost use Rattle.ob_run.specs.Runs.{IsRun};
ghost use Rattle.obsidian.specs.Dispatch.{Does, IsFurther, profile_of};

use ob_base::Memory;
use ob_disk::Disk;
use ob_io::{Files, Sink, Source};
use ob_outside::{Exit, Outside};
use ob_run::Examined;
use ob_words::{Further, parse_further};
use std::alloc::Global;

// Does a further command. None is built yet.
fn do_further<F: Files, S: Source, K: Sink, D: Disk>(
    further: Further<'_>,
    outside: &mut Outside<F, S, K, D>,
) -> Exit
    ensures does { Does (further_view further.entry)
        (told F.view S.view K.view D.view outside.old)
        (told F.view S.view K.view D.view outside.new) result }
    ensures keeps { KeepsTo (profile_of (further_view further.entry))
        (told F.view S.view K.view D.view outside.old)
        (told F.view S.view K.view D.view outside.new) result }
{
    let _ = outside;
    match further {
        Further::Upgrade(_, _, _) => Exit::Usage,
        Further::Ship(_, _, _) => Exit::Usage,
        Further::Follow(_, _) => Exit::Usage,
        Further::Build(_) => Exit::Usage,
        Further::Exec(_) => Exit::Usage,
        Further::ExecStored(_, _) => Exit::Usage,
        Further::Plan(_, _) => Exit::Usage,
    }
}

/// Does what the words say, and answers how it ended. The words leave out the program's own name. Of words that ask for a further
/// command it says what that command does, unless memory runs out before they are read, and that it keeps to its profile; of all
/// others what `IsRun` says.
pub fn run<F: Files, S: Source, K: Sink, D: Disk>(
    alloc: Global,
    words: &[String],
    outside: &mut Outside<F, S, K, D>,
    examined: &mut Examined<'_>,
) -> Exit
    ensures known { further_of (map string_bytes words.now) ≡ None → IsRun (asked_of (map string_bytes words.now))
        (told F.view S.view K.view D.view outside.old)
        (told F.view S.view K.view D.view outside.new) result }
    ensures corollary { further_of (map string_bytes words.now) ≡ None → ServesObservable (asked_of (map string_bytes words.now))
        (told F.view S.view K.view D.view outside.old)
        (told F.view S.view K.view D.view outside.new) result }
    ensures further { (asked : AskedFurtherOf) → further_of (map string_bytes words.now) ≡ Some asked → IsFurther asked
        (told F.view S.view K.view D.view outside.old)
        (told F.view S.view K.view D.view outside.new) result }
    ensures keeps { (asked : AskedFurtherOf) → further_of (map string_bytes words.now) ≡ Some asked → KeepsTo (profile_of asked.further)
        (told F.view S.view K.view D.view outside.old)
        (told F.view S.view K.view D.view outside.new) result }
{
    match parse_further(alloc, words) {
        Ok(None) => ob_run::run(alloc, words, outside, examined),
        Ok(Some(asked)) => do_further(asked.further, outside),
        Err(Memory) => Exit::Memory,
    }
}
