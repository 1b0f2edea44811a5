//! A run over any files, source, sink and disk, and who tells a person of it.
ghost use Rattle.std.specs.Prelude.{◌≡◌, None, Some, map, string_bytes};
ghost use Rattle.ob_outside.specs.Outside.{told};
ghost use Rattle.ob_outside.specs.Profiles.{KeepsTo};
ghost use Rattle.ob_words.specs.Asked.{asked_of};
ghost use Rattle.ob_words.specs.Further.{AskedFurther as AskedFurtherOf, further_of};
ghost use Rattle.ob_run.specs.Corollary.{ServesObservable};
ghost use Rattle.ob_run.specs.Runs.{IsRun};
ghost use Rattle.obsidian.specs.Dispatch.{IsFurther, profile_of};

use crate::dispatch::run;
use ob_disk::Disk;
use ob_io::{Files, Sink, Source};
use ob_outside::{Exit, Outside};
use ob_run::Examined;
use std::alloc::Global;

/// Who tells a person of a run that has ended. It sees everything, and is handed nothing to change.
pub trait Tells<F, S, K, D> {
    /// Tells of the run.
    fn tell(&self, outside: &Outside<F, S, K, D>, examined: &Examined<'_>, exit: Exit);
}

/// Does what the words say over these four objects, and has it told. What it answers, and what is observable then, is as `run` says.
pub fn run_over<F: Files, S: Source, K: Sink, D: Disk, T: Tells<F, S, K, D>>(
    alloc: Global,
    words: &[String],
    outside: &mut Outside<F, S, K, D>,
    examined: &mut Examined<'_>,
    teller: &T,
) -> Exit
    ensures known { further_of (map string_bytes words.now) ≡ None → IsRun (asked_of (map string_bytes words.now))
        (told F.view S.view K.view D.view outside.old)
        (told F.view S.view K.view D.view outside.new) result }
    ensures corollary { further_of (map string_bytes words.now) ≡ None → ServesObservable (asked_of (map string_bytes words.now))
        (told F.view S.view K.view D.view outside.old)
        (told F.view S.view K.view D.view outside.new) result }
    ensures further { (asked : AskedFurtherOf) → further_of (map string_bytes words.now) ≡ Some asked → IsFurther asked
        (told F.view S.view K.view D.view outside.old)
        (told F.view S.view K.view D.view outside.new) result }
    ensures keeps { (asked : AskedFurtherOf) → further_of (map string_bytes words.now) ≡ Some asked → KeepsTo (profile_of asked.further)
        (told F.view S.view K.view D.view outside.old)
        (told F.view S.view K.view D.view outside.new) result }
{
    let exit = run(alloc, words, outside, examined);
    teller.tell(outside, examined, exit);
    exit
}
