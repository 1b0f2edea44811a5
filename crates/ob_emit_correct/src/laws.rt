//! Emission keeps meaning.
ghost use Rattle.ob_emit_correct.specs.Law.{CallsEndAlike, NewsEndAlike};

/// Wherever a run by Silica steps that is coherent ends, the machine's run of the emitted code ends alike, for each call and each
/// `new` from outside.
pub fn emission_keeps_meaning()
    ensures calls { CallsEndAlike }
    ensures news { NewsEndAlike }
{}
