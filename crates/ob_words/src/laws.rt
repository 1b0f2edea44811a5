//! Words that are written out, and what they ask for.
ghost use Rattle.std.specs.Prelude.{◌≡◌, List, [], ◌∷◌, None, Some, codes};
ghost use Rattle.clap.specs.Walk.{Text};
ghost use Rattle.ob_words.specs.Asked.{Asked, asked_of, check, serve, serve_stored, audit, trial};
ghost use Rattle.ob_words.specs.Further.{further_of, upgrade, ship, follow, build, exec, exec_stored, plan};
ghost use Rattle.ob_words.specs.Worked.{default_limits, plainly, plainly_further, within};
ghost use Rattle.ob_words.specs.Written.{IsWritten};

/// Law: words that are a row of the table, with options before and after it, ask for what they say.
pub fn written_words_are_asked()
    ensures { (words : List Text) (asked : Asked) → IsWritten words asked → asked_of words ≡ Some asked }
{}

/// Laws: what these words ask for.
pub fn words_are_worked_out()
    ensures check { asked_of (codes "check" ∷ codes "V" ∷ []) ≡ plainly (check (codes "V")) }
    ensures serve_stored { asked_of (codes "serve" ∷ codes "V" ∷ codes "S" ∷ []) ≡ plainly (serve_stored (codes "V") (codes "S")) }
    ensures audit { asked_of (codes "audit" ∷ codes "V" ∷ codes "S" ∷ []) ≡ plainly (audit (codes "V") (codes "S")) }
    ensures leading_zeros { asked_of (codes "trial" ∷ codes "007" ∷ []) ≡ plainly (trial 7) }
    ensures behind_hyphens { asked_of (codes "serve" ∷ codes "--" ∷ codes "--x" ∷ []) ≡ plainly (serve (codes "--x")) }
    ensures with_equals { asked_of (codes "--fuel=6" ∷ codes "serve" ∷ codes "V" ∷ [])
        ≡ within (record default_limits { fuel = 6 }) (serve (codes "V")) }
    ensures options_behind { asked_of (codes "serve" ∷ codes "T" ∷ codes "--lanes" ∷ codes "2" ∷ codes "--slice" ∷ codes "10" ∷ [])
        ≡ within (record default_limits { lanes = 2; slice = 10 }) (serve (codes "T")) }
{}

/// Laws: these words are no command.
pub fn other_words_are_none()
    ensures no_words { asked_of [] ≡ None }
    ensures lone_serve { asked_of (codes "serve" ∷ []) ≡ None }
    ensures too_many { asked_of (codes "serve" ∷ codes "V" ∷ codes "S" ∷ codes "X" ∷ []) ≡ None }
    ensures lone_audit { asked_of (codes "audit" ∷ codes "V" ∷ []) ≡ None }
    ensures unknown { asked_of (codes "paint" ∷ codes "V" ∷ []) ≡ None }
    ensures no_fuel { asked_of (codes "--fuel" ∷ codes "0" ∷ codes "check" ∷ codes "V" ∷ []) ≡ None }
    ensures twice { asked_of (codes "--fuel" ∷ codes "5" ∷ codes "--fuel" ∷ codes "6" ∷ codes "serve" ∷ codes "V" ∷ []) ≡ None }
    ensures too_long { asked_of (codes "trial" ∷ codes "20001" ∷ []) ≡ None }
    ensures help { asked_of (codes "--help" ∷ []) ≡ None }
    ensures late_help { asked_of (codes "serve" ∷ codes "P" ∷ codes "-h" ∷ []) ≡ None }
{}

/// Laws: what these words ask for beside the commands.
pub fn further_words_are_worked_out()
    ensures upgrade { further_of (codes "upgrade" ∷ codes "O" ∷ codes "N" ∷ codes "S" ∷ [])
        ≡ plainly_further (upgrade (codes "O") (codes "N") (codes "S")) }
    ensures ship { further_of (codes "ship" ∷ codes "P" ∷ codes "S" ∷ []) ≡ plainly_further (ship (codes "P") (codes "S") None) }
    ensures ship_from { further_of (codes "ship" ∷ codes "P" ∷ codes "S" ∷ codes "9223372036854775807" ∷ codes "0" ∷ [])
        ≡ plainly_further (ship (codes "P") (codes "S") (Some (record { serial = 9223372036854775807; index = 0 }))) }
    ensures follow { further_of (codes "follow" ∷ codes "P" ∷ codes "S" ∷ []) ≡ plainly_further (follow (codes "P") (codes "S")) }
    ensures build { further_of (codes "build" ∷ codes "P" ∷ []) ≡ plainly_further (build (codes "P")) }
    ensures exec { further_of (codes "exec" ∷ codes "F" ∷ []) ≡ plainly_further (exec (codes "F")) }
    ensures exec_stored { further_of (codes "exec" ∷ codes "F" ∷ codes "S" ∷ []) ≡ plainly_further (exec_stored (codes "F") (codes "S")) }
    ensures plan { further_of (codes "plan" ∷ codes "P" ∷ codes "T" ∷ []) ≡ plainly_further (plan (codes "P") (codes "T")) }
{}

/// Laws: these words ask for nothing of the kind.
pub fn other_words_are_not_further()
    ensures no_words { further_of [] ≡ None }
    ensures lone_build { further_of (codes "build" ∷ []) ≡ None }
    ensures no_serial { further_of (codes "ship" ∷ codes "P" ∷ codes "S" ∷ codes "0" ∷ codes "0" ∷ []) ≡ None }
    ensures long_serial { further_of (codes "ship" ∷ codes "P" ∷ codes "S" ∷ codes "9223372036854775808" ∷ codes "0" ∷ []) ≡ None }
    ensures long_index { further_of (codes "ship" ∷ codes "P" ∷ codes "S" ∷ codes "1" ∷ codes "4294967296" ∷ []) ≡ None }
    ensures half_position { further_of (codes "ship" ∷ codes "P" ∷ codes "S" ∷ codes "1" ∷ []) ≡ None }
    ensures too_many { further_of (codes "upgrade" ∷ codes "O" ∷ codes "N" ∷ codes "S" ∷ codes "X" ∷ []) ≡ None }
{}

/// Law: words that ask for a command are no further one, so what is said of commands needn't speak of the others.
pub fn commands_are_not_further()
    ensures { (words : List Text) (asked : Asked) → asked_of words ≡ Some asked → further_of words ≡ None }
{}
