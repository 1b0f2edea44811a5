//! What holds of every lawful format.
ghost use Rattle.std.specs.Prelude.{◌≡◌, ℕ, List};
ghost use Rattle.ob_format_spec.specs.Formats.{Spells, FailsAt};

/// A type whose values have a lawful format.
pub trait Formatted {
    ghost use Rattle.ob_format_spec.specs.Formats.{Format};
    ghost use Rattle.ob_format_spec.specs.Lawful.{Lawful};

    /// The format.
    ghost format: { Format Self };

    /// It is lawful.
    ghost lawful: { Lawful format };
}

/// By a lawful format, bytes spell one value at most and have one first offset at which nothing goes on, and never both.
pub fn one_answer<T: Formatted>()
    ensures value { (bytes : List ℕ) (a b : T) → Spells T.format a bytes → Spells T.format b bytes → a ≡ b }
    ensures offset { (bytes : List ℕ) (j k : ℕ) → FailsAt T.format bytes j → FailsAt T.format bytes k → j ≡ k }
    ensures apart { (bytes : List ℕ) (a : T) (k : ℕ) → FailsAt T.format bytes k → ¬ (Spells T.format a bytes) }
{}
