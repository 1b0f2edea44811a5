//! What holds of each area, and of the two areas of each disk.
ghost use Rattle.std.specs.Prelude.{◌≡◌, ◌⊎◌, ℕ, List};
ghost use Rattle.ob_format_spec.specs.Lawful.{AreBytes};
ghost use Rattle.ob_journal_spec.specs.Areas.{Journaled, AreaRepresents, IsBlank, IsNoStore, IsDamaged};
ghost use Rattle.ob_journal_spec.specs.Disks.{Place, IsJournalAt, IsBlankDisk, IsNoStoreDisk, IsDamagedDisk};

/// An area represents one thing at most, and is damaged at one offset at most.
pub fn one_meaning()
    ensures stands { (area : List ℕ) (j k : Journaled) → AreaRepresents j area → AreaRepresents k area → j ≡ k }
    ensures offset { (area : List ℕ) (m n : ℕ) → IsDamaged m area → IsDamaged n area → m ≡ n }
{}

/// An area isn't two of these at once: blank, no store, damaged, or one that represents something.
pub fn one_outcome()
    ensures blank_or_no_store { (area : List ℕ) → IsBlank area → ¬ (IsNoStore area) }
    ensures blank_or_damaged { (area : List ℕ) (n : ℕ) → IsBlank area → ¬ (IsDamaged n area) }
    ensures blank_or_stands { (area : List ℕ) (j : Journaled) → IsBlank area → ¬ (AreaRepresents j area) }
    ensures no_store_or_damaged { (area : List ℕ) (n : ℕ) → IsNoStore area → ¬ (IsDamaged n area) }
    ensures no_store_or_stands { (area : List ℕ) (j : Journaled) → IsNoStore area → ¬ (AreaRepresents j area) }
    ensures whole_or_damaged { (area : List ℕ) (j : Journaled) (n : ℕ) → AreaRepresents j area → ¬ (IsDamaged n area) }
{}

/// A disk represents one journal at most, by one of its areas, and is damaged at one offset at most.
pub fn one_journal()
    ensures journal { (size : ℕ) (bytes : List ℕ) (p q : Place) (j k : Journaled) →
        IsJournalAt size p j bytes → IsJournalAt size q k bytes → (p ≡ q) × (j ≡ k) }
    ensures offset { (size : ℕ) (bytes : List ℕ) (m n : ℕ) → IsDamagedDisk size m bytes → IsDamagedDisk size n bytes → m ≡ n }
{}

/// A disk isn't two of these at once: blank, no store, damaged, or one that represents a journal.
pub fn one_finding()
    ensures blank_or_no_store { (size : ℕ) (bytes : List ℕ) → IsBlankDisk size bytes → ¬ (IsNoStoreDisk size bytes) }
    ensures blank_or_damaged { (size : ℕ) (bytes : List ℕ) (n : ℕ) → IsBlankDisk size bytes → ¬ (IsDamagedDisk size n bytes) }
    ensures blank_or_journal { (size : ℕ) (bytes : List ℕ) (p : Place) (j : Journaled) →
        IsBlankDisk size bytes → ¬ (IsJournalAt size p j bytes) }
    ensures no_store_or_damaged { (size : ℕ) (bytes : List ℕ) (n : ℕ) → IsNoStoreDisk size bytes → ¬ (IsDamagedDisk size n bytes) }
    ensures no_store_or_journal { (size : ℕ) (bytes : List ℕ) (p : Place) (j : Journaled) →
        IsNoStoreDisk size bytes → ¬ (IsJournalAt size p j bytes) }
    ensures journal_or_damaged { (size : ℕ) (bytes : List ℕ) (p : Place) (j : Journaled) (n : ℕ) →
        IsJournalAt size p j bytes → ¬ (IsDamagedDisk size n bytes) }
{}

/// A disk is one of them.
pub fn each_finding()
    ensures { (size : ℕ) (bytes : List ℕ) → AreBytes bytes → IsBlankDisk size bytes ⊎ (IsNoStoreDisk size bytes ⊎
        (((n : ℕ) × IsDamagedDisk size n bytes) ⊎ ((p : Place) × (j : Journaled) × IsJournalAt size p j bytes))) }
{}
