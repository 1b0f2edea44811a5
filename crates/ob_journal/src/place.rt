//! Which of the two areas of a disk.
ghost use Rattle.std.specs.Prelude.{◌≡◌, ◌≤◌};
ghost use Rattle.ob_journal_spec.specs.Disks.{other_place, start_of};
ghost use Rattle.ob_journal.specs.Places.{place_in};

/// One of the two areas: the second begins where the first ends.
#[derive(Clone, Copy)]
pub enum AreaPlace {
    /// The area at the start of the disk.
    First,
    /// The one behind it.
    Second,
}

impl AreaPlace {
    /// The other one.
    pub fn other(self) -> Self
        ensures { place_in result ≡ other_place (place_in self) }
    {
        match self {
            AreaPlace::First => AreaPlace::Second,
            AreaPlace::Second => AreaPlace::First,
        }
    }

    /// Where it begins, if each area has this size.
    pub fn start(self, size: u64) -> u64
        ensures start { result ≡ start_of size (place_in self) }
        ensures within { result ≤ size }
    {
        match self {
            AreaPlace::First => 0,
            AreaPlace::Second => size,
        }
    }
}
