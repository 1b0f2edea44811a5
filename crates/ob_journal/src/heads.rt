//! How areas begin, and which of them is current.
ghost use Rattle.std.specs.Prelude.{◌≤◌, ℕ, List, length, MatchOption};
ghost use Rattle.ob_journal_spec.specs.Disks.{first, second, area_at};
ghost use Rattle.ob_journal_spec.specs.Heads.{BeginsHeader};
ghost use Rattle.ob_journal.specs.Heads.{IsHead, IsFrontOf, IsMarked, IsBlankAs, Begins, Chooses};

use crate::parts::{marked, serial};
use crate::place::AreaPlace;
use ob_base::Fields;

/// How an area begins.
#[derive(Clone, Copy)]
pub enum Head {
    /// With a closed gate.
    Closed,
    /// It has one byte at most, and no closed gate.
    Short,
    /// It is open and has no header.
    Unmarked,
    /// It is open and has a header of this serial.
    Marked(i64),
}

/// Which area of a disk is current.
#[derive(Clone, Copy)]
pub enum Current {
    /// Both are blank.
    Nothing,
    /// One is open and has no header.
    NoStore,
    /// That of this place, and whether the other one begins with a closed gate.
    At(AreaPlace, bool),
}

// The serial in a header, and how many bytes its image has.
fn numbers(bytes: &[u8]) -> Option<(i64, u32)>
    requires { length bytes.now ≤ 17 }
    ensures { MatchOption result (¬ (IsHead bytes.now)) (λ x. BeginsHeader x.0 x.1 bytes.now) }
{
    let Some(rest) = marked(bytes) else {
        return None;
    };
    let Some((serial, rest)) = serial(rest) else {
        return None;
    };
    let Ok(count) = Fields::new(rest).u32() else {
        return None;
    };
    Some((serial, count))
}

/// How an area of so many bytes begins, by its first bytes.
pub fn read_head(bytes: &[u8], count: u64) -> Head
    requires { length bytes.now ≤ 17 }
    ensures { (area : List ℕ) → IsFrontOf bytes.now count area → Begins result area }
{
    if bytes.is_empty() {
        return Head::Short;
    }
    if bytes[0] == 0 {
        return Head::Closed;
    }
    if count <= 1 {
        return Head::Short;
    }
    let Some((serial, image)) = numbers(bytes) else {
        return Head::Unmarked;
    };
    if u64::from(image) + 17 < count {
        Head::Marked(serial)
    } else {
        Head::Unmarked
    }
}

// Which area is current, if the first is blank.
fn second_alone(first_closed: bool, other: Head) -> Current
    ensures { (size : ℕ) (bytes : List ℕ) → IsBlankAs first_closed (area_at size first bytes) →
        Begins other (area_at size second bytes) → Chooses size result bytes }
{
    match other {
        Head::Unmarked => Current::NoStore,
        Head::Marked(_) => Current::At(AreaPlace::Second, first_closed),
        Head::Closed | Head::Short => Current::Nothing,
    }
}

// Which area is current, if the first has a header of this serial.
fn first_marked(serial: i64, other: Head) -> Current
    ensures { (size : ℕ) (bytes : List ℕ) → IsMarked serial (area_at size first bytes) →
        Begins other (area_at size second bytes) → Chooses size result bytes }
{
    match other {
        Head::Unmarked => Current::NoStore,
        Head::Closed => Current::At(AreaPlace::First, true),
        Head::Short => Current::At(AreaPlace::First, false),
        Head::Marked(second) => {
            if serial < second {
                Current::At(AreaPlace::Second, false)
            } else {
                Current::At(AreaPlace::First, false)
            }
        }
    }
}

/// Which area is current: of two open ones that of the greater serial, and of equal serials the first.
pub fn choose(one: Head, other: Head) -> Current
    ensures { (size : ℕ) (bytes : List ℕ) → Begins one (area_at size first bytes) → Begins other (area_at size second bytes) →
        Chooses size result bytes }
{
    match one {
        Head::Unmarked => Current::NoStore,
        Head::Closed => second_alone(true, other),
        Head::Short => second_alone(false, other),
        Head::Marked(serial) => first_marked(serial, other),
    }
}
