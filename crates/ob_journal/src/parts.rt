//! The parts of an area, from the front of bytes.
ghost use Rattle.std.specs.Prelude.{◌≡◌, ◌++◌, ◌∷◌, ◌≤◌, ℕ, ℤ, List, length, drop, MatchOption, pos, ◌≤ℤ◌};
ghost use Rattle.std.specs.Int.{w64};
ghost use Rattle.std.specs.Int.RustNames.{FitsSigned};
ghost use Rattle.ob_base.specs.Bytes.{i64_bytes};
ghost use Rattle.ob_journal_spec.specs.Spellings.{sized};
ghost use Rattle.ob_journal_spec.specs.Areas.{HasHeader, HasRecord};
ghost use Rattle.ob_journal.specs.Parts.{IsSized, BeginsSized, BeginsMarked, BeginsSerial, IsSerial};

use ob_base::Fields;

/// The bytes from an offset on.
pub fn behind(bytes: &[u8], at: usize) -> &[u8]
    requires { at ≤ length bytes.now }
    ensures { result.now ≡ drop at bytes.now }
{
    &bytes[at..]
}

/// Bytes with their number before them, and what follows.
pub fn sized(bytes: &[u8]) -> Option<(&[u8], &[u8])>
    ensures { MatchOption result (¬ (BeginsSized bytes.now)) (λ x. IsSized bytes.now x.0.now x.1.now) }
{
    let mut fields = Fields::new(bytes);
    let Ok(count) = fields.u32() else {
        return None;
    };
    let rest = behind(bytes, 4);
    let count = count as usize;
    if count > rest.len() {
        return None;
    }
    Some((&rest[..count], behind(rest, count)))
}

/// What follows a gate and the four letters of a header.
pub fn marked(bytes: &[u8]) -> Option<&[u8]>
    ensures { MatchOption result (¬ (BeginsMarked bytes.now))
        (λ rest. (gate : ℕ) × (bytes.now ≡ gate ∷ 79 ∷ 66 ∷ 83 ∷ 65 ∷ rest.now)) }
{
    match bytes {
        [_, b'O', b'B', b'S', b'A', rest @ ..] => Some(rest),
        _ => None,
    }
}

/// A serial from 1 on, and what follows.
pub fn serial(bytes: &[u8]) -> Option<(i64, &[u8])>
    ensures { MatchOption result (¬ (BeginsSerial bytes.now)) (λ x. IsSerial bytes.now x.0 x.1.now) }
{
    let mut fields = Fields::new(bytes);
    let Ok(number) = fields.i64() else {
        return None;
    };
    if number < 1 {
        return None;
    }
    Some((number, behind(bytes, 8)))
}

/// The payload of the record behind a gate, where one stands, with a gate behind it.
pub fn record_behind(bytes: &[u8]) -> Option<&[u8]>
    ensures { MatchOption result (¬ (HasRecord bytes.now))
        (λ payload. (r : HasRecord bytes.now) × (r.payload ≡ payload.now)) }
{
    let Some((payload, rest)) = sized(bytes) else {
        return None;
    };
    if rest.is_empty() {
        return None;
    }
    Some(payload)
}

/// The serial and the image of an area's header, where it has one, with a gate behind it.
pub fn header(bytes: &[u8]) -> Option<(i64, &[u8])>
    ensures { MatchOption result ((serial : ℤ) (image : List ℕ) → ¬ (HasHeader serial image bytes.now))
        (λ x. HasHeader x.0 x.1.now bytes.now) }
{
    let Some(rest) = marked(bytes) else {
        return None;
    };
    let Some((number, rest)) = serial(rest) else {
        return None;
    };
    let Some(image) = record_behind(rest) else {
        return None;
    };
    Some((number, image))
}
