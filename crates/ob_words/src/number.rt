//! The numbers among the words.
ghost use Rattle.std.specs.Prelude.{◌≡◌, option_map, nat_eq, slice_index};
ghost use Rattle.ob_words.specs.Settings.{number_in, number_or};

// Whether a plus stands first.
fn is_signed(text: &str) -> bool
    ensures { result ≡ nat_eq (slice_index text.now 0) 43 }
{
    matches!(text.as_bytes(), [b'+', ..])
}

/// The number from `least` to `most`, of 64 bits, that the text writes in decimal digits, without a sign.
pub fn long_number_in(text: &str, least: u64, most: u64) -> Option<u64>
    ensures { result ≡ number_in least most text.now }
{
    if is_signed(text) {
        return None;
    }
    match text.parse::<u64>() {
        Ok(number) => {
            if least <= number && number <= most {
                Some(number)
            } else {
                None
            }
        }
        Err(_) => None,
    }
}

/// The number from `least` to `most` that the text writes in decimal digits, without a sign.
pub fn number_in(text: &str, least: u32, most: u32) -> Option<u32>
    ensures { result ≡ number_in least most text.now }
{
    let number = long_number_in(text, u64::from(least), u64::from(most))?;
    u32::try_from(number).ok()
}

/// The number from 1 to `most` that a given text writes, or the default where none is given.
pub fn number_or(given: Option<&str>, most: u32, default: u32) -> Option<u32>
    ensures { result ≡ number_or most default (option_map (λ text. text.now) given.entry) }
{
    match given {
        None => Some(default),
        Some(text) => number_in(text, 1, most),
    }
}
