//! Numbers that other languages write with a base or with `_` between the digits.

use ob_explain_page::Words;

/// The greatest number of a text.
const MOST: u64 = 9223372036854775807;

// The value of a digit; of what is none, more than any base.
fn digit_of(byte: u8) -> u64 {
    match byte {
        b'0'..=b'9' => u64::from(byte.wrapping_sub(b'0')),
        b'a'..=b'f' => u64::from(byte.wrapping_sub(b'a')) + 10,
        b'A'..=b'F' => u64::from(byte.wrapping_sub(b'A')) + 10,
        _ => 99,
    }
}

// A number with one more digit, if that is one and the number isn't too great.
fn with_digit(value: u64, digit: u64, base: u64) -> Option<u64> {
    if digit >= base {
        return None;
    }
    match value.checked_mul(base) {
        Some(more) => more.checked_add(digit),
        None => None,
    }
}

// The value of digits behind others, between which `_` may stand.
fn value_of(before: u64, digits: &[u8], base: u64) -> Option<u64> {
    let mut value = before;
    for byte in digits {
        if *byte != b'_' {
            match with_digit(value, digit_of(*byte), base) {
                Some(more) => value = more,
                None => return None,
            }
        }
    }
    Some(value)
}

// The base that a letter behind a zero represents; 10 where it represents none.
fn base_of(letter: u8) -> u64 {
    match letter {
        b'x' | b'X' => 16,
        b'o' | b'O' => 8,
        b'b' | b'B' => 2,
        _ => 10,
    }
}

// The base of a number behind whose first digits this name stands.
fn base_at(name: &[u8]) -> u64 {
    match name.first() {
        Some(letter) => base_of(*letter),
        None => 10,
    }
}

// The value of decimal digits, those of a number and those in the name behind it.
fn value_in_tens(digits: &str, name: &[u8]) -> Option<u64> {
    match value_of(0, digits.as_bytes(), 10) {
        Some(front) => value_of(front, name, 10),
        None => None,
    }
}

// The value of the digits behind a zero and the letter of a base.
fn value_in_base(digits: &str, name: &[u8], base: u64) -> Option<u64> {
    match name.get(1..) {
        Some(rest) => {
            if digits == "0" {
                value_of(0, rest, base)
            } else {
                None
            }
        }
        None => None,
    }
}

// The value of a number and the name behind it.
fn value_parted(digits: &str, name: &[u8]) -> Option<u64> {
    let base = base_at(name);
    if base == 10 {
        value_in_tens(digits, name)
    } else {
        value_in_base(digits, name, base)
    }
}

/// Puts a number that is written as digits and a name behind them in decimal digits, if it is one.
pub fn put_decimal(words: &mut Words, digits: &str, name: &str) {
    if let Some(value) = value_parted(digits, name.as_bytes()) {
        if value <= MOST {
            words.put(": `");
            words.put_number(value);
            words.put("`");
        }
    }
}
