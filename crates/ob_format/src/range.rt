//! Reading numbers within a range.
ghost use Rattle.std.specs.Prelude.{◌≡◌, ◌<◌, ◌≤◌, ◌^◌, IfOk};
ghost use Rattle.ob_format_spec.specs.Ranges.{range_byte, next_range, number_in};
ghost use Rattle.ob_format.specs.Answering.{Answers};

use crate::halt::{Halt, refused};
use ob_format_spec::Range;

// What a byte represents after which so many come.
fn unit(left: u32) -> u32
    requires { left < 4 }
    ensures value { result ≡ 256 ^ left }
    ensures some { 0 < result }
{
    match left {
        0 => 1,
        1 => 0x100,
        2 => 0x1_0000,
        _ => 0x100_0000,
    }
}

// Reads a byte of a number in the range, after which so many come.
fn range_byte(left: u32, range: Range, bytes: &[u8]) -> Result<(u8, &[u8]), Halt>
    requires { left < 4 }
    ensures { Answers result ((range_byte left range).read bytes.now) }
{
    let [first, rest @ ..] = bytes else {
        return Err(Halt::Stop { left: 0 });
    };
    let unit = unit(left);
    let byte = u32::from(*first);
    if range.low / unit <= byte && byte <= range.high / unit {
        Ok((*first, rest))
    } else {
        Err(refused(bytes))
    }
}

// The range of what comes after a byte.
fn next_range(left: u32, range: Range, byte: u8) -> Range
    requires { left < 4 }
    ensures { result ≡ next_range left range byte }
{
    let unit = unit(left);
    let byte = u32::from(byte);
    Range {
        low: if byte == range.low / unit {
            range.low % unit
        } else {
            0
        },
        high: if byte == range.high / unit {
            range.high % unit
        } else {
            unit - 1
        },
    }
}

fn range_number(low: u32, high: u32, bytes: &[u8]) -> Result<(u32, &[u8]), Halt>
    ensures { Answers result ((number_in low high).read bytes.now) }
{
    let range = Range { low, high };
    let (a, rest) = range_byte(3, range, bytes)?;
    let range = next_range(3, range, a);
    let (b, rest) = range_byte(2, range, rest)?;
    let range = next_range(2, range, b);
    let (c, rest) = range_byte(1, range, rest)?;
    let range = next_range(1, range, c);
    let (d, rest) = range_byte(0, range, rest)?;
    Ok((u32::from_be_bytes([a, b, c, d]), rest))
}

/// Reads a number from `low` to `high`, each of 32 bits.
pub fn number_in(low: u32, high: u32, bytes: &[u8]) -> Result<(u32, &[u8]), Halt>
    requires { low ≤ high }
    ensures value { Answers result ((number_in low high).read bytes.now) }
    ensures within { IfOk result (λ x. (low ≤ x.0) × (x.0 ≤ high)) }
{
    let (number, rest) = range_number(low, high, bytes)?;
    Ok((number, rest))
}
