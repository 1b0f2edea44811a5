//! Reading bytes and numbers.
ghost use Rattle.std.specs.Prelude.{◌≡◌, ◌==◌, length};
ghost use Rattle.ob_format_spec.specs.Combinators.{read_byte, byte_below, any_byte, number, integer};
ghost use Rattle.ob_format.specs.Answering.{Answers, AnswersRest};

use crate::halt::{Halt, refused};

/// Reads a byte below a bound.
pub fn byte_below(bound: u8, bytes: &[u8]) -> Result<(u8, &[u8]), Halt>
    ensures { Answers result ((byte_below bound).read bytes.now) }
{
    match bytes {
        [first, rest @ ..] if *first < bound => Ok((*first, rest)),
        _ => Err(refused(bytes)),
    }
}

/// Reads a byte, whichever it is.
pub fn any_byte(bytes: &[u8]) -> Result<(u8, &[u8]), Halt>
    ensures { Answers result (any_byte.read bytes.now) }
{
    match bytes {
        [first, rest @ ..] => Ok((*first, rest)),
        _ => Err(refused(bytes)),
    }
}

/// Reads this byte.
pub fn one_byte(byte: u8, bytes: &[u8]) -> Result<&[u8], Halt>
    ensures { AnswersRest result (read_byte (λ b. b == byte) bytes.now) }
{
    match bytes {
        [first, rest @ ..] if *first == byte => Ok(rest),
        _ => Err(refused(bytes)),
    }
}

/// Reads a number of 32 bits.
pub fn number(bytes: &[u8]) -> Result<(u32, &[u8]), Halt>
    ensures { Answers result (number.read bytes.now) }
{
    let Some((block, rest)) = bytes.split_first_chunk::<4>() else {
        return Err(Halt::Stop { left: 0 });
    };
    Ok((u32::from_be_bytes(*block), rest))
}

/// Reads a number of 64 bits with a sign.
pub fn integer(bytes: &[u8]) -> Result<(i64, &[u8]), Halt>
    ensures { Answers result (integer.read bytes.now) }
{
    let Some((block, rest)) = bytes.split_first_chunk::<8>() else {
        return Err(Halt::Stop { left: 0 });
    };
    Ok((u64::from_be_bytes(*block).cast_signed(), rest))
}
