//! Numbers and texts as bytes, the highest byte first. Where there is no memory for all of them, none is appended.
ghost use Rattle.std.specs.Prelude.{◌≡◌, ◌<◌, ◌^◌, ◌++◌, length, if◌then◌else◌, is_ok};
ghost use Rattle.ob_base.specs.Bytes.{u8_bytes, u32_bytes, i64_bytes, text_bytes};

use crate::Memory;

/// Appends a byte.
pub fn put_u8(out: &mut Vec<u8>, value: u8) -> Result<(), Memory>
    ensures { out.new.items ≡ (if is_ok result then out.old.items ++ u8_bytes value else out.old.items) }
{
    out.push(value)?;
    Ok(())
}

/// Appends a number of 32 bits, the highest byte first.
pub fn put_u32(out: &mut Vec<u8>, value: u32) -> Result<(), Memory>
    ensures { out.new.items ≡ (if is_ok result then out.old.items ++ u32_bytes value else out.old.items) }
{
    out.extend_from_slice(&value.to_be_bytes())?;
    Ok(())
}

/// Appends a number of 64 bits with a sign, in two's complement, the highest byte first.
pub fn put_i64(out: &mut Vec<u8>, value: i64) -> Result<(), Memory>
    ensures { out.new.items ≡ (if is_ok result then out.old.items ++ i64_bytes value else out.old.items) }
{
    out.extend_from_slice(&value.to_be_bytes())?;
    Ok(())
}

/// Appends a text: its length in bytes as a number of 32 bits, and then its bytes.
pub fn put_text(out: &mut Vec<u8>, value: &str) -> Result<(), Memory>
    requires { length value.now < 2 ^ 32 }
    ensures { out.new.items ≡ (if is_ok result then out.old.items ++ text_bytes value.now else out.old.items) }
{
    let start = out.len();
    put_u32(out, value.len() as u32)?;
    if out.extend_from_slice(value.as_bytes()).is_err() {
        out.truncate(start);
        return Err(Memory);
    }
    Ok(())
}
