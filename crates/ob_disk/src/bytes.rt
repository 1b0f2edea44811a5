//! Bytes in memory that are written over.
ghost use Rattle.std.specs.Prelude.{◌≡◌, ◌<◌, ◌+◌, ◌^◌, ◌-◌, ◌++◌, length, take, OnOk, OnErr};
ghost use Rattle.std.proofs.Math.ListN.{replicate};
ghost use Rattle.ob_disk_spec.specs.Disk.{overwritten};
ghost use Rattle.ob_disk.specs.Notes.{inside, spoiled};

use ob_base::Memory;
use std::alloc::Global;

// Adds zero bytes up to an offset. Without memory nothing changes.
fn pad(alloc: Global, bytes: &mut Vec<u8>, at: usize) -> Result<(), Memory>
    ensures ok { OnOk result (bytes.new.items ≡ bytes.old.items ++ replicate (at - length bytes.old.items) 0) }
    ensures err { OnErr result (bytes.new.items ≡ bytes.old.items) }
{
    if at > bytes.len() {
        bytes.extend_from_slice(&vec![in alloc; 0; at - bytes.len()]?)?;
    }
    Ok(())
}

// Writes over the bytes from an offset on, as far as they reach.
fn write_inside(bytes: &mut [u8], at: usize, new: &[u8])
    ensures len { length bytes.new ≡ length bytes.old }
    ensures written { bytes.new ≡ inside at new.now bytes.old }
{
    let start = at.min(bytes.len());
    let count = new.len().min(bytes.len() - start);
    bytes[start..start + count].copy_from_slice(&new[..count]);
}

/// Writes over the bytes from an offset on. Without memory nothing changes.
pub fn overwrite(alloc: Global, bytes: &mut Vec<u8>, at: usize, new: &[u8]) -> Result<(), Memory>
    requires { at + length new.now < 2 ^ 63 }
    ensures ok { OnOk result (bytes.new.items ≡ overwritten at new.now bytes.old.items) }
    ensures err { OnErr result (bytes.new.items ≡ bytes.old.items) }
{
    let len = bytes.len();
    pad(alloc, bytes, at)?;
    let reached = new.len().min(bytes.len() - at);
    if bytes.extend_from_slice(&new[reached..]).is_err() {
        bytes.truncate(len);
        return Err(Memory);
    }
    write_inside(bytes, at, new);
    Ok(())
}

/// Writes back what was written over, and ends the bytes where they ended.
pub fn restore(bytes: &mut Vec<u8>, at: usize, old: &[u8], len: usize)
    ensures { bytes.new.items ≡ inside at old.now (take len bytes.old.items) }
{
    bytes.truncate(len);
    write_inside(bytes, at, old);
}

// Spoils all of these bytes.
fn spoil_all(bytes: &mut [u8])
    ensures { bytes.new ≡ replicate (length bytes.old) 255 }
{
    bytes.fill(255);
}

/// Spoils the bytes of a range, as far as they reach.
pub fn spoil(bytes: &mut [u8], at: usize, count: usize)
    ensures len { length bytes.new ≡ length bytes.old }
    ensures spoiled { bytes.new ≡ spoiled at count bytes.old }
{
    let start = at.min(bytes.len());
    let reached = count.min(bytes.len() - start);
    spoil_all(&mut bytes[start..start + reached]);
}
