//! A record is put on a disk.
ghost use Rattle.std.specs.Prelude.{◌≡◌, ◌+◌, ◌<◌, ◌≤◌, ◌^◌, ◌++◌, ◌∷◌, [], ℕ, List, Bool, length, take, drop, IfOk, OnOk};
ghost use Rattle.ob_base.specs.Bytes.{u32_bytes};
ghost use Rattle.ob_disk_spec.specs.Disk.{Reads, WrittenOver};
ghost use Rattle.ob_disk_spec.specs.Durable.{Throughout, During, KeepsBehind};
ghost use Rattle.ob_io.specs.Causes.{HasCause};
ghost use Rattle.ob_journal_spec.specs.Spellings.{sized};
ghost use Rattle.ob_journal_spec.specs.Areas.{Journaled, with_payload};
ghost use Rattle.ob_journal_spec.specs.Disks.{Place, IsWithOrWithout};
ghost use Rattle.ob_journal.specs.Moments.{IsHeld, IsAppend};

use ob_base::{Failed, Memory, put_u32};
use ob_disk::{Disk, durable_write};
use std::alloc::Global;

/// Puts what was built behind a closed gate, and then opens that. A crash in it, and an `Err`, leave the disk with the
/// record or without it.
pub fn put_record<D: Disk>(disk: &mut D, gate: u64, built: &[u8]) -> Result<(), Failed>
    requires { gate + length built.now < 2 ^ 62 }
    ensures held { OnOk result ((size : ℕ) (place : Place) (j : Journaled) (closed : Bool) (payload : List ℕ) →
        IsAppend size place j payload gate built.now → IsHeld size place j closed (D.view disk.old) →
        IsHeld size place (with_payload j payload) closed (D.view disk.new)) }
    ensures crash { (size : ℕ) (place : Place) (j : Journaled) (closed : Bool) (payload : List ℕ) →
        IsAppend size place j payload gate built.now → IsHeld size place j closed (D.view disk.old) →
        During (D.view disk.old) (D.view disk.new) (IsWithOrWithout size place j payload) }
    ensures written { OnOk result (Throughout (D.view disk.new)
        (WrittenOver (WrittenOver (Reads (D.view disk.old)) (gate + 1) built.now) gate (1 ∷ []))) }
    ensures behind { (size : ℕ) → gate + 1 + length built.now ≤ size → KeepsBehind size (D.view disk.old) (D.view disk.new) }
    ensures attaches { (D.view disk.new).attaches ≡ (D.view disk.old).attaches }
    ensures cause { HasCause (D.view disk.old).faults (D.view disk.new).faults result }
{
    durable_write(disk, gate + 1, built)?;
    durable_write(disk, gate, &[1])?;
    Ok(())
}

/// Puts a payload behind other bytes, with the number of its bytes.
pub fn put_sized(out: &mut Vec<u8>, payload: &[u8]) -> Result<(), Memory>
    requires { length payload.now < 2 ^ 32 }
    ensures { OnOk result (out.new.items ≡ out.old.items ++ sized.bytes payload.now) }
{
    put_u32(out, payload.len() as u32)?;
    out.extend_from_slice(payload)?;
    Ok(())
}

// Puts a number over the four bytes at an offset.
fn set_u32(bytes: &mut [u8], at: usize, value: u32)
    requires { at + 4 ≤ length bytes.old }
    ensures { bytes.new ≡ take at bytes.old ++ (u32_bytes value ++ drop (at + 4) bytes.old) }
{
    bytes[at..at + 4].copy_from_slice(&value.to_be_bytes());
}

/// Makes a payload, which stands four bytes behind an offset, the record there: puts the number of its bytes into those four, and
/// a closed gate behind it.
pub fn close_record(bytes: &mut Vec<u8>, at: usize) -> Result<(), Memory>
    requires within { at + 4 ≤ length bytes.old.items }
    requires small { length bytes.old.items < 2 ^ 32 }
    ensures { OnOk result (bytes.new.items ≡ take at bytes.old.items ++ (sized.bytes (drop (at + 4) bytes.old.items) ++ 0 ∷ [])) }
{
    let count = bytes.len() - (at + 4);
    set_u32(bytes, at, count as u32);
    bytes.push(0)?;
    Ok(())
}

/// The bytes that append a record: its payload with the number of its bytes, and a closed gate.
pub fn record_of(alloc: Global, payload: &[u8]) -> Result<Vec<u8>, Memory>
    requires { length payload.now < 2 ^ 32 }
    ensures { IfOk result (λ bytes. bytes.items ≡ sized.bytes payload.now ++ 0 ∷ []) }
{
    let mut bytes = Vec::new(alloc);
    put_sized(&mut bytes, payload)?;
    bytes.push(0)?;
    Ok(bytes)
}
