//! An area is opened: the first one on a blank disk, or the other one for a move.
ghost use Rattle.std.specs.Prelude.{◌≡◌, ◌+◌, ◌<◌, ◌≤◌, ◌^◌, ◌++◌, ◌∷◌, [], ℕ, List, length, drop, IfOk, OnOk};
ghost use Rattle.ob_disk_spec.specs.Disk.{Reads, WrittenOver};
ghost use Rattle.ob_disk_spec.specs.Durable.{May, Throughout, During, KeepsBehind};
ghost use Rattle.ob_io.specs.Causes.{HasCause};
ghost use Rattle.ob_base.specs.Bytes.{u32_bytes};
ghost use Rattle.ob_journal_spec.specs.Spellings.{header};
ghost use Rattle.ob_journal_spec.specs.Areas.{begun};
ghost use Rattle.ob_journal_spec.specs.Disks.{first, IsBlankOrBegunDisk};
ghost use Rattle.ob_journal.specs.Moments.{IsFresh, IsHeld, LooksClosed, OpensByOne};
ghost use Rattle.ob_journal.specs.Opening.{Opening, IsStart, IsOpening, IsAsBefore, IsNew, IsNewOrNot, IsReady, IsClosedFor, IsShut, ClosedOver, AreaOver, IsFirstOf};

use crate::appending::put_sized;
use ob_base::{Failed, Memory, put_i64, put_u32};
use ob_disk::{Disk, durable_write, settle};
use std::alloc::Global;

// Puts a header behind other bytes.
fn put_header(out: &mut Vec<u8>, serial: i64, image: &[u8]) -> Result<(), Memory>
    requires { length image.now < 2 ^ 32 }
    ensures { OnOk result (out.new.items ≡ out.old.items ++ header.bytes (serial, image.now)) }
{
    out.extend_from_slice(b"OBSA")?;
    put_i64(out, serial)?;
    put_sized(out, image)?;
    Ok(())
}

/// The header of an area, and a closed gate.
pub fn header_of(alloc: Global, serial: i64, image: &[u8]) -> Result<Vec<u8>, Memory>
    requires { length image.now < 2 ^ 32 }
    ensures { IfOk result (λ bytes. bytes.items ≡ header.bytes (serial, image.now) ++ 0 ∷ []) }
{
    let mut bytes = Vec::new(alloc);
    put_header(&mut bytes, serial, image)?;
    bytes.push(0)?;
    Ok(bytes)
}

/// Puts the header of an area, an open gate, and four bytes for the number of the bytes of the payload that is to follow.
pub fn put_front(out: &mut Vec<u8>, serial: i64, image: &[u8]) -> Result<(), Memory>
    requires { length image.now < 2 ^ 32 }
    ensures { OnOk result (out.new.items ≡ out.old.items ++ (header.bytes (serial, image.now) ++ 1 ∷ u32_bytes 0)) }
{
    put_header(out, serial, image)?;
    out.push(1)?;
    put_u32(out, 0)?;
    Ok(())
}

/// Whether what is on a disk from an offset on begins with a closed gate.
pub fn is_closed<D: Disk>(disk: &mut D, at: u64) -> Result<bool, Failed>
    ensures looks { IfOk result (λ closed. (c : List ℕ) → Reads (D.view disk.old) c → LooksClosed closed (drop at c)) }
    ensures same { OnOk result ((D.view disk.new).content ≡ (D.view disk.old).content) }
    ensures quiet { During (D.view disk.old) (D.view disk.new) (May (D.view disk.old)) }
    ensures behind { (size : ℕ) → KeepsBehind size (D.view disk.old) (D.view disk.new) }
    ensures attaches { (D.view disk.new).attaches ≡ (D.view disk.old).attaches }
    ensures cause { HasCause (D.view disk.old).faults (D.view disk.new).faults result }
{
    let count = disk.len()?;
    if count <= at {
        return Ok(false);
    }
    let mut first = [1];
    disk.read(at, &mut first)?;
    Ok(first[0] == 0)
}

// Closes the gate at an area's start, where it isn't. A write over a closed gate might open it.
fn close<D: Disk>(disk: &mut D, at: u64, closed: bool) -> Result<(), Failed>
    requires { at < 2 ^ 62 }
    ensures closed { OnOk result ((o : Opening) → IsStart o at → Throughout (D.view disk.old) (IsReady o closed) →
        Throughout (D.view disk.new) (IsClosedFor o)) }
    ensures crash { (o : Opening) → IsStart o at → Throughout (D.view disk.old) (IsReady o closed) →
        During (D.view disk.old) (D.view disk.new) (IsAsBefore o) }
    ensures written { OnOk result (Throughout (D.view disk.new) (ClosedOver closed (Reads (D.view disk.old)) at)) }
    ensures behind { (size : ℕ) → at + 1 ≤ size → KeepsBehind size (D.view disk.old) (D.view disk.new) }
    ensures attaches { (D.view disk.new).attaches ≡ (D.view disk.old).attaches }
    ensures cause { HasCause (D.view disk.old).faults (D.view disk.new).faults result }
{
    if closed {
        disk.sync()?;
        settle(disk)?;
        return Ok(());
    }
    durable_write(disk, at, &[0])?;
    Ok(())
}

/// Closes the gate at an area's start, and writes the area behind it, which a sync is still to follow. A crash in it, and an
/// `Err`, leave the disk with what it represented.
pub fn prepare_area<D: Disk>(
    disk: &mut D,
    at: u64,
    closed: bool,
    built: &[u8],
) -> Result<(), Failed>
    requires { at + length built.now < 2 ^ 62 }
    ensures shut { OnOk result ((o : Opening) → IsOpening o at built.now → Throughout (D.view disk.old) (IsReady o closed) →
        IsShut o (D.view disk.new)) }
    ensures crash { (o : Opening) → IsOpening o at built.now → Throughout (D.view disk.old) (IsReady o closed) →
        During (D.view disk.old) (D.view disk.new) (IsAsBefore o) }
    ensures written { OnOk result ((c : List ℕ) → Reads (D.view disk.new) c →
        WrittenOver (ClosedOver closed (Reads (D.view disk.old)) at) (at + 1) built.now c) }
    ensures behind { (size : ℕ) → at + 1 + length built.now ≤ size → KeepsBehind size (D.view disk.old) (D.view disk.new) }
    ensures attaches { (D.view disk.new).attaches ≡ (D.view disk.old).attaches }
    ensures cause { HasCause (D.view disk.old).faults (D.view disk.new).faults result }
{
    close(disk, at, closed)?;
    disk.write(at + 1, built)?;
    Ok(())
}

/// Syncs an area that was written behind a closed gate at its start, and then opens that. A crash in it, and an `Err`, leave
/// the disk with what it represented, or with the new area.
pub fn open_area<D: Disk>(disk: &mut D, at: u64) -> Result<(), Failed>
    requires { at < 2 ^ 62 }
    ensures opened { OnOk result ((o : Opening) → IsStart o at → IsShut o (D.view disk.old) →
        Throughout (D.view disk.new) (IsNew o)) }
    ensures crash { (o : Opening) → IsStart o at → IsShut o (D.view disk.old) →
        During (D.view disk.old) (D.view disk.new) (IsNewOrNot o) }
    ensures written { OnOk result (Throughout (D.view disk.new) (WrittenOver (Reads (D.view disk.old)) at (1 ∷ []))) }
    ensures behind { (size : ℕ) → at + 1 ≤ size → KeepsBehind size (D.view disk.old) (D.view disk.new) }
    ensures attaches { (D.view disk.new).attaches ≡ (D.view disk.old).attaches }
    ensures cause { HasCause (D.view disk.old).faults (D.view disk.new).faults result }
{
    settle(disk)?;
    durable_write(disk, at, &[1])?;
    Ok(())
}

/// Opens an area: closes its gate, writes it, and opens the gate, each with a sync behind it. A crash in it, and an `Err`, leave
/// the disk with what it represented, or with the new area.
pub fn put_area<D: Disk>(disk: &mut D, at: u64, closed: bool, built: &[u8]) -> Result<(), Failed>
    requires { at + length built.now < 2 ^ 62 }
    ensures opened { OnOk result ((o : Opening) → IsOpening o at built.now → Throughout (D.view disk.old) (IsReady o closed) →
        Throughout (D.view disk.new) (IsNew o)) }
    ensures crash { (o : Opening) → IsOpening o at built.now → Throughout (D.view disk.old) (IsReady o closed) →
        During (D.view disk.old) (D.view disk.new) (IsNewOrNot o) }
    ensures written { OnOk result (Throughout (D.view disk.new) (AreaOver closed (Reads (D.view disk.old)) at built.now)) }
    ensures behind { (size : ℕ) → at + 1 + length built.now ≤ size → KeepsBehind size (D.view disk.old) (D.view disk.new) }
    ensures attaches { (D.view disk.new).attaches ≡ (D.view disk.old).attaches }
    ensures cause { HasCause (D.view disk.old).faults (D.view disk.new).faults result }
{
    prepare_area(disk, at, closed, built)?;
    open_area(disk, at)?;
    Ok(())
}

/// Opens the first area of a blank disk, and answers whether the second one begins with a closed gate.
pub fn open_first<D: Disk>(disk: &mut D, area: u64, built: &[u8]) -> Result<bool, Failed>
    requires { length built.now < 2 ^ 62 }
    ensures held { IfOk result (λ closed. (image : List ℕ) → IsFirstOf area image built.now → IsFresh area (D.view disk.old) →
        IsHeld area first (begun image) closed (D.view disk.new)) }
    ensures crash { (image : List ℕ) → IsFirstOf area image built.now → IsFresh area (D.view disk.old) →
        During (D.view disk.old) (D.view disk.new) (IsBlankOrBegunDisk area image) }
    ensures opened { OnOk result (Throughout (D.view disk.new) OpensByOne) }
    ensures behind { (size : ℕ) → 1 + length built.now ≤ size → KeepsBehind size (D.view disk.old) (D.view disk.new) }
    ensures attaches { (D.view disk.new).attaches ≡ (D.view disk.old).attaches }
    ensures cause { HasCause (D.view disk.old).faults (D.view disk.new).faults result }
{
    let closed = is_closed(disk, 0)?;
    let other_closed = is_closed(disk, area)?;
    put_area(disk, 0, closed, built)?;
    Ok(other_closed)
}
