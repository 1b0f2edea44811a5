//! What is read of a disk.
ghost use Rattle.std.specs.Prelude.{◌≡◌, ◌+◌, ◌<◌, ◌≤◌, ℕ, List, length, take, drop, IfOk, OnOk};
ghost use Rattle.ob_disk_spec.specs.Disk.{Reads};
ghost use Rattle.ob_disk_spec.specs.Durable.{May, Throughout, During, KeepsBehind};
ghost use Rattle.ob_io.specs.Causes.{HasCause};
ghost use Rattle.ob_journal.specs.Reading.{ReadsAs, Counts};
ghost use Rattle.ob_journal.specs.Heads.{Begins, Chooses};

use crate::error::ReadFault;
use crate::heads::{Current, Head, choose, read_head};
use ob_base::{Failed, Memory};
use ob_disk::{Disk, settle};
use std::alloc::Global;

/// Syncs, so that what is read is what a crash leaves, and answers how many bytes there are.
pub fn measure<D: Disk>(disk: &mut D) -> Result<u64, Failed>
    ensures length { IfOk result (λ n. Counts n (D.view disk.new)) }
    ensures same { OnOk result ((D.view disk.new).content ≡ (D.view disk.old).content) }
    ensures settled { OnOk result (Throughout (D.view disk.new) (Reads (D.view disk.new))) }
    ensures quiet { During (D.view disk.old) (D.view disk.new) (May (D.view disk.old)) }
    ensures behind { (size : ℕ) → KeepsBehind size (D.view disk.old) (D.view disk.new) }
    ensures attaches { (D.view disk.new).attaches ≡ (D.view disk.old).attaches }
    ensures cause { HasCause (D.view disk.old).faults (D.view disk.new).faults result }
{
    settle(disk)?;
    let count = disk.len()?;
    Ok(count)
}

/// So many bytes, which a read then fills.
pub fn zeros(alloc: Global, count: usize) -> Result<Vec<u8>, Memory>
    ensures { IfOk result (λ bytes. length bytes.items ≡ count) }
{
    let bytes = vec![in alloc; 0; count]?;
    Ok(bytes)
}

/// Reads so many bytes from an offset on.
pub fn read_from<D: Disk>(
    alloc: Global,
    disk: &mut D,
    at: u64,
    count: u64,
) -> Result<Vec<u8>, ReadFault>
    requires { (c : List ℕ) → Reads (D.view disk.old) c → at + count ≤ length c }
    ensures bytes { IfOk result (λ bytes. (c : List ℕ) → Reads (D.view disk.old) c → bytes.items ≡ take count (drop at c)) }
    ensures len { IfOk result (λ bytes. length bytes.items ≡ count) }
    ensures same { OnOk result ((D.view disk.new).content ≡ (D.view disk.old).content) }
    ensures quiet { During (D.view disk.old) (D.view disk.new) (May (D.view disk.old)) }
    ensures behind { (size : ℕ) → KeepsBehind size (D.view disk.old) (D.view disk.new) }
    ensures attaches { (D.view disk.new).attaches ≡ (D.view disk.old).attaches }
    ensures cause { ReadsAs result (D.view disk.old).faults (D.view disk.new).faults }
{
    let Ok(mut bytes) = zeros(alloc, count as usize) else {
        return Err(ReadFault::Memory);
    };
    if disk.read(at, bytes.as_mut_slice()).is_err() {
        return Err(ReadFault::Disk);
    }
    Ok(bytes)
}

/// How many bytes an area has that begins at an offset of a disk of so many.
pub fn bytes_there(at: u64, area: u64, count: u64) -> u64
    ensures length { (c : List ℕ) → count ≡ length c → result ≡ length (take area (drop at c)) }
    ensures within { result ≤ area }
{
    if at < count { area.min(count - at) } else { 0 }
}

/// How the area at an offset begins. Where it has no byte, nothing is read.
pub fn look<D: Disk>(
    alloc: Global,
    disk: &mut D,
    at: u64,
    area: u64,
    count: u64,
) -> Result<Head, ReadFault>
    requires { Counts count (D.view disk.old) }
    ensures head { IfOk result (λ head. (c : List ℕ) → Reads (D.view disk.old) c → Begins head (take area (drop at c))) }
    ensures same { OnOk result ((D.view disk.new).content ≡ (D.view disk.old).content) }
    ensures quiet { During (D.view disk.old) (D.view disk.new) (May (D.view disk.old)) }
    ensures behind { (size : ℕ) → KeepsBehind size (D.view disk.old) (D.view disk.new) }
    ensures attaches { (D.view disk.new).attaches ≡ (D.view disk.old).attaches }
    ensures cause { ReadsAs result (D.view disk.old).faults (D.view disk.new).faults }
{
    let there = bytes_there(at, area, count);
    if there == 0 {
        return Ok(Head::Short);
    }
    let bytes = read_from(alloc, disk, at, there.min(17))?;
    Ok(read_head(bytes.as_slice(), there))
}

/// Which area of a disk is current.
pub fn look_at_both<D: Disk>(
    alloc: Global,
    disk: &mut D,
    area: u64,
    count: u64,
) -> Result<Current, ReadFault>
    requires { Counts count (D.view disk.old) }
    ensures current { IfOk result (λ current. (c : List ℕ) → Reads (D.view disk.old) c → Chooses area current c) }
    ensures same { OnOk result ((D.view disk.new).content ≡ (D.view disk.old).content) }
    ensures quiet { During (D.view disk.old) (D.view disk.new) (May (D.view disk.old)) }
    ensures behind { (size : ℕ) → KeepsBehind size (D.view disk.old) (D.view disk.new) }
    ensures attaches { (D.view disk.new).attaches ≡ (D.view disk.old).attaches }
    ensures cause { ReadsAs result (D.view disk.old).faults (D.view disk.new).faults }
{
    let one = look(alloc, disk, 0, area, count)?;
    let other = look(alloc, disk, area, area, count)?;
    Ok(choose(one, other))
}

/// Reads the area at an offset whole.
pub fn read_area<D: Disk>(
    alloc: Global,
    disk: &mut D,
    at: u64,
    area: u64,
    count: u64,
) -> Result<Vec<u8>, ReadFault>
    requires counts { Counts count (D.view disk.old) }
    requires within { (c : List ℕ) → Reads (D.view disk.old) c → at ≤ length c }
    ensures bytes { IfOk result (λ bytes. (c : List ℕ) → Reads (D.view disk.old) c → bytes.items ≡ take area (drop at c)) }
    ensures len { IfOk result (λ bytes. length bytes.items ≤ area) }
    ensures same { OnOk result ((D.view disk.new).content ≡ (D.view disk.old).content) }
    ensures quiet { During (D.view disk.old) (D.view disk.new) (May (D.view disk.old)) }
    ensures behind { (size : ℕ) → KeepsBehind size (D.view disk.old) (D.view disk.new) }
    ensures attaches { (D.view disk.new).attaches ≡ (D.view disk.old).attaches }
    ensures cause { ReadsAs result (D.view disk.old).faults (D.view disk.new).faults }
{
    let bytes = read_from(alloc, disk, at, bytes_there(at, area, count))?;
    Ok(bytes)
}
