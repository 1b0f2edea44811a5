//! Writes that come to the disk for good.
ghost use Rattle.std.specs.Prelude.{◌≡◌, ◌<◌, ◌≤◌, ◌+◌, ◌^◌, ℕ, length, OnOk};
ghost use Rattle.ob_disk_spec.specs.Disk.{Reads, WrittenOver, IsQuiet};
ghost use Rattle.ob_disk_spec.specs.Durable.{Throughout, During, TornFrom, KeepsBehind};
ghost use Rattle.ob_io.specs.Causes.{HasCause};

use crate::Disk;
use ob_base::Failed;

/// Writes bytes and syncs them. At `Ok` they have come to the disk for good. A crash in it, and an `Err`, leave a
/// torn form of the disk or of an image, and what follows the bytes as it was.
pub fn durable_write<D: Disk>(disk: &mut D, at: u64, bytes: &[u8]) -> Result<(), Failed>
    requires { at + length bytes.now < 2 ^ 64 }
    ensures written { OnOk result (Throughout (D.view disk.new) (WrittenOver (Reads (D.view disk.old)) at bytes.now)) }
    ensures crash { During (D.view disk.old) (D.view disk.new) (TornFrom (D.view disk.old) at (length bytes.now)) }
    ensures behind { (size : ℕ) → at + length bytes.now ≤ size → KeepsBehind size (D.view disk.old) (D.view disk.new) }
    ensures attaches { (D.view disk.new).attaches ≡ (D.view disk.old).attaches }
    ensures cause { HasCause (D.view disk.old).faults (D.view disk.new).faults result }
{
    disk.write(at, bytes)?;
    disk.sync()
}

/// Syncs: what a read gives has come to the disk for good.
pub fn settle<D: Disk>(disk: &mut D) -> Result<(), Failed>
    ensures durable { OnOk result (Throughout (D.view disk.new) (Reads (D.view disk.new))) }
    ensures same { OnOk result ((D.view disk.new).content ≡ (D.view disk.old).content) }
    ensures quiet { IsQuiet (D.view disk.old) (D.view disk.new) }
    ensures attaches { (D.view disk.new).attaches ≡ (D.view disk.old).attaches }
    ensures cause { HasCause (D.view disk.old).faults (D.view disk.new).faults result }
{
    disk.sync()
}
