//! A disk, and what a crash may leave of it.
ghost use Rattle.std.specs.Prelude.{◌≡◌, ◌≤◌, ◌<◌, ◌+◌, ◌^◌, List, ℕ, length, take, drop, IfOk, OnOk};
ghost use Rattle.ob_disk_spec.specs.Disk.{DiskView, Reads, WrittenOver, IsQuiet, IsWrite};
ghost use Rattle.ob_disk_spec.specs.Calls.{NotesAttach, IsOneMore};
ghost use Rattle.ob_io.specs.Causes.{HasCause};

use ob_base::Failed;

/// A row of bytes that outlives a crash, as far as it was synced.
pub trait Disk {
    /// What it is at a moment.
    ghost view: { Self → DiskView };

    /// Takes the disk of this name, and notes it. Where what a read gives is observable, it was so before as well. Without
    /// memory for the note it fails, or names aren't observable from then on; only a call that failed may lack its note.
    fn attach(&mut self, name: &str) -> Result<(), Failed>
        ensures same { OnOk result ((view self.new).content ≡ (view self.old).content) }
        ensures quiet { IsQuiet (view self.old) (view self.new) }
        ensures cause { HasCause (view self.old).faults (view self.new).faults result }
        ensures attaches { NotesAttach (view self.old) (view self.new) name.now result }
        ensures calls { (view self.new).calls ≡ (view self.old).calls };

    /// How many bytes it has.
    fn len(&mut self) -> Result<u64, Failed>
        ensures length { IfOk result (λ n. (c : List ℕ) → Reads (view self.old) c → n ≡ length c) }
        ensures same { OnOk result ((view self.new).content ≡ (view self.old).content) }
        ensures quiet { IsQuiet (view self.old) (view self.new) }
        ensures cause { HasCause (view self.old).faults (view self.new).faults result }
        ensures attaches { (view self.new).attaches ≡ (view self.old).attaches }
        ensures calls { IsOneMore (view self.old).calls (view self.new).calls };

    /// Reads the bytes from an offset on. They lie within its bytes, where these are observable.
    fn read(&mut self, at: u64, into: &mut [u8]) -> Result<(), Failed>
        requires { (c : List ℕ) → Reads (view self.old) c → at + length into.old ≤ length c }
        ensures bytes { OnOk result ((c : List ℕ) → Reads (view self.old) c →
            into.new ≡ take (length into.old) (drop at c)) }
        ensures same { OnOk result ((view self.new).content ≡ (view self.old).content) }
        ensures quiet { IsQuiet (view self.old) (view self.new) }
        ensures cause { HasCause (view self.old).faults (view self.new).faults result }
        ensures attaches { (view self.new).attaches ≡ (view self.old).attaches }
        ensures calls { IsOneMore (view self.old).calls (view self.new).calls };

    /// Writes over what is there, and past the end. Until a sync a crash may leave any bytes in the range.
    fn write(&mut self, at: u64, bytes: &[u8]) -> Result<(), Failed>
        requires { at + length bytes.now < 2 ^ 64 }
        ensures written { OnOk result ((c : List ℕ) → Reads (view self.new) c →
            WrittenOver (Reads (view self.old)) at bytes.now c) }
        ensures torn { IsWrite at (length bytes.now) (view self.old) (view self.new) }
        ensures cause { HasCause (view self.old).faults (view self.new).faults result }
        ensures attaches { (view self.new).attaches ≡ (view self.old).attaches }
        ensures calls { IsOneMore (view self.old).calls (view self.new).calls };

    /// Brings all bytes and their number to the disk for good: after it, a crash leaves what a read gives.
    fn sync(&mut self) -> Result<(), Failed>
        ensures durable { OnOk result ((c : List ℕ) → (view self.new).now c → Reads (view self.new) c) }
        ensures same { OnOk result ((view self.new).content ≡ (view self.old).content) }
        ensures quiet { IsQuiet (view self.old) (view self.new) }
        ensures cause { HasCause (view self.old).faults (view self.new).faults result }
        ensures attaches { (view self.new).attaches ≡ (view self.old).attaches }
        ensures calls { IsOneMore (view self.old).calls (view self.new).calls };

    /// At this moment a crash leaves a crash image of now.
    ghost only_now: { (d : Self) (c : List ℕ) → (view d).since (view d).clock c → (view d).now c };

    /// An image of now is one since any earlier moment.
    ghost counts_now: { (d : Self) (t : ℕ) (c : List ℕ) → t ≤ (view d).clock → (view d).now c → (view d).since t c };

    /// Where it has crash images, what a read gives is one of them.
    ghost own: { (d : Self) (bytes c : List ℕ) → Reads (view d) bytes → (view d).now c → (view d).now bytes };
}
