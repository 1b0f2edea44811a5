//! A disk in memory that never fails.
ghost use Rattle.std.specs.Prelude.{◌≡◌, ◌<◌, ◌≤◌, ◌+◌, ◌^◌, [], ℕ, List, Some, None, true, false, length, take, drop, IsOk, IfOk, OnOk, MatchOption};
ghost use Rattle.ob_disk_spec.specs.Disk.{Reads, WrittenOver, overwritten, IsQuiet, IsWrite};
ghost use Rattle.ob_disk_spec.specs.Calls.{NotesAttach, IsOneMore};
ghost use Rattle.ob_io.specs.Causes.{HasCause};

use crate::Disk;
use crate::bytes::overwrite;
use crate::memory::MOST_ROOM;
use ob_base::Failed;
use std::alloc::Global;

/// A disk in memory that never fails. Its bytes are observable until a call passes its room or gets no memory for them.
/// From then on it takes calls and none of its bytes is observable. It has no crash image, and by which names it was attached
/// isn't observable: to note one takes memory, for want of which a call might fail.
#[derive(Drop)]
pub struct SureDisk {
    alloc: Global,
    bytes: Vec<u8>,
    room: u64,
    tells: bool,
    calls: u64,
    ghost most: { room ≤ 2 ^ 62 },
}

impl SureDisk {
    ghost use Rattle.ob_disk.specs.Sure.{sure_disk_view, sure_disk_room, IsSameDisk};

    /// A disk without a byte. `room` is how many bytes it keeps, 2^62 at most.
    pub fn new(alloc: Global, room: u64) -> Self
        ensures content { (sure_disk_view result).content ≡ Some [] }
        ensures faults { (sure_disk_view result).faults ≡ 0 }
        ensures calls { (sure_disk_view result).calls ≡ 0 }
        ensures room { room ≤ 2 ^ 62 → sure_disk_room result ≡ room }
    {
        SureDisk {
            alloc,
            bytes: Vec::new(alloc),
            room: room.min(MOST_ROOM),
            tells: true,
            calls: 0,
        }
    }

    /// What a read gives, where it is observable.
    pub fn bytes(&self) -> Option<&[u8]>
        ensures { MatchOption result ((sure_disk_view self.now).content ≡ None)
            (λ bytes. (sure_disk_view self.now).content ≡ Some bytes.now) }
    {
        if self.tells { Some(&self.bytes) } else { None }
    }

    // Counts a call that attaches no disk.
    fn count(&mut self)
        ensures same { IsSameDisk self.old self.new }
        ensures calls { IsOneMore self.old.calls self.new.calls }
    {
        self.calls = self.calls.saturating_add(1);
    }

    // Writes, if there is room and memory for it.
    fn keeps(&mut self, at: u64, bytes: &[u8]) -> bool
        ensures kept { result ≡ true → self.new.bytes.items ≡ overwritten at bytes.now self.old.bytes.items }
        ensures full { self.old.room < at + length bytes.now → result ≡ false }
        ensures same { (self.new.room ≡ self.old.room) × (self.new.tells ≡ self.old.tells) × (self.new.calls ≡ self.old.calls) }
    {
        let count = bytes.len() as u64;
        count <= self.room
            && at <= self.room - count
            && overwrite(self.alloc, &mut self.bytes, at as usize, bytes).is_ok()
    }
}

impl Disk for SureDisk {
    ghost use Rattle.ob_disk.specs.Sure.{sure_disk_view, sure_disk_room, IsSameDisk};

    ghost view = { sure_disk_view };

    ghost only_now = { λ d c left. left };

    ghost counts_now = { λ d t c le left. left };

    ghost own = { λ d bytes c reads left. left };

    fn attach(&mut self, name: &str) -> Result<(), Failed>
        ensures same { OnOk result ((sure_disk_view self.new).content ≡ (sure_disk_view self.old).content) }
        ensures quiet { IsQuiet (sure_disk_view self.old) (sure_disk_view self.new) }
        ensures cause { HasCause (sure_disk_view self.old).faults (sure_disk_view self.new).faults result }
        ensures attaches { NotesAttach (sure_disk_view self.old) (sure_disk_view self.new) name.now result }
        ensures calls { (sure_disk_view self.new).calls ≡ (sure_disk_view self.old).calls }
        ensures sure { IsOk result }
        ensures unchanged { self.new ≡ self.old }
    {
        Ok(())
    }

    fn len(&mut self) -> Result<u64, Failed>
        ensures length { IfOk result (λ n. (c : List ℕ) → Reads (sure_disk_view self.old) c → n ≡ length c) }
        ensures same { OnOk result ((sure_disk_view self.new).content ≡ (sure_disk_view self.old).content) }
        ensures quiet { IsQuiet (sure_disk_view self.old) (sure_disk_view self.new) }
        ensures cause { HasCause (sure_disk_view self.old).faults (sure_disk_view self.new).faults result }
        ensures attaches { (sure_disk_view self.new).attaches ≡ (sure_disk_view self.old).attaches }
        ensures calls { IsOneMore (sure_disk_view self.old).calls (sure_disk_view self.new).calls }
        ensures sure { IsOk result }
        ensures unchanged { IsSameDisk self.old self.new }
    {
        self.count();
        Ok(self.bytes.len() as u64)
    }

    fn read(&mut self, at: u64, into: &mut [u8]) -> Result<(), Failed>
        requires { (c : List ℕ) → Reads (sure_disk_view self.old) c → at + length into.old ≤ length c }
        ensures bytes { OnOk result ((c : List ℕ) → Reads (sure_disk_view self.old) c →
            into.new ≡ take (length into.old) (drop at c)) }
        ensures same { OnOk result ((sure_disk_view self.new).content ≡ (sure_disk_view self.old).content) }
        ensures quiet { IsQuiet (sure_disk_view self.old) (sure_disk_view self.new) }
        ensures cause { HasCause (sure_disk_view self.old).faults (sure_disk_view self.new).faults result }
        ensures attaches { (sure_disk_view self.new).attaches ≡ (sure_disk_view self.old).attaches }
        ensures calls { IsOneMore (sure_disk_view self.old).calls (sure_disk_view self.new).calls }
        ensures sure { IsOk result }
        ensures unchanged { IsSameDisk self.old self.new }
    {
        self.count();
        let at = at as usize;
        if at <= self.bytes.len() && into.len() <= self.bytes.len() - at {
            into.copy_from_slice(&self.bytes[at..at + into.len()]);
        }
        Ok(())
    }

    fn write(&mut self, at: u64, bytes: &[u8]) -> Result<(), Failed>
        ensures written { OnOk result ((c : List ℕ) → Reads (sure_disk_view self.new) c →
            WrittenOver (Reads (sure_disk_view self.old)) at bytes.now c) }
        ensures torn { IsWrite at (length bytes.now) (sure_disk_view self.old) (sure_disk_view self.new) }
        ensures cause { HasCause (sure_disk_view self.old).faults (sure_disk_view self.new).faults result }
        ensures attaches { (sure_disk_view self.new).attaches ≡ (sure_disk_view self.old).attaches }
        ensures calls { IsOneMore (sure_disk_view self.old).calls (sure_disk_view self.new).calls }
        ensures sure { IsOk result }
        ensures full { sure_disk_room self.old < at + length bytes.now → (sure_disk_view self.new).content ≡ None }
        ensures room { sure_disk_room self.new ≡ sure_disk_room self.old }
    {
        self.count();
        if self.tells {
            self.tells = self.keeps(at, bytes);
        }
        Ok(())
    }

    fn sync(&mut self) -> Result<(), Failed>
        ensures durable { OnOk result ((c : List ℕ) → (sure_disk_view self.new).now c →
            Reads (sure_disk_view self.new) c) }
        ensures same { OnOk result ((sure_disk_view self.new).content ≡ (sure_disk_view self.old).content) }
        ensures quiet { IsQuiet (sure_disk_view self.old) (sure_disk_view self.new) }
        ensures cause { HasCause (sure_disk_view self.old).faults (sure_disk_view self.new).faults result }
        ensures attaches { (sure_disk_view self.new).attaches ≡ (sure_disk_view self.old).attaches }
        ensures calls { IsOneMore (sure_disk_view self.old).calls (sure_disk_view self.new).calls }
        ensures sure { IsOk result }
        ensures unchanged { IsSameDisk self.old self.new }
    {
        self.count();
        Ok(())
    }
}
