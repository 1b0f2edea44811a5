//! A disk in memory, whose calls fail where they are told to. It notes its calls, so that it tells what a crash might
//! have left.
ghost use Rattle.std.specs.Prelude.{◌≡◌, ◌<◌, ◌≤◌, ◌+◌, ◌^◌, ◌↔◌, ◌⊎◌, ◌++◌, ◌∷◌, [], ℕ, List, Some, length, take, drop, IsTrue, IsErr, IfOk, OnOk, OnErr};
ghost use Rattle.ob_disk_spec.specs.Disk.{Reads, WrittenOver, overwritten, IsQuiet, IsWrite};
ghost use Rattle.ob_disk_spec.specs.Calls.{NotesAttach, IsOneMore};
ghost use Rattle.ob_io.specs.Causes.{HasCause};
ghost use Rattle.ob_disk.specs.declared.memory.Note.TheVariants.{Written, Lost, Synced};
ghost use Rattle.ob_disk.specs.declared.memory.Over.{Over};
ghost use Rattle.ob_disk.specs.Notes.{since_now, now_since, own_image, stopped, before};
ghost use Rattle.ob_disk.specs.Plans.{is_to_fail, IsNewPlan, CountsCall};

use crate::Disk;
use crate::bytes::{overwrite, restore, spoil};
use crate::calls::Calls;
use crate::plan::Plan;
use ob_base::{Failed, Memory};
use std::alloc::Global;

/// The most bytes that a disk in memory may have.
pub const MOST_ROOM: u64 = 1 << 62;

// What a write at an offset wrote over, of so many bytes, and how many bytes there were before it.
#[derive(Drop)]
struct Over {
    at: usize,
    count: usize,
    bytes: Vec<u8>,
    len: usize,
}

// A call that changed what a crash may leave.
#[derive(Drop)]
enum Note {
    // Bytes were written.
    Written(Over),
    // A write at an offset, of so many bytes, failed.
    Lost(usize, usize),
    // What a read gives came to the disk for good.
    Synced,
}

/// A disk in memory, without a byte at first. A call fails where it is to, past the room, and where there is no
/// memory for its note. It tells by which names it was attached, until there is no memory to note one.
#[derive(Drop)]
pub struct MemoryDisk {
    alloc: Global,
    bytes: Vec<u8>,
    notes: Vec<Note>,
    room: u64,
    plan: Plan,
    calls: Calls,
    notes_all: bool,
    ghost most: { room ≤ 2 ^ 62 },
}

// What a write of so many bytes at an offset will write over.
fn covered(alloc: Global, bytes: &[u8], at: usize, count: usize) -> Result<Over, Memory>
    ensures { IfOk result (λ over. (over.at ≡ at) × (over.count ≡ count)
        × (over.bytes.items ≡ take count (drop at bytes.now)) × (over.len ≡ length bytes.now)) }
{
    let start = at.min(bytes.len());
    let end = start + count.min(bytes.len() - start);
    Ok(Over {
        at,
        count,
        bytes: bytes[start..end].to_vec(alloc)?,
        len: bytes.len(),
    })
}

impl MemoryDisk {
    ghost use Rattle.ob_disk.specs.Memory.{memory_disk_view, memory_disk_room, disk_plan, notes_of};

    /// A disk without a byte. `room` is how many bytes it holds, 2^62 at most, and `fails` are the numbers of the
    /// calls, from 0, that fail.
    pub fn new(alloc: Global, room: u64, fails: Vec<u64>) -> Self
        ensures content { (memory_disk_view result).content ≡ Some [] }
        ensures images { (c : List ℕ) → (memory_disk_view result).now c → c ≡ [] }
        ensures room { room ≤ 2 ^ 62 → memory_disk_room result ≡ room }
        ensures plan { IsNewPlan (disk_plan result) fails.items }
        ensures attaches { (memory_disk_view result).attaches ≡ Some [] }
        ensures calls { (memory_disk_view result).calls ≡ 0 }
    {
        MemoryDisk {
            alloc,
            bytes: Vec::new(alloc),
            notes: Vec::new(alloc),
            room: room.min(MOST_ROOM),
            plan: Plan::new(fails),
            calls: Calls::new(alloc),
            notes_all: true,
        }
    }

    /// What a read gives.
    pub fn bytes(&self) -> &[u8]
        ensures { (memory_disk_view self.now).content ≡ Some result.now }
    {
        &self.bytes
    }

    /// How often a call failed.
    pub fn faults(&self) -> u64
        ensures { result ≡ (memory_disk_view self.now).faults }
    {
        self.plan.faults()
    }

    // Undoes the newest calls, or spoils a range, as the number says.
    fn roll_back(&mut self, images: u64)
        ensures bytes { self.new.bytes.items ≡ stopped images (notes_of self.old) self.old.bytes.items }
        ensures same { (self.new.plan ≡ self.old.plan) × (self.new.room ≡ self.old.room) }
        ensures calls { (self.new.calls ≡ self.old.calls) × (self.new.notes_all ≡ self.old.notes_all) }
    {
        let mut left = images;
        'calls: loop {
            match self.notes.pop() {
                None | Some(Note::Synced) => return,
                Some(Note::Written(over)) => {
                    if left == 0 {
                        return;
                    }
                    if left == 1 {
                        spoil(self.bytes.as_mut_slice(), over.at, over.count);
                        return;
                    }
                    restore(&mut self.bytes, over.at, &over.bytes, over.len);
                }
                Some(Note::Lost(at, count)) => {
                    if left == 0 {
                        return;
                    }
                    if left == 1 {
                        spoil(self.bytes.as_mut_slice(), at, count);
                        return;
                    }
                }
            }
            left -= 2;
        }
    }

    /// Stops, as a crash does: the disk becomes the one of its images now that this number selects, and this is on it
    /// for good. Half of the number, rounded down, says how many of the newest writes since the last sync are lost; and
    /// where it is odd, the bytes of the next one are spoiled.
    pub fn stop(&mut self, images: u64)
        ensures image { (c : List ℕ) → Reads (memory_disk_view self.new) c → (memory_disk_view self.old).now c }
        ensures selected { (bytes : List ℕ) → Reads (memory_disk_view self.old) bytes →
            Reads (memory_disk_view self.new) (stopped images (notes_of self.old) bytes) }
        ensures durable { (c : List ℕ) → (memory_disk_view self.new).now c → Reads (memory_disk_view self.new) c }
        ensures plan { disk_plan self.new ≡ disk_plan self.old }
        ensures attaches { (memory_disk_view self.new).attaches ≡ (memory_disk_view self.old).attaches }
        ensures calls { (memory_disk_view self.new).calls ≡ (memory_disk_view self.old).calls }
        ensures room { memory_disk_room self.new ≡ memory_disk_room self.old }
    {
        self.roll_back(images);
        self.notes.clear();
    }

    // Writes, and notes it. Without memory nothing changes.
    fn put(&mut self, at: usize, bytes: &[u8]) -> Result<(), Memory>
        requires { at + length bytes.now ≤ 2 ^ 62 }
        ensures written { OnOk result (self.new.bytes.items ≡ overwritten at bytes.now self.old.bytes.items) }
        ensures noted { OnOk result ((over : Over) × (self.new.notes.items ≡ self.old.notes.items ++ Written over ∷ [])
            × (over.at ≡ at) × (over.count ≡ length bytes.now)
            × (before over (overwritten at bytes.now self.old.bytes.items) ≡ self.old.bytes.items)) }
        ensures err { OnErr result ((self.new.bytes.items ≡ self.old.bytes.items)
            × (self.new.notes.items ≡ self.old.notes.items)) }
        ensures same { (self.new.plan ≡ self.old.plan) × (self.new.room ≡ self.old.room) }
        ensures calls { (self.new.calls ≡ self.old.calls) × (self.new.notes_all ≡ self.old.notes_all) }
    {
        let note = covered(self.alloc, &self.bytes, at, bytes.len())?;
        self.notes.reserve(1)?;
        overwrite(self.alloc, &mut self.bytes, at, bytes)?;
        self.notes.push(Note::Written(note))?;
        Ok(())
    }

    // Notes a sync.
    fn note_sync(&mut self) -> Result<(), Memory>
        ensures noted { OnOk result (self.new.notes.items ≡ self.old.notes.items ++ Synced ∷ []) }
        ensures err { OnErr result (self.new.notes.items ≡ self.old.notes.items) }
        ensures same { (self.new.bytes ≡ self.old.bytes) × (self.new.plan ≡ self.old.plan) × (self.new.room ≡ self.old.room) }
        ensures calls { (self.new.calls ≡ self.old.calls) × (self.new.notes_all ≡ self.old.notes_all) }
    {
        self.notes.push(Note::Synced)?;
        Ok(())
    }

    // Notes a write that failed, if there is memory.
    fn lose(&mut self, at: usize, count: usize)
        ensures notes { (self.new.notes.items ≡ self.old.notes.items)
            ⊎ (self.new.notes.items ≡ self.old.notes.items ++ Lost at count ∷ []) }
        ensures same { (self.new.bytes ≡ self.old.bytes) × (self.new.plan ≡ self.old.plan) × (self.new.room ≡ self.old.room) }
        ensures calls { (self.new.calls ≡ self.old.calls) × (self.new.notes_all ≡ self.old.notes_all) }
    {
        match self.notes.push(Note::Lost(at, count)) {
            Ok(()) => return,
            Err(_) => return,
        }
    }
}

impl Disk for MemoryDisk {
    ghost use Rattle.ob_disk.specs.Memory.{memory_disk_view, memory_disk_room, disk_plan, notes_of};

    ghost view = { memory_disk_view };

    ghost only_now = { λ d c left. since_now (notes_of d) d.bytes.items c left };

    ghost counts_now = { λ d t c le left. now_since (notes_of d) t d.bytes.items c left };

    ghost own = { λ d bytes c reads left. own_image (notes_of d) d.bytes.items bytes reads };

    fn attach(&mut self, name: &str) -> Result<(), Failed>
        ensures quiet { IsQuiet (memory_disk_view self.old) (memory_disk_view self.new) }
        ensures cause { HasCause (memory_disk_view self.old).faults (memory_disk_view self.new).faults result }
        ensures attaches { NotesAttach (memory_disk_view self.old) (memory_disk_view self.new) name.now result }
        ensures calls { (memory_disk_view self.new).calls ≡ (memory_disk_view self.old).calls }
        ensures unnoted { OnErr result ((memory_disk_view self.new).attaches ≡ (memory_disk_view self.old).attaches) }
        ensures same { OnOk result ((memory_disk_view self.new).content ≡ (memory_disk_view self.old).content) }
        ensures always { (memory_disk_view self.new).content ≡ (memory_disk_view self.old).content }
        ensures planned { IsErr result ↔ IsTrue (is_to_fail (disk_plan self.old)) }
        ensures counts { CountsCall (disk_plan self.old) (disk_plan self.new) }
        ensures room { memory_disk_room self.new ≡ memory_disk_room self.old }
    {
        if self.plan.next_fails() {
            self.plan.fault();
            return Err(Failed);
        }
        let Ok(()) = self.calls.attach(name) else {
            self.notes_all = false;
            return Ok(());
        };
        Ok(())
    }

    fn len(&mut self) -> Result<u64, Failed>
        ensures length { IfOk result (λ n. (c : List ℕ) → Reads (memory_disk_view self.old) c → n ≡ length c) }
        ensures same { OnOk result ((memory_disk_view self.new).content ≡ (memory_disk_view self.old).content) }
        ensures quiet { IsQuiet (memory_disk_view self.old) (memory_disk_view self.new) }
        ensures cause { HasCause (memory_disk_view self.old).faults (memory_disk_view self.new).faults result }
        ensures attaches { (memory_disk_view self.new).attaches ≡ (memory_disk_view self.old).attaches }
        ensures calls { IsOneMore (memory_disk_view self.old).calls (memory_disk_view self.new).calls }
        ensures always { (memory_disk_view self.new).content ≡ (memory_disk_view self.old).content }
        ensures planned { IsErr result ↔ IsTrue (is_to_fail (disk_plan self.old)) }
        ensures counts { CountsCall (disk_plan self.old) (disk_plan self.new) }
        ensures room { memory_disk_room self.new ≡ memory_disk_room self.old }
    {
        self.calls.count();
        if self.plan.next_fails() {
            self.plan.fault();
            return Err(Failed);
        }
        Ok(self.bytes.len() as u64)
    }

    fn read(&mut self, at: u64, into: &mut [u8]) -> Result<(), Failed>
        requires { (c : List ℕ) → Reads (memory_disk_view self.old) c → at + length into.old ≤ length c }
        ensures bytes { OnOk result ((c : List ℕ) → Reads (memory_disk_view self.old) c →
            into.new ≡ take (length into.old) (drop at c)) }
        ensures same { OnOk result ((memory_disk_view self.new).content ≡ (memory_disk_view self.old).content) }
        ensures quiet { IsQuiet (memory_disk_view self.old) (memory_disk_view self.new) }
        ensures cause { HasCause (memory_disk_view self.old).faults (memory_disk_view self.new).faults result }
        ensures attaches { (memory_disk_view self.new).attaches ≡ (memory_disk_view self.old).attaches }
        ensures calls { IsOneMore (memory_disk_view self.old).calls (memory_disk_view self.new).calls }
        ensures always { (memory_disk_view self.new).content ≡ (memory_disk_view self.old).content }
        ensures planned { IsErr result ↔ IsTrue (is_to_fail (disk_plan self.old)) }
        ensures counts { CountsCall (disk_plan self.old) (disk_plan self.new) }
        ensures room { memory_disk_room self.new ≡ memory_disk_room self.old }
    {
        self.calls.count();
        if self.plan.next_fails() {
            self.plan.fault();
            return Err(Failed);
        }
        let at = at as usize;
        into.copy_from_slice(&self.bytes[at..at + into.len()]);
        Ok(())
    }

    fn write(&mut self, at: u64, bytes: &[u8]) -> Result<(), Failed>
        ensures written { OnOk result ((c : List ℕ) → Reads (memory_disk_view self.new) c →
            WrittenOver (Reads (memory_disk_view self.old)) at bytes.now c) }
        ensures torn { IsWrite at (length bytes.now) (memory_disk_view self.old) (memory_disk_view self.new) }
        ensures cause { HasCause (memory_disk_view self.old).faults (memory_disk_view self.new).faults result }
        ensures attaches { (memory_disk_view self.new).attaches ≡ (memory_disk_view self.old).attaches }
        ensures calls { IsOneMore (memory_disk_view self.old).calls (memory_disk_view self.new).calls }
        ensures err { OnErr result ((memory_disk_view self.new).content ≡ (memory_disk_view self.old).content) }
        ensures planned { IsTrue (is_to_fail (disk_plan self.old)) → IsErr result }
        ensures full { memory_disk_room self.old < at + length bytes.now → IsErr result }
        ensures counts { CountsCall (disk_plan self.old) (disk_plan self.new) }
        ensures room { memory_disk_room self.new ≡ memory_disk_room self.old }
    {
        self.calls.count();
        let count = bytes.len() as u64;
        if self.plan.next_fails() || count > self.room || at > self.room - count {
            self.lose(at as usize, bytes.len());
            self.plan.fault();
            return Err(Failed);
        }
        match self.put(at as usize, bytes) {
            Ok(()) => Ok(()),
            Err(Memory) => {
                self.plan.fault();
                Err(Failed)
            }
        }
    }

    fn sync(&mut self) -> Result<(), Failed>
        ensures durable { OnOk result ((c : List ℕ) → (memory_disk_view self.new).now c →
            Reads (memory_disk_view self.new) c) }
        ensures same { OnOk result ((memory_disk_view self.new).content ≡ (memory_disk_view self.old).content) }
        ensures quiet { IsQuiet (memory_disk_view self.old) (memory_disk_view self.new) }
        ensures cause { HasCause (memory_disk_view self.old).faults (memory_disk_view self.new).faults result }
        ensures attaches { (memory_disk_view self.new).attaches ≡ (memory_disk_view self.old).attaches }
        ensures calls { IsOneMore (memory_disk_view self.old).calls (memory_disk_view self.new).calls }
        ensures always { (memory_disk_view self.new).content ≡ (memory_disk_view self.old).content }
        ensures planned { IsTrue (is_to_fail (disk_plan self.old)) → IsErr result }
        ensures counts { CountsCall (disk_plan self.old) (disk_plan self.new) }
        ensures room { memory_disk_room self.new ≡ memory_disk_room self.old }
    {
        self.calls.count();
        if self.plan.next_fails() {
            self.plan.fault();
            return Err(Failed);
        }
        match self.note_sync() {
            Ok(()) => Ok(()),
            Err(Memory) => {
                self.plan.fault();
                Err(Failed)
            }
        }
    }
}
