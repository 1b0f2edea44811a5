//! A file of the system as a disk, none of whose bytes is observable. Which calls of the system it makes is, where the file tells it.
ghost use Rattle.std.specs.Prelude.{◌≡◌, ◌↔◌, ◌≤◌, ◌<◌, ◌+◌, ◌^◌, [], List, ℕ, false, Some, map, length, take, drop, Ok, MatchResult, IsErr, IsOk, IsTrue, IfOk, OnOk, OnErr};
ghost use Rattle.ob_disk_spec.specs.Calls.{NotesAttach, IsOneMore};
ghost use Rattle.ob_disk_spec.specs.Disk.{Reads, WrittenOver, IsQuiet, IsWrite};
ghost use Rattle.ob_io.specs.Causes.{HasCause};
ghost use Rattle.ob_io_std.specs.Calls.{Adds, AddsSome, Does, measured, read, written, synced};
ghost use Rattle.ob_io_std.specs.Ranges.{Cover, CoverFront};
ghost use Rattle.ob_io_std.specs.Taking.{IsTaken, AreLooks};

use crate::failure::{Failure, SystemCall};
use crate::ranges::{read_range, write_range};
use crate::std_file::StdFile;
use crate::system::{Access, SystemFile};
use crate::taking::take;
use ob_base::Failed;
use ob_disk::{Calls, Disk};
use std::alloc::Global;
use std::io;

/// A regular file, locked while it is attached. It is no standard stream of this run, and none of the other files that the run names.
/// Before it is attached, and after an `attach` that failed, each call fails, and asks nothing of the system.
#[derive(Drop)]
pub struct FileDisk<'a, F> {
    alloc: Global,
    file: F,
    access: Access,
    others: &'a [&'a str],
    is_attached: bool,
    faults: u64,
    calls: Calls,
    failure: Option<Failure>,
}

// What a call answers of a disk that isn't attached.
fn lacking(call: SystemCall) -> Failure {
    let error = io::Error::from(io::ErrorKind::NotFound);
    Failure { call, error }
}

// What is told where there is no memory for the name of a disk.
fn lacking_memory() -> Failure {
    Failure {
        call: SystemCall::Note,
        error: io::Error::from(io::ErrorKind::OutOfMemory),
    }
}

impl<'a, R> FileDisk<'a, StdFile<R>> {
    /// The first bytes of the file that is attached, so many at most, as they stand. It is for who tells a person of a store, is
    /// no call of the disk, and counts as none.
    pub fn front(&self, most: u64) -> io::Result<Vec<u8>> {
        let count = self.file.count()?.min(most);
        let mut bytes = vec![in self.alloc; 0; count as usize]?;
        self.file.look(0, &mut bytes)?;
        Ok(bytes)
    }

    /// Reads the bytes from an offset on, as they stand, for the same use.
    pub fn look(&self, at: u64, into: &mut [u8]) -> io::Result<()> {
        self.file.look(at, into)
    }
}

impl<'a, F> FileDisk<'a, F> {
    ghost use Rattle.ob_io_std.specs.Disks.{file_disk_view, file_of, is_attached};

    /// A disk that is yet to be attached, over a file. `others` are the names of the other files that the run uses: none of them is
    /// the disk. An empty name is none.
    pub fn new(alloc: Global, file: F, access: Access, others: &'a [&'a str]) -> Self
        ensures faults { (file_disk_view result).faults ≡ 0 }
        ensures attaches { (file_disk_view result).attaches ≡ Some [] }
        ensures calls { (file_disk_view result).calls ≡ 0 }
        ensures file { file_of result ≡ file }
        ensures unattached { is_attached result ≡ false }
    {
        FileDisk {
            alloc,
            file,
            access,
            others,
            is_attached: false,
            faults: 0,
            calls: Calls::new(alloc),
            failure: None,
        }
    }

    /// The last call of the system that failed; `None` where none did.
    pub fn failure(&self) -> Option<Failure> {
        self.failure
    }

    /// The file.
    pub fn file(&self) -> &F
        ensures { result.now ≡ file_of self.now }
    {
        &self.file
    }

    // Counts a fault, where a call of the system failed, and keeps what it was.
    fn counted<T: Drop>(&mut self, told: Result<T, Failure>) -> Result<T, Failed>
        ensures cause { HasCause self.old.faults self.new.faults result }
        ensures told { MatchResult told (λ value. result ≡ Ok value) (λ error. IsErr result) }
        ensures calls { self.new.calls ≡ self.old.calls }
        ensures file { self.new.file ≡ self.old.file }
        ensures rest { (self.new.access ≡ self.old.access) × (self.new.others ≡ self.old.others)
            × (self.new.is_attached ≡ self.old.is_attached) }
    {
        match told {
            Ok(value) => Ok(value),
            Err(failure) => {
                self.failure = Some(failure);
                self.faults = self.faults.saturating_add(1);
                Err(Failed)
            }
        }
    }
}

// Takes the file of a name. Where it can't be taken it is closed.
#[tactic(auto, using(crate::proofs::TakingLemmas::looks_none, crate::proofs::TakingLemmas::looks_then))]
fn take_or_close<F: SystemFile>(
    file: &mut F,
    alloc: Global,
    name: &str,
    access: Access,
    others: &[&str],
) -> Result<(), Failure>
    ensures taken { OnOk result (AddsSome (F.calls file.old) (F.calls file.new)
        (IsTaken name.now access (map (λ name. name.now) others.now))) }
    ensures looks { AddsSome (F.calls file.old) (F.calls file.new) AreLooks }
{
    match take(file, alloc, name, access, others) {
        Ok(()) => Ok(()),
        Err(failure) => {
            file.close();
            Err(failure)
        }
    }
}

// How many bytes a file has that was taken.
#[tactic(auto, using(crate::proofs::CallLemmas::adds_none, crate::proofs::CallLemmas::front_none))]
fn measure<F: SystemFile>(file: &mut F, is_attached: bool) -> Result<u64, Failure>
    ensures bytes { Does (F.calls file.old) (F.calls file.new) result measured }
    ensures unattached { is_attached ≡ false → Adds (F.calls file.old) (F.calls file.new) [] }
{
    let call = SystemCall::Length;
    if !is_attached {
        return Err(lacking(call));
    }
    match file.len() {
        Ok(length) => Ok(length),
        Err(error) => Err(Failure { call, error }),
    }
}

// Reads bytes of a file that was taken.
#[tactic(auto, using(crate::proofs::CallLemmas::adds_none, crate::proofs::CallLemmas::front_none))]
fn read_taken<F: SystemFile>(
    file: &mut F,
    is_attached: bool,
    at: u64,
    into: &mut [u8],
) -> Result<(), Failure>
    ensures whole { OnOk result (AddsSome (F.calls file.old) (F.calls file.new) (Cover read at into.new)) }
    ensures front { OnErr result (AddsSome (F.calls file.old) (F.calls file.new) (CoverFront read at into.new)) }
    ensures unattached { is_attached ≡ false → Adds (F.calls file.old) (F.calls file.new) [] }
{
    let call = SystemCall::Read;
    if !is_attached {
        return Err(lacking(call));
    }
    match read_range(file, at, into) {
        Ok(()) => Ok(()),
        Err(error) => Err(Failure { call, error }),
    }
}

// Writes bytes to a file that was taken.
#[tactic(auto, using(crate::proofs::CallLemmas::adds_none, crate::proofs::CallLemmas::front_none))]
fn write_taken<F: SystemFile>(
    file: &mut F,
    is_attached: bool,
    at: u64,
    bytes: &[u8],
) -> Result<(), Failure>
    ensures whole { OnOk result (AddsSome (F.calls file.old) (F.calls file.new) (Cover written at bytes.now)) }
    ensures front { OnErr result (AddsSome (F.calls file.old) (F.calls file.new) (CoverFront written at bytes.now)) }
    ensures unattached { is_attached ≡ false → Adds (F.calls file.old) (F.calls file.new) [] }
{
    let call = SystemCall::Write;
    if !is_attached {
        return Err(lacking(call));
    }
    match write_range(file, at, bytes) {
        Ok(()) => Ok(()),
        Err(error) => Err(Failure { call, error }),
    }
}

// Syncs a file that was taken.
#[tactic(auto, using(crate::proofs::CallLemmas::adds_none, crate::proofs::CallLemmas::front_none))]
fn sync_taken<F: SystemFile>(file: &mut F, is_attached: bool) -> Result<(), Failure>
    ensures bytes { Does (F.calls file.old) (F.calls file.new) result (λ done. synced) }
    ensures unattached { is_attached ≡ false → Adds (F.calls file.old) (F.calls file.new) [] }
{
    let call = SystemCall::Sync;
    if !is_attached {
        return Err(lacking(call));
    }
    match file.sync() {
        Ok(()) => Ok(()),
        Err(error) => Err(Failure { call, error }),
    }
}

#[tactic(auto, using(crate::proofs::Untold::quiet, crate::proofs::Untold::write, crate::proofs::TakingLemmas::looks_none, crate::proofs::TakingLemmas::looks_then, crate::proofs::TakingLemmas::taken_after))]
impl<'a, F: SystemFile> Disk for FileDisk<'a, F> {
    ghost use Rattle.ob_io_std.specs.Disks.{file_disk_view, file_of, is_attached, access_of, others_of};

    ghost view = { file_disk_view };

    ghost only_now = { λ d c left. left };

    ghost counts_now = { λ d t c le left. left };

    ghost own = { λ d bytes c reads left. left };

    fn attach(&mut self, name: &str) -> Result<(), Failed>
        ensures same { OnOk result ((file_disk_view self.new).content ≡ (file_disk_view self.old).content) }
        ensures quiet { IsQuiet (file_disk_view self.old) (file_disk_view self.new) }
        ensures cause { HasCause (file_disk_view self.old).faults (file_disk_view self.new).faults result }
        ensures attaches { NotesAttach (file_disk_view self.old) (file_disk_view self.new) name.now result }
        ensures calls { (file_disk_view self.new).calls ≡ (file_disk_view self.old).calls }
        ensures taken { OnOk result (AddsSome (F.calls (file_of self.old)) (F.calls (file_of self.new))
            (IsTaken name.now (access_of self.old) (others_of self.old))) }
        ensures looks { AddsSome (F.calls (file_of self.old)) (F.calls (file_of self.new)) AreLooks }
        ensures attached { IsTrue (is_attached self.new) ↔ IsOk result }
    {
        self.is_attached = false;
        self.file.close();
        if self.calls.attach(name).is_err() {
            self.failure = Some(lacking_memory());
            self.faults = self.faults.saturating_add(1);
            return Err(Failed);
        }
        let taken = take_or_close(&mut self.file, self.alloc, name, self.access, self.others);
        self.counted(taken)?;
        self.is_attached = true;
        Ok(())
    }

    fn len(&mut self) -> Result<u64, Failed>
        ensures length { IfOk result (λ n. (c : List ℕ) → Reads (file_disk_view self.old) c → n ≡ length c) }
        ensures same { OnOk result ((file_disk_view self.new).content ≡ (file_disk_view self.old).content) }
        ensures quiet { IsQuiet (file_disk_view self.old) (file_disk_view self.new) }
        ensures cause { HasCause (file_disk_view self.old).faults (file_disk_view self.new).faults result }
        ensures attaches { (file_disk_view self.new).attaches ≡ (file_disk_view self.old).attaches }
        ensures calls { IsOneMore (file_disk_view self.old).calls (file_disk_view self.new).calls }
        ensures measures { Does (F.calls (file_of self.old)) (F.calls (file_of self.new)) result measured }
        ensures unattached { is_attached self.old ≡ false → Adds (F.calls (file_of self.old)) (F.calls (file_of self.new)) [] }
        ensures attached { is_attached self.new ≡ is_attached self.old }
    {
        self.calls.count();
        let told = measure(&mut self.file, self.is_attached);
        self.counted(told)
    }

    fn read(&mut self, at: u64, into: &mut [u8]) -> Result<(), Failed>
        ensures bytes { OnOk result ((c : List ℕ) → Reads (file_disk_view self.old) c →
            into.new ≡ take (length into.old) (drop at c)) }
        ensures same { OnOk result ((file_disk_view self.new).content ≡ (file_disk_view self.old).content) }
        ensures quiet { IsQuiet (file_disk_view self.old) (file_disk_view self.new) }
        ensures cause { HasCause (file_disk_view self.old).faults (file_disk_view self.new).faults result }
        ensures attaches { (file_disk_view self.new).attaches ≡ (file_disk_view self.old).attaches }
        ensures calls { IsOneMore (file_disk_view self.old).calls (file_disk_view self.new).calls }
        ensures whole { OnOk result (AddsSome (F.calls (file_of self.old)) (F.calls (file_of self.new)) (Cover read at into.new)) }
        ensures front { OnErr result (AddsSome (F.calls (file_of self.old)) (F.calls (file_of self.new)) (CoverFront read at into.new)) }
        ensures unattached { is_attached self.old ≡ false → Adds (F.calls (file_of self.old)) (F.calls (file_of self.new)) [] }
        ensures attached { is_attached self.new ≡ is_attached self.old }
    {
        self.calls.count();
        let told = read_taken(&mut self.file, self.is_attached, at, into);
        self.counted(told)
    }

    fn write(&mut self, at: u64, bytes: &[u8]) -> Result<(), Failed>
        ensures written { OnOk result ((c : List ℕ) → Reads (file_disk_view self.new) c →
            WrittenOver (Reads (file_disk_view self.old)) at bytes.now c) }
        ensures torn { IsWrite at (length bytes.now) (file_disk_view self.old) (file_disk_view self.new) }
        ensures cause { HasCause (file_disk_view self.old).faults (file_disk_view self.new).faults result }
        ensures attaches { (file_disk_view self.new).attaches ≡ (file_disk_view self.old).attaches }
        ensures calls { IsOneMore (file_disk_view self.old).calls (file_disk_view self.new).calls }
        ensures whole { OnOk result (AddsSome (F.calls (file_of self.old)) (F.calls (file_of self.new)) (Cover written at bytes.now)) }
        ensures front { OnErr result (AddsSome (F.calls (file_of self.old)) (F.calls (file_of self.new)) (CoverFront written at bytes.now)) }
        ensures unattached { is_attached self.old ≡ false → Adds (F.calls (file_of self.old)) (F.calls (file_of self.new)) [] }
        ensures attached { is_attached self.new ≡ is_attached self.old }
    {
        self.calls.count();
        let told = write_taken(&mut self.file, self.is_attached, at, bytes);
        self.counted(told)
    }

    fn sync(&mut self) -> Result<(), Failed>
        ensures durable { OnOk result ((c : List ℕ) → (file_disk_view self.new).now c → Reads (file_disk_view self.new) c) }
        ensures same { OnOk result ((file_disk_view self.new).content ≡ (file_disk_view self.old).content) }
        ensures quiet { IsQuiet (file_disk_view self.old) (file_disk_view self.new) }
        ensures cause { HasCause (file_disk_view self.old).faults (file_disk_view self.new).faults result }
        ensures attaches { (file_disk_view self.new).attaches ≡ (file_disk_view self.old).attaches }
        ensures calls { IsOneMore (file_disk_view self.old).calls (file_disk_view self.new).calls }
        ensures syncs { Does (F.calls (file_of self.old)) (F.calls (file_of self.new)) result (λ done. synced) }
        ensures unattached { is_attached self.old ≡ false → Adds (F.calls (file_of self.old)) (F.calls (file_of self.new)) [] }
        ensures attached { is_attached self.new ≡ is_attached self.old }
    {
        self.calls.count();
        let told = sync_taken(&mut self.file, self.is_attached);
        self.counted(told)
    }
}
