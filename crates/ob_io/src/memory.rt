//! The outside in memory, whose calls fail where they are told to.
ghost use Rattle.std.specs.Prelude.{◌≡◌, ◌≢◌, ◌<◌, ◌≤◌, ◌+◌, ◌-◌, ◌^◌, ◌↔◌, ◌⊎◌, ℕ, List, Some, None, [], min, length, vec_len, IsTrue, IfOk, OnOk, OnErr, IsErr, IsErrOf, MatchResult};
ghost use Rattle.ob_io.specs.Causes.{HasCause, Rose};
ghost use Rattle.ob_io.specs.Files.{AppendsContent, IsAsked, NotesAsk};
ghost use Rattle.ob_io.specs.FilesInMemory.{content_of};
ghost use Rattle.ob_io.specs.Told.{ReadTakes, WriteGives};

use crate::asks::Asks;
use crate::sure::{append_front, contents_of};
use crate::{FileError, Files, Sink, Source, SureSource};
use ob_base::Failed;
use std::alloc::Global;

// Which calls are to fail, by their numbers from 0, and how often one failed.
#[derive(Drop)]
struct Plan {
    fails: Vec<u64>,
    calls: u64,
    faults: u64,
}

impl Plan {
    ghost use Rattle.ob_io.specs.Memory.{is_to_fail, IsNewPlan, CountsCall};

    fn new(fails: Vec<u64>) -> Self
        ensures plan { IsNewPlan result fails.items }
        ensures faults { result.faults ≡ 0 }
    {
        Plan {
            fails,
            calls: 0,
            faults: 0,
        }
    }

    // Counts a call, and says whether it is to fail.
    fn next_fails(&mut self) -> bool
        ensures result { result ≡ is_to_fail self.old }
        ensures counts { CountsCall self.old self.new }
        ensures same { self.new.faults ≡ self.old.faults }
    {
        let call = self.calls;
        self.calls = self.calls.saturating_add(1);
        self.fails.contains(&call)
    }

    // Counts a fault.
    fn fault(&mut self)
        ensures rose { Rose self.old.faults self.new.faults }
        ensures later { self.old.faults ≤ self.new.faults }
        ensures once { self.new.faults ≤ self.old.faults + 1 }
        ensures same { (self.new.fails.items ≡ self.old.fails.items) × (self.new.calls ≡ self.old.calls) }
    {
        self.faults = self.faults.saturating_add(1);
    }
}

/// A source in memory. A call that is to fail takes no byte.
#[derive(Drop)]
pub struct MemorySource {
    inner: SureSource,
    plan: Plan,
}

impl MemorySource {
    ghost use Rattle.ob_io.specs.Memory.{memory_source_view, source_plan, IsNewPlan};

    /// These bytes are left. `fails` are the numbers of the calls, from 0, that fail.
    pub fn new(bytes: Vec<u8>, fails: Vec<u64>) -> Self
        ensures left { (memory_source_view result).left ≡ Some bytes.items }
        ensures taken { (memory_source_view result).taken ≡ 0 }
        ensures faults { (memory_source_view result).faults ≡ 0 }
        ensures plan { IsNewPlan (source_plan result) fails.items }
    {
        MemorySource {
            inner: SureSource::new(bytes),
            plan: Plan::new(fails),
        }
    }

    /// How often a call failed.
    pub fn faults(&self) -> u64
        ensures { result ≡ (memory_source_view self.now).faults }
    {
        self.plan.faults
    }
}

impl Source for MemorySource {
    ghost use Rattle.ob_io.specs.Memory.{memory_source_view, source_plan, is_to_fail, CountsCall};

    ghost view = { memory_source_view };

    fn read(&mut self, into: &mut [u8]) -> Result<usize, Failed>
        ensures bound { IfOk result (λ n. n ≤ length into.new) }
        ensures bytes { ReadTakes (memory_source_view self.old) (memory_source_view self.new) result into.new }
        ensures cause { HasCause (memory_source_view self.old).faults (memory_source_view self.new).faults result }
        ensures planned { IsErr result ↔ IsTrue (is_to_fail (source_plan self.old)) }
        ensures counts { CountsCall (source_plan self.old) (source_plan self.new) }
    {
        if self.plan.next_fails() {
            self.plan.fault();
            return Err(Failed);
        }
        self.inner.read(into)
    }
}

/// A sink in memory. A call fails where it is to, past the room, and where there is no memory for its
/// bytes.
#[derive(Drop)]
pub struct MemorySink {
    bytes: Vec<u8>,
    room: usize,
    plan: Plan,
    ghost within: { vec_len bytes ≤ room },
}

impl MemorySink {
    ghost use Rattle.ob_io.specs.Memory.{memory_sink_view, sink_plan, memory_sink_room, IsNewPlan};

    /// Nothing is written yet. `room` is how many bytes it takes, and `fails` are the numbers of the calls,
    /// from 0, that fail.
    pub fn new(alloc: Global, room: usize, fails: Vec<u64>) -> Self
        ensures written { (memory_sink_view result).written ≡ Some [] }
        ensures faults { (memory_sink_view result).faults ≡ 0 }
        ensures room { memory_sink_room result ≡ room }
        ensures plan { IsNewPlan (sink_plan result) fails.items }
    {
        MemorySink {
            bytes: Vec::new(alloc),
            room,
            plan: Plan::new(fails),
        }
    }

    /// What was written.
    pub fn bytes(&self) -> &[u8]
        ensures { (memory_sink_view self.now).written ≡ Some result.now }
    {
        &self.bytes
    }

    /// How often a call failed.
    pub fn faults(&self) -> u64
        ensures { result ≡ (memory_sink_view self.now).faults }
    {
        self.plan.faults
    }
}

impl Sink for MemorySink {
    ghost use Rattle.ob_io.specs.Memory.{memory_sink_view, sink_plan, memory_sink_room, is_to_fail, CountsCall};

    ghost view = { memory_sink_view };

    fn write(&mut self, bytes: &[u8]) -> Result<usize, Failed>
        ensures bound { IfOk result (λ n. n ≤ length bytes.now) }
        ensures some { 0 < length bytes.now → IfOk result (λ n. 0 < n) }
        ensures bytes { WriteGives (memory_sink_view self.old).written (memory_sink_view self.new).written
            result bytes.now }
        ensures cause { HasCause (memory_sink_view self.old).faults (memory_sink_view self.new).faults result }
        ensures planned { IsTrue (is_to_fail (sink_plan self.old)) → IsErr result }
        ensures full { memory_sink_room self.old < length bytes.now → IsErr result }
        ensures takes_all { IfOk result (λ n. n ≡ length bytes.now) }
        ensures room { MatchResult result (λ n. memory_sink_room self.old ≡ memory_sink_room self.new + n)
            (λ _. memory_sink_room self.new ≡ memory_sink_room self.old) }
        ensures counts { CountsCall (sink_plan self.old) (sink_plan self.new) }
    {
        if self.plan.next_fails()
            || bytes.len() > self.room - self.bytes.len()
            || self.bytes.extend_from_slice(bytes).is_err()
        {
            self.plan.fault();
            return Err(Failed);
        }
        Ok(bytes.len())
    }
}

/// Files in memory. A call fails where it is to, and for a name that they lack. Memory may run out before, in noting
/// what is asked, and after, in appending the bytes.
#[derive(Drop)]
pub struct MemoryFiles {
    files: Vec<(String, Vec<u8>)>,
    plan: Plan,
    asks: Asks,
}

impl MemoryFiles {
    ghost use Rattle.ob_io.specs.Memory.{memory_files_view, files_plan, IsNewPlan};

    /// The files by name, of which the first of a name is read. `fails` are the numbers of the calls, from 0,
    /// that fail. The contents are observable for each name that is here, and for no other.
    pub fn new(alloc: Global, files: Vec<(String, Vec<u8>)>, fails: Vec<u64>) -> Self
        ensures content { (name : List ℕ) → (memory_files_view result).content name ≡ content_of files.items name }
        ensures faults { (memory_files_view result).faults ≡ 0 }
        ensures asks { (memory_files_view result).asks ≡ [] }
        ensures plan { IsNewPlan (files_plan result) fails.items }
    {
        MemoryFiles {
            files,
            plan: Plan::new(fails),
            asks: Asks::new(alloc),
        }
    }

    /// How often a call failed.
    pub fn faults(&self) -> u64
        ensures { result ≡ (memory_files_view self.now).faults }
    {
        self.plan.faults
    }
}

impl Files for MemoryFiles {
    ghost use Rattle.ob_io.specs.Memory.{memory_files_view, files_plan, is_to_fail, CountsCall};

    ghost view = { memory_files_view };

    fn read(&mut self, name: &str, limit: usize, into: &mut Vec<u8>) -> Result<(), FileError>
        ensures ok { OnOk result
            (AppendsContent ((memory_files_view self.old).content name.now) limit into.old.items into.new.items) }
        ensures err { OnErr result (into.new.items ≡ into.old.items) }
        ensures asks { NotesAsk (memory_files_view self.old).asks (memory_files_view self.new).asks
            (record { name = name.now; limit = limit }) result }
        ensures same { (other : List ℕ) →
            (memory_files_view self.new).content other ≡ (memory_files_view self.old).content other }
        ensures later { (memory_files_view self.old).faults ≤ (memory_files_view self.new).faults }
        ensures cause { IsErrOf result FileError.Failed →
            Rose (memory_files_view self.old).faults (memory_files_view self.new).faults }
        ensures calm { result ≢ Err FileError.Failed →
            (memory_files_view self.new).faults ≡ (memory_files_view self.old).faults }
        ensures once { (memory_files_view self.new).faults ≤ (memory_files_view self.old).faults + 1 }
        ensures failed { IsErrOf result FileError.Failed ↔
            (IsAsked (memory_files_view self.old).asks (memory_files_view self.new).asks
            (record { name = name.now; limit = limit })
            × (IsTrue (is_to_fail (files_plan self.old))
            ⊎ ((memory_files_view self.old).content name.now ≡ None))) }
        ensures counts { CountsCall (files_plan self.old) (files_plan self.new) }
    {
        let is_to_fail = self.plan.next_fails();
        self.asks.note(name, limit)?;
        if is_to_fail {
            self.plan.fault();
            return Err(FileError::Failed);
        }
        match contents_of(&self.files, name) {
            Some(bytes) => append_front(bytes, limit, into),
            None => {
                self.plan.fault();
                Err(FileError::Failed)
            }
        }
    }
}
