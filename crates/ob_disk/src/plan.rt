//! Which calls of a disk in memory are to fail.
ghost use Rattle.std.specs.Prelude.{◌≡◌, ◌≤◌, ◌+◌};
ghost use Rattle.ob_io.specs.Causes.{Rose};

/// Which calls are to fail, by their numbers from 0, and how often one failed.
#[derive(Drop)]
pub struct Plan {
    fails: Vec<u64>,
    calls: u64,
    faults: u64,
}

impl Plan {
    ghost use Rattle.ob_disk.specs.Plans.{is_to_fail, IsNewPlan, CountsCall};

    /// These calls are to fail.
    pub fn new(fails: Vec<u64>) -> Self
        ensures { IsNewPlan result fails.items }
    {
        Plan {
            fails,
            calls: 0,
            faults: 0,
        }
    }

    /// Counts a call, and says whether it is to fail.
    pub fn next_fails(&mut self) -> bool
        ensures result { result ≡ is_to_fail self.old }
        ensures counts { CountsCall self.old self.new }
        ensures same { self.new.faults ≡ self.old.faults }
    {
        let call = self.calls;
        self.calls = self.calls.saturating_add(1);
        self.fails.contains(&call)
    }

    /// Counts a fault.
    pub fn fault(&mut self)
        ensures rose { Rose self.old.faults self.new.faults }
        ensures later { self.old.faults ≤ self.new.faults }
        ensures once { self.new.faults ≤ self.old.faults + 1 }
        ensures same { (self.new.fails.items ≡ self.old.fails.items) × (self.new.calls ≡ self.old.calls) }
    {
        self.faults = self.faults.saturating_add(1);
    }

    /// How often a call failed.
    pub fn faults(&self) -> u64
        ensures { result ≡ self.now.faults }
    {
        self.faults
    }
}
