//! Tests that are noted, the newest last, and the locks that they hold.
ghost use Rattle.std.specs.Prelude.{◌≡◌, [], ◌∷◌, false, option_map, OnOk, MatchOption};
ghost use Rattle.ob_machine_parts.specs.Guarding.{locked_by, holds_lock, released, all_released};
ghost use Rattle.ob_machine_parts.specs.Shown.{number_of, tests_of};

use crate::guard::Guard;
use ob_base::{Items, Memory, ObjectId};

/// A test is noted, with its lock.
#[tactic(auto, using(crate::proofs::LocksLemmas::tests_newest))]
pub fn push_test(tests: &mut Items<Option<ObjectId>>, lock: Option<ObjectId>) -> Result<(), Memory>
    ensures { OnOk result (tests_of tests.new ≡ option_map number_of lock ∷ tests_of tests.old) }
{
    match tests.push(lock) {
        Ok(()) => Ok(()),
        Err(_) => Err(Memory),
    }
}

/// The newest test ends.
#[tactic(auto, using(crate::proofs::LocksLemmas::tests_newest))]
pub fn pop_test(tests: &mut Items<Option<ObjectId>>) -> Option<Option<ObjectId>>
    ensures { MatchOption result (tests_of tests.old ≡ []) (λ lock. tests_of tests.old ≡ option_map number_of lock ∷ tests_of tests.new) }
{
    tests.pop()
}

/// The lock of a test, if it takes one: of an object that isn't locked.
pub fn take_lock(guard: &mut Guard, lock: Option<ObjectId>) -> Result<(), Memory>
    requires { holds_lock (option_map number_of lock) guard.old ≡ false }
    ensures { OnOk result (guard.new ≡ locked_by (option_map number_of lock) guard.old) }
{
    if let Some(id) = lock {
        let _taken = guard.lock(id)?;
    }
    Ok(())
}

/// The lock of a test ends, if it took one.
pub fn release(guard: &mut Guard, lock: Option<ObjectId>)
    ensures { guard.new ≡ released (option_map number_of lock) guard.old }
{
    if let Some(id) = lock {
        guard.unlock(id);
    }
}

/// The locks of tests end, the newest first.
pub fn release_all(guard: &mut Guard, tests: &mut Items<Option<ObjectId>>)
    ensures { guard.new ≡ all_released (tests_of tests.old) guard.old }
{
    while let Some(lock) = pop_test(tests) {
        release(guard, lock);
    }
}
