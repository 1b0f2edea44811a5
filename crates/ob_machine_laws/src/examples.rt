//! Worked examples.
ghost use Rattle.ob_machine_laws.specs.Examples.{TestLocks, TestFails, TestAborts, TestOfThis, TestOfThisAborts, TestEnds};
ghost use Rattle.ob_machine_laws.specs.Examples.{ChangeKeeps, ChangeAborts, NoField, NoValue, CallAborts, CallWithoutFuel};
ghost use Rattle.ob_machine_laws.specs.Examples.{AddGives, AddOverflows, AddWithoutFuel, NewGives, RoundAborts, SliceWaits};

/// Single steps, worked out: tests with and without locks, changes of state, calls that abort, and what has no step.
pub fn steps_worked_out()
    ensures test_locks { TestLocks }
    ensures test_fails { TestFails }
    ensures test_aborts { TestAborts }
    ensures test_of_this { TestOfThis }
    ensures test_of_this_aborts { TestOfThisAborts }
    ensures test_ends { TestEnds }
    ensures change_keeps { ChangeKeeps }
    ensures change_aborts { ChangeAborts }
    ensures no_field { NoField }
    ensures no_value { NoValue }
    ensures call_aborts { CallAborts }
    ensures call_without_fuel { CallWithoutFuel }
{}

/// Whole runs, worked out: a result, an overflow, want of units, a new object, a re-entry, and a slice that waits.
pub fn runs_worked_out()
    ensures add_gives { AddGives }
    ensures add_overflows { AddOverflows }
    ensures add_without_fuel { AddWithoutFuel }
    ensures new_gives { NewGives }
    ensures round_aborts { RoundAborts }
    ensures slice_waits { SliceWaits }
{}
