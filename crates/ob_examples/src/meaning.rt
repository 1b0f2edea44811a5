//! What the bodies of small programs do.
ghost use Rattle.std.specs.Prelude.{◌≡◌, pos, negsuc};
ghost use Rattle.ob_heap_spec.specs.Contents.{IsContent};
ghost use Rattle.ob_examples.specs.Written.{told};
ghost use Rattle.ob_examples.specs.VendingMachine.{vending_machine, vending_content, candy_bought, one_sold, out_of_units};
ghost use Rattle.ob_examples.specs.Lights.{lights, flipped_under_test, flip_aborted, made_after_abort, second_light};
ghost use Rattle.ob_examples.specs.Reentry.{round, round_aborted, direct, direct_gives_seven};
ghost use Rattle.ob_examples.specs.Switches.{lamp_flipped, lamp_is_on};
ghost use Rattle.ob_examples.specs.Arithmetic.{calculated, gives_int, overflows_on, least_int};

/// A store with a candy, a coin and a full machine is one of the vending machine's class table.
pub fn vending_store_is_content()
    ensures { IsContent vending_machine vending_content }
{}

/// The vending machine sells a candy for a coin with 6 units, and aborts with 5.
pub fn vending_machine_sells_one_candy()
    ensures enough { candy_bought 6 ≡ one_sold }
    ensures too_few { candy_bought 5 ≡ out_of_units }
{}

/// A shared light that is flipped under its test aborts the run, and the number of what that run made is the next one
/// again.
pub fn flip_under_test_aborts()
    ensures flip { told lights flipped_under_test ≡ flip_aborted }
    ensures next_number { told lights made_after_abort ≡ second_light }
{}

/// A call back to an object whose transaction is in progress aborts, and a call on `this` doesn't.
pub fn call_back_aborts()
    ensures round { round ≡ round_aborted }
    ensures direct { direct ≡ direct_gives_seven }
{}

/// A quotient that is no `int` aborts with the line of its operator, the left one of two; else a quotient is rounded
/// toward zero, and a remainder has the sign of the dividend.
pub fn division_overflows()
    ensures least_by_minus_one { calculated 1 least_int (negsuc 0) ≡ overflows_on 2 }
    ensures by_zero { calculated 1 (pos 7) (pos 0) ≡ overflows_on 2 }
    ensures quotient { calculated 1 (negsuc 6) (pos 2) ≡ gives_int (negsuc 2) }
    ensures remainder { calculated 2 (negsuc 6) (pos 2) ≡ gives_int (negsuc 0) }
    ensures least_remainder { calculated 2 least_int (negsuc 0) ≡ gives_int (pos 0) }
    ensures left_first { calculated 3 (pos 7) (pos 0) ≡ overflows_on 6 }
{}

/// A transaction that is called through an interface is the object's own of that name, and a state that is tested
/// through it is the object's of that name.
pub fn interface_calls_by_name()
    ensures { lamp_flipped ≡ lamp_is_on }
{}
