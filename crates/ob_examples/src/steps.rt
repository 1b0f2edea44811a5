//! The runs of small programs, computed step by step: they tell what the source meaning of these programs tells.
ghost use Rattle.std.specs.Prelude.{◌≡◌, pos, negsuc, true, false, [], ◌∷◌, Some, None};
ghost use Rattle.ob_examples.specs.VendingMachine.{one_sold, out_of_units};
ghost use Rattle.ob_examples.specs.Lights.{flip_aborted, second_light};
ghost use Rattle.ob_examples.specs.Reentry.{round_aborted, direct_gives_seven};
ghost use Rattle.ob_examples.specs.Arithmetic.{least_int, gives_int, overflows_on};
ghost use Rattle.ob_examples.specs.VendingMachineTerms.{candy_bought_by_steps};
ghost use Rattle.ob_examples.specs.LightsTerms.{flipped_by_steps, made_by_steps, other_flipped_by_steps, other_flipped};
ghost use Rattle.ob_examples.specs.ReentryTerms.{round_by_steps, direct_by_steps};
ghost use Rattle.ob_examples.specs.ArithmeticTerms.{calculated_by_steps};
ghost use Rattle.ob_examples.specs.Shop.{filled_after, told_notes};

/// The vending machine sells a candy for a coin with 6 units, and aborts with 5.
pub fn vending_machine_sells_one_candy()
    ensures enough { candy_bought_by_steps 6 ≡ Some one_sold }
    ensures too_few { candy_bought_by_steps 5 ≡ Some out_of_units }
{}

/// A shared light that is flipped under its test aborts the run, and the number of what that run made is the next one
/// again. Another light is flipped, and the first is free afterwards.
pub fn flip_under_test_aborts()
    ensures flip { flipped_by_steps ≡ Some flip_aborted }
    ensures next_number { made_by_steps ≡ Some second_light }
    ensures other { other_flipped_by_steps ≡ Some other_flipped }
{}

/// A call back to an object whose transaction is in progress aborts, and a call on `this` doesn't.
pub fn call_back_aborts()
    ensures round { round_by_steps ≡ Some round_aborted }
    ensures direct { direct_by_steps ≡ Some direct_gives_seven }
{}

/// A quotient that is no `int` aborts with the line of its operator, the left one of two; else a quotient is rounded
/// toward zero, and a remainder has the sign of the dividend.
pub fn division_overflows()
    ensures least_by_minus_one { calculated_by_steps 1 least_int (negsuc 0) ≡ Some (overflows_on 2) }
    ensures by_zero { calculated_by_steps 1 (pos 7) (pos 0) ≡ Some (overflows_on 2) }
    ensures quotient { calculated_by_steps 1 (negsuc 6) (pos 2) ≡ Some (gives_int (negsuc 2)) }
    ensures remainder { calculated_by_steps 2 (negsuc 6) (pos 2) ≡ Some (gives_int (negsuc 0)) }
    ensures least_remainder { calculated_by_steps 2 least_int (negsuc 0) ≡ Some (gives_int (pos 0)) }
    ensures left_first { calculated_by_steps 3 (pos 7) (pos 0) ≡ Some (overflows_on 6) }
{}

/// A machine and a candy that are given to a call are Unowned while it runs, and their caller holds the machine again, full,
/// after it.
pub fn lent_places_come_back()
    ensures lent { told_notes (filled_after 2) ≡ Some (record {
      innermost = Some (false, false) ∷ None ∷ [];
      waiting = (None ∷ None ∷ []) ∷ [];
    }) }
    ensures back { told_notes (filled_after 8) ≡ Some (record {
      innermost = Some (true, false) ∷ None ∷ [];
      waiting = [];
    }) }
{}
