//! The terms of small programs: to which their bodies may be lowered, and which are well-formed.
ghost use Rattle.std.specs.Prelude.{◌≡◌, pos, negsuc, true, [], Some};
ghost use Rattle.ob_examples.specs.Written.{tells_wrong};
ghost use Rattle.ob_examples.specs.VendingMachine.{vending_machine};
ghost use Rattle.ob_examples.specs.Lights.{lights};
ghost use Rattle.ob_examples.specs.Reentry.{reentry};
ghost use Rattle.ob_examples.specs.Arithmetic.{arithmetic};
ghost use Rattle.ob_examples.specs.VendingMachineTerms.{vending_terms};
ghost use Rattle.ob_examples.specs.LightsTerms.{light_terms};
ghost use Rattle.ob_examples.specs.ReentryTerms.{reentry_terms};
ghost use Rattle.ob_examples.specs.ArithmeticTerms.{arithmetic_terms};
ghost use Rattle.ob_examples.specs.Lamp.{lamp, by_meaning, number_and_truth, lit_with, reverted};
ghost use Rattle.ob_examples.specs.LampTerms.{lamp_terms, by_steps};
ghost use Rattle.ob_examples.specs.Summing.{summing, sum_of_four, gives_ten, lacks_a_unit};
ghost use Rattle.ob_examples.specs.SummingTerms.{summing_terms, sum_by_steps};
ghost use Rattle.ob_lower_spec.specs.BodyTerms.{AllLower};
ghost use Rattle.ob_examples.specs.BuyBodies.{buy_lowered, buy_short, buy_dropping, buy_losing, buy_large, buy_returning};
ghost use Rattle.ob_silica_formed.specs.WellFormedTerms.{IsWellFormedTerms};

/// The bodies of small programs may be lowered to the terms that are run elsewhere.
pub fn small_programs_lower()
    ensures vending { AllLower vending_machine vending_machine.bodies vending_terms.bodies }
    ensures light { AllLower lights lights.bodies light_terms.bodies }
    ensures calling { AllLower reentry reentry.bodies reentry_terms.bodies }
    ensures dividing { AllLower arithmetic arithmetic.bodies arithmetic_terms.bodies }
{}

/// A program with early stops, branches, staged statements and texts: its bodies may be lowered to its terms, and what a
/// transaction tells by the source meaning it tells by steps. A row of staged statements that is refused goes wrong.
pub fn lamp_lowers()
    ensures lowers { AllLower lamp lamp.bodies lamp_terms.bodies }
    ensures lit { by_meaning 1 (number_and_truth (pos 3) true) ≡ lit_with (pos 7) (pos 4) (pos 3) 10 }
    ensures steps_lit { by_steps 1 (number_and_truth (pos 3) true) ≡ Some (lit_with (pos 7) (pos 4) (pos 3) 10) }
    ensures other_lit { by_meaning 1 (number_and_truth (negsuc 2) true) ≡ lit_with (pos 5) (pos 2) (pos 3) 8 }
    ensures steps_other { by_steps 1 (number_and_truth (negsuc 2) true) ≡ Some (lit_with (pos 5) (pos 2) (pos 3) 8) }
    ensures fails { by_meaning 3 [] ≡ reverted }
    ensures steps_fail { by_steps 3 [] ≡ Some reverted }
    ensures refused { by_meaning 4 [] ≡ tells_wrong }
    ensures steps_refused { by_steps 4 [] ≡ Some tells_wrong }
{}

/// A loop that adds the numbers from 1 up to a given one: its body may be lowered to its terms. With 17 units it gives the sum of the
/// numbers up to four, by the source meaning and by steps, and with 16 it aborts.
pub fn sums_lower()
    ensures lowers { AllLower summing summing.bodies summing_terms.bodies }
    ensures enough { sum_of_four 17 ≡ gives_ten }
    ensures steps_enough { sum_by_steps 17 ≡ Some gives_ten }
    ensures too_few { sum_of_four 16 ≡ lacks_a_unit }
    ensures steps_too_few { sum_by_steps 16 ≡ Some lacks_a_unit }
{}

/// The terms of the vending machine's `buy` are well-formed. They aren't with a slot too few; nor is a body that drops
/// its parameter's slot, one that sets a slot that holds a reference, one with a number that is no `int`, and one that
/// returns another contract's object.
pub fn well_formed_and_other_terms()
    ensures well_formed { IsWellFormedTerms vending_machine buy_lowered }
    ensures short { IsWellFormedTerms vending_machine buy_short → ⊥ }
    ensures dropping { IsWellFormedTerms vending_machine buy_dropping → ⊥ }
    ensures losing { IsWellFormedTerms vending_machine buy_losing → ⊥ }
    ensures large { IsWellFormedTerms vending_machine buy_large → ⊥ }
    ensures returning { IsWellFormedTerms vending_machine buy_returning → ⊥ }
{}
