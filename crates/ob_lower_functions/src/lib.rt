//! Lowering that takes one slot after the other: its terms are such as the lowering relation allows, and it fails where a
//! body needs more slots than there are.
#![tactic(auto)]

ghost use Rattle.ob_lower_functions.specs.Law.{GivesTerms, FailsWhereFull, EachHasTerms};

/// Where taking one slot after the other gives terms for a body, these are terms that the lowering relation allows, and
/// slots don't run out.
pub fn slots_in_order_lower()
    ensures terms { GivesTerms }
{}

/// Where it needs a slot past the most, the slots of the body run out, and at that place.
pub fn slots_in_order_run_out()
    ensures fails { FailsWhereFull }
{}

/// A well-formed body whose parameters have slots, and whose slots don't run out, has terms that the lowering relation allows.
pub fn bodies_with_few_slots_lower()
    ensures each { EachHasTerms }
{}
