//! Lowering makes well-formed terms, which name states by the numbers that a state can have.
#![tactic(auto)]

ghost use Rattle.ob_lower_formed.specs.Law.{LoweringIsWellFormed, LoweringIsAllWellFormed};
ghost use Rattle.ob_lower_formed.specs.NamesStates.{LoweredTermsNameStates};

/// The terms to which a well-formed body of a class table may be lowered are well-formed, where they have at most as many
/// slots as a body may have; so are those of bodies in their order.
pub fn lowered_terms_are_well_formed()
    ensures one { LoweringIsWellFormed }
    ensures each { LoweringIsAllWellFormed }
{}

/// The terms to which a well-formed body of a class table may be lowered test and change to states of numbers that a state
/// can have, which the flow check needs of them.
pub fn lowered_terms_name_states()
    ensures { LoweredTermsNameStates }
{}
