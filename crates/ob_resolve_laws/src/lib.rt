//! Laws of the class table's definitions: what is known of each program without faults, and which fault a program's least is.
#![tactic(auto)]

ghost use Rattle.std.specs.Prelude.{All};
ghost use Rattle.ob_resolve_spec.specs.Declarations.{Program};
ghost use Rattle.ob_resolve_spec.specs.Faults.{HasNoFault};
ghost use Rattle.ob_resolve_spec.specs.Least.{least_fault, IsLeastOrNone};
ghost use Rattle.ob_resolve_spec.specs.Shape.{HasShape};
ghost use Rattle.ob_resolve_spec.specs.TableOf.{table_of};
ghost use Rattle.ob_table_spec.specs.Conditions.{IsClassTable};
ghost use Rattle.ob_table_spec.specs.WellFormed.{IsWellFormed, HasBodies};

/// The class table of a program without faults, whose tree has the shape of trees of texts (`HasShape`), meets the conditions
/// that the later stages need.
pub fn table_conditions()
    ensures { (program : Program) → HasShape program → HasNoFault program → IsClassTable (table_of program) }
{}

/// The bodies of a program without faults, whose tree has the shape of trees of texts (`HasShape`), are well-formed, and there
/// is one for each constructor and transaction of its contracts.
pub fn well_formed_bodies()
    ensures well_formed { (program : Program) → HasShape program → HasNoFault program → All (IsWellFormed (table_of program)) (table_of program).bodies }
    ensures each { (program : Program) → HasShape program → HasNoFault program → HasBodies (table_of program) }
{}

/// The least fault that is computed site by site is the least of all, and none is computed where there is none.
pub fn least_fault_is_least()
    ensures { (program : Program) → IsLeastOrNone program (least_fault program) }
{}
