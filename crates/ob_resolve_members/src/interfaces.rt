//! Contracts and their interfaces.
ghost use Rattle.std.specs.Prelude.{◌≡◌, true, IfOk};
ghost use Rattle.std.specs.Option.{option_map_or};
ghost use Rattle.std.specs.List.{list_all};
ghost use Rattle.ob_tree.specs.MembersView.{contract_of};
ghost use Rattle.ob_table_spec.specs.Names.{is_among};
ghost use Rattle.ob_resolve_spec.specs.Declarations.{declared_contract, state_names};
ghost use Rattle.ob_resolve_spec.specs.Interfaces.{meets};
ghost use Rattle.ob_resolve_scope.specs.Types.{program_of};

use crate::transactions::has_answers;
use ob_base::Memory;
use ob_resolve_scope::AroundBody;
use ob_resolve_spec::InferredKind;
use std::alloc::Global;

// Whether the contract has each state of the interface.
#[tactic(auto, using(crate::proofs::AskedLemmas::asking))]
fn has_states(own: &AroundBody<'_>, interface: &AroundBody<'_>) -> bool
    ensures { result ≡ list_all (λ state. is_among state (state_names (contract_of own.now.own)))
        (state_names (contract_of interface.now.own)) }
{
    match interface.states() {
        None => false,
        Some(asked) => match own.states() {
            None => false,
            Some(states) => asked.is_within(states),
        },
    }
}

fn meets_one<'a>(
    alloc: Global,
    own: &AroundBody<'a>,
    interface: &AroundBody<'_>,
) -> Result<bool, Memory>
    ensures { IfOk result (λ is. is ≡ meets (program_of own.now.program) (contract_of interface.now.own)
        (contract_of own.now.own)) }
{
    if own.node().asset && !interface.node().asset {
        return Ok(false);
    }
    if !has_states(own, interface) {
        return Ok(false);
    }
    has_answers(alloc, own, interface)
}

/// Whether the contract around has what the interface of this number asks (Coblenz et al., TOPLAS 42(3), 2020,
/// "Interfaces"); where there is no contract of the number, nothing is asked.
#[tactic(auto, using(crate::proofs::AskedLemmas::asking))]
pub fn meets<'a>(alloc: Global, around: &AroundBody<'a>, interface: usize) -> Result<bool, Memory>
    ensures { IfOk result (λ is. is ≡ option_map_or
        (λ i. meets (program_of around.now.program) i (contract_of around.now.own))
        (declared_contract (program_of around.now.program) interface) true) }
{
    match AroundBody::new(around.declared(), interface, InferredKind::Nothing) {
        None => Ok(true),
        Some(interface) => meets_one(alloc, around, &interface),
    }
}
