//! The class table.
ghost use Rattle.std.specs.Prelude.{◌≡◌, [], ◌∷◌, ◌++◌, map, IfOk, OnOk};
ghost use Rattle.ob_tree.specs.MembersView.{contract_of};
ghost use Rattle.ob_table.specs.StatementsView.{resolved_body_of};
ghost use Rattle.ob_resolve_spec.specs.TableOf.{contract_in_table, bodies_of, table_of};
ghost use Rattle.ob_resolve_scope.specs.Types.{program_of};

use crate::bodies::add_bodies;
use crate::contracts::table_contract;
use ob_base::{Items, Memory};
use ob_resolve_scope::{AroundBody, Declared};
use ob_resolve_spec::InferredKind;
use ob_table::{Body, Contract, Table};
use std::alloc::Global;

// The contract around, with its bodies.
fn add_contract(
    around: &AroundBody<'_>,
    contracts: &mut Items<Contract>,
    bodies: &mut Items<Body>,
    alloc: Global,
) -> Result<(), Memory>
    ensures contracts { OnOk result (contracts.new ≡ contracts.old
        ++ contract_in_table (program_of around.now.program) (contract_of around.now.own) ∷ []) }
    ensures bodies { OnOk result (map resolved_body_of bodies.new
        ≡ map resolved_body_of bodies.old ++ bodies_of (program_of around.now.program) (contract_of around.now.own)) }
{
    contracts.push(table_contract(around, alloc)?)?;
    add_bodies(around, bodies, alloc)
}

/// The class table of the program. What no program without faults has counts as want of memory: a number past its
/// type, a contract with more than 32 states or with two of one name, bytes that are no name.
pub fn make_table(alloc: Global, declared: &Declared<'_>) -> Result<Table, Memory>
    ensures { IfOk result (λ table. table ≡ table_of (program_of declared.now)) }
{
    let mut contracts = Items::new(alloc);
    let mut bodies = Items::new(alloc);
    for number in 0..declared.types().len() {
        if let Some(around) = AroundBody::new(&*declared, number, InferredKind::Nothing) {
            add_contract(&around, &mut contracts, &mut bodies, alloc)?;
        }
    }
    Table::new(contracts, bodies)
}
