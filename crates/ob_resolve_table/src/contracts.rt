//! A contract as it stands in the table (Coblenz et al., TOPLAS 42(3), 2020, "Contracts").
ghost use Rattle.std.specs.Prelude.{◌≡◌, option_map, IfOk};
ghost use Rattle.ob_tree.specs.MembersView.{contract_of};
ghost use Rattle.ob_resolve_spec.specs.Kinds.{interface_of};
ghost use Rattle.ob_resolve_spec.specs.TableOf.{contract_in_table};
ghost use Rattle.ob_resolve_scope.specs.Types.{program_of};

use crate::fields::{state_names, table_fields};
use crate::signatures::signatures_of;
use ob_base::{ContractId, Duplicate, Memory, TxId};
use ob_resolve_bodies::wide;
use ob_resolve_scope::AroundBody;
use ob_table::Contract;
use std::alloc::Global;

// The interface that the contract around implements.
fn implemented(around: &AroundBody<'_>) -> Result<Option<ContractId>, Memory>
    ensures { IfOk result (λ id. id ≡ option_map (λ n. record { 0 = n })
        (interface_of (program_of around.now.program) (contract_of around.now.own))) }
{
    match around.declared().types().interface_of(around.number()) {
        None => Ok(None),
        Some(number) => Ok(Some(ContractId(wide(number)?))),
    }
}

/// The contract or interface around.
pub fn table_contract(around: &AroundBody<'_>, alloc: Global) -> Result<Contract, Memory>
    ensures { IfOk result (λ c. c ≡ contract_in_table (program_of around.now.program) (contract_of around.now.own)) }
{
    let node = around.node();
    let members = node.members.as_slice();
    let constructor = if node.interface { None } else { Some(TxId(0)) };
    let implements = implemented(around)?;
    match (
        node.name.copy(alloc),
        state_names(members, alloc),
        table_fields(around, members, alloc),
        signatures_of(around, alloc),
    ) {
        (Ok(name), Ok(states), Ok(fields), Ok(transactions)) => Ok(Contract {
            name,
            asset: node.asset,
            main: node.main,
            interface: node.interface,
            implements,
            states,
            fields,
            constructor,
            transactions,
        }),
        _ => Err(Memory),
    }
}
