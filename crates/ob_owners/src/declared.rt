//! What an image declares.
ghost use Rattle.std.specs.Prelude.{◌≡◌, map, IfOk};
ghost use Rattle.ob_code_table.specs.ImageTables.{table_of_image};
ghost use Rattle.ob_owners.specs.Indexes.{SameReferences, without_bodies};

use ob_base::{Duplicate, Items, Memory, copy_items};
use ob_code::{ContractCode, Image};
use std::alloc::Global;

// A contract without its bodies.
fn declaration(alloc: Global, contract: &ContractCode) -> Result<ContractCode, Memory>
    ensures { IfOk result (λ copy. copy ≡ without_bodies contract.now) }
{
    let name = contract.name.copy(alloc)?;
    let states = copy_items(alloc, &contract.states)?;
    let fields = copy_items(alloc, &contract.fields)?;
    Ok(ContractCode {
        name,
        flags: contract.flags,
        implements: contract.implements,
        states,
        fields,
        bodies: Items::new(alloc),
    })
}

// Contracts without their bodies.
fn copy_declarations(
    alloc: Global,
    contracts: &[ContractCode],
) -> Result<Items<ContractCode>, Memory>
    ensures { IfOk result (λ copies. copies ≡ map without_bodies contracts.now) }
{
    let mut copies = Items::new(alloc);
    for contract in contracts {
        copies.push(declaration(alloc, contract)?)?;
    }
    Ok(copies)
}

/// The contracts of an image, without their bodies.
pub fn declarations(alloc: Global, code: &Image) -> Result<Image, Memory>
    ensures { IfOk result (λ declared. SameReferences (table_of_image declared) (table_of_image code.now)) }
{
    let contracts = copy_declarations(alloc, code.contracts.as_slice())?;
    Ok(Image { contracts })
}
