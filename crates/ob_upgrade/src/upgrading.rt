//! The change of a store that makes it one of a new program.
ghost use Rattle.std.specs.Prelude.{◌≡◌, map, IfOk};
ghost use Rattle.ob_table.specs.Tables.{contract_named};
ghost use Rattle.ob_heap.specs.Differences.{numbered_from};
ghost use Rattle.ob_code.specs.declared.image.ContractCode.{ContractCode as Code};
ghost use Rattle.ob_code_table.specs.ImageTables.{table_of_image};
ghost use Rattle.ob_upgrade.specs.Renaming.{named_ids, renamed, renamed_object, IsUpgrade};

use crate::matching::place_named;
use ob_base::{ContractId, Duplicate, Memory, ObjectId};
use ob_code::Image;
use ob_heap::{Content, Delta, Object, Sequence};
use ob_verify::Verified;
use std::alloc::Global;

// The contract of a name. A number of 2^32 or more counts as want of memory.
fn id_named(image: &Image, name: &[u8]) -> Result<Option<ContractId>, Memory>
    ensures { IfOk result (λ id. id ≡ contract_named (table_of_image image.now).contracts name.now) }
{
    let Some(place) = place_named(image, name) else {
        return Ok(None);
    };
    if place > u32::MAX as usize {
        return Err(Memory);
    }
    Ok(Some(ContractId(place as u32)))
}

// For each old contract the new one of its name, where there is one.
fn ids_named(
    alloc: Global,
    old: &Image,
    new: &Image,
) -> Result<Sequence<Option<ContractId>>, Memory>
    ensures { IfOk result (λ ids. ids ≡ named_ids (table_of_image new.now) old.now.contracts) }
{
    let mut ids = Sequence::new(alloc);
    for contract in old.contracts.as_slice() {
        ids.push(id_named(new, contract.name.as_bytes())?)?;
    }
    Ok(ids)
}

fn renamed(ids: &[Option<ContractId>], id: ContractId) -> ContractId
    ensures { result ≡ renamed ids.now id }
{
    match ids.get(id.0 as usize) {
        Some(Some(new)) => *new,
        _ => id,
    }
}

fn renamed_object(
    alloc: Global,
    ids: &[Option<ContractId>],
    object: &Object,
) -> Result<Object, Memory>
    ensures { IfOk result (λ o. o ≡ renamed_object ids.now object.now) }
{
    Ok(Object {
        contract: renamed(ids, object.contract),
        state: object.state,
        fields: object.fields.copy(alloc)?,
        shared: object.shared,
        disowned: object.disowned,
    })
}

// The object's number. A number of 2^32 or more counts as want of memory.
fn object_id(place: usize) -> Result<ObjectId, Memory>
    ensures { IfOk result (λ id. id ≡ record { 0 = place }) }
{
    if place > u32::MAX as usize {
        return Err(Memory);
    }
    Ok(ObjectId(place as u32))
}

// Each object with its number.
#[tactic(auto, using(crate::proofs::Renaming::renaming))]
fn renamed_objects(
    alloc: Global,
    ids: &[Option<ContractId>],
    objects: &[Object],
) -> Result<Sequence<(ObjectId, Object)>, Memory>
    ensures { IfOk result (λ os. os ≡ numbered_from 0 (map (renamed_object ids.now) objects.now)) }
{
    let mut renamed = Sequence::new(alloc);
    for place in 0..objects.len() {
        let id = object_id(place)?;
        let object = renamed_object(alloc, ids, &objects[place])?;
        renamed.push((id, object))?;
    }
    Ok(renamed)
}

/// The change that makes a store of a program one of a new program: each object becomes one of the new program's contract of the same
/// name. States, fields, marks and handles stay. More than 2^32 contracts or objects count as want of memory.
pub fn upgraded(
    alloc: Global,
    old: &Verified,
    new: &Verified,
    content: &Content,
) -> Result<Delta, Memory>
    ensures { IfOk result (IsUpgrade (table_of_image old.now) (table_of_image new.now) content.now) }
{
    let ids = ids_named(alloc, old.image(), new.image())?;
    let objects = renamed_objects(alloc, ids.as_slice(), content.objects())?;
    Ok(Delta {
        objects,
        handles: Sequence::new(alloc),
    })
}
