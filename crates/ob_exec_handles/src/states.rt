//! The names of states.
ghost use Rattle.std.specs.Prelude.{◌≡◌, option_map, option_and_then, IfOk};
ghost use Rattle.std.specs.Option.{option_copied};
ghost use Rattle.ob_heap.specs.Contents.{content_of};
ghost use Rattle.ob_heap_spec.specs.Worlds.{by_state};
ghost use Rattle.ob_invocation_spec.specs.Showing.{contract_of_object, state_name, told_state};
ghost use Rattle.ob_table.specs.Tables.{contract_at};
ghost use Rattle.ob_code_table.specs.ImageTables.{contract_of_code, table_of_image};

use ob_base::{Memory, ObjectId, StateId};
use ob_code::{CodeText, ContractCode, Image};
use ob_code_table::contract_at;
use ob_heap::{Content, RcStr};
use std::alloc::Global;

/// A text of an image.
pub fn text_of(alloc: Global, text: &CodeText) -> Result<RcStr, Memory>
    ensures { IfOk result (λ copy. copy ≡ text.now) }
{
    match str::from_utf8(text.as_bytes()) {
        Ok(text) => RcStr::from_str(alloc, text),
        Err(_) => unreachable!(),
    }
}

/// The contract of the object of a number.
pub fn contract_of<'a>(code: &'a Image, base: &Content, id: ObjectId) -> Option<&'a ContractCode>
    ensures { option_map contract_of_code (option_copied result) ≡ contract_of_object (table_of_image code.now) (content_of base.now).objects id.0 }
{
    match base.object(id) {
        Some(object) => contract_at(code, object.contract),
        None => None,
    }
}

/// The name of a state, if an object is in one.
pub fn state_name(
    alloc: Global,
    contract: &ContractCode,
    state: Option<StateId>,
) -> Result<Option<RcStr>, Memory>
    ensures { IfOk result (λ name. name ≡ option_and_then (state_name (contract_of_code contract.now)) state) }
{
    let Some(state) = state else {
        return Ok(None);
    };
    match contract.states.get(state.0 as usize) {
        Some(name) => Ok(Some(text_of(alloc, name)?)),
        None => Ok(None),
    }
}

/// The name of a state of the object of a number, as the class table of an image has it.
pub fn state_told(
    alloc: Global,
    code: &Image,
    base: &Content,
    object: ObjectId,
    state: Option<StateId>,
) -> Result<Option<RcStr>, Memory>
    ensures { IfOk result (λ told. told ≡ told_state (table_of_image code.now) (content_of base.now).objects (by_state object.0 state)) }
{
    match contract_of(code, base, object) {
        Some(contract) => state_name(alloc, contract, state),
        None => Ok(None),
    }
}
