//! What a `new` or a `call` enters, or which refusal comes first.
ghost use Rattle.std.specs.Prelude.{◌≡◌, ◌||◌, map, IfOk, IfErr};
ghost use Rattle.std.specs.List.{list_any};
ghost use Rattle.ob_heap.specs.Contents.{content_of};
ghost use Rattle.ob_invocation_spec.specs.Entries.{entry_of_new, entry_of_call};
ghost use Rattle.ob_invocation_spec.specs.Handles.{handle_name};
ghost use Rattle.ob_invocation_spec.specs.Requests.{NewRequest, CallRequest};
ghost use Rattle.ob_invocation_spec.specs.Refusals.{is_no_handle, new_checks, call_checks};
ghost use Rattle.ob_code_table.specs.ImageTables.{table_of_image};
ghost use Rattle.ob_wire.specs.Meanings.{argument_meant};
ghost use Rattle.ob_exec_entries.specs.Arguments.{names_no_handle};
ghost use Rattle.ob_exec_entries.specs.Entering.{EntersSo, IsRefusedBy};
ghost use Rattle.ob_exec_entries.specs.Naming.{IsNamesOf};

use crate::arguments::{find_handle, lack_handle};
use crate::entered::{EnterError, Entered};
use crate::finding::{find_call, find_new};
use crate::lookups::is_other_contract;
use crate::names::Names;
use ob_base::{Items, Label};
use ob_code::Image;
use ob_heap::Content;
use ob_wire::{Arg, Refusal};
use std::alloc::Global;

/// What a `new` enters: the constructor of the main contract, with what comes into it; or the refusal by the first check that
/// holds. Only an image that isn't verified has a main contract without a constructor; then it enters nothing, as where memory
/// runs out.
pub fn enter_new(
    alloc: Global,
    code: &Image,
    names: &Names,
    content: &Content,
    who: &Label,
    contract: &Label,
    args: &Items<Arg>,
    into: &Option<Label>,
) -> Result<Entered, EnterError>
    requires { IsNamesOf names.now code.now }
    ensures entered { let r : NewRequest = record { contract = contract.now; args = map argument_meant args.now; into = into.now } in IfOk result (EntersSo (content_of content.now) (new_checks (table_of_image code.now) (content_of content.now) who.now r) (entry_of_new (table_of_image code.now) who.now r) who.now) }
    ensures refused { IfErr result (IsRefusedBy (new_checks (table_of_image code.now) (content_of content.now) who.now (record { contract = contract.now; args = map argument_meant args.now; into = into.now }))) }
{
    if lack_handle(content, who, args.as_slice()) {
        return Err(EnterError::Refused(Refusal::NoHandle));
    }
    let Some(id) = names.contract(contract) else {
        return Err(EnterError::Refused(Refusal::NoContract));
    };
    if is_other_contract(code, id) {
        return Err(EnterError::Refused(Refusal::NotMain));
    }
    match find_new(code, who, id, args, into) {
        Some(target) => target.enter(alloc, code, content),
        None => Err(EnterError::Memory),
    }
}

// Whether there is no handle of this name, or an argument names one that isn't there.
fn lack_handles(content: &Content, who: &Label, on: &Label, args: &[Arg]) -> bool
    ensures { result ≡ (is_no_handle (content_of content.now) (handle_name who.now on.now) || list_any (names_no_handle (content_of content.now) who.now) args.now) }
{
    find_handle(content, who, on).is_none() || lack_handle(content, who, args)
}

/// What a `call` enters: the transaction of its name of the object's contract, with what comes into it; or the refusal by the
/// first check that holds.
pub fn enter_call(
    alloc: Global,
    code: &Image,
    names: &Names,
    content: &Content,
    who: &Label,
    on: &Label,
    tx: &Label,
    args: &Items<Arg>,
    into: &Option<Label>,
) -> Result<Entered, EnterError>
    requires { IsNamesOf names.now code.now }
    ensures entered { let r : CallRequest = record { on = on.now; tx = tx.now; args = map argument_meant args.now; into = into.now } in IfOk result (EntersSo (content_of content.now) (call_checks (table_of_image code.now) (content_of content.now) who.now r) (entry_of_call (table_of_image code.now) (content_of content.now) who.now r) who.now) }
    ensures refused { IfErr result (IsRefusedBy (call_checks (table_of_image code.now) (content_of content.now) who.now (record { on = on.now; tx = tx.now; args = map argument_meant args.now; into = into.now }))) }
{
    if lack_handles(content, who, on, args.as_slice()) {
        return Err(EnterError::Refused(Refusal::NoHandle));
    }
    match find_call(code, names, content, who, on, tx, args, into) {
        Some(target) => target.enter(alloc, code, content),
        None => Err(EnterError::Refused(Refusal::NoTransaction)),
    }
}
