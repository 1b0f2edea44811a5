//! What the names in a request denote.
ghost use Rattle.std.specs.Prelude.{◌≡◌, map, option_map, IfSome};
ghost use Rattle.ob_heap.specs.Contents.{content_of};
ghost use Rattle.ob_heap.specs.Plain.{handle_of};
ghost use Rattle.ob_invocation_spec.specs.Entries.{entry_of_call};
ghost use Rattle.ob_code_table.specs.ImageTables.{table_of_image};
ghost use Rattle.ob_heap_spec.specs.Contents.{object_at};
ghost use Rattle.ob_heap_spec.specs.Objects.{Object as PlainObject};
ghost use Rattle.ob_wire.specs.Meanings.{argument_meant};
ghost use Rattle.ob_exec_entries.specs.Naming.{IsNamesOf};
ghost use Rattle.ob_exec_entries.specs.Targets.{made_by, called_by};

use crate::arguments::find_handle;
use crate::lookups::mode_of_result;
use crate::names::Names;
use crate::target::Target;
use ob_base::{ContractId, Items, Label, ObjectId, TxId};
use ob_code::{Image, is_private};
use ob_code_table::{body_code, constructor_code};
use ob_heap::{Content, Handle};
use ob_wire::Arg;

/// What a `new` of a contract would enter.
pub fn find_new<'a>(
    code: &'a Image,
    who: &'a Label,
    contract: ContractId,
    args: &'a Items<Arg>,
    into: &'a Option<Label>,
) -> Option<Target<'a>>
    ensures who { IfSome result (λ target. target.who ≡ who.now) }
    ensures found { result ≡ made_by (table_of_image code.now) who.now contract args.now into.now }
{
    let body = constructor_code(code, contract)?;
    Some(Target {
        who,
        contract,
        tx: TxId(0),
        body,
        receiver: None,
        given: Some(body.exit.mode),
        args,
        into,
    })
}

// What a call of a transaction of a contract by its number would enter.
fn find_called<'a>(
    code: &'a Image,
    who: &'a Label,
    contract: ContractId,
    tx: TxId,
    on: &'a Label,
    handle: Handle,
    args: &'a Items<Arg>,
    into: &'a Option<Label>,
) -> Option<Target<'a>>
    ensures who { IfSome result (λ target. target.who ≡ who.now) }
    ensures found { result ≡ called_by (table_of_image code.now) who.now contract tx on.now (handle_of handle) args.now into.now }
{
    let body = body_code(code, contract, tx)?;
    if is_private(body) {
        return None;
    }
    Some(Target {
        who,
        contract,
        tx,
        body,
        receiver: Some((on, handle)),
        given: mode_of_result(&body.result),
        args,
        into,
    })
}

fn contract_of_object(content: &Content, id: ObjectId) -> Option<ContractId>
    ensures { result ≡ option_map (λ (o : PlainObject). o.contract) (object_at (content_of content.now).objects id.0) }
{
    match content.object(id) {
        Some(object) => Some(object.contract),
        None => None,
    }
}

/// What a `call` would enter: the transaction of its name of the object's contract, unless that is private.
pub fn find_call<'a>(
    code: &'a Image,
    names: &Names,
    content: &Content,
    who: &'a Label,
    on: &'a Label,
    tx: &Label,
    args: &'a Items<Arg>,
    into: &'a Option<Label>,
) -> Option<Target<'a>>
    requires { IsNamesOf names.now code.now }
    ensures who { IfSome result (λ target. target.who ≡ who.now) }
    ensures found { result ≡ entry_of_call (table_of_image code.now) (content_of content.now) who.now (record { on = on.now; tx = tx.now; args = map argument_meant args.now; into = into.now }) }
{
    let handle = find_handle(content, who, on)?;
    let contract = contract_of_object(content, handle.object)?;
    let number = names.transaction(contract, tx)?;
    find_called(code, who, contract, number, on, handle, args, into)
}
