//! What comes into the body of an entry is marked, where it is declared Shared there.
ghost use Rattle.std.specs.Prelude.{◌≡◌, map, option_map, OnOk};
ghost use Rattle.ob_base.specs.declared.id.ContractId.{ContractId as ContractNumber};
ghost use Rattle.ob_heap.specs.Overlays.{KeepsUnread, no_object};
ghost use Rattle.ob_heap.specs.Plain.{value_of};
ghost use Rattle.ob_heap_spec.specs.Marks.{comes_into};
ghost use Rattle.ob_heap_spec.specs.Values.{reference};
ghost use Rattle.ob_heap_spec.specs.Worlds.{SameWorld};
ghost use Rattle.ob_machine_steps.specs.Entries.{args_come_in, receiver_comes_in, marked_world};
ghost use Rattle.ob_code_table.specs.ImageTables.{perm_of_code, type_of_param};
ghost use Rattle.ob_machine.specs.Phases.{entry_of};
ghost use Rattle.ob_machine_parts.specs.Shown.{number_of};
ghost use Rattle.ob_machine.specs.Shown.{world_of};
ghost use Rattle.ob_machine.specs.declared.run.Run.{Run};
ghost use Rattle.ob_perm.specs.Masks.{permission_of};
ghost use Rattle.ob_perm.specs.Permissions.{is_shared};
ghost use Rattle.ob_table.specs.declared.contract.ResolvedType.TheVariants.{Reference};

use crate::entry::Entry;
use ob_base::{Memory, Mode, ObjectId};
use ob_code::{BodyCode, Image, ParamCode, PermCode};
use ob_heap::{Content, Overlay, Value};
use ob_machine_parts::heap::mark_shared;
use ob_machine_parts::lookups::body_at;
use ob_machine_parts::off::Off;
use std::alloc::Global;

// Whether a permission is that of one of those that share an object.
fn is_shared(perm: PermCode) -> bool
    ensures { result ≡ is_shared (permission_of (perm_of_code perm)) }
{
    match perm.mode {
        Mode::Shared => true,
        Mode::Owned | Mode::Unowned => false,
    }
}

// A reference comes into a place with this permission.
fn come_in(
    alloc: Global,
    base: &Content,
    overlay: &mut Overlay,
    perm: PermCode,
    id: ObjectId,
) -> Result<(), Memory>
    ensures world { OnOk result ((of : ContractNumber) (m : Run) → SameWorld (comes_into (Reference of (perm_of_code perm)) (reference id.0) (world_of m base.now.objects overlay.old)) (world_of m base.now.objects overlay.new)) }
    ensures unread { OnOk result (KeepsUnread no_object overlay.old overlay.new) }
{
    if !is_shared(perm) {
        return Ok(());
    }
    mark_shared(alloc, base, overlay, id)
}

// An argument comes into its parameter.
fn arg_comes_in(
    alloc: Global,
    base: &Content,
    overlay: &mut Overlay,
    param: &ParamCode,
    arg: &Value,
) -> Result<(), Memory>
    ensures world { OnOk result ((m : Run) → SameWorld (comes_into (type_of_param param.now) (value_of arg.now) (world_of m base.now.objects overlay.old)) (world_of m base.now.objects overlay.new)) }
    ensures unread { OnOk result (KeepsUnread no_object overlay.old overlay.new) }
{
    match (param, arg) {
        (ParamCode::Reference(_, entry, _), Value::Object(id)) => {
            come_in(alloc, base, overlay, *entry, *id)
        }
        _ => Ok(()),
    }
}

// Arguments come into parameters, one after another.
fn args_come_in(
    alloc: Global,
    base: &Content,
    overlay: &mut Overlay,
    params: &[ParamCode],
    args: &[Value],
) -> Result<(), Memory>
    ensures world { OnOk result ((m : Run) → SameWorld (args_come_in params.now (map value_of args.now) (world_of m base.now.objects overlay.old)) (world_of m base.now.objects overlay.new)) }
    ensures unread { OnOk result (KeepsUnread no_object overlay.old overlay.new) }
{
    for (param, arg) in params.iter().zip(args) {
        arg_comes_in(alloc, base, overlay, param, arg)?;
    }
    Ok(())
}

// A receiver comes into a body, if there is one.
fn receiver_comes_in(
    alloc: Global,
    base: &Content,
    overlay: &mut Overlay,
    body: &BodyCode,
    receiver: Option<ObjectId>,
) -> Result<(), Memory>
    ensures world { OnOk result ((of : ContractNumber) (m : Run) → SameWorld (receiver_comes_in of body.now (option_map number_of receiver) (world_of m base.now.objects overlay.old)) (world_of m base.now.objects overlay.new)) }
    ensures unread { OnOk result (KeepsUnread no_object overlay.old overlay.new) }
{
    match receiver {
        Some(id) => come_in(alloc, base, overlay, body.entry, id),
        None => Ok(()),
    }
}

// The receiver and the arguments of an entry come into its body.
fn comes_into_body(
    alloc: Global,
    base: &Content,
    overlay: &mut Overlay,
    body: &BodyCode,
    entry: &Entry,
) -> Result<(), Memory>
    ensures world { OnOk result ((m : Run) → SameWorld (args_come_in body.now.params (map value_of entry.now.args) (receiver_comes_in entry.now.contract body.now (option_map number_of entry.now.receiver) (world_of m base.now.objects overlay.old))) (world_of m base.now.objects overlay.new)) }
    ensures unread { OnOk result (KeepsUnread no_object overlay.old overlay.new) }
{
    receiver_comes_in(alloc, base, overlay, body, entry.receiver)?;
    args_come_in(
        alloc,
        base,
        overlay,
        body.params.as_slice(),
        entry.args.as_slice(),
    )
}

// What comes into the body of an entry is marked; where there is no such body nothing is.
pub fn mark(
    alloc: Global,
    code: &Image,
    base: &Content,
    overlay: &mut Overlay,
    entry: &Entry,
) -> Result<(), Memory>
    ensures world { OnOk result ((m : Run) → SameWorld (marked_world code.now (entry_of entry.now) (world_of m base.now.objects overlay.old)) (world_of m base.now.objects overlay.new)) }
    ensures unread { OnOk result (KeepsUnread no_object overlay.old overlay.new) }
{
    match body_at(code, entry.contract, entry.tx) {
        Ok(body) => comes_into_body(alloc, base, overlay, body, entry),
        Err(Off::NoStep) => Ok(()),
        Err(Off::Memory) => Err(Memory),
    }
}
