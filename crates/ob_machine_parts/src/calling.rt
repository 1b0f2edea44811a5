//! What a call with a receiver does before its body begins.
ghost use Rattle.std.specs.Prelude.{◌≡◌, not, IfOk, OnOk};
ghost use Rattle.ob_heap_spec.specs.Contents.{object_at};
ghost use Rattle.ob_heap_spec.specs.Marks.{is_among};
ghost use Rattle.ob_heap_spec.specs.Worlds.{read_object, SameWorld};
ghost use Rattle.ob_heap.specs.Overlays.{objects_over, KeepsUnread, no_object};
ghost use Rattle.ob_machine_parts.specs.Giving.{Gives};
ghost use Rattle.ob_machine_parts.specs.Guards.{Guarded, with_entry};
ghost use Rattle.ob_machine_parts.specs.Images.{called_on};
ghost use Rattle.ob_machine_parts.specs.Shown.{world_with};
ghost use Rattle.ob_machine_parts.specs.Units.{Metered};

use crate::guard::Guard;
use crate::heap::{find, note};
use crate::lookups::callee;
use crate::off::Off;
use ob_base::{ContractId, Memory, ObjectId, TxId};
use ob_code::Image;
use ob_heap::{Content, Overlay};

/// The object of a number is read, and a transaction of it begins, unless one is in progress already: then the answer is false.
pub fn enter(
    base: &Content,
    overlay: &mut Overlay,
    guard: &mut Guard,
    id: ObjectId,
) -> Result<bool, Memory>
    ensures entered { IfOk result (λ entered. (entered ≡ not (is_among id.0 guard.old.progress)) × (guard.new ≡ with_entry id.0 guard.old)) }
    ensures unread { OnOk result (KeepsUnread no_object overlay.old overlay.new) }
    ensures world { OnOk result ((g : Guarded) (u : Metered) → SameWorld (read_object (world_with g u base.now.objects overlay.old) id.0) (world_with g u base.now.objects overlay.new)) }
{
    note(base, overlay, id)?;
    guard.enter(id)
}

/// What a call of a transaction of a contract or interface runs on the object of a number.
pub fn answer(
    code: &Image,
    base: &Content,
    overlay: &Overlay,
    contract: ContractId,
    tx: TxId,
    id: ObjectId,
) -> Result<(ContractId, TxId), Off>
    ensures { Gives result (called_on code.now contract tx (object_at (objects_over base.now.objects overlay.now) id.0)) (λ id. id) }
{
    callee(code, contract, tx, find(base, overlay, id)?)
}
