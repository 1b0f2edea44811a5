//! The owner of an object is shown.
ghost use Rattle.std.specs.Prelude.{◌≡◌, ℕ, map, option_map, IfOk};
ghost use Rattle.ob_heap.specs.Contents.{content_of};
ghost use Rattle.ob_heap.specs.Plain.{object_of};
ghost use Rattle.ob_invocation_spec.specs.Handles.{handle_name};
ghost use Rattle.ob_invocation_spec.specs.Invocation.{invoke_owner};
ghost use Rattle.ob_invocation_spec.specs.Showing.{shown_place};
ghost use Rattle.ob_code_table.specs.ImageTables.{table_of_image};
ghost use Rattle.ob_owners.specs.Spots.{place_of, owner_place};
ghost use Rattle.ob_rest_spec.specs.Incoming.{stored_field};
ghost use Rattle.ob_wire.specs.Meanings.{place_told};
ghost use Rattle.ob_exec_handles.specs.Coming.{ComesTo, IsInLimits};

use crate::answered::{Answered, refused, unchanged};
use crate::states::{contract_of, text_of};
use ob_base::{FieldId, Label, Memory, ObjectId};
use ob_code::Image;
use ob_heap::Content;
use ob_owners::{Index, Spot};
use ob_wire::{Answer, Outcome, Refusal};
use std::alloc::Global;

// A field of the object of a number, as it is shown.
fn field_shown(
    alloc: Global,
    code: &Image,
    base: &Content,
    id: ObjectId,
    field: FieldId,
) -> Result<Option<Outcome>, Memory>
    ensures { IfOk result (λ shown. shown ≡ option_map place_told (shown_place (table_of_image code.now) (map object_of base.now.objects) (stored_field id.0 field.0))) }
{
    let Some(contract) = contract_of(code, base, id) else {
        return Ok(None);
    };
    match contract.fields.get(field.0 as usize) {
        Some(field) => Ok(Some(Outcome::Field(id, text_of(alloc, &field.name)?))),
        None => Ok(None),
    }
}

// A place, as it is shown.
fn spot_shown(
    alloc: Global,
    code: &Image,
    base: &Content,
    spot: Spot,
) -> Result<Option<Outcome>, Memory>
    ensures { IfOk result (λ shown. shown ≡ option_map place_told (shown_place (table_of_image code.now) (map object_of base.now.objects) (place_of spot))) }
{
    match spot {
        Spot::Field(id, field) => field_shown(alloc, code, base, id, field),
        Spot::Handle(who, name) => Ok(Some(Outcome::Handle(who, name))),
    }
}

/// The owner of the object of the client's handle of this name is shown, as an index tells it.
pub fn owner<I: Index>(
    alloc: Global,
    code: &Image,
    base: &Content,
    index: &I,
    who: &Label,
    on: &Label,
) -> Result<Answered, Memory>
    requires limits { IsInLimits (invoke_owner (table_of_image code.now) (content_of base.now) (handle_name who.now on.now)) }
    requires index { (n : ℕ) → I.owner index.now n ≡ owner_place (table_of_image code.now) (content_of base.now) n }
    ensures { IfOk result (λ a. ComesTo (invoke_owner (table_of_image code.now) (content_of base.now) (handle_name who.now on.now)) base.now a.answer a.delta) }
{
    let Some(handle) = base.handle(who, on) else {
        return Ok(refused(alloc, Refusal::NoHandle));
    };
    let Some(spot) = index.find(alloc, handle.object)? else {
        return Ok(unchanged(alloc, Answer::Ok(Outcome::Nothing)));
    };
    match spot_shown(alloc, code, base, spot)? {
        Some(outcome) => Ok(unchanged(alloc, Answer::Ok(outcome))),
        None => unreachable!(),
    }
}
