//! What is known where a body begins.
ghost use Rattle.std.specs.Prelude.{◌≡◌, ◌++◌, map, Some, option_map, IfOk, OnOk};
ghost use Rattle.ob_silica_places.specs.Places.{slot};
ghost use Rattle.ob_flow_spec.specs.Contexts.{known_as, this_known, field_known, beginning};
ghost use Rattle.ob_flow_context.specs.View.{known_of, all_known, known_at, context_of};

use crate::context::{Context, Known};
use crate::frame::{BodyFrame, is_stateless};
use crate::kinds::{kind_of, known_as};
use ob_base::{FieldId, Items, Memory};
use ob_perm::{all_states, owned};
use ob_table::{Kind, Param};
use std::alloc::Global;

// What is known of `this`: in a constructor it is an owner's, in no state.
#[tactic(auto, using(crate::proofs::FrameLemmas::frames))]
fn this_known(frame: &BodyFrame<'_>) -> Known
    ensures { known_of result ≡ this_known frame.now }
{
    let permission = if frame.constructs() {
        owned(all_states(0))
    } else {
        frame.signature().entry
    };
    Known {
        kind: Kind::Reference(frame.here()),
        permission,
    }
}

// What is known of a field: a constructor has the fields at the top of its contract still to set.
#[tactic(auto, using(crate::proofs::FrameLemmas::frames))]
fn field_known(frame: &BodyFrame<'_>, field: FieldId) -> Option<Known>
    ensures { option_map known_of result ≡ field_known frame.now field.0 }
{
    if frame.constructs() && is_stateless(frame.available(field)) {
        return None;
    }
    match frame.own().field(field) {
        Some(found) => Some(Known {
            kind: kind_of(found.of),
            permission: frame.entry_of_field(frame.signature(), field),
        }),
        None => None,
    }
}

// What is known of parameters.

#[tactic(auto, using(crate::proofs::BeginningLemmas::beginnings))]
fn add_params(known: &mut Items<Option<Known>>, params: &[Param]) -> Result<(), Memory>
    ensures { OnOk result (all_known known.new ≡ all_known known.old ++ map (λ p. Some (known_as p.of)) params.now) }
{
    for param in params {
        known.push(Some(known_as(param.of)))?;
    }
    Ok(())
}

// What is known of slots.

#[tactic(auto, using(crate::proofs::BeginningLemmas::beginnings))]
fn slots_known(alloc: Global, frame: &BodyFrame<'_>) -> Result<Items<Option<Known>>, Memory>
    ensures { IfOk result (λ slots. known_at slots ≡ (λ k. beginning frame.now (slot k))) }
{
    let mut slots = Items::new(alloc);
    slots.push(Some(this_known(frame)))?;
    add_params(&mut slots, frame.signature().params.as_slice())?;
    Ok(slots)
}

// What is known of fields.

#[tactic(auto, using(crate::proofs::BeginningLemmas::beginnings))]
fn fields_known(alloc: Global, frame: &BodyFrame<'_>) -> Result<Items<Option<Known>>, Memory>
    ensures { IfOk result (λ fields. known_at fields ≡ field_known frame.now) }
{
    let mut fields = Items::new(alloc);
    for number in 0..frame.field_count() {
        fields.push(field_known(frame, FieldId(number)))?;
    }
    Ok(fields)
}

/// What is known where a body begins.
#[tactic(auto, using(crate::proofs::BeginningLemmas::beginnings))]
pub fn beginning(alloc: Global, frame: &BodyFrame<'_>) -> Result<Context, Memory>
    ensures { IfOk result (λ context. context_of context ≡ beginning frame.now) }
{
    let slots = slots_known(alloc, frame)?;
    let fields = fields_known(alloc, frame)?;
    Ok(Context::of(slots, fields))
}
