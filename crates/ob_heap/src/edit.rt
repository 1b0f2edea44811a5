//! What a run does to an object.
ghost use Rattle.std.specs.Prelude.{◌≡◌, OnOk};
ghost use Rattle.ob_heap.specs.Edits.{with_edit};

use crate::fields::Fields;
use crate::object::Object;
use crate::value::Value;
use ob_base::{FieldId, Memory, StateId};

/// What is done to an object that is there.
#[derive(Drop)]
pub enum Edit {
    /// A field gets a value.
    Field(FieldId, Value),
    /// It gets a state, and these fields in place of its own.
    State(StateId, Fields),
    /// It is marked as shared.
    Shared,
    /// It is marked as disowned.
    Disowned,
}

/// Does this to an object, where it lies.
#[inline(always)]
pub fn change(object: &mut Object, edit: Edit) -> Result<(), Memory>
    ensures { OnOk result (object.new ≡ with_edit edit object.old) }
{
    match edit {
        Edit::Field(field, value) => return object.fields.put(field, value),
        Edit::State(state, fields) => {
            object.state = Some(state);
            object.fields = fields;
        }
        Edit::Shared => object.shared = true,
        Edit::Disowned => object.disowned = true,
    }
    Ok(())
}
