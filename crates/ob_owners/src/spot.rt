//! Places of a store.
use ob_base::{FieldId, Label, ObjectId};

/// A place of a store that refers to an object (this project's own).
#[derive(Drop)]
pub enum Spot {
    /// A field of an object.
    Field(ObjectId, FieldId),
    /// A handle: its client, and the client's name for it.
    Handle(Label, Label),
}
