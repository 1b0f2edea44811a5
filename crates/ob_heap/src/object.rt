//! Objects, and holds on them (Coblenz et al., TOPLAS 42(3), 2020, "Contracts"; handles are this project's own).
use crate::fields::Fields;
use ob_base::{ContractId, Duplicate, Memory, Mode, ObjectId, StateId};
use std::alloc::Global;

/// An object.
#[derive(Drop)]
pub struct Object {
    /// Its contract.
    pub contract: ContractId,
    /// Its state, if it is in one.
    pub state: Option<StateId>,
    /// The values of its fields.
    pub fields: Fields,
    /// Whether it is marked as shared.
    pub shared: bool,
    /// Whether it is marked as disowned.
    pub disowned: bool,
}

impl Duplicate for Object {
    fn copy(&self, alloc: Global) -> Result<Object, Memory> {
        Ok(Object {
            contract: self.contract,
            state: self.state,
            fields: self.fields.copy(alloc)?,
            shared: self.shared,
            disowned: self.disowned,
        })
    }
}

/// A client's hold on an object.
#[derive(Clone, Copy)]
pub struct Handle {
    /// The object.
    pub object: ObjectId,
    /// What the client holds of it.
    pub mode: Mode,
}
