//! Places, and the values that terms name.
use ob_base::{Duplicate, FieldId, Memory, Span, Text};
use std::alloc::Global;

/// Where a term finds or leaves a value (Coblenz et al., TOPLAS 42(3), 2020, "Silica"; that temporaries have numbers is
/// this project's own).
#[derive(Clone, Copy, PartialEq, Eq)]
pub enum Place {
    /// `this`, which is also slot 0.
    This,
    /// A parameter, a local variable or a temporary, by its number, from 1: first the parameters beside `this` in their
    /// order.
    Slot(u8),
    /// A field of `this`.
    Field(FieldId),
}

/// A place that a term reads.
#[derive(Clone, Copy)]
pub struct Operand {
    /// Where the value is found.
    pub place: Place,
    /// The span of the name, `this` or other expression that it represents.
    pub span: Span,
}

/// A field, and the place whose value a change of state gives it.
#[derive(Clone, Copy)]
pub struct Given {
    /// The field that gets the value.
    pub field: FieldId,
    /// The span of the field's name.
    pub span: Span,
    /// The place that has the value.
    pub from: Operand,
}

/// A value that is written in the text.
#[derive(Drop)]
pub enum Constant {
    /// An `int`, from 0 to 2^63 - 1: a sign before it is an operator.
    Int(i64),
    /// A `bool`.
    Bool(bool),
    /// A `string`.
    Text(Text),
}

impl Duplicate for Constant {
    fn copy(&self, alloc: Global) -> Result<Constant, Memory> {
        match self {
            Constant::Int(value) => Ok(Constant::Int(*value)),
            Constant::Bool(value) => Ok(Constant::Bool(*value)),
            Constant::Text(value) => Ok(Constant::Text(value.copy(alloc)?)),
        }
    }
}
