//! What the names of a body denote.
use ob_base::{ContractId, FieldId, Span};

/// What a name in a body denotes (the Obsidian language documentation, "Expressions").
#[derive(Clone, Copy)]
pub enum Seen {
    /// `this`
    This,
    /// A parameter or a local variable, by its number, from 1: first the parameters beside `this` in their order, then
    /// the local variables in the order in which the text declares them.
    Local(u32),
    /// A field of `this`.
    Field(FieldId),
}

/// What a name denotes, and where the name is.
#[derive(Clone, Copy)]
pub struct SeenAt {
    /// What it denotes.
    pub of: Seen,
    /// The place of the name, or of the word `this`.
    pub span: Span,
}

/// A type without its permission. A local variable has no more: its permission follows from its use (Coblenz et al.,
/// TOPLAS 42(3), 2020).
#[derive(Clone, Copy)]
pub enum Kind {
    /// `int`: a whole number from -2^63 to 2^63 - 1.
    Int,
    /// `bool`
    Bool,
    /// `string`
    Text,
    /// A reference to an object of this contract, or of one that implements this interface.
    Reference(ContractId),
}
