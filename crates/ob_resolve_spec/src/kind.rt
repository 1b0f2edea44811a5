//! The kinds of values.

/// What a written type denotes, without its permission (Coblenz et al., TOPLAS 42(3), 2020, "Types"; the Obsidian
/// language documentation, "Types").
#[derive(Clone, Copy, PartialEq, Eq)]
pub enum InferredKind {
    /// `int`: a whole number from -2^63 to 2^63 - 1.
    Int,
    /// `bool`
    Bool,
    /// `string`
    Text,
    /// A reference to an object of the contract or interface of this number.
    Reference(usize),
    /// No value: what a call of a transaction without a result gives.
    Nothing,
    /// Not known, since a name or a type has a fault of its own.
    Unknown,
}
