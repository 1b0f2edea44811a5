//! The variables of a body.
use crate::kind::InferredKind;
use ob_base::Text;

/// A local or a parameter (the Obsidian language documentation, "Statements"; its number is this project's own).
#[derive(Drop)]
pub struct ScopeVariable {
    /// The name that denotes it in the body.
    pub name: Text,
    /// The kind of its value.
    pub of: InferredKind,
    /// From 1: first the parameters beside `this`, then the locals in the order in which the text declares them.
    pub number: usize,
    /// Whether it is a parameter, which isn't assigned.
    pub is_param: bool,
}
