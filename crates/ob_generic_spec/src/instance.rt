//! Instances of generic contracts.
use ob_base::{Items, Text};
use ob_tree::PermNode;

/// The name of a type in which arguments take the place of parameters (Coblenz et al., TOPLAS 42(3), 2020, on generics; how it is
/// printed is this project's own).
#[derive(Drop)]
pub struct Written {
    /// The name of the contract or interface, without the brackets after it.
    pub base: Text,
    /// The bytes of the whole name as it is printed. There may be too many of them for a name in a tree.
    pub name: Items<u8>,
}

/// A type argument in which arguments take the place of parameters.
#[derive(Drop)]
pub struct Argument {
    /// What stands before `@`.
    pub of: Written,
    /// The permission after `@`.
    pub perm: PermNode,
}

/// A generic contract or interface with an argument.
#[derive(Drop)]
pub struct Instance {
    /// The bytes of its printed name.
    pub name: Items<u8>,
    /// The number of the generic contract or interface: how many stand before it in the text.
    pub contract: usize,
    /// What its parameter denotes.
    pub argument: Argument,
}
