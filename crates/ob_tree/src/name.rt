//! Names, permissions and types as they are written (the Obsidian language documentation; Coblenz et al., TOPLAS 42(3),
//! 2020):
//!
//! ```text
//! named = NAME ["[" ref "]"]
//! ref   = named "@" perm
//! perm  = mode | NAME {"|" NAME}
//! type  = "int" | "bool" | "string" | ref
//! ```
ghost use Rattle.std.specs.Prelude.{◌≡◌, IfOk};

use ob_base::{Boxed, Duplicate, Items, Memory, Mode, Span, Text, both, copy_items};
use std::alloc::Global;

/// A name, and where it stands.
#[derive(Debug, Drop)]
pub struct NamePart {
    /// The name as it is spelled.
    pub name: Text,
    /// The place of the name alone.
    pub span: Span,
}

impl Duplicate for NamePart {
    fn copy(&self, alloc: Global) -> Result<NamePart, Memory> {
        Ok(NamePart {
            name: self.name.copy(alloc)?,
            span: self.span,
        })
    }
}

/// What is spoken of: `this`, or a name.
#[derive(Debug, Drop)]
pub enum Subject {
    /// `this`, and the place of the word.
    This(Span),
    /// A name, as that of a field, a parameter or a local variable.
    Name(NamePart),
}

impl Duplicate for Subject {
    fn copy(&self, alloc: Global) -> Result<Subject, Memory> {
        match self {
            Subject::This(span) => Ok(Subject::This(*span)),
            Subject::Name(name) => Ok(Subject::Name(name.copy(alloc)?)),
        }
    }
}

/// A permission.
#[derive(Debug, Drop)]
pub enum PermNode {
    /// `Owned`, `Shared` or `Unowned`, and the place of the word.
    Mode(Mode, Span),
    /// One of these states, of which there is at least one.
    States(Items<NamePart>),
}

impl Duplicate for PermNode {
    fn copy(&self, alloc: Global) -> Result<PermNode, Memory> {
        match self {
            PermNode::Mode(mode, span) => Ok(PermNode::Mode(*mode, *span)),
            PermNode::States(states) => Ok(PermNode::States(copy_items(alloc, states)?)),
        }
    }
}

/// The name of a contract, an interface or a type parameter, and the argument in brackets after it.
#[derive(Debug, Drop)]
#[cycle(named)]
pub struct NamedNode {
    /// The name before the brackets.
    pub name: Text,
    /// The argument, if there is one.
    pub argument: Option<Boxed<RefNode>>,
    /// From its first token to its last.
    pub span: Span,
}

/// The type of a reference: a name and the permission that comes with it.
#[derive(Debug, Drop)]
#[cycle(named)]
pub struct RefNode {
    /// What stands before `@`.
    pub of: NamedNode,
    /// The permission after `@`.
    pub perm: PermNode,
}

impl Duplicate for NamedNode {
    #[cycle(copy_named)]
    fn copy(&self, alloc: Global) -> Result<NamedNode, Memory> {
        let argument = match &self.argument {
            None => None,
            Some(argument) => Some(Boxed::new(alloc, argument.get().copy(alloc)?)?),
        };
        Ok(NamedNode {
            name: self.name.copy(alloc)?,
            argument,
            span: self.span,
        })
    }
}

impl Duplicate for RefNode {
    #[cycle(copy_named)]
    fn copy(&self, alloc: Global) -> Result<RefNode, Memory> {
        let (of, perm) = both(self.of.copy(alloc), self.perm.copy(alloc))?;
        Ok(RefNode { of, perm })
    }
}

/// A type as it is written.
#[derive(Debug, Drop)]
pub enum TypeNode {
    /// `int`, and the place of the word.
    Int(Span),
    /// `bool`, and the place of the word.
    Bool(Span),
    /// `string`, and the place of the word.
    Text(Span),
    /// The type of a reference: a name, `@`, and a permission.
    Reference(RefNode),
}

impl Duplicate for TypeNode {
    fn copy(&self, alloc: Global) -> Result<TypeNode, Memory> {
        match self {
            TypeNode::Int(span) => Ok(TypeNode::Int(*span)),
            TypeNode::Bool(span) => Ok(TypeNode::Bool(*span)),
            TypeNode::Text(span) => Ok(TypeNode::Text(*span)),
            TypeNode::Reference(of) => Ok(TypeNode::Reference(of.copy(alloc)?)),
        }
    }
}
