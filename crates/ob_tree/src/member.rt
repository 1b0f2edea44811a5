//! The members of contracts as they are written (the Obsidian language documentation; Coblenz et al., TOPLAS 42(3),
//! 2020):
//!
//! ```text
//! member      = "state" NAME (";" | "{" {field} "}") | field | constructor | transaction
//! field       = type NAME ["available" "in" NAME {"," NAME}] ";"
//! constructor = named "@" perm "(" [params] ")" block
//! transaction = ["private" ["(" listed {"," listed} ")"]] "transaction" NAME "(" [params] ")" ["returns" type] block
//! listed      = ref [">>" perm] NAME
//! param       = type [">>" perm] (NAME | "this")
//! ```
//!
//! A transaction of an interface ends with `;` in place of its block.
ghost use Rattle.std.specs.Prelude.{◌≡◌, IfOk};

use crate::name::{NamePart, NamedNode, PermNode, RefNode, Subject, TypeNode};
use crate::stmt::Block;
use ob_base::{Duplicate, Items, Memory, Span, both, copy_items, copy_option};
use std::alloc::Global;

/// A field.
#[derive(Debug, Drop)]
pub struct FieldNode {
    /// The type before the name.
    pub of: TypeNode,
    /// The name of the field.
    pub name: NamePart,
    /// The states after `available in`; empty where that isn't written.
    pub available: Items<NamePart>,
}

impl Duplicate for FieldNode {
    fn copy(&self, alloc: Global) -> Result<FieldNode, Memory> {
        let ((of, name), available) = both(
            both(self.of.copy(alloc), self.name.copy(alloc)),
            copy_items(alloc, &self.available),
        )?;
        Ok(FieldNode {
            of,
            name,
            available,
        })
    }
}

/// A parameter of a transaction or a constructor.
#[derive(Debug, Drop)]
pub struct FormalNode {
    /// The type before the name, with the permission at the entry.
    pub of: TypeNode,
    /// The permission after `>>`.
    pub exit: Option<PermNode>,
    /// The name of the parameter, or `this` for the contract's own object.
    pub name: Subject,
}

impl Duplicate for FormalNode {
    fn copy(&self, alloc: Global) -> Result<FormalNode, Memory> {
        let ((of, exit), name) = both(
            both(self.of.copy(alloc), copy_option(alloc, &self.exit)),
            self.name.copy(alloc),
        )?;
        Ok(FormalNode { of, exit, name })
    }
}

/// A field in the list of a private transaction.
#[derive(Debug, Drop)]
pub struct ListedNode {
    /// The type before the name, with the permission at the entry.
    pub of: RefNode,
    /// The permission after `>>`.
    pub exit: Option<PermNode>,
    /// The name of the field.
    pub name: NamePart,
}

impl Duplicate for ListedNode {
    fn copy(&self, alloc: Global) -> Result<ListedNode, Memory> {
        let ((of, exit), name) = both(
            both(self.of.copy(alloc), copy_option(alloc, &self.exit)),
            self.name.copy(alloc),
        )?;
        Ok(ListedNode { of, exit, name })
    }
}

/// A member of a contract or an interface. Its `span` runs from its first token to its last.
#[derive(Debug, Drop)]
pub enum Member {
    /// `state S;` or `state S { fields }`
    State {
        name: NamePart,
        fields: Items<FieldNode>,
        span: Span,
    },
    /// A field outside of states.
    Field(FieldNode),
    /// `C@perm(params) { .. }`
    Constructor {
        of: NamedNode,
        perm: PermNode,
        params: Items<FormalNode>,
        body: Block,
        span: Span,
    },
    /// `transaction t(params) returns T { .. }`, which may be private and list fields.
    Transaction {
        private: bool,
        listed: Items<ListedNode>,
        name: NamePart,
        params: Items<FormalNode>,
        /// The type after `returns`.
        result: Option<TypeNode>,
        /// Missing in an interface.
        body: Option<Block>,
        span: Span,
    },
}

impl Duplicate for Member {
    fn copy(&self, alloc: Global) -> Result<Member, Memory> {
        match self {
            Member::State { name, fields, span } => {
                let (name, fields) = both(name.copy(alloc), copy_items(alloc, fields))?;
                Ok(Member::State {
                    name,
                    fields,
                    span: *span,
                })
            }
            Member::Field(field) => Ok(Member::Field(field.copy(alloc)?)),
            Member::Constructor {
                of,
                perm,
                params,
                body,
                span,
            } => {
                let ((of, perm), (params, body)) = both(
                    both(of.copy(alloc), perm.copy(alloc)),
                    both(copy_items(alloc, params), body.copy(alloc)),
                )?;
                Ok(Member::Constructor {
                    of,
                    perm,
                    params,
                    body,
                    span: *span,
                })
            }
            Member::Transaction {
                private,
                listed,
                name,
                params,
                result,
                body,
                span,
            } => {
                let ((listed, (name, params)), (result, body)) = both(
                    both(
                        copy_items(alloc, listed),
                        both(name.copy(alloc), copy_items(alloc, params)),
                    ),
                    both(copy_option(alloc, result), copy_option(alloc, body)),
                )?;
                Ok(Member::Transaction {
                    private: *private,
                    listed,
                    name,
                    params,
                    result,
                    body,
                    span: *span,
                })
            }
        }
    }
}
