//! Contracts, interfaces and whole programs as they are written (the Obsidian language documentation; Coblenz et al.,
//! TOPLAS 42(3), 2020):
//!
//! ```text
//! contract  = ["main"] ["asset"] "contract" NAME [generic] ["implements" named] "{" {member} "}"
//! interface = ["asset"] "interface" NAME [generic] "{" { "state" NAME ";" | head ";" } "}"
//! generic   = "[" ["asset"] NAME "@" NAME ["where" NAME "is" mode] "]"
//! ```
//!
//! A head is a transaction up to its block.
ghost use Rattle.std.specs.Prelude.{◌≡◌, IfOk};
ghost use Rattle.ob_tree.specs.MembersView.{tree_of};
ghost use Rattle.ob_tree.specs.declared.contract.Tree.{Tree};

use crate::member::Member;
use crate::name::{NamePart, NamedNode};
use ob_base::{Duplicate, Items, Memory, Mode, Span, Text, both, copy_items, copy_option};
use std::alloc::Global;

/// The type parameter of a contract, in brackets after its name.
#[derive(Debug, Drop)]
pub struct ParamNode {
    /// Whether `asset` stands before its name.
    pub asset: bool,
    /// The name before `@`.
    pub name: NamePart,
    /// The name after `@`.
    pub perm: NamePart,
    /// The name after `where`, and the mode after `is`.
    pub bound: Option<(NamePart, Mode)>,
    /// From the opening bracket to the closing one.
    pub span: Span,
}

fn copy_bound(
    alloc: Global,
    bound: &Option<(NamePart, Mode)>,
) -> Result<Option<(NamePart, Mode)>, Memory>
    ensures { IfOk result (λ copy. copy ≡ bound.now) }
{
    match bound {
        None => Ok(None),
        Some((name, mode)) => Ok(Some((name.copy(alloc)?, *mode))),
    }
}

impl Duplicate for ParamNode {
    fn copy(&self, alloc: Global) -> Result<ParamNode, Memory> {
        let ((name, perm), bound) = both(
            both(self.name.copy(alloc), self.perm.copy(alloc)),
            copy_bound(alloc, &self.bound),
        )?;
        Ok(ParamNode {
            asset: self.asset,
            name,
            perm,
            bound,
            span: self.span,
        })
    }
}

/// A contract, or an interface.
#[derive(Debug, Drop)]
pub struct ContractNode {
    /// Whether `main` stands before it.
    pub main: bool,
    /// Whether `asset` stands before it.
    pub asset: bool,
    /// Whether it is an `interface` in place of a `contract`.
    pub interface: bool,
    /// The name of the contract or interface.
    pub name: Text,
    /// The type parameter in brackets, if there is one.
    pub param: Option<ParamNode>,
    /// The interface after `implements`.
    pub implements: Option<NamedNode>,
    /// What its braces enclose, in the order of the text.
    pub members: Items<Member>,
    /// The place of the name alone.
    pub span: Span,
    /// The place of the closing brace.
    pub end: Span,
}

impl Duplicate for ContractNode {
    fn copy(&self, alloc: Global) -> Result<ContractNode, Memory> {
        let ((name, param), (implements, members)) = both(
            both(self.name.copy(alloc), copy_option(alloc, &self.param)),
            both(
                copy_option(alloc, &self.implements),
                copy_items(alloc, &self.members),
            ),
        )?;
        Ok(ContractNode {
            main: self.main,
            asset: self.asset,
            interface: self.interface,
            name,
            param,
            implements,
            members,
            span: self.span,
            end: self.end,
        })
    }
}

/// A program: its contracts and interfaces, in their order.
#[derive(Debug, Drop)]
pub struct Tree {
    /// The contracts and interfaces, in the order of the text.
    pub contracts: Items<ContractNode>,
}

impl Duplicate for Tree {
    fn copy(&self, alloc: Global) -> Result<Tree, Memory> {
        Ok(Tree {
            contracts: copy_items(alloc, &self.contracts)?,
        })
    }
}

/// Two programs whose plain data are the same are the same: no part and no place is lost on the way.
pub fn view_loses_nothing()
    ensures { (a b : Tree) → tree_of a ≡ tree_of b → a ≡ b }
{}
