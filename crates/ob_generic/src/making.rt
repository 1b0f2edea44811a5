//! The tree of the instances of a program, or its first fault and where it is met.
ghost use Rattle.std.specs.Prelude.{◌≡◌, ◌⊎◌, true, map, IfOk, IfErr, IsErrOf};
ghost use Rattle.ob_base.specs.declared.fault.ProgramFault.{ProgramFault};
ghost use Rattle.ob_base.specs.TextErrors.{OnFault};
ghost use Rattle.ob_tree.specs.MembersView.{contract_of, tree_of};
ghost use Rattle.ob_resolve_spec.specs.Declarations.{Program};
ghost use Rattle.ob_generic_spec.specs.TypeFaults.{HasNoTypeFault, IsFirstTypeFault};
ghost use Rattle.ob_generic_spec.specs.Copied.{is_too_much_text};
ghost use Rattle.ob_generic.specs.Instantiating.{HasInstanceTree};

use crate::contracts::make_tree;
use ob_base::{Memory, ProgramFault, TextError};
use ob_generic_walk::{InstanceOfFault, find};
use ob_tree::{ContractNode, Tree};
use std::alloc::Global;

/// Why a program has no tree of instances.
pub type GenericError = TextError;

// The tree of the instances of these contracts, or their first fault.
fn instances_in(nodes: &[ContractNode], alloc: Global) -> Result<Tree, GenericError>
    ensures tree { IfOk result (λ made. HasInstanceTree (map contract_of nodes.now) (tree_of made)) }
    ensures fault { IfErr result (λ e. OnFault e (IsFirstTypeFault (map contract_of nodes.now))) }
    ensures too_much { is_too_much_text (map contract_of nodes.now) ≡ true → IsErrOf result TextError.Memory }
{
    let found = find(nodes, alloc)?;
    match found.least {
        Some(fault) => Err(GenericError::Fault(fault)),
        None => Ok(make_tree(nodes, found.known.as_slice(), alloc)?),
    }
}

/// The tree of the instances of a program, in which no contract has a type parameter and no type an argument, or the first
/// fault of its type parameters and type arguments (Coblenz et al., TOPLAS 42(3), 2020, on generics). Where the instances are made of too
/// much text the answer is `Memory`.
pub fn instances(alloc: Global, tree: &Tree) -> Result<Tree, GenericError>
    ensures tree { IfOk result (λ made. HasInstanceTree (tree_of tree.now) (tree_of made)) }
    ensures fault { IfErr result (λ e. OnFault e (IsFirstTypeFault (tree_of tree.now))) }
    ensures too_much { is_too_much_text (tree_of tree.now) ≡ true → IsErrOf result TextError.Memory }
{
    instances_in(tree.contracts.as_slice(), alloc)
}

/// Where the first fault of a program's types is met, which is this one.
pub fn instance_of_fault(
    alloc: Global,
    tree: &Tree,
    fault: ProgramFault,
) -> Result<InstanceOfFault, Memory> {
    match ob_generic_walk::instance_of_fault(tree.contracts.as_slice(), alloc, fault) {
        Ok(found) => Ok(found),
        Err(_) => Err(Memory),
    }
}

/// A program has no fault of its type parameters and type arguments, or has a first one, and never both.
pub fn tree_or_fault()
    ensures either { (program : Program) → HasNoTypeFault program ⊎ ((fault : ProgramFault) × IsFirstTypeFault program fault) }
    ensures never_both { (program : Program) (fault : ProgramFault)
        → IsFirstTypeFault program fault → ¬ (HasNoTypeFault program) }
{}

/// A program has one such first fault at most.
pub fn one_first_type_fault()
    ensures { (program : Program) (a b : ProgramFault)
        → IsFirstTypeFault program a → IsFirstTypeFault program b → a ≡ b }
{}
