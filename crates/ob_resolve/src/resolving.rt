//! The class table of a program, or its first fault.
ghost use Rattle.std.specs.Prelude.{◌≡◌, ◌⊎◌, None, map, IfOk, IfErr};
ghost use Rattle.ob_base.specs.declared.fault.ProgramFault.{ProgramFault};
ghost use Rattle.ob_tree.specs.MembersView.{contract_of, tree_of};
ghost use Rattle.ob_resolve_spec.specs.Declarations.{Program};
ghost use Rattle.ob_resolve_spec.specs.Faults.{HasNoFault};
ghost use Rattle.ob_resolve_spec.specs.Generics.{HasNoGenerics};
ghost use Rattle.ob_resolve_spec.specs.Least.{IsLeastOrNone, least_fault};
ghost use Rattle.ob_resolve_spec.specs.TableOf.{table_of};
ghost use Rattle.ob_resolve.specs.Resolving.{IsFirstFault, HasClassTable};
ghost use Rattle.ob_base.specs.TextErrors.{OnFault};

use crate::program::find_least;
use ob_base::{Memory, ProgramFault, TextError};
use ob_resolve_scope::Declared;
use ob_resolve_table::make_table;
use ob_table::Table;
use ob_tree::{ContractNode, Tree};
use std::alloc::Global;

/// Why a program has no class table.
pub type ResolveError = TextError;

fn least_of(alloc: Global, declared: &Declared<'_>) -> Result<Option<ProgramFault>, Memory>
    ensures { IfOk result (λ least. least ≡ least_fault (map contract_of declared.now)) }
{
    find_least(alloc, declared)
}

// The class table of what is declared, or its first fault.
fn resolve_declared(alloc: Global, declared: &Declared<'_>) -> Result<Table, ResolveError>
    ensures table { IfOk result (λ table. HasClassTable (map contract_of declared.now) table) }
    ensures fault { IfErr result (λ e. OnFault e (IsFirstFault (map contract_of declared.now))) }
{
    match least_of(alloc, declared)? {
        Some(fault) => Err(ResolveError::Fault(fault)),
        None => Ok(make_table(alloc, declared)?),
    }
}

/// The class table of a program without type parameters and type arguments, or its first fault of names and types (the
/// Obsidian language documentation; Coblenz et al., TOPLAS 42(3), 2020).
pub fn resolve(alloc: Global, tree: &Tree) -> Result<Table, ResolveError>
    requires plain { HasNoGenerics (tree_of tree.now) }
    ensures table { IfOk result (λ table. HasClassTable (tree_of tree.now) table) }
    ensures fault { IfErr result (λ e. OnFault e (IsFirstFault (tree_of tree.now))) }
{
    let declared = Declared::new(alloc, tree.contracts.as_slice())?;
    resolve_declared(alloc, &declared)
}

/// A program has no fault or has a first one, and never both.
pub fn table_or_fault()
    ensures either { (program : Program) → HasNoFault program ⊎ ((fault : ProgramFault) × IsFirstFault program fault) }
    ensures never_both { (program : Program) (fault : ProgramFault) → IsFirstFault program fault → ¬ (HasNoFault program) }
{}

/// A program has one first fault at most.
pub fn one_first_fault()
    ensures { (program : Program) (a b : ProgramFault) → IsFirstFault program a → IsFirstFault program b → a ≡ b }
{}
