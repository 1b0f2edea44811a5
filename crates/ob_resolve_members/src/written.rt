//! Types and permissions as they are written.
ghost use Rattle.std.specs.Prelude.{◌≡◌, ◌&&◌, not, false, [], ◌∷◌, ◌++◌, None, option_map};
ghost use Rattle.std.specs.Option.{option_map_or};
ghost use Rattle.ob_tree.specs.NamesView.{named_of, ref_of, type_of};
ghost use Rattle.ob_resolve_spec.specs.Declarations.{part_of_named, declared_contract};
ghost use Rattle.ob_resolve_spec.specs.Permissions.{as_shared, as_unowned, written_permission, is_of, known_permission, same_mode, is_owning, may_leave};
ghost use Rattle.ob_resolve_spec.specs.Visible.{a_contract};
ghost use Rattle.ob_resolve_spec.specs.Sites.{names_thing, leaves_permission};
ghost use Rattle.ob_resolve_spec.specs.TypeSites.{perm_sites, span_of_perm, exit_sites, ref_sites, type_sites, result_sites};
ghost use Rattle.ob_resolve_scope.specs.Types.{program_of};
ghost use Rattle.ob_resolve_members.specs.Parts.{visible_around};
ghost use Rattle.ob_resolve_sites.specs.Noted.{noted_at, noted};

use ob_base::{BAD_EXIT, Mode, Span};
use ob_resolve_scope::{AroundBody, Scope, Types};
use ob_resolve_sites::{Least, note_contract, note_if, note_perm};
use ob_tree::{NamedNode, PermNode, RefNode, TypeNode};
use std::alloc::Global;

fn is_shared(perm: &PermNode) -> bool
    ensures { result ≡ same_mode as_shared (written_permission perm.now) }
{
    match perm {
        PermNode::Mode(mode, _) => *mode == Mode::Shared,
        PermNode::States(_) => false,
    }
}

/// Whether a permission is `Unowned`.
pub fn is_unowned(perm: &PermNode) -> bool
    ensures { result ≡ same_mode as_unowned (written_permission perm.now) }
{
    match perm {
        PermNode::Mode(mode, _) => *mode == Mode::Unowned,
        PermNode::States(_) => false,
    }
}

/// Whether the holder owns the object.
pub fn is_owning(perm: &PermNode) -> bool
    ensures { result ≡ is_owning (written_permission perm.now) }
{
    match perm {
        PermNode::Mode(mode, _) => *mode == Mode::Owned,
        PermNode::States(_) => true,
    }
}

fn may_leave(entry: &PermNode, exit: &PermNode) -> bool
    ensures { result ≡ may_leave (written_permission entry.now) (written_permission exit.now) }
{
    match entry {
        PermNode::Mode(Mode::Owned, _) => true,
        PermNode::Mode(Mode::Shared, _) => is_shared(exit),
        PermNode::Mode(Mode::Unowned, _) => is_unowned(exit),
        PermNode::States(_) => true,
    }
}

/// The place of a permission: its first word.
pub fn span_of_perm(otherwise: Span, perm: &PermNode) -> Span
    ensures { result ≡ span_of_perm otherwise perm.now }
{
    match perm {
        PermNode::Mode(_, span) => *span,
        PermNode::States(states) => match states.get(0) {
            None => otherwise,
            Some(state) => state.span,
        },
    }
}

fn leaves_badly(types: &Types<'_>, contract: usize, entry: &PermNode, exit: &PermNode) -> bool
    ensures { result ≡ option_map_or (λ c. is_of c entry.now && is_of c exit.now && not (may_leave (written_permission entry.now) (written_permission exit.now))) (declared_contract (program_of types.now) contract) false }
{
    types.is_of(contract, entry) && types.is_of(contract, exit) && !may_leave(entry, exit)
}

/// What is held so at the start is held so at the end, on the contract of this number.
#[tactic(auto, using(crate::proofs::WrittenLemmas::written))]
fn note_exit(
    least: &mut Least,
    types: &Types<'_>,
    contract: usize,
    entry: &PermNode,
    exit: &PermNode,
    span: Span,
)
    ensures { least.new ≡ noted least.old (option_map_or (λ c. leaves_permission (known_permission c entry.now) (known_permission c exit.now) span ∷ []) (declared_contract (program_of types.now) contract) []) }
{
    note_if(
        least,
        leaves_badly(types, contract, entry, exit),
        BAD_EXIT,
        span,
    );
}

/// The permission at the end, on the contract of this number.
#[tactic(auto, using(crate::proofs::WrittenLemmas::written))]
fn walk_exit(
    types: &Types<'_>,
    contract: usize,
    entry: &PermNode,
    exit: &Option<PermNode>,
    span: Span,
    least: &mut Least,
)
    ensures { least.new ≡ noted least.old (option_map_or (λ c. exit_sites c entry.now exit.now span) (declared_contract (program_of types.now) contract) []) }
{
    match exit {
        None => {}
        Some(exit) => {
            note_perm(least, types, contract, exit);
            note_exit(
                least,
                types,
                contract,
                entry,
                exit,
                span_of_perm(span, exit),
            );
        }
    }
}

/// The permissions at the start and at the end, on the contract of this number.
#[tactic(auto, using(crate::proofs::WrittenLemmas::written))]
fn walk_perms(
    types: &Types<'_>,
    contract: usize,
    perm: &PermNode,
    exit: &Option<PermNode>,
    span: Span,
    least: &mut Least,
)
    ensures { least.new ≡ noted least.old (option_map_or (λ c. perm_sites c perm.now ++ exit_sites c perm.now exit.now span) (declared_contract (program_of types.now) contract) []) }
{
    note_perm(least, types, contract, perm);
    walk_exit(types, contract, perm, exit, span, least);
}

/// The name in a type.
fn note_type_name(alloc: Global, around: &AroundBody<'_>, of: &NamedNode, least: &mut Least)
    ensures { least.new ≡ noted_at least.old (names_thing a_contract (visible_around around.now) (part_of_named (named_of of.now))) }
{
    note_contract(least, around, &Scope::new(alloc), of);
}

/// A reference's type, and what may stand after `>>`.
#[tactic(auto, using(crate::proofs::WrittenLemmas::written))]
pub fn walk_ref(
    alloc: Global,
    around: &AroundBody<'_>,
    of: &RefNode,
    exit: &Option<PermNode>,
    least: &mut Least,
)
    ensures { least.new ≡ noted least.old (ref_sites (visible_around around.now) (ref_of of.now) exit.now) }
{
    note_type_name(alloc, around, &of.of, least);
    let types = around.declared().types();
    match types.find(of.of.name.as_bytes()) {
        None => {}
        Some(contract) => walk_perms(types, contract, &of.perm, exit, of.of.span, least),
    }
}

/// A type.
#[tactic(auto, using(crate::proofs::WrittenLemmas::written))]
pub fn walk_type(alloc: Global, around: &AroundBody<'_>, of: &TypeNode, least: &mut Least)
    ensures { least.new ≡ noted least.old (type_sites (visible_around around.now) (type_of of.now)) }
{
    match of {
        TypeNode::Int(_) => {}
        TypeNode::Bool(_) => {}
        TypeNode::Text(_) => {}
        TypeNode::Reference(of) => walk_ref(alloc, around, of, &None, least),
    }
}

/// The type of a result, if there is one.
pub fn walk_result(alloc: Global, around: &AroundBody<'_>, of: &Option<TypeNode>, least: &mut Least)
    ensures { least.new ≡ noted least.old (result_sites (visible_around around.now) (option_map type_of of.now)) }
{
    match of {
        None => {}
        Some(of) => walk_type(alloc, around, of, least),
    }
}
