//! Types and permissions in the tree of the instances.
ghost use Rattle.std.specs.Prelude.{◌≡◌, [], option_map, IfOk};
ghost use Rattle.ob_tree.specs.Names.{bare_name};
ghost use Rattle.ob_tree.specs.NamesView.{named_of, ref_of, type_of};
ghost use Rattle.ob_tree.specs.StmtsView.{local_of};
ghost use Rattle.ob_generic_spec.specs.Substitution.{perm_in, printed_name, argument_in};
ghost use Rattle.ob_generic_spec.specs.InstanceTypes.{text_of, own_name, param_name, name_in, named_in, ref_in, type_in, local_in};
ghost use Rattle.ob_generic_spec.specs.declared.role.Role.TheVariants.{Anywhere};

use ob_base::{Duplicate, Memory, NameError, Span, Text, both};
use ob_generic_names::{OwnInstance, argument_in, is_own, is_same, perm_in, printed_name};
use ob_generic_spec::Role;
use ob_tree::{LocalType, NamedNode, PermNode, RefNode, TypeNode};
use std::alloc::Global;

fn empty_text(alloc: Global) -> Result<Text, Memory>
    ensures { IfOk result (λ t. t ≡ []) }
{
    match Text::of(alloc, b"") {
        Ok(text) => Ok(text),
        Err(_) => Err(Memory),
    }
}

// Bytes as a text. Those that are none become the empty text.
fn text_of(bytes: &[u8], alloc: Global) -> Result<Text, Memory>
    ensures { IfOk result (λ t. t ≡ text_of bytes.now) }
{
    match Text::of(alloc, bytes) {
        Ok(text) => Ok(text),
        Err(NameError::Bad) => empty_text(alloc),
        Err(NameError::Memory) => Err(Memory),
    }
}

/// The name of a contract: in an instance the instance's.
pub fn own_name(name: &Text, alloc: Global, own: &Option<OwnInstance<'_>>) -> Result<Text, Memory>
    ensures { IfOk result (λ t. t ≡ own_name own.now name.now) }
{
    match own {
        None => name.copy(alloc),
        Some(own) => text_of(own.instance().name.as_slice(), alloc),
    }
}

fn param_name(name: &Text, alloc: Global, own: &Option<OwnInstance<'_>>) -> Result<Text, Memory>
    ensures { IfOk result (λ t. t ≡ param_name own.now name.now) }
{
    match own {
        None => name.copy(alloc),
        Some(own) => {
            if is_same(own.param().name.name.as_bytes(), name.as_bytes()) {
                text_of(own.instance().argument.of.name.as_slice(), alloc)
            } else {
                name.copy(alloc)
            }
        }
    }
}

fn printed_in(
    name: &Text,
    argument: &RefNode,
    alloc: Global,
    own: &Option<OwnInstance<'_>>,
) -> Result<Text, Memory>
    ensures { IfOk result (λ t. t ≡ text_of (printed_name name.now (argument_in own.now (ref_of argument.now)))) }
{
    let argument = argument_in(argument, alloc, own)?;
    let bytes = printed_name(name.as_bytes(), alloc, &argument)?;
    text_of(bytes.as_slice(), alloc)
}

#[tactic(auto, using(crate::proofs::Turns::places))]
fn name_in(
    of: &NamedNode,
    role: Role,
    alloc: Global,
    own: &Option<OwnInstance<'_>>,
) -> Result<Text, Memory>
    ensures { IfOk result (λ t. t ≡ name_in own.now role (named_of of.now)) }
{
    match &of.argument {
        None => {
            if is_own(of.name.as_bytes(), own, role) {
                own_name(&of.name, alloc, own)
            } else {
                param_name(&of.name, alloc, own)
            }
        }
        Some(argument) => printed_in(&of.name, argument.get(), alloc, own),
    }
}

#[tactic(auto, using(crate::proofs::Turns::places))]
fn bare(name: Text, span: Span) -> NamedNode
    ensures { named_of result ≡ bare_name name span }
{
    NamedNode {
        name,
        argument: None,
        span,
    }
}

/// The name of a type, at its place.
#[tactic(auto, using(crate::proofs::Turns::places))]
pub fn named_in(
    of: &NamedNode,
    role: Role,
    alloc: Global,
    own: &Option<OwnInstance<'_>>,
) -> Result<NamedNode, Memory>
    ensures { IfOk result (λ n. named_of n ≡ named_in own.now role (named_of of.now)) }
{
    Ok(bare(name_in(of, role, alloc, own)?, of.span))
}

/// The interface after `implements`, if there is one.
pub fn implements_in(
    implements: &Option<NamedNode>,
    alloc: Global,
    own: &Option<OwnInstance<'_>>,
) -> Result<Option<NamedNode>, Memory>
    ensures { IfOk result (λ n. option_map named_of n
        ≡ option_map (named_in own.now Anywhere) (option_map named_of implements.now)) }
{
    match implements {
        None => Ok(None),
        Some(of) => Ok(Some(named_in(of, Role::Anywhere, alloc, own)?)),
    }
}

/// The type of a reference.
#[tactic(auto, using(crate::proofs::Turns::places))]
pub fn ref_in(
    of: &RefNode,
    role: Role,
    alloc: Global,
    own: &Option<OwnInstance<'_>>,
) -> Result<RefNode, Memory>
    ensures { IfOk result (λ r. ref_of r ≡ ref_in own.now role (ref_of of.now)) }
{
    let (of, perm) = both(
        named_in(&of.of, role, alloc, own),
        perm_in(&of.perm, alloc, own),
    )?;
    Ok(RefNode { of, perm })
}

/// A type.
pub fn type_in(
    of: &TypeNode,
    role: Role,
    alloc: Global,
    own: &Option<OwnInstance<'_>>,
) -> Result<TypeNode, Memory>
    ensures { IfOk result (λ t. type_of t ≡ type_in own.now role (type_of of.now)) }
{
    match of {
        TypeNode::Reference(of) => Ok(TypeNode::Reference(ref_in(of, role, alloc, own)?)),
        TypeNode::Int(_) | TypeNode::Bool(_) | TypeNode::Text(_) => of.copy(alloc),
    }
}

/// The type of a local variable.
pub fn local_in(
    of: &LocalType,
    alloc: Global,
    own: &Option<OwnInstance<'_>>,
) -> Result<LocalType, Memory>
    ensures { IfOk result (λ t. local_of t ≡ local_in own.now (local_of of.now)) }
{
    match of {
        LocalType::Named(of) => Ok(LocalType::Named(named_in(of, Role::Anywhere, alloc, own)?)),
        LocalType::Int(_) | LocalType::Bool(_) | LocalType::Text(_) => of.copy(alloc),
    }
}

/// The permission after `>>`, if there is one.
pub fn exit_in(
    exit: &Option<PermNode>,
    alloc: Global,
    own: &Option<OwnInstance<'_>>,
) -> Result<Option<PermNode>, Memory>
    ensures { IfOk result (λ p. p ≡ option_map (perm_in own.now) exit.now) }
{
    match exit {
        None => Ok(None),
        Some(perm) => Ok(Some(perm_in(perm, alloc, own)?)),
    }
}
