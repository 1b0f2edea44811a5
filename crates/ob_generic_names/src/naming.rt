//! What types are called in an instance.
ghost use Rattle.std.specs.Prelude.{◌≡◌, IfOk};
ghost use Rattle.ob_tree.specs.NamesView.{named_of, ref_of};
ghost use Rattle.ob_generic_spec.specs.Substitution.{printed_name, written_itself, written_bare, written_in, argument_in};

use crate::around::{OwnInstance, is_same};
use crate::copies::copy_written;
use crate::permissions::perm_in;
use crate::printing::printed_name;
use ob_base::{Duplicate, Items, Memory, Text};
use ob_generic_spec::{Argument, Written};
use ob_tree::{NamedNode, RefNode};
use std::alloc::Global;

fn written_itself(name: &Text, alloc: Global) -> Result<Written, Memory>
    ensures { IfOk result (λ w. w ≡ written_itself name.now) }
{
    Ok(Written {
        base: name.copy(alloc)?,
        name: Items::from_slice(alloc, name.as_bytes())?,
    })
}

/// A name without an argument.
pub fn written_bare(
    name: &Text,
    alloc: Global,
    own: &Option<OwnInstance<'_>>,
) -> Result<Written, Memory>
    ensures { IfOk result (λ w. w ≡ written_bare own.now name.now) }
{
    match own {
        None => written_itself(name, alloc),
        Some(own) => {
            if is_same(own.param().name.name.as_bytes(), name.as_bytes()) {
                copy_written(alloc, &own.instance().argument.of)
            } else {
                written_itself(name, alloc)
            }
        }
    }
}

/// A name with this argument.
pub fn written_with(name: &Text, alloc: Global, argument: &Argument) -> Result<Written, Memory>
    ensures { IfOk result (λ w. w ≡ record { base = name.now; name = printed_name name.now argument.now }) }
{
    Ok(Written {
        base: name.copy(alloc)?,
        name: printed_name(name.as_bytes(), alloc, argument)?,
    })
}

/// A type, in an instance or outside of one.
#[tactic(auto, using(ob_tree::specs::NamesView::name_views))]
#[cycle(written)]
pub fn written_in(
    of: &NamedNode,
    alloc: Global,
    own: &Option<OwnInstance<'_>>,
) -> Result<Written, Memory>
    ensures { IfOk result (λ w. w ≡ written_in own.now (named_of of.now)) }
{
    match &of.argument {
        None => written_bare(&of.name, alloc, own),
        Some(argument) => {
            let argument = argument_in(argument.get(), alloc, own)?;
            written_with(&of.name, alloc, &argument)
        }
    }
}

/// A type argument, in an instance or outside of one.
#[tactic(auto, using(ob_tree::specs::NamesView::name_views))]
#[cycle(written)]
pub fn argument_in(
    argument: &RefNode,
    alloc: Global,
    own: &Option<OwnInstance<'_>>,
) -> Result<Argument, Memory>
    ensures { IfOk result (λ a. a ≡ argument_in own.now (ref_of argument.now)) }
{
    Ok(Argument {
        of: written_in(&argument.of, alloc, own)?,
        perm: perm_in(&argument.perm, alloc, own)?,
    })
}
