//! What a type is called, and whether it has a fault, in one walk down its arguments.
ghost use Rattle.std.specs.Prelude.{◌≡◌, IfOk};
ghost use Rattle.ob_tree.specs.NamesView.{named_of, ref_of};
ghost use Rattle.ob_generic_spec.specs.Substitution.{written_in, argument_in};
ghost use Rattle.ob_generic_spec.specs.Arguments.{is_faulty, is_faulty_argument};
ghost use Rattle.ob_generic_spec.specs.Instances.{instance_with, instance_of_with};

use crate::around::AroundType;
use crate::bounds::{is_faulty_bare, is_faulty_with, lacks_state};
use crate::copies::copy_argument;
use crate::naming::{written_bare, written_with};
use crate::permissions::perm_in;
use crate::printing::printed_name;
use ob_base::{Memory, both};
use ob_generic_spec::{Argument, Instance, Written};
use ob_tree::{NamedNode, RefNode};
use std::alloc::Global;

/// A type, and whether it has a fault in an argument.
#[tactic(auto, using(ob_tree::specs::NamesView::name_views))]
#[cycle(meet)]
pub fn meet(
    of: &NamedNode,
    alloc: Global,
    around: &AroundType<'_>,
) -> Result<(Written, bool), Memory>
    ensures written { IfOk result (λ m. m.0 ≡ written_in around.now.own (named_of of.now)) }
    ensures faulty { IfOk result (λ m. m.1 ≡ is_faulty around.now (named_of of.now)) }
{
    match &of.argument {
        None => {
            let written = written_bare(&of.name, alloc, around.own())?;
            Ok((written, is_faulty_bare(of.name.as_bytes(), around)))
        }
        Some(argument) => {
            let (argument, inner) = meet_argument(argument.get(), alloc, around)?;
            let faulty = is_faulty_with(of.name.as_bytes(), around, inner, &argument);
            Ok((written_with(&of.name, alloc, &argument)?, faulty))
        }
    }
}

/// An argument, and whether it has a fault.
#[tactic(auto, using(ob_tree::specs::NamesView::name_views))]
#[cycle(meet)]
pub fn meet_argument(
    argument: &RefNode,
    alloc: Global,
    around: &AroundType<'_>,
) -> Result<(Argument, bool), Memory>
    ensures argument { IfOk result (λ m. m.0 ≡ argument_in around.now.own (ref_of argument.now)) }
    ensures faulty { IfOk result (λ m. m.1 ≡ is_faulty_argument around.now (ref_of argument.now)) }
{
    let (of, faulty) = meet(&argument.of, alloc, around)?;
    let perm = perm_in(&argument.perm, alloc, around.own())?;
    let argument = Argument { of, perm };
    let faulty = faulty || lacks_state(around.heads(), &argument);
    Ok((argument, faulty))
}

// The generic contract or interface of this number and name, with a copy of the argument.
fn instance_with(
    name: &[u8],
    alloc: Global,
    argument: &Argument,
    contract: usize,
) -> Result<Instance, Memory>
    ensures { IfOk result (λ x. x ≡ instance_with name.now argument.now contract) }
{
    let (name, argument) = both(
        printed_name(name, alloc, argument),
        copy_argument(alloc, argument),
    )?;
    Ok(Instance {
        name,
        contract,
        argument,
    })
}

/// The instance that a name with this argument denotes; `inner` says whether the argument has a fault.
pub fn instance_of_with(
    name: &[u8],
    alloc: Global,
    around: &AroundType<'_>,
    inner: bool,
    argument: &Argument,
) -> Result<Option<Instance>, Memory>
    ensures { IfOk result (λ x. x ≡ instance_of_with around.now name.now inner argument.now) }
{
    if is_faulty_with(name, around, inner, argument) {
        return Ok(None);
    }
    match around.heads().find(name) {
        None => Ok(None),
        Some(contract) => Ok(Some(instance_with(name, alloc, argument, contract)?)),
    }
}
