//! A type that is met: its faults, and the instance that it needs.
ghost use Rattle.std.specs.Prelude.{◌≡◌, OnOk};
ghost use Rattle.ob_tree.specs.Names.{bare_name, name_with};
ghost use Rattle.ob_tree.specs.NamesView.{named_of, ref_of};
ghost use Rattle.ob_generic_spec.specs.Uses.{used, uses_in_named, uses_in_argument};
ghost use Rattle.ob_generic_spec.specs.Instances.{short_one, with_needed, visit_at, visits_at};
ghost use Rattle.ob_generic_walk.specs.Seen.{seen_one, seen};

use crate::found::Found;
use crate::known::Known;
use crate::type_notes::{note_argument, note_bare, note_with};
use ob_base::{BOUND, LONGEST_STRING, Memory, Span, Text};
use ob_generic_names::{AroundType, instance_of_with, is_refused, meet_argument};
use ob_generic_spec::{Instance, Role};
use ob_resolve_sites::note_if;
use ob_tree::{NamedNode, RefNode};
use std::alloc::Global;

// Adds an instance that is needed, unless its name is too long.
fn arrive(known: &mut Known, alloc: Global, instance: Option<Instance>) -> Result<(), Memory>
    ensures { OnOk result (known.new ≡ with_needed known.old (short_one instance)) }
{
    match instance {
        None => Ok(()),
        Some(instance) => {
            if instance.name.len() > LONGEST_STRING {
                return Ok(());
            }
            known.add(alloc, instance)
        }
    }
}

fn visit_bare(name: &Text, span: Span, role: Role, around: &AroundType<'_>, found: &mut Found)
    ensures { found.new ≡ seen_one found.old (visit_at around.now (used role (bare_name name.now span))) }
{
    note_bare(name.as_bytes(), span, around, role, &mut found.least);
}

#[tactic(auto, using(crate::proofs::VisitTurns::turns))]
fn visit_with(
    name: &Text,
    argument: &RefNode,
    span: Span,
    role: Role,
    alloc: Global,
    around: &AroundType<'_>,
    found: &mut Found,
) -> Result<(), Memory>
    ensures { OnOk result (found.new
        ≡ seen_one found.old (visit_at around.now (used role (name_with name.now (ref_of argument.now) span)))) }
{
    let _ = role;
    let place = argument.of.span;
    let bytes = name.as_bytes();
    let (argument, inner) = meet_argument(argument, alloc, around)?;
    let is_refused = is_refused(bytes, around, inner, &argument);
    let instance = instance_of_with(bytes, alloc, around, inner, &argument)?;
    note_with(
        bytes,
        span,
        around,
        &found.known,
        &instance,
        &mut found.least,
    );
    note_if(&mut found.least, is_refused, BOUND, place);
    note_argument(&argument, around, &mut found.least);
    arrive(&mut found.known, alloc, instance)
}

/// A type, and then that in its argument.
#[tactic(auto, using(crate::proofs::VisitTurns::turns))]
#[cycle(visit)]
pub fn visit(
    of: &NamedNode,
    role: Role,
    alloc: Global,
    around: &AroundType<'_>,
    found: &mut Found,
) -> Result<(), Memory>
    ensures { OnOk result (found.new ≡ seen found.old (visits_at around.now (uses_in_named role (named_of of.now)))) }
{
    match &of.argument {
        None => {
            visit_bare(&of.name, of.span, role, around, found);
            Ok(())
        }
        Some(argument) => {
            let argument = argument.get();
            visit_with(&of.name, argument, of.span, role, alloc, around, found)?;
            visit_argument(argument, alloc, around, found)
        }
    }
}

#[tactic(auto, using(crate::proofs::VisitTurns::turns))]
#[cycle(visit)]
fn visit_argument(
    argument: &RefNode,
    alloc: Global,
    around: &AroundType<'_>,
    found: &mut Found,
) -> Result<(), Memory>
    ensures { OnOk result (found.new ≡ seen found.old (visits_at around.now (uses_in_argument (ref_of argument.now)))) }
{
    visit(&argument.of, Role::InArgument, alloc, around, found)
}
