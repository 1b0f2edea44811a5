//! The faults at a type.
ghost use Rattle.std.specs.Prelude.{◌≡◌, false, not, ◌&&◌, map};
ghost use Rattle.std.specs.Option.{option_map_or};
ghost use Rattle.ob_base.specs.Faults as faults;
ghost use Rattle.ob_table_spec.specs.Names.{is_among};
ghost use Rattle.ob_resolve_sites.specs.Noted.{noted_if};
ghost use Rattle.ob_generic_spec.specs.Heads.{head_named};
ghost use Rattle.ob_generic_spec.specs.TypeSites.{names_argument_state, argument_perm_sites};
ghost use Rattle.ob_generic_spec.specs.TypeFaults.{is_nothing, is_generic, takes_nothing, is_own, is_in_argument, is_one_too_many};
ghost use Rattle.ob_generic_walk.specs.Noted.{noted, noted_at};

use crate::known::Known;
use ob_base::{
    LONGEST_STRING, MOST_INSTANCES, NO_STATE, PARAM_COUNT, Span, TOO_MANY_INSTANCES, UNKNOWN_NAME,
};
use ob_generic_names::{AroundType, Heads, is_generic, is_nothing, is_own, takes_nothing};
use ob_generic_spec::{Argument, Instance, Role};
use ob_resolve_sites::{Least, note_if};
use ob_tree::{NamePart, PermNode};

fn is_unknown_bare(name: &[u8], around: &AroundType<'_>, role: Role) -> bool
    ensures { result ≡ is_in_argument role && is_nothing around.now name.now }
{
    match role {
        Role::InArgument => is_nothing(name, around),
        Role::OfOwn => false,
        Role::Anywhere => false,
    }
}

fn lacks_argument(name: &[u8], around: &AroundType<'_>, role: Role) -> bool
    ensures { result ≡ is_generic around.now name.now && not (is_own around.now.own role name.now) }
{
    is_generic(name, around) && !is_own(name, around.own(), role)
}

/// Notes the faults of a name without an argument.
pub fn note_bare(name: &[u8], span: Span, around: &AroundType<'_>, role: Role, least: &mut Least)
    ensures { let unknown = is_in_argument role && is_nothing around.now name.now in
        let lacking = is_generic around.now name.now && not (is_own around.now.own role name.now) in
        least.new ≡ noted_if (noted_if least.old unknown faults.unknown_name span) lacking faults.param_count span }
{
    note_if(
        least,
        is_unknown_bare(name, around, role),
        UNKNOWN_NAME,
        span,
    );
    note_if(least, lacks_argument(name, around, role), PARAM_COUNT, span);
}

fn is_one_too_many(known: &Known, instance: &Option<Instance>) -> bool
    ensures { result ≡ is_one_too_many known.now instance.now }
{
    match instance {
        None => false,
        Some(instance) => {
            instance.name.len() > LONGEST_STRING
                || !known.has(instance.name.as_slice()) && known.len() == MOST_INSTANCES
        }
    }
}

/// Notes the faults of a name with an argument that needs this instance, beside those of the argument.
pub fn note_with(
    name: &[u8],
    span: Span,
    around: &AroundType<'_>,
    known: &Known,
    instance: &Option<Instance>,
    least: &mut Least,
)
    ensures { let unknown = noted_if least.old (is_nothing around.now name.now) faults.unknown_name span in
        let many = noted_if unknown (is_one_too_many known.now instance.now) faults.too_many_instances span in
        least.new ≡ noted_if many (takes_nothing around.now name.now) faults.param_count span }
{
    note_if(least, is_nothing(name, around), UNKNOWN_NAME, span);
    note_if(
        least,
        is_one_too_many(known, instance),
        TOO_MANY_INSTANCES,
        span,
    );
    note_if(least, takes_nothing(name, around), PARAM_COUNT, span);
}

// Whether the contract or interface of the name `base` is there and lacks this state.
fn lacks_state(base: &[u8], state: &[u8], heads: &Heads) -> bool
    ensures { result ≡ option_map_or (λ h. not (is_among state.now h.states)) (head_named heads.now base.now) false }
{
    match heads.states(base) {
        Some(states) => states.find(state).is_none(),
        None => false,
    }
}

#[tactic(auto, using(crate::proofs::NoteTurns::turns))]
fn note_state(base: &[u8], state: &NamePart, around: &AroundType<'_>, least: &mut Least)
    ensures { least.new ≡ noted_at least.old (names_argument_state (head_named around.now.heads base.now) state.now) }
{
    let lacks = lacks_state(base, state.name.as_bytes(), around.heads());
    note_if(least, lacks, NO_STATE, state.span);
}

#[tactic(auto, using(crate::proofs::NoteTurns::turns))]
fn note_states(base: &[u8], states: &[NamePart], around: &AroundType<'_>, least: &mut Least)
    ensures { least.new ≡ noted least.old
        (map (names_argument_state (head_named around.now.heads base.now)) states.now) }
{
    for state in states {
        note_state(base, state, around, least);
    }
}

/// Notes the faults of the states in an argument's permission.
pub fn note_argument(argument: &Argument, around: &AroundType<'_>, least: &mut Least)
    ensures { least.new ≡ noted least.old (argument_perm_sites around.now argument.now) }
{
    match &argument.perm {
        PermNode::Mode(_, _) => {}
        PermNode::States(states) => {
            note_states(
                argument.of.base.as_bytes(),
                states.as_slice(),
                around,
                least,
            )
        }
    }
}
