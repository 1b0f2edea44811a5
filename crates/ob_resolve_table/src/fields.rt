//! The states and fields of a contract as they stand in the table (the Obsidian language documentation, "States" and
//! "Fields").
ghost use Rattle.std.specs.Prelude.{◌≡◌, ◌++◌, map, flat_map, IfOk, OnOk};
ghost use Rattle.ob_tree.specs.NamesView.{type_of};
ghost use Rattle.ob_tree.specs.MembersView.{field_of, member_of, contract_of};
ghost use Rattle.ob_resolve_spec.specs.Declarations.{state_names, states_of_member, availability, field_inside};
ghost use Rattle.ob_resolve_spec.specs.Declarations.{fields_of_member};
ghost use Rattle.ob_resolve_spec.specs.TableOf.{resolved_type, available_in, field_in_table};
ghost use Rattle.ob_resolve_scope.specs.Types.{program_of};
ghost use Rattle.ob_resolve_table.specs.Parts.{field_in_state};

use crate::kinds::{resolved_type, table_name};
use ob_base::{Items, Memory, Name};
use ob_perm::anywhere;
use ob_resolve_bodies::own_states_named;
use ob_resolve_scope::{AroundBody, Types};
use ob_table::Field;
use ob_tree::{FieldNode, Member, NamePart};
use std::alloc::Global;

/// The names of the states among these members.
#[tactic(auto, using(crate::proofs::TableLemmas::turns))]
pub fn state_names(members: &[Member], alloc: Global) -> Result<Items<Name>, Memory>
    ensures { IfOk result (λ names. names ≡ map (λ s. s.name) (flat_map states_of_member (map member_of members.now))) }
{
    let mut names = Items::new(alloc);
    for member in members {
        if let Member::State { name, .. } = member {
            names.push(table_name(&name.name, alloc)?)?;
        }
    }
    Ok(names)
}

// In which states a field at the top of the contract around is there, with these names after `available in`.
fn available_in(around: &AroundBody<'_>, states: &[NamePart]) -> Result<u64, Memory>
    ensures { IfOk result (λ mask. mask ≡ available_in (state_names (contract_of around.now.own))
        (availability states.now)) }
{
    match states {
        [] => Ok(anywhere()),
        [_, ..] => own_states_named(around, states),
    }
}

fn table_field(
    types: &Types<'_>,
    field: &FieldNode,
    available: u64,
    alloc: Global,
) -> Result<Field, Memory>
    ensures { IfOk result (λ f. f ≡ record {
      name = field.now.name.name;
      of = resolved_type (program_of types.now) (type_of field.now.of);
      available = available;
    }) }
{
    let of = resolved_type(types, &field.of)?;
    Ok(Field {
        name: table_name(&field.name.name, alloc)?,
        of,
        available,
    })
}

// The fields inside a state.
#[tactic(auto, using(crate::proofs::TableLemmas::inside_turn))]
fn add_inside(
    around: &AroundBody<'_>,
    state: &NamePart,
    inside: &[FieldNode],
    fields: &mut Items<Field>,
    alloc: Global,
) -> Result<(), Memory>
    ensures { OnOk result (fields.new ≡ fields.old
        ++ map (field_in_state (program_of around.now.program) (contract_of around.now.own) state.now.name)
        inside.now) }
{
    let available = own_states_named(around, std::slice::from_ref(state))?;
    for field in inside {
        fields.push(table_field(around.declared().types(), field, available, alloc)?)?;
    }
    Ok(())
}

// The fields that a member declares.
#[tactic(auto, using(crate::proofs::TableLemmas::fields_inside))]
fn add_fields(
    around: &AroundBody<'_>,
    member: &Member,
    fields: &mut Items<Field>,
    alloc: Global,
) -> Result<(), Memory>
    ensures { OnOk result (fields.new ≡ fields.old
        ++ map (field_in_table (program_of around.now.program) (contract_of around.now.own))
        (fields_of_member (member_of member.now))) }
{
    match member {
        Member::State {
            name,
            fields: inside,
            ..
        } => add_inside(around, name, inside.as_slice(), fields, alloc),
        Member::Field(field) => {
            let available = available_in(around, field.available.as_slice())?;
            let types = around.declared().types();
            Ok(fields.push(table_field(types, field, available, alloc)?)?)
        }
        Member::Constructor { .. } => Ok(()),
        Member::Transaction { .. } => Ok(()),
    }
}

/// The fields of the contract around, among these members.
#[tactic(auto, using(crate::proofs::TableLemmas::fields_turn))]
pub fn table_fields(
    around: &AroundBody<'_>,
    members: &[Member],
    alloc: Global,
) -> Result<Items<Field>, Memory>
    ensures { IfOk result (λ fields. fields ≡ map (field_in_table (program_of around.now.program)
        (contract_of around.now.own)) (flat_map fields_of_member (map member_of members.now))) }
{
    let mut fields = Items::new(alloc);
    for member in members {
        add_fields(around, member, &mut fields, alloc)?;
    }
    Ok(fields)
}
