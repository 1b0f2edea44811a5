//! The names that contracts and members get, in their order.
ghost use Rattle.std.specs.Prelude.{◌≡◌, [], ◌++◌, map, flat_map, filter, OnOk, IfOk};
ghost use Rattle.ob_tree.specs.NamesView.{named_of};
ghost use Rattle.ob_tree.specs.MembersView.{member_of};
ghost use Rattle.ob_table_spec.specs.Names.{same};
ghost use Rattle.ob_resolve_spec.specs.Declarations.{contract_name, part_of_named, states_of_member, fields_of_member, constructors_of_member, transactions_of_member};
ghost use Rattle.ob_resolve_scope.specs.Types.{program_of};

use ob_base::{Items, Memory};
use ob_resolve_members::DeclaredName;
use ob_tree::{ContractNode, FieldNode, Member};
use std::alloc::Global;

/// The names of contracts and interfaces.
#[tactic(auto, using(crate::proofs::NameTurns::name_turns))]
pub fn contract_names<'a>(
    alloc: Global,
    nodes: &'a [ContractNode],
) -> Result<Items<DeclaredName<'a>>, Memory>
    ensures { IfOk result (λ names. names ≡ map contract_name (program_of nodes.now)) }
{
    let mut names = Items::new(alloc);
    for node in nodes {
        names.push(DeclaredName::new(node.name.as_bytes(), node.span))?;
    }
    Ok(names)
}

fn add_state<'a>(names: &mut Items<DeclaredName<'a>>, member: &'a Member) -> Result<(), Memory>
    ensures { OnOk result (names.new ≡ names.old ++ states_of_member (member_of member.now)) }
{
    match member {
        Member::State { name, .. } => names.push(DeclaredName::of_part(name))?,
        Member::Field(_) => {}
        Member::Constructor { .. } => {}
        Member::Transaction { .. } => {}
    }
    Ok(())
}

/// The names of the states that members name.
#[tactic(auto, using(crate::proofs::NameTurns::name_turns))]
pub fn state_names<'a>(
    alloc: Global,
    members: &'a [Member],
) -> Result<Items<DeclaredName<'a>>, Memory>
    ensures { IfOk result (λ names. names ≡ flat_map states_of_member (map member_of members.now)) }
{
    let mut names = Items::new(alloc);
    for member in members {
        add_state(&mut names, member)?;
    }
    Ok(names)
}

#[tactic(auto, using(crate::proofs::NameTurns::name_turns))]
fn add_fields<'a>(
    names: &mut Items<DeclaredName<'a>>,
    fields: &'a [FieldNode],
) -> Result<(), Memory>
    ensures { OnOk result (names.new ≡ names.old ++ map (λ f. f.name) fields.now) }
{
    for field in fields {
        names.push(DeclaredName::of_part(&field.name))?;
    }
    Ok(())
}

#[tactic(auto, using(crate::proofs::NameTurns::name_turns))]
fn add_fields_of<'a>(names: &mut Items<DeclaredName<'a>>, member: &'a Member) -> Result<(), Memory>
    ensures { OnOk result (names.new ≡ names.old ++ map (λ f. f.field.name) (fields_of_member (member_of member.now))) }
{
    match member {
        Member::State { fields, .. } => add_fields(names, fields.as_slice())?,
        Member::Field(field) => names.push(DeclaredName::of_part(&field.name))?,
        Member::Constructor { .. } => {}
        Member::Transaction { .. } => {}
    }
    Ok(())
}

/// The names of the fields that members declare, those inside states too.
#[tactic(auto, using(crate::proofs::NameTurns::name_turns))]
pub fn field_names<'a>(
    alloc: Global,
    members: &'a [Member],
) -> Result<Items<DeclaredName<'a>>, Memory>
    ensures { IfOk result (λ names. names ≡ map (λ f. f.field.name) (flat_map fields_of_member (map member_of members.now))) }
{
    let mut names = Items::new(alloc);
    for member in members {
        add_fields_of(&mut names, member)?;
    }
    Ok(names)
}

#[tactic(auto, using(ob_resolve_sites::proofs::NamingLemmas::naming))]
fn add_constructor<'a>(
    names: &mut Items<DeclaredName<'a>>,
    own: &[u8],
    member: &'a Member,
) -> Result<(), Memory>
    ensures { OnOk result (names.new ≡ names.old ++ map (λ m. part_of_named m.of) (filter (λ m. same own.now (part_of_named m.of).name) (constructors_of_member (member_of member.now)))) }
{
    match member {
        Member::State { .. } => {}
        Member::Field(_) => {}
        Member::Constructor { of, .. } => {
            if own == of.name.as_bytes() {
                names.push(DeclaredName::new(of.name.as_bytes(), of.span))?;
            }
        }
        Member::Transaction { .. } => {}
    }
    Ok(())
}

/// The names of the constructors among members of the contract of this name: all are that name.
#[tactic(auto, using(crate::proofs::NameTurns::name_turns))]
pub fn constructor_names<'a>(
    alloc: Global,
    own: &[u8],
    members: &'a [Member],
) -> Result<Items<DeclaredName<'a>>, Memory>
    ensures { IfOk result (λ names. names ≡ map (λ m. part_of_named m.of) (filter (λ m. same own.now (part_of_named m.of).name) (flat_map constructors_of_member (map member_of members.now)))) }
{
    let mut names = Items::new(alloc);
    for member in members {
        add_constructor(&mut names, own, member)?;
    }
    Ok(names)
}

fn add_transaction<'a>(
    names: &mut Items<DeclaredName<'a>>,
    member: &'a Member,
) -> Result<(), Memory>
    ensures { OnOk result (names.new ≡ names.old ++ map (λ t. t.name) (transactions_of_member (member_of member.now))) }
{
    match member {
        Member::State { .. } => {}
        Member::Field(_) => {}
        Member::Constructor { .. } => {}
        Member::Transaction { name, .. } => names.push(DeclaredName::of_part(name))?,
    }
    Ok(())
}

/// The names of the transactions among members.
#[tactic(auto, using(crate::proofs::NameTurns::name_turns))]
pub fn transaction_names<'a>(
    alloc: Global,
    members: &'a [Member],
) -> Result<Items<DeclaredName<'a>>, Memory>
    ensures { IfOk result (λ names. names ≡ map (λ t. t.name) (flat_map transactions_of_member (map member_of members.now))) }
{
    let mut names = Items::new(alloc);
    for member in members {
        add_transaction(&mut names, member)?;
    }
    Ok(names)
}
