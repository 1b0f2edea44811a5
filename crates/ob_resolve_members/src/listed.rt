//! Fields in the list of a private transaction.
ghost use Rattle.std.specs.Prelude.{◌≡◌, [], ◌∷◌, map, flat_map, is_some, IfOk, OnOk, if◌then◌else◌};
ghost use Rattle.ob_tree.specs.NamesView.{ref_of};
ghost use Rattle.ob_tree.specs.MembersView.{listed_of, contract_of};
ghost use Rattle.ob_table_spec.specs.Names.{firsts};
ghost use Rattle.ob_resolve_spec.specs.Kinds.{same_kind};
ghost use Rattle.ob_resolve_spec.specs.MemberSites.{listed_type_site, listed_sites};
ghost use Rattle.ob_resolve_scope.specs.Numbered.{find};
ghost use Rattle.ob_resolve_scope.specs.Types.{program_of};
ghost use Rattle.ob_resolve_sites.specs.Noted.{noted_at, noted};
ghost use Rattle.ob_resolve_members.specs.Parts.{listed_field_sites, listed_types_sites};

use crate::declared_name::DeclaredName;
use crate::distinct::note_names;
use crate::written::walk_ref;
use ob_base::{Items, Memory, TYPE_MISMATCH};
use ob_resolve_scope::{AroundBody, Names};
use ob_resolve_sites::{Least, note_field, note_if};
use ob_resolve_spec::InferredKind;
use ob_tree::{ListedNode, NamePart, RefNode};
use std::alloc::Global;

#[tactic(auto, using(ob_resolve_sites::specs::Noted::notes))]
fn walk_listed_field(alloc: Global, around: &AroundBody<'_>, field: &ListedNode, least: &mut Least)
    ensures { least.new ≡ noted least.old (listed_field_sites (program_of around.now.program) (contract_of around.now.own) (listed_of field.now)) }
{
    walk_ref(alloc, around, &field.of, &field.exit, least);
    note_field(least, around, &field.name);
}

#[tactic(auto, using(crate::proofs::ListedLemmas::listed))]
fn walk_listed_fields(
    alloc: Global,
    around: &AroundBody<'_>,
    listed: &[ListedNode],
    least: &mut Least,
)
    ensures { least.new ≡ noted least.old (flat_map (listed_field_sites (program_of around.now.program) (contract_of around.now.own)) (map listed_of listed.now)) }
{
    for field in listed {
        walk_listed_field(alloc, around, field, least);
    }
}

fn same_kind(a: InferredKind, b: InferredKind) -> bool
    ensures { result ≡ same_kind a b }
{
    match (a, b) {
        (InferredKind::Unknown, _) => true,
        (_, InferredKind::Unknown) => true,
        (InferredKind::Int, InferredKind::Int) => true,
        (InferredKind::Bool, InferredKind::Bool) => true,
        (InferredKind::Text, InferredKind::Text) => true,
        (InferredKind::Nothing, InferredKind::Nothing) => true,
        (InferredKind::Reference(a), InferredKind::Reference(b)) => a == b,
        _ => false,
    }
}

/// A field is listed with the type that it has.
#[tactic(auto, using(crate::proofs::ListedLemmas::listed))]
fn note_listed_type(least: &mut Least, around: &AroundBody<'_>, field: &NamePart, of: &RefNode)
    ensures { least.new ≡ noted_at least.old (listed_type_site (program_of around.now.program) (contract_of around.now.own) field.now (ref_of of.now)) }
{
    let declared = around.kind_of_field(field.name.as_bytes());
    let written = around.declared().types().kind_of_ref(of);
    note_if(
        least,
        !same_kind(declared, written),
        TYPE_MISMATCH,
        of.of.span,
    );
}

fn note_first_type(least: &mut Least, around: &AroundBody<'_>, seen: &Names, field: &ListedNode)
    ensures { least.new ≡ noted least.old (if is_some (find field.now.name.name seen.now) then [] else listed_type_site (program_of around.now.program) (contract_of around.now.own) field.now.name (ref_of field.now.of) ∷ []) }
{
    if seen.find(field.name.name.as_bytes()).is_none() {
        note_listed_type(least, around, &field.name, &field.of);
    }
}

/// The types with which fields are listed; of a second one of one name nothing is asked.
#[tactic(auto, using(crate::proofs::ListedLemmas::listed))]
fn walk_listed_types(
    alloc: Global,
    around: &AroundBody<'_>,
    listed: &[ListedNode],
    least: &mut Least,
) -> Result<(), Memory>
    ensures { OnOk result (least.new ≡ noted least.old (listed_types_sites (program_of around.now.program) (contract_of around.now.own) (firsts (λ l. l.name.name) (map listed_of listed.now)))) }
{
    let mut seen = Names::new(alloc);
    for index in 0..listed.len() {
        let field = &listed[index];
        note_first_type(least, around, &seen, field);
        seen.add(alloc, field.name.name.as_bytes(), index)?;
    }
    Ok(())
}

/// The names of listed fields.
#[tactic(auto, using(crate::proofs::ListTurns::list_turns))]
fn listed_names<'a>(
    alloc: Global,
    listed: &'a [ListedNode],
) -> Result<Items<DeclaredName<'a>>, Memory>
    ensures { IfOk result (λ names. names ≡ map (λ l. l.name) (map listed_of listed.now)) }
{
    let mut names = Items::new(alloc);
    for field in listed {
        names.push(DeclaredName::of_part(&field.name))?;
    }
    Ok(names)
}

/// The fields in the list of a private transaction.
#[tactic(auto, using(crate::proofs::ListedLemmas::listed))]
pub fn walk_listed(
    alloc: Global,
    around: &AroundBody<'_>,
    listed: &[ListedNode],
    least: &mut Least,
) -> Result<(), Memory>
    ensures { OnOk result (least.new ≡ noted least.old (listed_sites (program_of around.now.program) (contract_of around.now.own) (map listed_of listed.now))) }
{
    walk_listed_fields(alloc, around, listed, least);
    let names = listed_names(alloc, listed)?;
    note_names(alloc, None, names.as_slice(), least)?;
    walk_listed_types(alloc, around, listed, least)
}
