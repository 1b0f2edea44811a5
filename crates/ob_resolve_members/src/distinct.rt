//! Names of things of one sort: none is given twice, and there aren't too many.
ghost use Rattle.ob_base.specs.Faults as faults;
ghost use Rattle.std.specs.Prelude.{◌≡◌, [], ◌++◌, ◌||◌, ◌&&◌, not, is_some, nat_eq, length, OnOk};
ghost use Rattle.std.specs.Option.{option_copied};
ghost use Rattle.ob_table_spec.specs.Names.{is_among};
ghost use Rattle.ob_resolve_spec.specs.TypeSites.{declared_sites, limit_sites};
ghost use Rattle.ob_resolve_scope.specs.Numbered.{find};
ghost use Rattle.ob_resolve_sites.specs.Noted.{noted_if, noted};
ghost use Rattle.ob_resolve_members.specs.Parts.{taken_around};

use crate::declared_name::DeclaredName;
use ob_base::{DUPLICATE, LIMIT, Memory};
use ob_resolve_scope::{AroundBody, Names};
use ob_resolve_sites::{Least, note_if};
use std::alloc::Global;

#[tactic(auto, using(ob_resolve_sites::proofs::NamingLemmas::naming))]
fn is_taken(around: Option<&AroundBody<'_>>, name: &[u8]) -> bool
    ensures { result ≡ is_among name.now (taken_around (option_copied around.entry)) }
{
    match around {
        None => false,
        Some(around) => around.field(name).is_some(),
    }
}

// 302 is DUPLICATE.
fn note_second(
    least: &mut Least,
    seen: &Names,
    around: Option<&AroundBody<'_>>,
    name: &DeclaredName<'_>,
)
    ensures { least.new ≡ noted_if least.old (is_some (find name.now.name seen.now) || is_among name.now.name (taken_around (option_copied around.entry))) faults.duplicate name.now.span }
{
    let second = seen.find(name.name()).is_some() || is_taken(around, name.name());
    note_if(least, second, DUPLICATE, name.span());
}

/// Things get these names one after another; the names of the fields around are taken, where something stands around.
#[tactic(auto, using(crate::proofs::DistinctTurns::distinct_turns))]
pub fn note_names(
    alloc: Global,
    around: Option<&AroundBody<'_>>,
    names: &[DeclaredName<'_>],
    least: &mut Least,
) -> Result<(), Memory>
    ensures { OnOk result (least.new ≡ noted least.old (declared_sites (λ p. p) (taken_around (option_copied around.entry)) names.now)) }
{
    let mut seen = Names::new(alloc);
    for index in 0..names.len() {
        let name = &names[index];
        note_second(least, &seen, around, name);
        seen.add(alloc, name.name(), index)?;
    }
    Ok(())
}

// 311 is LIMIT.
fn note_counted(least: &mut Least, seen: &Names, most: usize, name: &DeclaredName<'_>)
    ensures { least.new ≡ noted_if least.old (not (is_some (find name.now.name seen.now)) && nat_eq (length seen.now) most) faults.limit name.now.span }
{
    let past = seen.find(name.name()).is_none() && seen.len() == most;
    note_if(least, past, LIMIT, name.span());
}

/// There are so many names at most; a second one of the same name doesn't count.
#[tactic(auto, using(crate::proofs::DistinctTurns::distinct_turns))]
pub fn note_limit(
    alloc: Global,
    most: usize,
    names: &[DeclaredName<'_>],
    least: &mut Least,
) -> Result<(), Memory>
    ensures { OnOk result (least.new ≡ noted least.old (limit_sites (λ p. p) most names.now)) }
{
    let mut seen = Names::new(alloc);
    for index in 0..names.len() {
        let name = &names[index];
        note_counted(least, &seen, most, name);
        seen.add(alloc, name.name(), index)?;
    }
    Ok(())
}

/// Things get these names one after another, and there are so many of them at most.
#[tactic(auto, using(ob_resolve_sites::specs::Noted::notes))]
pub fn note_names_within(
    alloc: Global,
    most: usize,
    names: &[DeclaredName<'_>],
    least: &mut Least,
) -> Result<(), Memory>
    ensures { OnOk result (least.new ≡ noted least.old (declared_sites (λ p. p) [] names.now ++ limit_sites (λ p. p) most names.now)) }
{
    note_names(alloc, None, names, least)?;
    note_limit(alloc, most, names, least)
}
