//! Objects by their numbers, as a run has changed them.
ghost use Rattle.std.specs.Prelude.{◌≡◌, ◌<◌, [], ◌∷◌, ◌++◌, ℕ, length, IfOk, OnOk, OnErr};
ghost use Rattle.std.specs.Option.{option_copied};
ghost use Rattle.ob_heap.specs.Overlays.{changed_at, IsPut, IsEditedCopy, IsEditedOver};
ghost use Rattle.ob_heap.specs.Ascending.{IsAscending};
ghost use Rattle.ob_heap.specs.Differences.{other_objects, AreOthers};

use crate::edit::{Edit, change};
use crate::object::Object;
use crate::same::is_other;
use crate::sequence::Sequence;
use ob_base::{Duplicate, Memory, ObjectId};
use std::alloc::Global;
use std::collections::BTreeMap;
use std::marker::Model;

/// Objects by their numbers, which ascend. Mostly a run changes one alone, so that has a place of its own, which is found at once.
#[derive(Drop)]
pub struct Changed {
    alone: Option<(u32, Object)>,
    map: BTreeMap<u32, Object>,
}

impl Model for Changed {
    ghost use Rattle.std.specs.Prelude.{◌≡◌, [], ◌++◌, ℕ, List, IsSome};
    ghost use Rattle.std.specs.Option.{option_to_list};
    ghost use Rattle.ob_heap.specs.declared.object.Object.{Object};

    ghost Value = { List (ℕ × Object) };

    ghost view = { λ c. option_to_list c.alone ++ c.map.entries };

    ghost invariant = { λ c. IsSome c.alone → c.map.entries ≡ [] };
}

fn find_in(map: &BTreeMap<u32, Object>, id: u32) -> Option<&Object>
    ensures { option_copied result ≡ changed_at id map.now.entries }
{
    map.get(&id)
}

fn put_in(map: &mut BTreeMap<u32, Object>, id: u32, object: Object) -> Result<(), Memory>
    ensures ok { OnOk result (IsPut id object map.old.entries map.new.entries) }
    ensures err { OnErr result (map.new.entries ≡ map.old.entries) }
{
    match map.insert(id, object) {
        Ok(_) => Ok(()),
        Err(_) => Err(Memory),
    }
}

// Does this to the object of a number: where it lies, or to a copy of the one that the base has, which is put.
fn edit_in(
    map: &mut BTreeMap<u32, Object>,
    alloc: Global,
    base: &[Object],
    id: u32,
    edit: Edit,
) -> Result<(), Memory>
    requires { id < length base.now }
    ensures { OnOk result (IsEditedOver base.now id edit map.old.entries map.new.entries) }
{
    if let Some(object) = map.get_mut(&id) {
        return change(object, edit);
    }
    let mut object = base[id as usize].copy(alloc)?;
    change(&mut object, edit)?;
    put_in(map, id, object)
}

fn add_other(
    found: &mut Sequence<(ObjectId, Object)>,
    alloc: Global,
    base: &[Object],
    id: u32,
    object: &Object,
) -> Result<(), Memory>
    ensures found { OnOk result (found.new ≡ found.old ++ other_objects base.now ((id, object.now) ∷ [])) }
    ensures others { OnOk result (AreOthers base.now found.old → AreOthers base.now found.new) }
{
    if is_other(base, id, object) {
        found.push((ObjectId(id), object.copy(alloc)?))?;
    }
    Ok(())
}

#[tactic(auto, using(crate::proofs::DifferencesLemmas::orders))]
fn add_others(
    found: &mut Sequence<(ObjectId, Object)>,
    alloc: Global,
    base: &[Object],
    map: &BTreeMap<u32, Object>,
) -> Result<(), Memory>
    ensures found { OnOk result (found.new ≡ found.old ++ other_objects base.now map.now.entries) }
    ensures others { OnOk result (AreOthers base.now found.old → AreOthers base.now found.new) }
    ensures order { IsAscending (λ e. e.0) map.now.entries }
{
    // `len` says that the numbers ascend.
    let _count = map.len();
    for (id, object) in map {
        add_other(found, alloc, base, *id, object)?;
    }
    Ok(())
}

// A copy of the object that the base has at a number, with this done to it.
fn edited_copy(alloc: Global, base: &[Object], id: u32, edit: Edit) -> Result<(u32, Object), Memory>
    requires { id < length base.now }
    ensures { IfOk result (λ item. IsEditedCopy base.now id edit item) }
{
    let mut object = base[id as usize].copy(alloc)?;
    change(&mut object, edit)?;
    Ok((id, object))
}

impl Changed {
    /// No object.
    pub fn new(alloc: Global) -> Changed
        ensures { result ≡ [] }
    {
        Changed {
            alone: None,
            map: BTreeMap::new(alloc),
        }
    }

    /// The object of this number.
    #[inline(always)]
    pub fn get(&self, id: u32) -> Option<&Object>
        ensures { option_copied result ≡ changed_at id self.now }
    {
        match &self.alone {
            Some((number, object)) if *number == id => Some(object),
            _ => find_in(&self.map, id),
        }
    }

    /// Adds those that differ from the base.
    pub fn add_others(
        &self,
        found: &mut Sequence<(ObjectId, Object)>,
        alloc: Global,
        base: &[Object],
    ) -> Result<(), Memory>
        ensures found { OnOk result (found.new ≡ found.old ++ other_objects base.now self.now) }
        ensures others { OnOk result (AreOthers base.now found.old → AreOthers base.now found.new) }
        ensures order { IsAscending (λ e. e.0) self.now }
    {
        if let Some((id, object)) = &self.alone {
            add_other(found, alloc, base, *id, object)?;
        }
        add_others(found, alloc, base, &self.map)
    }

    // The same of an object that isn't the one that stands alone, if one does.
    #[inline(never)]
    fn edit_other(
        &mut self,
        alloc: Global,
        base: &[Object],
        id: u32,
        edit: Edit,
    ) -> Result<(), Memory>
        requires { id < length base.now }
        ensures { OnOk result (IsEditedOver base.now id edit self.old self.new) }
    {
        match self.alone.take() {
            None if self.map.is_empty() => {
                self.alone = Some(edited_copy(alloc, base, id, edit)?);
                Ok(())
            }
            None => edit_in(&mut self.map, alloc, base, id, edit),
            Some((number, object)) => {
                put_in(&mut self.map, number, object)?;
                edit_in(&mut self.map, alloc, base, id, edit)
            }
        }
    }

    /// Does this to the object of this number. Only where it wasn't touched before is it copied from the base.
    #[inline(always)]
    pub fn edit(
        &mut self,
        alloc: Global,
        base: &[Object],
        id: u32,
        edit: Edit,
    ) -> Result<(), Memory>
        requires { id < length base.now }
        ensures { OnOk result (IsEditedOver base.now id edit self.old self.new) }
    {
        match &mut self.alone {
            Some((number, object)) if *number == id => change(object, edit),
            _ => self.edit_other(alloc, base, id, edit),
        }
    }
}
