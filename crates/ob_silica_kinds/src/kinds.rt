//! The kinds of the values in slots.
ghost use Rattle.std.specs.Prelude.{◌≡◌, ◌≤◌, length, OnOk, IfOk};
ghost use Rattle.ob_silica_places.specs.Known.{kind_of_constant, kind_of_operator};
ghost use Rattle.ob_silica_formed.specs.Holdings.{kind_of_place, common_kind, kinds_equal, held_at_start};
ghost use Rattle.ob_silica_kinds.specs.Kinds.{kinds_of, has_kind, kinds_held, holding, with_kind, first_kinds, common_list, joined_kinds};

use crate::frame::{StaticFrame, kind_of_resolved};
use ob_base::{ContractId, Duplicate, Items, Memory};
use ob_silica::{Constant, Place, SilicaOperator};
use ob_table::{BinaryOperator, Kind, Param, UnaryOperator};
use std::alloc::Global;

/// The kind of each slot's value, where it is known; that of a slot past the end of the list is unknown.
#[derive(Drop)]
pub struct Kinds {
    slots: Items<Option<Kind>>,
}

// Whether two kinds are the same.
fn kinds_equal(a: Kind, b: Kind) -> bool
    ensures { result ≡ kinds_equal a b }
{
    match (a, b) {
        (Kind::Int, Kind::Int) | (Kind::Bool, Kind::Bool) | (Kind::Text, Kind::Text) => true,
        (Kind::Reference(first), Kind::Reference(second)) => first.0 == second.0,
        _ => false,
    }
}

// The kind that is known after two ways.
fn common_kind(a: Option<Kind>, b: Option<Kind>) -> Option<Kind>
    ensures { result ≡ common_kind a b }
{
    match (a, b) {
        (Some(a), Some(b)) => { if kinds_equal(a, b) { Some(a) } else { None } }
        _ => None,
    }
}

/// Whether a value is of a kind, where this is known of its own.
pub(crate) fn has_kind(kind: Kind, known: Option<Kind>) -> bool
    ensures { result ≡ has_kind kind known }
{
    match known {
        Some(known) => kinds_equal(kind, known),
        None => false,
    }
}

/// The kind of a slot of a list.
#[tactic(auto, using(crate::proofs::KindsLemmas::knowing))]
pub(crate) fn kind_in(slots: &Items<Option<Kind>>, slot: usize) -> Option<Kind>
    ensures { result ≡ kinds_of slots.now slot }
{
    match slots.get(slot) {
        Some(kind) => *kind,
        None => None,
    }
}

// Makes the list this long.
#[tactic(auto, using(crate::proofs::KindsLemmas::knowing))]
fn grow(slots: &mut Items<Option<Kind>>, count: usize) -> Result<(), Memory>
    ensures same { kinds_of slots.new ≡ kinds_of slots.old }
    ensures long { OnOk result (count ≤ length slots.new) }
{
    while slots.len() < count {
        slots.push(None)?;
    }
    Ok(())
}

/// The kind of a constant.
pub fn kind_of_constant(constant: &Constant) -> Kind
    ensures { result ≡ kind_of_constant constant.now }
{
    match constant {
        Constant::Int(_) => Kind::Int,
        Constant::Bool(_) => Kind::Bool,
        Constant::Text(_) => Kind::Text,
    }
}

/// The kind of an operator's value.
pub fn kind_of_operator(operator: SilicaOperator) -> Kind
    ensures { result ≡ kind_of_operator operator }
{
    match operator {
        SilicaOperator::Unary(UnaryOperator::Not) => Kind::Bool,
        SilicaOperator::Unary(UnaryOperator::Negate)
        | SilicaOperator::Binary(
            BinaryOperator::Add
            | BinaryOperator::Sub
            | BinaryOperator::Mul
            | BinaryOperator::Div
            | BinaryOperator::Rem,
        ) => Kind::Int,
        SilicaOperator::Binary(_) => Kind::Bool,
    }
}

// The kinds of `this` and of parameters, by their slots.
fn first_kinds(
    alloc: Global,
    here: ContractId,
    params: &[Param],
) -> Result<Items<Option<Kind>>, Memory>
    ensures { IfOk result (λ ks. ks ≡ first_kinds here params.now) }
{
    let mut slots = Items::new(alloc);
    slots.push(Some(Kind::Reference(here)))?;
    for param in params {
        slots.push(Some(kind_of_resolved(param.of)))?;
    }
    Ok(slots)
}

// The kinds after two ways, slot by slot.
#[tactic(auto, using(crate::proofs::KindsLemmas::joining))]
fn common_list(
    alloc: Global,
    first: &Items<Option<Kind>>,
    second: &Items<Option<Kind>>,
) -> Result<Items<Option<Kind>>, Memory>
    ensures { IfOk result (λ ks. ks ≡ common_list first.now (kinds_of second.now) 0) }
{
    let mut slots = Items::new(alloc);
    let mut index: usize = 0;
    for kind in first.as_slice() {
        slots.push(common_kind(*kind, kind_in(second, index)))?;
        index += 1;
    }
    Ok(slots)
}

impl Kinds {
    /// The kinds of the values in these slots, by number.
    pub fn of(slots: Items<Option<Kind>>) -> Kinds
        ensures { result ≡ record { slots = slots } }
    {
        Kinds { slots }
    }

    /// The kinds where a body of this contract with these parameters begins.
    #[tactic(auto, using(crate::proofs::KindsLemmas::kinds_of_start))]
    pub fn at_start(alloc: Global, here: ContractId, params: &[Param]) -> Result<Kinds, Memory>
        ensures { IfOk result (λ kinds. kinds_of kinds.slots ≡ kinds_held (held_at_start here params.now)) }
    {
        let slots = first_kinds(alloc, here, params)?;
        Ok(Kinds { slots })
    }

    /// The kinds of the values in slots, by number.
    pub(crate) fn slots(&self) -> &Items<Option<Kind>>
        ensures { result.now ≡ self.now.slots }
    {
        &self.slots
    }

    /// The kind of the value in a slot, if it is known.
    pub fn kind_of_slot(&self, slot: usize) -> Option<Kind>
        ensures { result ≡ kinds_of self.now.slots slot }
    {
        kind_in(&self.slots, slot)
    }

    /// The kind of the value at a place, if it is known.
    pub fn kind_at(&self, frame: &StaticFrame<'_>, place: Place) -> Option<Kind>
        ensures { result ≡ kind_of_place frame.now (holding (kinds_of self.now.slots)) place }
    {
        match place {
            Place::Slot(slot) => self.kind_of_slot(usize::from(slot)),
            Place::This | Place::Field(_) => frame.kind_at(place),
        }
    }

    /// The slot, if there is one, holds a value of this kind.
    #[tactic(auto, using(crate::proofs::KindsLemmas::knowing))]
    pub fn put(&mut self, slot: Option<u8>, kind: Option<Kind>) -> Result<(), Memory>
        ensures { OnOk result (kinds_of self.new.slots ≡ with_kind slot kind (kinds_of self.old.slots)) }
    {
        if let Some(slot) = slot {
            let slot = usize::from(slot);
            grow(&mut self.slots, slot + 1)?;
            self.slots.set(slot, kind);
        }
        Ok(())
    }

    /// The kinds after two branches, from those after the other one.
    #[tactic(auto, using(crate::proofs::KindsLemmas::kinds_of_common))]
    pub fn join(
        &mut self,
        alloc: Global,
        ends: bool,
        other_ends: bool,
        other: Kinds,
    ) -> Result<(), Memory>
        ensures { OnOk result (kinds_of self.new.slots
            ≡ joined_kinds ends other_ends (kinds_of self.old.slots) (kinds_of other.slots)) }
    {
        if ends {
            *self = other;
        } else if !other_ends {
            self.slots = common_list(alloc, &self.slots, &other.slots)?;
        }
        Ok(())
    }
}

impl Duplicate for Kinds {
    fn copy(&self, alloc: Global) -> Result<Kinds, Memory> {
        Ok(Kinds {
            slots: Items::from_slice(alloc, self.slots.as_slice())?,
        })
    }
}
