//! The places of a store that hold an object.

use ob_base::{FieldId, Memory, Mode, ObjectId};
use ob_code::{ContractCode, Image, TypeCode, contract_code};
use ob_explain_page::word_of;
use ob_heap::{Block, Content, Object, Value};
use ob_owners::available;
use std::alloc::Global;

/// The most places that are listed.
const MOST_LISTED: usize = 10;

/// Where an object is held.
#[derive(Clone, Copy)]
pub enum Holder<'a> {
    /// In the field of this name of an object, of which the number and the contract are told.
    Field(usize, &'a str, &'a str),
    /// By the handle of a client: its name, and that of the handle.
    Handle(&'a str, &'a str),
}

/// A place that holds an object.
#[derive(Clone, Copy)]
pub struct HeldBy<'a> {
    /// How.
    pub mode: Mode,
    /// Where.
    pub holder: Holder<'a>,
}

/// The places that own or share an object.
#[derive(Drop)]
pub struct Places<'a> {
    /// The first of them.
    pub listed: Vec<HeldBy<'a>>,
    /// How many own it.
    pub owners: u64,
    /// How many share it.
    pub sharers: u64,
}

impl<'a> Places<'a> {
    fn add(&mut self, mode: Mode, holder: Holder<'a>) -> Result<(), Memory> {
        match mode {
            Mode::Owned => self.owners = self.owners.saturating_add(1),
            Mode::Shared => self.sharers = self.sharers.saturating_add(1),
            Mode::Unowned => return Ok(()),
        }
        if self.listed.len() < MOST_LISTED {
            self.listed.push(HeldBy { mode, holder })?;
        }
        Ok(())
    }

    /// How many places aren't listed.
    pub fn others(&self) -> u64 {
        let all = self.owners.saturating_add(self.sharers);
        all.saturating_sub(self.listed.len() as u64)
    }
}

/// The object to which the value of a field refers.
pub fn object_of(entry: Option<&(FieldId, Value)>) -> Option<ObjectId> {
    match entry {
        Some(entry) => match &entry.1 {
            Value::Object(id) => Some(*id),
            Value::Int(_) | Value::Bool(_) | Value::Text(_) => None,
        },
        None => None,
    }
}

// Whether it is the object of this number.
fn is_object(found: Option<ObjectId>, id: ObjectId) -> bool {
    match found {
        Some(found) => found.0 == id.0,
        None => false,
    }
}

// The fields of an object of a contract.
fn add_fields<'a>(
    places: &mut Places<'a>,
    contract: &'a ContractCode,
    number: usize,
    object: &Object,
    id: ObjectId,
) -> Result<(), Memory> {
    let own = word_of(contract.name.as_bytes());
    for (place, field) in contract.fields.as_slice().iter().enumerate() {
        if let TypeCode::Reference(_, perm) = field.of {
            if is_object(object_of(available(contract, object, place)), id) {
                let name = word_of(field.name.as_bytes());
                places.add(perm.mode, Holder::Field(number, own, name))?;
            }
        }
    }
    Ok(())
}

// The fields of all objects.
fn add_objects<'a>(
    places: &mut Places<'a>,
    code: &'a Image,
    objects: &[Object],
    id: ObjectId,
) -> Result<(), Memory> {
    for (number, object) in objects.iter().enumerate() {
        if let Some(contract) = contract_code(code, object.contract) {
            add_fields(places, contract, number, object, id)?;
        }
    }
    Ok(())
}

// The handles.
fn add_handles<'a>(
    places: &mut Places<'a>,
    blocks: &'a [Block],
    id: ObjectId,
) -> Result<(), Memory> {
    for block in blocks {
        for named in block.as_slice() {
            if named.1.object.0 == id.0 {
                let who = word_of(named.0.0.as_bytes());
                let name = word_of(named.0.1.as_bytes());
                places.add(named.1.mode, Holder::Handle(who, name))?;
            }
        }
    }
    Ok(())
}

/// The places of a store that own or share the object of a number.
pub fn places_of<'a>(
    alloc: Global,
    code: &'a Image,
    content: &'a Content,
    id: ObjectId,
) -> Result<Places<'a>, Memory> {
    let mut places = Places {
        listed: Vec::new(alloc),
        owners: 0,
        sharers: 0,
    };
    add_objects(&mut places, code, content.objects(), id)?;
    add_handles(&mut places, content.handle_blocks(), id)?;
    Ok(places)
}
