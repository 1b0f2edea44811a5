//! A store that isn't at rest.
ghost use Rattle.std.specs.Prelude.{string_bytes, IfOk};
ghost use Rattle.ob_explain_page.specs.Pages.{IsPage};

use crate::areas::Areas;
use crate::lines::{put_parts, put_title, words_of};
use crate::places::{HeldBy, Holder, Places, object_of, places_of};
use crate::records::image_of;
use crate::replaying::replayed;
use ob_base::{ContractId, Memory, Mode, ObjectId, StateId};
use ob_code::{ContractCode, Image, TypeCode, contract_code, decode};
use ob_explain_page::{Explanation, Page, Words, word_of};
use ob_heap::{Content, Object};
use ob_owners::available;
use std::alloc::Global;

// The name of a contract.
fn name_of(code: &Image, contract: ContractId) -> &str {
    match contract_code(code, contract) {
        Some(contract) => word_of(contract.name.as_bytes()),
        None => "?",
    }
}

// The name of a state.
fn state_name(code: &Image, contract: ContractId, state: StateId) -> &str {
    match contract_code(code, contract) {
        Some(own) => match own.states.get(state.0 as usize) {
            Some(name) => word_of(name.as_bytes()),
            None => "?",
        },
        None => "?",
    }
}

// Which object it is: its number, contract and state.
fn say_object(what: &mut Words, code: &Image, object: &Object, id: ObjectId) {
    what.put("object ");
    what.put_number(u64::from(id.0));
    what.put_with(", a `{}`", &[name_of(code, object.contract)]);
    if let Some(state) = object.state {
        what.put_with(
            " in the state `{}`",
            &[state_name(code, object.contract, state)],
        );
    }
    what.put(", ");
}

// Whether the objects of a contract are assets.
fn is_asset(code: &Image, contract: ContractId) -> bool {
    match contract_code(code, contract) {
        Some(contract) => contract.flags & 1 == 1,
        None => false,
    }
}

// Whether an object of a contract may not stand where another contract or interface is declared.
fn is_other(code: &Image, declared: ContractId, own: ContractId) -> bool {
    match contract_code(code, own) {
        Some(contract) => {
            declared.0 != own.0 && contract.implements != declared.0.saturating_add(1)
        }
        None => true,
    }
}

/// A field that refers to an object of another contract than is declared.
#[derive(Clone, Copy)]
struct Misplaced<'a> {
    // The name of the field.
    field: &'a str,
    // The contract that is declared.
    declared: ContractId,
    // That of the object, and its number.
    found: ContractId,
    object: ObjectId,
}

// The contract of the object of a number.
fn contract_of(content: &Content, id: Option<ObjectId>) -> Option<(ObjectId, ContractId)> {
    let id = id?;
    let object = content.object(id)?;
    Some((id, object.contract))
}

// The first field of an object that refers to an object of another contract.
fn first_misplaced<'a>(
    code: &Image,
    content: &Content,
    contract: &'a ContractCode,
    object: &Object,
) -> Option<Misplaced<'a>> {
    for (place, field) in contract.fields.as_slice().iter().enumerate() {
        if let TypeCode::Reference(declared, _) = field.of {
            let held = contract_of(content, object_of(available(contract, object, place)));
            if let Some((id, found)) = held {
                if is_other(code, declared, found) {
                    return Some(Misplaced {
                        field: word_of(field.name.as_bytes()),
                        declared,
                        found,
                        object: id,
                    });
                }
            }
        }
    }
    None
}

// The same, whatever the contract of the object is.
fn misplaced_in<'a>(code: &'a Image, content: &Content, object: &Object) -> Option<Misplaced<'a>> {
    first_misplaced(code, content, contract_code(code, object.contract)?, object)
}

// A field that refers to an object of another contract.
fn say_misplaced(what: &mut Words, code: &Image, field: Misplaced<'_>) {
    what.put_with("refers in its field `{}` to object ", &[field.field]);
    what.put_number(u64::from(field.object.0));
    what.put_with(", which is a `{}` and", &[name_of(code, field.found)]);
    what.put_with(" no `{}`.", &[name_of(code, field.declared)]);
}

// How it is marked.
fn marks_of(object: &Object) -> &'static str {
    match (object.shared, object.disowned) {
        (true, true) => "shared and as given up",
        (true, false) => "shared",
        (false, _) => "given up",
    }
}

// What is wrong with the owners and the marks of an object; nothing, where they are right.
fn say_owners(what: &mut Words, code: &Image, object: &Object, places: &Places<'_>) {
    let is_marked = object.shared || object.disowned;
    if places.owners > 1 {
        what.put("has ");
        what.put_number(places.owners);
        what.put(" owners, and one is the most.");
    } else if places.owners == 1 && is_marked {
        what.put_with("has an owner, and is marked as {}.", &[marks_of(object)]);
    } else if places.owners == 0 && !is_marked && is_asset(code, object.contract) {
        what.put("is an asset without an owner, and was neither shared nor given up.");
    } else if places.sharers > 0 && !object.shared {
        what.put("is shared by a place, and isn't marked as shared.");
    }
}

// What is wrong with an object that fails.
fn say_failing(
    what: &mut Words,
    code: &Image,
    content: &Content,
    object: &Object,
    places: &Places<'_>,
) {
    let before = what.as_str().len();
    say_owners(what, code, object, places);
    if what.as_str().len() > before {
        return;
    }
    match misplaced_in(code, content, object) {
        Some(field) => say_misplaced(what, code, field),
        None => what.put("is in another state than the field that owns it is declared with."),
    }
}

// A place that holds an object.
fn say_place(words: &mut Words, held: HeldBy<'_>) {
    words.put(if held.mode == Mode::Owned {
        "owned by "
    } else {
        "shared by "
    });
    match held.holder {
        Holder::Field(number, contract, field) => {
            words.put_with("the field `{}` of object ", &[field]);
            words.put_number(number as u64);
            words.put_with(", a `{}`", &[contract]);
        }
        Holder::Handle(who, name) => {
            words.put_with("the handle `{}` of ", &[name]);
            words.put_with("`{}`", &[who]);
        }
    }
}

// The places that hold an object, each on a line.
fn put_places(alloc: Global, page: &mut Page, places: &Places<'_>) -> Result<(), Memory> {
    for held in places.listed.as_slice() {
        let mut words = Words::new(alloc);
        say_place(&mut words, *held);
        let line = words.finish()?;
        page.put_words("  - ", line.as_str())?;
    }
    if places.others() > 0 {
        page.put("  - and ")?;
        page.put_number(places.others())?;
        page.put(" more")?;
        page.end_line()?;
    }
    Ok(())
}

// What is told of an object that fails.
fn put_object(
    alloc: Global,
    page: &mut Page,
    code: &Image,
    content: &Content,
    id: ObjectId,
) -> Result<(), Memory> {
    let Some(object) = content.object(id) else {
        return Ok(());
    };
    let places = places_of(alloc, code, content, id)?;
    let mut told = Explanation::new(alloc);
    say_object(&mut told.what, code, object, id);
    say_failing(&mut told.what, code, content, object, &places);
    put_parts(page, told)?;
    put_places(alloc, page, &places)
}

// The same, by the bytes of the area.
fn put_failing(alloc: Global, page: &mut Page, bytes: &[u8], id: ObjectId) -> Result<(), Memory> {
    let Some(image) = image_of(bytes) else {
        return Ok(());
    };
    let Ok(code) = decode(alloc, image) else {
        return Err(Memory);
    };
    let content = replayed(alloc, &code, bytes)?;
    put_object(alloc, page, &code, &content, id)
}

/// What is done about such a store.
const HELP: &str = "the file was changed, since no request leads there: take the last copy.";

/// Tells a person of a store that isn't at rest, by its areas: the first object that fails, in which way, and which places
/// own or share it.
pub fn explain_not_at_rest(
    alloc: Global,
    name: &str,
    areas: Areas<'_>,
    id: ObjectId,
) -> Result<String, Memory>
    ensures { IfOk result (λ page. IsPage (string_bytes page)) }
{
    let mut page = Page::new(alloc);
    put_title(&mut page, name, words_of(alloc, "601 NotAtRest"))?;
    put_failing(alloc, &mut page, areas.current(), id)?;
    page.put_words("  help: ", HELP)?;
    page.into_text()
}
