//! Second things of one name.

use crate::interfaces::same_type;
use crate::near::Near;
use crate::sites::Site;
use crate::within::base_of;
use ob_base::Span;
use ob_explain_page::{Explanation, Words, word_of};
use ob_tree::{ContractNode, FieldNode, Member, NamePart, TypeNode};

/// The first thing of a name that stands before a place.
#[derive(Drop)]
struct Earlier<'a> {
    name: &'a str,
    place: u32,
    found: Option<(&'static str, Span)>,
}

impl Earlier<'_> {
    fn see(&mut self, thing: &'static str, name: &[u8], span: Span) {
        if self.found.is_none() && span.start < self.place && word_of(name) == self.name {
            self.found = Some((thing, span));
        }
    }

    fn see_part(&mut self, thing: &'static str, part: &NamePart) {
        self.see(thing, part.name.as_bytes(), part.span);
    }

    fn see_fields(&mut self, fields: &[FieldNode]) {
        for field in fields {
            self.see_part("a field", &field.name);
        }
    }

    fn see_member(&mut self, member: &Member) {
        match member {
            Member::State { name, fields, .. } => {
                self.see_part("a state", name);
                self.see_fields(fields.as_slice());
            }
            Member::Field(field) => self.see_part("a field", &field.name),
            Member::Transaction { name, .. } => self.see_part("a transaction", name),
            Member::Constructor { of, .. } => {
                let name = base_of(word_of(of.name.as_bytes()));
                self.see("a constructor", name.as_bytes(), of.span);
            }
        }
    }

    fn see_members(&mut self, members: &[Member]) {
        for member in members {
            self.see_member(member);
        }
    }

    fn see_variables(&mut self, variables: &[&NamePart]) {
        for part in variables {
            self.see_part("a parameter or variable", part);
        }
    }

    fn see_contracts(&mut self, nodes: &[ContractNode]) {
        for node in nodes {
            self.see("a contract or interface", node.name.as_bytes(), node.span);
        }
    }
}

// The first of two things of one name.
fn first_of_name(site: &Site<'_>, name: &str, place: u32) -> Option<(&'static str, Span)> {
    let mut first = Earlier {
        name,
        place,
        found: None,
    };
    first.see_variables(site.variables.as_slice());
    first.see_members(site.around.node().members.as_slice());
    first.see_contracts(site.types().nodes());
    first.found
}

// The place of a type.
fn span_of_type(of: &TypeNode) -> Span {
    match of {
        TypeNode::Int(span) | TypeNode::Bool(span) | TypeNode::Text(span) => *span,
        TypeNode::Reference(of) => of.of.span,
    }
}

// The type of a field as it is written.
fn type_of<'a>(near: &Near<'a>, field: &FieldNode) -> &'a str {
    near.between(span_of_type(&field.of), field.name.span.start)
        .trim_end()
}

fn has_name(field: &FieldNode, name: &str) -> bool {
    word_of(field.name.name.as_bytes()) == name
}

// How many of some fields have a name.
fn count_named(fields: &[FieldNode], name: &str) -> usize {
    let mut count: usize = 0;
    for field in fields {
        if has_name(field, name) {
            count = count.saturating_add(1);
        }
    }
    count
}

// The field whose name stands at a place, among some.
fn field_among(fields: &[FieldNode], place: u32) -> Option<&FieldNode> {
    for field in fields {
        if field.name.span.start == place {
            return Some(field);
        }
    }
    None
}

// The field of a state whose name stands at a place.
fn field_at(members: &[Member], place: u32) -> Option<&FieldNode> {
    for member in members {
        if let Member::State { fields, .. } = member {
            if let Some(field) = field_among(fields.as_slice(), place) {
                return Some(field);
            }
        }
    }
    None
}

// Whether each of some fields that have a name has this type too.
fn all_are(fields: &[FieldNode], name: &str, of: &TypeNode) -> bool {
    for field in fields {
        if has_name(field, name) && !same_type(&field.of, of, false) {
            return false;
        }
    }
    true
}

// Whether a member has a field of a name at most once, in a state and with this type.
fn is_alike(member: &Member, name: &str, of: &TypeNode) -> bool {
    match member {
        Member::State { fields, .. } => {
            count_named(fields.as_slice(), name) < 2 && all_are(fields.as_slice(), name, of)
        }
        Member::Field(field) => !has_name(field, name),
        _ => true,
    }
}

// Whether all fields of a name stand in states, one in each, and have this type.
fn are_alike(members: &[Member], name: &str, of: &TypeNode) -> bool {
    for member in members {
        if !is_alike(member, name, of) {
            return false;
        }
    }
    true
}

// Puts a state that has a field of a name, behind others.
fn put_state_with(words: &mut Words, state: &NamePart, lead: &str) {
    words.put(lead);
    words.put(word_of(state.name.as_bytes()));
}

// Puts the states that have a field of a name.
fn put_states_with(words: &mut Words, members: &[Member], name: &str) {
    let mut lead = "";
    for member in members {
        if let Member::State {
            name: state,
            fields,
            ..
        } = member
        {
            if count_named(fields.as_slice(), name) > 0 {
                put_state_with(words, state, lead);
                lead = ", ";
            }
        }
    }
}

// A field that stands in several states.
fn put_available(words: &mut Words, members: &[Member], name: &str, of: &str) {
    words.put_with(
        "declare it once, outside of the states: `{} {} available in ",
        &[of, name],
    );
    put_states_with(words, members, name);
    words.put(";`.");
}

/// What is said of two things of one name.
const OTHER_NAME: &str = "give one of the two another name: none hides another.";

// A second field of a name, in a state.
fn put_field_help(words: &mut Words, site: &Site<'_>, name: &str, field: &FieldNode) {
    let members = site.around.node().members.as_slice();
    if are_alike(members, name, &field.of) {
        put_available(words, members, name, type_of(&site.near, field));
    } else {
        words.put(OTHER_NAME);
    }
}

// A second thing of a name at a place.
fn put_help_at(words: &mut Words, site: &Site<'_>, name: &str, place: u32) {
    match field_at(site.around.node().members.as_slice(), place) {
        Some(field) => put_field_help(words, site, name, field),
        None => words.put(OTHER_NAME),
    }
}

// A second constructor.
fn put_constructor_help(words: &mut Words, own: &str) {
    words.put_with(
        "a contract has one: a transaction makes objects otherwise, as in `transaction make(..) returns {}@Owned { return new {}(..); }`.",
        &[own, own],
    );
}

// A field that is set twice in one change of state.
fn explain_set_twice(told: &mut Explanation, name: &str) {
    told.what.put_with(
        "the field `{}` is set a second time in one change of state",
        &[name],
    );
    told.help.put("leave one of the two out.");
}

// A name that is a thing's already, which stands at a place.
fn put_already(words: &mut Words, name: &str, thing: &str, span: Span) {
    words.put_with("`{}` is {} already, on line ", &[name, thing]);
    words.put_number(u64::from(span.line));
}

// Whether the name of a constructor stands at a place.
fn is_constructor_at(node: &ContractNode, place: u32) -> bool {
    for member in node.members.as_slice() {
        if let Member::Constructor { of, .. } = member {
            if of.span.start == place {
                return true;
            }
        }
    }
    false
}

// A name that is given twice.
fn explain_given_twice(told: &mut Explanation, site: &Site<'_>, name: &str, place: u32) {
    match first_of_name(site, name, place) {
        Some((thing, span)) => put_already(&mut told.what, name, thing, span),
        None => told.what.put_with("`{}` is given a second time", &[name]),
    }
    let node = site.around.node();
    if is_constructor_at(node, place) {
        put_constructor_help(&mut told.help, word_of(node.name.as_bytes()));
    } else {
        put_help_at(&mut told.help, site, name, place);
    }
}

// Whether the name at a place is that of a field in a change of state.
fn is_set(site: &Site<'_>) -> bool {
    site.statement.is_some()
        && site.near.ahead(1) == "="
        && ["(", ",", "::"].contains(&site.near.back(1))
}

// Whether the name at a place stands among the fields that a private transaction lists.
fn is_listed(near: &Near<'_>) -> bool {
    for count in 1..200 {
        if near.back(count) == "(" {
            return near.back(count + 1) == "private";
        }
    }
    false
}

// A field that is listed twice.
fn explain_listed_twice(told: &mut Explanation, name: &str) {
    told.what
        .put_with("the field `{}` is listed a second time", &[name]);
    told.help.put("leave one of the two out.");
}

/// A second thing of one name.
pub fn explain_duplicate(told: &mut Explanation, site: &Site<'_>, place: u32) {
    let name = site.near.word();
    if is_set(site) {
        explain_set_twice(told, name);
    } else if is_listed(&site.near) {
        explain_listed_twice(told, name);
    } else {
        explain_given_twice(told, site, name, place);
    }
}
