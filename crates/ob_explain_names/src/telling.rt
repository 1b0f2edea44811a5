//! Which explanation a fault of names and types has.

use crate::calls::explain_count;
use crate::declarations::{
    explain_exit, explain_field, explain_limit, explain_main, explain_owner, explain_state,
};
use crate::duplicates::explain_duplicate;
use crate::interfaces::explain_interface;
use crate::mismatches::{explain_mismatch, put_returns};
use crate::naming::{explain_kind, explain_unknown};
use crate::near::Near;
use crate::sites::{Site, View, around_at, ends_with_while, number_at, number_of_fault};
use crate::types::{
    explain_argument_count, explain_bound, explain_bound_name, explain_instances, is_bound,
};
use crate::within::Within;
use ob_base::{
    ARG_COUNT, ASSIGN_PARAMETER, BAD_EXIT, BOUND, DUPLICATE, INTERFACE_MISMATCH, LIMIT,
    MISSING_RETURN, Memory, NO_STATE, NON_ASSET_OWNER, NOT_FIELD, PARAM_COUNT, ProgramFault,
    TWO_MAINS, TYPE_MISMATCH, UNKNOWN_NAME, UNREACHABLE, WRONG_KIND,
};
use ob_explain_page::{Explanation, word_of};
use ob_lexer::Token;
use ob_resolve_scope::Declared;
use ob_tree::{ContractNode, Tree};
use std::alloc::Global;

// The end of a body with a result.
fn explain_end(told: &mut Explanation, site: &Site<'_>) {
    put_returns(&mut told.what, site);
    told.what
        .put(", and this end can be reached without a `return`");
    told.help.put(
        "end each way through it with `return ..;` or `revert;`, each branch of an `if` too.",
    );
    if ends_with_while(site.member) {
        told.note.put("what follows a `while` can be reached, whatever its condition is.");
    }
}

// A statement behind one that doesn't go on.
fn explain_unreachable(told: &mut Explanation) {
    told.what.put(
        "this statement is never reached: the one before it returns or reverts on each way",
    );
    told.help.put("leave it out, or move it before that one.");
}

// A parameter that is assigned.
fn explain_assigned(told: &mut Explanation, name: &str) {
    told.what.put_with(
        "`{}` is a parameter, and parameters aren't assigned",
        &[name],
    );
    told.help.put("declare a local variable with its value, and assign that.");
}

// A fault of the order of statements.
fn explain_statement(told: &mut Explanation, site: &Site<'_>, number: u16) {
    match number {
        MISSING_RETURN => explain_end(told, site),
        UNREACHABLE => explain_unreachable(told),
        ASSIGN_PARAMETER => explain_assigned(told, site.near.word()),
        _ => {}
    }
}

// A name that is nothing visible, or a bound of another name.
fn explain_name(told: &mut Explanation, site: &Site<'_>) {
    if is_bound(&site.near) {
        explain_bound_name(told, site);
    } else {
        explain_unknown(told, site);
    }
}

// A fault that only type parameters and type arguments have.
fn explain_generic(told: &mut Explanation, site: &Site<'_>, number: u16) {
    match number {
        BOUND => explain_bound(told, site),
        PARAM_COUNT => explain_argument_count(told, site),
        _ => {}
    }
}

fn explain_at(told: &mut Explanation, site: &Site<'_>, fault: ProgramFault) {
    let place = fault.span.start;
    match fault.number {
        UNKNOWN_NAME => explain_name(told, site),
        DUPLICATE => explain_duplicate(told, site, place),
        WRONG_KIND => explain_kind(told, site),
        NO_STATE => explain_state(told, site),
        NOT_FIELD => explain_field(told, site),
        TYPE_MISMATCH => explain_mismatch(told, site, place),
        ARG_COUNT => explain_count(told, site, place),
        BAD_EXIT => explain_exit(told, &site.near),
        NON_ASSET_OWNER => explain_owner(told, site),
        INTERFACE_MISMATCH => explain_interface(told, site),
        LIMIT => explain_limit(told, site, place),
        TWO_MAINS => explain_main(told, site),
        number => explain_statement(told, site, number),
    }
}

// What is said at a site.
fn explain_site(alloc: Global, site: &Site<'_>, fault: ProgramFault) -> Explanation {
    let mut told = Explanation::new(alloc);
    if fault.number < BOUND {
        explain_at(&mut told, site, fault);
    } else {
        explain_generic(&mut told, site, fault.number);
    }
    if let Some(within) = &site.within {
        within.put_around(alloc, &mut told);
    }
    told
}

// A fault in the contract of this number.
fn explain_within(
    alloc: Global,
    view: View<'_>,
    declared: &Declared<'_>,
    own: usize,
    fault: ProgramFault,
) -> Result<Explanation, Memory> {
    match around_at(declared, own, fault.span.start) {
        Some(around) => {
            let site = Site::at(alloc, view, around, fault.span.start)?;
            Ok(explain_site(alloc, &site, fault))
        }
        None => Ok(Explanation::new(alloc)),
    }
}

// The instance of this printed name.
fn instance_named<'a>(written: &'a Tree, name: Option<&'a str>) -> Option<Within<'a>> {
    Within::new(written, name?)
}

// The printed name of the contract of this number.
fn name_at(nodes: &[ContractNode], own: usize) -> Option<&str> {
    Some(word_of(nodes.get(own)?.name.as_bytes()))
}

// A fault of a tree of instances whose contracts declare this.
fn explain_declared(
    alloc: Global,
    near: Near<'_>,
    written: &Tree,
    declared: &Declared<'_>,
    fault: ProgramFault,
) -> Result<Explanation, Memory> {
    let own = number_of_fault(alloc, declared, fault)?;
    let view = View {
        near,
        written,
        within: instance_named(written, name_at(declared.types().nodes(), own)),
    };
    explain_within(alloc, view, declared, own, fault)
}

/// Explains a fault of names and types in the tree of the instances of a program, with the tree as it is written.
pub fn explain_names(
    alloc: Global,
    text: &[u8],
    tokens: &[Token],
    written: &Tree,
    made: &Tree,
    fault: ProgramFault,
) -> Result<Explanation, Memory> {
    let near = Near::new(text, tokens, fault.span.start);
    let declared = Declared::new(alloc, made.contracts.as_slice())?;
    explain_declared(alloc, near, written, &declared, fault)
}

/// Explains a fault of type parameters and type arguments, in the instance of this printed name, if it is in one.
pub fn explain_types(
    alloc: Global,
    text: &[u8],
    tokens: &[Token],
    written: &Tree,
    instance: Option<&str>,
    fault: ProgramFault,
) -> Result<Explanation, Memory> {
    let view = View {
        near: Near::new(text, tokens, fault.span.start),
        written,
        within: instance_named(written, instance),
    };
    let declared = Declared::new(alloc, written.contracts.as_slice())?;
    let own = number_at(written.contracts.as_slice(), fault.span.start);
    explain_within(alloc, view, &declared, own, fault)
}

/// Explains an instance too many, or one with a name too long, that is needed in the instance of this printed name, if in one.
pub fn explain_too_many(
    alloc: Global,
    written: &Tree,
    instance: Option<&str>,
    is_long: bool,
) -> Explanation {
    let mut told = Explanation::new(alloc);
    if let Some(within) = &instance_named(written, instance) {
        within.put(&mut told.within);
    }
    explain_instances(&mut told, is_long);
    told
}
