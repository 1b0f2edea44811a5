//! A class table in words: how many contracts it has and each of them, and how many bodies and each of those.
use crate::bodies::put_body;
use crate::page::Page;
use ob_base::{ContractId, Name, TxId};
use ob_table::{Contract, Field, Listed, Param, ResolvedType, Signature, Table};

fn put_kind(kind: ResolvedType, page: &mut Page) {
    match kind {
        ResolvedType::Int => page.word("Int"),
        ResolvedType::Bool => page.word("Bool"),
        ResolvedType::Text => page.word("Text"),
        ResolvedType::Reference(ContractId(contract), perm) => {
            page.word("Reference");
            page.number(u64::from(contract));
            page.perm(perm);
        }
    }
}

fn put_states(states: &[Name], page: &mut Page) {
    page.number(states.len() as u64);
    for name in states {
        page.bytes(name.as_bytes());
    }
}

fn put_fields(fields: &[Field], page: &mut Page) {
    page.number(fields.len() as u64);
    for field in fields {
        page.bytes(field.name.as_bytes());
        put_kind(field.of, page);
        page.number(field.available);
    }
}

fn put_params(params: &[Param], page: &mut Page) {
    page.number(params.len() as u64);
    for param in params {
        page.bytes(param.name.as_bytes());
        put_kind(param.of, page);
        page.perm(param.exit);
    }
}

fn put_listed(listed: &[Listed], page: &mut Page) {
    page.number(listed.len() as u64);
    for one in listed {
        page.number(u64::from(one.field.0));
        page.perm(one.entry);
        page.perm(one.exit);
    }
}

fn put_signature(signature: &Signature, page: &mut Page) {
    page.bytes(signature.name.as_bytes());
    page.truth(signature.private);
    page.perm(signature.entry);
    page.perm(signature.exit);
    match signature.result {
        Some(kind) => put_kind(kind, page),
        None => page.word("none"),
    }
    put_params(signature.params.as_slice(), page);
    put_listed(signature.listed.as_slice(), page);
}

fn put_head(contract: &Contract, page: &mut Page) {
    page.bytes(contract.name.as_bytes());
    page.truth(contract.asset);
    page.truth(contract.main);
    page.truth(contract.interface);
    page.number_or_none(match contract.implements {
        Some(ContractId(number)) => Some(number),
        None => None,
    });
    page.number_or_none(match contract.constructor {
        Some(TxId(number)) => Some(number),
        None => None,
    });
}

fn put_contract(contract: &Contract, page: &mut Page) {
    put_head(contract, page);
    put_states(contract.states.as_slice(), page);
    put_fields(contract.fields.as_slice(), page);
    let signatures = contract.transactions.as_slice();
    page.number(signatures.len() as u64);
    for signature in signatures {
        put_signature(signature, page);
    }
}

/// Puts a class table.
pub fn put_table(table: &Table, page: &mut Page) {
    page.number(table.contracts().len() as u64);
    for contract in table.contracts() {
        put_contract(contract, page);
    }
    page.number(table.bodies().len() as u64);
    for body in table.bodies() {
        put_body(body, page);
    }
}
