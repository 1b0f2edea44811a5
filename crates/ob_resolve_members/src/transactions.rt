//! Whether a contract has the transactions that its interface asks of it.
ghost use Rattle.std.specs.Prelude.{◌≡◌, true, false, map, option_map, slice_get, IfOk};
ghost use Rattle.std.specs.Option.{option_map_or};
ghost use Rattle.std.specs.List.{list_all};
ghost use Rattle.ob_tree.specs.NamesView.{type_of};
ghost use Rattle.ob_tree.specs.MembersView.{formal_of, member_of, contract_of};
ghost use Rattle.ob_table_spec.specs.Names.{firsts};
ghost use Rattle.ob_resolve_spec.specs.Declarations.{transactions_of};
ghost use Rattle.ob_resolve_spec.specs.Interfaces.{held_of_this, same_held, has_answer};
ghost use Rattle.ob_resolve_scope.specs.Types.{program_of};
ghost use Rattle.ob_resolve_scope.specs.Members.{transaction_of_member};
ghost use Rattle.ob_resolve_members.specs.Asked.{answers_with, has_answer_with, asked_at};

use crate::held::held_of_this;
use crate::matching::{same_params, same_result};
use crate::permissions::agree_if_known;
use ob_base::{Memory, Mode};
use ob_resolve_scope::{AroundBody, Names};
use ob_tree::{FormalNode, Member, PermNode, TypeNode};
use std::alloc::Global;

// Whether what is held of `this` is the same.
fn same_this(
    alloc: Global,
    own: &AroundBody<'_>,
    interface: &AroundBody<'_>,
    params: &[FormalNode],
    asked: &[FormalNode],
) -> Result<bool, Memory>
    ensures { IfOk result (λ same. same ≡ same_held (contract_of own.now.own)
        (held_of_this (contract_of own.now.own) (map formal_of params.now))
        (held_of_this (contract_of interface.now.own) (map formal_of asked.now))) }
{
    let unowned = PermNode::Mode(Mode::Unowned, own.node().span);
    let (entry, exit) = held_of_this(own, params, &unowned);
    let (asked_entry, asked_exit) = held_of_this(interface, asked, &unowned);
    if !agree_if_known(alloc, own, entry, asked_entry)? {
        return Ok(false);
    }
    agree_if_known(alloc, own, exit, asked_exit)
}

// Whether a member is a transaction as the interface asks, with these parameters and this result.
fn answers<'a>(
    alloc: Global,
    own: &AroundBody<'a>,
    interface: &AroundBody<'_>,
    member: &Member,
    asked: &[FormalNode],
    gives: &Option<TypeNode>,
) -> Result<bool, Memory>
    ensures { IfOk result (λ is. is ≡ option_map_or
        (answers_with (program_of own.now.program) (contract_of interface.now.own) (contract_of own.now.own)
        (map formal_of asked.now) (option_map type_of gives.now))
        (transaction_of_member (member_of member.now)) false) }
{
    let Member::Transaction {
        private,
        params,
        result,
        ..
    } = member
    else {
        return Ok(false);
    };
    if *private || !same_params(alloc, own.declared(), params.as_slice(), asked)? {
        return Ok(false);
    }
    if !same_result(alloc, own.declared(), result, gives)? {
        return Ok(false);
    }
    same_this(alloc, own, interface, params.as_slice(), asked)
}

// Whether the contract has a transaction of this name as the interface asks.
#[tactic(auto, using(crate::proofs::AskedLemmas::asking))]
fn is_answered<'a>(
    alloc: Global,
    own: &AroundBody<'a>,
    interface: &AroundBody<'_>,
    name: &[u8],
    asked: &[FormalNode],
    gives: &Option<TypeNode>,
) -> Result<bool, Memory>
    ensures { IfOk result (λ is. is ≡ has_answer_with (program_of own.now.program) (contract_of interface.now.own)
        (contract_of own.now.own) name.now (map formal_of asked.now) (option_map type_of gives.now)) }
{
    match own.transaction(name) {
        None => Ok(false),
        Some(number) => match own.transaction_node(number) {
            None => Ok(false),
            Some(member) => answers(alloc, own, interface, member, asked, gives),
        },
    }
}

// Whether the contract has what the interface's transaction of this number asks.
fn has_what_is_asked<'a>(
    alloc: Global,
    own: &AroundBody<'a>,
    interface: &AroundBody<'_>,
    number: usize,
) -> Result<bool, Memory>
    ensures { IfOk result (λ has. has ≡ option_map_or
        (has_answer (program_of own.now.program) (contract_of interface.now.own) (contract_of own.now.own))
        (slice_get (transactions_of (contract_of interface.now.own)) number) true) }
{
    match interface.transaction_node(number) {
        Some(Member::Transaction { name, .. }) => match interface.asked(number) {
            None => Ok(true),
            Some(asked) => {
                let name = name.name.as_bytes();
                is_answered(
                    alloc,
                    own,
                    interface,
                    name,
                    asked.params.as_slice(),
                    &asked.result,
                )
            }
        },
        _ => Ok(true),
    }
}

// The same, of the transaction whose name stands at this place among the interface's names.
fn has_what_is_asked_at<'a>(
    alloc: Global,
    own: &AroundBody<'a>,
    interface: &AroundBody<'_>,
    names: &Names,
    place: usize,
) -> Result<bool, Memory>
    ensures { IfOk result (λ has. has ≡ option_map_or
        (asked_at (program_of own.now.program) (contract_of interface.now.own) (contract_of own.now.own))
        (slice_get names.now place) true) }
{
    match names.number(place) {
        None => Ok(true),
        Some(number) => has_what_is_asked(alloc, own, interface, number),
    }
}

/// Whether the contract has each transaction that the interface asks of it: the first that it hasn't ends the search, so
/// that it takes time in proportion to the contract's own transactions.
#[tactic(auto, using(crate::proofs::AskedLemmas::asking))]
pub fn has_answers<'a>(
    alloc: Global,
    own: &AroundBody<'a>,
    interface: &AroundBody<'_>,
) -> Result<bool, Memory>
    ensures { IfOk result (λ has. has ≡ list_all (has_answer (program_of own.now.program)
        (contract_of interface.now.own) (contract_of own.now.own))
        (firsts (λ t. t.name.name) (transactions_of (contract_of interface.now.own)))) }
{
    let Some(members) = interface.members() else {
        return Ok(true);
    };
    let names = &members.transactions;
    for place in 0..names.len() {
        if !has_what_is_asked_at(alloc, own, interface, names, place)? {
            return Ok(false);
        }
    }
    Ok(true)
}
