//! Contracts, interfaces and whole programs.
ghost use Rattle.std.specs.Prelude.{◌≡◌, map, option_map, OnOk, IfOk, string_bytes};
ghost use Rattle.std.specs.List.{flat_map};
ghost use Rattle.ob_tree.specs.NamesView.{named_of};
ghost use Rattle.ob_tree.specs.MembersView.{member_of, contract_of, tree_of};
ghost use Rattle.ob_tree_print.specs.Layout.{layout};
ghost use Rattle.ob_tree_print.specs.MemberTokens.{tokens_of_member, tokens_of_members, tokens_of_bound, tokens_of_parameter, tokens_of_generic, tokens_of_implements, tokens_of_kind, tokens_of_kinds, tokens_of_contract, tokens_of};
ghost use Rattle.ob_tree_print.specs.Written.{written};

use crate::member::put_member;
use crate::name::put_named;
use crate::token::{put_name, put_part, put_sign, put_word, put_word_if};
use ob_base::{Memory, Mode};
use ob_lexer::{Sign, Word};
use ob_tree::{ContractNode, Member, NamePart, NamedNode, ParamNode, Tree, word_of_mode};
use std::alloc::Global;

#[tactic(auto, using(crate::specs::Written::writes))]
fn put_bound(out: &mut String, bound: &Option<(NamePart, Mode)>) -> Result<(), Memory>
    ensures { OnOk result (string_bytes out.new ≡ written (string_bytes out.old) (tokens_of_bound bound.now)) }
{
    match bound {
        None => Ok(()),
        Some((name, mode)) => {
            put_word(out, Word::Where)?;
            put_part(out, name)?;
            put_word(out, Word::Is)?;
            put_word(out, word_of_mode(*mode))
        }
    }
}

#[tactic(auto, using(crate::specs::Written::writes), unfolding(crate::specs::MemberTokens::tokens_of_parameter))]
fn put_parameter(out: &mut String, param: &ParamNode) -> Result<(), Memory>
    ensures { OnOk result (string_bytes out.new ≡ written (string_bytes out.old) (tokens_of_parameter param.now)) }
{
    put_word_if(out, param.asset, Word::Asset)?;
    put_part(out, &param.name)?;
    put_sign(out, Sign::At)?;
    put_part(out, &param.perm)
}

#[tactic(auto, using(crate::specs::Written::writes))]
fn put_generic(out: &mut String, param: &Option<ParamNode>) -> Result<(), Memory>
    ensures { OnOk result (string_bytes out.new ≡ written (string_bytes out.old) (tokens_of_generic param.now)) }
{
    match param {
        None => Ok(()),
        Some(param) => {
            put_sign(out, Sign::OpenBracket)?;
            put_parameter(out, param)?;
            put_bound(out, &param.bound)?;
            put_sign(out, Sign::CloseBracket)
        }
    }
}

#[tactic(auto, using(crate::specs::Written::writes))]
fn put_implements(out: &mut String, implements: &Option<NamedNode>) -> Result<(), Memory>
    ensures { OnOk result (string_bytes out.new ≡ written (string_bytes out.old) (tokens_of_implements (option_map named_of implements.now))) }
{
    match implements {
        None => Ok(()),
        Some(of) => {
            put_word(out, Word::Implements)?;
            put_named(of, out)
        }
    }
}

#[tactic(auto, using(crate::specs::Written::writes))]
fn put_kind(out: &mut String, interface: bool) -> Result<(), Memory>
    ensures { OnOk result (string_bytes out.new ≡ written (string_bytes out.old) (tokens_of_kind interface)) }
{
    if interface {
        put_word(out, Word::Interface)
    } else {
        put_word(out, Word::Contract)
    }
}

#[tactic(auto, using(crate::specs::Written::writes), unfolding(crate::specs::MemberTokens::tokens_of_kinds))]
fn put_kinds(out: &mut String, contract: &ContractNode) -> Result<(), Memory>
    ensures { OnOk result (string_bytes out.new ≡ written (string_bytes out.old) (tokens_of_kinds (contract_of contract.now))) }
{
    put_word_if(out, contract.main, Word::Main)?;
    put_word_if(out, contract.asset, Word::Asset)?;
    put_kind(out, contract.interface)
}

#[tactic(auto, using(crate::specs::Written::turns))]
fn put_each_member(out: &mut String, members: &[Member]) -> Result<(), Memory>
    ensures { OnOk result (string_bytes out.new ≡ written (string_bytes out.old) (flat_map tokens_of_member (map member_of members.now))) }
{
    for member in members {
        put_member(out, member)?;
    }
    Ok(())
}

#[tactic(auto, using(crate::specs::Written::writes), unfolding(crate::specs::MemberTokens::tokens_of_members))]
fn put_members(out: &mut String, members: &[Member]) -> Result<(), Memory>
    ensures { OnOk result (string_bytes out.new ≡ written (string_bytes out.old) (tokens_of_members (map member_of members.now))) }
{
    put_sign(out, Sign::OpenBrace)?;
    put_each_member(out, members)?;
    put_sign(out, Sign::CloseBrace)
}

#[tactic(auto, using(crate::specs::Written::writes))]
fn put_contract(out: &mut String, contract: &ContractNode) -> Result<(), Memory>
    ensures { OnOk result (string_bytes out.new ≡ written (string_bytes out.old) (tokens_of_contract (contract_of contract.now))) }
{
    put_kinds(out, contract)?;
    put_name(out, &contract.name)?;
    put_generic(out, &contract.param)?;
    put_implements(out, &contract.implements)?;
    put_members(out, contract.members.as_slice())
}

#[tactic(auto, using(crate::specs::Written::turns))]
fn put_contracts(out: &mut String, contracts: &[ContractNode]) -> Result<(), Memory>
    ensures { OnOk result (string_bytes out.new ≡ written (string_bytes out.old) (tokens_of (map contract_of contracts.now))) }
{
    for contract in contracts {
        put_contract(out, contract)?;
    }
    Ok(())
}

/// The program in the canonical layout: its tokens in order, a newline after each `;`, `{` and `}`, and a space after
/// each other token.
#[tactic(auto, using(crate::specs::Written::starts))]
pub fn print(alloc: Global, tree: &Tree) -> Result<String, Memory>
    ensures { IfOk result (λ text. string_bytes text ≡ layout (tokens_of (tree_of tree.now))) }
{
    let mut text = String::new(alloc);
    put_contracts(&mut text, tree.contracts.as_slice())?;
    Ok(text)
}
