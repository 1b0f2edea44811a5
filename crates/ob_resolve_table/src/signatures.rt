//! Transactions and constructors as they stand in the table, without their bodies (the Obsidian language documentation,
//! "Transactions").
ghost use Rattle.std.specs.Prelude.{◌≡◌, false, Some, None, [], ◌++◌, map, flat_map, IfOk, OnOk};
ghost use Rattle.ob_base.specs.declared.permission.Perm.{Perm};
ghost use Rattle.ob_tree.specs.NamesView.{type_of};
ghost use Rattle.ob_tree.specs.MembersView.{formal_of, listed_of, member_of, contract_of};
ghost use Rattle.ob_perm.specs.Permissions.{unowned};
ghost use Rattle.ob_perm.specs.Masks.{perm_of};
ghost use Rattle.ob_resolve_spec.specs.Declarations.{params_of, transactions_of_member, constructor_of};
ghost use Rattle.ob_resolve_spec.specs.Numbers.{perm_on};
ghost use Rattle.ob_resolve_spec.specs.TableOf.{resolved_type, exit_of_type, param_in_table, listed_in_table, perms_by_type};
ghost use Rattle.ob_resolve_spec.specs.TableOf.{perms_of_this, transaction_in_table, constructor_in_table, signatures_of};
ghost use Rattle.ob_resolve_scope.specs.Types.{program_of};

use crate::constructors::written_constructor;
use crate::kinds::{
    UNOWNED, exit_of_type, perm_of_ref, resolved_type, table_kind_if, table_name, written_at_end,
};
use ob_base::{Duplicate, Items, Memory, Mode, Perm, Text};
use ob_resolve_bodies::{field_id, own_perm_on};
use ob_resolve_scope::{AroundBody, Types};
use ob_table::{Listed, Param, Signature};
use ob_tree::{FormalNode, ListedNode, Member, PermNode, Subject, TypeNode};
use std::alloc::Global;

// A parameter of this name.
fn table_param(
    types: &Types<'_>,
    name: &Text,
    param: &FormalNode,
    alloc: Global,
) -> Result<Param, Memory>
    ensures { IfOk result (λ p. p ≡ record {
      name = name.now;
      of = resolved_type (program_of types.now) (type_of param.now.of);
      exit = exit_of_type (program_of types.now) (type_of param.now.of) param.now.exit;
    }) }
{
    let of = resolved_type(types, &param.of)?;
    let exit = exit_of_type(types, &param.of, &param.exit)?;
    Ok(Param {
        name: table_name(name, alloc)?,
        of,
        exit,
    })
}

/// The parameters beside `this`.
#[tactic(auto, using(crate::proofs::TableLemmas::turns))]
pub fn table_params(
    types: &Types<'_>,
    params: &[FormalNode],
    alloc: Global,
) -> Result<Items<Param>, Memory>
    ensures { IfOk result (λ ps. ps ≡ map (param_in_table (program_of types.now))
        (params_of (map formal_of params.now))) }
{
    let mut made = Items::new(alloc);
    for param in params {
        if let Subject::Name(name) = &param.name {
            made.push(table_param(types, &name.name, param, alloc)?)?;
        }
    }
    Ok(made)
}

// A field that a transaction lists.
fn table_listed(around: &AroundBody<'_>, listed: &ListedNode) -> Result<Listed, Memory>
    ensures { IfOk result (λ l. l ≡ listed_in_table (program_of around.now.program) (contract_of around.now.own)
        (listed_of listed.now)) }
{
    let types = around.declared().types();
    let exit = written_at_end(&listed.of.perm, &listed.exit);
    Ok(Listed {
        field: field_id(around, &listed.name)?,
        entry: perm_of_ref(types, &listed.of, &listed.of.perm)?,
        exit: perm_of_ref(types, &listed.of, exit)?,
    })
}

// The fields that a transaction lists.
#[tactic(auto, using(crate::proofs::TableLemmas::listed_turn))]
fn all_listed(
    around: &AroundBody<'_>,
    listed: &[ListedNode],
    alloc: Global,
) -> Result<Items<Listed>, Memory>
    ensures { IfOk result (λ ls. ls ≡ map (listed_in_table (program_of around.now.program) (contract_of around.now.own))
        (map listed_of listed.now)) }
{
    let mut made = Items::new(alloc);
    for one in listed {
        made.push(table_listed(around, one)?)?;
    }
    Ok(made)
}

// The permission of `this` at the start and at the end, where its type is written.
fn perms_by_type(
    around: &AroundBody<'_>,
    of: &TypeNode,
    exit: &Option<PermNode>,
) -> Result<(Perm, Perm), Memory>
    ensures { IfOk result (λ perms. perms ≡ perms_by_type (contract_of around.now.own) (type_of of.now) exit.now) }
{
    match of {
        TypeNode::Int(_) | TypeNode::Bool(_) | TypeNode::Text(_) => Ok((UNOWNED, UNOWNED)),
        TypeNode::Reference(of) => {
            let entry = own_perm_on(around, &of.perm)?;
            Ok((entry, own_perm_on(around, written_at_end(&of.perm, exit))?))
        }
    }
}

// The permission of `this` at the start and at the end: Unowned where the first parameter isn't `this`.
fn perms_of_this(around: &AroundBody<'_>, params: &[FormalNode]) -> Result<(Perm, Perm), Memory>
    ensures { IfOk result (λ perms. perms ≡ perms_of_this (contract_of around.now.own) (map formal_of params.now)) }
{
    match params {
        [] => Ok((UNOWNED, UNOWNED)),
        [first, ..] => match &first.name {
            Subject::This(_) => perms_by_type(around, &first.of, &first.exit),
            Subject::Name(_) => Ok((UNOWNED, UNOWNED)),
        },
    }
}

// The transaction that a member is.
fn add_transaction(
    around: &AroundBody<'_>,
    member: &Member,
    signatures: &mut Items<Signature>,
    alloc: Global,
) -> Result<(), Memory>
    ensures { OnOk result (signatures.new ≡ signatures.old
        ++ map (transaction_in_table (program_of around.now.program) (contract_of around.now.own))
        (transactions_of_member (member_of member.now))) }
{
    match member {
        Member::Transaction {
            private,
            listed,
            name,
            params,
            result,
            ..
        } => {
            let types = around.declared().types();
            let (entry, exit) = perms_of_this(around, params.as_slice())?;
            let result = table_kind_if(types, result)?;
            match (
                name.name.copy(alloc),
                table_params(types, params.as_slice(), alloc),
                all_listed(around, listed.as_slice(), alloc),
            ) {
                (Ok(name), Ok(params), Ok(listed)) => Ok(signatures.push(Signature {
                    name,
                    private: *private,
                    entry,
                    exit,
                    params,
                    result,
                    listed,
                })?),
                _ => Err(Memory),
            }
        }
        _ => Ok(()),
    }
}

// The transactions among these members.
#[tactic(auto, using(crate::proofs::TableLemmas::transactions_turn))]
fn add_transactions(
    around: &AroundBody<'_>,
    members: &[Member],
    signatures: &mut Items<Signature>,
    alloc: Global,
) -> Result<(), Memory>
    ensures { OnOk result (signatures.new ≡ signatures.old
        ++ map (transaction_in_table (program_of around.now.program) (contract_of around.now.own))
        (flat_map transactions_of_member (map member_of members.now))) }
{
    for member in members {
        add_transaction(around, member, signatures, alloc)?;
    }
    Ok(())
}

// The empty text, which is the name of each constructor.
fn no_name(alloc: Global) -> Result<Text, Memory>
    ensures { IfOk result (λ name. name ≡ []) }
{
    match Text::of(alloc, &[]) {
        Ok(name) => Ok(name),
        Err(_) => Err(Memory),
    }
}

// A constructor with these parts.
fn constructor_with(
    around: &AroundBody<'_>,
    perm: &PermNode,
    params: &[FormalNode],
    alloc: Global,
) -> Result<Signature, Memory>
    ensures { IfOk result (λ s. s ≡ record {
      name = [];
      private = false;
      entry = perm_of unowned;
      exit = perm_on (Some (contract_of around.now.own)) perm.now;
      params = map (param_in_table (program_of around.now.program)) (params_of (map formal_of params.now));
      result = None;
      listed = [];
    }) }
{
    let exit = own_perm_on(around, perm)?;
    let params = table_params(around.declared().types(), params, alloc)?;
    Ok(Signature {
        name: no_name(alloc)?,
        private: false,
        entry: UNOWNED,
        exit,
        params,
        result: None,
        listed: Items::new(alloc),
    })
}

// The constructor of the contract around, written or default.
fn table_constructor(around: &AroundBody<'_>, alloc: Global) -> Result<Signature, Memory>
    ensures { IfOk result (λ s. s ≡ constructor_in_table (program_of around.now.program) (contract_of around.now.own)
        (constructor_of (contract_of around.now.own))) }
{
    match written_constructor(around) {
        Some(written) => constructor_with(around, written.perm, written.params, alloc),
        None => {
            let perm = PermNode::Mode(Mode::Owned, around.node().span);
            constructor_with(around, &perm, &[], alloc)
        }
    }
}

/// The constructor of the contract around, unless it is an interface, and its transactions.
pub fn signatures_of(around: &AroundBody<'_>, alloc: Global) -> Result<Items<Signature>, Memory>
    ensures { IfOk result (λ ss. ss ≡ signatures_of (program_of around.now.program) (contract_of around.now.own)) }
{
    let node = around.node();
    let mut signatures = Items::new(alloc);
    if !node.interface {
        signatures.push(table_constructor(around, alloc)?)?;
    }
    add_transactions(around, node.members.as_slice(), &mut signatures, alloc)?;
    Ok(signatures)
}
