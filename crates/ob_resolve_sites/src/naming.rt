//! Names: of what a place needs, of states and fields, and of what is declared.
ghost use Rattle.ob_base.specs.Faults as faults;
ghost use Rattle.std.specs.Prelude.{◌≡◌, [], ◌∷◌, ◌++◌, ◌&&◌, false, not, map, is_some, option_map};
ghost use Rattle.std.specs.Option.{option_map_or, option_copied};
ghost use Rattle.ob_tree.specs.NamesView.{named_of};
ghost use Rattle.ob_tree.specs.MembersView.{contract_of};
ghost use Rattle.ob_table_spec.specs.Names.{is_among};
ghost use Rattle.ob_resolve_spec.specs.Declarations.{part_of_named, declared_contract, state_names, field_names};
ghost use Rattle.ob_resolve_spec.specs.Kinds.{contract_of_name};
ghost use Rattle.ob_resolve_spec.specs.Visible.{means, a_contract, an_interface, an_object, itself, a_variable, a_transaction, a_public_transaction, is_visible, visible_after_dot};
ghost use Rattle.ob_resolve_spec.specs.Scopes.{visible_at};
ghost use Rattle.ob_resolve_spec.specs.Sites.{declares_name, names_thing, names_state, names_field};
ghost use Rattle.ob_resolve_spec.specs.TypeSites.{perm_sites};
ghost use Rattle.ob_resolve_scope.specs.Types.{program_of};
ghost use Rattle.ob_resolve_scope.specs.Around.{around_of};
ghost use Rattle.ob_resolve_sites.specs.Noted.{noted_if, noted_at, noted, names_in};

use crate::least::{Least, note_if};
use ob_base::{DUPLICATE, NO_STATE, NOT_FIELD, Span, UNKNOWN_NAME, WRONG_KIND};
use ob_resolve_scope::{AroundBody, Declared, Names, Scope, Types};
use ob_tree::{ContractNode, NamePart, NamedNode, PermNode};

#[tactic(auto, using(crate::proofs::NamingLemmas::naming))]
fn is_local(scope: &Scope, name: &[u8]) -> bool
    ensures { result ≡ is_among name.now (map (λ v. v.name) scope.now.variables) }
{
    scope.variable(name).is_some()
}

#[tactic(auto, using(crate::proofs::NamingLemmas::naming))]
fn is_visible(around: &AroundBody<'_>, scope: &Scope, name: &[u8]) -> bool
    ensures { result ≡ is_visible (visible_at (around_of around.now) scope.now) name.now }
{
    around.declared().types().find(name).is_some()
        || around.state(name).is_some()
        || around.field(name).is_some()
        || around.transaction(name).is_some()
        || is_local(scope, name)
}

fn note_need(least: &mut Least, visible: bool, means: bool, span: Span)
    ensures { least.new ≡ noted_if (noted_if least.old (not visible) faults.unknown_name span) (visible && not means) faults.wrong_kind span }
{
    note_if(least, !visible, UNKNOWN_NAME, span);
    note_if(least, visible && !means, WRONG_KIND, span);
}

/// A contract or an interface is needed. Among members, outside of bodies, the scope is an empty one.
#[tactic(auto, using(crate::proofs::NamingLemmas::naming))]
pub fn note_contract(least: &mut Least, around: &AroundBody<'_>, scope: &Scope, of: &NamedNode)
    ensures { least.new ≡ noted_at least.old
        (names_thing a_contract (visible_at (around_of around.now) scope.now) (part_of_named (named_of of.now))) }
{
    let name = of.name.as_bytes();
    let means = around.declared().types().find(name).is_some();
    note_need(least, is_visible(around, scope, name), means, of.span);
}

#[tactic(auto, using(crate::proofs::NamingLemmas::naming))]
fn contract_of_name<'a>(types: &Types<'a>, name: &[u8]) -> Option<&'a ContractNode>
    ensures { option_map contract_of (option_copied result) ≡ contract_of_name (program_of types.now) name.now }
{
    let number = types.find(name)?;
    types.node(number)
}

#[tactic(auto, using(crate::proofs::NamingLemmas::naming))]
fn is_interface(types: &Types<'_>, name: &[u8]) -> bool
    ensures { result ≡ option_map_or (λ c. c.interface) (contract_of_name (program_of types.now) name.now) false }
{
    match contract_of_name(types, name) {
        Some(node) => node.interface,
        None => false,
    }
}

#[tactic(auto, using(crate::proofs::NamingLemmas::naming))]
fn has_objects(types: &Types<'_>, name: &[u8]) -> bool
    ensures { result ≡ option_map_or (λ c. not c.interface) (contract_of_name (program_of types.now) name.now) false }
{
    match contract_of_name(types, name) {
        Some(node) => !node.interface,
        None => false,
    }
}

/// An interface is needed, after `implements`.
#[tactic(auto, using(crate::proofs::NamingLemmas::naming))]
pub fn note_interface(least: &mut Least, around: &AroundBody<'_>, scope: &Scope, of: &NamedNode)
    ensures { least.new ≡ noted_at least.old
        (names_thing an_interface (visible_at (around_of around.now) scope.now) (part_of_named (named_of of.now))) }
{
    let name = of.name.as_bytes();
    let means = is_interface(around.declared().types(), name);
    note_need(least, is_visible(around, scope, name), means, of.span);
}

/// A contract of which there are objects is needed, after `new`.
#[tactic(auto, using(crate::proofs::NamingLemmas::naming))]
pub fn note_object(least: &mut Least, around: &AroundBody<'_>, scope: &Scope, of: &NamedNode)
    ensures { least.new ≡ noted_at least.old
        (names_thing an_object (visible_at (around_of around.now) scope.now) (part_of_named (named_of of.now))) }
{
    let name = of.name.as_bytes();
    let means = has_objects(around.declared().types(), name);
    note_need(least, is_visible(around, scope, name), means, of.span);
}

/// The contract itself is needed, in a constructor.
#[tactic(auto, using(crate::proofs::NamingLemmas::naming))]
pub fn note_itself(least: &mut Least, around: &AroundBody<'_>, scope: &Scope, of: &NamedNode)
    ensures { least.new ≡ noted_at least.old
        (names_thing itself (visible_at (around_of around.now) scope.now) (part_of_named (named_of of.now))) }
{
    let name = of.name.as_bytes();
    let means = around.node().name.as_bytes() == name;
    note_need(least, is_visible(around, scope, name), means, of.span);
}

/// A local, a parameter or a field is needed.
#[tactic(auto, using(crate::proofs::NamingLemmas::naming))]
pub fn note_variable(least: &mut Least, around: &AroundBody<'_>, scope: &Scope, name: &NamePart)
    ensures { least.new ≡ noted_at least.old (names_thing a_variable (visible_at (around_of around.now) scope.now) name.now) }
{
    let bytes = name.name.as_bytes();
    let means = is_local(scope, bytes) || around.field(bytes).is_some();
    note_need(least, is_visible(around, scope, bytes), means, name.span);
}

/// A transaction of the contract around is needed.
#[tactic(auto, using(crate::proofs::NamingLemmas::naming))]
pub fn note_transaction(least: &mut Least, around: &AroundBody<'_>, scope: &Scope, name: &NamePart)
    ensures { least.new ≡ noted_at least.old
        (names_thing a_transaction (visible_at (around_of around.now) scope.now) name.now) }
{
    let bytes = name.name.as_bytes();
    let means = around.transaction(bytes).is_some();
    note_need(least, is_visible(around, scope, bytes), means, name.span);
}

#[tactic(auto, using(crate::proofs::NamingLemmas::naming))]
fn is_visible_after_dot(declared: &Declared<'_>, contract: usize, name: &[u8]) -> bool
    ensures { result ≡ option_map_or (λ c. is_visible (visible_after_dot c) name.now)
        (declared_contract (program_of declared.now) contract) false }
{
    declared.types().state(contract, name).is_some()
        || declared.field(contract, name).is_some()
        || declared.transaction(contract, name).is_some()
}

#[tactic(auto, using(crate::proofs::NamingLemmas::naming))]
fn is_public(declared: &Declared<'_>, contract: usize, name: &[u8]) -> bool
    ensures { result ≡ option_map_or (λ c. means a_public_transaction (visible_after_dot c) name.now)
        (declared_contract (program_of declared.now) contract) false }
{
    match declared.heading(contract, name) {
        Some(heading) => !heading.private,
        None => false,
    }
}

#[tactic(auto, using(crate::proofs::NamingLemmas::naming))]
fn has_contract(types: &Types<'_>, contract: usize) -> bool
    ensures { result ≡ is_some (declared_contract (program_of types.now) contract) }
{
    types.node(contract).is_some()
}

/// A transaction of the contract of this number is needed that isn't private, after a dot.
#[tactic(auto, using(crate::proofs::NamingLemmas::naming))]
pub fn note_public_transaction(
    least: &mut Least,
    declared: &Declared<'_>,
    contract: usize,
    name: &NamePart,
)
    ensures { least.new ≡ noted least.old
        (option_map_or (λ c. names_thing a_public_transaction (visible_after_dot c) name.now ∷ [])
        (declared_contract (program_of declared.now) contract) []) }
{
    if has_contract(declared.types(), contract) {
        let bytes = name.name.as_bytes();
        let means = is_public(declared, contract, bytes);
        let visible = is_visible_after_dot(declared, contract, bytes);
        note_need(least, visible, means, name.span);
    }
}

/// A state of the contract around is needed.
#[tactic(auto, using(crate::proofs::NamingLemmas::naming))]
pub fn note_own_state(least: &mut Least, around: &AroundBody<'_>, name: &NamePart)
    ensures { least.new ≡ noted_at least.old (names_state (contract_of around.now.own) name.now) }
{
    let absent = around.state(name.name.as_bytes()).is_none();
    note_if(least, absent, NO_STATE, name.span);
}

/// States of the contract around are needed.
#[tactic(auto, using(crate::proofs::NamingLemmas::naming))]
pub fn note_own_states(least: &mut Least, around: &AroundBody<'_>, names: &[NamePart])
    ensures { least.new ≡ noted least.old (map (names_state (contract_of around.now.own)) names.now) }
{
    note_states(least, around.declared().types(), around.number(), names);
}

/// The states of a permission on the contract around.
#[tactic(auto, using(crate::proofs::NamingLemmas::naming))]
pub fn note_own_perm(least: &mut Least, around: &AroundBody<'_>, perm: &PermNode)
    ensures { least.new ≡ noted least.old (perm_sites (contract_of around.now.own) perm.now) }
{
    note_perm(least, around.declared().types(), around.number(), perm);
}

#[tactic(auto, using(crate::proofs::NamingLemmas::naming))]
fn lacks_state(types: &Types<'_>, contract: usize, name: &[u8]) -> bool
    ensures { result ≡ option_map_or (λ c. not (is_among name.now (state_names c)))
        (declared_contract (program_of types.now) contract) false }
{
    has_contract(types, contract) && types.state(contract, name).is_none()
}

/// A state of the contract of this number is needed; where there is no such contract, nothing is asked.
#[tactic(auto, using(crate::proofs::NamingLemmas::naming))]
pub fn note_state(least: &mut Least, types: &Types<'_>, contract: usize, name: &NamePart)
    ensures { least.new ≡ noted least.old
        (option_map_or (λ c. names_state c name.now ∷ []) (declared_contract (program_of types.now) contract) []) }
{
    let absent = lacks_state(types, contract, name.name.as_bytes());
    note_if(least, absent, NO_STATE, name.span);
}

/// States of the contract of this number are needed.
#[tactic(auto, using(crate::proofs::NamingLemmas::naming))]
pub fn note_states(least: &mut Least, types: &Types<'_>, contract: usize, names: &[NamePart])
    ensures { least.new ≡ noted least.old
        (option_map_or (λ c. map (names_state c) names.now) (declared_contract (program_of types.now) contract) []) }
{
    for name in names {
        note_state(least, types, contract, name);
    }
}

/// The states of a permission on the contract of this number; where there is no such contract, nothing is asked.
#[tactic(auto, using(crate::proofs::NamingLemmas::naming))]
pub fn note_perm(least: &mut Least, types: &Types<'_>, contract: usize, perm: &PermNode)
    ensures { least.new ≡ noted least.old
        (option_map_or (λ c. perm_sites c perm.now) (declared_contract (program_of types.now) contract) []) }
{
    match perm {
        PermNode::Mode(_, _) => {}
        PermNode::States(states) => note_states(least, types, contract, states.as_slice()),
    }
}

/// A field of the contract around is needed.
#[tactic(auto, using(crate::proofs::NamingLemmas::naming))]
pub fn note_field(least: &mut Least, around: &AroundBody<'_>, name: &NamePart)
    ensures { least.new ≡ noted_at least.old (names_field (contract_of around.now.own) name.now) }
{
    let absent = around.field(name.name.as_bytes()).is_none();
    note_if(least, absent, NOT_FIELD, name.span);
}

/// A local gets a name beside the visible variables and the fields of the contract around.
#[tactic(auto, using(crate::proofs::NamingLemmas::naming))]
pub fn note_local(least: &mut Least, around: &AroundBody<'_>, scope: &Scope, name: &NamePart)
    ensures { least.new ≡ noted_at least.old
        (declares_name (map (λ v. v.name) scope.now.variables ++ field_names (contract_of around.now.own)) name.now) }
{
    let bytes = name.name.as_bytes();
    let taken = is_local(scope, bytes) || around.field(bytes).is_some();
    note_if(least, taken, DUPLICATE, name.span);
}

/// A thing gets a name beside things of these names.
#[tactic(auto, using(crate::proofs::NamingLemmas::naming))]
pub fn note_declared(least: &mut Least, taken: &Names, name: &NamePart)
    ensures { least.new ≡ noted_at least.old (declares_name (names_in taken.now) name.now) }
{
    let again = taken.find(name.name.as_bytes()).is_some();
    note_if(least, again, DUPLICATE, name.span);
}
