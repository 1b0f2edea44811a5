//! The variables of a body.
ghost use Rattle.std.specs.Prelude.{◌≡◌, ◌+◌, ◌-◌, [], ◌∷◌, ◌++◌, map, take, length, IfOk, OnOk};
ghost use Rattle.ob_resolve_spec.specs.declared.variable.ScopeVariable.{ScopeVariable};
ghost use Rattle.std.specs.Option.{option_copied};
ghost use Rattle.ob_tree.specs.MembersView.{formal_of};
ghost use Rattle.ob_resolve_spec.specs.Scopes.{variable_named, with_local, scope_of_params};
ghost use Rattle.ob_resolve_scope.specs.Numbered.{numbered};
ghost use Rattle.ob_resolve_scope.specs.Types.{program_of};
ghost use Rattle.ob_resolve_scope.specs.Params.{with_param};

use crate::names::Names;
use crate::types::Types;
use ob_base::{Duplicate, Items, Memory, Text};
use ob_resolve_spec::{InferredKind, ScopeVariable};
use ob_tree::{FormalNode, Subject};
use std::alloc::Global;
use std::marker::Model;

/// The variables that are visible, and how many the body has had so far.
#[derive(Drop)]
pub struct Scope {
    names: Names,
    variables: Items<ScopeVariable>,
    count: usize,
}

impl Model for Scope {
    ghost use Rattle.std.specs.Prelude.{◌≡◌, map};
    ghost use Rattle.ob_resolve_spec.specs.Scopes.{Scope as Variables};
    ghost use Rattle.ob_resolve_scope.specs.Numbered.{numbered};

    ghost Value = { Variables };

    ghost view = { λ s. record { variables = s.variables; count = s.count } };

    ghost invariant = { λ s. s.names ≡ numbered (map (λ v. v.name) s.variables) };
}

// One more variable of this name after the others.
#[tactic(auto, using(crate::proofs::ScopeLemmas::scopes))]
fn add_variable(
    alloc: Global,
    names: &mut Names,
    variables: &mut Items<ScopeVariable>,
    name: &[u8],
    variable: ScopeVariable,
) -> Result<(), Memory>
    requires name { variable.name ≡ name.now }
    requires names { names.old ≡ numbered (map (λ v. v.name) variables.old) }
    ensures names { names.new ≡ numbered (map (λ v. v.name) variables.new) }
    ensures variables { OnOk result (variables.new ≡ variables.old ++ variable ∷ []) }
{
    let place = variables.len();
    variables.push(variable)?;
    match names.add(alloc, name, place) {
        Ok(()) => Ok(()),
        Err(error) => {
            variables.pop();
            Err(error)
        }
    }
}

// Takes the last variable away.
fn remove_last(names: &mut Names, variables: &mut Items<ScopeVariable>)
    requires { names.old ≡ numbered (map (λ v. v.name) variables.old) }
    ensures names { names.new ≡ numbered (map (λ v. v.name) variables.new) }
    ensures variables { variables.new ≡ take (length variables.old - 1) variables.old }
{
    if let Some(variable) = variables.pop() {
        if names.find(variable.name.as_bytes()) == Some(variables.len()) {
            names.truncate(names.len().saturating_sub(1));
        }
    }
}

// Keeps the first variables alone.
#[tactic(auto, using(crate::proofs::ScopeLemmas::scopes))]
fn keep_first(names: &mut Names, variables: &mut Items<ScopeVariable>, visible: usize)
    requires { names.old ≡ numbered (map (λ v. v.name) variables.old) }
    ensures names { names.new ≡ numbered (map (λ v. v.name) variables.new) }
    ensures variables { variables.new ≡ take visible variables.old }
{
    while variables.len() > visible {
        remove_last(names, variables);
    }
}

impl Scope {
    /// No variables yet.
    pub fn new(alloc: Global) -> Scope
        ensures { result ≡ record { variables = []; count = 0 } }
    {
        Scope {
            names: Names::new(alloc),
            variables: Items::new(alloc),
            count: 0,
        }
    }

    /// The variable of this name.
    #[tactic(auto, using(crate::proofs::ScopeLemmas::scopes))]
    pub fn variable(&self, name: &[u8]) -> Option<&ScopeVariable>
        ensures { option_copied result ≡ variable_named self.now name.now }
    {
        match self.names.find(name) {
            Some(place) => self.variables.get(place),
            None => None,
        }
    }

    /// How many variables the body has had so far.
    pub fn count(&self) -> usize
        ensures { result ≡ self.now.count }
    {
        self.count
    }

    /// How many are visible.
    pub fn visible(&self) -> usize
        ensures { result ≡ length self.now.variables }
    {
        self.variables.len()
    }

    // One more variable of this name and kind, with the next number.
    fn add(
        &mut self,
        alloc: Global,
        name: &Text,
        kind: InferredKind,
        is_param: bool,
    ) -> Result<(), Memory>
        ensures { let number = self.old.count + 1 in
            let variable : ScopeVariable = record { name = name.now; of = kind; number = number; is_param = is_param } in
            OnOk result (self.new ≡ record { variables = self.old.variables ++ variable ∷ []; count = number }) }
    {
        let number = self.count.checked_add(1).ok_or(Memory)?;
        let variable = ScopeVariable {
            name: name.copy(alloc)?,
            of: kind,
            number,
            is_param,
        };
        add_variable(
            alloc,
            &mut self.names,
            &mut self.variables,
            name.as_bytes(),
            variable,
        )?;
        self.count = number;
        Ok(())
    }

    /// One more local.
    pub fn add_local(
        &mut self,
        alloc: Global,
        name: &Text,
        kind: InferredKind,
    ) -> Result<(), Memory>
        ensures { OnOk result (self.new ≡ with_local self.old name.now kind) }
    {
        self.add(alloc, name, kind, false)
    }

    /// Keeps the first variables alone, as at the end of a block: the numbers go on.
    pub fn leave(&mut self, visible: usize)
        ensures { self.new ≡ record self.old { variables = take visible self.old.variables } }
    {
        keep_first(&mut self.names, &mut self.variables, visible);
    }
}

impl Scope {
    // One more parameter, unless it is `this`.
    fn add_param(
        &mut self,
        alloc: Global,
        types: &Types<'_>,
        param: &FormalNode,
    ) -> Result<(), Memory>
        ensures { OnOk result (self.new ≡ with_param (program_of types.now) self.old (formal_of param.now)) }
    {
        match &param.name {
            Subject::This(_) => Ok(()),
            Subject::Name(name) => {
                let kind = types.kind_of_type(&param.of);
                self.add(alloc, &name.name, kind, true)
            }
        }
    }
}

/// The scope with which a body begins that has these parameters.
#[tactic(auto, using(crate::proofs::ScopeLemmas::scopes))]
pub fn scope_of_params(
    alloc: Global,
    types: &Types<'_>,
    params: &[FormalNode],
) -> Result<Scope, Memory>
    ensures { IfOk result (λ s. s ≡ scope_of_params (program_of types.now) (map formal_of params.now)) }
{
    let mut scope = Scope::new(alloc);
    for param in params {
        scope.add_param(alloc, types, param)?;
    }
    Ok(scope)
}
