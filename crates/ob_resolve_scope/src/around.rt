//! What stands around a body, or a member.
ghost use Rattle.std.specs.Prelude.{◌≡◌, Some, map, option_map, option_and_then, slice_get};
ghost use Rattle.std.specs.Option.{option_copied};
ghost use Rattle.ob_tree.specs.MembersView.{member_of, contract_of};
ghost use Rattle.ob_table_spec.specs.Names.{number_of};
ghost use Rattle.ob_resolve_spec.specs.Declarations.{state_names, field_names, transactions_of, transaction_named};
ghost use Rattle.ob_resolve_spec.specs.Permissions.{is_of};
ghost use Rattle.ob_resolve_spec.specs.Scopes.{kind_of_field};
ghost use Rattle.ob_resolve_scope.specs.Numbered.{numbered};
ghost use Rattle.ob_resolve_scope.specs.Types.{program_of};
ghost use Rattle.ob_resolve_scope.specs.Once.{asked_of, parts_of};
ghost use Rattle.ob_resolve_scope.specs.Members.{members_of, heading_of, transaction_of_member};

use crate::asked::Asked;
use crate::declared::Declared;
use crate::members::{Heading, Members};
use crate::names::Names;
use crate::types::Types;
use ob_base::Items;
use ob_resolve_spec::InferredKind;
use ob_tree::{ContractNode, Member, PermNode};
use std::marker::Model;

/// The program's contracts, the contract around, and the kind of the result.
#[derive(Drop)]
pub struct AroundBody<'a> {
    declared: &'a Declared<'a>,
    own: usize,
    node: &'a ContractNode,
    result: InferredKind,
}

impl<'a> Model for AroundBody<'a> {
    ghost use Rattle.std.specs.Prelude.{◌≡◌, Some, slice_get};
    ghost use Rattle.ob_resolve_scope.specs.Around.{Standing};
    ghost use Rattle.std.specs.Coded.{codes};
    ghost use Rattle.ob_tree.specs.contracts.name.NamedNode as named;
    ghost use Rattle.ob_tree.specs.contracts.name.RefNode as reference;
    ghost use Rattle.ob_tree.specs.contracts.expr.Expr as expr;
    ghost use Rattle.ob_tree.specs.contracts.expr.CallNode as call;
    ghost use Rattle.ob_tree.specs.contracts.stmt.Stmt as stmt;
    ghost use Rattle.ob_tree.specs.contracts.stmt.Block as block;

    ghost Value = { Standing };

    ghost coded = { Prim.hlevel (
      codes,
      named.the_row.coded,
      reference.the_row.coded,
      expr.the_row.coded,
      call.the_row.coded,
      stmt.the_row.coded,
      block.the_row.coded,
    ) };

    ghost view = { λ a. record { program = a.declared.now; own = a.node.now; result = a.result } };

    ghost invariant = { λ a. slice_get a.declared.now a.own ≡ Some a.node.now };
}

impl<'a> AroundBody<'a> {
    /// Around a body of the contract of this number that gives such a result; None where there is no such contract.
    pub fn new(
        declared: &'a Declared<'a>,
        own: usize,
        gives: InferredKind,
    ) -> Option<AroundBody<'a>>
        ensures { result ≡ option_map (λ c. record { program = declared.now; own = c; result = gives })
            (slice_get declared.now own) }
    {
        match declared.types().node(own) {
            Some(node) => Some(AroundBody {
                declared,
                own,
                node,
                result: gives,
            }),
            None => None,
        }
    }

    /// Around a body with this result.
    pub fn giving(&self, gives: InferredKind) -> AroundBody<'a>
        ensures { result ≡ record self.now { result = gives } }
    {
        AroundBody {
            declared: self.declared,
            own: self.own,
            node: self.node,
            result: gives,
        }
    }

    /// What the program's contracts declare.
    pub fn declared(&self) -> &'a Declared<'a>
        ensures { result.now ≡ self.now.program }
    {
        self.declared
    }

    /// The contract around, as it is written.
    pub fn node(&self) -> &'a ContractNode
        ensures { result.now ≡ self.now.own }
    {
        self.node
    }

    /// The number of the contract around.
    pub fn number(&self) -> usize
        ensures { slice_get self.now.program result ≡ Some self.now.own }
    {
        self.own
    }

    /// The kind of the result.
    pub fn result(&self) -> InferredKind
        ensures { result ≡ self.now.result }
    {
        self.result
    }

    /// The numbers of its states by name.
    pub fn states(&self) -> Option<&Names>
        ensures { option_copied result ≡ Some (numbered (state_names (contract_of self.now.own))) }
    {
        self.declared.types().states(self.own)
    }

    /// The number of the first state of this name.
    pub fn state(&self, name: &[u8]) -> Option<usize>
        ensures { result ≡ number_of name.now (state_names (contract_of self.now.own)) }
    {
        self.declared.types().state(self.own, name)
    }

    /// The number of the first field of this name.
    pub fn field(&self, name: &[u8]) -> Option<usize>
        ensures { result ≡ number_of name.now (field_names (contract_of self.now.own)) }
    {
        self.declared.field(self.own, name)
    }

    /// Its kind.
    pub fn kind_of_field(&self, name: &[u8]) -> InferredKind
        ensures { result ≡ kind_of_field (program_of self.now.program) (contract_of self.now.own) name.now }
    {
        self.declared.kind_of_field(self.own, name)
    }

    /// The place of the first transaction of this name among the transactions.
    pub fn transaction(&self, name: &[u8]) -> Option<usize>
        ensures { result ≡ number_of name.now (map (λ t. t.name.name) (transactions_of (contract_of self.now.own))) }
    {
        self.declared.transaction(self.own, name)
    }

    /// What it declares.
    pub fn members(&self) -> Option<&'a Members>
        ensures { option_copied result ≡ Some (members_of (program_of self.now.program) (contract_of self.now.own)) }
    {
        self.declared.members(self.own)
    }

    /// The member that is the transaction of this place among the transactions.
    #[tactic(auto, using(crate::proofs::MembersLemmas::placing))]
    pub fn transaction_node(&self, number: usize) -> Option<&'a Member>
        ensures { option_and_then (λ m. transaction_of_member (member_of m)) (option_copied result)
            ≡ slice_get (transactions_of (contract_of self.now.own)) number }
    {
        let node = self.node;
        let Some(members) = self.members() else {
            return None;
        };
        match members.places.get(number) {
            Some(place) => node.members.get(*place),
            None => None,
        }
    }

    // What its transactions ask.
    fn all_asked(&self) -> Option<&'a Items<Asked>>
        ensures { option_map (map parts_of) (option_copied result)
            ≡ Some (map asked_of (transactions_of (contract_of self.now.own))) }
    {
        self.declared.asked(self.own)
    }

    /// What the transaction of this place among the transactions asks.
    #[tactic(auto, using(crate::proofs::OnceTurns::asking))]
    pub fn asked(&self, number: usize) -> Option<&'a Asked>
        ensures { option_map parts_of (option_copied result)
            ≡ option_map asked_of (slice_get (transactions_of (contract_of self.now.own)) number) }
    {
        match self.all_asked() {
            Some(asked) => asked.get(number),
            None => None,
        }
    }

    /// The first transaction of this name.
    pub fn heading(&self, name: &[u8]) -> Option<&'a Heading>
        ensures { option_copied result ≡ option_map (heading_of (program_of self.now.program))
            (transaction_named (contract_of self.now.own) name.now) }
    {
        self.declared.heading(self.own, name)
    }

    /// Whether each state that a permission names is one of the contract's.
    pub fn is_of(&self, perm: &PermNode) -> bool
        ensures { result ≡ is_of (contract_of self.now.own) perm.now }
    {
        self.declared.types().is_of(self.own, perm)
    }
}
