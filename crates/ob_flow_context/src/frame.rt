//! The body that is checked, and what the rules ask of its table, its contract and its signature.
ghost use Rattle.std.specs.Prelude.{◌≡◌, IfOk};
ghost use Rattle.ob_perm.specs.States.{stateless};
ghost use Rattle.ob_perm.specs.Masks.{states_of, permission_of};
ghost use Rattle.ob_silica.specs.TermsView.{silica_body_of};
ghost use Rattle.ob_silica_places.specs.Places.{location_of};
ghost use Rattle.ob_silica_places.specs.Converting.{said_for, converted};
ghost use Rattle.ob_table_spec.specs.Conditions.{IsClassTable};
ghost use Rattle.ob_table_spec.specs.WellFormed.{is_implemented};
ghost use Rattle.ob_flow_spec.specs.Contexts.{constructs, field_count, available, type_of_field};
ghost use Rattle.ob_flow_spec.specs.Contexts.{declared_permission, listed_at, entry_of_field};
ghost use Rattle.ob_flow_spec.specs.Contexts.{exit_of_field, is_asset, owns_asset, possible_under};
ghost use Rattle.ob_flow_spec.specs.Contexts.{accessible_under, accessible, maybe_there};
ghost use Rattle.ob_flow_spec.specs.Uses.{said_for_type};
ghost use Rattle.ob_flow_spec.specs.Deriving.{body_frame};
ghost use Rattle.ob_flow_context.specs.View.{context_of};

use crate::context::Context;
use crate::kinds::{kind_of, permission_of_type};
use crate::naming::naming;
use ob_base::{ContractId, FieldId, Memory, Mode, NO_STATE_BIT, Perm, TxId};
use ob_perm::{for_contract, for_interface, meets, possible, subset};
use ob_silica::{Place, TermBody};
use ob_table::{Contract, Kind, Listed, ResolvedType, Signature, Table};
use std::alloc::Global;
use std::marker::Model;

/// The table, the contract of the body with its number, and the transaction or constructor with its number.
#[derive(Drop)]
pub struct BodyFrame<'a> {
    table: &'a Table,
    here: ContractId,
    own: &'a Contract,
    tx: TxId,
    signature: &'a Signature,
    slots: u8,
}

impl<'a> Model for BodyFrame<'a> {
    ghost use Rattle.std.specs.Coded.{codes};
    ghost use Rattle.ob_table.specs.StatementsBack.{statements_code};
    ghost use Rattle.ob_table.specs.contracts.stmt.ResolvedStmt as statement;
    ghost use Rattle.ob_flow_spec.specs.Contexts.{BodyFrame};
    ghost use Rattle.ob_flow_context.specs.Small.{AreSmall};

    ghost Value = { BodyFrame };

    ghost coded = { Prim.hlevel (codes, statements_code statement.the_row.coded) };

    ghost view = { λ b. record {
      table = b.table.now;
      here = b.here;
      own = b.own.now;
      tx = b.tx;
      signature = b.signature.now;
      slots = b.slots;
    } };

    ghost invariant = { λ b. AreSmall b.table.now b.own.now };
}

/// Whether no state is in a set of states.
#[tactic(auto, using(crate::proofs::FrameLemmas::frames))]
pub fn is_stateless(states: u64) -> bool
    ensures { result ≡ states_of states stateless }
{
    (states >> NO_STATE_BIT) & 1 == 1
}

// The listed field of this number.
#[tactic(auto, using(crate::proofs::FrameLemmas::frames))]
fn listed_at(listed: &[Listed], field: FieldId) -> Option<Listed>
    ensures { result ≡ listed_at listed.now field.0 }
{
    for one in listed {
        if one.field.0 == field.0 {
            return Some(*one);
        }
    }
    None
}

impl<'a> BodyFrame<'a> {
    /// The frame of a body of a table; None where it is that of no transaction and no constructor of the table.
    #[tactic(auto, using(crate::proofs::FrameLemmas::frames))]
    pub fn new(table: &'a Table, body: &TermBody) -> Option<BodyFrame<'a>>
        requires { IsClassTable table.now }
        ensures { result ≡ body_frame table.now (silica_body_of body.now) }
    {
        let own = table.contract(body.contract)?;
        let signature = own.signature(body.tx)?;
        Some(BodyFrame {
            table,
            here: body.contract,
            own,
            tx: body.tx,
            signature,
            slots: body.slots,
        })
    }

    /// The class table.
    pub fn table(&self) -> &'a Table
        ensures { result.now ≡ self.now.table }
    {
        self.table
    }

    /// The number of the body's contract.
    pub fn here(&self) -> ContractId
        ensures { result ≡ self.now.here }
    {
        self.here
    }

    /// The body's contract.
    pub fn own(&self) -> &'a Contract
        ensures { result.now ≡ self.now.own }
    {
        self.own
    }

    /// The number of the transaction or constructor.
    pub fn tx(&self) -> TxId
        ensures { result ≡ self.now.tx }
    {
        self.tx
    }

    /// Its signature.
    pub fn signature(&self) -> &'a Signature
        ensures { result.now ≡ self.now.signature }
    {
        self.signature
    }

    /// How many slots the body has.
    pub fn slots(&self) -> u8
        ensures { result ≡ self.now.slots }
    {
        self.slots
    }

    /// Whether it is a constructor's.
    pub fn constructs(&self) -> bool
        ensures { result ≡ constructs self.now }
    {
        self.tx.0 == 0
    }

    /// How many fields the contract has.
    pub fn field_count(&self) -> u8
        ensures { result ≡ field_count self.now }
    {
        self.own.fields.len() as u8
    }

    /// The states in which a field is there.
    #[tactic(auto, using(crate::proofs::FrameLemmas::frames))]
    pub fn available(&self, field: FieldId) -> u64
        ensures { states_of result ≡ available self.now field.0 }
    {
        match self.own.field(field) {
            Some(field) => field.available,
            None => 0,
        }
    }

    /// The type of a field.
    pub fn type_of_field(&self, field: FieldId) -> ResolvedType
        ensures { result ≡ type_of_field self.now field.0 }
    {
        match self.own.field(field) {
            Some(field) => field.of,
            None => ResolvedType::Int,
        }
    }

    /// The declared permission of a field, which is Unowned if it is no reference.
    pub fn declared_permission(&self, field: FieldId) -> Perm
        ensures { permission_of result ≡ declared_permission self.now field.0 }
    {
        permission_of_type(self.type_of_field(field))
    }

    /// The permission with which a transaction enters a field.
    pub fn entry_of_field(&self, signature: &Signature, field: FieldId) -> Perm
        ensures { permission_of result ≡ entry_of_field self.now signature.now field.0 }
    {
        match listed_at(signature.listed.as_slice(), field) {
            Some(listed) => listed.entry,
            None => self.declared_permission(field),
        }
    }

    /// The permission with which a transaction leaves a field.
    pub fn exit_of_field(&self, signature: &Signature, field: FieldId) -> Perm
        ensures { permission_of result ≡ exit_of_field self.now signature.now field.0 }
    {
        match listed_at(signature.listed.as_slice(), field) {
            Some(listed) => listed.exit,
            None => self.declared_permission(field),
        }
    }

    /// The states in which `this` can be under a permission.
    pub fn possible_under(&self, permission: Perm) -> u64
        ensures { states_of result ≡ possible_under self.now (permission_of permission) }
    {
        possible(permission, self.own.states.len() as u8)
    }

    /// Whether a field is there in each state in which `this` can be under a permission.
    pub fn accessible_under(&self, permission: Perm, field: FieldId) -> bool
        ensures { result ≡ accessible_under self.now (permission_of permission) field.0 }
    {
        subset(self.possible_under(permission), self.available(field))
    }

    /// Whether a field is there in each state in which `this` can be.
    pub fn accessible(&self, context: &Context, field: FieldId) -> bool
        ensures { result ≡ accessible self.now (context_of context.now) field.0 }
    {
        self.accessible_under(context.permission(Place::This), field)
    }

    /// Whether a field is there in some state in which `this` can be.
    pub fn maybe_there(&self, context: &Context, field: FieldId) -> bool
        ensures { result ≡ maybe_there self.now (context_of context.now) field.0 }
    {
        let possible = self.possible_under(context.permission(Place::This));
        meets(possible, self.available(field))
    }

    /// Whether a kind is that of a reference to an asset.
    pub fn is_asset(&self, kind: Kind) -> bool
        ensures { result ≡ is_asset self.now.table kind }
    {
        match kind {
            Kind::Reference(contract) => match self.table.contract(contract) {
                Some(contract) => contract.asset,
                None => false,
            },
            Kind::Int | Kind::Bool | Kind::Text => false,
        }
    }

    /// Whether a place owns an asset.
    pub fn owns_asset(&self, context: &Context, place: Place) -> bool
        ensures { result ≡ owns_asset self.now (context_of context.now) (location_of place) }
    {
        match context.get(place) {
            Some(known) => known.permission.mode == Mode::Owned && self.is_asset(known.kind),
            None => false,
        }
    }

    // Whether the contract of the first number implements the interface of the second.
    fn is_implemented(&self, contract: ContractId, interface: ContractId) -> bool
        ensures { result ≡ is_implemented self.now.table contract interface }
    {
        match self.table.contract(contract) {
            Some(contract) => match contract.implements {
                Some(implemented) => interface.0 == implemented.0,
                None => false,
            },
            None => false,
        }
    }

    // A permission on a contract or interface, said for another one.
    #[tactic(auto, using(crate::proofs::FrameLemmas::frames))]
    fn said_for(
        &self,
        alloc: Global,
        from: ContractId,
        to: ContractId,
        permission: Perm,
    ) -> Result<Perm, Memory>
        ensures { IfOk result (λ p. permission_of p ≡ said_for self.now.table from to (permission_of permission)) }
    {
        if permission.mode != Mode::Owned || from.0 == to.0 {
            return Ok(permission);
        }
        let (Some(first), Some(second)) = (self.table.contract(from), self.table.contract(to))
        else {
            return Ok(permission);
        };
        if self.is_implemented(from, to) {
            let names = naming(alloc, second, first)?;
            Ok(for_interface(permission, names.as_slice()))
        } else if self.is_implemented(to, from) {
            let names = naming(alloc, first, second)?;
            Ok(for_contract(permission, names.as_slice()))
        } else {
            Ok(permission)
        }
    }

    /// The permission on a place of one kind, said for a place of another.
    pub fn converted(
        &self,
        alloc: Global,
        from: Kind,
        to: Kind,
        permission: Perm,
    ) -> Result<Perm, Memory>
        ensures { IfOk result (λ p. permission_of p ≡ converted self.now.table from to (permission_of permission)) }
    {
        match (from, to) {
            (Kind::Reference(from), Kind::Reference(to)) => {
                self.said_for(alloc, from, to, permission)
            }
            _ => Ok(permission),
        }
    }

    /// The permission on a place, as it counts, said for a type.
    pub fn said_for_type(
        &self,
        alloc: Global,
        context: &Context,
        place: Place,
        of: ResolvedType,
    ) -> Result<Perm, Memory>
        ensures { IfOk result (λ p. permission_of p
            ≡ said_for_type self.now (context_of context.now) (location_of place) of) }
    {
        let permission = context.counted(place);
        self.converted(alloc, context.kind(place), kind_of(of), permission)
    }
}
