//! What kinds have in common: the interface that their contracts are or implement.
ghost use Rattle.std.specs.Prelude.{◌≡◌};
ghost use Rattle.ob_verify_spec.specs.Kinds.{is_plain_interface, interface_at, interface_declared, interface_of};
ghost use Rattle.ob_verify_spec.specs.Kinds.{one_kind, common, both_hold};

use crate::kinds::same_kind;
use crate::survey::Surveyed;
use ob_base::ContractId;
use ob_code::{ContractCode, is_interface};
use ob_table::Kind;

// Whether a contract is an interface that implements none.
fn is_plain_interface(contract: &ContractCode) -> bool
    ensures { result ≡ is_plain_interface contract.now }
{
    is_interface(contract) && contract.implements == 0
}

// A reference to the interface of a number, where it is one that implements none.
fn interface_at(image: &Surveyed<'_>, number: u32) -> Option<Kind>
    ensures { result ≡ interface_at image.now number }
{
    match image.contract(ContractId(number)) {
        Some(contract) => {
            if is_plain_interface(contract) {
                Some(Kind::Reference(ContractId(number)))
            } else {
                None
            }
        }
        None => None,
    }
}

// The interface that is declared as implemented, by its number and 1; 0 represents none.
#[tactic(auto, using(crate::proofs::RowLoops::declared_by))]
fn interface_declared(image: &Surveyed<'_>, implements: u32) -> Option<Kind>
    ensures { result ≡ interface_declared image.now implements }
{
    if implements == 0 {
        return None;
    }
    interface_at(image, implements - 1)
}

// The interface of a kind: of references to a contract the one that it is or implements, if there is one.
fn interface_of(image: &Surveyed<'_>, kind: Kind) -> Option<Kind>
    ensures { result ≡ interface_of image.now kind }
{
    match kind {
        Kind::Reference(contract) => match image.contract(contract) {
            Some(own) => {
                if is_plain_interface(own) {
                    Some(Kind::Reference(contract))
                } else {
                    interface_declared(image, own.implements)
                }
            }
            None => None,
        },
        _ => None,
    }
}

// The one kind, where two are the same.
fn one_kind(one: Option<Kind>, other: Option<Kind>) -> Option<Kind>
    ensures { result ≡ one_kind one other }
{
    match (one, other) {
        (Some(first), Some(second)) => {
            if same_kind(first, second) {
                Some(first)
            } else {
                None
            }
        }
        _ => None,
    }
}

// What two kinds have in common: the kind, where they are the same, or else the interface of both.
fn common(image: &Surveyed<'_>, one: Kind, other: Kind) -> Option<Kind>
    ensures { result ≡ common image.now one other }
{
    if same_kind(one, other) {
        Some(one)
    } else {
        one_kind(interface_of(image, one), interface_of(image, other))
    }
}

/// What a slot is known to hold where two ways meet: what its kinds on both have in common.
pub fn both_hold(image: &Surveyed<'_>, one: Option<Kind>, other: Option<Kind>) -> Option<Kind>
    ensures { result ≡ both_hold image.now one other }
{
    match (one, other) {
        (Some(one), Some(other)) => common(image, one, other),
        _ => None,
    }
}
