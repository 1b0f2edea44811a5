//! A body with what stands around it, and what is looked up there.
ghost use Rattle.std.specs.Prelude.{◌≡◌};
ghost use Rattle.ob_verify_spec.specs.Kinds.{fits, fits_contract};
ghost use Rattle.ob_verify_spec.specs.Frames.{kind_of_field};

use crate::kinds::{implements_number, kind_of_type, same_kind};
use crate::survey::Surveyed;
use ob_base::{ContractId, FieldId};
use ob_code::{BodyCode, ContractCode};
use ob_table::Kind;
use std::marker::Model;

/// A body, the contract that it stands in with its number, and the image.
#[derive(Drop)]
pub struct CodeFrame<'a> {
    /// The image.
    pub image: &'a Surveyed<'a>,
    /// The number of the body's contract.
    pub here: ContractId,
    /// The body's contract.
    pub own: &'a ContractCode,
    /// The body.
    pub body: &'a BodyCode,
}

impl<'a> Model for CodeFrame<'a> {
    ghost use Rattle.ob_verify_spec.specs.Frames.{CodeFrame};

    ghost Value = { CodeFrame };

    ghost view = { λ f. record { image = f.image.now; here = f.here; own = f.own.now; body = f.body.now } };
}

fn fits_contract(image: &Surveyed<'_>, given: ContractId, wanted: ContractId) -> bool
    ensures { result ≡ fits_contract image.now given wanted }
{
    if given.0 == wanted.0 {
        return true;
    }
    match image.contract(given) {
        Some(own) => implements_number(wanted, own),
        None => false,
    }
}

/// Whether a value of the first kind may stand where the second is wanted.
pub fn fits(image: &Surveyed<'_>, given: Kind, wanted: Kind) -> bool
    ensures { result ≡ fits image.now given wanted }
{
    match (given, wanted) {
        (Kind::Reference(given), Kind::Reference(wanted)) => fits_contract(image, given, wanted),
        _ => same_kind(given, wanted),
    }
}

impl<'a> CodeFrame<'a> {
    /// The kind of a field of the contract.
    pub fn kind_of_field(&self, field: FieldId) -> Option<Kind>
        ensures { result ≡ kind_of_field self.now field.0 }
    {
        match self.own.fields.get(usize::from(field.0)) {
            Some(field) => Some(kind_of_type(field.of)),
            None => None,
        }
    }
}
