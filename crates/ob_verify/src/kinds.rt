//! The kinds of values in code.
ghost use Rattle.std.specs.Prelude.{◌≡◌, option_map};
ghost use Rattle.ob_verify_spec.specs.Kinds.{kind_of_type, kind_of_param, same_kind};
ghost use Rattle.ob_verify_spec.specs.Kinds.{implements_number, is_reference};
ghost use Rattle.ob_verify_spec.specs.Frames.{kind_of_result};

use ob_base::ContractId;
use ob_code::{BodyCode, ContractCode, ParamCode, TypeCode};
use ob_table::Kind;

/// The kind of a field's or a result's type.
pub fn kind_of_type(of: TypeCode) -> Kind
    ensures { result ≡ kind_of_type of }
{
    match of {
        TypeCode::Int => Kind::Int,
        TypeCode::Bool => Kind::Bool,
        TypeCode::Text => Kind::Text,
        TypeCode::Reference(contract, _) => Kind::Reference(contract),
    }
}

/// The kind of a parameter.
pub fn kind_of_param(of: ParamCode) -> Kind
    ensures { result ≡ kind_of_param of }
{
    match of {
        ParamCode::Int => Kind::Int,
        ParamCode::Bool => Kind::Bool,
        ParamCode::Text => Kind::Text,
        ParamCode::Reference(contract, _, _) => Kind::Reference(contract),
    }
}

/// The kind of a body's result, if it has one.
pub fn kind_of_result(body: &BodyCode) -> Option<Kind>
    ensures { result ≡ kind_of_result body.now }
{
    match body.result {
        Some(of) => Some(kind_of_type(of)),
        None => None,
    }
}

/// Whether two kinds are one.
pub fn same_kind(one: Kind, other: Kind) -> bool
    ensures { result ≡ same_kind one other }
{
    match (one, other) {
        (Kind::Int, Kind::Int) => true,
        (Kind::Bool, Kind::Bool) => true,
        (Kind::Text, Kind::Text) => true,
        (Kind::Reference(c), Kind::Reference(d)) => c.0 == d.0,
        _ => false,
    }
}

/// Whether a kind is that of a reference.
pub fn is_reference(kind: Kind) -> bool
    ensures { result ≡ is_reference kind }
{
    matches!(kind, Kind::Reference(_))
}

/// Whether a contract implements the interface of a number.
pub fn implements_number(declared: ContractId, contract: &ContractCode) -> bool
    ensures { result ≡ implements_number declared contract.now }
{
    u64::from(contract.implements) == u64::from(declared.0) + 1
}
