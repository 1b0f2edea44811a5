//! Types as kinds and permissions.
ghost use Rattle.std.specs.Prelude.{◌≡◌};
ghost use Rattle.ob_perm.specs.Masks.{permission_of};
ghost use Rattle.ob_table_spec.specs.WellFormed.{kind_of_resolved};
ghost use Rattle.ob_silica_places.specs.Known.{permission_of_type};
ghost use Rattle.ob_flow_spec.specs.Contexts.{known_as};
ghost use Rattle.ob_flow_context.specs.View.{known_of};

use crate::context::Known;
use ob_base::Perm;
use ob_perm::unowned;
use ob_table::{Kind, ResolvedType};

/// The kind of a type.
pub fn kind_of(of: ResolvedType) -> Kind
    ensures { result ≡ kind_of_resolved of }
{
    match of {
        ResolvedType::Int => Kind::Int,
        ResolvedType::Bool => Kind::Bool,
        ResolvedType::Text => Kind::Text,
        ResolvedType::Reference(contract, _) => Kind::Reference(contract),
    }
}

/// The permission of a type, which is Unowned if it is no reference's.
pub fn permission_of_type(of: ResolvedType) -> Perm
    ensures { permission_of result ≡ permission_of_type of }
{
    match of {
        ResolvedType::Reference(_, permission) => permission,
        ResolvedType::Int | ResolvedType::Bool | ResolvedType::Text => unowned(),
    }
}

/// What a type says of a place.
pub fn known_as(of: ResolvedType) -> Known
    ensures { known_of result ≡ known_as of }
{
    Known {
        kind: kind_of(of),
        permission: permission_of_type(of),
    }
}
