//! What a name in the place of a type denotes.
ghost use Rattle.std.specs.Prelude.{◌≡◌};
ghost use Rattle.ob_generic_spec.specs.TypeFaults.{is_nothing, is_generic, takes_nothing, is_own_name, is_own};

use crate::around::{AroundType, OwnInstance, is_param, is_same};
use ob_generic_spec::Role;

/// Whether a name denotes nothing: it is neither the type parameter nor a contract's or interface's.
pub fn is_nothing(name: &[u8], around: &AroundType<'_>) -> bool
    ensures { result ≡ is_nothing around.now name.now }
{
    if is_param(around.own(), name) {
        return false;
    }
    match around.heads().get(name) {
        Some(_) => false,
        None => true,
    }
}

/// Whether a name is a generic contract's or interface's, and not the type parameter.
pub fn is_generic(name: &[u8], around: &AroundType<'_>) -> bool
    ensures { result ≡ is_generic around.now name.now }
{
    if is_param(around.own(), name) {
        return false;
    }
    match around.heads().get(name) {
        Some(head) => head.param.is_some(),
        None => false,
    }
}

/// Whether a name takes no argument: it is the type parameter, or of a contract or an interface that isn't generic.
pub fn takes_nothing(name: &[u8], around: &AroundType<'_>) -> bool
    ensures { result ≡ takes_nothing around.now name.now }
{
    if is_param(around.own(), name) {
        return true;
    }
    match around.heads().get(name) {
        Some(head) => head.param.is_none(),
        None => false,
    }
}

fn is_own_name(name: &[u8], own: &OwnInstance<'_>) -> bool
    ensures { result ≡ is_own_name own.now name.now }
{
    is_same(own.name().as_bytes(), name) && !is_same(own.param().name.name.as_bytes(), name)
}

/// Whether a name denotes the instance around: the contract's own name, as the type of `this` or as a constructor's name.
pub fn is_own(name: &[u8], own: &Option<OwnInstance<'_>>, role: Role) -> bool
    ensures { result ≡ is_own own.now role name.now }
{
    match own {
        None => false,
        Some(own) => match role {
            Role::OfOwn => is_own_name(name, own),
            Role::InArgument => false,
            Role::Anywhere => false,
        },
    }
}
