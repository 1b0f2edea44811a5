//! What stands around a type.
ghost use Rattle.std.specs.Prelude.{◌≡◌};
ghost use Rattle.ob_table_spec.specs.Names.{same};
ghost use Rattle.ob_generic_spec.specs.Substitution.{is_param};

use crate::heads::Heads;
use ob_base::Text;
use ob_generic_spec::Instance;
use ob_tree::ParamNode;
use std::marker::Model;

/// An instance from within: the instance, the name of the generic contract or interface, and its parameter.
#[derive(Drop)]
pub struct OwnInstance<'a> {
    instance: &'a Instance,
    name: &'a Text,
    param: &'a ParamNode,
}

impl<'a> Model for OwnInstance<'a> {
    ghost use Rattle.ob_generic_spec.specs.Substitution.{Own};

    ghost Value = { Own };

    ghost view = { λ o. record { instance = o.instance.now; name = o.name.now; param = o.param.now } };
}

impl<'a> OwnInstance<'a> {
    /// An instance of the contract or interface of this name, with this parameter.
    pub fn new(instance: &'a Instance, name: &'a Text, param: &'a ParamNode) -> OwnInstance<'a>
        ensures { result ≡ record { instance = instance.now; name = name.now; param = param.now } }
    {
        OwnInstance {
            instance,
            name,
            param,
        }
    }

    /// The instance.
    pub fn instance(&self) -> &'a Instance
        ensures { result.now ≡ self.now.instance }
    {
        self.instance
    }

    /// The name of the generic contract or interface.
    pub fn name(&self) -> &'a Text
        ensures { result.now ≡ self.now.name }
    {
        self.name
    }

    /// Its parameter.
    pub fn param(&self) -> &'a ParamNode
        ensures { result.now ≡ self.now.param }
    {
        self.param
    }
}

/// What stands around a type: the heads of the program, and the instance, unless the contract around isn't generic.
#[derive(Drop)]
pub struct AroundType<'a> {
    heads: &'a Heads,
    own: Option<OwnInstance<'a>>,
}

impl<'a> Model for AroundType<'a> {
    ghost use Rattle.ob_generic_spec.specs.Arguments.{Around};

    ghost Value = { Around };

    ghost view = { λ a. record { heads = a.heads.now; own = a.own } };
}

impl<'a> AroundType<'a> {
    /// Around the types of a contract that isn't generic, or of an instance.
    pub fn new(heads: &'a Heads, own: Option<OwnInstance<'a>>) -> AroundType<'a>
        ensures { result ≡ record { heads = heads.now; own = own.entry } }
    {
        AroundType { heads, own }
    }

    /// The heads of the program.
    pub fn heads(&self) -> &'a Heads
        ensures { result.now ≡ self.now.heads }
    {
        self.heads
    }

    /// The instance around, if there is one.
    pub fn own(&self) -> &Option<OwnInstance<'a>>
        ensures { result.now ≡ self.now.own }
    {
        &self.own
    }
}

/// Whether two names are the same.
pub fn is_same(a: &[u8], b: &[u8]) -> bool
    ensures { result ≡ same a.now b.now }
{
    a == b
}

/// Whether the name is that of the type parameter.
pub fn is_param(own: &Option<OwnInstance<'_>>, name: &[u8]) -> bool
    ensures { result ≡ is_param own.now name.now }
{
    match own {
        None => false,
        Some(own) => is_same(own.param().name.name.as_bytes(), name),
    }
}
