//! The marks of contracts and bodies.
ghost use Rattle.std.specs.Prelude.{◌≡◌, ◌<◌};
ghost use Rattle.ob_code.specs.Code.{is_marked, is_interface, is_private, is_constructor, is_shared_at_entry, is_transaction_named};

use crate::image::{BodyCode, ContractCode};

fn is_marked(bit: u8, flags: u8) -> bool
    requires { bit < 8 }
    ensures { result ≡ is_marked bit flags }
{
    (flags >> bit) & 1 == 1
}

/// Whether it is the main contract.
pub fn is_main(contract: &ContractCode) -> bool
    ensures { result ≡ is_marked 1 contract.now.flags }
{
    is_marked(1, contract.flags)
}

/// Whether it is an interface, whose transactions have no code.
pub fn is_interface(contract: &ContractCode) -> bool
    ensures { result ≡ is_interface contract.now }
{
    is_marked(2, contract.flags)
}

/// Whether a body is that of a private transaction, which is called on `this` alone.
pub fn is_private(body: &BodyCode) -> bool
    ensures { result ≡ is_private body.now }
{
    is_marked(0, body.flags)
}

/// Whether a body is a constructor's.
pub fn is_constructor(body: &BodyCode) -> bool
    ensures { result ≡ is_constructor body.now }
{
    is_marked(1, body.flags)
}

/// Whether `this` is Shared at the entry of a body.
pub fn is_shared_at_entry(body: &BodyCode) -> bool
    ensures { result ≡ is_shared_at_entry body.now }
{
    is_marked(2, body.flags)
}

/// Whether a body is that of a transaction of this name.
pub fn is_transaction_named(name: &[u8], body: &BodyCode) -> bool
    ensures { result ≡ is_transaction_named name.now body.now }
{
    !is_constructor(body) && name == body.name.as_bytes()
}
