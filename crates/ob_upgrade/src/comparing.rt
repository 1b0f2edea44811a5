//! Whether contracts of two programs declare the same.
ghost use Rattle.std.specs.Prelude.{◌≡◌, ◌<◌, ℕ};
ghost use Rattle.std.specs.Cmp.Lexicographic.{pointwise};
ghost use Rattle.ob_table_spec.specs.Names.{same};
ghost use Rattle.ob_table.specs.Tables.{contract_at};
ghost use Rattle.ob_code.specs.Code.{is_marked};
ghost use Rattle.ob_code_table.specs.ImageTables.{perm_of_code, type_of_code, field_of_code, interface_of, contract_of_code, table_of_image};
ghost use Rattle.ob_upgrade_spec.specs.Matching.{is_same_mode, is_same_perm, have_one_name, is_same_type, is_same_field, is_same_interface, are_marked_alike, is_same_contract};
ghost use Rattle.ob_upgrade.specs.Comparing.{same_field_codes};

use ob_base::{ContractId, Mode};
use ob_code::{
    CodeText, ContractCode, FieldCode, Image, PermCode, TypeCode, is_interface, is_main,
};
use ob_code_table::{bits, contract_at};

fn is_same_mode(old: Mode, new: Mode) -> bool
    ensures { result ≡ is_same_mode old new }
{
    match (old, new) {
        (Mode::Owned, Mode::Owned) => true,
        (Mode::Shared, Mode::Shared) => true,
        (Mode::Unowned, Mode::Unowned) => true,
        _ => false,
    }
}

fn is_same_perm(old: PermCode, new: PermCode) -> bool
    ensures { result ≡ is_same_perm (perm_of_code old) (perm_of_code new) }
{
    is_same_mode(old.mode, new.mode) && bits(old.states) == bits(new.states)
}

// Whether contracts of two programs are there, and have one name.
fn have_one_name(old: &Image, a: ContractId, new: &Image, b: ContractId) -> bool
    ensures { result ≡ have_one_name (contract_at (table_of_image old.now) a) (contract_at (table_of_image new.now) b) }
{
    match (contract_at(old, a), contract_at(new, b)) {
        (Some(one), Some(other)) => one.name.as_bytes() == other.name.as_bytes(),
        _ => false,
    }
}

fn is_same_type(old: &Image, a: TypeCode, new: &Image, b: TypeCode) -> bool
    ensures { result ≡ is_same_type (table_of_image old.now) (table_of_image new.now) (type_of_code a) (type_of_code b) }
{
    match (a, b) {
        (TypeCode::Int, TypeCode::Int) => true,
        (TypeCode::Bool, TypeCode::Bool) => true,
        (TypeCode::Text, TypeCode::Text) => true,
        (TypeCode::Reference(one, held), TypeCode::Reference(other, then)) => {
            have_one_name(old, one, new, other) && is_same_perm(held, then)
        }
        _ => false,
    }
}

fn is_same_field(old: &Image, a: &FieldCode, new: &Image, b: &FieldCode) -> bool
    ensures { result ≡ is_same_field (table_of_image old.now) (table_of_image new.now) (field_of_code a.now) (field_of_code b.now) }
{
    a.name.as_bytes() == b.name.as_bytes()
        && is_same_type(old, a.of, new, b.of)
        && bits(a.available) == bits(b.available)
}

#[tactic(auto, using(crate::proofs::Pairs::fields))]
fn are_same_fields(old: &Image, a: &[FieldCode], new: &Image, b: &[FieldCode]) -> bool
    ensures { result ≡ same_field_codes old.now new.now a.now b.now }
{
    if a.len() != b.len() {
        return false;
    }
    for place in 0..a.len() {
        if !is_same_field(old, &a[place], new, &b[place]) {
            return false;
        }
    }
    true
}

#[tactic(auto, using(crate::proofs::Pairs::names))]
fn are_same_names(a: &[CodeText], b: &[CodeText]) -> bool
    ensures { result ≡ pointwise same a.now b.now }
{
    if a.len() != b.len() {
        return false;
    }
    for place in 0..a.len() {
        if a[place].as_bytes() != b[place].as_bytes() {
            return false;
        }
    }
    true
}

// Whether contracts implement interfaces of one name, or none: each is given as the interface's number plus 1, and 0 for none.
#[tactic(auto, using(crate::proofs::Pairs::interfaces))]
fn is_same_interface(old: &Image, a: u32, new: &Image, b: u32) -> bool
    ensures { result ≡ is_same_interface (table_of_image old.now) (table_of_image new.now) (interface_of a) (interface_of b) }
{
    if a == 0 || b == 0 {
        return a == b;
    }
    have_one_name(old, ContractId(a - 1), new, ContractId(b - 1))
}

fn is_asset(contract: &ContractCode) -> bool
    ensures { result ≡ is_marked 0 contract.now.flags }
{
    contract.flags & 1 == 1
}

fn are_marked_alike(a: &ContractCode, b: &ContractCode) -> bool
    ensures { result ≡ are_marked_alike (contract_of_code a.now) (contract_of_code b.now) }
{
    is_asset(a) == is_asset(b) && is_main(a) == is_main(b) && is_interface(a) == is_interface(b)
}

/// Whether a contract of a new program declares the same as an old one, but for constructors and transactions.
#[tactic(auto, using(crate::proofs::Pairs::contracts))]
pub fn is_same_contract(old: &Image, a: &ContractCode, new: &Image, b: &ContractCode) -> bool
    ensures { result ≡ is_same_contract (table_of_image old.now) (table_of_image new.now) (contract_of_code a.now) (contract_of_code b.now) }
{
    a.name.as_bytes() == b.name.as_bytes()
        && are_marked_alike(a, b)
        && is_same_interface(old, a.implements, new, b.implements)
        && are_same_names(a.states.as_slice(), b.states.as_slice())
        && are_same_fields(old, a.fields.as_slice(), new, b.fields.as_slice())
}
