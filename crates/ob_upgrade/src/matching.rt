//! Whether each contract of a program goes on in a new one.
ghost use Rattle.std.specs.Prelude.{◌≡◌, ◌↔◌, false, Err, IsOk, IsSomeAnd, OnOk, IfErr, option_map, position};
ghost use Rattle.std.specs.Str.{bytes_eq};
ghost use Rattle.std.specs.Option.{option_map_or};
ghost use Rattle.ob_table.specs.Tables.{contract_at, contract_id, contract_named};
ghost use Rattle.ob_code_table.specs.ImageTables.{contract_of_code, table_of_image};
ghost use Rattle.ob_upgrade_spec.specs.declared.Mismatch.{Mismatch};
ghost use Rattle.ob_upgrade_spec.specs.Matching.{is_same_contract, DeclaresSame, Match, number_of, IsSo, IsMismatch};

use crate::comparing::is_same_contract;
use ob_code::{ContractCode, Image};
use ob_upgrade_spec::Mismatch;
use ob_verify::Verified;

// The place of the first contract of this name.
fn place_in(contracts: &[ContractCode], name: &[u8]) -> Option<usize>
    ensures { result ≡ position (λ c. bytes_eq name.now c.name) contracts.now }
{
    contracts
        .iter()
        .position(|contract| name == contract.name.as_bytes())
}

/// The number of the first contract or interface of a name.
pub fn place_named(image: &Image, name: &[u8]) -> Option<usize>
    ensures { option_map contract_id result ≡ contract_named (table_of_image image.now).contracts name.now }
{
    place_in(image.contracts.as_slice(), name)
}

// Whether the new program's contract of a number declares the same as an old contract.
#[tactic(auto, using(crate::proofs::Naming::contract_read))]
fn declares_same(old: &Image, contract: &ContractCode, new: &Image, place: usize) -> bool
    ensures { result ≡ option_map_or (is_same_contract (table_of_image old.now) (table_of_image new.now) (contract_of_code contract.now))
        (contract_at (table_of_image new.now) (contract_id place)) false }
{
    match new.contracts.get(place) {
        Some(found) => is_same_contract(old, contract, new, found),
        None => false,
    }
}

// Whether an old contract, which has this number, goes on.
fn match_contract(
    old: &Image,
    number: usize,
    contract: &ContractCode,
    new: &Image,
) -> Result<(), Mismatch>
    ensures goes { OnOk result (IsSomeAnd (contract_named (table_of_image new.now).contracts contract.now.name)
        (DeclaresSame (table_of_image old.now) (table_of_image new.now) (contract_of_code contract.now))) }
    ensures differs { IfErr result (λ m. (number_of m ≡ number)
        × IsSo (table_of_image old.now) (table_of_image new.now) m (contract_of_code contract.now)) }
{
    let Some(place) = place_named(new, contract.name.as_bytes()) else {
        return Err(Mismatch::Missing(number));
    };
    if declares_same(old, contract, new, place) {
        Ok(())
    } else {
        Err(Mismatch::Changed(number))
    }
}

// The first mismatch, or none.
fn match_images(old: &Image, new: &Image) -> Result<(), Mismatch>
    ensures matched { OnOk result (Match (table_of_image old.now) (table_of_image new.now)) }
    ensures refused { IfErr result (IsMismatch (table_of_image old.now) (table_of_image new.now)) }
{
    let contracts = old.contracts.as_slice();
    for number in 0..contracts.len() {
        match_contract(old, number, &contracts[number], new)?;
    }
    Ok(())
}

/// Whether the stores of a program go on with a new one: whether the new one has, for each contract of the old, one of its name that
/// declares the same, but for constructors and transactions. `Missing` and `Changed` tell of the first contract of which that is false,
/// in the order of the old program.
pub fn match_programs(old: &Verified, new: &Verified) -> Result<(), Mismatch>
    ensures matched { IsOk result ↔ Match (table_of_image old.now) (table_of_image new.now) }
    ensures refused { (m : Mismatch) → (result ≡ Err m) ↔ IsMismatch (table_of_image old.now) (table_of_image new.now) m }
{
    match_images(old.image(), new.image())
}
