//! The names of a program's contracts, and of the transactions of each.
ghost use Rattle.std.specs.Prelude.{◌≡◌, map, option_map, IfOk, OnOk};
ghost use Rattle.ob_exec_entries.specs.Naming.{tx_id, contract_in, transaction_in, IsNamesOf, contract_names, body_names, AreNumbered};
ghost use Rattle.ob_exec_entries.specs.Numbered.{number_in, added, IsNumbering};

use crate::numbering::Numbering;
use ob_base::{ContractId, Items, Label, Memory, TxId};
use ob_code::{BodyCode, ContractCode, Image};
use std::alloc::Global;

/// The contracts and interfaces of a program by their names, and the transactions of each by theirs. It is made once for
/// a program, and then a name is found in a time that doesn't grow with the number of names.
#[derive(Drop)]
pub struct Names {
    contracts: Numbering,
    transactions: Items<Numbering>,
}

// Adds the name of a thing at this place; there are always fewer than 2^32 of what memory holds of them.
fn add_at(numbering: &mut Numbering, alloc: Global, name: &[u8], place: usize) -> Result<(), Memory>
    ensures { OnOk result (numbering.new ≡ added numbering.old name.now place) }
{
    if place > 0xffff_ffff {
        return Err(Memory);
    }
    numbering.add(alloc, name, place as u32)
}

// The numbers of the transactions of a contract.
fn number_bodies(alloc: Global, bodies: &[BodyCode]) -> Result<Numbering, Memory>
    ensures { IfOk result (λ numbering. IsNumbering (map (λ b. b.name) bodies.now) numbering) }
{
    let mut numbering = Numbering::new(alloc);
    for (place, body) in bodies.iter().enumerate() {
        add_at(&mut numbering, alloc, body.name.as_bytes(), place)?;
    }
    Ok(numbering)
}

// The numbers of contracts and interfaces.
fn number_contracts(alloc: Global, contracts: &[ContractCode]) -> Result<Numbering, Memory>
    ensures { IfOk result (λ numbering. IsNumbering (contract_names contracts.now) numbering) }
{
    let mut numbering = Numbering::new(alloc);
    for (place, contract) in contracts.iter().enumerate() {
        add_at(&mut numbering, alloc, contract.name.as_bytes(), place)?;
    }
    Ok(numbering)
}

// The numbers of the transactions of each contract.
fn number_all(alloc: Global, contracts: &[ContractCode]) -> Result<Items<Numbering>, Memory>
    ensures { IfOk result (AreNumbered contracts.now) }
{
    let mut all = Items::new(alloc);
    for contract in contracts {
        all.push(number_bodies(alloc, contract.bodies.as_slice())?)?;
    }
    Ok(all)
}

fn transaction_of(numbering: &Numbering, name: &Label) -> Option<TxId>
    ensures { result ≡ option_map tx_id (number_in name.now numbering.now) }
{
    match numbering.find(name.as_bytes()) {
        Some(number) => Some(TxId(number)),
        None => None,
    }
}

impl Names {
    /// The names of a program.
    pub fn of(alloc: Global, code: &Image) -> Result<Names, Memory>
        ensures { IfOk result (λ names. IsNamesOf names code.now) }
    {
        let contracts = number_contracts(alloc, code.contracts.as_slice())?;
        let transactions = number_all(alloc, code.contracts.as_slice())?;
        Ok(Names {
            contracts,
            transactions,
        })
    }

    /// The contract or interface of a name.
    pub fn contract(&self, name: &Label) -> Option<ContractId>
        ensures { result ≡ contract_in self.now name.now }
    {
        match self.contracts.find(name.as_bytes()) {
            Some(number) => Some(ContractId(number)),
            None => None,
        }
    }

    /// The transaction of a name, of the contract or interface of a number.
    pub fn transaction(&self, contract: ContractId, name: &Label) -> Option<TxId>
        ensures { result ≡ transaction_in self.now contract name.now }
    {
        match self.transactions.get(contract.0 as usize) {
            Some(numbering) => transaction_of(numbering, name),
            None => None,
        }
    }
}
