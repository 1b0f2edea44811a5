//! The class table of a program (the name is that of Igarashi, Pierce and Wadler, TOPLAS 23(3), 2001).
ghost use Rattle.std.specs.Prelude.{◌≡◌, ◌<◌, ◌≤◌, ◌^◌, map, length, position, IfOk, OnErr};
ghost use Rattle.std.specs.Option.{option_copied};
ghost use Rattle.std.specs.Str.{bytes_eq};
ghost use Rattle.ob_table.specs.StatementsView.{resolved_body_of};
ghost use Rattle.ob_table.specs.Tables.{contract_at, contract_named};

use crate::body::Body;
use crate::contract::Contract;
use ob_base::{ContractId, Duplicate, Items, Memory, both, copy_items};
use std::alloc::Global;
use std::marker::Model;

/// The contracts and interfaces of a program, and the bodies of their constructors and transactions.
#[derive(Drop)]
pub struct Table {
    contracts: Items<Contract>,
    bodies: Items<Body>,
}

impl Model for Table {
    ghost use Rattle.std.specs.Prelude.{map};
    ghost use Rattle.ob_table.specs.Tables.{ClassTable};
    ghost use Rattle.std.specs.Coded.{codes};
    ghost use Rattle.ob_table.specs.StatementsBack.{statements_code};
    ghost use Rattle.ob_table.specs.contracts.stmt.ResolvedStmt as statement;

    ghost Value = { ClassTable };

    ghost coded = { Prim.hlevel (codes, statements_code statement.the_row.coded) };

    ghost use Rattle.std.specs.Prelude.{◌<◌, ◌^◌, length};
    ghost use Rattle.ob_table.specs.StatementsView.{resolved_body_of};

    ghost view = { λ t. record { contracts = t.contracts; bodies = map resolved_body_of t.bodies } };

    ghost invariant = { λ t. length t.contracts < 2 ^ 32 };
}

// The place of the first contract of this name.
fn place_named(contracts: &[Contract], name: &[u8]) -> Option<usize>
    ensures { result ≡ position (λ c. bytes_eq name.now c.name) contracts.now }
{
    contracts
        .iter()
        .position(|contract| name == contract.name.as_bytes())
}

impl Table {
    /// The table of these contracts and bodies. More than 2^32 - 1 contracts count as want of memory.
    pub fn new(contracts: Items<Contract>, bodies: Items<Body>) -> Result<Table, Memory>
        ensures made { IfOk result (λ table. table
            ≡ record { contracts = contracts; bodies = map resolved_body_of bodies }) }
        ensures many { OnErr result (2 ^ 32 ≤ length contracts) }
    {
        if contracts.len() > u32::MAX as usize {
            return Err(Memory);
        }
        Ok(Table { contracts, bodies })
    }

    /// The number of contracts and interfaces.
    pub fn count(&self) -> u32
        ensures { result ≡ length self.now.contracts }
    {
        self.contracts.len() as u32
    }

    /// The contracts and interfaces, in the order of their numbers.
    pub fn contracts(&self) -> &[Contract]
        ensures { result.now ≡ self.now.contracts }
    {
        self.contracts.as_slice()
    }

    /// The contract or interface of this number.
    pub fn contract(&self, id: ContractId) -> Option<&Contract>
        ensures { option_copied result ≡ contract_at self.now id }
    {
        self.contracts.get(id.0 as usize)
    }

    /// The number of the first contract or interface of this name.
    pub fn find(&self, name: &[u8]) -> Option<ContractId>
        ensures { result ≡ contract_named self.now.contracts name.now }
    {
        let place = place_named(self.contracts.as_slice(), name)?;
        Some(ContractId(place as u32))
    }

    /// The bodies, in the order in which they were given.
    pub fn bodies(&self) -> &[Body]
        ensures { map resolved_body_of result.now ≡ self.now.bodies }
    {
        self.bodies.as_slice()
    }
}

impl Duplicate for Table {
    fn copy(&self, alloc: Global) -> Result<Table, Memory> {
        let (contracts, bodies) = both(
            copy_items(alloc, &self.contracts),
            copy_items(alloc, &self.bodies),
        )?;
        Table::new(contracts, bodies)
    }
}
