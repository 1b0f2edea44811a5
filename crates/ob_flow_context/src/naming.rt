//! The states of a contract as its interface names them.
ghost use Rattle.std.specs.Prelude.{◌≡◌, ◌≤◌, ℕ, length, option_map, IfOk};
ghost use Rattle.ob_perm.specs.Naming.{IsNaming};
ghost use Rattle.ob_table_spec.specs.Names.{number_of};
ghost use Rattle.ob_table_spec.specs.Conditions.{naming};

use ob_base::{Items, Memory, Name, StateId};
use ob_table::Contract;
use std::alloc::Global;

// The number of the first of these names that is the same.
#[tactic(auto, using(crate::proofs::NamingLemmas::numbering))]
fn number_of(name: &[u8], names: &[Name]) -> Option<StateId>
    requires { length names.now ≤ 32 }
    ensures { result ≡ option_map (λ n. record { 0 = n }) (number_of name.now names.now) }
{
    for i in 0..names.len() {
        if name == names[i].as_bytes() {
            return Some(StateId(i as u8));
        }
    }
    None
}

// For each state of a contract, in order, the interface's state of that name, if it has one.
#[tactic(auto, using(crate::proofs::NamingLemmas::numbering))]
pub(crate) fn naming(
    alloc: Global,
    interface: &Contract,
    contract: &Contract,
) -> Result<Items<Option<StateId>>, Memory>
    requires interface { length interface.now.states ≤ 32 }
    requires contract { length contract.now.states ≤ 32 }
    ensures is { IfOk result (λ names. names ≡ naming interface.now contract.now) }
    ensures few { IfOk result (λ names. IsNaming names) }
{
    let mut names = Items::new(alloc);
    for state in contract.states.as_slice() {
        names.push(number_of(state.as_bytes(), interface.states.as_slice()))?;
    }
    Ok(names)
}
