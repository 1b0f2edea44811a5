//! What types ask of the contracts and interfaces of a program, by name.
ghost use Rattle.std.specs.Prelude.{◌≡◌, map, option_map, IfOk};
ghost use Rattle.std.specs.Option.{option_copied};
ghost use Rattle.ob_resolve_scope.specs.Numbered.{numbered};
ghost use Rattle.ob_generic_spec.specs.Heads.{head_named};
ghost use Rattle.ob_generic_spec.specs.Instances.{number_named};

use ob_base::{Items, Memory, Text};
use ob_generic_spec::Head;
use ob_resolve_scope::Names;
use std::alloc::Global;
use std::marker::Model;

/// The heads of a program's contracts and interfaces, in the order of the text. Of two that have one name the first is found.
#[derive(Drop)]
pub struct Heads {
    heads: Items<Head>,
    names: Names,
    states: Items<Names>,
}

impl Model for Heads {
    ghost use Rattle.std.specs.Prelude.{List};
    ghost use Rattle.ob_generic_spec.specs.declared.head.Head.{Head};
    ghost use Rattle.ob_generic_names.specs.HeadsByName.{AreByName};

    ghost Value = { List Head };

    ghost view = { λ h. h.heads };

    ghost invariant = { λ h. AreByName h.heads h.names h.states };
}

#[tactic(auto, using(crate::proofs::HeadsLemmas::turns))]
fn names_of_heads(heads: &[Head], alloc: Global) -> Result<Names, Memory>
    ensures { IfOk result (λ names. names ≡ numbered (map (λ h. h.name) heads.now)) }
{
    let mut names = Names::new(alloc);
    for number in 0..heads.len() {
        names.add(alloc, heads[number].name.as_bytes(), number)?;
    }
    Ok(names)
}

#[tactic(auto, using(crate::proofs::HeadsLemmas::turns))]
fn names_of_states(states: &[Text], alloc: Global) -> Result<Names, Memory>
    ensures { IfOk result (λ names. names ≡ numbered states.now) }
{
    let mut names = Names::new(alloc);
    for number in 0..states.len() {
        names.add(alloc, states[number].as_bytes(), number)?;
    }
    Ok(names)
}

#[tactic(auto, using(crate::proofs::HeadsLemmas::turns))]
fn states_of_heads(heads: &[Head], alloc: Global) -> Result<Items<Names>, Memory>
    ensures { IfOk result (λ all. all ≡ map (λ h. numbered h.states) heads.now) }
{
    let mut all = Items::new(alloc);
    for head in heads {
        all.push(names_of_states(head.states.as_slice(), alloc)?)?;
    }
    Ok(all)
}

impl Heads {
    /// These heads.
    pub fn new(alloc: Global, heads: Items<Head>) -> Result<Heads, Memory>
        ensures { IfOk result (λ all. all ≡ heads) }
    {
        let names = names_of_heads(heads.as_slice(), alloc)?;
        let states = states_of_heads(heads.as_slice(), alloc)?;
        Ok(Heads {
            heads,
            names,
            states,
        })
    }

    /// The number of the first contract or interface of this name.
    #[tactic(auto, using(crate::proofs::HeadsLemmas::found))]
    pub fn find(&self, name: &[u8]) -> Option<usize>
        ensures { result ≡ number_named self.now name.now }
    {
        self.names.find(name)
    }

    /// Its head.
    #[tactic(auto, using(crate::proofs::HeadsLemmas::found))]
    pub fn get(&self, name: &[u8]) -> Option<&Head>
        ensures { option_copied result ≡ head_named self.now name.now }
    {
        match self.find(name) {
            Some(number) => self.heads.get(number),
            None => None,
        }
    }

    /// The numbers of its states by name.
    #[tactic(auto, using(crate::proofs::HeadsLemmas::found))]
    pub fn states(&self, name: &[u8]) -> Option<&Names>
        ensures { option_copied result ≡ option_map (λ h. numbered h.states) (head_named self.now name.now) }
    {
        match self.find(name) {
            Some(number) => self.states.get(number),
            None => None,
        }
    }
}
