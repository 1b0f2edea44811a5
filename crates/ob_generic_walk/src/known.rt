//! The instances that are needed so far, by their printed names.
ghost use Rattle.std.specs.Prelude.{◌≡◌, [], ◌∷◌, ◌++◌, map, length, slice_get, OnOk};
ghost use Rattle.std.specs.Option.{option_copied};
ghost use Rattle.ob_resolve_scope.specs.Numbered.{numbered};
ghost use Rattle.ob_generic_spec.specs.Instances.{is_known, with_instance};

use ob_base::{Items, MOST_NOTED, Memory};
use ob_generic_spec::Instance;
use ob_resolve_scope::Names;
use std::alloc::Global;
use std::marker::Model;

/// Instances in the order in which they were first needed, by their printed names.
#[derive(Drop)]
pub struct Known {
    names: Names,
    instances: Items<Instance>,
}

impl Model for Known {
    ghost use Rattle.std.specs.Prelude.{◌≡◌, List, map};
    ghost use Rattle.ob_resolve_scope.specs.Numbered.{numbered};
    ghost use Rattle.ob_generic_spec.specs.declared.instance.Instance.{Instance};

    ghost Value = { List Instance };

    ghost view = { λ k. k.instances };

    ghost invariant = { λ k. k.names ≡ numbered (map (λ x. x.name) k.instances) };
}

// One more instance after the others.
#[tactic(auto, using(crate::proofs::KnownLemmas::known))]
fn put_last(
    alloc: Global,
    names: &mut Names,
    instances: &mut Items<Instance>,
    instance: Instance,
) -> Result<(), Memory>
    requires { names.old ≡ numbered (map (λ x. x.name) instances.old) }
    ensures names { names.new ≡ numbered (map (λ x. x.name) instances.new) }
    ensures instances { OnOk result (instances.new ≡ instances.old ++ instance ∷ []) }
{
    let count = names.len();
    names.add(alloc, instance.name.as_slice(), instances.len())?;
    match instances.push(instance) {
        Ok(()) => Ok(()),
        Err(_) => {
            names.truncate(count);
            Err(Memory)
        }
    }
}

impl Known {
    /// No instances yet.
    pub fn new(alloc: Global) -> Known
        ensures { result ≡ [] }
    {
        Known {
            names: Names::new(alloc),
            instances: Items::new(alloc),
        }
    }

    /// Whether one of this name is among them.
    #[tactic(auto, using(crate::proofs::KnownLemmas::known))]
    pub fn has(&self, name: &[u8]) -> bool
        ensures { result ≡ is_known self.now name.now }
    {
        self.names.find(name).is_some()
    }

    /// All of them.
    pub fn as_slice(&self) -> &[Instance]
        ensures { result.now ≡ self.now }
    {
        self.instances.as_slice()
    }

    /// How many there are.
    pub fn len(&self) -> usize
        ensures { result ≡ length self.now }
    {
        self.instances.len()
    }

    /// The instance of this number.
    pub fn get(&self, number: usize) -> Option<&Instance>
        ensures { option_copied result ≡ slice_get self.now number }
    {
        self.instances.get(number)
    }

    /// Adds the instance, unless one of its name is there, or as many as are noted.
    pub fn add(&mut self, alloc: Global, instance: Instance) -> Result<(), Memory>
        ensures { OnOk result (self.new ≡ with_instance self.old instance) }
    {
        if self.has(instance.name.as_slice()) || self.len() >= MOST_NOTED {
            return Ok(());
        }
        put_last(alloc, &mut self.names, &mut self.instances, instance)
    }
}
