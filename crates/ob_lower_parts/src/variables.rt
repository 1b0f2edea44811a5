//! The variables that are visible.
ghost use Rattle.std.specs.Prelude.{◌≡◌, ◌<◌, ◌-◌, ◌∷◌, length, drop, option_map, IfOk, OnOk};
ghost use Rattle.std.specs.Option.{option_copied};
ghost use Rattle.ob_table_spec.specs.WellFormed.{local_kind};
ghost use Rattle.ob_lower_spec.specs.Forms.{locals_of, place_seen, params_from};
ghost use Rattle.ob_lower_parts.specs.Visible.{variable_of, newest_first, variable_at};

use crate::frame::kind_of_resolved;
use ob_base::{MOST_SLOTS, Memory};
use ob_silica::Place;
use ob_table::{Kind, Param, Seen};
use std::alloc::Global;
use std::marker::Model;

/// A variable that is visible: its number, its kind, and its slot.
#[derive(Clone, Copy)]
pub struct SlotVariable {
    /// Its number in the body, from 1: the parameters beside `this` come first.
    pub local: u32,
    /// The kind of its value, without a permission.
    pub kind: Kind,
    /// The slot that its value is in, from 1 to 127.
    pub slot: u8,
}

/// The variables that are visible, the last declared last.
#[derive(Drop)]
pub struct Variables {
    items: Vec<SlotVariable>,
}

impl Model for Variables {
    ghost use Rattle.std.specs.Prelude.{List};
    ghost use Rattle.ob_lower_spec.specs.Forms.{SlotVariable as Point};
    ghost use Rattle.ob_lower_parts.specs.Visible.{newest_first};

    ghost Value = { List Point };

    ghost view = { λ v. newest_first v.items.items };
}

// The variable of this number among these, of which the last declared is the last.
#[tactic(auto, using(crate::proofs::VariablesLemmas::variables))]
fn find(variables: &[SlotVariable], local: u32) -> Option<&SlotVariable>
    ensures { option_map variable_of (option_copied result) ≡ variable_at (newest_first variables.now) local }
{
    for index in (0..variables.len()).rev() {
        let variable = &variables[index];
        if variable.local == local {
            return Some(variable);
        }
    }
    None
}

impl Variables {
    /// The parameters beside `this`, each with the slot of its number.
    #[tactic(auto, using(crate::proofs::VariablesLemmas::variables))]
    pub fn of_params(alloc: Global, params: &[Param]) -> Result<Variables, Memory>
        requires { length params.now < MOST_SLOTS }
        ensures { IfOk result (λ vs. vs ≡ params_from 1 params.now) }
    {
        let mut items = Vec::new(alloc);
        for index in (0..params.len()).rev() {
            items.push(SlotVariable {
                local: index as u32 + 1,
                kind: kind_of_resolved(&params[index].of),
                slot: index as u8 + 1,
            })?;
        }
        Ok(Variables { items })
    }

    /// One more variable.
    #[tactic(auto, using(crate::proofs::VariablesLemmas::variables))]
    pub fn add(&mut self, variable: SlotVariable) -> Result<(), Memory>
        ensures { OnOk result (self.new ≡ variable_of variable ∷ self.old) }
    {
        self.items.push(variable)?;
        Ok(())
    }

    /// How many are visible.
    #[tactic(auto, using(crate::proofs::VariablesLemmas::variables))]
    pub fn len(&self) -> usize
        ensures { result ≡ length self.now }
    {
        self.items.len()
    }

    /// Keeps the first variables alone, as at the end of a block.
    #[tactic(auto, using(crate::proofs::VariablesLemmas::variables))]
    pub fn leave(&mut self, visible: usize)
        ensures { self.new ≡ drop (length self.old - visible) self.old }
    {
        self.items.truncate(visible);
    }

    /// The kind of the variable of this number.
    #[tactic(auto, using(crate::proofs::VariablesLemmas::found))]
    pub fn kind_of(&self, local: u32) -> Option<Kind>
        ensures { result ≡ local_kind (locals_of self.now) local }
    {
        match find(self.items.as_slice(), local) {
            None => None,
            Some(variable) => Some(variable.kind),
        }
    }

    /// Where what a name denotes is found.
    #[tactic(auto, using(crate::proofs::VariablesLemmas::found))]
    pub fn place_seen(&self, seen: Seen) -> Option<Place>
        ensures { result ≡ place_seen self.now seen }
    {
        match seen {
            Seen::This => Some(Place::This),
            Seen::Local(local) => match find(self.items.as_slice(), local) {
                None => None,
                Some(variable) => Some(Place::Slot(variable.slot)),
            },
            Seen::Field(id) => Some(Place::Field(id)),
        }
    }
}
