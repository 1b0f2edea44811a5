//! The terms of the bodies of a class table.
ghost use Rattle.std.specs.Prelude.{◌≡◌, [], ◌∷◌, ◌++◌, map, OnOk, IfOk, IfErr};
ghost use Rattle.ob_silica.specs.TermsView.{silica_body_of};
ghost use Rattle.ob_base.specs.TextErrors.{OnFault};
ghost use Rattle.ob_front.specs.Lowered.{AreLoweredTo, LacksSlots};

use ob_base::{Items, Memory};
use ob_lower::{LowerError, lower};
use ob_silica::TermBody;
use ob_table::Table;
use std::alloc::Global;

fn add(bodies: &mut Items<TermBody>, body: TermBody) -> Result<(), Memory>
    ensures { OnOk result (bodies.new ≡ bodies.old ++ body ∷ []) }
{
    Ok(bodies.push(body)?)
}

/// The terms of the bodies of a class table, in their order, or the fault of the first one that needs more slots than it may
/// have.
pub fn lower_bodies(alloc: Global, table: &Table) -> Result<Items<TermBody>, LowerError>
    ensures bodies { IfOk result (λ bodies. AreLoweredTo table.now table.now.bodies (map silica_body_of bodies)) }
    ensures fault { IfErr result (λ e. OnFault e (LacksSlots table.now)) }
{
    let mut lowered = Items::new(alloc);
    for body in table.bodies() {
        let terms = lower(alloc, table, body)?;
        add(&mut lowered, terms)?;
    }
    Ok(lowered)
}
