//! Where slots end: those of a statement's temporaries, and those of a block's variables.
ghost use Rattle.std.specs.Prelude.{◌≡◌, OnOk, if◌then◌else◌};
ghost use Rattle.ob_silica.specs.Terms.{then_terms};
ghost use Rattle.ob_lower_spec.specs.Forms.{drops};
ghost use Rattle.ob_lower_functions.specs.StatementCode.{slots_between};

use crate::code::Code;
use crate::slots::Slots;
use ob_base::{Memory, Span};

/// The temporaries of a statement that are references are dropped, in the order made.
pub fn drop_temporaries(slots: &Slots, span: Span, out: &mut Code) -> Result<(), Memory>
    ensures { OnOk result (out.new ≡ then_terms out.old (drops slots.now.references span)) }
{
    out.put_drops(slots.references(), span)
}

// The slots of a block's own variables, from the first number up to the second, are dropped, the last declared first.
fn drop_locals(low: u8, high: u8, span: Span, out: &mut Code) -> Result<(), Memory>
    ensures { OnOk result (out.new ≡ then_terms out.old (drops (slots_between low high) span)) }
{
    for slot in (low..high).rev() {
        out.put_drop(slot, span)?;
    }
    Ok(())
}

/// A block's last terms: unless nothing is reached after its statements, the slots of its own variables, from the first
/// number up to the second, are dropped, the last declared first.
pub fn end_block(ends: bool, low: u8, high: u8, end: Span, out: &mut Code) -> Result<(), Memory>
    ensures { OnOk result (out.new ≡ (if ends then out.old
        else then_terms out.old (drops (slots_between low high) end))) }
{
    if !ends {
        drop_locals(low, high, end, out)?;
    }
    Ok(())
}
