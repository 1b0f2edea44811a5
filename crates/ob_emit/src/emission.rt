//! The image of a program.
ghost use Rattle.std.specs.Prelude.{◌≡◌, ◌≤◌, map, length, All, IfOk, IfErr, OnOk};
ghost use Rattle.ob_base.specs.Faults.{limit};
ghost use Rattle.ob_base.specs.Limits.{most_weight};
ghost use Rattle.ob_base.specs.TextErrors.{OnFault};
ghost use Rattle.ob_table_spec.specs.Conditions.{IsClassTable};
ghost use Rattle.ob_silica.specs.TermsView.{silica_body_of};
ghost use Rattle.ob_silica_formed.specs.WellFormedTerms.{IsWellFormedTerms};
ghost use Rattle.ob_code.specs.Images.{image};
ghost use Rattle.ob_emit_spec.specs.EmittedImages.{image_of};
ghost use Rattle.ob_emit_spec.specs.Weights.{weight, text_start, IsTooHeavy};
ghost use Rattle.ob_weight_laws.specs.Bodies.{StandInOrder};

use crate::bodies::emit_image;
use crate::weigh::is_light;
use ob_base::{LIMIT, ProgramFault, Span, TextError};
use ob_code::Image;
use ob_silica::TermBody;
use ob_table::Table;
use std::alloc::Global;

/// Why a program has no image: its fault is that it weighs more than it may.
pub type EmitError = TextError;

// The fault of a program that weighs more than it may: it is told at the first place of the text.
fn too_heavy() -> ProgramFault
    ensures { result ≡ record { number = limit; span = text_start } }
{
    ProgramFault {
        number: LIMIT,
        span: Span {
            start: 0,
            end: 0,
            line: 1,
            column: 1,
        },
    }
}

/// The image of a class table and the terms of its bodies, one for each constructor and transaction in their order, or the fault
/// of a program that weighs more than it may. The image of a well-formed program has a spelling, so that it may be encoded. A body
/// that needs more than 255 slots counts as want of memory, and so does a number of the table that has no room in the image.
pub fn emit(alloc: Global, table: &Table, bodies: &[TermBody]) -> Result<Image, EmitError>
    requires { StandInOrder table.now (map silica_body_of bodies.now) }
    ensures image { IfOk result (λ image. image ≡ image_of table.now (map silica_body_of bodies.now)) }
    ensures light { OnOk result (weight table.now (map silica_body_of bodies.now) ≤ most_weight) }
    ensures bytes { IfOk result (λ made. length (image.bytes made) ≤ weight table.now (map silica_body_of bodies.now)) }
    ensures fits { IfOk result (λ made. IsClassTable table.now → All (IsWellFormedTerms table.now) (map silica_body_of bodies.now)
        → image.fits made) }
    ensures fault { IfErr result (λ e. OnFault e (IsTooHeavy table.now (map silica_body_of bodies.now))) }
{
    if !is_light(table, bodies) {
        return Err(EmitError::Fault(too_heavy()));
    }
    Ok(emit_image(alloc, table, bodies)?)
}
