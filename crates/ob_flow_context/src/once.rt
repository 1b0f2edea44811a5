//! Places that are given more than once.
ghost use Rattle.std.specs.Prelude.{◌≡◌, ◌&&◌, map};
ghost use Rattle.ob_silica_places.specs.Parameters.{parameter_of};
ghost use Rattle.ob_perm.specs.Permissions.{owns};
ghost use Rattle.ob_silica_places.specs.Known.{permission_of_type};
ghost use Rattle.ob_silica_places.specs.Places.{location_of, located, same_location};
ghost use Rattle.ob_flow_spec.specs.Binding.{reads_of, wants_owner, is_among, is_given_owning};
ghost use Rattle.ob_flow_spec.specs.Binding.{each_once, keeps_fields};
ghost use Rattle.ob_flow_context.specs.Checking.{MeetsPremises};
ghost use Rattle.ob_flow_context.specs.Parameters.{plain_parameter, plain_parameters};

use crate::checking::{FlowError, must};
use crate::kinds::permission_of_type;
use crate::passing::Parameter;
use crate::places::{is_field, same_place};
use ob_base::{Mode, USED_TWICE};
use ob_silica::{Operand, Place};
use ob_table::{Param, ResolvedType};

// Whether a parameter of this type wants an owner.
pub(crate) fn wants_owner(of: ResolvedType) -> bool
    ensures { result ≡ owns (permission_of_type of) }
{
    permission_of_type(of).mode == Mode::Owned
}

// Whether a place is among those read.
#[tactic(auto, using(crate::proofs::OnceLemmas::among))]
fn is_among(place: Place, reads: &[Operand]) -> bool
    ensures { result ≡ is_among (location_of place) (reads_of reads.now) }
{
    for read in reads {
        if same_place(place, read.place) {
            return true;
        }
    }
    false
}

// Whether this read gives the place to a parameter that wants an owner.
fn gives_owner(place: Place, read: Operand, to: Parameter) -> bool
    ensures { result ≡ (same_location (location_of place) (located read) && wants_owner (plain_parameter to)) }
{
    same_place(place, read.place) && wants_owner(to.of)
}

// Whether a place is given to a parameter that wants an owner.
#[tactic(auto, using(crate::proofs::OnceLemmas::among))]
fn is_given_owning(place: Place, reads: &[Operand], params: &[Parameter]) -> bool
    ensures { result ≡ is_given_owning (location_of place) (reads_of reads.now) (plain_parameters params.now) }
{
    let count = reads.len().min(params.len());
    for i in 0..count {
        if gives_owner(place, reads[i], params[i]) {
            return true;
        }
    }
    false
}

// Whether a place is among those before, and some of its uses wants an owner.
fn is_again(place: Place, before: &[Operand], reads: &[Operand], params: &[Parameter]) -> bool
    ensures { result ≡ (is_among (location_of place) (reads_of before.now)
        && is_given_owning (location_of place) (reads_of reads.now) (plain_parameters params.now)) }
{
    is_among(place, before) && is_given_owning(place, reads, params)
}

/// Asks that no place is given twice, once of it to an owner.
#[tactic(auto, using(crate::proofs::OnceLemmas::once_each))]
pub fn each_once(reads: &[Operand], params: &[Parameter]) -> Result<(), FlowError>
    ensures { MeetsPremises result (each_once (reads_of reads.now) (plain_parameters params.now)) }
{
    for i in 0..reads.len() {
        let again = is_again(reads[i].place, &reads[..i], reads, params);
        must(USED_TWICE, reads[i].span, !again)?;
    }
    Ok(())
}

/// Asks that no field is given to a parameter that wants an owner and gives it back.
#[tactic(auto, using(crate::proofs::OnceLemmas::keeping))]
pub fn keeps_fields(reads: &[Operand], params: &[Param]) -> Result<(), FlowError>
    ensures { MeetsPremises result (keeps_fields (reads_of reads.now) (map parameter_of params.now)) }
{
    let count = reads.len().min(params.len());
    for i in 0..count {
        let lent = wants_owner(params[i].of) && params[i].exit.mode != Mode::Unowned;
        must(
            USED_TWICE,
            reads[i].span,
            !(is_field(reads[i].place) && lent),
        )?;
    }
    Ok(())
}
