//! Whether contracts answer for the transactions of an interface.
ghost use Rattle.std.specs.Prelude.{◌≡◌, map};
ghost use Rattle.ob_verify_spec.specs.Kinds.{kind_of_param};
ghost use Rattle.ob_verify_spec.specs.Conditions.{same_kinds, same_result, answers_for, has_answer};
ghost use Rattle.ob_verify.specs.Named.{HavePlaces};

use crate::kinds::{kind_of_param, kind_of_result, same_kind};
use crate::transactions::Places;
use ob_code::{BodyCode, ContractCode, ParamCode, is_private};
use ob_table::Kind;

#[tactic(auto, using(crate::proofs::ListLoops::params))]
fn same_params(asked: &[ParamCode], given: &[ParamCode]) -> bool
    ensures { result ≡ same_kinds (map kind_of_param asked.now) (map kind_of_param given.now) }
{
    if asked.len() != given.len() {
        return false;
    }
    for i in 0..asked.len() {
        if !same_kind(kind_of_param(asked[i]), kind_of_param(given[i])) {
            return false;
        }
    }
    true
}

/// Whether two kinds, where there are any, are one.
pub fn same_result(asked: Option<Kind>, given: Option<Kind>) -> bool
    ensures { result ≡ same_result asked given }
{
    match (asked, given) {
        (None, None) => true,
        (Some(asked), Some(given)) => same_kind(asked, given),
        _ => false,
    }
}

fn answers_for(asked: &BodyCode, body: &BodyCode) -> bool
    ensures { result ≡ answers_for asked.now body.now }
{
    !is_private(body)
        && same_params(asked.params.as_slice(), body.params.as_slice())
        && same_result(kind_of_result(asked), kind_of_result(body))
}

/// Whether a contract's first transaction of a name can answer for one of an interface, by the places of its transactions.
#[tactic(auto, using(crate::proofs::PlaceLemmas::found))]
pub fn has_answer(asked: &BodyCode, own: &ContractCode, places: &Places) -> bool
    requires { HavePlaces places.now own.now.bodies }
    ensures { result ≡ has_answer asked.now own.now }
{
    match places.find(asked.name.as_bytes()) {
        Some(place) => match own.bodies.get(place) {
            Some(body) => answers_for(asked, body),
            None => false,
        },
        None => false,
    }
}
