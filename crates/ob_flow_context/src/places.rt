//! Places, and those under test.
ghost use Rattle.std.specs.Prelude.{◌≡◌};
ghost use Rattle.ob_silica_places.specs.Places.{location_of, same_location};
ghost use Rattle.ob_flow_spec.specs.Contexts.{is_field, is_tested, tests_field};
ghost use Rattle.ob_flow_context.specs.View.{tested_of};

use ob_silica::Place;

/// Whether two places are the same.
pub fn same_place(a: Place, b: Place) -> bool
    ensures { result ≡ same_location (location_of a) (location_of b) }
{
    match (a, b) {
        (Place::Field(f), Place::Field(g)) => f.0 == g.0,
        (Place::Field(_), _) | (_, Place::Field(_)) => false,
        (Place::This, Place::This) => true,
        (Place::This, Place::Slot(k)) | (Place::Slot(k), Place::This) => k == 0,
        (Place::Slot(j), Place::Slot(k)) => j == k,
    }
}

/// Whether a place is a field.
pub fn is_field(place: Place) -> bool
    ensures { result ≡ is_field (location_of place) }
{
    match place {
        Place::Field(_) => true,
        Place::This | Place::Slot(_) => false,
    }
}

/// Whether a place is under test. The innermost of the places under test stands last.
#[tactic(auto, using(crate::proofs::TestedLemmas::tested))]
pub fn is_tested(tested: &[Place], place: Place) -> bool
    ensures { result ≡ is_tested (tested_of tested.now) (location_of place) }
{
    let mut found = false;
    for other in tested {
        if same_place(place, *other) {
            found = true;
        }
    }
    found
}

/// Whether some field is under test.
#[tactic(auto, using(crate::proofs::TestedLemmas::tested))]
pub fn tests_field(tested: &[Place]) -> bool
    ensures { result ≡ tests_field (tested_of tested.now) }
{
    let mut found = false;
    for place in tested {
        if is_field(*place) {
            found = true;
        }
    }
    found
}
