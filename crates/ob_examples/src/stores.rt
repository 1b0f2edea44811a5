//! Stores at rest and stores that fail to be.
ghost use Rattle.std.specs.Prelude.{◌≡◌, [], map, true};
ghost use Rattle.std.specs.List.{list_all};
ghost use Rattle.ob_examples.specs.Depot.{failures, has_no_failure};
ghost use Rattle.ob_examples.specs.StoresAtRest.{first_stores_at_rest, other_stores_at_rest};
ghost use Rattle.ob_examples.specs.FailingStores.{first_failing_stores, first_failures, other_failing_stores, other_failures};

/// Of 108 stores that requests left of a depot, no object fails to be at rest. Of 108 others, which are changed at a place or
/// two, just these objects fail, each in these ways; that was counted place by place without the definition.
pub fn stores_at_rest_and_others()
    ensures first { list_all has_no_failure first_stores_at_rest ≡ true }
    ensures others { list_all has_no_failure other_stores_at_rest ≡ true }
    ensures first_fail { map failures first_failing_stores ≡ first_failures }
    ensures others_fail { map failures other_failing_stores ≡ other_failures }
{}
