//! Laws of stores that go on with a new program.
ghost use Rattle.ob_upgrade_laws.specs.Laws.{UpgradedStoresAreAtRest, UpgradedObjectsFailAlike, NamesakesAreThere, MatchesHaveNoMismatch, HaveOneMismatch, ProgramsMatchThemselves};

/// Where programs match, and no two contracts of either have one name, a store at rest for the old one is at rest for the new one,
/// within the same limits.
pub fn upgraded_stores_are_at_rest()
    ensures { UpgradedStoresAreAtRest }
{}

/// The same of each object, whether the store is at rest or not: it fails in the ways in which it failed.
pub fn upgraded_objects_fail_alike()
    ensures { UpgradedObjectsFailAlike }
{}

/// Where programs match, the number that an old contract gets is that of a contract of its name that declares the same.
pub fn namesakes_are_there()
    ensures { NamesakesAreThere }
{}

/// Programs that match have no mismatch, and others have one at most.
pub fn one_mismatch()
    ensures none { MatchesHaveNoMismatch }
    ensures one { HaveOneMismatch }
{}

/// A program matches itself.
pub fn programs_match_themselves()
    ensures { ProgramsMatchThemselves }
{}
