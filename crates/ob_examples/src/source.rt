//! Which faults small programs have, and the class table of one that has none.
ghost use Rattle.std.specs.Prelude.{◌≡◌, Some, None};
ghost use Rattle.ob_base.specs.Faults.{interface_mismatch, non_asset_owner, missing_return, unknown_name, duplicate};
ghost use Rattle.ob_resolve_spec.specs.Least.{least_fault};
ghost use Rattle.ob_resolve_spec.specs.TableOf.{table_of};
ghost use Rattle.ob_examples.specs.Trees.{fault, asset_behind_interface, plain_owner, no_return, unknown_type, two_of_a_name, counter, counter_table};

/// The faults of small programs and their places, and a program without faults with its table.
pub fn small_programs()
    ensures asset_behind_interface { least_fault asset_behind_interface ≡ Some (fault interface_mismatch 31 32) }
    ensures plain_owner { least_fault plain_owner ≡ Some (fault non_asset_owner 42 43) }
    ensures no_return { least_fault no_return ≡ Some (fault missing_return 48 49) }
    ensures unknown_type { least_fault unknown_type ≡ Some (fault unknown_name 13 14) }
    ensures two_of_a_name { least_fault two_of_a_name ≡ Some (fault duplicate 24 25) }
    ensures no_fault { least_fault counter ≡ None }
    ensures table { table_of counter ≡ counter_table }
{}
