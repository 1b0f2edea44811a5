//! Laws of a store at rest.
ghost use Rattle.std.specs.Prelude.{◌≡◌, ◌↔◌, ◌+◌, ℕ, slice_get, None};
ghost use Rattle.ob_table.specs.Tables.{ClassTable};
ghost use Rattle.ob_heap_spec.specs.Contents.{Content, empty_content};
ghost use Rattle.ob_rest_spec.specs.Incoming.{owning_places, owner_of, owners};
ghost use Rattle.ob_rest_spec.specs.AtRest.{IsAtRest, IsStoreAtRest, first_failing_object, EachAssetHasOneOwner};
ghost use Rattle.ob_rest_laws.specs.Laws.{FailsInNoWay, field_owners, handle_owners, ChangesQuietly};

/// A store is at rest exactly where each of its objects fails in none of the six ways.
pub fn at_rest_is_asked_way_by_way()
    ensures { (table : ClassTable) (content : Content) → IsAtRest table content ↔ FailsInNoWay table content }
{}

/// In a store at rest each asset that is marked neither as shared nor as disowned has exactly one owner.
pub fn assets_have_one_owner()
    ensures { (table : ClassTable) (content : Content) → IsAtRest table content → EachAssetHasOneOwner table content }
{}

/// A store is at rest exactly where no object is the first that fails.
pub fn first_failing_object_is_told()
    ensures { (table : ClassTable) (content : Content)
        → (first_failing_object table content ≡ None) ↔ IsAtRest table content }
{}

/// The owning places of an object are the fields and the handles that own it.
pub fn owners_add_up()
    ensures { (table : ClassTable) (content : Content) (n : ℕ) → owners table content n
        ≡ field_owners table content.objects n + handle_owners content.handles n }
{}

/// The owner of an object is the first of its owning places; it has none where there are none.
pub fn owner_is_first_owning_place()
    ensures { (table : ClassTable) (content : Content) (n : ℕ)
        → owner_of table content n ≡ slice_get (owning_places table content n) 0 }
{}

/// A store at rest stays so where objects gain marks at most, and owners and Shared handles change with the marks.
pub fn quiet_changes_keep_rest()
    ensures { (table : ClassTable) (content after : Content) → IsAtRest table content
        → ChangesQuietly table content after → IsAtRest table after }
{}

/// The store at the start, which holds nothing, is at rest for each class table.
pub fn empty_store_is_at_rest()
    ensures { (table : ClassTable) → IsStoreAtRest table empty_content }
{}
