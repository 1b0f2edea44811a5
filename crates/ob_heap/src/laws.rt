//! What equal means, and what plain data the views give.
ghost use Rattle.std.specs.Prelude.{◌≡◌, ◌<◌, ◌++◌, ◌↔◌, ℕ, List, Option, true, not, map, slice_get, slice_set, option_map, AllPairs};
ghost use Rattle.std.specs.Option.{unwrap_or};
ghost use Rattle.std.specs.Ordering.{eq_by_cmp};
ghost use Rattle.std.specs.FinMap.Entries.{put as put_key, where_key};
ghost use Rattle.std.specs.declared.cmp.Ordering.TheVariants.{Less};
ghost use Rattle.ob_base.specs.declared.name.Label.{Label};
ghost use Rattle.ob_base.specs.declared.id.FieldId.{FieldId};
ghost use Rattle.ob_heap.specs.declared.object.Object.{Object};
ghost use Rattle.ob_heap.specs.declared.object.Handle.{Handle};
ghost use Rattle.ob_heap.specs.declared.value.Value.{Value};
ghost use Rattle.ob_heap.specs.Contents.{name_of, named_of, handle_at, IsInOrder};
ghost use Rattle.ob_heap.specs.Deltas.{with_handle, without_handle, with_handles, change_at};
ghost use Rattle.ob_heap.specs.Differences.{same_object};
ghost use Rattle.ob_heap.specs.Fields.{with_value};
ghost use Rattle.ob_heap.specs.Overlays.{Changes, noted, IsSameBeside, KeepsOthers, is_read, KeepsUnread, no_object, AreChangesRead};
ghost use Rattle.ob_heap.specs.Plain.{value_of, fields_of, object_of, handle_of};
ghost use Rattle.ob_heap_spec.specs.Contents.{HandleName, Handle as PlainHandle, name_order};
ghost use Rattle.ob_heap_spec.specs.Values.{put};

/// Objects that the test finds the same are equal, and no others.
pub fn same_objects_are_equal()
    ensures { (a b : Object) → (same_object a b ≡ true) ↔ (a ≡ b) }
{}

/// What is done to objects is done to their plain data.
pub fn plain_objects_follow()
    ensures got { (xs : List Object) (n : ℕ) → slice_get (map object_of xs) n ≡ option_map object_of (slice_get xs n) }
    ensures set { (xs : List Object) (n : ℕ) (o : Object) → map object_of (slice_set xs n o) ≡ slice_set (map object_of xs) n (object_of o) }
    ensures joined { (xs ys : List Object) → map object_of (xs ++ ys) ≡ map object_of xs ++ map object_of ys }
{}

/// A field that gets a value has it, and the others keep theirs.
pub fn plain_fields_follow()
    ensures { (k : FieldId) (v : Value) (es : List (FieldId × Value)) → fields_of (with_value k v es) ≡ put (fields_of es) k.0 (value_of v) }
{}

/// After changes of handles a name denotes what the last of them says of it, and any other what it denoted.
pub fn handles_are_changed()
    ensures { (n : HandleName) (hs : List ((Label × Label) × Handle)) (ds : List ((Label × Label) × Option Handle)) → handle_at n (with_handles hs ds) ≡ unwrap_or (change_at n ds) (handle_at n hs) }
{}

/// What is done to handles is done to their plain data, which stand in the same order.
pub fn plain_handles_follow()
    ensures put { (n : Label × Label) (h : Handle) (hs : List ((Label × Label) × Handle)) → map named_of (with_handle n h hs) ≡ put_key name_order (name_of n) (handle_of h) (map named_of hs) }
    ensures removed { (n : Label × Label) (hs : List ((Label × Label) × Handle)) → map named_of (without_handle n hs) ≡ where_key name_order (λ other. not (eq_by_cmp name_order (name_of n) other)) (map named_of hs) }
    ensures order { (hs : List ((Label × Label) × Handle)) → IsInOrder hs → AllPairs (λ (a b : HandleName × PlainHandle). name_order a.0 b.0 ≡ Less) (map named_of hs) }
{}

/// Of what isn't read the entries stay: a note leaves all entries, and so does an edit of an object that was read or made; what two parts
/// of a run leave, both together leave. So what was changed was read, from no changes on.
pub fn unread_entries_stay()
    ensures noted { (count n : ℕ) (c : Changes) → KeepsUnread no_object c (noted count n c) }
    ensures read { (count n : ℕ) (c : Changes) → n < count → is_read n (noted count n c) ≡ true }
    ensures edited { (count n : ℕ) (old new : Changes) → KeepsOthers count n old new → IsSameBeside old new → (n < count → is_read n old ≡ true) → KeepsUnread no_object old new }
    ensures onward { (a b c : Changes) → KeepsUnread no_object a b → KeepsUnread no_object b c → KeepsUnread no_object a c }
    ensures changes { (old new : Changes) → KeepsUnread no_object old new → AreChangesRead old → AreChangesRead new }
{}
