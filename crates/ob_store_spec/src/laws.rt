//! What holds of payloads and of what they lead to.
ghost use Rattle.std.specs.Prelude.{◌≡◌, ℕ, List};
ghost use Rattle.ob_table.specs.Tables.{ClassTable};
ghost use Rattle.ob_heap_spec.specs.Contents.{Content};
ghost use Rattle.ob_store_spec.specs.Payloads.{Changes};
ghost use Rattle.ob_store_spec.specs.Changes.{SaysChanges, LeadFrom};
ghost use Rattle.ob_store_spec.specs.Stores.{StoreProgram, StoreState, StoreRefusal, IsStoreOf, IsRefused};

/// A payload says one row of changes at most.
pub fn one_saying()
    ensures { (table : ClassTable) (content : Content) (a b : Changes) (bytes : List ℕ) →
        SaysChanges table content a bytes → SaysChanges table content b bytes → a ≡ b }
{}

/// Payloads lead to one content at most, and a disk represents one store at most.
pub fn one_content()
    ensures content { (table : ClassTable) (start : Content) (payloads : List (List ℕ)) (a b : Content) →
        LeadFrom table start payloads a → LeadFrom table start payloads b → a ≡ b }
    ensures store { (program : StoreProgram) (size : ℕ) (bytes : List ℕ) (a b : StoreState) →
        IsStoreOf program size bytes a → IsStoreOf program size bytes b → a ≡ b }
{}

/// A disk is refused for one cause at most, and for none where it represents a store.
pub fn one_refusal()
    ensures refusal { (program : StoreProgram) (size : ℕ) (bytes : List ℕ) (r s : StoreRefusal) →
        IsRefused program size bytes r → IsRefused program size bytes s → r ≡ s }
    ensures apart { (program : StoreProgram) (size : ℕ) (bytes : List ℕ) (r : StoreRefusal) (s : StoreState) →
        IsRefused program size bytes r → ¬ (IsStoreOf program size bytes s) }
{}
