//! Laws of what stands at places.
ghost use Rattle.std.specs.Prelude.{◌≡◌, ◌⊎◌, ◌<◌, IsTrue, IsFalse, Some, All};
ghost use Rattle.ob_base.specs.declared.id.ContractId.{ContractId};
ghost use Rattle.ob_base.specs.declared.id.TxId.{TxId};
ghost use Rattle.ob_perm.specs.States.{states_max};
ghost use Rattle.ob_perm.specs.Permissions.{Permission, owns, matches, fits, joined};
ghost use Rattle.ob_perm.specs.Masks.{permission_of};
ghost use Rattle.ob_table.specs.Tables.{ClassTable, contract_at, signature_at, signature_of};
ghost use Rattle.ob_table.specs.declared.contract.Contract.{Contract};
ghost use Rattle.ob_table.specs.declared.contract.Signature.{Signature};
ghost use Rattle.ob_table.specs.declared.seen.Kind.{Kind};
ghost use Rattle.ob_table.specs.declared.seen.Kind.TheVariants.{Reference};
ghost use Rattle.ob_table_spec.specs.Conditions.{IsClassTable, IsContract, IsSignature, IsTransaction, IsListed};
ghost use Rattle.ob_table_spec.specs.WellFormed.{serves_as, is_constructor};
ghost use Rattle.ob_heap_spec.specs.Objects.{Object, seen_state};
ghost use Rattle.ob_heap_spec.specs.Contents.{IsStateOf};
ghost use Rattle.ob_silica_places.specs.Converting.{converted};
ghost use Rattle.ob_flow_spec.specs.Joining.{same_mode};
ghost use Rattle.ob_places_laws.specs.Serving.{Allows, AllowsState};
ghost use Rattle.ob_places_laws.specs.Answering.{Answers, HasAnswer};

/// A permission serves where it is said itself, and what serves where a second is said, which serves where a third is,
/// serves there too. What matches serves. What serves where a permission is said fits where that does, and serves where
/// the join of that with another is said.
pub fn serving_laws()
    ensures itself { (p : Permission) → Allows p p }
    ensures onward { (p q r : Permission) → Allows p q → Allows q r → Allows p r }
    ensures matching { (p w : Permission) → IsTrue (matches p w) → Allows w p }
    ensures fitting { (p q w : Permission) → Allows p q → IsTrue (fits p w) → IsTrue (fits q w) }
    ensures joining { (p q r : Permission) → Allows p r ⊎ Allows q r → Allows (joined p q) r }
{}

/// Said for a place of another kind a permission holds its object in the same way; said for its own kind it is itself;
/// and what serves where it is said serves there as well, said for that kind.
pub fn conversion_laws()
    ensures mode { (table : ClassTable) (k l : Kind) (p : Permission) → IsTrue (same_mode (converted table k l p) p) }
    ensures itself { (table : ClassTable) (k : Kind) (p : Permission) → converted table k k p ≡ p }
    ensures serving { (table : ClassTable) → IsClassTable table → (k l : Kind) (p q : Permission) → Allows p q
        → Allows (converted table k l p) (converted table k l q) }
{}

/// What serves for a kind that serves for another serves for that too: an interface implements nothing.
pub fn kinds_serve_onward()
    ensures { (table : ClassTable) → IsClassTable table → (k l m : Kind) → IsTrue (serves_as table k l)
        → IsTrue (serves_as table l m) → IsTrue (serves_as table k m) }
{}

/// Whatever sees an object's state, it sees one that has the number of a state. A permission that allows the state as
/// one contract or interface of the object sees it allows it as another does, said for that one. Said for the object's
/// own contract, it allows no more than before.
pub fn states_are_seen()
    ensures number { (table : ClassTable) → IsClassTable table → (d : ContractId) (own : Contract) (o : Object)
        → contract_at table o.contract ≡ Some own → IsStateOf own o.state → seen_state table d o < states_max }
    ensures allowed { (table : ClassTable) → IsClassTable table → (own : Contract) (o : Object)
        → contract_at table o.contract ≡ Some own → IsStateOf own o.state → (c d : ContractId) (p : Permission)
        → IsTrue (serves_as table (Reference c) (Reference o.contract))
        → IsTrue (serves_as table (Reference d) (Reference o.contract)) → AllowsState p (seen_state table c o)
        → AllowsState (converted table (Reference c) (Reference d) p) (seen_state table d o) }
    ensures before { (table : ClassTable) → IsClassTable table → (own : Contract) (o : Object)
        → contract_at table o.contract ≡ Some own → IsStateOf own o.state → (d : ContractId) (p : Permission)
        → IsTrue (serves_as table (Reference d) (Reference o.contract))
        → AllowsState (converted table (Reference d) (Reference o.contract) p) (seen_state table o.contract o)
        → AllowsState p (seen_state table d o) }
{}

/// What stands at a number of a class table is a contract, and what stands at one of a contract is a constructor or
/// transaction with what it must be. A transaction that isn't entered as an owner's is left as it was entered.
pub fn tables_promise()
    ensures contracts { (table : ClassTable) → IsClassTable table → (id : ContractId) (c : Contract)
        → contract_at table id ≡ Some c → IsContract table c }
    ensures signatures { (table : ClassTable) (c : Contract) → IsContract table c → (tx : TxId) (s : Signature)
        → signature_at c tx ≡ Some s → IsSignature table c s }
    ensures listed { (table : ClassTable) (c : Contract) → IsContract table c → (tx : TxId) (s : Signature)
        → signature_at c tx ≡ Some s → All (IsListed table c) s.listed }
    ensures left { (table : ClassTable) (c : Contract) (s : Signature) → IsTransaction table c s
        → IsFalse (owns (permission_of s.entry)) → permission_of s.exit ≡ permission_of s.entry }
{}

/// An object has an answer to each transaction that its contract or interface declares: one with the same parameters
/// and result. A state in which the declared transaction may begin, as the caller sees it, is one in which the answer
/// may; and one in which the answer may end is one in which the declared transaction may.
pub fn objects_answer()
    ensures answer { (table : ClassTable) → IsClassTable table → (d e : ContractId) (tx : TxId) (asked : Signature)
        (own : Contract) → contract_at table e ≡ Some own → IsFalse own.interface
        → signature_of table d tx ≡ Some asked
        → IsFalse (is_constructor table d tx.0) → IsTrue (serves_as table (Reference d) (Reference e))
        → HasAnswer table d e own tx asked }
    ensures begins { (table : ClassTable) → IsClassTable table → (own : Contract) (o : Object)
        → contract_at table o.contract ≡ Some own → IsStateOf own o.state → (d : ContractId) (asked s : Signature)
        → IsTrue (serves_as table (Reference d) (Reference o.contract)) → Answers table d o.contract asked s
        → AllowsState (permission_of asked.entry) (seen_state table d o)
        → AllowsState (permission_of s.entry) (seen_state table o.contract o) }
    ensures ends { (table : ClassTable) → IsClassTable table → (own : Contract) (o : Object)
        → contract_at table o.contract ≡ Some own → IsStateOf own o.state → (d : ContractId) (asked s : Signature)
        → IsTrue (serves_as table (Reference d) (Reference o.contract)) → Answers table d o.contract asked s
        → AllowsState (permission_of s.exit) (seen_state table o.contract o)
        → AllowsState (permission_of asked.exit) (seen_state table d o) }
{}
