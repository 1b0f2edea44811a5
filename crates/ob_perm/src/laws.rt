//! What holds of permissions, whichever they are.
ghost use Rattle.std.specs.Prelude.{◌≡◌, ◌&&◌, ℕ, length, IsTrue, IsFalse};
ghost use Rattle.ob_base.specs.declared.permission.Perm.{Perm};
ghost use Rattle.ob_perm.specs.States.{States, IsNumbered, no_states, intersection, within, without};
ghost use Rattle.ob_perm.specs.Permissions.{Permission, owns, is_on, fits, matches, kept, joined};
ghost use Rattle.ob_perm.specs.Permissions.{IsNumberedPermission, permission_within, permission_without};
ghost use Rattle.ob_perm.specs.Naming.{Names, IsNaming, for_interface, for_contract};
ghost use Rattle.ob_perm.specs.Masks.{states_of, permission_of, IsCanonical, mask_of, perm_of};

/// Each permission fits itself, what fits one that fits a third fits the third, and what matches fits. Of the giver and
/// the taker of a reference at most one is the owner afterwards.
pub fn fitting_laws()
    ensures itself { (p : Permission) → IsTrue (fits p p) }
    ensures onward { (p q r : Permission) → IsTrue (fits p q) → IsTrue (fits q r) → IsTrue (fits p r) }
    ensures matching { (p q : Permission) → IsTrue (matches p q) → IsTrue (fits p q) }
    ensures one_owner { (p wanted : Permission) → IsFalse (owns (kept p wanted) && owns wanted) }
{}

/// A join doesn't depend on the order of the branches, and a permission joined with itself is itself. What each branch
/// holds fits their join, and the join matches whatever both match. The two branches of a test of a state join to what
/// was held before it, and no state is in both.
pub fn joining_laws()
    ensures order { (p q : Permission) → joined p q ≡ joined q p }
    ensures same { (p : Permission) → joined p p ≡ p }
    ensures upper { (p q : Permission) → IsTrue (fits p (joined p q)) }
    ensures least { (p q wanted : Permission) → IsTrue (matches p wanted) → IsTrue (matches q wanted)
        → IsTrue (matches (joined p q) wanted) }
    ensures split { (p : Permission) (s : ℕ) → joined (permission_within p s) (permission_without p s) ≡ p }
    ensures apart { (a : States) (s : ℕ) → intersection (within a s) (without a s) ≡ no_states }
{}

/// A permission on a contract, said for its interface, fits there exactly what it fits when that is said back for the
/// contract. So said there and back it has lost no state.
pub fn naming_laws()
    ensures fits { (names : Names) (p wanted : Permission) → IsNaming names
        → IsTrue (is_on (length names) p)
        → fits (for_interface names p) wanted ≡ fits p (for_contract names wanted) }
    ensures back { (names : Names) (p : Permission) → IsNaming names
        → IsTrue (is_on (length names) p)
        → IsTrue (matches p (for_contract names (for_interface names p))) }
{}

/// Each set of states has exactly one number that represents it, and each permission exactly one in canonical form.
pub fn mask_laws()
    ensures one_mask { (a b : ℕ) → states_of a ≡ states_of b → a ≡ b }
    ensures mask { (a : States) → IsNumbered a → states_of (mask_of a) ≡ a }
    ensures one_perm { (p q : Perm) → IsCanonical p → IsCanonical q → permission_of p ≡ permission_of q → p ≡ q }
    ensures perm { (p : Permission) → IsNumberedPermission p → permission_of (perm_of p) ≡ p }
    ensures canonical { (p : Permission) → IsCanonical (perm_of p) }
{}
