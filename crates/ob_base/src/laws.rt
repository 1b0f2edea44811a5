//! What was put is what is read.
ghost use Rattle.std.specs.Prelude.{◌≡◌, ◌<◌, ◌^◌, ◌++◌, ℕ, ℤ, List, length};
ghost use Rattle.std.specs.Int.{w64};
ghost use Rattle.std.specs.Int.RustNames.{FitsSigned};
ghost use Rattle.ob_base.specs.Bytes.{u8_bytes, u32_bytes, i64_bytes, text_bytes};

/// Bytes begin with one value of each kind at most, and leave one rest. So what was put is what is read, and what was put
/// after it is left.
pub fn one_field()
    ensures of_u8 { (a b : ℕ) (r s : List ℕ) → u8_bytes a ++ r ≡ u8_bytes b ++ s → (a ≡ b) × (r ≡ s) }
    ensures of_u32 { (a b : ℕ) (r s : List ℕ) → a < 2 ^ 32 → b < 2 ^ 32
        → u32_bytes a ++ r ≡ u32_bytes b ++ s → (a ≡ b) × (r ≡ s) }
    ensures of_i64 { (a b : ℤ) (r s : List ℕ) → FitsSigned w64 a → FitsSigned w64 b
        → i64_bytes a ++ r ≡ i64_bytes b ++ s → (a ≡ b) × (r ≡ s) }
    ensures of_text { (a b r s : List ℕ) → length a < 2 ^ 32 → length b < 2 ^ 32
        → text_bytes a ++ r ≡ text_bytes b ++ s → (a ≡ b) × (r ≡ s) }
{}
