//! Spellings of one element (9.2).
ghost use Rattle.std.specs.Prelude.{◌≡◌, ℕ, Bool, List, [], ◌++◌};
ghost use Rattle.hevc_spec.specs.Bits.{Form, IsSpelled};

/// Bits that begin with spellings of one form begin with the same one, which has one value: no
/// spelling has two values, and none is the beginning of another.
#[tactic(auto, using(hevc_reading_laws::proofs::TableLaws::one_spelling))]
pub fn one_spelling()
    ensures { (form : Form) (v w : ℕ) (a b x y : List Bool) → IsSpelled form v a
        → IsSpelled form w b → a ++ x ≡ b ++ y → (v ≡ w) × (a ≡ b) × (x ≡ y) }
{}

/// A spelling that another of its form continues is that one: its value is the same, and nothing is
/// added.
#[tactic(auto, using(crate::proofs::Laws::no_longer_spelling))]
pub fn spellings_begin_apart()
    ensures { (form : Form) (v w : ℕ) (spelling more : List Bool) → IsSpelled form v spelling
        → IsSpelled form w (spelling ++ more) → (v ≡ w) × (more ≡ []) }
{}
