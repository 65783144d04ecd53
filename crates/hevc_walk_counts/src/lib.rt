//! Picture order counts are the nearest congruent numbers, and the only ones.
#![tactic(auto)]

ghost use Rattle.std.specs.Prelude.{◌≡◌, ℕ, ℤ, ◌<◌};
ghost use Rattle.hevc_walk.specs.OrderCounts.{nearest, IsNearest};

/// The computed order count is congruent to the low bits, and nearest to the earlier one.
pub fn counts_are_nearest()
    ensures { (modulus : ℕ) (earlier : ℤ) (lsb : ℕ) → 0 < modulus
        → IsNearest modulus earlier lsb (nearest modulus earlier lsb) }
{}

/// No other number is.
pub fn no_other_is_nearest()
    ensures { (modulus : ℕ) (earlier : ℤ) (lsb : ℕ) (x : ℤ) → 0 < modulus
        → IsNearest modulus earlier lsb x → x ≡ nearest modulus earlier lsb }
{}
