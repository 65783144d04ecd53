//! How many bits an index takes (5.8).
ghost use Rattle.std.specs.Prelude.{◌≡◌, ◌≤◌, ◌^◌};
ghost use Rattle.hevc_tables.specs.MathFunctions.{ceil_log2 as logarithm};

/// Ceil(Log2(n)) of H.265 5.8, and 0 for 0: how many bits an index below `n` takes.
#[tactic(auto, using(crate::proofs::Logarithms::logarithms))]
pub fn ceil_log2(n: u32) -> usize
    ensures value { result ≡ logarithm n }
    ensures range { result ≤ 32 }
    ensures few { n ≤ 2 ^ 31 → result ≤ 31 }
{
    if n <= 1 {
        0
    } else {
        (n - 1).ilog2() as usize + 1
    }
}
