//! What a unit begins with.

ghost use Rattle.std.specs.Prelude.{◌≡◌, ℕ, List, Bool, Result, Err, IfOk, if◌then◌else◌};
ghost use Rattle.hevc_bits.specs.FrontHeader.{IsReadFromFront, own_bytes};

use thiserror::Error;

/// Why there is no unit. `NoNal`: no start code is left. `TruncatedNalu`: the unit has fewer bytes
/// than a header. `InvalidNaluType`: its type is 48 to 63, which H.265 leaves unspecified (table
/// 7-1). `TemporalIdZero`: its `nuh_temporal_id_plus1` is 0, which 7.4.2.2 forbids.
#[derive(Clone, Copy, Debug, PartialEq, Eq, Drop, Error)]
pub enum UnitError {
    #[error("no start code is left")]
    NoNal,
    #[error("the unit has fewer bytes than its header")]
    TruncatedNalu,
    #[error("unit type {0} is unspecified")]
    InvalidNaluType(u8),
    #[error("nuh_temporal_id_plus1 is 0")]
    TemporalIdZero,
}

/// The header of a unit: what its first bytes say.
pub trait Header: Sized {
    ghost use Rattle.hevc_bits.specs.declared.header.UnitError.{UnitError};
    ghost use Rattle.hevc_bits.specs.declared.header.UnitError.TheVariants.{NoNal};

    // what bytes parse to
    ghost parsed: { List ℕ → Result Self UnitError };

    // the bytes of a unit that are its own, of those before the next start code
    ghost kept: { List ℕ → List ℕ };

    // whether the unit is an end unit
    ghost ends: { Self → Bool };

    // how many bytes the header has
    ghost header_len: { Self → ℕ };

    /// Reads the header that `bytes` begin with. The bytes alone decide the answer, which is never
    /// `NoNal`.
    fn parse(bytes: &[u8]) -> Result<Self, UnitError>
        ensures answer { result ≡ parsed bytes.now }
        ensures no_search { ¬ (result ≡ Err NoNal) }
        // A header depends on its first `len` bytes alone.
        ensures front { IfOk result (λ h. IsReadFromFront parsed bytes.now h (header_len h)) }
        // The bytes that are kept are those up to `len` of an end unit, and all of another.
        ensures kept_bytes { IfOk result
            (λ h. kept bytes.now ≡ own_bytes (ends h) (header_len h) bytes.now) }
        ensures kept_answer { parsed (kept bytes.now) ≡ result };

    /// Whether the unit is its header alone.
    fn is_end(&self) -> bool
        ensures { result ≡ ends self.now };

    /// The length of the header in bytes.
    fn len(&self) -> usize
        ensures { result ≡ header_len self.now };
}
