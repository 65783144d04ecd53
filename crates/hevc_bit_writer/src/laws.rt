//! Reading gives back what was written.
ghost use Rattle.std.specs.Prelude.{◌≡◌, ◌≢◌, ℕ, ℤ, ◌%◌, Bool, List, [], ◌∷◌, ◌++◌, length, All};
ghost use Rattle.std.specs.Prelude.{true};
ghost use Rattle.hevc_spec.specs.Bits.{Form, IsSpelled, found, form_at, signed};
ghost use Rattle.hevc_spec.specs.Payload.{bits_of, payload, payload_after};
ghost use Rattle.hevc_spec.specs.Units.{units, without_trailing_zeros};
ghost use Rattle.hevc_bit_writer.specs.Writing.{CanSpell, code_number, packed, spelled};
ghost use Rattle.hevc_bit_writer.specs.WrittenUnits.{IsUnit, escaped, placed, stays_whole};
ghost use Rattle.hevc_bit_writer.specs.WrittenUnits.{stream_of};

/// The bits of an element spell its value, and before any bits they are read as it.
#[tactic(auto, using(crate::proofs::Spellings::is_spelled, crate::proofs::Spellings::is_read))]
pub fn elements_are_read_back()
    ensures spells { (form : Form) (value : ℕ) → CanSpell form value
        → IsSpelled form value (spelled form value) }
    ensures reads { (form : Form) (value : ℕ) (rest : List Bool) → CanSpell form value
        → form_at form (spelled form value ++ rest) ≡ found value rest }
{}

/// The signed number of the number that is written for it is it (table 9-3).
#[tactic(auto, using(crate::proofs::Spellings::signed_back))]
pub fn signed_numbers_are_read_back()
    ensures { (value : ℤ) → signed (code_number value) ≡ value }
{}

/// The bits of the bytes that whole bytes of bits fill are those bits.
#[tactic(auto, using(crate::proofs::Packing::bits_packed))]
pub fn bits_are_packed_whole()
    ensures { (bits : List Bool) → length bits % 8 ≡ 0 → bits_of (packed bits) ≡ bits }
{}

/// The payload of a unit is what was written as it: no byte is lost or dropped.
#[tactic(auto, using(crate::proofs::Escapes::payload_back, crate::proofs::Escapes::bits_back))]
pub fn payload_is_read_back()
    ensures bytes { (bytes : List ℕ) → payload_after 0 (escaped bytes) ≡ bytes }
    ensures bits { (first second : ℕ) (bits : List Bool) → length bits % 8 ≡ 0
        → payload (first ∷ second ∷ escaped (packed bits)) ≡ bits }
{}

/// The units that are found in a stream (Annex B) are those that were written.
#[tactic(auto, using(crate::proofs::Found::all_found))]
pub fn units_are_found()
    ensures { (us : List (List ℕ)) → All IsUnit us → units (stream_of us) ≡ placed 0 us }
{}

/// A header whose second byte isn't 0, as no temporal id plus 1 is, and a payload that doesn't end
/// in 00 make up bytes in which no start code is and which don't end in 00.
#[tactic(auto, using(crate::proofs::Escapes::stays_whole_escaped))]
pub fn written_units_stay_whole()
    ensures { (first second : ℕ) (bytes : List ℕ) → second ≢ 0
        → without_trailing_zeros bytes ≡ bytes
        → stays_whole 0 (first ∷ second ∷ escaped bytes) ≡ true }
{}
