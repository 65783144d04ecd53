//! What a value is as the payload of a unit.
ghost use Rattle.std.specs.Prelude.{◌≡◌, ℕ, false, List, drop, Ok, OnOk, OnErr, IfErr};
ghost use Rattle.hevc_spec.specs.Lines.{Line};
ghost use Rattle.hevc_spec.specs.Payload.{payload_after};
ghost use Rattle.hevc_spec.specs.UnitHeader.{UnitHeader, unit_header};
ghost use Rattle.hevc_spec.specs.Units.{without_trailing_zeros};
ghost use Rattle.hevc_spec.specs.UnitTypes.{is_end};
ghost use Rattle.hevc_write_units.specs.Added.{IsRefused};
ghost use Rattle.hevc_write_units.specs.Payloads.{AddsPayload, IsPayload};

use hevc_bits::NaluHeader;
use hevc_write_units::WriteError;

/// A value that is the payload of a unit: lines of a syntax table (7.3), a one and zeros up to a
/// whole byte, and the bytes after them.
pub trait Syntax {
    /// These are lines of the value in a unit of this header, all of them allowed. Where there are
    /// none, the value can't be written.
    ghost has_lines: { Self → UnitHeader → List Line → Type 0 };

    /// The bytes after the lines: those of a slice after its header.
    ghost body: { Self → List ℕ };

    /// What a unit of this header and these bytes means, if it has the value as its payload.
    ghost means: { Self → UnitHeader → List ℕ → Type 0 };

    /// Adds the bytes of the payload of a unit with this header, before any 03 is put between them
    /// (7.3.1.1).
    ///
    /// Errors: `NotFormed` where no lines of the value are allowed; then `ZeroEnd` where the bytes
    /// after them aren't none and end in 00; `NoMemory`. The bytes are as before then.
    fn write_payload(&self, header: &NaluHeader, payload: &mut Vec<u8>) -> Result<(), WriteError>
        ensures added { OnOk result (AddsPayload (has_lines self.now header.now) (body self.now)
            payload.old.items payload.new.items) }
        ensures trimmed { OnOk result (without_trailing_zeros (body self.now) ≡ body self.now) }
        ensures refused { IfErr result
            (λ e. IsRefused e (has_lines self.now header.now) (body self.now)) }
        ensures unchanged { OnErr result (payload.new.items ≡ payload.old.items) };

    // What has lines is in no end unit, which has no payload.
    ghost has_payload: { (x : Self) (header : UnitHeader) (lines : List Line)
        → has_lines x header lines → is_end header.nal_unit_type ≡ false };

    // A unit that has the payload means the value.
    ghost meant: { (x : Self) (header : UnitHeader) (bytes : List ℕ)
        → unit_header bytes ≡ Ok header
        → IsPayload (has_lines x header) (body x) (payload_after 0 (drop 2 bytes))
        → means x header bytes };
}
