//! The units of a stream up to a temporal sub-layer and a layer.
ghost use Rattle.std.specs.Prelude.{◌≡◌, ◌≤◌, ◌<◌, ◌+◌, ◌-◌, ◌^◌, ◌++◌, ◌∷◌, [], ℕ, List, All, length, filter, if◌then◌else◌, true, IfOk, OnOk, OnErr};
ghost use Rattle.hevc_spec.specs.Units.{units};
ghost use Rattle.hevc_bits.specs.FoundUnit.{bytes_of};
ghost use Rattle.hevc_bit_writer.specs.WrittenUnits.{started};
ghost use Rattle.hevc_extract.specs.Extracting.{counted, extracted, first_refused, is_kept, kept_units, TellsRefusal};
ghost use Rattle.hevc_extract.specs.Alike.{DecodesAlike, HoldsKept};

use hevc_bits::{Nalu, UnitError};
use hevc_options::Options;
use std::alloc::AllocError;
use thiserror::Error;

/// How many units were kept, and how many were dropped.
#[derive(Clone, Copy, Debug, PartialEq, Eq)]
pub struct Kept {
    pub units: u64,
    pub dropped: u64,
}

/// Why nothing is extracted: the header of the unit with this number, from 0, is refused (7.3.1.2),
/// or there was no memory.
#[derive(Clone, Copy, Debug, PartialEq, Eq, Drop, Error)]
pub enum ExtractError {
    #[error("unit {unit} is refused: {error}")]
    Refused { unit: u64, error: UnitError },
    #[error("no memory")]
    NoMemory,
}

impl From<AllocError> for ExtractError {
    ghost use Rattle.hevc_extract.specs.declared.extraction.ExtractError.TheVariants.{NoMemory};

    ghost from_gives = { λ _ e. e ≡ NoMemory };

    fn from(_error: AllocError) -> ExtractError {
        ExtractError::NoMemory
    }
}

/// Adds the units of `stream` whose temporal id is at most `highest_tid`, 0 to 6, to `out`, each
/// after 00 00 01, byte for byte and in order: the sub-bitstream of clause 10 of H.265 with all
/// layers, but that all SEI units of these sub-layers stay. What is decoded from them with
/// `highest_tid` as the highest sub-layer that is wanted is what is decoded so from `stream`
/// (`DecodesAlike`).
///
/// `Refused` tells of the first unit whose header is refused. After a refusal `out` is as before.
pub fn extract(stream: &[u8], highest_tid: u8, out: &mut Vec<u8>) -> Result<Kept, ExtractError>
    requires { highest_tid ≤ 6 }
    ensures bytes { OnOk result
        (out.new.items ≡ out.old.items ++ extracted highest_tid 63 stream.now) }
    ensures units { IfOk result (λ kept.
        kept.units ≡ length (kept_units highest_tid 63 (units stream.now))) }
    ensures dropped { IfOk result (λ kept.
        kept.units + kept.dropped ≡ length (units stream.now)) }
    ensures holds { OnOk result
        (HoldsKept highest_tid 63 stream.now (extracted highest_tid 63 stream.now)) }
    ensures alike { OnOk result
        (DecodesAlike highest_tid 63 stream.now (extracted highest_tid 63 stream.now)) }
    ensures refused { TellsRefusal result (first_refused 0 (units stream.now)) }
    ensures unchanged { OnErr result (out.new.items ≡ out.old.items) }
{
    extract_layer(stream, highest_tid, 63, out)
}

/// The same of the units whose layer id, besides, is at most `highest_layer`, 0 to 63: the
/// sub-bitstream of clause 10 of H.265, but that all SEI units of these layers stay. What is decoded
/// from them is what is decoded from `stream` where this is the highest layer that is wanted.
pub fn extract_layer(
    stream: &[u8],
    highest_tid: u8,
    highest_layer: u8,
    out: &mut Vec<u8>,
) -> Result<Kept, ExtractError>
    requires { (highest_tid ≤ 6) × (highest_layer ≤ 63) }
    ensures bytes { OnOk result
        (out.new.items ≡ out.old.items ++ extracted highest_tid highest_layer stream.now) }
    ensures units { IfOk result (λ kept.
        kept.units ≡ length (kept_units highest_tid highest_layer (units stream.now))) }
    ensures dropped { IfOk result (λ kept.
        kept.units + kept.dropped ≡ length (units stream.now)) }
    ensures holds { OnOk result
        (HoldsKept highest_tid highest_layer stream.now
        (extracted highest_tid highest_layer stream.now)) }
    ensures alike { OnOk result
        (DecodesAlike highest_tid highest_layer stream.now
        (extracted highest_tid highest_layer stream.now)) }
    ensures refused { TellsRefusal result (first_refused 0 (units stream.now)) }
    ensures unchanged { OnErr result (out.new.items ≡ out.old.items) }
{
    let before = out.len();
    let wanted = Options {
        highest_tid,
        highest_layer,
        ..Options::new()
    };
    let kept = append_kept(stream, wanted, out);
    if kept.is_err() {
        out.truncate(before);
    }
    kept
}

/// Adds the units that are kept. After a refusal some of them are in `out`.
fn append_kept(stream: &[u8], wanted: Options, out: &mut Vec<u8>) -> Result<Kept, ExtractError>
    ensures bytes { OnOk result (out.new.items
        ≡ out.old.items ++ extracted wanted.highest_tid wanted.highest_layer stream.now) }
    ensures units { IfOk result (λ kept. kept.units
        ≡ length (kept_units wanted.highest_tid wanted.highest_layer (units stream.now))) }
    ensures dropped { IfOk result (λ kept.
        kept.units + kept.dropped ≡ length (units stream.now)) }
    ensures refused { TellsRefusal result (first_refused 0 (units stream.now)) }
    ensures grows { (added : List ℕ) × (out.new.items ≡ out.old.items ++ added) }
{
    let mut kept = Kept {
        units: 0,
        dropped: 0,
    };
    let mut position = 0;
    loop {
        let nalu = match Nalu::next(stream, &mut position) {
            Ok(nalu) => nalu,
            Err(UnitError::NoNal) => return Ok(kept),
            Err(error) => {
                let unit = kept.units + kept.dropped;
                return Err(ExtractError::Refused { unit, error });
            }
        };
        let keeps = wanted.wants(nalu.header());
        append_unit(keeps, nalu.as_ref(), out)?;
        kept = kept.count(keeps);
        position = nalu.offset() + nalu.size();
    }
}

/// Adds a unit that is kept.
fn append_unit(keeps: bool, unit: &[u8], out: &mut Vec<u8>) -> Result<(), AllocError>
    ensures bytes { OnOk result
        (out.new.items ≡ out.old.items ++ (if keeps then started unit.now else [])) }
    ensures grows { (added : List ℕ) × (out.new.items ≡ out.old.items ++ added) }
{
    if !keeps {
        return Ok(());
    }
    out.extend_from_slice(&[0, 0, 1])?;
    out.extend_from_slice(unit)
}

impl Kept {
    /// With one more unit.
    fn count(self, keeps: bool) -> Kept
        requires { self.units + self.dropped < 2 ^ 64 - 1 }
        ensures { result ≡ counted keeps self }
    {
        if keeps {
            Kept {
                units: self.units + 1,
                ..self
            }
        } else {
            Kept {
                dropped: self.dropped + 1,
                ..self
            }
        }
    }
}
