//! Sequence parameter sets (7.3.2.2).
ghost use Rattle.std.specs.Prelude.{◌≡◌, ◌==◌, ◌↔◌, IfOk, IsTrue};
ghost use Rattle.hevc_tables.specs.SpsTable.{sequence_parameter_set};
ghost use Rattle.hevc_sequence_set.specs.Sps.{plain_sps};
ghost use Rattle.hevc_write_units.specs.Trials.{IsReadAs, IsWhole, WritesWhole};

use crate::syntax::Syntax;
use crate::unit_type::is_of_type;
use hevc_bit_writer::BitWriter;
use hevc_bits::{NaluHeader, NaluType};
use hevc_elements::ParseError;
use hevc_sequence_set::Sps;
use hevc_sequence_set::comparisons::sps_eq;
use hevc_sps::read_sps;
use hevc_write_sps::write_sps;
use hevc_write_units::{WriteError, trial_stream, trial_unit};
use std::alloc::{AllocError, Global};

impl Syntax for Sps {
    ghost use Rattle.std.specs.Prelude.{[], refl};
    ghost use Rattle.hevc_write_units.specs.Values.{MeansSequenceSet, SetLines};
    ghost use Rattle.hevc_write_units.proofs.Meant.{no_end, sequence_set_meant};

    ghost has_lines = { λ set header lines. SetLines 33 sequence_parameter_set (plain_sps set)
        header lines };

    ghost body = { λ set. [] };

    ghost means = { λ set header bytes. MeansSequenceSet (plain_sps set) header bytes };

    fn write_payload(&self, header: &NaluHeader, payload: &mut Vec<u8>) -> Result<(), WriteError> {
        if !is_of_type(header, NaluType::SpsNut as u8) {
            return Err(WriteError::NotFormed);
        }
        let alloc = *payload.allocator();
        let w = written(alloc, self)?;
        if !is_read_back(alloc, header, &w, self)? {
            return Err(WriteError::NotFormed);
        }
        payload.extend_from_slice(w.as_bytes())?;
        Ok(())
    }

    ghost has_payload = { λ set header lines has. no_end 33 sequence_parameter_set (plain_sps set)
        header lines refl has };

    ghost meant = { λ set header bytes parsed is. sequence_set_meant (plain_sps set) header bytes
        parsed is };
}

/// The bits of a set, up to a whole byte.
fn written(alloc: Global, set: &Sps) -> Result<BitWriter, AllocError>
    ensures { IfOk result (λ w. WritesWhole sequence_parameter_set (plain_sps set.now) w) }
{
    let mut w = BitWriter::new(alloc);
    write_sps(&mut w, set)?;
    w.write_trailing_bits()?;
    Ok(w)
}

/// Whether the bits are read as the set.
fn is_read_back(
    alloc: Global,
    header: &NaluHeader,
    w: &BitWriter,
    set: &Sps,
) -> Result<bool, AllocError>
    requires typed { header.now.nal_unit_type ≡ 33 }
    requires whole { IsWhole w.now }
    ensures { IfOk result
        (λ same. IsTrue same ↔ IsReadAs sequence_parameter_set (plain_sps set.now) w.now) }
{
    let stream = trial_stream(alloc, header, w)?;
    match read_sps(alloc, &trial_unit(&stream)) {
        Ok(read) => Ok(sps_eq(read.get(), set)),
        Err(ParseError::NoMemory) => Err(AllocError),
        Err(_) => Ok(false),
    }
}
