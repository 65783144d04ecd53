//! Video parameter sets (7.3.2.1).
ghost use Rattle.std.specs.Prelude.{◌≡◌, ◌==◌, ◌↔◌, IfOk, IsTrue};
ghost use Rattle.hevc_tables.specs.VpsTable.{video_parameter_set};
ghost use Rattle.hevc_video_set.specs.Vps.{plain_vps};
ghost use Rattle.hevc_write_units.specs.Trials.{IsReadAs, IsWhole, WritesWhole};

use crate::syntax::Syntax;
use crate::unit_type::is_of_type;
use hevc_bit_writer::BitWriter;
use hevc_bits::{NaluHeader, NaluType};
use hevc_elements::ParseError;
use hevc_video_set::Vps;
use hevc_video_set::comparisons::vps_eq;
use hevc_vps::read_vps;
use hevc_write_units::{WriteError, trial_stream, trial_unit};
use hevc_write_vps::write_vps;
use std::alloc::{AllocError, Global};

impl Syntax for Vps {
    ghost use Rattle.std.specs.Prelude.{[], refl};
    ghost use Rattle.hevc_write_units.specs.Values.{MeansVideoSet, SetLines};
    ghost use Rattle.hevc_write_units.proofs.Meant.{no_end, video_set_meant};

    ghost has_lines = { λ set header lines. SetLines 32 video_parameter_set (plain_vps set) header
        lines };

    ghost body = { λ set. [] };

    ghost means = { λ set header bytes. MeansVideoSet (plain_vps set) header bytes };

    fn write_payload(&self, header: &NaluHeader, payload: &mut Vec<u8>) -> Result<(), WriteError> {
        if !is_of_type(header, NaluType::VpsNut as u8) {
            return Err(WriteError::NotFormed);
        }
        let alloc = *payload.allocator();
        let w = written(alloc, self)?;
        if !is_read_back(alloc, header, &w, self)? {
            return Err(WriteError::NotFormed);
        }
        payload.extend_from_slice(w.as_bytes())?;
        Ok(())
    }

    ghost has_payload = { λ set header lines has. no_end 32 video_parameter_set (plain_vps set)
        header lines refl has };

    ghost meant = { λ set header bytes parsed is. video_set_meant (plain_vps set) header bytes
        parsed is };
}

/// The bits of a set, up to a whole byte.
fn written(alloc: Global, set: &Vps) -> Result<BitWriter, AllocError>
    ensures { IfOk result (λ w. WritesWhole video_parameter_set (plain_vps set.now) w) }
{
    let mut w = BitWriter::new(alloc);
    write_vps(&mut w, set)?;
    w.write_trailing_bits()?;
    Ok(w)
}

/// Whether the bits are read as the set.
fn is_read_back(
    alloc: Global,
    header: &NaluHeader,
    w: &BitWriter,
    set: &Vps,
) -> Result<bool, AllocError>
    requires typed { header.now.nal_unit_type ≡ 32 }
    requires whole { IsWhole w.now }
    ensures { IfOk result
        (λ same. IsTrue same ↔ IsReadAs video_parameter_set (plain_vps set.now) w.now) }
{
    let stream = trial_stream(alloc, header, w)?;
    match read_vps(alloc, &trial_unit(&stream)) {
        Ok(read) => Ok(vps_eq(&read, set)),
        Err(ParseError::NoMemory) => Err(AllocError),
        Err(_) => Ok(false),
    }
}
