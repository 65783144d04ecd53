//! Picture parameter sets (7.3.2.3).
ghost use Rattle.std.specs.Prelude.{◌≡◌, ◌-◌, ◌==◌, ◌&&◌, ◌↔◌, IfOk, IsTrue};
ghost use Rattle.hevc_records.specs.SetsById.{sets_by_id};
ghost use Rattle.hevc_stream.specs.Slices.{temporal_id};
ghost use Rattle.hevc_tables.specs.PpsTable.{picture_parameter_set};
ghost use Rattle.hevc_sequence_set.specs.Sps.{plain_sps};
ghost use Rattle.hevc_picture_slice.specs.Pps.{plain_pps};
ghost use Rattle.hevc_write_units.specs.Trials.{IsReadAs, IsWhole, WritesWhole};
ghost use Rattle.hevc_write_units.specs.Values.{only_sequence_set};

use crate::syntax::Syntax;
use crate::unit_type::is_of_type;
use hevc_bit_writer::BitWriter;
use hevc_bits::{NaluHeader, NaluType};
use hevc_boxed::Boxed;
use hevc_elements::ParseError;
use hevc_picture_slice::Pps;
use hevc_picture_slice::comparisons::pps_eq;
use hevc_pps::read_pps;
use hevc_sequence_set::Sps;
use hevc_write_pps::write_pps;
use hevc_write_units::{WriteError, trial_stream, trial_unit};
use std::alloc::{AllocError, Global};
use std::collections::BTreeMap;

/// A picture parameter set, and the sequence parameter set that it names.
#[derive(Clone, Copy)]
pub struct PictureUnit<'a> {
    pub pps: &'a Pps,
    pub sps: &'a Sps,
}

impl Syntax for PictureUnit<'_> {
    ghost use Rattle.std.specs.Prelude.{[], refl};
    ghost use Rattle.hevc_write_units.specs.Values.{MeansPictureSet, PictureSetLines};
    ghost use Rattle.hevc_write_units.proofs.PictureSets.{no_end_unit, picture_set_meant};

    ghost has_lines = { λ unit header lines. PictureSetLines (plain_sps unit.sps.now)
        (plain_pps unit.pps.now) header lines };

    ghost body = { λ unit. [] };

    ghost means = { λ unit header bytes. MeansPictureSet (plain_sps unit.sps.now)
        (plain_pps unit.pps.now) header bytes };

    fn write_payload(&self, header: &NaluHeader, payload: &mut Vec<u8>) -> Result<(), WriteError> {
        let &PictureUnit { pps, sps } = self;
        if !is_of_type(header, NaluType::PpsNut as u8) || !is_named(pps, sps) {
            return Err(WriteError::NotFormed);
        }
        let alloc = *payload.allocator();
        let w = written(alloc, pps, sps, header)?;
        if !is_read_back(alloc, header, &w, pps, sps)? {
            return Err(WriteError::NotFormed);
        }
        payload.extend_from_slice(w.as_bytes())?;
        Ok(())
    }

    ghost has_payload = { λ unit header lines has. no_end_unit (plain_sps unit.sps.now)
        (plain_pps unit.pps.now) header lines has };

    ghost meant = { λ unit header bytes parsed is. picture_set_meant (plain_sps unit.sps.now)
        (plain_pps unit.pps.now) header bytes parsed is };
}

/// Whether the picture set names the sequence set.
fn is_named(pps: &Pps, sps: &Sps) -> bool
    ensures { result ≡ (pps.now.seq_parameter_set_id == sps.now.seq_parameter_set_id) }
{
    pps.seq_parameter_set_id == sps.seq_parameter_set_id
}

/// The bits of a set in a unit with this header, up to a whole byte.
fn written(
    alloc: Global,
    pps: &Pps,
    sps: &Sps,
    header: &NaluHeader,
) -> Result<BitWriter, AllocError>
    requires { pps.now.seq_parameter_set_id ≡ sps.now.seq_parameter_set_id }
    ensures { IfOk result (λ w. WritesWhole
        (picture_parameter_set (temporal_id header.now) (only_sequence_set (plain_sps sps.now)))
        (plain_pps pps.now) w) }
{
    let mut w = BitWriter::new(alloc);
    write_pps(&mut w, sps, pps)?;
    w.write_trailing_bits()?;
    Ok(w)
}

/// Whether the bits are read as the set.
fn is_read_back(
    alloc: Global,
    header: &NaluHeader,
    w: &BitWriter,
    pps: &Pps,
    sps: &Sps,
) -> Result<bool, AllocError>
    requires typed { header.now.nal_unit_type ≡ 34 }
    requires whole { IsWhole w.now }
    ensures { IfOk result (λ same. IsTrue same ↔ IsReadAs
        (picture_parameter_set (temporal_id header.now) (only_sequence_set (plain_sps sps.now)))
        (plain_pps pps.now) w.now) }
{
    let sets = alone(alloc, sps)?;
    let stream = trial_stream(alloc, header, w)?;
    match read_pps(alloc, &trial_unit(&stream), &sets) {
        Ok(read) => Ok(pps_eq(&read, pps)),
        Err(ParseError::NoMemory) => Err(AllocError),
        Err(_) => Ok(false),
    }
}

/// A sequence set alone, under its id.
pub(crate) fn alone(alloc: Global, sps: &Sps) -> Result<BTreeMap<u8, Boxed<Sps>>, AllocError>
    ensures { IfOk result
        (λ sets. sets_by_id plain_sps sets ≡ only_sequence_set (plain_sps sps.now)) }
{
    let mut sets = BTreeMap::new(alloc);
    let set = Boxed::new(alloc, sps.try_clone()?)?;
    sets.insert(sps.seq_parameter_set_id, set)?;
    Ok(sets)
}
