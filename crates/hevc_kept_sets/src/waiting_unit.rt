//! The unit of a picture set that waits for its sequence set.
ghost use Rattle.std.specs.Prelude.{◌≡◌, ◌<◌, ◌∷◌, ℕ, length, Ok, IfOk, IfSome};
ghost use Rattle.std.specs.Result.{result_ok};
ghost use Rattle.hevc_spec.specs.UnitHeader.{unit_header};
ghost use Rattle.hevc_spec.specs.Payload.{payload_bits};
ghost use Rattle.hevc_elements.specs.Scan.{left};
ghost use Rattle.hevc_spec.specs.Table.{read};
ghost use Rattle.hevc_bits.specs.FoundUnit.{bytes_of};
ghost use Rattle.hevc_records.specs.Pps.{PlainPps};
ghost use Rattle.hevc_tables.specs.PpsTable.{ids};
ghost use Rattle.hevc_stream_laws.specs.KeptWell.{sequence_set_named_in};
ghost use Rattle.hevc_kept_sets.specs.Settled.{named_set, has_id, is_named_by};
ghost use Rattle.hevc_bits.specs.declared.stream_limit.TheConstants.{STREAM_LIMIT};

use crate::set_ids::with_named;
use hevc_bits::{Nalu, NaluHeader};
use hevc_elements::rows::ue_u8;
use hevc_elements::{ElementReader, ParseError};
use hevc_spec::Row;
use std::alloc::{AllocError, Global};
use std::collections::VecDeque;
use std::marker::Model;

/// The unit of a picture set, kept after a start code.
#[derive(Drop)]
pub(crate) struct WaitingUnit {
    stream: Vec<u8>,
    /// The id of the sequence set that it names: 0 to 15. `None` where its payload tells none that
    /// is allowed, so that it can't be read whatever sets are kept.
    named: Option<u8>,
}

impl Model for WaitingUnit {
    ghost use Rattle.std.specs.Prelude.{◌≡◌, ℕ, List, drop};
    ghost use Rattle.hevc_kept_sets.specs.CutUnits.{IsPictureSetStream};
    ghost use Rattle.hevc_kept_sets.specs.Settled.{named_set};

    ghost Value = { List ℕ };

    ghost view = { λ unit. drop 3 unit.stream.items };

    ghost invariant = { λ unit. IsPictureSetStream unit.stream.items × (unit.named ≡ named_set (drop 3 unit.stream.items)) };
}

impl WaitingUnit {
    /// A copy of a unit.
    pub(crate) fn copy_of(
        alloc: Global,
        nalu: &Nalu<'_, NaluHeader>,
    ) -> Result<WaitingUnit, AllocError>
        requires short { length nalu.now.stream < STREAM_LIMIT }
        requires typed { nalu.now.header.nal_unit_type ≡ 34 }
        ensures same { IfOk result (λ unit. unit ≡ bytes_of nalu.now) }
    {
        // That its bytes parse to its header, and that it is a unit of its stream, `header` says.
        let _header = nalu.header();
        let bytes = nalu.as_ref();
        let mut stream = Vec::with_capacity(alloc, 3 + bytes.len())?;
        stream.extend_from_slice(&[0, 0, 1])?;
        stream.extend_from_slice(bytes)?;
        let named = read_named(nalu.payload());
        Ok(WaitingUnit { stream, named })
    }

    /// The unit.
    pub(crate) fn nalu(&self) -> Nalu<'_, NaluHeader>
        ensures bytes { bytes_of result ≡ self.now }
        ensures parsed { unit_header self.now ≡ Ok result.header }
        ensures typed { result.header.nal_unit_type ≡ 34 }
        ensures short { length result.stream < STREAM_LIMIT }
    {
        let mut position = 0;
        Nalu::next(&self.stream, &mut position).unwrap()
    }

    /// The id of the sequence set that it names, 0 to 15; `None` where it can't be read whatever
    /// sets are kept.
    pub(crate) fn named(&self) -> Option<u8>
        ensures value { result ≡ named_set self.now }
        ensures bound { IfSome result (λ id. id < 16) }
    {
        self.named
    }
}

/// The ids of the sequence sets that units name: a bit for each.
pub(crate) fn named_by(units: &VecDeque<WaitingUnit>) -> u16
    ensures { (k : ℕ) → has_id result k ≡ is_named_by units.now.items k }
{
    let mut ids = 0;
    for unit in units {
        ids = with_named(ids, unit.named());
    }
    ids
}

/// The id of the sequence set that the payload of a picture set names, if it tells one that is
/// allowed.
fn read_named(payload: &[u8]) -> Option<u8>
    requires { length payload.now < STREAM_LIMIT }
    ensures { (pps : PlainPps)
        → result ≡ sequence_set_named_in (read (ids pps) (payload_bits 0 payload.now)) }
{
    read_ids(&mut ElementReader::new(payload)).ok()
}

/// Rows 1 and 2 of table 11, of which the second names the sequence set (7.3.2.3.1).
fn read_ids(r: &mut ElementReader<'_>) -> Result<u8, ParseError>
    ensures { (pps : PlainPps)
        → result_ok result ≡ sequence_set_named_in (read (ids pps) (left r.old)) }
{
    ue_u8(r, Row(11, 1), 0, 63)?;
    ue_u8(r, Row(11, 2), 0, 15)
}
