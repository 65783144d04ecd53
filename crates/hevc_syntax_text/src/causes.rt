//! Why the unit of a parameter set or of a slice segment isn't read.
ghost use Rattle.std.specs.Prelude.{◌≡◌, ◌<◌, ◌-◌, length, true, IfOk, OnOk};
ghost use Rattle.hevc_spec.specs.Payload.{payload};
ghost use Rattle.hevc_spec.specs.Table.{read};
ghost use Rattle.hevc_spec.specs.UnitTypes.{is_slice};
ghost use Rattle.hevc_bits.specs.FoundUnit.{bytes_of};
ghost use Rattle.hevc_bits.specs.declared.stream_limit.TheConstants.{STREAM_LIMIT};
ghost use Rattle.hevc_tables.specs.VpsTable.{video_parameter_set};
ghost use Rattle.hevc_tables.specs.SpsTable.{sequence_parameter_set};
ghost use Rattle.hevc_tables.specs.PpsTable.{picture_parameter_set};
ghost use Rattle.hevc_parser.specs.Kept.{kept_by};
ghost use Rattle.hevc_syntax_text.specs.Causes.{cause_in};
ghost use Rattle.hevc_syntax_text.specs.Order.{behind_slice, header_in};
ghost use Rattle.hevc_syntax_text.specs.Standing.{Follow};
ghost use Rattle.hevc_syntax_text.specs.Variables.{set_variables_in, slice_variables};

use crate::cause::{Cause, cause_of};
use crate::counting::Counting;
use crate::outcome::Outcome;
use crate::variables::{set_variables, slice_variables};
use hevc_bits::{Nalu, NaluHeader};
use hevc_kept_sets::Parser;
use hevc_readers::{read_sps, read_vps};
use std::alloc::{AllocError, Global};

/// Why a video set isn't read, if it isn't.
pub(crate) fn video_set_cause(
    alloc: Global,
    nalu: &Nalu<'_, NaluHeader>,
) -> Result<Option<Cause>, AllocError>
    requires short { length nalu.now.stream < STREAM_LIMIT }
    requires typed { nalu.now.header.nal_unit_type ≡ 32 }
    ensures { IfOk result (λ cause. cause
        ≡ cause_in (read video_parameter_set (payload (bytes_of nalu.now)))) }
{
    match read_vps(alloc, nalu) {
        Ok(_set) => Ok(None),
        Err(error) => cause_of(error),
    }
}

/// Why a sequence set isn't read, if it isn't, or its variables. One that is read is kept.
pub(crate) fn sequence_set_outcome(
    alloc: Global,
    parser: &mut Parser,
    nalu: &Nalu<'_, NaluHeader>,
) -> Result<Outcome, AllocError>
    requires short { length nalu.now.stream < STREAM_LIMIT }
    requires typed { nalu.now.header.nal_unit_type ≡ 33 }
    ensures cause { IfOk result (λ outcome. outcome.cause
        ≡ cause_in (read sequence_parameter_set (payload (bytes_of nalu.now)))) }
    ensures variables { IfOk result (λ outcome. outcome.variables
        ≡ set_variables_in (read sequence_parameter_set (payload (bytes_of nalu.now)))) }
    ensures follow { OnOk result (Follow (bytes_of nalu.now)
        (kept_by parser.old).sequence_sets (kept_by parser.new).sequence_sets) }
{
    // That its bytes parse to its header, `header` says.
    let _header = nalu.header();
    match read_sps(alloc, nalu) {
        Ok(set) => {
            let variables = set_variables(set.get());
            parser.keep_sequence_set(set)?;
            Ok(Outcome {
                cause: None,
                variables: Some(variables),
            })
        }
        Err(error) => Ok(Outcome::plain(cause_of(error)?)),
    }
}

/// Why a picture set isn't read, if it isn't. The sequence sets that are kept stay.
pub(crate) fn picture_set_cause(
    parser: &mut Parser,
    nalu: &Nalu<'_, NaluHeader>,
) -> Result<Option<Cause>, AllocError>
    requires short { length nalu.now.stream < STREAM_LIMIT }
    requires typed { nalu.now.header.nal_unit_type ≡ 34 }
    ensures cause { IfOk result (λ cause. cause ≡ cause_in (read
        (picture_parameter_set (nalu.now.header.nuh_temporal_id_plus1 - 1)
        (kept_by parser.old).sequence_sets) (payload (bytes_of nalu.now)))) }
    ensures sets { (kept_by parser.new).sequence_sets ≡ (kept_by parser.old).sequence_sets }
{
    match parser.parse_pps(nalu) {
        Ok(_set) => Ok(None),
        Err(error) => cause_of(error),
    }
}

/// Why the header of a slice segment isn't read, if it isn't, or its variables. A picture that
/// begins is counted.
pub(crate) fn slice_outcome(
    parser: &Parser,
    counting: &mut Counting,
    nalu: &Nalu<'_, NaluHeader>,
) -> Result<Outcome, AllocError>
    requires short { length nalu.now.stream < STREAM_LIMIT }
    requires typed { is_slice nalu.now.header.nal_unit_type ≡ true }
    ensures cause { IfOk result (λ outcome. outcome.cause
        ≡ cause_in (header_in (kept_by parser.now) nalu.now)) }
    ensures variables { IfOk result (λ outcome. outcome.variables
        ≡ slice_variables counting.old (kept_by parser.now) nalu.now) }
    ensures counting { OnOk result
        (counting.new ≡ behind_slice counting.old (kept_by parser.now) nalu.now) }
{
    let mut slice = parser.new_slice(nalu.copy());
    match parser.read_slice(&mut slice) {
        Ok(sets) => Ok(Outcome {
            cause: None,
            variables: slice_variables(counting, &slice, sets.sps, sets.pps),
        }),
        Err(error) => Ok(Outcome::plain(cause_of(error)?)),
    }
}
