//! What is kept after a unit.
ghost use Rattle.std.specs.Prelude.{◌≡◌, ◌≢◌, ◌<◌, length, OnOk};
ghost use Rattle.hevc_bits.specs.FoundUnit.{bytes_of};
ghost use Rattle.hevc_bits.specs.declared.stream_limit.TheConstants.{STREAM_LIMIT};
ghost use Rattle.hevc_stream.specs.Options.{default_options};
ghost use Rattle.hevc_stream.specs.Stream.{kept_behind};
ghost use Rattle.hevc_kept_sets.specs.Kept.{kept_of, options_in};

use hevc_bits::{Nalu, NaluHeader, NaluType};
use hevc_elements::ParseError;
use hevc_kept_sets::KeptSets;
use std::alloc::AllocError;

/// Keeps the parameter set of a unit, if it has one that is read.
///
/// Errors: no memory.
pub(crate) fn keep(sets: &mut KeptSets, nalu: &Nalu<'_, NaluHeader>) -> Result<(), AllocError>
    requires short { length nalu.now.stream < STREAM_LIMIT }
    requires all { options_in sets.old ≡ default_options }
    ensures kept { OnOk result (kept_of sets.new
        ≡ kept_behind default_options (kept_of sets.old) (bytes_of nalu.now)) }
    ensures options { options_in sets.new ≡ options_in sets.old }
{
    match nalu.header().nalu_type() {
        NaluType::VpsNut => keep_video_set(sets, nalu),
        NaluType::SpsNut => keep_sequence_set(sets, nalu),
        NaluType::PpsNut => sets.take_picture_set(nalu),
        _ => Ok(()),
    }
}

/// Keeps a video set, if it is read.
fn keep_video_set(sets: &mut KeptSets, nalu: &Nalu<'_, NaluHeader>) -> Result<(), AllocError>
    requires short { length nalu.now.stream < STREAM_LIMIT }
    requires typed { nalu.now.header.nal_unit_type ≡ 32 }
    requires all { options_in sets.old ≡ default_options }
    ensures kept { OnOk result (kept_of sets.new
        ≡ kept_behind default_options (kept_of sets.old) (bytes_of nalu.now)) }
    ensures options { options_in sets.new ≡ options_in sets.old }
{
    // That its bytes parse to its header, `header` says.
    let _header = nalu.header();
    match sets.take_video_set(nalu) {
        Ok(()) => Ok(()),
        Err(error) => pass(error),
    }
}

/// Keeps a sequence set, if it is read, and tries the units that wait once more.
fn keep_sequence_set(sets: &mut KeptSets, nalu: &Nalu<'_, NaluHeader>) -> Result<(), AllocError>
    requires short { length nalu.now.stream < STREAM_LIMIT }
    requires typed { nalu.now.header.nal_unit_type ≡ 33 }
    requires all { options_in sets.old ≡ default_options }
    ensures kept { OnOk result (kept_of sets.new
        ≡ kept_behind default_options (kept_of sets.old) (bytes_of nalu.now)) }
    ensures options { options_in sets.new ≡ options_in sets.old }
{
    // That its bytes parse to its header, `header` says.
    let _header = nalu.header();
    match sets.keep_sequence_set(nalu) {
        Ok(_id) => sets.read_waiting(),
        Err(error) => pass(error),
    }
}

/// A refusal of the unit is passed over.
///
/// Errors: it is none, since there was no memory.
fn pass(error: ParseError) -> Result<(), AllocError>
    ensures { OnOk result (error ≢ ParseError.NoMemory) }
{
    match error {
        ParseError::NoMemory => Err(AllocError),
        _ => Ok(()),
    }
}
