//! Units are taken.
ghost use Rattle.std.specs.Prelude.{◌≡◌, ℕ, ◌<◌, ◌≤◌, length, true, false, Ok, Option, Some};
ghost use Rattle.std.specs.Prelude.{IsSome, IfErr};
ghost use Rattle.hevc_spec.specs.UnitHeader.{unit_header};
ghost use Rattle.hevc_spec.specs.UnitTypes.{is_idr, is_slice};
ghost use Rattle.hevc_bits.specs.FoundUnit.{bytes_of};
ghost use Rattle.hevc_stream.specs.Contents.{wants};
ghost use Rattle.hevc_kept_sets.specs.Kept.{kept_of, options_in};
ghost use Rattle.hevc_driver.specs.Given.{Given};
ghost use Rattle.hevc_stateless.specs.States.{is_awaited, is_decoding, is_parameter_set, state_at};
ghost use Rattle.hevc_stateless.specs.States.{unit_at};
ghost use Rattle.hevc_stateless.specs.Segments.{given_with, own_header, read_at};
ghost use Rattle.hevc_stateless.specs.Steps.{Acts, Step, TakesIn, given_to, IsOfSet};
ghost use Rattle.hevc_stateless.specs.Decoders.{IsFairOver, seen_by};
ghost use Rattle.hevc_records.specs.SliceHeader.{PlainSliceSegmentHeader};
ghost use Rattle.hevc_records.specs.Sps.{PlainSps};
ghost use Rattle.hevc_walk_inputs.specs.Sequences.{format_of_set};
ghost use Rattle.hevc_walk.specs.Meanings.{SequenceSet};
ghost use Rattle.hevc_driver.specs.declared.decode_error.DecodeError.TheVariants.{NoMemory};
ghost use Rattle.hevc_driver.specs.Takes.{Goes};
ghost use Rattle.hevc_stateless.specs.declared.state.State.TheVariants.{AwaitingStreamInfo};
ghost use Rattle.hevc_stateless.specs.Views.{traces_at, moment_at, OutputsFew};
ghost use Rattle.hevc_bits.specs.declared.stream_limit.TheConstants.{STREAM_LIMIT};

use crate::decoder::StatelessDecoder;
use crate::refusal::refusal;
use hevc_bits::{Nalu, NaluHeader, NaluType};
use hevc_driver::{DecodeError, StatelessH265DecoderBackend};
use hevc_kept_sets::ParseError;

impl<B: StatelessH265DecoderBackend> StatelessDecoder<B> {
    /// Takes the unit of a video set.
    pub(crate) fn take_video_set(&mut self, nalu: &Nalu<'_, NaluHeader>) -> Result<(), DecodeError>
        requires short { length nalu.now.stream < STREAM_LIMIT }
        requires parsed { unit_header (bytes_of nalu.now) ≡ Ok nalu.now.header }
        requires typed { nalu.now.header.nal_unit_type ≡ 32 }
        requires wanted { wants (options_in self.old.kept) nalu.now.header ≡ true }
        ensures same { self.new.session ≡ self.old.session }
        ensures options { options_in self.new.kept ≡ options_in self.old.kept }
        ensures step { (given : Given) → Step result given (options_in self.old.kept)
            nalu.now.header (bytes_of nalu.now)
            (seen_by B.log B.handed B.frames self.old)
            (seen_by B.log B.handed B.frames self.new) }
        ensures refused { IfErr result IsOfSet }
    {
        match self.kept.take_video_set(nalu) {
            Ok(()) => Ok(()),
            Err(error) => Err(refusal(error)),
        }
    }

    /// Takes the unit of a sequence set. The first one opens a negotiation; after a later one the
    /// units that wait are read.
    pub(crate) fn take_sequence_set(
        &mut self,
        nalu: &Nalu<'_, NaluHeader>,
    ) -> Result<(), DecodeError>
        requires short { length nalu.now.stream < STREAM_LIMIT }
        requires parsed { unit_header (bytes_of nalu.now) ≡ Ok nalu.now.header }
        requires typed { nalu.now.header.nal_unit_type ≡ 33 }
        requires wanted { wants (options_in self.old.kept) nalu.now.header ≡ true }
        requires going { is_awaited self.old.session.state ≡ false }
        ensures few { OutputsFew self.old.session self.new.session }
        ensures fair { IsFairOver B.counts B.is_faultless B.info self.old self.new result }
        ensures options { options_in self.new.kept ≡ options_in self.old.kept }
        ensures step { (timestamp : ℕ) → Step result
            (given_to timestamp (options_in self.old.kept) nalu.now.header (bytes_of nalu.now)
            (seen_by B.log B.handed B.frames self.old))
            (options_in self.old.kept) nalu.now.header (bytes_of nalu.now)
            (seen_by B.log B.handed B.frames self.old)
            (seen_by B.log B.handed B.frames self.new) }
    {
        let id = match self.kept.keep_sequence_set(nalu) {
            Ok(id) => id,
            Err(error) => return Err(refusal(error)),
        };
        if self.session.awaiting_stream_info() {
            return self.open_sequence(id);
        }
        self.kept.read_waiting()?;
        self.session.resume();
        Ok(())
    }

    /// The format of a sequence set that is kept is negotiated, the first one.
    fn open_sequence(&mut self, id: u8) -> Result<(), DecodeError>
        requires kept { IsSome ((kept_of self.old.kept).sequence_sets id) }
        requires first { self.old.session.state ≡ AwaitingStreamInfo }
        ensures few { OutputsFew self.old.session self.new.session }
        ensures fair { IsFairOver B.counts B.is_faultless B.info self.old self.new result }
        ensures acts { (given : Given) (own : Option PlainSliceSegmentHeader) (set : PlainSps)
            → (kept_of self.old.kept).sequence_sets id ≡ Some set → given.set ≡ Some set
            → Acts result given (SequenceSet (format_of_set set)) own self.old.session.state
            (moment_at B.log B.handed B.frames self.old.session)
            (moment_at B.log B.handed B.frames self.new.session) }
        ensures kept { kept_of self.new.kept ≡ kept_of self.old.kept }
        ensures options { options_in self.new.kept ≡ options_in self.old.kept }
    {
        let set = self.kept.parser().get_sps(id).unwrap();
        self.session.open_sequence(set)
    }

    /// Takes the unit of a picture set. One that can't be read waits.
    pub(crate) fn take_picture_set(
        &mut self,
        nalu: &Nalu<'_, NaluHeader>,
    ) -> Result<(), DecodeError>
        requires short { length nalu.now.stream < STREAM_LIMIT }
        requires parsed { unit_header (bytes_of nalu.now) ≡ Ok nalu.now.header }
        requires typed { nalu.now.header.nal_unit_type ≡ 34 }
        requires wanted { wants (options_in self.old.kept) nalu.now.header ≡ true }
        ensures same { self.new.session ≡ self.old.session }
        ensures options { options_in self.new.kept ≡ options_in self.old.kept }
        ensures step { (given : Given) → Step result given (options_in self.old.kept)
            nalu.now.header (bytes_of nalu.now)
            (seen_by B.log B.handed B.frames self.old)
            (seen_by B.log B.handed B.frames self.new) }
        ensures refused { IfErr result (λ e. e ≡ NoMemory) }
    {
        self.kept.take_picture_set(nalu)?;
        Ok(())
    }

    /// Takes the unit of a slice segment that is decoded.
    fn take_slice(&mut self, timestamp: u64, nalu: &Nalu<'_, NaluHeader>) -> Result<(), DecodeError>
        requires short { length nalu.now.stream < STREAM_LIMIT }
        requires parsed { unit_header (bytes_of nalu.now) ≡ Ok nalu.now.header }
        requires typed { is_slice nalu.now.header.nal_unit_type ≡ true }
        requires wanted { wants (options_in self.old.kept) nalu.now.header ≡ true }
        requires decoding { is_decoding (state_at (is_idr nalu.now.header.nal_unit_type)
            self.old.session.state) ≡ true }
        ensures few { OutputsFew self.old.session self.new.session }
        ensures fair { IsFairOver B.counts B.is_faultless B.info self.old self.new result }
        ensures kept { self.new.kept ≡ self.old.kept }
        ensures takes { TakesIn result
            (given_with timestamp (unit_at (options_in self.old.kept) (kept_of self.old.kept)
            nalu.now.header (bytes_of nalu.now)).meaning
            (read_at (options_in self.old.kept) (kept_of self.old.kept) self.old.session.latest
            (bytes_of nalu.now)) self.old.session.standing)
            (unit_at (options_in self.old.kept) (kept_of self.old.kept) nalu.now.header
            (bytes_of nalu.now)).meaning
            (own_header (options_in self.old.kept) (kept_of self.old.kept) (bytes_of nalu.now))
            (state_at (is_idr nalu.now.header.nal_unit_type) self.old.session.state)
            (moment_at B.log B.handed B.frames self.old.session)
            (moment_at B.log B.handed B.frames self.new.session) }
    {
        let nalu_type = nalu.header().nalu_type();
        let parser = self.kept.parser();
        let mut slice = parser.new_slice(nalu.copy());
        let sets = match parser.read_slice(&mut slice) {
            Ok(sets) => sets,
            Err(error) => match error {
                ParseError::NoMemory => return Err(DecodeError::NoMemory),
                _ => {
                    self.session.leave_reset(nalu_type);
                    return Err(refusal(error));
                }
            },
        };
        let options = self.kept.options();
        self.session
            .take_slice(timestamp, options, &mut slice, sets.sps, sets.pps)
    }

    /// Takes a unit that is neither a parameter set nor a slice segment, while nothing is waited
    /// for.
    fn take_end(&mut self, nalu: &Nalu<'_, NaluHeader>)
        requires parsed { unit_header (bytes_of nalu.now) ≡ Ok nalu.now.header }
        requires other { is_parameter_set nalu.now.header.nal_unit_type ≡ false }
        requires no_slice { is_slice nalu.now.header.nal_unit_type ≡ false }
        requires wanted { wants (options_in self.old.kept) nalu.now.header ≡ true }
        ensures kept { self.new.kept ≡ self.old.kept }
        ensures others { self.new.session
            ≡ record self.old.session { standing = self.new.session.standing } }
        ensures goes { (given : Given) → Goes given
            (traces_at B.log B.handed B.frames self.old.session)
            (traces_at B.log B.handed B.frames self.new.session)
            (unit_at (options_in self.old.kept) (kept_of self.old.kept) nalu.now.header
            (bytes_of nalu.now)).meaning
            self.old.session.standing self.new.session.standing }
    {
        match nalu.header().nalu_type() {
            NaluType::EosNut => self.session.end_sequence(),
            NaluType::EobNut => self.session.end_bitstream(),
            _ => {}
        }
    }

    /// Takes a unit that is no parameter set.
    fn take_coded(&mut self, timestamp: u64, nalu: &Nalu<'_, NaluHeader>) -> Result<(), DecodeError>
        requires short { length nalu.now.stream < STREAM_LIMIT }
        requires parsed { unit_header (bytes_of nalu.now) ≡ Ok nalu.now.header }
        requires other { is_parameter_set nalu.now.header.nal_unit_type ≡ false }
        requires wanted { wants (options_in self.old.kept) nalu.now.header ≡ true }
        requires going { is_awaited self.old.session.state ≡ false }
        ensures few { OutputsFew self.old.session self.new.session }
        ensures fair { IsFairOver B.counts B.is_faultless B.info self.old self.new result }
        ensures options { options_in self.new.kept ≡ options_in self.old.kept }
        ensures step { Step result
            (given_to timestamp (options_in self.old.kept) nalu.now.header (bytes_of nalu.now)
            (seen_by B.log B.handed B.frames self.old))
            (options_in self.old.kept)
            nalu.now.header (bytes_of nalu.now)
            (seen_by B.log B.handed B.frames self.old)
            (seen_by B.log B.handed B.frames self.new) }
    {
        let nalu_type = nalu.header().nalu_type();
        if !self.session.decodes(nalu_type) {
            return Ok(());
        }
        if nalu_type.is_slice() {
            return self.take_slice(timestamp, nalu);
        }
        self.take_end(nalu);
        Ok(())
    }

    /// Takes a unit, while no format is awaited. One of a sub-layer that isn't wanted is passed
    /// over.
    pub(crate) fn take_unit(
        &mut self,
        timestamp: u64,
        nalu: &Nalu<'_, NaluHeader>,
    ) -> Result<(), DecodeError>
        requires short { length nalu.now.stream < STREAM_LIMIT }
        requires parsed { unit_header (bytes_of nalu.now) ≡ Ok nalu.now.header }
        requires going { is_awaited self.old.session.state ≡ false }
        ensures few { OutputsFew self.old.session self.new.session }
        ensures fair { IsFairOver B.counts B.is_faultless B.info self.old self.new result }
        ensures options { options_in self.new.kept ≡ options_in self.old.kept }
        ensures step { Step result
            (given_to timestamp (options_in self.old.kept) nalu.now.header (bytes_of nalu.now)
            (seen_by B.log B.handed B.frames self.old))
            (options_in self.old.kept)
            nalu.now.header (bytes_of nalu.now)
            (seen_by B.log B.handed B.frames self.old)
            (seen_by B.log B.handed B.frames self.new) }
    {
        let header = nalu.header();
        if !self.kept.options().wants(header) {
            return Ok(());
        }
        match header.nalu_type() {
            NaluType::VpsNut => self.take_video_set(nalu),
            NaluType::SpsNut => self.take_sequence_set(nalu),
            NaluType::PpsNut => self.take_picture_set(nalu),
            _ => self.take_coded(timestamp, nalu),
        }
    }
}
