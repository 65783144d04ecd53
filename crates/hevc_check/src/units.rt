//! The units of a stream, as its pictures take them.
ghost use Rattle.std.specs.Prelude.{◌≡◌, ◌<◌, ◌≤◌, ◌-◌, ◌^◌, length, true, false, Ok, IfOk, OnOk};
ghost use Rattle.hevc_spec.specs.UnitHeader.{unit_header};
ghost use Rattle.hevc_spec.specs.UnitTypes.{is_slice};
ghost use Rattle.hevc_bits.specs.FoundUnit.{bytes_of};
ghost use Rattle.hevc_bits.specs.declared.stream_limit.TheConstants.{STREAM_LIMIT};
ghost use Rattle.hevc_stream.specs.Contents.{wants};
ghost use Rattle.hevc_stream.specs.Stream.{meaning};
ghost use Rattle.hevc_stream.specs.Kept.{none_kept};
ghost use Rattle.hevc_stream.specs.Options.{default_options};
ghost use Rattle.hevc_walk.specs.Pictures.{nothing_yet};
ghost use Rattle.hevc_kept_sets.specs.Kept.{kept_of, options_in};
ghost use Rattle.hevc_stateless.specs.States.{is_parameter_set};
ghost use Rattle.hevc_check.specs.Places.{place, Takes};
ghost use Rattle.hevc_check.specs.Walks.{HasStarted, TakesUnit, TakesSet};

use crate::begun::Begun;
use crate::pictures::Pictures;
use crate::unlike::Unlike;
use hevc_bits::{Nalu, NaluHeader, NaluType};
use hevc_kept_sets::{KeptSets, ParseError};
use hevc_options::Options;
use std::alloc::{AllocError, Global};

/// The parameter sets that are kept, and what the pictures so far mean.
#[derive(Drop)]
pub(crate) struct Walk {
    pub(crate) sets: KeptSets,
    pub(crate) pictures: Pictures,
}

impl Walk {
    /// Before the first unit.
    ///
    /// Errors: no memory.
    pub(crate) fn new(alloc: Global) -> Result<Walk, AllocError>
        ensures place { IfOk result (λ w. w.pictures ≡ place nothing_yet) }
        ensures kept { IfOk result (λ w. kept_of w.sets ≡ none_kept) }
        ensures options { IfOk result (λ w. options_in w.sets ≡ default_options) }
    {
        Ok(Walk {
            sets: KeptSets::new(alloc, Options::new()),
            pictures: Pictures::new(alloc)?,
        })
    }

    /// How many pictures have begun.
    pub(crate) fn num_pictures(&self) -> u64
        ensures { result ≡ self.now.pictures.next.number }
    {
        self.pictures.num_pictures()
    }

    /// Takes the unit of a video set.
    fn take_video_set(&mut self, nalu: &Nalu<'_, NaluHeader>) -> Result<(), AllocError>
        requires short { length nalu.now.stream < STREAM_LIMIT }
        requires parsed { unit_header (bytes_of nalu.now) ≡ Ok nalu.now.header }
        requires typed { nalu.now.header.nal_unit_type ≡ 32 }
        requires wanted { wants (options_in self.old.sets) nalu.now.header ≡ true }
        ensures takes { OnOk result (TakesSet (bytes_of nalu.now) self.old self.new) }
        ensures options { options_in self.new.sets ≡ options_in self.old.sets }
    {
        match self.sets.take_video_set(nalu) {
            Ok(()) => Ok(()),
            Err(error) => match error {
                ParseError::NoMemory => Err(AllocError),
                _ => Ok(()),
            },
        }
    }

    /// Takes the unit of a sequence set: the first one is negotiated, and the units that wait are
    /// read.
    fn take_sequence_set(&mut self, nalu: &Nalu<'_, NaluHeader>) -> Result<(), AllocError>
        requires short { length nalu.now.stream < STREAM_LIMIT }
        requires parsed { unit_header (bytes_of nalu.now) ≡ Ok nalu.now.header }
        requires typed { nalu.now.header.nal_unit_type ≡ 33 }
        requires wanted { wants (options_in self.old.sets) nalu.now.header ≡ true }
        ensures takes { OnOk result (TakesSet (bytes_of nalu.now) self.old self.new) }
        ensures options { options_in self.new.sets ≡ options_in self.old.sets }
    {
        let id = match self.sets.keep_sequence_set(nalu) {
            Ok(id) => id,
            Err(error) => match error {
                ParseError::NoMemory => return Err(AllocError),
                _ => return Ok(()),
            },
        };
        let set = self.sets.parser().get_sps(id).unwrap();
        self.pictures.open_sequence(set);
        self.sets.read_waiting()
    }

    /// Takes the unit of a picture set. One that can't be read waits.
    fn take_picture_set(&mut self, nalu: &Nalu<'_, NaluHeader>) -> Result<(), AllocError>
        requires short { length nalu.now.stream < STREAM_LIMIT }
        requires parsed { unit_header (bytes_of nalu.now) ≡ Ok nalu.now.header }
        requires typed { nalu.now.header.nal_unit_type ≡ 34 }
        requires wanted { wants (options_in self.old.sets) nalu.now.header ≡ true }
        ensures takes { OnOk result (TakesSet (bytes_of nalu.now) self.old self.new) }
        ensures options { options_in self.new.sets ≡ options_in self.old.sets }
    {
        self.sets.take_picture_set(nalu)
    }

    /// Takes the unit of a slice segment, while some sequence set is kept.
    fn take_slice(&mut self, nalu: Nalu<'_, NaluHeader>) -> Result<Option<Begun>, Unlike>
        requires short { length nalu.stream < STREAM_LIMIT }
        requires parsed { unit_header (bytes_of nalu) ≡ Ok nalu.header }
        requires typed { is_slice nalu.header.nal_unit_type ≡ true }
        requires wanted { wants (options_in self.old.sets) nalu.header ≡ true }
        requires open_ { (kept_of self.old.sets).has_sequence_set ≡ true }
        requires few { self.old.pictures.next.number < 2 ^ 64 - 1 }
        ensures takes { Takes result
            (meaning (options_in self.old.sets) (kept_of self.old.sets) (bytes_of nalu.entry))
            self.old.pictures self.new.pictures }
        ensures sets { self.new.sets ≡ self.old.sets }
    {
        let parser = self.sets.parser();
        let mut slice = parser.new_slice(nalu);
        let sets = match parser.read_slice(&mut slice) {
            Ok(sets) => sets,
            Err(error) => match error {
                ParseError::NoMemory => return Err(Unlike::NoMemory),
                _ => return Ok(None),
            },
        };
        let options = self.sets.options();
        self.pictures.take_slice(options, &mut slice, sets.sps)
    }

    /// Takes a unit that is no parameter set.
    fn take_coded(&mut self, nalu: Nalu<'_, NaluHeader>) -> Result<Option<Begun>, Unlike>
        requires short { length nalu.stream < STREAM_LIMIT }
        requires parsed { unit_header (bytes_of nalu) ≡ Ok nalu.header }
        requires other { is_parameter_set nalu.header.nal_unit_type ≡ false }
        requires wanted { wants (options_in self.old.sets) nalu.header ≡ true }
        requires started { HasStarted self.old }
        requires few { self.old.pictures.next.number < 2 ^ 64 - 1 }
        ensures takes { Takes result
            (meaning (options_in self.old.sets) (kept_of self.old.sets) (bytes_of nalu.entry))
            self.old.pictures self.new.pictures }
        ensures sets { self.new.sets ≡ self.old.sets }
    {
        if !self.pictures.is_open() {
            return Ok(None);
        }
        let nalu_type = nalu.header().nalu_type();
        if nalu_type.is_slice() {
            return self.take_slice(nalu);
        }
        match nalu_type {
            NaluType::EosNut => self.pictures.end_sequence(),
            NaluType::EobNut => self.pictures.end_bitstream(),
            _ => {}
        }
        Ok(None)
    }

    /// Takes a unit, and gives the picture that begins with it, if one does.
    ///
    /// Errors: the picture can't begin, or there is no memory.
    pub(crate) fn take_unit(&mut self, nalu: Nalu<'_, NaluHeader>) -> Result<Option<Begun>, Unlike>
        requires short { length nalu.stream < STREAM_LIMIT }
        requires parsed { unit_header (bytes_of nalu) ≡ Ok nalu.header }
        requires started { HasStarted self.old }
        requires few { self.old.pictures.next.number < 2 ^ 64 - 1 }
        ensures takes { TakesUnit result (bytes_of nalu.entry) self.old self.new }
        ensures options { options_in self.new.sets ≡ options_in self.old.sets }
    {
        let header = nalu.header();
        if !self.sets.options().wants(header) {
            return Ok(None);
        }
        match header.nalu_type() {
            NaluType::VpsNut => self.take_video_set(&nalu)?,
            NaluType::SpsNut => self.take_sequence_set(&nalu)?,
            NaluType::PpsNut => self.take_picture_set(&nalu)?,
            _ => return self.take_coded(nalu),
        }
        Ok(None)
    }
}
