//! Sets that are kept, and units of picture sets that wait.
ghost use Rattle.std.specs.Prelude.{◌≡◌, ◌<◌, ◌≤◌, ◌^◌, ◌∷◌, ℕ, List, length, drop, IsTrue, IsSome};
ghost use Rattle.std.specs.Prelude.{IfSome, OnOk, OnErr, Some, Ok, true};
ghost use Rattle.std.specs.List.{list_all};
ghost use Rattle.hevc_spec.specs.UnitHeader.{unit_header};
ghost use Rattle.hevc_bits.specs.FoundUnit.{bytes_of};
ghost use Rattle.hevc_records.specs.Sps.{PlainSps};
ghost use Rattle.hevc_stream.specs.Kept.{none_kept};
ghost use Rattle.hevc_stream.specs.Contents.{wants};
ghost use Rattle.hevc_stream.specs.Stream.{kept_behind, with_all_waited};
ghost use Rattle.hevc_options.specs.Options.{options_of};
ghost use Rattle.hevc_parser.specs.Kept.{kept_by};
ghost use Rattle.hevc_kept_sets.specs.CutUnits.{is_wanted};
ghost use Rattle.hevc_kept_sets.specs.ReadUnits.{set_read, IsKeptAsRead, IsKeptAsRead-prop};
ghost use Rattle.hevc_kept_sets.specs.Settled.{names_no_other, is_settled};
ghost use Rattle.hevc_kept_sets.specs.Takes.{ReadsPictureSet};
ghost use Rattle.hevc_bits.specs.declared.stream_limit.TheConstants.{STREAM_LIMIT};

use crate::read_unit::ReadUnit;
use crate::set_ids::{is_among, with_id, with_named};
use crate::waiting_unit::{WaitingUnit, named_by};
use hevc_bits::{Nalu, NaluHeader};
use hevc_options::Options;
use hevc_parser::{ParseError, Parser};
use hevc_readers::read_sps;
use std::alloc::{AllocError, Global};
use std::collections::VecDeque;

/// The parameter sets that are kept, and the units of picture sets that wait (7.4.2.4.2).
///
/// A picture set that can't be read is kept as its unit. It is tried again where the sequence set
/// that it names has changed since: it has the same meaning for as long as that set is the same.
#[derive(Drop)]
pub struct KeptSets {
    alloc: Global,
    options: Options,
    parser: Parser,
    waiting: VecDeque<WaitingUnit>,
    /// The ids of the sequence sets that units which wait name, and maybe more: a bit for each.
    named: u16,
    /// The ids of the sequence sets that changed since all units that wait were tried: a bit for
    /// each.
    changed: u16,
    /// The unit of the sequence set that was read last, if there was room for a copy.
    last_read: Option<ReadUnit>,
    ghost repeated: { IsKeptAsRead (kept_by parser) last_read } by { IsKeptAsRead-prop (kept_by parser) last_read },
    ghost wanted: { IsTrue (list_all (is_wanted (options_of options)) waiting.items) },
    ghost covered: { IsTrue (list_all (names_no_other named) waiting.items) },
    ghost settled: { IsTrue (list_all (is_settled changed (options_of options) (kept_by parser)) waiting.items) },
}

impl KeptSets {
    ghost use Rattle.hevc_kept_sets.specs.Kept.{kept_of, options_in};
    ghost use Rattle.hevc_kept_sets.specs.Takes.{TakesVideoSet, KeepsSequenceSet, StopsReading};
    ghost use Rattle.hevc_kept_sets.specs.Takes.{first_waited};

    /// No set is kept, and no unit waits. Takes no memory; sets and units take theirs from `alloc`.
    pub fn new(alloc: Global, options: Options) -> KeptSets
        ensures none { kept_of result ≡ none_kept }
        ensures options { options_in result ≡ options_of options }
    {
        KeptSets {
            alloc,
            options,
            parser: Parser::new(alloc),
            waiting: VecDeque::new(alloc),
            named: 0,
            changed: 0,
            last_read: None,
        }
    }

    /// The sets that are kept.
    pub fn parser(&self) -> &Parser
        ensures { record (kept_by result.now) { waiting = (kept_of self.now).waiting }
            ≡ kept_of self.now }
    {
        &self.parser
    }

    /// How many units wait.
    pub fn num_waiting(&self) -> usize
        ensures { result ≡ length (kept_of self.now).waiting }
    {
        self.waiting.len()
    }

    /// What is set for decoding.
    pub fn options(&self) -> Options
        ensures { options_of result ≡ options_in self.now }
    {
        self.options
    }

    /// Reads the video set of a wanted unit, in a stream of less than 2^60 bytes,
    /// by table 1 (7.3.2.1), and keeps it.
    ///
    /// Errors: `OutOfBits` where the payload ends within an element; `OutOfRange` with table and
    /// row of the first element that isn't allowed; `NoMemory`. What is kept then stays.
    pub fn take_video_set(&mut self, nalu: &Nalu<'_, NaluHeader>) -> Result<(), ParseError>
        requires short { length nalu.now.stream < STREAM_LIMIT }
        requires typed { nalu.now.header.nal_unit_type ≡ 32 }
        requires wanted { wants (options_in self.old) nalu.now.header ≡ true }
        ensures takes { TakesVideoSet (options_in self.old) (bytes_of nalu.now) result
            (kept_of self.old) (kept_of self.new) }
        ensures options { options_in self.new ≡ options_in self.old }
    {
        // That its bytes parse to its header, `header` says.
        let _header = nalu.header();
        self.parser.parse_vps(nalu)?;
        Ok(())
    }

    /// Reads the sequence set of a wanted unit, in a stream of less than 2^60 bytes,
    /// by table 5 (7.3.2.2.1), keeps it, and gives its id. No waiting unit is tried again:
    /// that is `read_waiting`.
    ///
    /// Errors: those of `take_video_set`. What is kept then stays.
    pub fn keep_sequence_set(&mut self, nalu: &Nalu<'_, NaluHeader>) -> Result<u8, ParseError>
        requires short { length nalu.now.stream < STREAM_LIMIT }
        requires typed { nalu.now.header.nal_unit_type ≡ 33 }
        requires wanted { wants (options_in self.old) nalu.now.header ≡ true }
        ensures keeps { KeepsSequenceSet (options_in self.old) (bytes_of nalu.now) result
            (kept_of self.old) (kept_of self.new) }
        ensures options { options_in self.new ≡ options_in self.old }
    {
        // That its bytes parse to its header, `header` says.
        let _header = nalu.header();
        if let Some(id) = self.repeated(nalu.as_ref()) {
            return Ok(id);
        }
        self.read_sequence_set(nalu)
    }

    /// Reads the sequence set of a unit, keeps it, and gives its id.
    fn read_sequence_set(&mut self, nalu: &Nalu<'_, NaluHeader>) -> Result<u8, ParseError>
        requires short { length nalu.now.stream < STREAM_LIMIT }
        requires typed { nalu.now.header.nal_unit_type ≡ 33 }
        requires wanted { wants (options_in self.old) nalu.now.header ≡ true }
        requires parsed { unit_header (bytes_of nalu.now) ≡ Ok nalu.now.header }
        ensures keeps { KeepsSequenceSet (options_in self.old) (bytes_of nalu.now) result
            (kept_of self.old) (kept_of self.new) }
        ensures options { options_in self.new ≡ options_in self.old }
    {
        let set = read_sps(self.alloc, nalu)?;
        let id = set.get().seq_parameter_set_id;
        if self.parser.keep_sequence_set(set)? {
            self.changed = with_id(self.changed, id);
        }
        self.last_read = ReadUnit::copy_of(self.alloc, nalu.as_ref(), id);
        Ok(id)
    }

    /// The id of the sequence set as which these bytes were read, where they are those that were
    /// read last, and the set is kept.
    fn repeated(&self, bytes: &[u8]) -> Option<u8>
        ensures { IfSome result (λ id. (set : PlainSps) × ((set_read bytes.now ≡ Some set)
            × ((kept_by self.now.parser).sequence_sets id ≡ Some set)
            × (set.seq_parameter_set_id ≡ id))) }
    {
        let last = self.last_read.as_ref()?;
        if last.bytes.as_slice() != bytes {
            return None;
        }
        let set = self.parser.get_sps(last.id)?;
        Some(set.seq_parameter_set_id)
    }

    /// Tries all units that wait once more, in their order: each is read now and its set kept, or
    /// waits on. One whose sequence set is as it was at the last try waits on unread, and where
    /// that holds of all, none is looked at.
    ///
    /// Errors: an allocation fails at some unit. The units before it were tried; it and those after
    /// it wait on, in their order.
    pub fn read_waiting(&mut self) -> Result<(), AllocError>
        ensures read { OnOk result
            (kept_of self.new ≡ with_all_waited (options_in self.old) (kept_of self.old)) }
        ensures stopped { OnErr result
            (StopsReading (options_in self.old) (kept_of self.old) (kept_of self.new)) }
        ensures options { options_in self.new ≡ options_in self.old }
    {
        if self.changed & self.named != 0 {
            self.try_all()?;
            self.named = named_by(&self.waiting);
        }
        self.changed = 0;
        Ok(())
    }

    /// Reads the picture set of a wanted unit, in a stream of less than 2^60 bytes,
    /// by table 11 (7.3.2.3.1), and keeps it. Where it can't be read, a copy of the unit waits
    /// after the others.
    ///
    /// Errors: an allocation fails. What is kept then stays.
    pub fn take_picture_set(&mut self, nalu: &Nalu<'_, NaluHeader>) -> Result<(), AllocError>
        requires short { length nalu.now.stream < STREAM_LIMIT }
        requires typed { nalu.now.header.nal_unit_type ≡ 34 }
        requires wanted { wants (options_in self.old) nalu.now.header ≡ true }
        ensures behind { OnOk result (kept_of self.new
            ≡ kept_behind (options_in self.old) (kept_of self.old) (bytes_of nalu.now)) }
        ensures stays { OnErr result (kept_of self.new ≡ kept_of self.old) }
        ensures options { options_in self.new ≡ options_in self.old }
    {
        // That its bytes parse to its header, `header` says.
        let _header = nalu.header();
        if !read_picture_set(&mut self.parser, nalu)? {
            let unit = WaitingUnit::copy_of(self.alloc, nalu)?;
            self.named = with_named(self.named, unit.named());
            self.waiting.push_back(unit)?;
        }
        Ok(())
    }

    /// Looks at all units that wait, in their order, and tries those once more whose sequence set
    /// changed. Where an allocation fails at some unit it and those after it wait on, in their
    /// order.
    fn try_all(&mut self) -> Result<(), AllocError>
        ensures tried { OnOk result
            (kept_of self.new ≡ with_all_waited (options_in self.old) (kept_of self.old)) }
        ensures stopped { OnErr result
            (StopsReading (options_in self.old) (kept_of self.old) (kept_of self.new)) }
        ensures options { options_in self.new ≡ options_in self.old }
    {
        let count = self.waiting.len();
        for tried in 0..count {
            if self.try_first().is_err() {
                self.waiting.rotate_left(count - tried);
                return Err(AllocError);
            }
        }
        Ok(())
    }

    /// Tries the first unit that waits once more: it is read now, or waits after the others. Where
    /// an allocation fails it stays the first. It isn't read where its sequence set is as it was.
    fn try_first(&mut self) -> Result<(), AllocError>
        requires { 0 < length (kept_of self.old).waiting }
        ensures tried { OnOk result
            (kept_of self.new ≡ first_waited (options_in self.old) (kept_of self.old).waiting
            (kept_of self.old)) }
        ensures stays { OnErr result (kept_of self.new ≡ kept_of self.old) }
        ensures options { options_in self.new ≡ options_in self.old }
    {
        let unit = self.waiting.pop_front().unwrap();
        if !is_among(self.changed, unit.named()) {
            self.waiting.push_back_reserved(unit);
            return Ok(());
        }
        match read_picture_set(&mut self.parser, &unit.nalu()) {
            Ok(true) => Ok(()),
            Ok(false) => {
                self.waiting.push_back_reserved(unit);
                Ok(())
            }
            Err(error) => {
                self.waiting.push_front_reserved(unit);
                Err(error)
            }
        }
    }
}

/// Reads the picture set of a unit and keeps it; `false` where it can't be read.
fn read_picture_set(parser: &mut Parser, nalu: &Nalu<'_, NaluHeader>) -> Result<bool, AllocError>
    requires short { length nalu.now.stream < STREAM_LIMIT }
    requires typed { nalu.now.header.nal_unit_type ≡ 34 }
    ensures { ReadsPictureSet nalu.now.header (bytes_of nalu.now) result
        (kept_by parser.old) (kept_by parser.new) }
{
    match parser.parse_pps(nalu) {
        Ok(_) => Ok(true),
        Err(ParseError::NoMemory) => Err(AllocError),
        Err(_) => Ok(false),
    }
}
