//! Whole streams checked.
ghost use Rattle.std.specs.Prelude.{◌≡◌, ◌<◌, ◌≤◌, ◌+◌, ◌-◌, ◌^◌, ◌∷◌, ℕ, List, length, if◌then◌else◌, Option, option_map, IfOk, OnOk, IsErrOf, Ok};
ghost use Rattle.hevc_spec.specs.UnitHeader.{unit_header};
ghost use Rattle.hevc_bits.specs.FoundUnit.{bytes_of};
ghost use Rattle.hevc_bits.specs.declared.stream_limit.TheConstants.{STREAM_LIMIT};
ghost use Rattle.hevc_walk.specs.Meanings.{Format};
ghost use Rattle.hevc_walk.specs.Pictures.{Picture, Stream, nothing_yet};
ghost use Rattle.hevc_walk.specs.Results.{verdict};
ghost use Rattle.hevc_check_laws.specs.Breaches.{all_breaches};
ghost use Rattle.hevc_check_laws.specs.Checks.{Yes, checked_bounds, checked_order, first_breach};
ghost use Rattle.hevc_check.specs.Breaches.{breach_of};
ghost use Rattle.hevc_check.specs.Sequences.{FollowsAll, TellsNext};
ghost use Rattle.hevc_stream.specs.Kept.{none_kept};
ghost use Rattle.hevc_stream.specs.Options.{default_options};
ghost use Rattle.hevc_stream.specs.Stream.{meaning, meanings};
ghost use Rattle.hevc_kept_sets.specs.Kept.{kept_of, options_in};
ghost use Rattle.hevc_check.specs.Answers.{checked_of, error_by, AnswersCheck, AreAllInOrder, IsYes};
ghost use Rattle.hevc_check.specs.Steps.{IsAt, Steps};
ghost use Rattle.hevc_check.specs.declared.table.Table.{Table as CheckTable};
ghost use Rattle.hevc_check.specs.Tables.{breaks_by, checked_by};
ghost use Rattle.hevc_check.specs.Walks.{HasStarted, KeepsBehind};

use crate::begun::Begun;
use crate::breach::Breach;
use crate::sequence::Sequence;
use crate::table::Table;
use crate::units::Walk;
use crate::unlike::Unlike;
use hevc_backend::SilentBackend;
use hevc_bits::{Nalu, NaluHeader, UnitError};
use hevc_decoder::{DecodeError, Options, Refused, judge_stream};
use std::alloc::{AllocError, Global};
use thiserror::Error;

/// What a check of a stream answers.
#[derive(Clone, Copy, Debug, PartialEq, Eq)]
pub enum Checked {
    /// Nothing is broken: how many coded video sequences and pictures the stream has.
    Yes {
        sequences: u64,
        pictures: u64,
    },
    /// The lowest numbered picture that breaks something, from 0, the unit of its first slice, from
    /// 0, and the first of what it breaks.
    No {
        number: u64,
        unit: u64,
        breach: Breach,
    },
}

/// Why a stream can't be checked.
#[derive(Clone, Copy, Debug, PartialEq, Eq, Drop, Error)]
pub enum CheckError {
    /// It can't be decoded.
    #[error("{0}")]
    Refused(Refused),
    #[error("no memory")]
    NoMemory,
}

/// What was found so far.
#[derive(Drop)]
pub(crate) struct Check {
    pub(crate) walk: Walk,
    /// The latest sequence.
    pub(crate) sequence: Sequence,
    /// How many sequences have begun.
    pub(crate) sequences: u64,
}

impl Check {
    /// Before the first unit.
    ///
    /// Errors: no memory.
    fn new(alloc: Global, table: Table) -> Result<Check, AllocError>
        ensures at { IfOk result (λ c. IsAt table nothing_yet c) }
        ensures kept { IfOk result (λ c. kept_of c.walk.sets ≡ none_kept) }
        ensures options { IfOk result (λ c. options_in c.walk.sets ≡ default_options) }
        ensures started { IfOk result (λ c. HasStarted c.walk) }
    {
        Ok(Check {
            walk: Walk::new(alloc)?,
            sequence: Sequence::new(alloc, table),
            sequences: 0,
        })
    }

    /// The answer where nothing is broken.
    fn passed(&self) -> Checked
        ensures { checked_of result
            ≡ Yes self.now.sequences self.now.walk.pictures.next.number }
    {
        Checked::Yes {
            sequences: self.sequences,
            pictures: self.walk.num_pictures(),
        }
    }

    /// Takes a picture that begins, and gives what it breaks first, if anything.
    fn take_picture(&mut self, begun: &Begun) -> Result<Option<Breach>, AllocError>
        requires few { self.old.sequences < 2 ^ 64 - 1 }
        ensures breach { IfOk result (λ breach. (set : Option (ℕ × Format)) (p : Picture)
            (before : List Picture) → TellsNext set p before begun.now
            → FollowsAll set before self.old.sequence → option_map breach_of breach
            ≡ first_breach (breaks_by self.old.sequence.table set p before) all_breaches) }
        ensures follows { OnOk result ((set : Option (ℕ × Format)) (p : Picture)
            (before : List Picture) → TellsNext set p before begun.now
            → FollowsAll set before self.old.sequence
            → FollowsAll set (p ∷ before) self.new.sequence) }
        ensures table { self.new.sequence.table ≡ self.old.sequence.table }
        ensures sequences { self.new.sequences ≡ self.old.sequences
            + (if begun.now.begins_sequence then 1 else 0) }
        ensures walk { self.new.walk ≡ self.old.walk }
    {
        self.sequences += u64::from(begun.begins_sequence);
        self.sequence.take(begun)
    }

    /// Takes a unit, and gives the picture that begins with it and breaks something, with what it
    /// breaks first.
    ///
    /// Errors: the picture can't begin, or there is no memory.
    fn take_unit(
        &mut self,
        nalu: Nalu<'_, NaluHeader>,
        unit: u64,
    ) -> Result<Option<Checked>, Unlike>
        requires short { length nalu.stream < STREAM_LIMIT }
        requires parsed { unit_header (bytes_of nalu) ≡ Ok nalu.header }
        requires started { HasStarted self.old.walk }
        requires few { self.old.walk.pictures.next.number < 2 ^ 64 - 1 }
        requires few_sequences { self.old.sequences < 2 ^ 64 - 1 }
        ensures steps { (t : CheckTable) (v : Stream) → IsAt t v self.old → Steps t result unit
            (meaning (options_in self.old.walk.sets) (kept_of self.old.walk.sets)
            (bytes_of nalu.entry)) v self.new }
        ensures kept { KeepsBehind result (bytes_of nalu.entry) self.old.walk self.new.walk }
        ensures options { options_in self.new.walk.sets ≡ options_in self.old.walk.sets }
        ensures few { OnOk result (self.new.sequences ≤ self.old.sequences + 1) }
        ensures number { OnOk result (self.new.walk.pictures.next.number
            ≤ self.old.walk.pictures.next.number + 1) }
    {
        let Some(begun) = self.walk.take_unit(nalu)? else {
            return Ok(None);
        };
        let Some(breach) = self.take_picture(&begun)? else {
            return Ok(None);
        };
        let number = begun.head.number;
        Ok(Some(Checked::No {
            number,
            unit,
            breach,
        }))
    }
}

/// Looks for the first picture that breaks something by a table, in a stream that is decoded whole.
fn find_breach(alloc: Global, table: Table, stream: &[u8]) -> Result<Checked, Unlike>
    requires short { length stream.now < STREAM_LIMIT }
    ensures checked { IfOk result
        (λ c. checked_of c ≡ checked_by table (meanings default_options stream.now)) }
    ensures refused { IsErrOf result Unlike.Refused
        → (n : ℕ) → verdict (meanings default_options stream.now) ≡ Ok n → ⊥ }
{
    let mut check = Check::new(alloc, table)?;
    let mut position = 0;
    let mut unit = 0;
    loop {
        let nalu = match Nalu::next(stream, &mut position) {
            Ok(nalu) => nalu,
            Err(error) => match error {
                UnitError::NoNal => return Ok(check.passed()),
                _ => return Err(Unlike::Refused),
            },
        };
        position = nalu.offset() + nalu.size();
        if let Some(broken) = check.take_unit(nalu, unit)? {
            return Ok(broken);
        }
        unit += 1;
    }
}

/// Checks a byte stream (Annex B) of less than 2^60 bytes: whether each of its coded video
/// sequences has one format and one set of limits, declares no latency, has no two pictures of one
/// order count, never fills the decoded picture buffer, isn't followed by one whose first picture has
/// NoOutputOfPriorPicsFlag set, and has at most sps_max_num_reorder_pics pictures before one in
/// decoding order and after it in output order (7.4.3.2.1). Where the answer is `Yes` the outputs of
/// each sequence are exactly its pictures that are to be output, in strictly rising order count.
///
/// Errors: `Refused` exactly where the stream can't be decoded; `NoMemory`.
pub fn check_stream(alloc: Global, stream: &[u8]) -> Result<Checked, CheckError>
    requires { length stream.now < STREAM_LIMIT }
    ensures answer { AnswersCheck result (verdict (meanings default_options stream.now))
        (checked_bounds (meanings default_options stream.now)) }
    ensures order { IsYes result → AreAllInOrder (meanings default_options stream.now) }
{
    check_by(alloc, Table::Bounds, stream)
}

/// Checks a byte stream (Annex B) of less than 2^60 bytes for display order alone: whether each of
/// its coded video sequences has one format and one set of limits, has no two pictures of one order
/// count that are to be output, isn't followed by one whose first picture has NoOutputOfPriorPicsFlag
/// set, and has at most sps_max_num_reorder_pics pictures before one in decoding order and after it
/// in output order; whether less than SpsMaxLatencyPictures are decoded between one and a later one
/// that is output before it, where a latency is declared (7.4.3.2.1); and whether no picture is
/// output because the buffer is full that a later one is output before. Where the answer is `Yes` the
/// outputs of each sequence are exactly its pictures that are to be output, in strictly rising order
/// count.
///
/// Errors: `Refused` exactly where the stream can't be decoded; `NoMemory`.
pub fn check_order(alloc: Global, stream: &[u8]) -> Result<Checked, CheckError>
    requires { length stream.now < STREAM_LIMIT }
    ensures answer { AnswersCheck result (verdict (meanings default_options stream.now))
        (checked_order (meanings default_options stream.now)) }
    ensures order { IsYes result → AreAllInOrder (meanings default_options stream.now) }
{
    check_by(alloc, Table::Order, stream)
}

/// Checks a byte stream by a table.
pub(crate) fn check_by(alloc: Global, table: Table, stream: &[u8]) -> Result<Checked, CheckError>
    requires { length stream.now < STREAM_LIMIT }
    ensures answer { AnswersCheck result (verdict (meanings default_options stream.now))
        (checked_by table (meanings default_options stream.now)) }
    ensures order { IsYes result → AreAllInOrder (meanings default_options stream.now) }
{
    let decoded = judge_stream(alloc, SilentBackend::new(), Options::new(), stream);
    if let Err(refused) = decoded.result {
        return Err(error_of(refused));
    }
    match find_breach(alloc, table, stream) {
        Ok(checked) => Ok(checked),
        Err(Unlike::NoMemory) => Err(CheckError::NoMemory),
        Err(Unlike::Refused) => unreachable!(),
    }
}

/// The error of a stream that isn't decoded whole.
fn error_of(refused: Refused) -> CheckError
    ensures { result ≡ error_by refused.error refused }
{
    match refused.error {
        DecodeError::NoMemory => CheckError::NoMemory,
        _ => CheckError::Refused(refused),
    }
}
