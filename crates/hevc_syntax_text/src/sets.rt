//! The parameter sets that are kept at a unit, and why it isn't read with them.
ghost use Rattle.std.specs.Prelude.{◌≡◌, ◌<◌, ◌-◌, length, true, false, IfOk, OnOk, if◌then◌else◌};
ghost use Rattle.std.specs.Prelude.{None};
ghost use Rattle.hevc_spec.specs.UnitTypes.{is_slice};
ghost use Rattle.hevc_bits.specs.FoundUnit.{bytes_of};
ghost use Rattle.hevc_bits.specs.declared.stream_limit.TheConstants.{STREAM_LIMIT};
ghost use Rattle.hevc_stream.specs.Options.{default_options};
ghost use Rattle.hevc_stream.specs.Stream.{kept_behind};
ghost use Rattle.hevc_parser.specs.Kept.{kept_by};
ghost use Rattle.hevc_parser.specs.Telling.{told_of_unit};
ghost use Rattle.hevc_syntax_text.specs.Causes.{cause_of_unit};
ghost use Rattle.hevc_syntax_text.specs.Order.{counting_behind};
ghost use Rattle.hevc_syntax_text.specs.Variables.{variables_of_unit};
ghost use Rattle.hevc_syntax_text.specs.Before.{at_beginning};
ghost use Rattle.hevc_syntax_text.specs.Standing.{before_of, sets_of, AreAlike, Follow};

use crate::causes::{picture_set_cause, sequence_set_outcome, slice_outcome, video_set_cause};
use crate::counting::Counting;
use crate::keeping::keep;
use crate::outcome::Outcome;
use hevc_bits::{Nalu, NaluHeader, NaluType};
use hevc_elements::Told;
use hevc_kept_sets::{KeptSets, Options, Parser};
use hevc_refused_element::elements_of;
use std::alloc::{AllocError, Global};

/// The parameter sets that are kept.
#[derive(Drop)]
pub(crate) struct Sets {
    alloc: Global,
    pub(crate) kept: KeptSets,
    /// The sequence sets once more: with them a picture set that waits is read for its refusal,
    /// which `KeptSets` doesn't tell.
    pub(crate) parser: Parser,
    pub(crate) counting: Counting,
}

impl Sets {
    /// No set is kept, and no picture has begun.
    pub(crate) fn new(alloc: Global) -> Sets
        ensures first { before_of result ≡ at_beginning }
        ensures alike { AreAlike result }
    {
        Sets {
            alloc,
            kept: KeptSets::new(alloc, Options::new()),
            parser: Parser::new(alloc),
            counting: Counting::new(),
        }
    }

    /// The elements of a unit.
    ///
    /// Errors: no memory.
    pub(crate) fn tell(&self, nalu: &Nalu<'_, NaluHeader>) -> Result<Vec<Told>, AllocError>
        requires { length nalu.now.stream < STREAM_LIMIT }
        ensures { IfOk result (λ told. told.items ≡ told_of_unit (sets_of self.now) nalu.now) }
    {
        elements_of(self.alloc, self.kept.parser(), nalu)
    }

    /// Takes a unit: what it has is kept, a picture that begins is counted, and the cause is given
    /// where it isn't read.
    ///
    /// Errors: no memory.
    pub(crate) fn take(&mut self, nalu: &Nalu<'_, NaluHeader>) -> Result<Outcome, AllocError>
        requires short { length nalu.now.stream < STREAM_LIMIT }
        requires alike { AreAlike self.old }
        ensures cause { IfOk result
            (λ outcome. outcome.cause ≡ cause_of_unit (sets_of self.old) nalu.now) }
        ensures variables { IfOk result (λ outcome. outcome.variables
            ≡ variables_of_unit self.old.counting (sets_of self.old) nalu.now) }
        ensures kept { OnOk result (sets_of self.new
            ≡ kept_behind default_options (sets_of self.old) (bytes_of nalu.now)) }
        ensures counting { OnOk result (self.new.counting
            ≡ counting_behind self.old.counting (sets_of self.old) nalu.now) }
        ensures alike { OnOk result (AreAlike self.new) }
    {
        let outcome = self.look(nalu)?;
        keep(&mut self.kept, nalu)?;
        Ok(outcome)
    }

    /// Looks at a unit: why it isn't read, if it isn't, and its variables. The parser keeps its
    /// sequence set, and a picture that begins is counted.
    fn look(&mut self, nalu: &Nalu<'_, NaluHeader>) -> Result<Outcome, AllocError>
        requires short { length nalu.now.stream < STREAM_LIMIT }
        requires alike { AreAlike self.old }
        ensures cause { IfOk result
            (λ outcome. outcome.cause ≡ cause_of_unit (sets_of self.old) nalu.now) }
        ensures variables { IfOk result (λ outcome. outcome.variables
            ≡ variables_of_unit self.old.counting (sets_of self.old) nalu.now) }
        ensures counting { OnOk result (self.new.counting
            ≡ counting_behind self.old.counting (sets_of self.old) nalu.now) }
        ensures follow { OnOk result (Follow (bytes_of nalu.now)
            (kept_by self.old.parser).sequence_sets (kept_by self.new.parser).sequence_sets) }
        ensures kept { self.new.kept ≡ self.old.kept }
    {
        match nalu.header().nalu_type() {
            NaluType::VpsNut => Ok(Outcome::plain(video_set_cause(self.alloc, nalu)?)),
            NaluType::SpsNut => sequence_set_outcome(self.alloc, &mut self.parser, nalu),
            NaluType::PpsNut => Ok(Outcome::plain(picture_set_cause(&mut self.parser, nalu)?)),
            nalu_type => {
                if nalu_type.is_slice() {
                    slice_outcome(self.kept.parser(), &mut self.counting, nalu)
                } else {
                    self.counting.end(nalu_type);
                    Ok(Outcome::plain(None))
                }
            }
        }
    }
}
