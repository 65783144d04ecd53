//! The pictures of a stream as they begin, and what is stored then (8.1.3, 8.3.2, C.5.2).
ghost use Rattle.std.specs.Prelude.{FitsSigned, ◌≡◌, ◌<◌, ◌+◌, ◌-◌, ◌^◌, ◌&&◌, ◌||◌, ℤ, not, length, true, false, is_some, option_map, IfOk, IfErr, OnOk, OnErr};
ghost use Rattle.std.specs.Int.{w32};
ghost use Rattle.hevc_sequence_set.specs.Sps.{plain_sps};
ghost use Rattle.hevc_sequence_set.specs.declared.sps.Sps as code_sps;
ghost use Rattle.hevc_picture_slice.specs.declared.pps.Pps as code_pps;
ghost use Rattle.hevc_walk_inputs.specs.Sequences.{format_of_set};
ghost use Rattle.hevc_walk.specs.Meanings.{SequenceSet, CodedSlice, EndOfSequence, EndOfBitstream};
ghost use Rattle.hevc_walk.specs.Pictures.{nothing_yet, order_count_in_range};
ghost use Rattle.hevc_walk.specs.ReferenceSets.{with_marks};
ghost use Rattle.hevc_walk.specs.Walk.{change_format, begin_picture, is_accepted, is_full, needed_entries};
ghost use Rattle.hevc_backend.specs.Negotiation.{format_of};
ghost use Rattle.hevc_driver.specs.Heads.{head_of};
ghost use Rattle.hevc_driver.specs.Slices.{slice_of};
ghost use Rattle.hevc_check.specs.Filled.{is_full_up_to, is_up_to};
ghost use Rattle.hevc_check.specs.Places.{place, after_picture, with_picture, is_first_slice, after_unit, room_left, TellsPicture, CannotBegin, Takes};

use crate::beginning::after;
use crate::begun::{Begun, Stored};
use crate::filled::full_up_to;
use crate::unlike::Unlike;
use hevc_backend::NegotiationInfo;
use hevc_bumping::{Frame, bump_additionally, bump_for_room};
use hevc_dpb::{Dpb, DpbFull};
use hevc_driver::{Context, Head, complete_header, head_of_first, keep_header, reference_set};
use hevc_options::Options;
use hevc_picture_slice::{Slice, SliceHeader};
use hevc_refs::RefPicSet;
use hevc_sequence_set::Sps;
use std::alloc::{AllocError, Global};
use std::collections::VecDeque;
use std::marker::Model;

/// What the pictures so far mean for the next one. Nothing of a picture is kept but what its first
/// slice tells.
#[derive(Drop)]
pub(crate) struct Pictures {
    alloc: Global,
    /// The format that was negotiated last.
    accepted: Option<NegotiationInfo>,
    /// The decoded picture buffer.
    dpb: Dpb<()>,
    /// The pictures that the latest step outputs.
    out: VecDeque<Frame<()>>,
    /// The latest picture, which isn't stored yet.
    latest: Option<Head>,
    next: Context,
    /// The header of the latest independent slice segment (7.4.7.1).
    kept: Option<SliceHeader>,
}

impl Model for Pictures {
    ghost use Rattle.std.specs.Prelude.{option_map};
    ghost use Rattle.hevc_dpb.specs.Views.{buffer_of};
    ghost use Rattle.hevc_backend.specs.Negotiation.{format_of};
    ghost use Rattle.hevc_driver.specs.Heads.{head_of, context_of};
    ghost use Rattle.hevc_driver.specs.Slices.{kept_of};
    ghost use Rattle.hevc_check.specs.Filled.{is_full_up_to, is_up_to};
    ghost use Rattle.hevc_check.specs.Places.{Place, IsSound};

    ghost Value = { Place };

    ghost view = { λ w. record { store = record { accepted = option_map format_of w.accepted; buffer = buffer_of w.dpb }; latest = option_map head_of w.latest; next = context_of w.next; kept = option_map kept_of w.kept } };

    ghost invariant = { λ w. IsSound w.accepted w.dpb w.out w.latest w.next };
}

/// Whether this is the format that was accepted.
fn is_accepted(named: &NegotiationInfo, accepted: Option<NegotiationInfo>) -> bool
    ensures { result ≡ is_accepted (format_of named.now) (option_map format_of accepted) }
{
    accepted == Some(*named)
}

/// Whether a picture begins a coded video sequence: it is the first of all, or an IRAP picture with
/// NoRaslOutputFlag (8.1.3).
fn begins_sequence(is_first: bool, head: &Head) -> bool
    ensures { result ≡ (is_first || (head_of head.now).starts_sequence) }
{
    is_first || head.picture.starts_sequence()
}

impl Pictures {
    /// Before the first unit.
    ///
    /// Errors: no memory.
    pub(crate) fn new(alloc: Global) -> Result<Pictures, AllocError>
        ensures { IfOk result (λ w. w ≡ place nothing_yet) }
    {
        let mut dpb = Dpb::new(alloc);
        dpb.reserve()?;
        Ok(Pictures {
            alloc,
            accepted: None,
            dpb,
            out: VecDeque::with_capacity(alloc, 16)?,
            latest: None,
            next: Context {
                number: 0,
                first_picture_in_bitstream: true,
                first_picture_after_eos: true,
                prev_tid0_count: None,
                latest_irap_no_rasl: false,
            },
            kept: None,
        })
    }

    /// The latest picture is over: it is stored, and what is then due leaves (C.5.2.3).
    ///
    /// Errors: the buffer is full.
    fn finish(&mut self) -> Result<(), DpbFull>
        ensures after_picture { OnOk result (self.new ≡ after_picture self.old) }
        ensures full { OnErr result (is_full self.old.latest self.old.store ≡ true) }
    {
        let Some(head) = self.latest.take() else {
            return Ok(());
        };
        if head.skipped {
            return Ok(());
        }
        self.dpb.store_picture(head.number, head.picture, ())?;
        self.out.clear();
        bump_additionally(&mut self.dpb, &head.limits, &mut self.out);
        Ok(())
    }

    /// Where another format is negotiated, all that is needed for output is output before.
    fn change_format(&mut self, sps: &Sps)
        ensures { self.new ≡ record self.old {
          store = (change_format (format_of_set (plain_sps sps.now)) self.old.store).next;
        } }
    {
        let format = NegotiationInfo::from(sps);
        if is_accepted(&format, self.accepted) {
            return;
        }
        self.dpb.clear();
        self.dpb.set_max_num_pics(format.max_num_pics as usize);
        self.accepted = Some(format);
    }

    /// Pictures leave before one is decoded, once those left that aren't needed (C.5.2.2).
    fn make_room(&mut self, head: &Head)
        ensures { self.new ≡ record self.old {
          store = record self.old.store {
            buffer = room_left (head_of head.now) self.old.store.buffer;
          };
        } }
    {
        if head.picture.no_output_of_prior_pics_flag || head.picture.starts_sequence() {
            self.dpb.clear();
            return;
        }
        self.out.clear();
        bump_for_room(&mut self.dpb, &head.limits, &mut self.out);
    }

    /// Entries are marked for a picture that is decoded (8.3.2), and leave. Gives what stays before
    /// any is output because the buffer is full; nothing is done for a skipped picture.
    fn enter(&mut self, head: &Head, slice: &Slice<'_>, sps: &Sps) -> Stored
        ensures left { (o : Options) (pps : code_pps.Pps)
            → order_count_in_range (head_of head.now) ≡ true → self.new ≡ record self.old {
              store = (begin_picture (head_of head.now) (slice_of o slice.now sps.now pps)
                  self.old.store).next;
            } }
        ensures stored { (o : Options) (pps : code_pps.Pps) → (head_of head.now).skipped ≡ false
            → result.num ≡ length (needed_entries (with_marks (head_of head.now)
            (slice_of o slice.now sps.now pps) self.old.store.buffer)) }
        ensures filled { (o : Options) (pps : code_pps.Pps) (c : ℤ) → FitsSigned w32 c
            → is_up_to c result.filled ≡ (not (head_of head.now).skipped
            && is_full_up_to (head.now.limits.buffering + 1) c (needed_entries (with_marks
            (head_of head.now) (slice_of o slice.now sps.now pps) self.old.store.buffer))) }
        ensures others { self.new ≡ record self.old { store = self.new.store } }
    {
        if head.skipped {
            return Stored {
                num: 0,
                filled: None,
            };
        }
        let mut set = RefPicSet::new();
        reference_set(&mut self.dpb, head, slice, sps, &mut set);
        self.dpb.remove_unused();
        let stored = Stored {
            num: self.dpb.len(),
            filled: full_up_to(self.dpb.entries(), head.limits.buffering),
        };
        self.make_room(head);
        stored
    }

    /// The picture of a first slice begins.
    ///
    /// Errors: the buffer is full as the picture before is to be stored, or the order count isn't
    /// in range (8.3.1).
    fn begin(&mut self, options: Options, slice: &Slice<'_>, sps: &Sps) -> Result<Begun, Unlike>
        requires few { self.old.next.number < 2 ^ 64 - 1 }
        ensures begun { (pps : code_pps.Pps) → IfOk result (λ b.
            TellsPicture (slice_of options slice.now sps.now pps) self.old b
            × (self.new ≡ with_picture (slice_of options slice.now sps.now pps) self.old)) }
        ensures refused { (pps : code_pps.Pps) → OnErr result
            (CannotBegin (slice_of options slice.now sps.now pps) self.old) }
        ensures cause { IfErr result (λ e. e ≡ Unlike.Refused) }
    {
        let is_first = self.latest.is_none();
        self.finish()?;
        self.change_format(sps);
        let head = head_of_first(&self.next, options, slice, sps)?;
        let stored = self.enter(&head, slice, sps);
        self.next = after(&self.next, &head);
        self.latest = Some(head);
        Ok(Begun {
            head,
            begins_sequence: begins_sequence(is_first, &head),
            stored,
        })
    }

    /// Whether a slice begins a picture (7.4.2.4.5).
    #[tactic(auto, unfolding(hevc_driver::specs::Slices::slice_of))]
    fn is_first_slice(&self, slice: &Slice<'_>) -> bool
        ensures { (o : Options) (sps : code_sps.Sps) (pps : code_pps.Pps) → result
            ≡ is_first_slice (slice_of o slice.now sps pps) self.now.latest }
    {
        self.latest.is_none() || slice.header().first_slice_segment_in_pic_flag
    }

    /// Takes a slice segment, which is completed where it is a dependent one (7.4.7.1), and gives
    /// the picture that begins with it, if one does.
    ///
    /// Errors: the buffer is full as the picture before is to be stored, or the order count isn't
    /// in range (8.3.1).
    pub(crate) fn take_slice(
        &mut self,
        options: Options,
        slice: &mut Slice<'_>,
        sps: &Sps,
    ) -> Result<Option<Begun>, Unlike>
        requires few { self.old.next.number < 2 ^ 64 - 1 }
        ensures takes { (pps : code_pps.Pps) → Takes result
            (CodedSlice (slice_of options slice.old sps.now pps)) self.old self.new }
        ensures cause { IfErr result (λ e. e ≡ Unlike.Refused) }
    {
        if !complete_header(&self.kept, slice, sps) {
            return Ok(None);
        }
        keep_header(self.alloc, &mut self.kept, slice);
        if !self.is_first_slice(slice) {
            return Ok(None);
        }
        let begun = self.begin(options, slice, sps)?;
        Ok(Some(begun))
    }

    /// A sequence set is kept: the first one is negotiated.
    pub(crate) fn open_sequence(&mut self, sps: &Sps)
        ensures { self.new ≡ after_unit (SequenceSet (format_of_set (plain_sps sps.now))) self.old }
    {
        if self.accepted.is_some() {
            return;
        }
        let format = NegotiationInfo::from(sps);
        self.dpb.set_max_num_pics(format.max_num_pics as usize);
        self.accepted = Some(format);
    }

    /// Whether a format was negotiated.
    pub(crate) fn is_open(&self) -> bool
        ensures { result ≡ is_some self.now.store.accepted }
    {
        self.accepted.is_some()
    }

    /// How many pictures have begun.
    pub(crate) fn num_pictures(&self) -> u64
        ensures { result ≡ self.now.next.number }
    {
        self.next.number
    }

    /// The next picture is the first one after an end of sequence (7.4.2.4.4).
    pub(crate) fn end_sequence(&mut self)
        ensures { self.new ≡ after_unit EndOfSequence self.old }
    {
        self.next.first_picture_after_eos = true;
    }

    /// The next picture is the first one after an end of bitstream.
    pub(crate) fn end_bitstream(&mut self)
        ensures { self.new ≡ after_unit EndOfBitstream self.old }
    {
        self.next.first_picture_in_bitstream = true;
    }
}
