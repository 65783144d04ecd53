//! A slice segment is taken: it begins a picture, or is a later one of the current picture
//! (7.4.2.4.5).
ghost use Rattle.hevc_refs.specs.declared.ref_pic_set.RefPicSet.{RefPicSet};
ghost use Rattle.std.specs.Prelude.{◌≡◌, Some, option_map};
ghost use Rattle.hevc_walk.specs.Meanings.{CodedSlice, same_format};
ghost use Rattle.hevc_walk.specs.DependentSlices.{whole_slice};
ghost use Rattle.hevc_walk_units.specs.Units.{NoPicture, begins_picture, changed_by};
ghost use Rattle.hevc_walk_units.specs.Units.{finish_current};
ghost use Rattle.hevc_backend.specs.Negotiation.{format_of};
ghost use Rattle.hevc_driver.specs.Slices.{slice_of, kept_of, LeavesSlice};
ghost use Rattle.hevc_backend.specs.Handed.{plain_dpb, segment_of};
ghost use Rattle.hevc_driver.specs.Given.{Given, given_at, given_first};
ghost use Rattle.hevc_driver.specs.Headers.{latest_of, latest_behind, whole_segment};
ghost use Rattle.hevc_driver.specs.Answers.{IsFairIn};
ghost use Rattle.hevc_driver.specs.Standings.{standing, traces_in, current_of};
ghost use Rattle.hevc_driver.specs.declared.current.Current.TheVariants.{OpenPicture};
ghost use Rattle.hevc_driver.specs.Sound.{HasRoom, AreNamed, StaysSound, with_header, IsSoundIn};
ghost use Rattle.hevc_driver.specs.Sound.{StaysSoundIn};
ghost use Rattle.hevc_driver.specs.Takes.{Takes, Changes, Follows, given_up_by, ChecksFormat};
ghost use Rattle.hevc_sequence_set.specs.declared.sps.Sps as code_sps;
ghost use Rattle.hevc_picture_slice.specs.declared.pps.Pps as code_pps;
ghost use Rattle.hevc_picture_slice.specs.SliceHeader.{plain_slice_header};
ghost use Rattle.hevc_options.specs.declared.Options as code_options;

use crate::current::Current;
use crate::decode_error::DecodeError;
use crate::driver::Driver;
use crate::kept::{complete_header, keep_header};
use crate::references::build_lists;
use hevc_backend::{NegotiationInfo, StatelessH265DecoderBackend};
use hevc_options::Options;
use hevc_picture_slice::{Pps, Slice};
use hevc_sequence_set::Sps;

/// Whether a slice begins a picture.
#[tactic(auto, unfolding(crate::specs::Slices::slice_of))]
fn begins<P>(current: &Current<P>, slice: &Slice<'_>) -> bool
    ensures { (o : code_options.Options) (sps : code_sps.Sps) (pps : code_pps.Pps)
        (set : RefPicSet) → result
        ≡ begins_picture (current_of set current.now) (slice_of o slice.now sps pps) }
{
    matches!(current, Current::NoPicture) || slice.header().first_slice_segment_in_pic_flag
}

/// Whether two formats are the same.
fn is_same(one: &NegotiationInfo, other: &NegotiationInfo) -> bool
    ensures { result ≡ same_format (format_of one.now) (format_of other.now) }
{
    *one == *other
}

/// Refuses a format that differs from that of the current picture, which is the accepted one.
fn check_format(accepted: &NegotiationInfo, named: &NegotiationInfo) -> Result<(), DecodeError>
    ensures { ChecksFormat result
        (changed_by (format_of named.now) (Some (format_of accepted.now))) }
{
    if is_same(accepted, named) {
        Ok(())
    } else {
        Err(DecodeError::ChangedMidPicture {
            accepted: *accepted,
            named: *named,
        })
    }
}

impl<B: StatelessH265DecoderBackend> Driver<B> {
    /// Takes a slice segment with the sets that it makes active; it is completed where it is a
    /// dependent one (7.4.7.1). Where it opens a negotiation the answer is `CheckEvents`, and the
    /// unit is to be given once more when its format is accepted. `timestamp` is in the caller's
    /// unit, and is handed to the backend with a picture that begins. The segment is left
    /// completed.
    ///
    /// Errors: `NoIndependentSlice`, nothing was done, and the segment is as it was;
    /// `ChangedMidPicture`, the picture is given up; `DpbFull`, the picture before isn't stored
    /// (C.5.2.3); `NotEnoughOutputBuffers`, of 1 frame, `PictureNumbersSpent` and `PocOutOfRange`,
    /// the picture before is over and none begins; `Backend` and `NoMemory`, the picture of the
    /// call that the backend refused is given up.
    pub fn take_slice(
        &mut self,
        timestamp: u64,
        options: Options,
        slice: &mut Slice<'_>,
        sps: &Sps,
        pps: &Pps,
    ) -> Result<(), DecodeError>
        requires named { AreNamed slice.old sps.now pps.now }
        requires sound { IsSoundIn B.log B.handed self.old }
        requires room { HasRoom 1 self.old.standing }
        ensures stays { StaysSound 1 (B.log self.new.backend) (B.handed self.new.backend)
            (with_header self.new.standing.kept self.old.standing) self.new.standing }
        ensures fair { IsFairIn B.counts B.is_faultless B.info self.old self.new result }
        ensures kept { latest_of self.new.standing.kept
            ≡ latest_behind (latest_of self.old.standing.kept)
            (plain_slice_header slice.old.header) }
        ensures part { Takes result
            (given_at timestamp (slice_of options slice.old sps.now pps.now)
            (whole_segment (latest_of self.old.standing.kept) slice.old sps.now pps.now)
            (standing self.old.standing))
            (traces_in B.log B.handed B.frames self.old)
            (traces_in B.log B.handed B.frames self.new)
            (CodedSlice (slice_of options slice.old sps.now pps.now))
            (standing self.old.standing) (standing self.new.standing) }
        ensures slice { LeavesSlice
            (whole_slice (option_map kept_of self.old.standing.kept)
            (slice_of options slice.old sps.now pps.now))
            (slice_of options slice.old sps.now pps.now)
            (slice_of options slice.new sps.now pps.now) }
    {
        if !complete_header(&self.standing.kept, slice, sps) {
            return Err(DecodeError::NoIndependentSlice);
        }
        keep_header(self.alloc, &mut self.standing.kept, slice);
        if begins(&self.standing.current, slice) {
            self.change_picture(timestamp, options, slice, sps, pps)
        } else {
            self.follow(slice, sps, pps)
        }
    }

    /// The current picture is over, and the next one begins.
    fn change_picture(
        &mut self,
        timestamp: u64,
        options: Options,
        slice: &Slice<'_>,
        sps: &Sps,
        pps: &Pps,
    ) -> Result<(), DecodeError>
        requires named { AreNamed slice.now sps.now pps.now }
        requires sound { IsSoundIn B.log B.handed self.old }
        requires room { HasRoom 1 self.old.standing }
        ensures stays { StaysSoundIn 1 B.log B.handed self.old self.new }
        ensures fair { IsFairIn B.counts B.is_faultless B.info self.old self.new result }
        ensures part { Changes result
            (given_first timestamp (slice_of options slice.now sps.now pps.now)
            (segment_of slice.now sps.now pps.now)
            (finish_current (standing self.old.standing)).next)
            (traces_in B.log B.handed B.frames self.old)
            (traces_in B.log B.handed B.frames self.new)
            (slice_of options slice.now sps.now pps.now)
            (standing self.old.standing) (standing self.new.standing) }
    {
        self.finish()?;
        self.begin(timestamp, options, slice, sps, pps)
    }

    /// A later slice of the current picture.
    fn follow(&mut self, slice: &Slice<'_>, sps: &Sps, pps: &Pps) -> Result<(), DecodeError>
        requires named { AreNamed slice.now sps.now pps.now }
        requires sound { IsSoundIn B.log B.handed self.old }
        ensures stays { StaysSoundIn 0 B.log B.handed self.old self.new }
        ensures fair { IsFairIn B.counts B.is_faultless B.info self.old self.new result }
        ensures part { (given : Given) (o : code_options.Options)
            → given.segment ≡ Some (segment_of slice.now sps.now pps.now)
            → given.dpb ≡ plain_dpb self.old.standing.dpb
            → Follows result given
            (traces_in B.log B.handed B.frames self.old)
            (traces_in B.log B.handed B.frames self.new)
            (slice_of o slice.now sps.now pps.now)
            (standing self.old.standing) (standing self.new.standing) }
    {
        let result = self.hand_slice(slice, sps, pps);
        if result.is_err() {
            self.standing.current = Current::NoPicture;
        }
        result
    }

    /// A later slice is handed over, where a picture is open. Where that is refused the picture is
    /// to be given up.
    fn hand_slice(&mut self, slice: &Slice<'_>, sps: &Sps, pps: &Pps) -> Result<(), DecodeError>
        requires named { AreNamed slice.now sps.now pps.now }
        requires sound { IsSoundIn B.log B.handed self.old }
        ensures stays { StaysSoundIn 0 B.log B.handed self.old self.new }
        ensures fair { IsFairIn B.counts B.is_faultless B.info self.old self.new result }
        ensures part { (given : Given) (o : code_options.Options)
            → given.segment ≡ Some (segment_of slice.now sps.now pps.now)
            → given.dpb ≡ plain_dpb self.old.standing.dpb
            → Follows result given
            (traces_in B.log B.handed B.frames self.old)
            (traces_in B.log B.handed B.frames self.new)
            (slice_of o slice.now sps.now pps.now)
            (standing self.old.standing) (given_up_by result (standing self.new.standing)) }
    {
        let opened = match &mut self.standing.current {
            Current::OpenPicture(opened) => opened,
            Current::SkippedPicture => return Ok(()),
            Current::NoPicture => return Ok(()),
        };
        check_format(&opened.head.format, &sps.into())?;
        build_lists(&mut self.lists, slice, pps, &self.standing.set);
        self.backend.decode_slice(
            opened.head.number,
            &mut opened.picture,
            slice,
            sps,
            pps,
            &self.standing.dpb,
            &self.lists.ref_pic_list0,
            &self.lists.ref_pic_list1,
        )?;
        Ok(())
    }
}
