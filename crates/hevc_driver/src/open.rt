//! A picture of the accepted format begins.
ghost use Rattle.std.specs.Prelude.{◌≡◌, ◌<◌, ◌-◌, true};
ghost use Rattle.hevc_walk.specs.Walk.{is_decoded};
ghost use Rattle.hevc_refs.specs.Sets.{plain_set};
ghost use Rattle.hevc_driver.specs.Heads.{head_of};
ghost use Rattle.hevc_driver.specs.Slices.{slice_of};
ghost use Rattle.hevc_backend.specs.Handed.{dpb_of, plain_dpb, plain_picture, segment_of};
ghost use Rattle.hevc_driver.specs.Given.{given_first, given_slice};
ghost use Rattle.hevc_driver.specs.Answers.{IsFairIn};
ghost use Rattle.hevc_driver.specs.Does.{Runs};
ghost use Rattle.hevc_driver.specs.Moments.{enters, starts, hands_over, given_up};
ghost use Rattle.hevc_driver.specs.Standings.{standing, traces_in};
ghost use Rattle.hevc_driver.specs.Sound.{IsNewest, HasRoom, IsNextHead, MayBeginIn, StaysSoundIn};
ghost use Rattle.hevc_options.specs.declared.Options as code_options;
ghost use Rattle.hevc_driver.specs.Takes.{Starts, LeftStarted};

use crate::beginning::{behind, head_of_first};
use crate::current::{Current, Open};
use crate::decode_error::DecodeError;
use crate::driver::Driver;
use crate::head::Head;
use crate::references::build_lists;
use hevc_backend::StatelessH265DecoderBackend;
use hevc_options::Options;
use hevc_picture_slice::{Pps, Slice};
use hevc_sequence_set::Sps;

impl<B: StatelessH265DecoderBackend> Driver<B> {
    /// A picture of the accepted format begins, or its slices are passed over.
    pub(crate) fn start(
        &mut self,
        timestamp: u64,
        options: Options,
        slice: &Slice<'_>,
        sps: &Sps,
        pps: &Pps,
    ) -> Result<(), DecodeError>
        requires ready { MayBeginIn B.frames B.log B.handed self.old slice.now sps.now
            pps.now }
        requires room { HasRoom 0 self.old.standing }
        ensures stays { StaysSoundIn 0 B.log B.handed self.old self.new }
        ensures fair { IsFairIn B.counts B.is_faultless B.info self.old self.new result }
        ensures part { Starts result
            (given_first timestamp (slice_of options slice.now sps.now pps.now)
            (segment_of slice.now sps.now pps.now) (standing self.old.standing))
            (traces_in B.log B.handed B.frames self.old)
            (traces_in B.log B.handed B.frames self.new)
            (slice_of options slice.now sps.now pps.now)
            (standing self.old.standing) (standing self.new.standing) }
    {
        if self.standing.next.number == u64::MAX {
            return Err(DecodeError::PictureNumbersSpent);
        }
        let head = head_of_first(&self.standing.next, options, slice, sps)?;
        if head.skipped {
            self.standing.next = behind(&self.standing.next, &head);
            self.standing.current = Current::SkippedPicture;
            return Ok(());
        }
        self.open(timestamp, &head, slice, sps, pps)
    }

    /// A picture is decoded from here on.
    fn open(
        &mut self,
        timestamp: u64,
        head: &Head,
        slice: &Slice<'_>,
        sps: &Sps,
        pps: &Pps,
    ) -> Result<(), DecodeError>
        requires ready { MayBeginIn B.frames B.log B.handed self.old slice.now sps.now
            pps.now }
        requires next { IsNextHead head.now sps.now self.old.standing }
        requires room { HasRoom 0 self.old.standing }
        ensures stays { StaysSoundIn 0 B.log B.handed self.old self.new }
        ensures fair { IsFairIn B.counts B.is_faultless B.info self.old self.new result }
        ensures part { (o : code_options.Options) → Runs result
            (given_slice timestamp (plain_picture head.now.picture)
            (dpb_of (enters (head_of head.now) (slice_of o slice.now sps.now pps.now)
            (standing self.old.standing)).next.store)
            (segment_of slice.now sps.now pps.now))
            (traces_in B.log B.handed B.frames self.old)
            (traces_in B.log B.handed B.frames self.new)
            (starts (head_of head.now) (slice_of o slice.now sps.now pps.now)
            (standing self.old.standing))
            (λ call. LeftStarted call × (standing self.new.standing
            ≡ given_up (starts (head_of head.now) (slice_of o slice.now sps.now pps.now)
            (standing self.old.standing)).next))
            (standing self.new.standing) }
    {
        self.standing.enter(head, slice, sps);
        self.hand_over(timestamp, head, slice, sps, pps)
    }

    /// The backend gets a picture with its first slice.
    fn hand_over(
        &mut self,
        timestamp: u64,
        head: &Head,
        slice: &Slice<'_>,
        sps: &Sps,
        pps: &Pps,
    ) -> Result<(), DecodeError>
        requires ready { MayBeginIn B.frames B.log B.handed self.old slice.now sps.now
            pps.now }
        requires newest { IsNewest head.now self.old.standing }
        requires decoded { is_decoded (head_of head.now) ≡ true }
        ensures stays { StaysSoundIn 0 B.log B.handed self.old self.new }
        ensures fair { IsFairIn B.counts B.is_faultless B.info self.old self.new result }
        ensures part { (o : code_options.Options) → Runs result
            (given_slice timestamp (plain_picture head.now.picture)
            (plain_dpb self.old.standing.dpb) (segment_of slice.now sps.now pps.now))
            (traces_in B.log B.handed B.frames self.old)
            (traces_in B.log B.handed B.frames self.new)
            (hands_over (head_of head.now) (plain_set self.old.standing.set)
            (slice_of o slice.now sps.now pps.now) (standing self.old.standing))
            (λ call. LeftStarted call × (standing self.new.standing ≡ standing self.old.standing))
            (standing self.new.standing) }
    {
        let number = head.number;
        let mut picture = self.backend.new_picture(number, &head.picture, timestamp)?;
        let dpb = &self.standing.dpb;
        self.backend.begin_picture(
            number,
            &mut picture,
            &head.picture,
            sps,
            pps,
            dpb,
            &self.standing.set,
            slice,
        )?;
        build_lists(&mut self.lists, slice, pps, &self.standing.set);
        self.backend.decode_slice(
            number,
            &mut picture,
            slice,
            sps,
            pps,
            dpb,
            &self.lists.ref_pic_list0,
            &self.lists.ref_pic_list1,
        )?;
        self.standing.current = Current::OpenPicture(Open {
            head: *head,
            picture,
        });
        Ok(())
    }
}
