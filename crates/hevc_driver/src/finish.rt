//! A picture is over: it is submitted and stored (C.5.2.3).
ghost use Rattle.std.specs.Prelude.{◌≡◌};
ghost use Rattle.hevc_walk_units.specs.Units.{NoPicture};
ghost use Rattle.hevc_backend.specs.Handed.{IsAmong};
ghost use Rattle.hevc_driver.specs.Given.{Given};
ghost use Rattle.hevc_driver.specs.Answers.{IsFairIn};
ghost use Rattle.hevc_driver.specs.Standings.{standing, traces_in, current_of, with_open};
ghost use Rattle.hevc_driver.specs.Sound.{IsNewest, HasRoom, IsSoundIn, StaysSoundIn};
ghost use Rattle.hevc_driver.specs.Takes.{Finishes};

use crate::beginning::tid0_behind;
use crate::current::{Current, Open};
use crate::decode_error::DecodeError;
use crate::driver::Driver;
use hevc_backend::StatelessH265DecoderBackend;
use hevc_bumping::bump_additionally;
use std::mem::replace;

impl<B: StatelessH265DecoderBackend> Driver<B> {
    /// The picture whose slices came is over, or the one whose slices were passed over.
    pub(crate) fn finish(&mut self) -> Result<(), DecodeError>
        requires sound { IsSoundIn B.log B.handed self.old }
        requires room { HasRoom 1 self.old.standing }
        ensures stays { StaysSoundIn 1 B.log B.handed self.old self.new }
        ensures fair { IsFairIn B.counts B.is_faultless B.info self.old self.new result }
        ensures part { (given : Given) → Finishes result given
            (traces_in B.log B.handed B.frames self.old)
            (traces_in B.log B.handed B.frames self.new)
            (standing self.old.standing) (standing self.new.standing) }
    {
        match replace(&mut self.standing.current, Current::NoPicture) {
            Current::OpenPicture(opened) => self.store(opened),
            Current::SkippedPicture => Ok(()),
            Current::NoPicture => Ok(()),
        }
    }

    /// Submits a picture and stores it; what is then due is output.
    fn store(&mut self, opened: Open<B::Picture>) -> Result<(), DecodeError>
        requires none { current_of self.old.standing.set self.old.standing.current ≡ NoPicture }
        requires newest { IsNewest opened.head self.old.standing }
        requires announced { IsAmong (B.handed self.old.backend) opened.head.number
            opened.head.picture }
        requires sound { IsSoundIn B.log B.handed self.old }
        requires room { HasRoom 1 self.old.standing }
        ensures stays { StaysSoundIn 1 B.log B.handed self.old self.new }
        ensures fair { IsFairIn B.counts B.is_faultless B.info self.old self.new result }
        ensures part { (given : Given) → Finishes result given
            (traces_in B.log B.handed B.frames self.old)
            (traces_in B.log B.handed B.frames self.new)
            (with_open opened self.old.standing.set (standing self.old.standing))
            (standing self.new.standing) }
    {
        let Open { head, picture } = opened;
        let handle = self.backend.submit_picture(head.number, picture)?;
        self.standing.next.prev_tid0_count = tid0_behind(&head, self.standing.next.prev_tid0_count);
        self.standing
            .dpb
            .store_picture(head.number, head.picture, handle)?;
        bump_additionally(
            &mut self.standing.dpb,
            &head.limits,
            &mut self.standing.queue,
        );
        Ok(())
    }
}
