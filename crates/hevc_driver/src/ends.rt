//! Ends of sequences and of bitstreams, and a format that is forgotten.
ghost use Rattle.std.specs.Prelude.{◌≡◌, None};
ghost use Rattle.hevc_walk.specs.Meanings.{EndOfSequence, EndOfBitstream};
ghost use Rattle.hevc_walk_units.specs.Units.{NoPicture};
ghost use Rattle.hevc_driver.specs.Moments.{step_part, forgotten};
ghost use Rattle.hevc_driver.specs.Standings.{standing, traces_in, current_of};
ghost use Rattle.hevc_driver.specs.Sound.{IsSoundIn};

use crate::driver::Driver;
use hevc_backend::StatelessH265DecoderBackend;

impl<B: StatelessH265DecoderBackend> Driver<B> {
    /// The next picture is the first one after an end of sequence (7.4.2.4.4).
    pub fn end_sequence(&mut self)
        requires sound { IsSoundIn B.log B.handed self.old }
        ensures sound { IsSoundIn B.log B.handed self.new }
        ensures standing { standing self.new.standing
            ≡ (step_part EndOfSequence (standing self.old.standing)).next }
        ensures traces { traces_in B.log B.handed B.frames self.new
            ≡ traces_in B.log B.handed B.frames self.old }
        ensures backend { self.new.backend ≡ self.old.backend }
        ensures kept { self.new.standing.kept ≡ self.old.standing.kept }
    {
        self.standing.next.first_picture_after_eos = true;
    }

    /// The next picture is the first one in the bitstream, after an end of the one before
    /// (7.4.2.4.4).
    pub fn end_bitstream(&mut self)
        requires sound { IsSoundIn B.log B.handed self.old }
        ensures sound { IsSoundIn B.log B.handed self.new }
        ensures standing { standing self.new.standing
            ≡ (step_part EndOfBitstream (standing self.old.standing)).next }
        ensures traces { traces_in B.log B.handed B.frames self.new
            ≡ traces_in B.log B.handed B.frames self.old }
        ensures backend { self.new.backend ≡ self.old.backend }
        ensures kept { self.new.standing.kept ≡ self.old.standing.kept }
    {
        self.standing.next.first_picture_in_bitstream = true;
    }

    /// No format is accepted any more: the next picture negotiates one.
    pub fn forget_format(&mut self)
        requires none { current_of self.old.standing.set self.old.standing.current ≡ NoPicture }
        requires sound { IsSoundIn B.log B.handed self.old }
        ensures sound { IsSoundIn B.log B.handed self.new }
        ensures standing { standing self.new.standing ≡ forgotten (standing self.old.standing) }
        ensures traces { traces_in B.log B.handed B.frames self.new
            ≡ traces_in B.log B.handed B.frames self.old }
        ensures backend { self.new.backend ≡ self.old.backend }
        ensures kept { self.new.standing.kept ≡ self.old.standing.kept }
    {
        self.standing.accepted = None;
        self.standing.dpb.set_max_num_pics(0);
    }
}
