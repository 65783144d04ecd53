//! A picture begins: first its format is negotiated, where it differs from the accepted one.
ghost use Rattle.std.specs.Prelude.{◌≡◌, Some, option_map};
ghost use Rattle.hevc_sequence_set.specs.Sps.{plain_sps};
ghost use Rattle.hevc_walk_inputs.specs.Sequences.{format_of_set};
ghost use Rattle.hevc_walk.specs.Walk.{is_accepted, open_sequence};
ghost use Rattle.hevc_walk_units.specs.Units.{NoPicture, on_store};
ghost use Rattle.hevc_backend.specs.Handed.{segment_of};
ghost use Rattle.hevc_backend.specs.Negotiation.{format_of};
ghost use Rattle.hevc_driver.specs.Slices.{slice_of};
ghost use Rattle.hevc_driver.specs.Given.{Given, given_first};
ghost use Rattle.hevc_driver.specs.Answers.{IsFair, IsFairIn, awaited};
ghost use Rattle.hevc_driver.specs.Does.{Runs};
ghost use Rattle.hevc_driver.specs.Standings.{standing, traces_in, current_of};
ghost use Rattle.hevc_driver.specs.Sound.{HasRoom, AreNamed, IsSoundIn, StaysSoundIn};
ghost use Rattle.hevc_driver.specs.Takes.{Begins, Negotiates, IsNewSequence};

use crate::decode_error::DecodeError;
use crate::driver::Driver;
use hevc_backend::{NegotiationInfo, StatelessH265DecoderBackend};
use hevc_options::Options;
use hevc_picture_slice::{Pps, Slice};
use hevc_sequence_set::Sps;

/// Whether this is the format that was accepted.
fn is_accepted(named: &NegotiationInfo, accepted: Option<NegotiationInfo>) -> bool
    ensures { result ≡ is_accepted (format_of named.now) (option_map format_of accepted) }
{
    accepted == Some(*named)
}

impl<B: StatelessH265DecoderBackend> Driver<B> {
    /// A picture begins where none is current.
    pub(crate) fn begin(
        &mut self,
        timestamp: u64,
        options: Options,
        slice: &Slice<'_>,
        sps: &Sps,
        pps: &Pps,
    ) -> Result<(), DecodeError>
        requires none { current_of self.old.standing.set self.old.standing.current ≡ NoPicture }
        requires named { AreNamed slice.now sps.now pps.now }
        requires sound { IsSoundIn B.log B.handed self.old }
        requires room { HasRoom 0 self.old.standing }
        ensures stays { StaysSoundIn 0 B.log B.handed self.old self.new }
        ensures fair { IsFairIn B.counts B.is_faultless B.info self.old self.new result }
        ensures part { Begins result
            (given_first timestamp (slice_of options slice.now sps.now pps.now)
            (segment_of slice.now sps.now pps.now) (standing self.old.standing))
            (traces_in B.log B.handed B.frames self.old)
            (traces_in B.log B.handed B.frames self.new)
            (slice_of options slice.now sps.now pps.now)
            (standing self.old.standing) (standing self.new.standing) }
    {
        if self.backend.num_free_frames() == 0 {
            return Err(DecodeError::NotEnoughOutputBuffers(1));
        }
        if is_accepted(&sps.into(), self.standing.accepted) {
            self.start(timestamp, options, slice, sps, pps)
        } else {
            self.negotiate(sps)?;
            Err(DecodeError::CheckEvents)
        }
    }

    /// Another format is negotiated: what is needed for output is output before.
    fn negotiate(&mut self, sps: &Sps) -> Result<(), DecodeError>
        requires none { current_of self.old.standing.set self.old.standing.current ≡ NoPicture }
        requires sound { IsSoundIn B.log B.handed self.old }
        requires room { HasRoom 0 self.old.standing }
        ensures stays { StaysSoundIn 0 B.log B.handed self.old self.new }
        ensures fair { IsFair B.counts B.is_faultless B.info self.old.backend self.new.backend
            (awaited result) }
        ensures part { (given : Given) → given.set ≡ Some (plain_sps sps.now) → Negotiates result given
            (traces_in B.log B.handed B.frames self.old)
            (traces_in B.log B.handed B.frames self.new)
            (format_of_set (plain_sps sps.now)) (standing self.old.standing)
            (standing self.new.standing) }
    {
        self.standing.output_all();
        self.open_sequence(sps)
    }

    /// The backend is told of a format, which is awaited from here on (7.4.3.2.1). No picture is
    /// open.
    ///
    /// Errors: `Backend`, `NoMemory`; nothing has changed then.
    pub fn open_sequence(&mut self, sps: &Sps) -> Result<(), DecodeError>
        requires none { current_of self.old.standing.set self.old.standing.current ≡ NoPicture }
        requires sound { IsSoundIn B.log B.handed self.old }
        ensures stays { StaysSoundIn 0 B.log B.handed self.old self.new }
        ensures fair { IsFair B.counts B.is_faultless B.info self.old.backend self.new.backend
            (awaited result) }
        ensures part { (given : Given) → given.set ≡ Some (plain_sps sps.now) → Runs result given
            (traces_in B.log B.handed B.frames self.old)
            (traces_in B.log B.handed B.frames self.new)
            (on_store (open_sequence (format_of_set (plain_sps sps.now)))
            (standing self.old.standing))
            (λ call. IsNewSequence call × (standing self.new.standing ≡ standing self.old.standing))
            (standing self.new.standing) }
    {
        self.backend.new_sequence(sps)?;
        let format = NegotiationInfo::from(sps);
        self.standing
            .dpb
            .set_max_num_pics(format.max_num_pics as usize);
        self.standing.accepted = Some(format);
        Ok(())
    }
}
