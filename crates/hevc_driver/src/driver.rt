//! The driver, and what ends a stream.
ghost use Rattle.std.specs.Prelude.{◌≡◌, [], None, OnOk, option_map};
ghost use Rattle.hevc_walk_units.specs.Units.{at_first, open_head};
ghost use Rattle.hevc_driver.specs.Given.{Given};
ghost use Rattle.hevc_driver.specs.Answers.{IsFairIn};
ghost use Rattle.hevc_driver.specs.Heads.{head_of};
ghost use Rattle.hevc_driver.specs.Standings.{standing, traces, traces_in};
ghost use Rattle.hevc_driver.specs.Sound.{IsSound, HasRoom, total, IsSoundIn, StaysSoundIn};
ghost use Rattle.hevc_driver.specs.Takes.{Closes};

use crate::current::Current;
use crate::decode_error::DecodeError;
use crate::head::{Context, Head};
use crate::standing::Standing;
use hevc_backend::StatelessH265DecoderBackend;
use hevc_dpb::Dpb;
use hevc_refs::{RefPicSet, ReferencePicLists};
use std::alloc::{AllocError, Global};
use std::collections::VecDeque;

/// The most pictures that one unit outputs: the 16 that may be stored (A.4.2), and the one that is
/// over.
pub const MAX_OUTPUTS_OF_UNIT: usize = 17;

/// A backend, and the standing between two calls of it.
#[derive(Drop)]
pub struct Driver<B: StatelessH265DecoderBackend> {
    pub alloc: Global,
    pub backend: B,
    pub standing: Standing<B::Handle, B::Picture>,
    /// The reference picture lists of the latest slice: their room is used again.
    pub lists: ReferencePicLists,
}

impl<B: StatelessH265DecoderBackend> Driver<B> {
    /// At the beginning of a stream, over a backend that was told nothing yet, or of other streams.
    pub fn new(alloc: Global, backend: B) -> Driver<B>
        ensures backend { result.backend ≡ backend }
        ensures standing { standing result.standing ≡ at_first }
        ensures queue { result.standing.queue.items ≡ [] }
        ensures tickets { (traces None None None result.standing).tickets ≡ [] }
        ensures kept { result.standing.kept ≡ None }
        ensures sound { IsSound (B.log backend) (B.handed backend) result.standing }
    {
        Driver {
            alloc,
            backend,
            standing: Standing {
                accepted: None,
                dpb: Dpb::new(alloc),
                current: Current::NoPicture,
                set: RefPicSet::new(),
                kept: None,
                next: Context {
                    number: 0,
                    first_picture_in_bitstream: true,
                    first_picture_after_eos: true,
                    prev_tid0_count: None,
                    latest_irap_no_rasl: false,
                },
                queue: VecDeque::new(alloc),
            },
            lists: ReferencePicLists::new(),
        }
    }

    /// What is known of the picture whose slices come, where it is decoded.
    pub fn open_picture(&self) -> Option<&Head>
        ensures { option_map (λ h. head_of h.now) result
            ≡ open_head (standing self.now.standing).current }
    {
        match &self.standing.current {
            Current::OpenPicture(opened) => Some(&opened.head),
            Current::SkippedPicture => None,
            Current::NoPicture => None,
        }
    }

    /// Makes room in the queue for the pictures of one unit, and in the buffer for those that may
    /// be stored.
    ///
    /// Errors: no memory; nothing has changed then but how much room there is.
    pub fn reserve(&mut self) -> Result<(), AllocError>
        requires sound { IsSoundIn B.log B.handed self.old }
        ensures sound { IsSoundIn B.log B.handed self.new }
        ensures room { OnOk result (HasRoom 1 self.new.standing) }
        ensures standing { standing self.new.standing ≡ standing self.old.standing }
        ensures traces { traces_in B.log B.handed B.frames self.new
            ≡ traces_in B.log B.handed B.frames self.old }
        ensures total { total self.new.standing ≡ total self.old.standing }
        ensures backend { self.new.backend ≡ self.old.backend }
        ensures kept { self.new.standing.kept ≡ self.old.standing.kept }
    {
        self.standing.queue.reserve(MAX_OUTPUTS_OF_UNIT)?;
        self.standing.dpb.reserve()?;
        Ok(())
    }

    /// The picture whose slices came is over, and all that is needed for output is output
    /// (C.5.2.2).
    ///
    /// Errors: `Backend`, `DpbFull`, `NoMemory`; the picture is given up then, and nothing is
    /// output.
    pub fn close(&mut self) -> Result<(), DecodeError>
        requires sound { IsSoundIn B.log B.handed self.old }
        requires room { HasRoom 1 self.old.standing }
        ensures stays { StaysSoundIn 1 B.log B.handed self.old self.new }
        ensures fair { IsFairIn B.counts B.is_faultless B.info self.old self.new result }
        ensures part { (given : Given) → Closes result given
            (traces_in B.log B.handed B.frames self.old)
            (traces_in B.log B.handed B.frames self.new)
            (standing self.old.standing) (standing self.new.standing) }
    {
        self.finish()?;
        self.standing.output_all();
        Ok(())
    }
}
