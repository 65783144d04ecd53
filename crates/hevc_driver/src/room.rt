//! Pictures leave the buffer before one is decoded (8.3.2, C.5.2.2).
ghost use Rattle.std.specs.Prelude.{◌≡◌, ℕ, ◌<◌, ◌+◌, ◌-◌, ◌^◌, List, Option};
ghost use Rattle.hevc_picture_slice.specs.declared.pps.Pps.{Pps};
ghost use Rattle.hevc_walk.specs.ReferenceSets.{reference_set};
ghost use Rattle.hevc_walk.specs.Buffer.{draining};
ghost use Rattle.hevc_walk.specs.Walk.{make_room, output_by};
ghost use Rattle.hevc_walk_units.specs.Units.{on_store};
ghost use Rattle.hevc_dpb.specs.Entries.{numbers};
ghost use Rattle.hevc_dpb.specs.Plain.{HaveLatency};
ghost use Rattle.hevc_dpb.specs.Views.{stored_entries, buffer_of};
ghost use Rattle.hevc_refs.specs.Sets.{plain_set};
ghost use Rattle.hevc_backend.specs.declared.call.Call.{Call};
ghost use Rattle.hevc_backend.specs.Handed.{Handed};
ghost use Rattle.hevc_backend.specs.Named.{SetNamesAmong};

use crate::beginning::behind;
use crate::head::Head;
use crate::references::reference_set;
use crate::standing::Standing;
use hevc_bumping::{bump_for_room, output_all};
use hevc_picture_slice::Slice;
use hevc_sequence_set::Sps;

impl<H: Copy, P> Standing<H, P> {
    ghost use Rattle.hevc_options.specs.declared.Options.{Options};
    ghost use Rattle.hevc_driver.specs.Heads.{head_of};
    ghost use Rattle.hevc_driver.specs.Slices.{slice_of};
    ghost use Rattle.hevc_driver.specs.Does.{Completes};
    ghost use Rattle.hevc_driver.specs.Given.{Given};
    ghost use Rattle.hevc_driver.specs.Moments.{enters};
    ghost use Rattle.hevc_walk_units.specs.Units.{NoPicture};
    ghost use Rattle.hevc_driver.specs.Standings.{standing, traces, current_of};
    ghost use Rattle.hevc_driver.specs.Sound.{HasRoom, Leaves};

    /// All that is needed for output is output, and nothing is left.
    pub(crate) fn output_all(&mut self)
        requires latency { HaveLatency (stored_entries self.old.dpb) }
        requires room { HasRoom 0 self.old }
        ensures part { (log : Option (List (Call H)))
            (handed : Option (List Handed)) (asked : Option ℕ) (given : Given)
            → Completes given (traces log handed asked self.old)
            (traces log handed asked self.new)
            (on_store (output_by draining) (standing self.old)) (standing self.new) }
        ensures leaves { Leaves self.old self.new }
        ensures next { self.new.next ≡ self.old.next }
    {
        output_all(&mut self.dpb, &mut self.queue);
    }

    /// Pictures leave before a picture is decoded (C.5.2.2).
    fn make_room(&mut self, head: &Head)
        requires latency { HaveLatency (stored_entries self.old.dpb) }
        requires room { HasRoom 0 self.old }
        ensures part { (log : Option (List (Call H)))
            (handed : Option (List Handed)) (asked : Option ℕ) (given : Given)
            → Completes given (traces log handed asked self.old)
            (traces log handed asked self.new)
            (on_store (make_room (head_of head.now)) (standing self.old)) (standing self.new) }
        ensures leaves { Leaves self.old self.new }
        ensures next { self.new.next ≡ self.old.next }
        ensures set { self.new.set ≡ self.old.set }
    {
        if head.picture.no_output_of_prior_pics_flag {
            self.dpb.clear();
        } else if head.picture.starts_sequence() {
            output_all(&mut self.dpb, &mut self.queue);
        } else {
            self.dpb.remove_unused();
            bump_for_room(&mut self.dpb, &head.limits, &mut self.queue);
        }
    }

    /// Entries are marked for a picture (8.3.2), and leave; its reference picture set names some of
    /// those that are left.
    pub(crate) fn enter(&mut self, head: &Head, slice: &Slice<'_>, sps: &Sps)
        requires none { current_of self.old.set self.old.current ≡ NoPicture }
        requires number { head.now.number < 2 ^ 64 - 1 }
        requires latency { HaveLatency (stored_entries self.old.dpb) }
        requires room { HasRoom 0 self.old }
        ensures set { (o : Options) (pps : Pps) → plain_set self.new.set
            ≡ reference_set (head_of head.now) (slice_of o slice.now sps.now pps)
            (buffer_of self.old.dpb) }
        ensures part { (log : Option (List (Call H)))
            (handed : Option (List Handed)) (asked : Option ℕ) (given : Given) (o : Options) (pps : Pps)
            → Completes given (traces log handed asked self.old)
            (traces log handed asked self.new)
            (enters (head_of head.now) (slice_of o slice.now sps.now pps) (standing self.old))
            (standing self.new) }
        ensures references { SetNamesAmong (numbers (stored_entries self.new.dpb)) self.new.set }
        ensures leaves { Leaves self.old self.new }
        ensures number { self.new.next.number ≡ head.now.number + 1 }
    {
        self.next = behind(&self.next, head);
        reference_set(&mut self.dpb, head, slice, sps, &mut self.set);
        self.make_room(head);
    }
}
