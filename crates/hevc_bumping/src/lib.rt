//! Output of pictures: bumping goes on as long as a rule asks for it, and what is output goes into
//! a queue (C.5.2.2, C.5.2.3).
#![tactic(auto)]

mod frame;
mod rule;

ghost use Rattle.std.specs.Prelude.{◌≤◌, ◌+◌, ◌<◌, Bool};
ghost use Rattle.std.specs.VecDeque.{deque_len, deque_capacity};
ghost use Rattle.hevc_walk.specs.Buffer.{bumping, draining, needs_additional_bumping};
ghost use Rattle.hevc_walk.specs.Buffer.{needs_bumping};
ghost use Rattle.hevc_pictures.specs.Limits.{limits_of};
ghost use Rattle.hevc_dpb.specs.Plain.{HaveLatency};
ghost use Rattle.hevc_dpb.specs.Views.{stored_entries, buffer_of};
ghost use Rattle.hevc_bumping.specs.Bumps.{Bumps, num_waiting};
ghost use Rattle.hevc_bumping.specs.Rules.{holds};

use crate::rule::Rule;
pub use frame::Frame;
use hevc_dpb::Dpb;
pub use hevc_dpb::Limits;
use std::collections::VecDeque;

/// Additional bumping, once a picture is stored (C.5.2.3): what is due is appended to the queue.
pub fn bump_additionally<H: Copy>(dpb: &mut Dpb<H>, limits: &Limits, queue: &mut VecDeque<Frame<H>>)
    requires latency { HaveLatency (stored_entries dpb.old) }
    requires room { deque_len queue.old + num_waiting (buffer_of dpb.old)
        ≤ deque_capacity queue.old }
    ensures { Bumps (bumping (needs_additional_bumping (limits_of limits.now))
        (buffer_of dpb.old)) dpb.old dpb.new queue.old queue.new }
{
    bump_while(Rule::Additional(*limits), dpb, queue);
}

/// Bumping before a picture is decoded (C.5.2.2): what is due is appended to the queue.
pub fn bump_for_room<H: Copy>(dpb: &mut Dpb<H>, limits: &Limits, queue: &mut VecDeque<Frame<H>>)
    requires latency { HaveLatency (stored_entries dpb.old) }
    requires room { deque_len queue.old + num_waiting (buffer_of dpb.old)
        ≤ deque_capacity queue.old }
    ensures { Bumps (bumping (needs_bumping (limits_of limits.now))
        (buffer_of dpb.old)) dpb.old dpb.new queue.old queue.new }
{
    bump_while(Rule::ForRoom(*limits), dpb, queue);
}

/// All pictures that are needed for output are appended to the queue, in output order, and the
/// buffer is emptied (C.5.2.2).
pub fn output_all<H: Copy>(dpb: &mut Dpb<H>, queue: &mut VecDeque<Frame<H>>)
    requires latency { HaveLatency (stored_entries dpb.old) }
    requires room { deque_len queue.old + num_waiting (buffer_of dpb.old)
        ≤ deque_capacity queue.old }
    ensures { Bumps (draining (buffer_of dpb.old)) dpb.old dpb.new queue.old queue.new }
{
    bump_while(Rule::Always, dpb, queue);
    dpb.clear();
}

/// One picture after another is output while a rule holds.
fn bump_while<H: Copy>(rule: Rule, dpb: &mut Dpb<H>, queue: &mut VecDeque<Frame<H>>)
    requires latency { HaveLatency (stored_entries dpb.old) }
    requires room { deque_len queue.old + num_waiting (buffer_of dpb.old)
        ≤ deque_capacity queue.old }
    ensures { Bumps (bumping (holds rule) (buffer_of dpb.old)) dpb.old dpb.new
        queue.old queue.new }
{
    while rule.holds(dpb) {
        match dpb.bump(false) {
            Some(entry) => queue.push_back_reserved(Frame::of(&entry)),
            None => return,
        }
    }
}
