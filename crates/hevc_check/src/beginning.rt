//! What a picture means for the next one (8.1.3, 8.3.1).
ghost use Rattle.std.specs.Prelude.{◌≡◌, ◌<◌, ◌+◌, ◌-◌, ◌^◌, Some};
ghost use Rattle.hevc_walk_units.specs.Units.{tid0_behind};
ghost use Rattle.hevc_driver.specs.Heads.{head_of, context_of};
ghost use Rattle.hevc_check.specs.Places.{context_after};

use hevc_driver::{Context, Head};

/// What the pictures with this one mean for the next.
pub(crate) fn after(next: &Context, head: &Head) -> Context
    requires { head.now.number < 2 ^ 64 - 1 }
    ensures context { context_of result ≡ context_after (head_of head.now) (context_of next.now) }
    ensures number { result.number ≡ head.now.number + 1 }
{
    Context {
        number: head.number + 1,
        first_picture_in_bitstream: false,
        first_picture_after_eos: false,
        prev_tid0_count: tid0_behind(head, next.prev_tid0_count),
        latest_irap_no_rasl: head.latest_irap_no_rasl,
    }
}

/// The order count of prevTid0Pic, with this picture (8.3.1).
fn tid0_behind(head: &Head, earlier: Option<i32>) -> Option<i32>
    ensures { result ≡ tid0_behind (Some (head_of head.now)) earlier }
{
    if !head.skipped && head.picture.valid_for_prev_tid0_pic {
        Some(head.picture.pic_order_cnt_val)
    } else {
        earlier
    }
}
