//! How late pictures come after those that are decoded before and output after them.
ghost use Rattle.std.specs.Prelude.{◌≡◌, ◌&&◌, ℤ, int_lt, List, [], ◌∷◌, OnOk, false};
ghost use Rattle.hevc_walk.specs.Pictures.{Picture};
ghost use Rattle.hevc_walk_order.specs.Sequences.{is_for_output};
ghost use Rattle.hevc_check.specs.Filled.{is_below};
ghost use Rattle.hevc_check.specs.Late.{back, late_by, AreHighest};

use crate::filled::higher_of;
use std::alloc::{AllocError, Global};

/// For each decoded picture of a sequence the highest order count, up to it, of those that are to
/// be output.
#[derive(Drop)]
pub(crate) struct HighestCounts {
    counts: Vec<Option<i32>>,
}

impl HighestCounts {
    /// Of no pictures. Takes no memory.
    #[tactic(auto, using(crate::proofs::Lateness::none_kept))]
    pub(crate) fn new(alloc: Global) -> HighestCounts
        ensures { AreHighest [] result }
    {
        HighestCounts {
            counts: Vec::new(alloc),
        }
    }

    /// Of no pictures again.
    #[tactic(auto, using(crate::proofs::Lateness::none_kept))]
    pub(crate) fn clear(&mut self)
        ensures { AreHighest [] self.new }
    {
        self.counts.clear();
    }

    /// The one that this many decoded pictures are after.
    fn before(&self, decoded: usize) -> Option<i32>
        ensures { result ≡ back decoded self.now.counts.items }
    {
        let len = self.counts.len();
        if decoded >= len {
            return None;
        }
        self.counts[len - 1 - decoded]
    }

    /// With one more decoded picture, which has this order count if it is to be output.
    ///
    /// Errors: no memory.
    pub(crate) fn push(&mut self, count: Option<i32>) -> Result<(), AllocError>
        ensures { OnOk result ((p : Picture) (es : List Picture) → p.skipped ≡ false
            → ((c : ℤ) → is_below c count ≡ (is_for_output p && int_lt c p.order_count))
            → AreHighest es self.old → AreHighest (p ∷ es) self.new) }
    {
        let highest = higher_of(count, self.before(0));
        self.counts.push(highest)?;
        Ok(())
    }

    /// Whether an order count is lower than that of a picture which is to be output, and after
    /// which at least so many are decoded.
    pub(crate) fn has_higher(&self, count: i32, decoded: usize) -> bool
        ensures { (es : List Picture) → AreHighest es self.now
            → result ≡ late_by count decoded es }
    {
        match self.before(decoded) {
            Some(highest) => count < highest,
            None => false,
        }
    }
}
