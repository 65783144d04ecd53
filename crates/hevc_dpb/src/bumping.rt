//! When bumping goes on.
ghost use Rattle.std.specs.Prelude.{◌≡◌, count_by};
ghost use Rattle.std.specs.List.{list_any};
ghost use Rattle.hevc_dpb.specs.Entries.{waits};
ghost use Rattle.hevc_dpb.specs.Bumping.{is_late, is_additional_due, is_bumping_due};

use crate::entry::DpbEntry;
use hevc_pictures::Limits;

impl<T: Copy> DpbEntry<T> {
    /// Whether it is needed for output, and its latency count is at least SpsMaxLatencyPictures
    /// (7-9).
    pub(crate) fn is_late(&self, limits: &Limits) -> bool
        ensures { result ≡ is_late limits.now self.now }
    {
        self.picture.needed_for_output
            && self.picture.pic_latency_cnt
                >= limits.reorder as i32 + limits.latency_plus1 as i32 - 1
    }
}

/// Whether additional bumping goes on, once a picture is stored (C.5.2.3).
pub(crate) fn is_additional_due<T: Copy>(entries: &Vec<DpbEntry<T>>, limits: &Limits) -> bool
    ensures { result ≡ is_additional_due limits.now entries.now.items }
{
    num_waiting(entries) > limits.reorder as usize
        || (limits.latency_plus1 > 0 && any_late(entries, limits))
}

/// Whether bumping goes on before a picture is decoded (C.5.2.2).
pub(crate) fn is_bumping_due<T: Copy>(entries: &Vec<DpbEntry<T>>, limits: &Limits) -> bool
    ensures { result ≡ is_bumping_due limits.now entries.now.items }
{
    is_additional_due(entries, limits) || entries.len() >= limits.buffering as usize + 1
}

/// How many entries are needed for output.
fn num_waiting<T: Copy>(entries: &Vec<DpbEntry<T>>) -> usize
    ensures { result ≡ count_by waits entries.now.items }
{
    entries.iter().filter(|entry| entry.waits()).count()
}

/// Whether an entry is needed for output for too long.
fn any_late<T: Copy>(entries: &Vec<DpbEntry<T>>, limits: &Limits) -> bool
    ensures { result ≡ list_any (is_late limits.now) entries.now.items }
{
    entries.iter().any(|entry| entry.is_late(limits))
}
