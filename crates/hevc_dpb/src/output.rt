//! An entry is output.
ghost use Rattle.std.specs.Prelude.{◌≡◌, ◌<◌, slice_index_or, slice_set, vec_len, length, ◌≤◌};
ghost use Rattle.std.specs.Prelude.{IfSome, Contains, None, MatchOption, if◌then◌else◌, remove};
ghost use Rattle.std.specs.Vec.{vec_capacity};
ghost use Rattle.hevc_dpb.specs.declared.entry.DpbEntry.{DpbEntry};
ghost use Rattle.std.specs.Option.{option_map};
ghost use Rattle.hevc_dpb.specs.Numbers.{Distinct};
ghost use Rattle.hevc_dpb.specs.Entries.{numbers, ticket, tickets};
ghost use Rattle.hevc_dpb.specs.Output.{stays, as_output, first_in, in_output_order};
ghost use Rattle.hevc_dpb.specs.Output.{output_positions, AreAt, behind_output};
ghost use Rattle.std.specs.List.{slice_get};
ghost use Rattle.arrayvec.specs.ArrayVec.{array_vec_len};
ghost use Rattle.std.specs.Prelude.{◌+◌, ◌++◌, All, List};

use crate::entry::DpbEntry;
use arrayvec::ArrayVec;

impl<T: Copy> DpbEntry<T> {
    /// Its output: it is no longer needed for output.
    fn as_output(&self) -> DpbEntry<T>
        ensures { result ≡ as_output self.now }
    {
        let mut output = *self;
        output.picture.needed_for_output = false;
        output
    }

    /// Whether it stays as it is output.
    fn stays(&self, flush: bool) -> bool
        ensures { result ≡ stays flush self.now }
    {
        self.picture.is_ref() && !flush
    }
}

/// The first entry in order is output.
pub(crate) fn output_first<T: Copy>(
    entries: &mut Vec<DpbEntry<T>>,
    waiting: &ArrayVec<u8, 16>,
    flush: bool,
) -> Option<DpbEntry<T>>
    requires distinct { Distinct (numbers entries.old.items) }
    requires ordered { waiting.now.items ≡ output_positions entries.old.items }
    ensures output { result ≡ option_map as_output (first_in (in_output_order entries.old.items)) }
    ensures left { entries.new.items
        ≡ behind_output flush (first_in (in_output_order entries.old.items)) entries.old.items }
    ensures given { IfSome result (λ e. Contains (tickets entries.old.items) (ticket e)) }
    ensures capacity { vec_capacity entries.new ≡ vec_capacity entries.old }
{
    let place = first_position(entries, waiting)?;
    Some(take_output(entries, place, flush))
}

/// The place of the entry that is output first.
fn first_position<T: Copy>(entries: &Vec<DpbEntry<T>>, waiting: &ArrayVec<u8, 16>) -> Option<usize>
    requires distinct { Distinct (numbers entries.now.items) }
    requires ordered { waiting.now.items ≡ output_positions entries.now.items }
    ensures { MatchOption result (first_in (in_output_order entries.now.items) ≡ None)
        (λ p. (p < length entries.now.items)
        × (slice_get entries.now.items p ≡ first_in (in_output_order entries.now.items))) }
{
    if waiting.is_empty() {
        return None;
    }
    Some(waiting[0] as usize)
}

/// The entry at a place is output, and leaves unless it is referred to; where the buffer is
/// flushed, it leaves in any case.
fn take_output<T: Copy>(entries: &mut Vec<DpbEntry<T>>, place: usize, flush: bool) -> DpbEntry<T>
    requires { place < vec_len entries.old }
    ensures output { (d : DpbEntry T)
        → result ≡ as_output (slice_index_or entries.old.items place d) }
    ensures left { entries.new.items ≡ (if stays flush result
        then slice_set entries.old.items place result else remove entries.old.items place) }
    ensures capacity { vec_capacity entries.new ≡ vec_capacity entries.old }
{
    let output = entries[place].as_output();
    if output.stays(flush) {
        entries[place] = output;
    } else {
        entries.remove(place);
    }
    output
}

/// The entries that are needed for output are appended in order.
pub(crate) fn append_in_order<T: Copy>(
    entries: &Vec<DpbEntry<T>>,
    waiting: &ArrayVec<u8, 16>,
    out: &mut Vec<DpbEntry<T>>,
)
    requires distinct { Distinct (numbers entries.now.items) }
    requires ordered { waiting.now.items ≡ output_positions entries.now.items }
    requires room { vec_len out.old + array_vec_len waiting.now ≤ vec_capacity out.old }
    ensures { out.new.items ≡ out.old.items ++ in_output_order entries.now.items }
{
    append_positions(entries, waiting, out);
}

/// The entries at these places are appended.
fn append_positions<T: Copy>(entries: &Vec<DpbEntry<T>>, places: &[u8], out: &mut Vec<DpbEntry<T>>)
    requires within { All (λ p. p < vec_len entries.now) places.now }
    requires room { vec_len out.old + length places.now ≤ vec_capacity out.old }
    ensures { (fs : List (DpbEntry T)) → AreAt entries.now.items places.now fs
        → out.new.items ≡ out.old.items ++ fs }
{
    for place in places {
        out.push_reserved(entries[*place as usize]);
    }
}
