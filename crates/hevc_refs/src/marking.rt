//! The marks that a reference picture set leaves (8.3.2).
ghost use Rattle.std.specs.Prelude.{◌≡◌, ◌||◌, ◌++◌, ◌∷◌, [], map};
ghost use Rattle.hevc_walk.specs.ReferenceSets.{names, all_members, long_term_if, marked_if};
ghost use Rattle.hevc_walk.specs.Buffer as walk;
ghost use Rattle.hevc_pictures.specs.Marks.{mark_of};
ghost use Rattle.hevc_dpb.specs.Plain.{plain_entry};
ghost use Rattle.hevc_dpb.specs.Views.{buffer_of};
ghost use Rattle.hevc_refs.specs.Sets.{plain_set};
ghost use Rattle.hevc_refs.specs.Marking.{KeepsAllButMarks};

use crate::ref_pic_set::RefPicSet;
use hevc_dpb::{Dpb, DpbEntry, Reference};

/// Whether a member names the picture of this number.
fn names(members: &[Option<u64>], number: u64) -> bool
    ensures { result ≡ names number members.now }
{
    for member in members {
        if is_number(*member, number) {
            return true;
        }
    }
    false
}

/// Whether a member is the picture of this number.
fn is_number(member: Option<u64>, number: u64) -> bool
    ensures { result ≡ names number (member ∷ []) }
{
    match member {
        None => false,
        Some(other) => other == number,
    }
}

/// Whether a member of one of two lists names the picture of this number.
#[tactic(auto, using(hevc_walk_marks::proofs::Names::names_append))]
fn either_names(first: &[Option<u64>], second: &[Option<u64>], number: u64) -> bool
    ensures { result ≡ names number (first.now ++ second.now) }
{
    names(first, number) || names(second, number)
}

/// Whether one of the five lists names the picture of this number.
fn set_names(set: &RefPicSet, number: u64) -> bool
    ensures { result ≡ names number (all_members (plain_set set.now)) }
{
    any_of(
        either_names(set.st_curr_before(), set.st_curr_after(), number),
        names(set.st_foll(), number),
        either_names(set.lt_curr(), set.lt_foll(), number),
    )
}

/// Whether one of three facts holds.
fn any_of(first: bool, second: bool, third: bool) -> bool
    ensures { result ≡ (first || second || third) }
{
    first || second || third
}

/// The mark of an entry once long-term members are found: long-term where one of them names it.
fn long_term_mark<T: Copy>(
    entry: &DpbEntry<T>,
    curr: &[Option<u64>],
    foll: &[Option<u64>],
) -> Reference
    ensures { record (plain_entry entry.now) { mark = mark_of result }
        ≡ long_term_if (curr.now ++ foll.now) (plain_entry entry.now) }
{
    if either_names(curr, foll, entry.number) {
        Reference::LongTerm
    } else {
        *entry.picture.reference()
    }
}

/// The mark of an entry after a picture's set: none where no list names it.
fn kept_mark<T: Copy>(entry: &DpbEntry<T>, set: &RefPicSet) -> Reference
    ensures { record (plain_entry entry.now) { mark = mark_of result }
        ≡ marked_if (all_members (plain_set set.now)) (plain_entry entry.now) }
{
    if set_names(set, entry.number) {
        *entry.picture.reference()
    } else {
        Reference::None
    }
}

/// Long-term members are marked.
pub(crate) fn mark_long_term<T: Copy>(dpb: &mut Dpb<T>, curr: &[Option<u64>], foll: &[Option<u64>])
    ensures buffer { buffer_of dpb.new
        ≡ map (long_term_if (curr.now ++ foll.now)) (buffer_of dpb.old) }
    ensures kept { KeepsAllButMarks dpb.old dpb.new }
{
    for position in 0..dpb.len() {
        let mark = long_term_mark(&dpb.entries()[position], curr, foll);
        dpb.set_reference_at(position, mark);
    }
}

/// What no list names is marked as unused for reference.
pub(crate) fn unmark_others<T: Copy>(dpb: &mut Dpb<T>, set: &RefPicSet)
    ensures buffer { buffer_of dpb.new
        ≡ map (marked_if (all_members (plain_set set.now))) (buffer_of dpb.old) }
    ensures kept { KeepsAllButMarks dpb.old dpb.new }
{
    for position in 0..dpb.len() {
        let mark = kept_mark(&dpb.entries()[position], set);
        dpb.set_reference_at(position, mark);
    }
}
