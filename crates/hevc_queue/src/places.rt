//! Lists of pictures as plain structs.
ghost use Rattle.std.specs.Prelude.{◌≡◌, ◌≤◌, length};
ghost use Rattle.hevc_v4l2.specs.Arrays.{padded};
ghost use Rattle.hevc_queue.specs.Events.{entry_kind, entry_number, member_kind, member_number};
ghost use Rattle.hevc_queue.specs.Events.{places_of_entries, places_of_members};

use arrayvec::ArrayVec;
use hevc_events::Places;
use hevc_refs::RefPicListEntry;

/// A list of a reference picture set.
pub(crate) fn places_of_members(members: &[Option<u64>]) -> Places
    requires { length members.now ≤ 16 }
    ensures { result ≡ places_of_members members.now }
{
    let mut numbers: ArrayVec<u64, 16> = ArrayVec::new();
    let mut kinds: ArrayVec<u8, 16> = ArrayVec::new();
    for member in members {
        numbers.push(member_number(*member));
        kinds.push(member_kind(*member));
    }
    Places {
        numbers: padded_numbers(numbers.as_slice()),
        kinds: padded_kinds(kinds.as_slice()),
        count: members.len() as u32,
    }
}

fn member_number(member: Option<u64>) -> u64
    ensures { result ≡ member_number member }
{
    match member {
        Some(number) => number,
        None => 0,
    }
}

fn member_kind(member: Option<u64>) -> u8
    ensures { result ≡ member_kind member }
{
    match member {
        Some(_) => 0,
        None => 1,
    }
}

/// A reference picture list.
pub(crate) fn places_of_entries(entries: &[Option<RefPicListEntry>]) -> Places
    requires { length entries.now ≤ 16 }
    ensures { result ≡ places_of_entries entries.now }
{
    let mut numbers: ArrayVec<u64, 16> = ArrayVec::new();
    let mut kinds: ArrayVec<u8, 16> = ArrayVec::new();
    for entry in entries {
        numbers.push(entry_number(*entry));
        kinds.push(entry_kind(*entry));
    }
    Places {
        numbers: padded_numbers(numbers.as_slice()),
        kinds: padded_kinds(kinds.as_slice()),
        count: entries.len() as u32,
    }
}

fn entry_number(entry: Option<RefPicListEntry>) -> u64
    ensures { result ≡ entry_number entry }
{
    match entry {
        Some(RefPicListEntry::DpbEntry(number)) => number,
        Some(RefPicListEntry::CurrentPicture) | None => 0,
    }
}

fn entry_kind(entry: Option<RefPicListEntry>) -> u8
    ensures { result ≡ entry_kind entry }
{
    match entry {
        Some(RefPicListEntry::DpbEntry(_)) => 0,
        Some(RefPicListEntry::CurrentPicture) => 2,
        None => 1,
    }
}

/// Numbers in sixteen places.
fn padded_numbers(numbers: &[u64]) -> [u64; 16]
    requires { length numbers.now ≤ 16 }
    ensures { result ≡ padded 0 numbers.now }
{
    let mut places = [0; 16];
    places[..numbers.len()].copy_from_slice(numbers);
    places
}

/// Kinds in sixteen places.
fn padded_kinds(kinds: &[u8]) -> [u8; 16]
    requires { length kinds.now ≤ 16 }
    ensures { result ≡ padded 0 kinds.now }
{
    let mut places = [0; 16];
    places[..kinds.len()].copy_from_slice(kinds);
    places
}
