//! A reference picture list (8.3.4) as the report has it.
ghost use Rattle.std.specs.Prelude.{◌≡◌, ◌++◌, map, OnOk};
ghost use Rattle.std.specs.Option.{option_map};
ghost use Rattle.std.specs.List.{flat_map};
ghost use Rattle.hevc_refs.specs.Lists.{plain_place, plain_places};
ghost use Rattle.hevc_report.specs.Grows.{Grows};
ghost use Rattle.hevc_report.specs.Report.{list_text, more_places, place_text};

use super::number::push_number;
use hevc_refs::RefPicListEntry;
use std::alloc::AllocError;

/// Adds the places of a list, joined by commas, or a dash for an empty list.
pub(crate) fn push_list(
    text: &mut Vec<u8>,
    places: &[Option<RefPicListEntry>],
) -> Result<(), AllocError>
    ensures ok { OnOk result (text.new.items ≡ text.old.items
        ++ list_text (plain_places places.now)) }
    ensures grows { Grows text.old.items text.new.items }
{
    match places {
        [] => text.extend_from_slice(b"-"),
        [first, others @ ..] => {
            push_place(text, *first)?;
            push_more(text, others)
        }
    }
}

/// Adds places, each after a comma.
fn push_more(text: &mut Vec<u8>, places: &[Option<RefPicListEntry>]) -> Result<(), AllocError>
    ensures ok { OnOk result (text.new.items ≡ text.old.items
        ++ more_places (plain_places places.now)) }
    ensures grows { Grows text.old.items text.new.items }
{
    for place in places {
        text.extend_from_slice(b",")?;
        push_place(text, *place)?;
    }
    Ok(())
}

/// Adds a place.
fn push_place(text: &mut Vec<u8>, place: Option<RefPicListEntry>) -> Result<(), AllocError>
    ensures ok { OnOk result (text.new.items ≡ text.old.items
        ++ place_text (option_map plain_place place)) }
    ensures grows { Grows text.old.items text.new.items }
{
    match place {
        None => text.extend_from_slice(b"x"),
        Some(RefPicListEntry::CurrentPicture) => text.extend_from_slice(b"c"),
        Some(RefPicListEntry::DpbEntry(number)) => push_number(text, number),
    }
}
