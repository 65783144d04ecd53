//! One line of the report.
ghost use Rattle.std.specs.Prelude.{◌≡◌, ◌++◌, codes, decimal, OnOk, if◌then◌else◌};
ghost use Rattle.std.specs.Fmt.{signed_decimal};
ghost use Rattle.std.specs.String.{string_bytes};
ghost use Rattle.hevc_bits.specs.NaluType.{nalu_type_number};
ghost use Rattle.hevc_backend.specs.Negotiation.{format_of};
ghost use Rattle.hevc_refs.specs.Lists.{plain_places};
ghost use Rattle.hevc_report.specs.Grows.{Grows};
ghost use Rattle.hevc_report.specs.Lines.{shown_line};
ghost use Rattle.hevc_report.specs.Report.{list_text, sequence_line, picture_line, slice_line, submission_line};

use super::field::{push_field, push_last_field, push_signed_field};
use super::list::push_list;
use hevc_backend::NegotiationInfo;
use hevc_bits::NaluType;
use hevc_decoder::Shown;
use hevc_refs::RefPicListEntry;
use std::alloc::AllocError;

/// Adds the line of a sequence of this format.
pub(crate) fn push_sequence(text: &mut String, info: &NegotiationInfo) -> Result<(), AllocError>
    ensures { OnOk result
        (string_bytes text.new ≡ string_bytes text.old ++ sequence_line (format_of info.now)) }
{
    let width = info.coded_resolution.width;
    let height = info.coded_resolution.height;
    let profile = info.general_profile_idc;
    let luma = u32::from(info.bit_depth_luma_minus8) + 8;
    let chroma = u32::from(info.bit_depth_chroma_minus8) + 8;
    let format = info.chroma_format_idc;
    let buffer = info.max_num_pics;
    writeln!(
        text,
        "seq {width}x{height} profile {profile} depth {luma} {chroma} chroma {format} buffer {buffer}"
    )
}

/// The number of a unit type (Table 7-1).
fn type_number(nalu_type: NaluType) -> u64
    ensures { result ≡ nalu_type_number nalu_type }
{
    u64::from(nalu_type as u8)
}

/// Adds the line of a picture that begins: its number, the type of its first slice, its order count, and
/// whether it is to be output.
#[tactic(auto, using(std::proofs::Common::append_assoc))]
pub(crate) fn push_picture(
    text: &mut Vec<u8>,
    number: u64,
    nalu_type: NaluType,
    order_count: i32,
    is_output: bool,
) -> Result<(), AllocError>
    ensures ok { OnOk result (text.new.items ≡ text.old.items
        ++ picture_line number (nalu_type_number nalu_type) order_count is_output) }
    ensures grows { Grows text.old.items text.new.items }
{
    push_field(text, b"pic ", number)?;
    push_field(text, b" type ", type_number(nalu_type))?;
    push_output(text, order_count, is_output)
}

/// Adds the order count of a picture, and whether it is to be output, and ends its line.
#[tactic(auto, using(std::proofs::Common::append_assoc))]
fn push_output(text: &mut Vec<u8>, order_count: i32, is_output: bool) -> Result<(), AllocError>
    ensures ok { OnOk result (text.new.items ≡ text.old.items
        ++ codes " poc " ++ signed_decimal order_count
        ++ codes " output " ++ decimal (if is_output then 1 else 0) ++ codes "\n") }
    ensures grows { Grows text.old.items text.new.items }
{
    push_signed_field(text, b" poc ", order_count)?;
    push_output_flag(text, is_output)
}

/// Adds whether a picture is to be output, and ends its line.
fn push_output_flag(text: &mut Vec<u8>, is_output: bool) -> Result<(), AllocError>
    ensures ok { OnOk result (text.new.items ≡ text.old.items
        ++ codes " output " ++ decimal (if is_output then 1 else 0) ++ codes "\n") }
    ensures grows { Grows text.old.items text.new.items }
{
    if is_output {
        text.extend_from_slice(b" output 1\n")
    } else {
        text.extend_from_slice(b" output 0\n")
    }
}

/// Adds the line of a slice: its picture's number, its address, how many bytes its unit has, and its
/// reference picture lists.
#[tactic(auto, using(std::proofs::Common::append_assoc))]
pub(crate) fn push_slice(
    text: &mut Vec<u8>,
    number: u64,
    address: u32,
    size: usize,
    list0: &[Option<RefPicListEntry>],
    list1: &[Option<RefPicListEntry>],
) -> Result<(), AllocError>
    ensures ok { OnOk result (text.new.items ≡ text.old.items
        ++ slice_line number address size (plain_places list0.now) (plain_places list1.now)) }
    ensures grows { Grows text.old.items text.new.items }
{
    push_field(text, b"slice ", number)?;
    push_extent(text, address, size as u64)?;
    push_lists(text, list0, list1)
}

/// Adds the address of a slice, which is 0 for a picture's first one, and how many bytes its unit has.
#[tactic(auto, using(std::proofs::Common::append_assoc))]
fn push_extent(text: &mut Vec<u8>, address: u32, size: u64) -> Result<(), AllocError>
    ensures ok { OnOk result (text.new.items ≡ text.old.items
        ++ codes " at " ++ decimal address ++ codes " size " ++ decimal size) }
    ensures grows { Grows text.old.items text.new.items }
{
    if address == 0 {
        return push_field(text, b" at 0 size ", size);
    }
    push_field(text, b" at ", u64::from(address))?;
    push_field(text, b" size ", size)
}

/// Adds the reference picture lists of a slice, and ends its line.
#[tactic(auto, using(std::proofs::Common::append_assoc))]
fn push_lists(
    text: &mut Vec<u8>,
    list0: &[Option<RefPicListEntry>],
    list1: &[Option<RefPicListEntry>],
) -> Result<(), AllocError>
    ensures ok { OnOk result (text.new.items ≡ text.old.items
        ++ codes " list0 " ++ list_text (plain_places list0.now)
        ++ codes " list1 " ++ list_text (plain_places list1.now) ++ codes "\n") }
    ensures grows { Grows text.old.items text.new.items }
{
    if let ([], []) = (list0, list1) {
        return text.extend_from_slice(b" list0 - list1 -\n");
    }
    push_named_list(text, b" list0 ", list0)?;
    push_named_list(text, b" list1 ", list1)?;
    text.extend_from_slice(b"\n")
}

/// Adds a word, and the places of a list after it.
#[inline(always)]
#[tactic(auto, using(std::proofs::Common::append_assoc))]
fn push_named_list(
    text: &mut Vec<u8>,
    name: &[u8],
    places: &[Option<RefPicListEntry>],
) -> Result<(), AllocError>
    ensures ok { OnOk result (text.new.items ≡ text.old.items
        ++ name.now ++ list_text (plain_places places.now)) }
    ensures grows { Grows text.old.items text.new.items }
{
    text.extend_from_slice(name)?;
    push_list(text, places)
}

/// Adds the line of a picture that is whole: its number and its handle.
#[tactic(auto, using(std::proofs::Common::append_assoc))]
pub(crate) fn push_submission(
    text: &mut Vec<u8>,
    number: u64,
    handle: u64,
) -> Result<(), AllocError>
    ensures ok { OnOk result (text.new.items ≡ text.old.items ++ submission_line number handle) }
    ensures grows { Grows text.old.items text.new.items }
{
    push_field(text, b"submit ", number)?;
    push_last_field(text, b" handle ", handle)
}

/// Adds the line of an output.
#[tactic(auto, using(std::proofs::Common::append_assoc))]
pub(crate) fn push_shown(text: &mut Vec<u8>, output: &Shown<u64>) -> Result<(), AllocError>
    ensures ok { OnOk result (text.new.items ≡ text.old.items ++ shown_line output.now) }
    ensures grows { Grows text.old.items text.new.items }
{
    push_field(text, b"show ", output.number)?;
    push_signed_field(text, b" poc ", output.order_count)?;
    push_last_field(text, b" unit ", output.unit)
}
