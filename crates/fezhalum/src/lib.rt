//! The decoder for C: each call of `hevc_pull` over the decoder that lies at a pointer.
#![tactic(auto)]

mod controls;
mod elements;
mod layout;
mod sets;

ghost use Rattle.std.specs.Prelude.{◌≡◌, length, min, slice_index_or};
ghost use Rattle.std.specs.Borrow.{full_share, sem};
ghost use Rattle.std.specs.Ptr.{lies_at, room_at};
ghost use prog.Memory.{capped, size};
ghost use denote.Param.{layout};
ghost use Rattle.hevc_pull.specs.contracts.decoder.PullDecoder.{the_row};
ghost use Rattle.hevc_pull.specs.Views.{view_in};
ghost use Rattle.hevc_pull.specs.Calls.{Accepts, Decodes, FlushesAll, SeeksNext, TakesNext};
ghost use Rattle.hevc_pull.specs.Units.{FindsUnit};
ghost use Rattle.fezhalum.specs.Handles.{Becomes, Leaves};
ghost use Rattle.fezhalum.specs.Fresh.{IsFresh, IsFreshWith, options_given, status_of_options};
ghost use Rattle.hevc_options.specs.Options.{options_of};

use hevc_driver::Options;
use hevc_events::Event;
use hevc_pull::{
    DecodeCall, PullDecoder, UnitCall, accept_format, decode, flush, next_event, next_unit, seek,
};
use std::alloc::Global;

/// An option isn't known.
const UNKNOWN_OPTION: u32 = 30;

/// A decoder, at a pointer.
#[repr(C)]
pub struct Fezhalum {
    byte: u8,
}

/// How many bytes a decoder takes. They have to lie at a multiple of 16.
#[unsafe(no_mangle)]
pub extern "C" fn fezhalum_size() -> usize
    ensures { result ≡ capped (size (layout the_row)) }
{
    std::mem::size_of::<PullDecoder>()
}

/// The version of the calls and the structs: 65536 times its first number, and its second.
#[unsafe(no_mangle)]
pub extern "C" fn fezhalum_api_version() -> u32
    ensures { result ≡ 65536 }
{
    65536
}

/// A decoder over an empty queue, of the base layer.
fn fresh(alloc: Global) -> PullDecoder
    ensures { IsFresh result }
{
    fresh_with(&[], alloc)
}

/// Makes a decoder at the beginning of a stream, of its base layer (nuh_layer_id 0).
#[unsafe(no_mangle)]
pub unsafe extern "C" fn fezhalum_init(decoder: *mut Fezhalum, alloc: Global)
    requires* { sem 𝓛 (room_at the_row decoder) }
    ensures* { sem 𝓛 (Becomes the_row decoder (λ now. IsFresh now)) }
{
    std::ptr::write(decoder as *mut PullDecoder, fresh(alloc));
}

/// A decoder over an empty queue, with options.
fn fresh_with(options: &[u32], alloc: Global) -> PullDecoder
    ensures { IsFreshWith (options_given options.now) result }
{
    PullDecoder::new(alloc, options_given(options))
}

/// The options that are given, of which those that are not have their default.
fn options_given(options: &[u32]) -> Options
    ensures { options_of result ≡ options_given options.now }
{
    Options {
        handle_cra_as_bla: option_at(options, 0, 0) != 0,
        highest_tid: no_more_than(option_at(options, 1, 6), 6),
        highest_layer: no_more_than(option_at(options, 2, 0), 63),
    }
}

/// The option of this place, or its default.
fn option_at(options: &[u32], place: usize, default: u32) -> u32
    ensures { result ≡ slice_index_or options.now place default }
{
    match options.get(place) {
        Some(option) => *option,
        None => default,
    }
}

/// The number, or the highest one.
fn no_more_than(number: u32, highest: u8) -> u8
    ensures { result ≡ min number highest }
{
    if number < u32::from(highest) {
        number as u8
    } else {
        highest
    }
}

/// Makes a decoder at the beginning of a stream, with options, of which those that are not given
/// have their default: whether CRA pictures are handled as BLA pictures (8.1.3), 0 for no; the
/// temporal id of the highest sub-layer that is wanted (8.1.2), of which 6 and above are all; and
/// the layer id of the highest layer, of which 63 and above are all.
#[unsafe(no_mangle)]
pub unsafe extern "C" fn fezhalum_init_with(decoder: *mut Fezhalum, options: &[u32], alloc: Global)
    requires* { sem 𝓛 (room_at the_row decoder) }
    ensures* { sem 𝓛 (Becomes the_row decoder (λ now. IsFreshWith (options_given options.now) now)) }
{
    std::ptr::write(decoder as *mut PullDecoder, fresh_with(options, alloc));
}

/// Whether all these options are known. The answer is a status: there are three.
#[unsafe(no_mangle)]
pub extern "C" fn fezhalum_check_options(options: &[u32]) -> u32
    ensures { result ≡ status_of_options options.now }
{
    if options.len() <= 3 {
        0
    } else {
        UNKNOWN_OPTION
    }
}

fn end_in(decoder: PullDecoder) -> usize
    ensures { result ≡ length (view_in decoder).backend.waiting }
{
    decoder.end()
}

/// Ends a decoder, with all that waits in it. Answers how many calls weren't taken. The room is
/// left.
#[unsafe(no_mangle)]
pub unsafe extern "C" fn fezhalum_end(decoder: *mut Fezhalum) -> usize
    ghost x: { the_row.Denot }
    requires* { sem 𝓛 (lies_at the_row full_share decoder x) }
    ensures* { sem 𝓛 (Leaves the_row decoder (result ≡ length (view_in x).backend.waiting)) }
{
    end_in(std::ptr::read(decoder as *mut PullDecoder))
}

fn decode_in(decoder: &mut PullDecoder, bytes: &[u8], call: &mut DecodeCall) -> u32
    ensures { Decodes bytes.now decoder.old decoder.new call.old call.new result }
{
    decode(decoder, bytes, call)
}

/// Takes the first unit of the bytes. Answers the status, 0 where it was taken.
#[unsafe(no_mangle)]
pub unsafe extern "C" fn fezhalum_decode(
    decoder: *mut Fezhalum,
    bytes: &[u8],
    call: &mut DecodeCall,
) -> u32
    ghost x: { the_row.Denot }
    requires* { sem 𝓛 (lies_at the_row full_share decoder x) }
    ensures* { sem 𝓛 (Becomes the_row decoder (λ now. Decodes bytes.now x now call.old call.new result)) }
{
    decode_in(&mut *(decoder as *mut PullDecoder), bytes, call)
}

fn next_in(decoder: &mut PullDecoder, event: &mut Event) -> u32
    ensures { TakesNext decoder.old decoder.new event.old event.new result }
{
    next_event(decoder, event)
}

/// The next of what came of the units. Answers 1 where there was one, else 0.
#[unsafe(no_mangle)]
pub unsafe extern "C" fn fezhalum_next(decoder: *mut Fezhalum, event: &mut Event) -> u32
    ghost x: { the_row.Denot }
    requires* { sem 𝓛 (lies_at the_row full_share decoder x) }
    ensures* { sem 𝓛 (Becomes the_row decoder (λ now. TakesNext x now event.old event.new result)) }
{
    next_in(&mut *(decoder as *mut PullDecoder), event)
}

fn flush_in(decoder: &mut PullDecoder) -> u32
    ensures { FlushesAll decoder.old decoder.new result }
{
    flush(decoder)
}

/// The stream ends, or is left: all that waits is output. Answers the status.
#[unsafe(no_mangle)]
pub unsafe extern "C" fn fezhalum_flush(decoder: *mut Fezhalum) -> u32
    ghost x: { the_row.Denot }
    requires* { sem 𝓛 (lies_at the_row full_share decoder x) }
    ensures* { sem 𝓛 (Becomes the_row decoder (λ now. FlushesAll x now result)) }
{
    flush_in(&mut *(decoder as *mut PullDecoder))
}

fn seek_in(decoder: &mut PullDecoder) -> u32
    ensures { SeeksNext decoder.old decoder.new result }
{
    seek(decoder)
}

/// The stream is left: all that waits is output, and decoding goes on at the next IRAP picture with
/// the parameter sets that are kept. Answers the status.
#[unsafe(no_mangle)]
pub unsafe extern "C" fn fezhalum_seek(decoder: *mut Fezhalum) -> u32
    ghost x: { the_row.Denot }
    requires* { sem 𝓛 (lies_at the_row full_share decoder x) }
    ensures* { sem 𝓛 (Becomes the_row decoder (λ now. SeeksNext x now result)) }
{
    seek_in(&mut *(decoder as *mut PullDecoder))
}

fn accept_in(decoder: &mut PullDecoder) -> u32
    ensures { Accepts decoder.old decoder.new result }
{
    accept_format(decoder)
}

/// Accepts the format that is awaited. Answers the status.
#[unsafe(no_mangle)]
pub unsafe extern "C" fn fezhalum_accept_format(decoder: *mut Fezhalum) -> u32
    ghost x: { the_row.Denot }
    requires* { sem 𝓛 (lies_at the_row full_share decoder x) }
    ensures* { sem 𝓛 (Becomes the_row decoder (λ now. Accepts x now result)) }
{
    accept_in(&mut *(decoder as *mut PullDecoder))
}

/// The first unit whose start code is at a place of the bytes or after it. Answers the status, 0
/// where there is one.
#[unsafe(no_mangle)]
pub extern "C" fn fezhalum_next_unit(bytes: &[u8], from: usize, unit: &mut UnitCall) -> u32
    ensures { FindsUnit bytes.now from unit.old unit.new result }
{
    next_unit(bytes, from, unit)
}
