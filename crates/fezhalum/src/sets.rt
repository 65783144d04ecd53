//! Parameter sets that are kept, for who only analyses a stream.
ghost use Rattle.std.specs.Prelude.{◌≡◌};
ghost use Rattle.std.specs.Borrow.{full_share, sem};
ghost use Rattle.std.specs.Ptr.{lies_at, room_at};
ghost use prog.Memory.{capped, size};
ghost use denote.Param.{layout};
ghost use Rattle.hevc_stream.specs.Kept.{none_kept};
ghost use Rattle.hevc_parser.specs.contracts.parser.Parser.{the_row};
ghost use Rattle.hevc_parser.specs.Kept.{kept_by};
ghost use Rattle.hevc_pull.specs.Reads.{Reads};
ghost use Rattle.fezhalum.specs.Handles.{Becomes};

use hevc_parser::Parser;
use hevc_pull::{UnitRead, read_unit};
use std::alloc::Global;

/// Parameter sets that are kept, at a pointer.
#[repr(C)]
pub struct FezhalumSets {
    byte: u8,
}

/// How many bytes sets take. They have to lie at a multiple of 16.
#[unsafe(no_mangle)]
pub extern "C" fn fezhalum_sets_size() -> usize
    ensures { result ≡ capped (size (layout the_row)) }
{
    std::mem::size_of::<Parser>()
}

fn no_sets(alloc: Global) -> Parser
    ensures { kept_by result ≡ none_kept }
{
    Parser::new(alloc)
}

/// Makes sets of which none is kept.
#[unsafe(no_mangle)]
pub unsafe extern "C" fn fezhalum_sets_init(sets: *mut FezhalumSets, alloc: Global)
    requires* { sem 𝓛 (room_at the_row sets) }
    ensures* { sem 𝓛 (Becomes the_row sets (λ now. kept_by now ≡ none_kept)) }
{
    std::ptr::write(sets as *mut Parser, no_sets(alloc));
}

fn end_sets_in(_sets: Parser) {}

/// Ends sets, with all that are kept. The room is left.
#[unsafe(no_mangle)]
pub unsafe extern "C" fn fezhalum_sets_end(sets: *mut FezhalumSets)
    ghost x: { the_row.Denot }
    requires* { sem 𝓛 (lies_at the_row full_share sets x) }
    ensures* { sem 𝓛 (room_at the_row sets) }
{
    end_sets_in(std::ptr::read(sets as *mut Parser));
}

fn read_in(sets: &mut Parser, bytes: &[u8], told: &mut UnitRead) -> u32
    ensures { Reads bytes.now sets.old sets.new told.old told.new result }
{
    read_unit(sets, bytes, told)
}

/// Reads the first unit of the bytes: a parameter set, which is kept, or a slice segment header.
/// Answers the status.
#[unsafe(no_mangle)]
pub unsafe extern "C" fn fezhalum_read_unit(
    sets: *mut FezhalumSets,
    bytes: &[u8],
    told: &mut UnitRead,
) -> u32
    ghost x: { the_row.Denot }
    requires* { sem 𝓛 (lies_at the_row full_share sets x) }
    ensures* { sem 𝓛 (Becomes the_row sets (λ now. Reads bytes.now x now told.old told.new result)) }
{
    read_in(&mut *(sets as *mut Parser), bytes, told)
}
