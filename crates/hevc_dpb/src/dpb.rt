//! The buffer.
ghost use Rattle.std.specs.Prelude.{◌≤◌, ◌≡◌, length, false, IsTrue};
ghost use Rattle.hevc_dpb.specs.Numbers.{Distinct, Distinct-prop};
ghost use Rattle.hevc_dpb.specs.Entries.{numbers};
ghost use Rattle.hevc_dpb.specs.Output.{output_positions};

use crate::bumping::{is_additional_due, is_bumping_due};
use crate::entry::{DpbEntry, keep_needed, keep_not_waiting, mark_at, store_behind, unmark_all};
use crate::order::output_order;
use crate::output::{append_in_order, output_first};
use arrayvec::ArrayVec;
use hevc_pictures::{Limits, PictureData, Reference};
use std::alloc::{AllocError, Global};
use thiserror::Error;

/// The buffer holds as many pictures as it may.
#[derive(Clone, Copy, Debug, PartialEq, Eq, Drop, Error)]
#[error("the decoded picture buffer is full")]
pub struct DpbFull;

/// Stored pictures, in the order in which they were stored: at most 16, each with a number of its
/// own.
///
/// It also keeps in which order those that are needed for output are output. `picture_mut` lets
/// order counts change, so the order is stale after it until a later call makes it anew.
#[derive(Drop)]
pub struct Dpb<T: Copy> {
    entries: Vec<DpbEntry<T>>,
    max_num_pics: usize,
    /// The positions of the entries that are needed for output, in order, unless they are stale.
    waiting: ArrayVec<u8, 16>,
    stale: bool,
    ghost few: { length entries.items ≤ 16 },
    ghost size: { max_num_pics ≤ 16 },
    ghost distinct: { Distinct (numbers entries.items) } by { Distinct-prop (numbers entries.items) },
    ghost in_order: { stale ≡ false → waiting.items ≡ output_positions entries.items },
}

impl<T: Copy> Dpb<T> {
    ghost use Rattle.std.specs.Prelude.{◌∷◌, ◌++◌, [], ◌↔◌, ◌<◌, ◌+◌, vec_len, map, filter, take};
    ghost use Rattle.std.specs.Prelude.{slice_index_or, slice_set, OnOk, OnErr, IsErr, IsSome};
    ghost use Rattle.std.specs.Prelude.{IfSome, Contains, option_map};
    ghost use Rattle.std.specs.Borrow.{sem};
    ghost use Rattle.std.specs.Vec.{vec_capacity};
    ghost use Rattle.hevc_walk.specs.Pictures.{Head};
    ghost use Rattle.hevc_walk.specs.Buffer as walk;
    ghost use Rattle.hevc_walk.specs.ReferenceSets as walk_sets;
    ghost use Rattle.hevc_walk.specs.Walk.{needed_entries};
    ghost use Rattle.hevc_pictures.specs.Limits.{limits_of};
    ghost use Rattle.hevc_pictures.specs.Marks.{mark_of};
    ghost use Rattle.hevc_dpb.specs.Numbers.{Absent};
    ghost use Rattle.hevc_dpb.specs.Entries.{ticket, tickets, reference_numbers, is_needed};
    ghost use Rattle.hevc_dpb.specs.Entries.{waits_not, with_mark, unmarked};
    ghost use Rattle.hevc_dpb.specs.Entries.{IsStoredAs};
    ghost use Rattle.hevc_dpb.specs.Output.{as_output, in_output_order, first_in, behind_output};
    ghost use Rattle.hevc_dpb.specs.Bumping.{is_additional_due, is_bumping_due};
    ghost use Rattle.hevc_dpb.specs.Plain.{plain_entry, plain_output, HaveLatency};
    ghost use Rattle.hevc_dpb.specs.Views.{stored_entries, max_num_pics_of, room_of, is_stale};
    ghost use Rattle.hevc_dpb.specs.Views.{buffer_of};
    ghost use Rattle.hevc_dpb.specs.Sizes.{KeepsSizes, OnlyLoses, Stores};
    ghost use Rattle.hevc_dpb.specs.Lending.{LendsPicture};
    ghost use Rattle.hevc_dpb.specs.declared.entry.DpbEntry.{DpbEntry};

    /// An empty buffer that may hold no picture. It takes memory from `alloc` once it is to have
    /// room.
    pub fn new(alloc: Global) -> Dpb<T>
        ensures entries { stored_entries result ≡ [] }
        ensures size { max_num_pics_of result ≡ 0 }
        ensures fresh { is_stale result ≡ false }
    {
        Dpb {
            entries: Vec::new(alloc),
            max_num_pics: 0,
            waiting: ArrayVec::new(),
            stale: false,
        }
    }

    /// Makes room for 16 pictures, those that are stored included.
    ///
    /// Errors: no memory.
    pub fn reserve(&mut self) -> Result<(), AllocError>
        ensures entries { stored_entries self.new ≡ stored_entries self.old }
        ensures size { max_num_pics_of self.new ≡ max_num_pics_of self.old }
        ensures room { OnOk result (16 ≤ room_of self.new) }
        ensures full { OnErr result (room_of self.old < 16) }
        ensures kept_room { room_of self.old ≤ room_of self.new }
        ensures same_order { is_stale self.new ≡ is_stale self.old }
    {
        self.entries.reserve(16 - self.entries.len())
    }

    /// The stored pictures.
    pub fn entries(&self) -> &[DpbEntry<T>]
        ensures entries { result.now ≡ stored_entries self.now }
        ensures few { length result.now ≤ 16 }
        ensures distinct { Distinct (numbers result.now) }
    {
        self.entries.as_slice()
    }

    /// How many pictures are stored.
    pub fn len(&self) -> usize
        ensures { result ≡ length (stored_entries self.now) }
    {
        self.entries.len()
    }

    /// Whether no picture is stored.
    pub fn is_empty(&self) -> bool
        ensures { IsTrue result ↔ (stored_entries self.now ≡ []) }
    {
        self.entries.is_empty()
    }

    /// How many pictures it may hold.
    pub fn max_num_pics(&self) -> usize
        ensures value { result ≡ max_num_pics_of self.now }
        ensures at_most { result ≤ 16 }
    {
        self.max_num_pics
    }

    /// Sets how many pictures it may hold.
    pub fn set_max_num_pics(&mut self, max_num_pics: usize)
        requires { max_num_pics ≤ 16 }
        ensures size { max_num_pics_of self.new ≡ max_num_pics }
        ensures entries { stored_entries self.new ≡ stored_entries self.old }
        ensures room { room_of self.new ≡ room_of self.old }
        ensures same_order { is_stale self.new ≡ is_stale self.old }
    {
        self.max_num_pics = max_num_pics;
    }

    /// No picture is left.
    pub fn clear(&mut self)
        ensures entries { stored_entries self.new ≡ [] }
        ensures size { max_num_pics_of self.new ≡ max_num_pics_of self.old }
        ensures room { room_of self.new ≡ room_of self.old }
        ensures fresh { is_stale self.new ≡ false }
    {
        self.stale = true;
        self.entries.clear();
        self.order_waiting();
    }

    /// The positions of the pictures that are needed for output, in the order in which they are
    /// output; None where that order is stale.
    pub fn waiting_positions(&self) -> Option<&[u8]>
        ensures stale { IsSome result ↔ (is_stale self.now ≡ false) }
        ensures positions { IfSome result
            (λ positions. positions.now ≡ output_positions (stored_entries self.now)) }
    {
        if self.stale {
            return None;
        }
        Some(self.waiting.as_slice())
    }

    /// The order of the waiting pictures is made anew, if it is stale.
    fn order_if_stale(&mut self)
        ensures entries { stored_entries self.new ≡ stored_entries self.old }
        ensures size { max_num_pics_of self.new ≡ max_num_pics_of self.old }
        ensures room { room_of self.new ≡ room_of self.old }
        ensures fresh { is_stale self.new ≡ false }
    {
        if self.stale {
            self.order_waiting();
        }
    }

    /// The order of the waiting pictures is made anew.
    fn order_waiting(&mut self)
        ensures entries { stored_entries self.new ≡ stored_entries self.old }
        ensures size { max_num_pics_of self.new ≡ max_num_pics_of self.old }
        ensures room { room_of self.new ≡ room_of self.old }
        ensures fresh { is_stale self.new ≡ false }
    {
        self.waiting = output_order(&self.entries);
        self.stale = false;
    }

    /// The picture at a position, to be changed. The order of the waiting pictures is stale then.
    pub fn picture_mut(&mut self, position: usize) -> &mut PictureData
        requires { position < length (stored_entries self.old) }
        ensures* writes_back { sem 𝓛 (LendsPicture T.row self.entry position result) }
        ensures value { (d : DpbEntry T)
            → result.now ≡ (slice_index_or (stored_entries self.old) position d).picture }
    {
        self.stale = true;
        &mut self.entries[position].picture
    }

    /// Marks the picture at a position (8.3.2).
    pub fn set_reference_at(&mut self, position: usize, reference: Reference)
        requires { position < length (stored_entries self.old) }
        ensures entries { (d : DpbEntry T) → stored_entries self.new
            ≡ slice_set (stored_entries self.old) position
            (with_mark reference (slice_index_or (stored_entries self.old) position d)) }
        ensures others { map unmarked (stored_entries self.new)
            ≡ map unmarked (stored_entries self.old) }
        ensures buffer { (d : walk.Entry) → buffer_of self.new
            ≡ slice_set (buffer_of self.old) position
            (record (slice_index_or (buffer_of self.old) position d) { mark = mark_of reference }) }
        ensures keeps { KeepsSizes self.old self.new }
        ensures handles { tickets (stored_entries self.new) ≡ tickets (stored_entries self.old) }
        ensures same_order { is_stale self.new ≡ is_stale self.old }
    {
        mark_at(&mut self.entries, position, reference);
    }

    /// No picture is used for reference any more.
    pub fn mark_all_as_unused_for_ref(&mut self)
        ensures entries { stored_entries self.new ≡ map unmarked (stored_entries self.old) }
        ensures buffer { buffer_of self.new ≡ map walk_sets.unmarked (buffer_of self.old) }
        ensures others { map unmarked (stored_entries self.new)
            ≡ map unmarked (stored_entries self.old) }
        ensures keeps { KeepsSizes self.old self.new }
        ensures handles { tickets (stored_entries self.new) ≡ tickets (stored_entries self.old) }
        ensures same_order { is_stale self.new ≡ is_stale self.old }
    {
        unmark_all(&mut self.entries);
    }

    /// The pictures that are neither needed for output nor used for reference leave (C.5.2.2).
    pub fn remove_unused(&mut self)
        ensures entries { stored_entries self.new ≡ filter is_needed (stored_entries self.old) }
        ensures buffer { buffer_of self.new ≡ needed_entries (buffer_of self.old) }
        ensures leaves { OnlyLoses self.old self.new }
        ensures references { reference_numbers (stored_entries self.new)
            ≡ reference_numbers (stored_entries self.old) }
        ensures fresh { is_stale self.new ≡ false }
    {
        self.stale = true;
        keep_needed(&mut self.entries);
        self.order_waiting();
    }

    /// Whether additional bumping goes on, once a picture is stored (C.5.2.3).
    pub fn needs_additional_bumping(&self, limits: &Limits) -> bool
        ensures value { result ≡ is_additional_due limits.now (stored_entries self.now) }
        ensures rule { HaveLatency (stored_entries self.now)
            → result ≡ walk.needs_additional_bumping (limits_of limits.now) (buffer_of self.now) }
    {
        is_additional_due(&self.entries, limits)
    }

    /// Whether bumping goes on before a picture is decoded (C.5.2.2).
    pub fn needs_bumping(&self, limits: &Limits) -> bool
        ensures value { result ≡ is_bumping_due limits.now (stored_entries self.now) }
        ensures rule { HaveLatency (stored_entries self.now)
            → result ≡ walk.needs_bumping (limits_of limits.now) (buffer_of self.now) }
    {
        is_bumping_due(&self.entries, limits)
    }

    /// Of the pictures that are needed for output, the first one in order is output (C.5.2.4). It
    /// leaves unless it is used for reference; where the buffer is flushed, it leaves in any case.
    pub fn bump(&mut self, flush: bool) -> Option<DpbEntry<T>>
        ensures output { result
            ≡ option_map as_output (first_in (in_output_order (stored_entries self.old))) }
        ensures left { stored_entries self.new
            ≡ behind_output flush (first_in (in_output_order (stored_entries self.old)))
            (stored_entries self.old) }
        ensures buffer { flush ≡ false → buffer_of self.new
            ≡ walk.after_output (take 1 (walk.in_output_order (buffer_of self.old)))
            (buffer_of self.old) }
        ensures first { option_map plain_entry result
            ≡ option_map plain_output (first_in (walk.in_output_order (buffer_of self.old))) }
        ensures given { IfSome result
            (λ e. Contains (tickets (stored_entries self.old)) (ticket e)) }
        ensures leaves { OnlyLoses self.old self.new }
        ensures references { flush ≡ false
            → reference_numbers (stored_entries self.new)
            ≡ reference_numbers (stored_entries self.old) }
        ensures fresh { is_stale self.new ≡ false }
    {
        self.order_if_stale();
        self.stale = true;
        let output = output_first(&mut self.entries, &self.waiting, flush);
        self.order_waiting();
        output
    }

    /// All pictures that are needed for output are appended in order, and leave. The others stay.
    ///
    /// Errors: no memory; both are then as they were.
    pub fn drain(&mut self, out: &mut Vec<DpbEntry<T>>) -> Result<(), AllocError>
        ensures given { OnOk result
            (out.new.items ≡ out.old.items ++ in_output_order (stored_entries self.old)) }
        ensures left { OnOk result
            (stored_entries self.new ≡ filter waits_not (stored_entries self.old)) }
        ensures drained { map plain_entry (in_output_order (stored_entries self.old))
            ≡ (walk.draining (buffer_of self.old)).outputs }
        ensures out_stays { OnErr result (out.new.items ≡ out.old.items) }
        ensures stays { OnErr result (self.new ≡ self.old) }
        ensures full { OnErr result (vec_capacity out.old < vec_len out.old + 16) }
        ensures leaves { OnlyLoses self.old self.new }
        ensures fresh { OnOk result (is_stale self.new ≡ false) }
    {
        out.reserve(16)?;
        self.order_if_stale();
        append_in_order(&self.entries, &self.waiting, out);
        self.stale = true;
        keep_not_waiting(&mut self.entries);
        self.order_waiting();
        Ok(())
    }

    /// Stores a picture after the others, as a short-term reference picture, needed for output if
    /// it is to be output (C.5.2.3).
    ///
    /// Errors: the buffer holds as many pictures as it may; it is then as it was.
    pub fn store_picture(
        &mut self,
        number: u64,
        picture: PictureData,
        handle: T,
    ) -> Result<(), DpbFull>
        requires other { Absent number (numbers (stored_entries self.old)) }
        requires room { max_num_pics_of self.old ≤ room_of self.old }
        ensures full { IsErr result
            ↔ (max_num_pics_of self.old ≤ length (stored_entries self.old)) }
        ensures stored { OnOk result (Stores self.old self.new number picture handle) }
        ensures buffer { (p : Head) → IsStoredAs p number picture
            → HaveLatency (stored_entries self.old)
            → OnOk result (buffer_of self.new ≡ walk.with_stored p (buffer_of self.old)) }
        ensures stays { OnErr result (self.new ≡ self.old) }
        ensures keeps { KeepsSizes self.old self.new }
        ensures fits { OnOk result (length (stored_entries self.new) ≤ max_num_pics_of self.new) }
    {
        if self.entries.len() >= self.max_num_pics {
            return Err(DpbFull);
        }
        self.stale = true;
        store_behind(&mut self.entries, DpbEntry::stored(number, picture, handle));
        self.order_waiting();
        Ok(())
    }
}
