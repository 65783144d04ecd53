//! What a picture breaks, after the pictures before it in its coded video sequence.
ghost use Rattle.std.specs.Ordering.{int_cmp};
ghost use Rattle.std.specs.BTreeSet.{contains};
ghost use Rattle.std.specs.declared.option.Option.TheVariants.{None};
ghost use Rattle.std.specs.Prelude.{int_lt, filter, ◌≡◌, ◌<◌, ◌+◌, ◌≤ℤ◌, ◌&&◌, ◌==◌, nat_lt, min, ℕ, ℤ, List, [], ◌∷◌, length, slice_index_or, Option, option_map, IfOk, OnOk, false};
ghost use Rattle.hevc_walk.specs.Meanings.{Format, same_format};
ghost use Rattle.hevc_walk.specs.Pictures.{Picture};
ghost use Rattle.hevc_walk_order.specs.DisplayOrder.{latency_pictures};
ghost use Rattle.hevc_walk_order.specs.Sequences.{earliest, is_for_output};
ghost use Rattle.hevc_walk_order.specs.Tests.{same_limits};
ghost use Rattle.hevc_pictures.specs.Limits.{limits_of};
ghost use Rattle.hevc_backend.specs.Negotiation.{format_of};
ghost use Rattle.hevc_driver.specs.Heads.{head_of};
ghost use Rattle.hevc_check_laws.specs.Breaches.{Full, Latency, SameCount, all_breaches, differs_from, discards, earlier_in};
ghost use Rattle.hevc_check_laws.specs.Checks.{first_breach};
ghost use Rattle.hevc_check.specs.Breaches.{breach_of};
ghost use Rattle.hevc_check.specs.Filled.{is_below};
ghost use Rattle.hevc_check.specs.Late.{AreHighest, Fall, late_by};
ghost use Rattle.hevc_check.specs.Sequences.{Follows, FollowsAll, FollowsTo, KeepsHighest, TellsNext, above, has_count, output_above};
ghost use Rattle.hevc_check.specs.Tables.{breaks_by, is_counted};

use crate::begun::Begun;
use crate::breach::Breach;
use crate::filled::{higher_of, is_up_to};
use crate::late::HighestCounts;
use crate::table::Table;
use hevc_backend::NegotiationInfo;
use hevc_driver::Head;
use hevc_pictures::Limits;
use std::alloc::{AllocError, Global};
use std::collections::BTreeSet;

/// What the pictures of a coded video sequence have been so far.
#[derive(Drop)]
pub(crate) struct Sequence {
    /// By what it is checked.
    pub(crate) table: Table,
    /// What its first picture declares, and has.
    limits: Limits,
    format: NegotiationInfo,
    /// The order counts of its pictures; by display order of those that are to be output.
    counts: BTreeSet<i32>,
    /// Of the order counts of its pictures that are to be output the highest: at most one more than
    /// may be decoded before a picture and output after it.
    highest: Vec<i32>,
    /// The highest up to each of its decoded pictures.
    so_far: HighestCounts,
    /// Up to which order count the buffer was full at one of its pictures but the first.
    filled: Option<i32>,
}

/// Whether two formats are the same.
fn is_same_format(one: &NegotiationInfo, other: &NegotiationInfo) -> bool
    ensures { result ≡ same_format (format_of one.now) (format_of other.now) }
{
    *one == *other
}

/// Whether two limits are the same.
fn is_same_limits(one: &Limits, other: &Limits) -> bool
    ensures { result ≡ same_limits (limits_of one.now) (limits_of other.now) }
{
    one.reorder == other.reorder
        && one.latency_plus1 == other.latency_plus1
        && one.buffering == other.buffering
}

/// Whether a picture is to be output: its PicOutputFlag says so, and it isn't skipped (8.1.3).
fn is_for_output(head: &Head) -> bool
    ensures { (p : Picture) → head_of head.now ≡ p.head → result ≡ is_for_output p }
{
    head.picture.pic_output_flag && !head.skipped
}

/// SpsMaxLatencyPictures (7-9), where a latency is declared.
fn latency_pictures(limits: &Limits) -> usize
    ensures { result ≡ latency_pictures (limits_of limits.now) }
{
    (limits.reorder as usize + limits.latency_plus1 as usize).saturating_sub(1)
}

/// Whether NoOutputOfPriorPicsFlag is set at a picture, which isn't the first (C.5.2.2).
fn discards(head: &Head) -> bool
    ensures { (p : Picture) → head_of head.now ≡ p.head → result ≡ discards p }
{
    head.picture.no_output_of_prior_pics_flag && head.number != 0
}

/// The order count of a decoded picture, if it is to be output.
fn output_count(head: &Head) -> Option<i32>
    ensures { (p : Picture) (c : ℤ) → head_of head.now ≡ p.head
        → is_below c result ≡ (is_for_output p && int_lt c p.order_count) }
{
    if is_for_output(head) {
        Some(head.picture.pic_order_cnt_val)
    } else {
        None
    }
}

/// How many of these order counts are above one.
#[tactic(auto, unfolding(crate::specs::Sequences::above))]
fn num_above(counts: &Vec<i32>, count: i32) -> usize
    ensures { result ≡ above count counts.now.items }
{
    counts.iter().filter(|other| count < **other).count()
}

/// Which of two places has the lower of these order counts.
fn lower_of(counts: &Vec<i32>, one: usize, other: usize) -> usize
    requires one { one < length counts.now.items }
    requires other { other < length counts.now.items }
    ensures inside { result < length counts.now.items }
    ensures one { (d : ℤ) → slice_index_or counts.now.items result d
        ≤ℤ slice_index_or counts.now.items one d }
    ensures other { (d : ℤ) → slice_index_or counts.now.items result d
        ≤ℤ slice_index_or counts.now.items other d }
{
    if counts[other] < counts[one] {
        other
    } else {
        one
    }
}

/// Where the lowest of these order counts is.
fn place_of_lowest(counts: &Vec<i32>) -> usize
    requires { 0 < length counts.now.items }
    ensures inside { result < length counts.now.items }
    ensures lowest { (k : ℕ) (d : ℤ) → k < length counts.now.items
        → slice_index_or counts.now.items result d ≤ℤ slice_index_or counts.now.items k d }
{
    let mut lowest = 0;
    for place in 1..counts.len() {
        lowest = lower_of(counts, lowest, place);
    }
    lowest
}

impl Sequence {
    /// None yet. Takes no memory; order counts take theirs from `alloc`.
    pub(crate) fn new(alloc: Global, table: Table) -> Sequence
        ensures table { result.table ≡ table }
        ensures follows { (set : Option (ℕ × Format)) → FollowsAll set [] result }
    {
        Sequence {
            table,
            limits: Limits {
                reorder: 0,
                latency_plus1: 0,
                buffering: 0,
            },
            format: NegotiationInfo::default(),
            counts: BTreeSet::new(alloc),
            highest: Vec::new(alloc),
            so_far: HighestCounts::new(alloc),
            filled: None,
        }
    }

    /// Another sequence begins, with this picture.
    pub(crate) fn restart(&mut self, head: &Head)
        ensures follows { (p : Picture) → head_of head.now ≡ p.head → Follows p [] self.new }
        ensures filled { self.new.filled ≡ None }
        ensures table { self.new.table ≡ self.old.table }
    {
        self.limits = head.limits;
        self.format = head.format;
        self.counts.clear();
        self.highest.clear();
        self.so_far.clear();
        self.filled = None;
    }

    /// Whether a picture has another format or other limits than the first one.
    fn differs_from(&self, head: &Head) -> bool
        ensures value { (p : Picture) (es : List Picture) → head_of head.now ≡ p.head
            → Follows p es self.now → result ≡ differs_from p (earliest es) }
        ensures same { result ≡ false → self.now.limits.reorder ≡ head.now.limits.reorder }
    {
        !(is_same_limits(&head.limits, &self.limits) && is_same_format(&head.format, &self.format))
    }

    /// Whether at least SpsMaxLatencyPictures are decoded between a picture that is output after
    /// this one and this one.
    fn is_long_preceded(&self, head: &Head) -> bool
        ensures { (p : Picture) (es : List Picture) → head_of head.now ≡ p.head
            → Follows p es self.now
            → result ≡ late_by p.order_count (latency_pictures p.limits) es }
    {
        let least = latency_pictures(&head.limits);
        self.so_far
            .has_higher(head.picture.pic_order_cnt_val, least)
    }

    /// Whether a picture comes too late after one that it is output before: at least
    /// SpsMaxLatencyPictures are decoded between them.
    fn comes_late(&self, head: &Head) -> bool
        ensures { (p : Picture) (es : List Picture) → head_of head.now ≡ p.head
            → Follows p es self.now → result ≡ (is_for_output p
            && nat_lt 0 p.limits.max_latency_increase_plus1
            && late_by p.order_count (latency_pictures p.limits) es) }
    {
        is_for_output(head) && head.limits.latency_plus1 > 0 && self.is_long_preceded(head)
    }

    /// Whether a latency is declared, or, by display order, isn't kept.
    fn breaks_latency(&self, head: &Head) -> bool
        ensures { (set : Option (ℕ × Format)) (p : Picture) (before : List Picture)
            → head_of head.now ≡ p.head → Fall p.number before
            → Follows p (earlier_in p before) self.now
            → result ≡ breaks_by self.now.table set p before Latency }
    {
        match self.table {
            Table::Bounds => head.limits.latency_plus1 != 0,
            Table::Order => self.comes_late(head),
        }
    }

    /// Whether an earlier picture whose order count is looked at has that of this one.
    fn has_count(&self, head: &Head) -> bool
        ensures { (p : Picture) (es : List Picture) → head_of head.now ≡ p.head
            → Follows p es self.now
            → result ≡ has_count p.order_count (filter (is_counted self.now.table) es) }
    {
        self.counts.contains(&head.picture.pic_order_cnt_val)
    }

    /// Whether the order count of a picture is looked at.
    fn is_counted(&self, head: &Head) -> bool
        ensures { (p : Picture) → head_of head.now ≡ p.head
            → result ≡ is_counted self.now.table p }
    {
        match self.table {
            Table::Bounds => true,
            Table::Order => is_for_output(head),
        }
    }

    /// Whether a picture has the order count of an earlier one, if both are looked at.
    fn repeats_count(&self, head: &Head) -> bool
        ensures { (set : Option (ℕ × Format)) (p : Picture) (before : List Picture)
            → head_of head.now ≡ p.head → Follows p (earlier_in p before) self.now
            → result ≡ breaks_by self.now.table set p before SameCount }
    {
        self.is_counted(head) && self.has_count(head)
    }

    /// Whether the buffer is full as a picture is to be decoded; by display order, whether it was
    /// so up to it that one is output because the buffer is full no earlier than it.
    fn is_full(&self, begun: &Begun) -> bool
        ensures { (set : Option (ℕ × Format)) (p : Picture) (before : List Picture)
            → TellsNext set p before begun.now → FollowsTo set p before self.now
            → result ≡ breaks_by self.now.table set p before Full }
    {
        match self.table {
            Table::Bounds => begun.is_full(),
            Table::Order => {
                let count = begun.head.picture.pic_order_cnt_val;
                is_for_output(&begun.head) && is_up_to(count, self.filled)
            }
        }
    }

    /// Whether more than a number of pictures that are to be output, which is that of the first
    /// picture's limits, have order counts above one.
    fn has_more_above(&self, count: i32, reorder: u8) -> bool
        requires { self.now.limits.reorder ≡ reorder }
        ensures { (p : Picture) (es : List Picture) → Follows p es self.now
            → result ≡ nat_lt reorder (output_above count es) }
    {
        num_above(&self.highest, count) > reorder as usize
    }

    /// Whether more pictures than declared are before a picture and are output after it.
    fn is_reordered(&self, head: &Head) -> bool
        requires { self.now.limits.reorder ≡ head.now.limits.reorder }
        ensures { (p : Picture) (es : List Picture) → head_of head.now ≡ p.head
            → Follows p es self.now → result ≡ (is_for_output p
            && nat_lt p.limits.max_num_reorder_pics (output_above p.order_count es)) }
    {
        is_for_output(head)
            && self.has_more_above(head.picture.pic_order_cnt_val, head.limits.reorder)
    }

    /// What a picture breaks first, if anything.
    fn first_breach(&self, begun: &Begun) -> Option<Breach>
        ensures { (set : Option (ℕ × Format)) (p : Picture) (before : List Picture)
            → TellsNext set p before begun.now → FollowsTo set p before self.now
            → option_map breach_of result
            ≡ first_breach (breaks_by self.now.table set p before) all_breaches }
    {
        let head = &begun.head;
        if self.differs_from(head) {
            return Some(Breach::Changed);
        }
        if self.breaks_latency(head) {
            return Some(Breach::Latency);
        }
        if self.repeats_count(head) {
            return Some(Breach::SameCount);
        }
        if self.is_full(begun) {
            return Some(Breach::Full);
        }
        if discards(head) {
            return Some(Breach::Discards);
        }
        if self.is_reordered(head) {
            return Some(Breach::Reorder);
        }
        None
    }

    /// Keeps an order count if it is among the highest.
    fn keep_if_high(&mut self, count: i32) -> Result<(), AllocError>
        ensures highest { OnOk result ((c : ℤ) (n : ℕ)
            → min (self.old.limits.reorder + 1) (above c self.old.highest.items)
            ≡ min (self.old.limits.reorder + 1) n
            → min (self.old.limits.reorder + 1) (above c self.new.highest.items)
            ≡ min (self.old.limits.reorder + 1) (above c (count ∷ []) + n)) }
        ensures others { self.new ≡ record self.old { highest = self.new.highest } }
    {
        if self.highest.len() <= self.limits.reorder as usize {
            self.highest.push(count)?;
            return Ok(());
        }
        let lowest = place_of_lowest(&self.highest);
        if self.highest[lowest] < count {
            self.highest[lowest] = count;
        }
        Ok(())
    }

    /// With the order count of one more picture, if it is looked at.
    fn add_count(&mut self, head: &Head) -> Result<(), AllocError>
        ensures counts { OnOk result ((p : Picture) (es : List Picture) → head_of head.now ≡ p.head
            → Follows p es self.old → (c : ℤ) → contains int_cmp self.new.counts c
            ≡ has_count c (filter (is_counted self.old.table) (p ∷ es))) }
        ensures others { self.new ≡ record self.old { counts = self.new.counts } }
    {
        if self.is_counted(head) {
            self.counts.insert(head.picture.pic_order_cnt_val)?;
        }
        Ok(())
    }

    /// With the order count of one more picture among the highest, if it is to be output.
    fn add_highest(&mut self, head: &Head) -> Result<(), AllocError>
        ensures highest { OnOk result ((p : Picture) (es : List Picture) → head_of head.now ≡ p.head
            → KeepsHighest es self.old → KeepsHighest (p ∷ es) self.new) }
        ensures others { self.new ≡ record self.old { highest = self.new.highest } }
    {
        if is_for_output(head) {
            self.keep_if_high(head.picture.pic_order_cnt_val)?;
        }
        Ok(())
    }

    /// With one more picture among the decoded ones, if it is decoded.
    fn add_decoded(&mut self, head: &Head) -> Result<(), AllocError>
        ensures so_far { OnOk result ((p : Picture) (es : List Picture) → head_of head.now ≡ p.head
            → AreHighest es self.old.so_far → AreHighest (p ∷ es) self.new.so_far) }
        ensures others { self.new ≡ record self.old { so_far = self.new.so_far } }
    {
        if head.skipped {
            return Ok(());
        }
        self.so_far.push(output_count(head))
    }

    /// With one more picture.
    fn add(&mut self, head: &Head) -> Result<(), AllocError>
        ensures follows { OnOk result ((p next : Picture) (es : List Picture)
            → head_of head.now ≡ p.head
            → Follows p es self.old → Follows next (p ∷ es) self.new) }
        ensures filled { self.new.filled ≡ self.old.filled }
        ensures table { self.new.table ≡ self.old.table }
    {
        self.add_count(head)?;
        self.add_highest(head)?;
        self.add_decoded(head)?;
        Ok(())
    }

    /// Where the next picture begins a sequence, nothing of the one before is kept; else it is
    /// looked at whether it finds the buffer full.
    fn turn_to(&mut self, begun: &Begun)
        ensures follows { (set : Option (ℕ × Format)) (p : Picture) (before : List Picture)
            → TellsNext set p before begun.now → FollowsAll set before self.old
            → FollowsTo set p before self.new }
        ensures table { self.new.table ≡ self.old.table }
    {
        if begun.begins_sequence {
            self.restart(&begun.head);
        } else {
            self.filled = higher_of(begun.stored.filled, self.filled);
        }
    }

    /// Takes the next picture, which goes on with the sequence or begins another one, and gives
    /// what it breaks first, if anything.
    pub(crate) fn take(&mut self, begun: &Begun) -> Result<Option<Breach>, AllocError>
        ensures breach { IfOk result (λ breach. (set : Option (ℕ × Format)) (p : Picture)
            (before : List Picture) → TellsNext set p before begun.now
            → FollowsAll set before self.old
            → option_map breach_of breach
            ≡ first_breach (breaks_by self.old.table set p before) all_breaches) }
        ensures follows { OnOk result ((set : Option (ℕ × Format)) (p : Picture)
            (before : List Picture) → TellsNext set p before begun.now
            → FollowsAll set before self.old → FollowsAll set (p ∷ before) self.new) }
        ensures table { self.new.table ≡ self.old.table }
    {
        self.turn_to(begun);
        let breach = self.first_breach(begun);
        self.add(&begun.head)?;
        Ok(breach)
    }
}
