//! What was told of a unit.
ghost use Rattle.std.specs.Prelude.{◌≡◌, ◌≤◌, ◌<◌, ◌+◌, ◌-◌, ◌/◌, ◌%◌, min, max, length, IfOk};
ghost use Rattle.std.specs.Prelude.{IfSome, replicate, OnOk, option_map, Some, None};
ghost use Rattle.std.specs.Prelude.{slice_index_or, slice_get, if◌then◌else◌, ◌==◌};
ghost use Rattle.hevc_element_names.specs.Seen.{after, begun_by, cleared, count, counted};
ghost use Rattle.hevc_element_names.specs.Seen.{due_after, emptied, first_after, marked};
ghost use Rattle.hevc_element_names.specs.Seen.{members_after, natural, no_numbers, nothing_seen};
ghost use Rattle.hevc_element_names.specs.Seen.{place, second_after, sight_of, value, with_at};
ghost use Rattle.hevc_element_names.specs.Names.{indices_by, indices_of, element_place};
ghost use Rattle.hevc_element_names.specs.Names.{list_number, matrix_of, name_at, name_of, nth};
ghost use Rattle.hevc_element_names.specs.Names.{num_elements, profile_indices, row_place, rule_at};
ghost use Rattle.hevc_element_names.specs.Names.{which};

use crate::elements::{FIRSTS, NAMES, RULES, SPANS, STARTS};
use crate::layer::Layer;
use crate::name::{ElementName, Indices};
use crate::rule::Rule;
use crate::texts::{place_at, text_at};
use hevc_elements::Told;
use hevc_spec::Row;
use std::alloc::{AllocError, Global};

/// What was told of a unit so far, as the names of the elements after it need it.
#[derive(Drop)]
pub struct Seen {
    layer: Layer,
    counts: Vec<u32>,
    values: Vec<u32>,
    members: u32,
    is_due: bool,
    first_set: Vec<u32>,
    second_set: Vec<u32>,
}

impl Seen {
    /// Before the first element.
    ///
    /// Errors: no memory.
    pub fn new(alloc: Global) -> Result<Seen, AllocError>
        ensures { IfOk result (λ seen. sight_of seen ≡ nothing_seen) }
    {
        Ok(Seen {
            layer: Layer::new(),
            counts: nothing(alloc)?,
            values: nothing(alloc)?,
            members: 0,
            is_due: false,
            first_set: Vec::new(alloc),
            second_set: Vec::new(alloc),
        })
    }

    /// The name of the element that comes next, which is empty where there is no such row.
    pub fn name(&self, row: Row) -> ElementName
        ensures name { result.name.now ≡ name_of (sight_of self.now) row.0 row.1 }
        ensures indices { result.indices ≡ indices_of (sight_of self.now) row.0 row.1 }
    {
        ElementName {
            name: name_at(self.element_place(row)),
            indices: self.indices(row),
        }
    }

    /// Its place among the elements of all rows.
    #[tactic(auto, unfolding(crate::specs::Names::element_place))]
    fn element_place(&self, row: Row) -> usize
        ensures value { result ≡ element_place (sight_of self.now) row.0 row.1 }
        ensures small { result < 131072 }
    {
        let at = row_place(row);
        let which = self.which(rule_at(at), self.count(row.0, row.1), num_elements(at));
        first_of(at) + which as usize
    }

    /// Its indices.
    #[tactic(auto, unfolding(crate::specs::Names::indices_of))]
    fn indices(&self, row: Row) -> Indices
        ensures { result ≡ indices_of (sight_of self.now) row.0 row.1 }
    {
        let at = row_place(row);
        self.indices_by(rule_at(at), row, self.count(row.0, row.1), num_elements(at))
    }

    /// One more element is told.
    ///
    /// Errors: no memory.
    pub fn see(&mut self, told: &Told) -> Result<(), AllocError>
        ensures { OnOk result (sight_of self.new ≡ after (sight_of self.old) told.now) }
    {
        let table = told.row.0;
        let row = told.row.1;
        let index = self.count(table, row) as u32;
        let value = natural(told.value);
        mark_first(&mut self.first_set, table, row, index, value)?;
        mark_second(&mut self.second_set, table, row, index, value)?;
        if table == 2 && row == 30 {
            self.layer = self.layer.with_element(u64::from(index % 83), value);
        }
        self.members = self.members_after(table, row);
        self.is_due = due_after(table, row, value, self.is_due);
        begin(&mut self.counts, table, row);
        count_one(&mut self.counts, place(table, row));
        empty(&mut self.values, table, row);
        set_at(&mut self.values, place(table, row), value);
        Ok(())
    }

    /// How many members of a predicted set have begun after an element.
    fn members_after(&self, table: u8, row: u8) -> u32
        ensures { result ≡ members_after table row (sight_of self.now) }
    {
        if table == 7 && row == 1 {
            0
        } else if table == 7 && row == 5 && !self.is_due {
            self.members.saturating_add(1)
        } else {
            self.members
        }
    }

    /// How many elements of a row there were.
    fn count(&self, table: u8, row: u8) -> u64
        ensures value { result ≡ count (sight_of self.now) table row }
        ensures small { result < 4294967296 }
    {
        number_at(&self.counts, place(table, row))
    }

    /// The last value of a row.
    fn value(&self, table: u8, row: u8) -> u64
        ensures value { result ≡ value (sight_of self.now) table row }
        ensures small { result < 4294967296 }
    {
        number_at(&self.values, place(table, row))
    }

    /// Which of its elements the next one of a row is.
    fn which(&self, rule: Rule, told: u64, elements: u64) -> u64
        requires { (0 < elements) × (elements ≤ 65535) }
        ensures value { result ≡ which rule (sight_of self.now) told elements }
        ensures small { result < 65535 }
    {
        match rule {
            Rule::Members => u64::from(self.is_due),
            Rule::SubLayerProfile => self.layer.profile_element(told % 83),
            Rule::Alignment => told.min(1),
            _ => told % elements,
        }
    }

    /// The indices of the next element of a row.
    fn indices_by(&self, rule: Rule, row: Row, told: u64, elements: u64) -> Indices
        requires elements { (0 < elements) × (elements ≤ 65535) }
        requires told { told < 4294967296 }
        ensures { result ≡ indices_by rule (sight_of self.now) row.0 row.1 told elements }
    {
        match rule {
            Rule::Absent => Indices::Without,
            Rule::Each => Indices::One(told / elements),
            Rule::AfterFirst => Indices::One(told / elements + 1),
            Rule::SubLayers { flag, top } => {
                Indices::One(told / elements + self.first_sub_layer(row.0, flag, top))
            }
            Rule::AboveTop => Indices::One(told / 2 + self.value(1, 4) + self.value(5, 2)),
            Rule::Last { of } => Indices::One(self.count(row.0, of).saturating_sub(1)),
            Rule::Next { of } => Indices::One(self.count(row.0, of)),
            Rule::Pairs { first, of, more } => {
                let each = (self.value(row.0, of) + u64::from(more)).max(1);
                Indices::Two(u64::from(first) + told / each, told % each)
            }
            Rule::Schedules => Indices::One(told / elements % (self.value(3, 14) + 1)),
            Rule::Matrices { less } => {
                let number = if row.1 == 1 {
                    told
                } else {
                    self.count(6, 1).saturating_sub(1)
                };
                matrix_of(number, u64::from(less))
            }
            Rule::Members => Indices::One(self.member()),
            Rule::First => Indices::One(number_at(&self.first_set, told as usize)),
            Rule::Second => Indices::One(number_at(&self.second_set, told as usize)),
            Rule::SecondTwice => {
                Indices::Two(number_at(&self.second_set, told as usize / 2), told % 2)
            }
            Rule::SubLayerProfile => {
                let sub_layer = number_at(&self.first_set, told as usize / 83);
                profile_indices(sub_layer, told % 83)
            }
            Rule::Bytes => Indices::One(told / 8),
            Rule::Alignment => Indices::Without,
        }
    }

    /// The first sub-layer that has numbers of its own.
    fn first_sub_layer(&self, table: u8, flag: u8, top: u8) -> u64
        ensures value { result ≡ (if value (sight_of self.now) table flag == 1 then 0
            else value (sight_of self.now) table top) }
        ensures small { result < 4294967296 }
    {
        if self.value(table, flag) == 1 {
            0
        } else {
            self.value(table, top)
        }
    }

    /// The member of a predicted set that the next flag is of.
    fn member(&self) -> u64
        ensures { result ≡ (if (sight_of self.now).is_due then (sight_of self.now).members - 1
            else (sight_of self.now).members) }
    {
        let members = u64::from(self.members);
        if self.is_due {
            members.saturating_sub(1)
        } else {
            members
        }
    }
}

/// Whether a use_delta_flag is due after an element.
fn due_after(table: u8, row: u8, value: u32, is_due: bool) -> bool
    ensures { result ≡ due_after table row value is_due }
{
    table == 7 && row == 5 && !is_due && value == 0
}

/// Marks a luma weight or the profile of a sub-layer.
fn mark_first(
    marks: &mut Vec<u32>,
    table: u8,
    row: u8,
    index: u32,
    value: u32,
) -> Result<(), AllocError>
    ensures { OnOk result (marks.new.items ≡ first_after table row index value marks.old.items) }
{
    if table == 16 && (row == 3 || row == 9) {
        mark(marks, index, value == 1)
    } else if table == 2 && row == 28 && index % 2 == 0 {
        mark(marks, index / 2, value == 1)
    } else {
        Ok(())
    }
}

/// Marks a chroma weight or the level of a sub-layer.
fn mark_second(
    marks: &mut Vec<u32>,
    table: u8,
    row: u8,
    index: u32,
    value: u32,
) -> Result<(), AllocError>
    ensures { OnOk result (marks.new.items ≡ second_after table row index value marks.old.items) }
{
    if table == 16 && (row == 4 || row == 10) {
        mark(marks, index, value == 1)
    } else if table == 2 && row == 28 && index % 2 == 1 {
        mark(marks, index / 2, value == 1)
    } else {
        Ok(())
    }
}

/// Marks an index, or none, in a list that begins anew with the first one.
fn mark(marks: &mut Vec<u32>, index: u32, is_set: bool) -> Result<(), AllocError>
    ensures { OnOk result (marks.new.items ≡ marked marks.old.items index is_set) }
{
    if index == 0 {
        marks.clear();
    }
    if is_set {
        marks.push(index)?;
    }
    Ok(())
}

/// A value of 32 bits, and 0 for any other.
fn natural(value: i64) -> u32
    ensures { result ≡ natural value }
{
    if value >= 0 && value < 4_294_967_296 {
        value as u32
    } else {
        0
    }
}

/// The rows that an element begins anew have no elements yet.
fn begin(counts: &mut Vec<u32>, table: u8, row: u8)
    ensures { counts.new.items ≡ cleared (begun_by table row) counts.old.items }
{
    if table == 1 && row == 22 {
        set_at(counts, place(3, 10), 0);
    } else if table == 3 && row == 10 {
        set_at(counts, place(4, 1), 0);
        set_at(counts, place(4, 2), 0);
        set_at(counts, place(4, 3), 0);
    } else if table == 7 && row == 1 {
        set_at(counts, place(7, 5), 0);
        set_at(counts, place(7, 9), 0);
        set_at(counts, place(7, 10), 0);
        set_at(counts, place(7, 11), 0);
        set_at(counts, place(7, 12), 0);
    }
}

/// One more element of the row at a place.
fn count_one(counts: &mut Vec<u32>, at: usize)
    ensures { counts.new.items ≡ counted counts.old.items at }
{
    if at < counts.len() {
        counts[at] = counts[at].saturating_add(1);
    }
}

/// A sub-layer has one schedule until more are read.
fn empty(values: &mut Vec<u32>, table: u8, row: u8)
    ensures { values.new.items ≡ emptied table row values.old.items }
{
    if table == 3 && row == 10 {
        set_at(values, place(3, 14), 0);
    }
}

/// A number at a place, where there is such a place.
fn set_at(numbers: &mut Vec<u32>, at: usize, number: u32)
    ensures { numbers.new.items ≡ with_at numbers.old.items at number }
{
    if at < numbers.len() {
        numbers[at] = number;
    }
}

/// No count or value.
#[tactic(auto, unfolding(crate::specs::Seen::no_numbers))]
fn nothing(alloc: Global) -> Result<Vec<u32>, AllocError>
    ensures { IfOk result (λ numbers. numbers.items ≡ no_numbers) }
{
    zeros(alloc, 1088)
}

/// So many zeros.
fn zeros(alloc: Global, count: usize) -> Result<Vec<u32>, AllocError>
    ensures { IfOk result (λ numbers. numbers.items ≡ replicate count 0) }
{
    Ok(vec![in alloc; 0; count]?)
}

/// The place of a row in the counts and values.
fn place(table: u8, row: u8) -> usize
    ensures value { result ≡ place table row }
    ensures small { result < 65536 }
{
    64 * usize::from(table) + usize::from(row)
}

/// The number at a place, and 0 where there is none.
fn number_at(numbers: &[u32], at: usize) -> u64
    ensures value { result ≡ slice_index_or numbers.now at 0 }
    ensures small { result < 4294967296 }
{
    match numbers.get(at) {
        Some(number) => u64::from(*number),
        None => 0,
    }
}

/// The place of a row among those of all tables.
pub(crate) fn row_place(row: Row) -> usize
    ensures value { result ≡ row_place row.0 row.1 }
    ensures small { result < 65800 }
{
    place_at(&STARTS, usize::from(row.0)) + usize::from(row.1.saturating_sub(1))
}

/// The place of a row's first element.
fn first_of(at: usize) -> usize
    ensures value { result ≡ slice_index_or FIRSTS at 0 }
    ensures small { result < 65536 }
{
    place_at(&FIRSTS, at)
}

/// How many elements a row has.
fn num_elements(at: usize) -> u64
    requires { at < 65800 }
    ensures value { result ≡ num_elements at }
    ensures small { (0 < result) × (result ≤ 65535) }
{
    let count = first_of(at + 1).saturating_sub(first_of(at));
    count.max(1) as u64
}

/// How the indices of a row are told.
fn rule_at(at: usize) -> Rule
    ensures { result ≡ rule_at at }
{
    nth_rule(&RULES, at)
}

/// The rule at a place, if there is one.
fn nth_rule(rules: &[Rule], at: usize) -> Rule
    ensures { result ≡ slice_index_or rules.now at Rule.Absent }
{
    match rules.get(at) {
        Some(rule) => *rule,
        None => Rule::Absent,
    }
}

/// The name of the element at a place.
#[tactic(auto, unfolding(crate::specs::Names::name_at))]
fn name_at(at: usize) -> &'static [u8]
    requires { at < 131072 }
    ensures { result.now ≡ name_at at }
{
    text_at(&NAMES, &SPANS, at)
}

/// The size, less so many, and the matrix of the scaling list of this number.
fn matrix_of(number: u64, less: u64) -> Indices
    requires { number < 4294967296 }
    ensures { result ≡ matrix_of number less }
{
    if number < 18 {
        Indices::Two((number / 6).saturating_sub(less), number % 6)
    } else {
        Indices::Two(3_u64.saturating_sub(less), (number - 18) * 3)
    }
}

/// The indices of the element at a place of the profile of a sub-layer.
fn profile_indices(sub_layer: u64, at: u64) -> Indices
    ensures { result ≡ profile_indices sub_layer at }
{
    if at >= 3 && at < 35 {
        Indices::Two(sub_layer, at - 3)
    } else {
        Indices::One(sub_layer)
    }
}
