//! A reader of elements, which tells what it reads where it is asked to.
ghost use Rattle.std.specs.Prelude.{◌≡◌, ◌<◌, ◌≤◌, ◌^◌, ◌+◌, length, take, pos, nat_le};
ghost use Rattle.std.specs.Prelude.{if◌then◌else◌, [], ◌∷◌, IsTrue, ◌↔◌, IfSome, None, vec_len};
ghost use Rattle.std.specs.Vec.{vec_capacity};
ghost use Rattle.hevc_spec.specs.Payload.{first_place, bits_left, payload_bits, bits};
ghost use Rattle.hevc_spec.specs.Bits.{skip};
ghost use Rattle.hevc_bits.specs.declared.stream_limit.TheConstants.{STREAM_LIMIT};
ghost use Rattle.hevc_elements.specs.declared.told.Descriptor.TheVariants.{U};
ghost use Rattle.hevc_elements.specs.Telling.{and_told, told_of, element_told, bits_told, form_of};
ghost use Rattle.hevc_elements.specs.Telling.{IsShort, no_telling};
ghost use Rattle.hevc_elements.specs.Kept.{telling_in};
ghost use Rattle.hevc_elements.specs.Scan.{left};

use crate::told::{Descriptor, Told, told_ahead};
use hevc_bits::NaluReader;
use hevc_spec::Row;
use std::alloc::Global;
use std::marker::Model;

/// A reader of the elements of a payload. With a list it tells each element that is read, in order,
/// and one that is refused too where it has a value, as long as the list has room; it never makes
/// room itself, so reading wants no memory for it.
#[derive(Drop)]
pub struct ElementReader<'a> {
    pub(crate) reader: NaluReader<'a>,
    list: Option<Vec<Told>>,
}

impl<'a> Model for ElementReader<'a> {
    ghost use Rattle.hevc_elements.specs.Scan.{Position};
    ghost use Rattle.hevc_elements.specs.Kept.{telling_of};

    ghost Value = { Position };

    ghost view = { λ r. record { place = r.reader; telling = telling_of r.list } };
}

impl<'a> ElementReader<'a> {
    /// A reader at the first payload bit of the bytes after a unit's header, which tells nothing.
    pub fn new(bytes: &'a [u8]) -> ElementReader<'a>
        requires { length bytes.now < STREAM_LIMIT }
        ensures place { result.place ≡ first_place bytes.now }
        ensures payload { left result ≡ payload_bits 0 bytes.now }
        ensures telling { result.telling ≡ no_telling }
    {
        ElementReader {
            reader: NaluReader::new(bytes),
            list: None,
        }
    }

    /// The same, which tells what it reads into a list, after what is there, up to the list's
    /// capacity.
    pub fn telling(bytes: &'a [u8], list: Vec<Told>) -> ElementReader<'a>
        requires { length bytes.now < STREAM_LIMIT }
        ensures place { result.place ≡ first_place bytes.now }
        ensures payload { left result ≡ payload_bits 0 bytes.now }
        ensures telling { result.telling ≡ telling_in list }
    {
        ElementReader {
            reader: NaluReader::new(bytes),
            list: Some(list),
        }
    }

    /// Takes the list of what was told, which is empty where none was given; after it nothing more
    /// is told.
    pub fn take_told(&mut self, alloc: Global) -> Vec<Told>
        ensures told { telling_in result ≡ self.old.telling }
        ensures rest { self.new ≡ record self.old { telling = no_telling } }
    {
        match self.list.take() {
            Some(list) => list,
            None => Vec::new(alloc),
        }
    }

    /// How many bits are left: eight for each byte after the one being read, a 03 that isn't passed
    /// yet among them, and the unread bits of that one.
    pub fn num_bits_left(&self) -> usize
        ensures value { result ≡ bits_left self.now.place }
        ensures small { result < 2 ^ 63 + 9 }
    {
        self.reader.num_bits_left()
    }

    /// How many 03 bytes were dropped so far.
    pub fn num_epb(&self) -> usize
        ensures value { result ≡ self.now.place.dropped }
        ensures small { result < STREAM_LIMIT }
    {
        self.reader.num_epb()
    }

    /// An equal reader of bits, at the same place.
    pub fn fork(&self) -> NaluReader<'a>
        ensures { result ≡ self.now.place }
    {
        self.reader.fork()
    }

    /// Goes to where a reader of bits is.
    pub fn go_to(&mut self, reader: NaluReader<'a>)
        ensures { self.new ≡ record self.old { place = reader.entry } }
    {
        self.reader = reader;
    }

    /// Whether there is room for one more element.
    fn has_room(&self) -> bool
        ensures { IsTrue result ↔ 0 < self.now.telling.room }
    {
        match &self.list {
            Some(list) => list.len() < list.capacity(),
            None => false,
        }
    }

    /// An element is told, where there is room.
    #[tactic(auto, unfolding(crate::specs::Telling::and_told))]
    fn tell(&mut self, told: Told)
        ensures { self.new ≡ record self.old { telling = and_told (told ∷ []) self.old.telling } }
    {
        if let Some(list) = &mut self.list {
            if list.len() < list.capacity() {
                list.push_reserved(told);
            }
        }
    }

    /// Tells what is there as an element of a row, and stays there.
    #[inline]
    #[tactic(auto, using(crate::proofs::ScanLaws::tellings))]
    pub fn tell_element(&mut self, row: Row, descriptor: Descriptor)
        requires { IsShort descriptor }
        ensures { self.new ≡ record self.old {
          telling = and_told (element_told row (form_of descriptor) (left self.old)) self.old.telling;
        } }
    {
        if self.has_room() {
            if let Some(told) = told_ahead(&self.reader, row, descriptor) {
                self.tell(told);
            }
        }
    }

    /// Tells so many bits one by one, as far as they go.
    #[inline]
    #[tactic(auto, using(crate::proofs::ScanLaws::tellings))]
    pub(crate) fn tell_bits(&mut self, row: Row, num_bits: usize)
        ensures { self.new ≡ record self.old {
          telling = and_told (element_told row (skip num_bits) (left self.old)) self.old.telling;
        } }
    {
        if self.has_room() {
            self.tell_each(row, num_bits);
        }
    }

    /// Tells so many bits one by one, as far as they go and there is room.
    fn tell_each(&mut self, row: Row, num_bits: usize)
        ensures { self.new ≡ record self.old {
          telling = and_told (bits_told row (take num_bits (left self.old))) self.old.telling;
        } }
    {
        let mut ahead = self.reader.fork();
        for i in 0..num_bits {
            let _ = i;
            match ahead.read_bit() {
                Ok(bit) => self.tell(bit_told(row, bit)),
                Err(_end) => return,
            }
        }
    }
}

/// A bit as an element.
fn bit_told(row: Row, bit: bool) -> Told
    ensures { result ≡ told_of row (U 1) (pos (if bit then 1 else 0)) }
{
    Told {
        row,
        descriptor: Descriptor::U(1),
        value: if bit { 1 } else { 0 },
    }
}
