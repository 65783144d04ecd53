//! The payload bits of a byte slice, as many as a word holds at once.

ghost use Rattle.std.specs.Prelude.{◌≡◌, ◌≢◌, ◌∷◌, ℕ, ◌+◌, ◌-◌, ◌*◌, ◌/◌, ◌≤◌, ◌<◌, ◌^◌, ◌%◌};
ghost use Rattle.std.specs.Prelude.{length, true, false, Some, None, MatchOption, IfSome};
ghost use Rattle.hevc_spec.specs.Payload.{first_place, loading, bits, PassesBytes};
ghost use Rattle.hevc_spec.specs.Bits.{found, ue_at};
ghost use Rattle.hevc_bits.specs.Cached.{loaded_place, place_of, ahead, marked, IsFilled, Fills};
ghost use Rattle.hevc_bits.specs.Cached.{Takes, TakesGolomb};
ghost use Rattle.hevc_bits.specs.Reading.{LoadsByte};
ghost use Rattle.hevc_bits.specs.declared.stream_limit.TheConstants.{STREAM_LIMIT};

use crate::load::{Loaded, next_byte};

/// A place among the payload bits of a byte slice, with up to 63 of the next ones in a word.
#[derive(Clone, Copy)]
pub struct Word<'a> {
    /// The bytes, the 03 dropped before them, and how many of their payload bytes were put into the
    /// word.
    pub bytes: &'a [u8],
    pub before: usize,
    pub filled: usize,
    /// The bytes after those, the zero bytes directly before them, counted up to 2, and the 03
    /// dropped so far.
    pub rest: &'a [u8],
    pub zeros: u8,
    pub dropped: usize,
    /// How many low bits are unread of the payload bytes as one number, the last one lowest.
    pub left: usize,
    pub cache: u64,
    /// How many bytes of it aren't reached yet, unless fewer whole ones are unread, and for each
    /// whether a 03 was dropped before it, the last one lowest.
    pub most_ahead: usize,
    pub marks: u8,
}

impl<'a> Word<'a> {
    /// Before the first bit of `bytes`.
    pub fn new(bytes: &'a [u8]) -> Word<'a>
        requires { length bytes.now < STREAM_LIMIT }
        ensures filled { IsFilled result }
        ensures place { place_of result ≡ first_place bytes.now }
    {
        Word {
            bytes,
            before: 0,
            filled: 0,
            rest: bytes,
            zeros: 0,
            dropped: 0,
            cache: 0,
            left: 0,
            most_ahead: 0,
            marks: 0,
        }
    }

    /// Whether so many unread bits are in the word, which is filled where there are fewer.
    #[inline(always)]
    pub fn has(&mut self, num_bits: usize) -> bool
        requires filled { IsFilled self.old }
        requires few { num_bits ≤ 32 }
        ensures { Fills num_bits result self.old self.new }
    {
        if self.left < num_bits {
            self.fill();
        }
        num_bits <= self.left
    }

    /// Puts payload bytes in until 32 bits are unread or the bytes end. It is a function of its
    /// own, so that the reads stay short.
    #[cold]
    #[inline(never)]
    fn fill(&mut self)
        requires filled { IsFilled self.old }
        requires few { self.old.left < 32 }
        ensures filled { IsFilled self.new }
        ensures same { place_of self.new ≡ place_of self.old }
        ensures full { self.new.left < 32
            → loading self.new.zeros self.new.dropped self.new.rest.now ≡ None }
    {
        if !self.fill_four() {
            self.fill_each();
        }
    }

    /// Puts the next four bytes in at once, where none of them is 3, so none is dropped, and the
    /// last one isn't 0.
    #[inline(always)]
    fn fill_four(&mut self) -> bool
        requires filled { IsFilled self.old }
        requires few { self.old.left < 32 }
        ensures filled { IsFilled self.new }
        ensures same { place_of self.new ≡ place_of self.old }
        ensures full { result ≡ true → 32 ≤ self.new.left }
        ensures few { result ≡ false → self.new.left < 32 }
    {
        let bytes = self.rest;
        let &[first, second, third, fourth, ..] = bytes else {
            return false;
        };
        if first == 3 || second == 3 || third == 3 || fourth == 3 || fourth == 0 {
            return false;
        }
        let number = u32::from_be_bytes([first, second, third, fourth]);
        self.filled += 4;
        self.rest = &bytes[4..];
        self.zeros = 0;
        self.cache = (self.cache << 32) + u64::from(number);
        self.left += 32;
        self.most_ahead += 4;
        self.marks <<= 4;
        true
    }

    /// Puts payload bytes in one by one up to 32 bits.
    fn fill_each(&mut self)
        requires { IsFilled self.old }
        ensures filled { IsFilled self.new }
        ensures same { place_of self.new ≡ place_of self.old }
        ensures full { self.new.left < 32
            → loading self.new.zeros self.new.dropped self.new.rest.now ≡ None }
    {
        while self.left < 32 {
            let Some(next) = next_byte(self.zeros, self.dropped, self.rest) else {
                return;
            };
            self.push(next);
        }
    }

    /// Puts the next payload byte in.
    #[inline(always)]
    fn push(&mut self, next: Loaded<'a>)
        requires filled { IsFilled self.old }
        requires fits { self.old.left < 56 }
        requires loads { loading self.old.zeros self.old.dropped self.old.rest.now
            ≡ Some (loaded_place next) }
        requires small { next.zeros ≤ 2 }
        requires short { next.dropped + length next.behind.now < STREAM_LIMIT }
        ensures filled { IsFilled self.new }
        ensures same { place_of self.new ≡ place_of self.old }
        ensures more { self.new.left ≡ self.old.left + 8 }
    {
        let mark = (next.dropped - self.dropped) as u8;
        self.filled += 1;
        self.rest = next.behind;
        self.zeros = next.zeros;
        self.dropped = next.dropped;
        self.cache = (self.cache << 8) + u64::from(next.byte);
        self.left += 8;
        self.most_ahead += 1;
        self.marks = (self.marks << 1) + mark;
    }

    /// The next bits as a number.
    #[inline(always)]
    pub fn take(&mut self, num_bits: usize) -> u64
        requires filled { IsFilled self.old }
        requires held { num_bits ≤ self.old.left }
        ensures takes { Takes num_bits result self.old self.new }
        ensures bound { result < 2 ^ num_bits }
        ensures number { result ≡ (self.old.cache / 2 ^ (self.old.left - num_bits)) % 2 ^ num_bits }
    {
        self.left -= num_bits;
        (self.cache >> self.left) % (1 << num_bits)
    }

    /// The next Exp-Golomb number, where its bits are in the word and it has at most 30 zeros.
    #[inline(always)]
    pub fn take_golomb(&mut self) -> Option<u32>
        requires { IsFilled self.old }
        ensures { MatchOption result (self.new ≡ self.old) (λ v. TakesGolomb v self.old self.new) }
    {
        let zeros = self.zeros();
        if zeros > 30 || 2 * zeros + 1 > self.left {
            return None;
        }
        Some((self.take(2 * zeros + 1) - 1) as u32)
    }

    /// How many zeros are before the first one of the unread bits, all where they hold none.
    #[inline(always)]
    fn zeros(&self) -> usize
        requires { IsFilled self.now }
        ensures within { result ≤ self.now.left }
        ensures least { result < self.now.left
            → 2 ^ (self.now.left - 1 - result) ≤ self.now.cache % 2 ^ self.now.left }
        ensures most { result < self.now.left
            → self.now.cache % 2 ^ self.now.left < 2 ^ (self.now.left - result) }
    {
        let unread = self.cache % (1 << self.left);
        self.left + unread.leading_zeros() as usize - 64
    }

    /// Reaches the next byte, unless a bit of the one that is reached is unread. False where there
    /// is none.
    pub fn load(&mut self) -> bool
        requires { IsFilled self.old }
        ensures filled { IsFilled self.new }
        ensures loads { LoadsByte result (place_of self.old) (place_of self.new) }
    {
        if self.left > 8 * self.ahead() {
            return true;
        }
        if !self.has(1) {
            return false;
        }
        self.most_ahead = self.ahead() - 1;
        true
    }

    /// How many bytes of the word aren't reached yet.
    #[inline(always)]
    fn ahead(&self) -> usize
        ensures { result ≡ ahead self.now }
    {
        self.most_ahead.min(self.left / 8)
    }

    /// How many bits of the byte that is reached are unread.
    pub fn unread(&self) -> usize
        requires { IsFilled self.now }
        ensures value { result ≡ self.now.left - 8 * ahead self.now }
        ensures small { result ≤ 8 }
    {
        self.left - 8 * self.ahead()
    }

    /// How many 03 were dropped between the byte that is reached and the last one in the word.
    fn marked(&self) -> usize
        requires { IsFilled self.now }
        ensures { result ≡ marked self.now }
    {
        (self.marks % (1 << self.ahead())).count_ones() as usize
    }

    /// How many 03 were dropped up to the byte that is reached.
    pub fn dropped(&self) -> usize
        requires { IsFilled self.now }
        ensures value { result ≡ (place_of self.now).dropped }
        ensures small { result < STREAM_LIMIT }
    {
        self.dropped - self.marked()
    }

    /// The bytes after the one that is reached.
    pub fn behind(&self) -> &'a [u8]
        requires { IsFilled self.now }
        ensures value { result.now ≡ (place_of self.now).behind }
        ensures short { length result.now < STREAM_LIMIT }
    {
        let count = self.rest.len() + self.ahead() + self.marked();
        &self.bytes[self.bytes.len() - count..]
    }

    /// The bytes up to the one that is reached as a number, that one lowest.
    pub fn reached(&self) -> u64
        requires { IsFilled self.now }
        ensures { result ≡ self.now.cache / 2 ^ (8 * ahead self.now) }
    {
        self.cache >> (8 * self.ahead())
    }

    /// Passes all bytes after the one that is reached.
    pub fn pass_bytes(&mut self)
        requires { IsFilled self.old }
        ensures filled { IsFilled self.new }
        ensures passes { PassesBytes (place_of self.old) (place_of self.new) }
    {
        let dropped = self.dropped();
        *self = Word {
            bytes: &[],
            before: dropped,
            filled: 0,
            rest: &[],
            zeros: 0,
            dropped,
            cache: self.reached(),
            left: self.unread(),
            most_ahead: 0,
            marks: 0,
        };
    }
}
