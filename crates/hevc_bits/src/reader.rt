//! A reader of payload bits.

ghost use Rattle.std.specs.Prelude.{◌≡◌, ℕ, ◌+◌, ◌*◌, ◌≤◌, ◌≤ℤ◌, ◌<◌, ◌^◌, List, Bool, false, not};
ghost use Rattle.std.specs.Prelude.{◌==◌, ◌++◌, [], length, take, IfOk, IfSome, Ok, Err};
ghost use Rattle.hevc_spec.specs.Payload.{Place, bits, payload_bits, first_place, bits_left};
ghost use Rattle.hevc_spec.specs.Payload.{with_bits, has_more, low_bits, IsAhead, IsReached};
ghost use Rattle.std.specs.List.{list_any};
ghost use Rattle.hevc_spec.specs.Bits.{u, skip, ue, number, IsSpelled, IsAtFront, bits_at};
ghost use Rattle.hevc_spec.specs.Bits.{bits_after, golomb_at, ue_at, within, in_range};
ghost use Rattle.hevc_spec.specs.Bits.{in_signed_range, signed as signed_of};
ghost use Rattle.hevc_bits.specs.Reading.{TakesBit, Finds, FindsSigned, LooksForMore, MayFind};
ghost use Rattle.hevc_bits.specs.Reading.{IsHeld, PassesZeros};
ghost use Rattle.hevc_bits.specs.declared.stream_limit.TheConstants.{STREAM_LIMIT};

use crate::bit_error::BitError;
use crate::word::Word;
use std::marker::Model;

/// A reader of the payload bits of a byte slice: its bits, most significant first, without each 03
/// that is directly after two zero bytes (7.3.1.1). A read that is refused doesn't move the reader.
#[derive(Drop)]
pub struct NaluReader<'a> {
    word: Word<'a>,
}

impl<'a> Model for NaluReader<'a> {
    ghost use Rattle.hevc_spec.specs.Payload.{Place};
    ghost use Rattle.hevc_bits.specs.Cached.{place_of, IsFilled};

    ghost Value = { Place };

    ghost view = { λ r. place_of r.word };

    ghost invariant = { λ r. IsFilled r.word };
}

impl<'a> NaluReader<'a> {
    /// A reader at the first payload bit of the bytes after a unit's header.
    pub fn new(bytes: &'a [u8]) -> NaluReader<'a>
        requires { length bytes.now < STREAM_LIMIT }
        ensures place { result ≡ first_place bytes.now }
        ensures payload { bits result ≡ payload_bits 0 bytes.now }
    {
        NaluReader {
            word: Word::new(bytes),
        }
    }

    /// An equal reader at the same place.
    pub fn fork(&self) -> NaluReader<'a>
        ensures { result ≡ self.now }
    {
        NaluReader { word: self.word }
    }

    /// How many bits are left: eight for each byte after the one being read, a 03 that isn't passed
    /// yet among them, and the unread bits of that one.
    #[tactic(auto, unfolding(hevc_spec::specs::Payload::bits_left))]
    pub fn num_bits_left(&self) -> usize
        ensures value { result ≡ bits_left self.now }
        ensures small { result < 2 ^ 63 + 9 }
    {
        8 * self.word.behind().len() + self.word.unread()
    }

    /// How many 03 bytes were dropped so far.
    pub fn num_epb(&self) -> usize
        ensures value { result ≡ self.now.dropped }
        ensures small { result < STREAM_LIMIT }
    {
        self.word.dropped()
    }

    /// The next payload bit. `OutOfBits` where there is none.
    pub fn read_bit(&mut self) -> Result<bool, BitError>
        ensures read { TakesBit result self.old self.new }
        ensures moves { IsAhead self.old self.new }
        ensures place { IsReached self.old self.new }
    {
        if !self.word.has(1) {
            return Err(BitError::OutOfBits);
        }
        Ok(self.word.take(1) == 1)
    }

    /// The next `num_bits` bits as a number, the most significant first; no bits give 0.
    /// `OutOfRange` for more than 31 bits, else `OutOfBits` where fewer are left.
    #[tactic(auto, using(crate::proofs::Steps::front_found, crate::proofs::Steps::front_bound), unfolding(hevc_spec::specs::Bits::bits_at))]
    pub fn read_bits(&mut self, num_bits: usize) -> Result<u32, BitError>
        ensures too_many { 31 < num_bits
            → (result ≡ Err BitError.OutOfRange) × (self.new ≡ self.old) }
        ensures read { num_bits ≤ 31
            → Finds (λ n. n) result self.old self.new (bits_at num_bits (bits self.old)) }
        ensures moves { IsAhead self.old self.new }
        ensures place { IsReached self.old self.new }
        // The bits that are read are the payload's next ones, in order.
        ensures in_order { IfOk result
            (λ n. IsAtFront (u num_bits) n (bits self.old) (bits self.new)) }
        ensures bound { IfOk result (λ n. n < 2 ^ num_bits) }
    {
        if num_bits > 31 {
            return Err(BitError::OutOfRange);
        }
        self.read_behind(0, num_bits)
    }

    /// The same of at most 31 bits, `OutOfRange` below `min` and above `max` too.
    pub fn read_bits_bounded(
        &mut self,
        num_bits: usize,
        min: u32,
        max: u32,
    ) -> Result<u32, BitError>
        requires { num_bits ≤ 31 }
        ensures read { Finds (λ n. n) result self.old self.new
            (within (in_range min max) (bits_at num_bits (bits self.old))) }
        ensures moves { IsAhead self.old self.new }
        ensures place { IsReached self.old self.new }
        ensures bounds { IfOk result (λ n. (min ≤ n) × (n ≤ max)) }
    {
        self.fill();
        let Some((value, ahead)) = self.held_bits(num_bits) else {
            return self.read_any_bits_bounded(num_bits, min, max);
        };
        if value < min || value > max {
            return Err(BitError::OutOfRange);
        }
        *self = ahead;
        Ok(value)
    }

    /// Passes the next `num_bits` bits over. `OutOfBits` where fewer are left.
    pub fn skip_bits(&mut self, num_bits: usize) -> Result<(), BitError>
        ensures read { Finds (λ _. number (take num_bits (bits self.old))) result self.old self.new
            (bits_at num_bits (bits self.old)) }
        ensures moves { IsAhead self.old self.new }
        ensures place { IsReached self.old self.new }
        // The bits that are passed over are the payload's next ones.
        ensures in_order { IfOk result
            (λ _. (passed : List Bool) × (bits self.old ≡ passed ++ bits self.new)
            × (length passed ≡ num_bits)) }
    {
        if num_bits <= 31 {
            self.read_bits(num_bits)?;
            return Ok(());
        }
        let mut ahead = self.fork();
        for _ in 0..num_bits / 31 {
            ahead.read_bits(31)?;
        }
        ahead.read_bits(num_bits % 31)?;
        *self = ahead;
        Ok(())
    }

    /// The next Exp-Golomb number, ue(v) (9.2), 0 to 2147483647. `OutOfRange` for a greater one and
    /// at 32 zero bits, whatever follows; else `OutOfBits` where the payload ends before the number
    /// does.
    pub fn read_ue(&mut self) -> Result<u32, BitError>
        ensures read { Finds (λ n. n) result self.old self.new (ue_at (bits self.old)) }
        ensures moves { IsAhead self.old self.new }
        ensures place { IsReached self.old self.new }
        ensures bound { IfOk result (λ n. n ≤ 2147483647) }
        // The number that is read is the one whose spelling is there, and such a number is read.
        ensures spelled { IfOk result (λ n. IsAtFront ue n (bits self.old) (bits self.new)) }
        ensures only { (n : ℕ) (rest : List Bool) → IsAtFront ue n (bits self.old) rest
            → n ≤ 2147483647 → (result ≡ Ok n) × (bits self.new ≡ rest) }
        // No spelling is a prefix of another, and none has two values.
        ensures prefix_free { (n m : ℕ) (spelling more : List Bool) → IsSpelled ue n spelling
            → IsSpelled ue m (spelling ++ more) → (n ≡ m) × (more ≡ []) }
    {
        self.read_exp_golomb()
    }

    /// The same, `OutOfRange` above `max` too.
    pub fn read_ue_max(&mut self, max: u32) -> Result<u32, BitError>
        ensures read { Finds (λ n. n) result self.old self.new
            (within (in_range 0 max) (ue_at (bits self.old))) }
        ensures moves { IsAhead self.old self.new }
        ensures place { IsReached self.old self.new }
        ensures bound { IfOk result (λ n. n ≤ max) }
    {
        self.read_ue_bounded(0, max)
    }

    /// The same, `OutOfRange` below `min` and above `max` too.
    pub fn read_ue_bounded(&mut self, min: u32, max: u32) -> Result<u32, BitError>
        ensures read { Finds (λ n. n) result self.old self.new
            (within (in_range min max) (ue_at (bits self.old))) }
        ensures moves { IsAhead self.old self.new }
        ensures place { IsReached self.old self.new }
        ensures bounds { IfOk result (λ n. (min ≤ n) × (n ≤ max)) }
    {
        self.fill();
        let Some((value, ahead)) = self.held_golomb() else {
            return self.read_any_ue_bounded(min, max);
        };
        if value < min || value > max {
            return Err(BitError::OutOfRange);
        }
        *self = ahead;
        Ok(value)
    }

    /// The next signed Exp-Golomb number, se(v) (9.2.2): that of the Exp-Golomb number at which it
    /// is, refused as that is.
    pub fn read_se(&mut self) -> Result<i32, BitError>
        ensures read { FindsSigned result self.old self.new (ue_at (bits self.old)) }
        ensures moves { IsAhead self.old self.new }
        ensures place { IsReached self.old self.new }
    {
        Ok(signed(self.read_ue()?))
    }

    /// The same, `OutOfRange` below `min` and above `max` too.
    pub fn read_se_bounded(&mut self, min: i32, max: i32) -> Result<i32, BitError>
        ensures read { FindsSigned result self.old self.new
            (within (in_signed_range min max) (ue_at (bits self.old))) }
        ensures moves { IsAhead self.old self.new }
        ensures place { IsReached self.old self.new }
        ensures bounds { IfOk result (λ n. (min ≤ℤ n) × (n ≤ℤ max)) }
    {
        self.fill();
        let Some((number, ahead)) = self.held_golomb() else {
            return self.read_any_se_bounded(min, max);
        };
        let value = signed(number);
        if value < min || value > max {
            return Err(BitError::OutOfRange);
        }
        *self = ahead;
        Ok(value)
    }

    /// Has the word hold 32 bits, or all that are left.
    #[inline(always)]
    fn fill(&mut self)
        ensures { self.new ≡ self.old }
    {
        self.word.has(32);
    }

    /// The next bits as a number, and a reader after them, where they are in the word.
    #[inline(always)]
    fn held_bits(&self, num_bits: usize) -> Option<(u32, NaluReader<'a>)>
        requires { num_bits ≤ 31 }
        ensures { IsHeld result self.now (bits_at num_bits (bits self.now)) }
    {
        let mut word = self.word;
        if num_bits > word.left {
            return None;
        }
        let value = word.take(num_bits) as u32;
        Some((value, NaluReader { word }))
    }

    /// The next Exp-Golomb number, and a reader after it, where its bits are in the word.
    #[inline(always)]
    fn held_golomb(&self) -> Option<(u32, NaluReader<'a>)>
        ensures read { IsHeld result self.now (ue_at (bits self.now)) }
        ensures bound { IfSome result (λ held. held.0 ≤ 2147483647) }
    {
        let mut word = self.word;
        let value = word.take_golomb()?;
        Some((value, NaluReader { word }))
    }

    /// `read_bits_bounded` of any bits.
    #[cold]
    #[inline(never)]
    fn read_any_bits_bounded(
        &mut self,
        num_bits: usize,
        min: u32,
        max: u32,
    ) -> Result<u32, BitError>
        requires { num_bits ≤ 31 }
        ensures read { Finds (λ n. n) result self.old self.new
            (within (in_range min max) (bits_at num_bits (bits self.old))) }
        ensures moves { IsAhead self.old self.new }
        ensures place { IsReached self.old self.new }
        ensures bounds { IfOk result (λ n. (min ≤ n) × (n ≤ max)) }
    {
        let mut ahead = self.fork();
        let value = ahead.read_bits(num_bits)?;
        if value < min || value > max {
            return Err(BitError::OutOfRange);
        }
        *self = ahead;
        Ok(value)
    }

    /// `read_ue_bounded` of any number.
    #[cold]
    #[inline(never)]
    fn read_any_ue_bounded(&mut self, min: u32, max: u32) -> Result<u32, BitError>
        ensures read { Finds (λ n. n) result self.old self.new
            (within (in_range min max) (ue_at (bits self.old))) }
        ensures moves { IsAhead self.old self.new }
        ensures place { IsReached self.old self.new }
        ensures bounds { IfOk result (λ n. (min ≤ n) × (n ≤ max)) }
    {
        let mut ahead = self.fork();
        let value = ahead.read_any_golomb()?;
        if value < min || value > max {
            return Err(BitError::OutOfRange);
        }
        *self = ahead;
        Ok(value)
    }

    /// `read_se_bounded` of any number.
    #[cold]
    #[inline(never)]
    fn read_any_se_bounded(&mut self, min: i32, max: i32) -> Result<i32, BitError>
        ensures read { FindsSigned result self.old self.new
            (within (in_signed_range min max) (ue_at (bits self.old))) }
        ensures moves { IsAhead self.old self.new }
        ensures place { IsReached self.old self.new }
        ensures bounds { IfOk result (λ n. (min ≤ℤ n) × (n ≤ℤ max)) }
    {
        let mut ahead = self.fork();
        let value = signed(ahead.read_any_golomb()?);
        if value < min || value > max {
            return Err(BitError::OutOfRange);
        }
        *self = ahead;
        Ok(value)
    }

    /// Whether more payload comes after the next bit (7.2, `more_rbsp_data`): a one after it in its
    /// byte, or any byte after that which isn't 0, a 03 too. Where no bit of a loaded byte is left,
    /// the next byte is loaded first; with none to load the answer is false and nothing changes.
    /// Where no more is there, the reader passes the zero bytes.
    pub fn has_more_rsbp_data(&mut self) -> bool
        ensures { LooksForMore result self.old self.new (with_bits self.old) }
    {
        if !self.word.load() {
            return false;
        }
        if self.holds_more() {
            return true;
        }
        self.word.pass_bytes();
        false
    }

    /// Whether the loaded byte has a one after its next bit, or a byte that isn't 0 follows it.
    fn holds_more(&self) -> bool
        requires { 0 < length self.now.loaded }
        ensures { result ≡ has_more self.now }
    {
        holds_one(self.word.reached(), self.word.unread() - 1) || holds_nonzero(self.word.behind())
    }

    /// So many bits after the number `front`, which is 0 or the first one of an Exp-Golomb number.
    fn read_behind(&mut self, front: u32, num_bits: usize) -> Result<u32, BitError>
        requires front { front ≤ 1 }
        requires fits { num_bits ≤ 31 }
        ensures read { Finds (λ n. n) result self.old self.new
            (bits_after front num_bits (bits self.old)) }
        ensures moves { IsAhead self.old self.new }
        ensures place { IsReached self.old self.new }
    {
        if !self.word.has(num_bits) {
            return Err(BitError::OutOfBits);
        }
        Ok((front << num_bits) + self.word.take(num_bits) as u32)
    }

    /// Passes the zeros of an Exp-Golomb number and its first one, and counts the zeros.
    #[tactic(auto, using(crate::proofs::Steps::golomb_start, crate::proofs::Steps::golomb_more, crate::proofs::Steps::golomb_end, crate::proofs::Steps::golomb_one))]
    fn pass_zeros(&mut self) -> Result<usize, BitError>
        ensures read { PassesZeros result self.old self.new (golomb_at (bits self.old)) }
        ensures moves { IsAhead self.old self.new }
        ensures place { IsReached self.old self.new }
    {
        let mut ahead = self.fork();
        let mut zeros = 0;
        while !ahead.read_bit()? {
            if zeros == 31 {
                return Err(BitError::OutOfRange);
            }
            zeros += 1;
        }
        *self = ahead;
        Ok(zeros)
    }

    /// The next Exp-Golomb number, up to 2147483647.
    fn read_exp_golomb(&mut self) -> Result<u32, BitError>
        ensures read { Finds (λ n. n) result self.old self.new (ue_at (bits self.old)) }
        ensures moves { IsAhead self.old self.new }
        ensures place { IsReached self.old self.new }
        ensures bound { IfOk result (λ n. n ≤ 2147483647) }
    {
        if let Some(value) = self.read_held_golomb() {
            return Ok(value);
        }
        self.read_any_golomb()
    }

    /// The same, where its bits are in the word, as those of a number of up to 15 zeros are.
    fn read_held_golomb(&mut self) -> Option<u32>
        ensures { MayFind result self.old self.new (ue_at (bits self.old)) }
    {
        self.word.has(32);
        self.word.take_golomb()
    }

    /// The same, zeros and bits apart.
    #[cold]
    #[inline(never)]
    #[tactic(auto, using(crate::proofs::Steps::bits_least), unfolding(hevc_spec::specs::Bits::ue_at))]
    fn read_any_golomb(&mut self) -> Result<u32, BitError>
        ensures read { Finds (λ n. n) result self.old self.new (ue_at (bits self.old)) }
        ensures moves { IsAhead self.old self.new }
        ensures place { IsReached self.old self.new }
        ensures bound { IfOk result (λ n. n ≤ 2147483647) }
    {
        let mut ahead = self.fork();
        let zeros = ahead.pass_zeros()?;
        let value = ahead.read_behind(1, zeros)? - 1;
        if value > 2147483647 {
            return Err(BitError::OutOfRange);
        }
        *self = ahead;
        Ok(value)
    }
}

/// Whether one of the low `count` bits is 1.
fn holds_one(number: u64, count: usize) -> bool
    requires { count < 8 }
    ensures { result ≡ list_any (λ b. b) (low_bits count number) }
{
    number % (1 << count) != 0
}

/// Whether a byte isn't 0.
fn holds_nonzero(bytes: &[u8]) -> bool
    ensures { result ≡ list_any (λ byte. not (byte == 0)) bytes.now }
{
    bytes.iter().any(|&byte| byte != 0)
}

/// The signed number of an Exp-Golomb number (table 9-3).
fn signed(number: u32) -> i32
    requires { number < 2 ^ 31 }
    ensures { result ≡ signed_of number }
{
    if number % 2 == 1 {
        (number / 2 + 1) as i32
    } else {
        -((number / 2) as i32)
    }
}
