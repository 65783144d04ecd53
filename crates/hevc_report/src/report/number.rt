//! Numbers in decimal digits.
ghost use Rattle.std.specs.Prelude.{◌≡◌, ◌++◌, ◌<◌, ◌≤◌, ◌+◌, decimal, OnOk};
ghost use Rattle.std.specs.Fmt.{signed_decimal};
ghost use Rattle.hevc_report.specs.Digits.{four_digits, two_digits};
ghost use Rattle.hevc_report.specs.Grows.{Grows};

use itoa::Buffer;
use std::alloc::AllocError;

/// The two digits of each number below 100.
static PAIRS: [u8; 200] = *b"\
    0001020304050607080910111213141516171819\
    2021222324252627282930313233343536373839\
    4041424344454647484950515253545556575859\
    6061626364656667686970717273747576777879\
    8081828384858687888990919293949596979899";

/// Adds a number. Most addresses, types and order counts are short.
#[inline(always)]
pub(crate) fn push_number(text: &mut Vec<u8>, number: u64) -> Result<(), AllocError>
    ensures ok { OnOk result (text.new.items ≡ text.old.items ++ decimal number) }
    ensures grows { Grows text.old.items text.new.items }
{
    if number < 100 {
        push_short(text, number)
    } else if number < 10_000 {
        push_middle(text, number)
    } else if number < 1_000_000 {
        push_long(text, number)
    } else {
        push_any(text, number)
    }
}

/// Adds a number of one or two digits.
#[inline(always)]
#[tactic(auto, using(std::proofs::lemmas::Fmt::decimal_digit, crate::proofs::Digits::of_two))]
fn push_short(text: &mut Vec<u8>, number: u64) -> Result<(), AllocError>
    requires { number < 100 }
    ensures ok { OnOk result (text.new.items ≡ text.old.items ++ decimal number) }
    ensures grows { Grows text.old.items text.new.items }
{
    if number < 10 {
        text.extend_from_slice(&[digit(number)])
    } else {
        text.extend_from_slice(&two_digits(number))
    }
}

/// Adds a number of three or four digits.
#[inline(always)]
#[tactic(auto, using(crate::proofs::Digits::of_three, crate::proofs::Digits::of_four))]
fn push_middle(text: &mut Vec<u8>, number: u64) -> Result<(), AllocError>
    requires { (100 ≤ number) × (number < 10000) }
    ensures ok { OnOk result (text.new.items ≡ text.old.items ++ decimal number) }
    ensures grows { Grows text.old.items text.new.items }
{
    if number < 1000 {
        let [tens, ones] = two_digits(number % 100);
        text.extend_from_slice(&[digit(number / 100), tens, ones])
    } else {
        text.extend_from_slice(&four_digits(number))
    }
}

/// Adds a number of five or six digits.
#[inline(always)]
#[tactic(auto, using(crate::proofs::Digits::of_five, crate::proofs::Digits::of_six))]
fn push_long(text: &mut Vec<u8>, number: u64) -> Result<(), AllocError>
    requires { (10000 ≤ number) × (number < 1000000) }
    ensures ok { OnOk result (text.new.items ≡ text.old.items ++ decimal number) }
    ensures grows { Grows text.old.items text.new.items }
{
    let front = number / 10_000;
    let [thousands, hundreds, tens, ones] = four_digits(number % 10_000);
    if front < 10 {
        text.extend_from_slice(&[digit(front), thousands, hundreds, tens, ones])
    } else {
        let [first, second] = two_digits(front);
        text.extend_from_slice(&[first, second, thousands, hundreds, tens, ones])
    }
}

/// Adds a number of any length.
#[inline(never)]
fn push_any(text: &mut Vec<u8>, number: u64) -> Result<(), AllocError>
    ensures ok { OnOk result (text.new.items ≡ text.old.items ++ decimal number) }
    ensures grows { Grows text.old.items text.new.items }
{
    text.extend_from_slice(Buffer::new().format(number).as_bytes())
}

/// A digit.
#[inline(always)]
fn digit(number: u64) -> u8
    requires { number < 10 }
    ensures { result ≡ 48 + number }
{
    b'0' + number as u8
}

/// Two digits, the first of which may be 0.
#[inline(always)]
fn two_digits(number: u64) -> [u8; 2]
    requires { number < 100 }
    ensures { result ≡ two_digits number }
{
    let first = number as usize * 2;
    [PAIRS[first], PAIRS[first + 1]]
}

/// Four digits, the first of which may be 0.
#[inline(always)]
fn four_digits(number: u64) -> [u8; 4]
    requires { number < 10000 }
    ensures { result ≡ four_digits number }
{
    let [thousands, hundreds] = two_digits(number / 100);
    let [tens, ones] = two_digits(number % 100);
    [thousands, hundreds, tens, ones]
}

/// Adds a number that may be negative.
#[inline(always)]
pub(crate) fn push_signed(text: &mut Vec<u8>, number: i32) -> Result<(), AllocError>
    ensures ok { OnOk result (text.new.items ≡ text.old.items ++ signed_decimal number) }
    ensures grows { Grows text.old.items text.new.items }
{
    if number >= 0 {
        push_number(text, number as u64)
    } else {
        text.extend_from_slice(Buffer::new().format(number).as_bytes())
    }
}
