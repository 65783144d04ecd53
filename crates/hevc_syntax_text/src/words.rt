//! What the words of the command line ask for.
ghost use Rattle.std.specs.Prelude.{◌≡◌};
ghost use Rattle.std.specs.Str.{bytes_eq};
ghost use Rattle.hevc_spec.specs.UnitHeader.{nal_unit_type};
ghost use Rattle.hevc_syntax_text.specs.Requests.{asked_request, chosen_by, is_chosen, number_word};

use hevc_element_lines::Style;
use hevc_io::Word;

/// Which units are told.
#[derive(Clone, Copy, PartialEq, Eq)]
pub enum Chosen {
    All,
    /// Those of a nal_unit_type.
    OfType(u64),
    /// Those from one number to another, from 0.
    Between(u64, u64),
}

/// What is asked for.
#[derive(Clone, Copy, PartialEq, Eq)]
pub struct Request {
    pub style: Style,
    pub chosen: Chosen,
}

/// What the words ask for: `json` or not, and then `type N`, `unit A B` or nothing. None where they
/// are other words.
pub(crate) fn read_request(words: &[Word]) -> Option<Request>
    ensures { result ≡ asked_request words.now }
{
    let Some((first, rest)) = words.split_first() else {
        return Some(Request {
            style: Style::Words,
            chosen: Chosen::All,
        });
    };
    if is_text(first, "json") {
        let chosen = read_chosen(rest)?;
        Some(Request {
            style: Style::Json,
            chosen,
        })
    } else {
        let chosen = read_chosen(words)?;
        Some(Request {
            style: Style::Words,
            chosen,
        })
    }
}

/// Which units words choose.
fn read_chosen(words: &[Word]) -> Option<Chosen>
    ensures { result ≡ chosen_by words.now }
{
    match words {
        [] => Some(Chosen::All),
        [word, number] => {
            if !is_text(word, "type") {
                return None;
            }
            Some(Chosen::OfType(read_number(number.as_bytes())?))
        }
        [word, first, last] => {
            if !is_text(word, "unit") {
                return None;
            }
            let first = read_number(first.as_bytes())?;
            Some(Chosen::Between(first, read_number(last.as_bytes())?))
        }
        _ => None,
    }
}

/// Whether a word is this text.
fn is_text(word: &Word, text: &str) -> bool
    ensures { result ≡ bytes_eq word.now text.now }
{
    word.as_bytes() == text.as_bytes()
}

/// The number up to 2^64 - 1 that decimal digits spell.
fn read_number(digits: &[u8]) -> Option<u64>
    ensures { result ≡ number_word digits.now }
{
    if digits.is_empty() {
        return None;
    }
    let mut number: u64 = 0;
    for digit in digits {
        let b'0'..=b'9' = *digit else {
            return None;
        };
        let tens = number.checked_mul(10)?;
        number = tens.checked_add((*digit - b'0') as u64)?;
    }
    Some(number)
}

impl Chosen {
    /// Whether the unit of a number and of these bytes is among those that are chosen.
    pub(crate) fn has(self, number: u64, unit: &[u8]) -> bool
        ensures { result ≡ is_chosen self number unit.now }
    {
        match self {
            Chosen::All => true,
            Chosen::OfType(chosen) => type_of(unit) == chosen,
            Chosen::Between(first, last) => first <= number && number <= last,
        }
    }
}

/// The nal_unit_type that bytes begin with, and 0 for no bytes.
fn type_of(unit: &[u8]) -> u64
    ensures { result ≡ nal_unit_type unit.now }
{
    match unit {
        [] => 0,
        [first, ..] => u64::from(*first / 2 % 64),
    }
}
