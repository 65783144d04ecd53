//! The words of the command line.
ghost use Rattle.std.specs.Prelude.{◌≡◌, ◌≤◌, ◌<◌, ◌-◌, ◌^◌, ℕ, List, All, IfOk, IfSome, IsErrOf};
ghost use Rattle.std.specs.Prelude.{length, slice_get};
ghost use Rattle.std.specs.declared.option.Option.{Option};
ghost use Rattle.std.specs.declared.option.Option.TheVariants.{None, Some};
ghost use Rattle.std.specs.Io.{WritesAtMost};
ghost use Rattle.hevc_io.specs.Stops.{words_status_of};
ghost use Rattle.hevc_io.specs.Words.{AreTooMuch, HandsOver, IsLonger};

use crate::word::Word;
use std::alloc::{AllocError, Global};
use std::env::{Env, FillError};
use std::marker::Model;
use thiserror::Error;

/// How many bytes a word may have.
pub const LONGEST_WORD: usize = 2_097_152;

/// Why the words can't be had: there was no memory for them, or the system doesn't hand them over.
#[derive(Clone, Copy, Debug, PartialEq, Eq, Drop, Error)]
pub enum WordsError {
    #[error("no memory")]
    NoMemory,
    #[error("the system doesn't hand over the words of the command line")]
    Refused,
}

impl WordsError {
    /// The status of a program that has no words: 5 where there was no memory, 8 where the system
    /// doesn't hand them over.
    pub fn status(self) -> u8
        ensures { result ≡ words_status_of self }
    {
        match self {
            WordsError::NoMemory => 5,
            WordsError::Refused => 8,
        }
    }
}

impl From<AllocError> for WordsError {
    ghost use Rattle.hevc_io.specs.declared.words.WordsError.TheVariants.{NoMemory};

    ghost from_gives = { λ _ e. e ≡ NoMemory };

    fn from(_error: AllocError) -> WordsError {
        WordsError::NoMemory
    }
}

/// Something that hands over the words of a command line after the program's name.
pub trait Words {
    /// The words, where they are exposed.
    ghost told: { Self → Option (List (List ℕ)) };

    /// Puts the word with this number, from 0, at the front of `room`, and answers its length in
    /// bytes.
    ///
    /// `NotPresent` where there is no such word, `TooLong` where it has more bytes than `room`.
    fn word(&self, number: usize, room: &mut [u8]) -> Result<usize, FillError>
        requires { number < 2 ^ 64 - 1 }
        ensures bound { WritesAtMost result room.new }
        ensures word { IfSome (told self.now)
            (λ words. HandsOver (slice_get words number) result room.new) };
}

/// The words that a system hands over. It exposes none of them.
#[derive(Drop)]
pub struct StdWords<'a, E: Env> {
    pub system: &'a E,
}

impl<E: Env> Words for StdWords<'_, E> {
    ghost told = { λ _. None };

    fn word(&self, number: usize, room: &mut [u8]) -> Result<usize, FillError> {
        self.system.arg(number + 1, room)
    }
}

/// Words that are known.
#[derive(Drop)]
pub struct MemoryWords {
    words: Vec<Word>,
}

impl Model for MemoryWords {
    ghost Value = { List (List ℕ) };

    ghost view = { λ words. words.words.items };
}

impl MemoryWords {
    /// These words.
    pub fn new(words: Vec<Word>) -> MemoryWords
        ensures { result ≡ words.items }
    {
        MemoryWords { words }
    }
}

impl Words for MemoryWords {
    ghost told = { λ words. Some words };

    fn word(&self, number: usize, room: &mut [u8]) -> Result<usize, FillError> {
        let Some(word) = self.words.get(number) else {
            return Err(FillError::NotPresent);
        };
        let bytes = word.as_bytes();
        if room.len() < bytes.len() {
            return Err(FillError::TooLong);
        }
        room[..bytes.len()].copy_from_slice(bytes);
        Ok(bytes.len())
    }
}

/// The words of a command line, each of at most 2 MiB.
///
/// `NoMemory` where there is no memory for them; `Refused` where one is longer, or they are more
/// than can be numbered.
pub fn command_line<W: Words>(line: &W, alloc: Global) -> Result<Vec<Word>, WordsError>
    ensures short { IfOk result (λ words. All (λ word. length word ≤ LONGEST_WORD) words.items) }
    ensures words { IfOk result (λ words. IfSome (W.told line.now) (λ told. words.items ≡ told)) }
    ensures refused { IsErrOf result WordsError.Refused
        → IfSome (W.told line.now) (λ told. AreTooMuch LONGEST_WORD told) }
{
    let mut words = Vec::new(alloc);
    for number in 0..usize::MAX {
        let Some(word) = word_at(line, alloc, number)? else {
            return Ok(words);
        };
        if words.push(word).is_err() {
            return Err(WordsError::NoMemory);
        }
    }
    Err(WordsError::Refused)
}

/// The word with this number, or none after the last. The room for it is doubled until it fits.
fn word_at<W: Words>(line: &W, alloc: Global, number: usize) -> Result<Option<Word>, WordsError>
    requires { number < 2 ^ 64 - 1 }
    ensures short { IfOk result (λ found. IfSome found (λ word. length word ≤ LONGEST_WORD)) }
    ensures found { IfOk result
        (λ found. IfSome (W.told line.now) (λ told. found ≡ slice_get told number)) }
    ensures refused { IsErrOf result WordsError.Refused
        → IfSome (W.told line.now) (λ told. IsLonger LONGEST_WORD told number) }
{
    for doublings in 0..16u32 {
        let mut bytes = vec![in alloc; 0u8; 64usize << doublings]?;
        match line.word(number, &mut bytes) {
            Ok(length) => {
                bytes.truncate(length);
                return Ok(Some(Word::new(bytes)));
            }
            Err(FillError::NotPresent) => return Ok(None),
            Err(FillError::TooLong) => {}
        }
    }
    Err(WordsError::Refused)
}
