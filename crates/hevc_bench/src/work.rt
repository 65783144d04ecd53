//! What is measured.
ghost use Rattle.std.specs.Prelude.{◌≡◌};
ghost use Rattle.hevc_bench.specs.Words.{asked_work, work_of};

use hevc_io::Word;

/// What is measured: a stream is decoded, or cut into units alone, or read alone.
#[derive(Clone, Copy, Debug, PartialEq, Eq)]
pub enum Work {
    Decode,
    Cut,
    Read,
}

/// What the words ask for: no word to decode, `cut` to cut, `read` to read. None where they are other words.
pub(crate) fn read_work(words: &[Word]) -> Option<Work>
    ensures { result ≡ asked_work words.now }
{
    match words {
        [] => Some(Work::Decode),
        [word] => work_of(word),
        _ => None,
    }
}

/// What a word asks for.
fn work_of(word: &Word) -> Option<Work>
    ensures { result ≡ work_of word.now }
{
    if word.as_bytes() == b"cut".as_slice() {
        Some(Work::Cut)
    } else if word.as_bytes() == b"read".as_slice() {
        Some(Work::Read)
    } else {
        None
    }
}
