//! The words of a command line.
use crate::tests::expect::ok;
use hevc_io::Word;
use std::alloc::Global;
use std::process::Abort;

pub(crate) fn words_of(rt: &impl Abort, alloc: Global, texts: &[&str]) -> Vec<Word> {
    let mut words = Vec::new(alloc);
    for text in texts {
        let bytes = ok(rt, Vec::from_slice(alloc, text.as_bytes()));
        ok(rt, words.push(Word::new(bytes)));
    }
    words
}
