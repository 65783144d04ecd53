//! The first bytes of an input.
use arrayvec::ArrayVec;
use hevc_io::{Failed, Source};

/// A source that remembers the first 64 bytes that pass.
#[derive(Drop)]
pub(crate) struct HeadSource<S: Source> {
    source: S,
    head: ArrayVec<u8, 64>,
}

impl<S: Source> HeadSource<S> {
    /// A source over another, of which nothing has passed yet.
    pub(crate) fn new(source: S) -> HeadSource<S> {
        HeadSource {
            source,
            head: ArrayVec::new(),
        }
    }

    /// The first bytes that passed, at most 64.
    pub(crate) fn head(&self) -> &[u8] {
        self.head.as_slice()
    }
}

impl<S: Source> Source for HeadSource<S> {
    ghost left = { λ source. S.left source.source };

    ghost faults = { λ source. S.faults source.source };

    fn read(&mut self, buf: &mut [u8]) -> Result<usize, Failed> {
        let count = self.source.read(buf)?;
        let room = self.head.remaining_capacity().min(count);
        let _ = self.head.try_extend_from_slice(&buf[..room]);
        Ok(count)
    }
}
