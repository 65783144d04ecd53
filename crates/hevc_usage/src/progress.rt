//! How far long work is.
use hevc_io::{Failed, Source};
use std::env::{self, Env};
use std::time::{Clock, Duration, Instant};

/// Its name in the environment: with any value the progress is told, each time on a line of its own.
const VARIABLE: &str = "FEZHALUM_PROGRESS";

/// How many milliseconds pass at least between two times at which it is told.
const PAUSE: u64 = 500;

/// How the progress is told.
#[derive(Clone, Copy, PartialEq, Eq, Drop)]
pub(crate) enum Telling {
    /// It isn't.
    Never,
    /// On one line of a terminal, which is written over.
    InPlace,
    /// On a line each time.
    ByLine,
}

impl Telling {
    /// As the environment asks for it; else where standard error is a terminal.
    pub(crate) fn by<R: Env + Alloc>(runtime: &R, is_terminal: bool) -> Telling {
        if env::var(runtime, VARIABLE).is_ok() {
            Telling::ByLine
        } else if is_terminal {
            Telling::InPlace
        } else {
            Telling::Never
        }
    }
}

/// The bytes that passed, and the pictures among them.
#[derive(Clone, Copy, Drop)]
struct Passed {
    bytes: u64,
    pictures: u64,
    /// The last five bytes.
    last: u64,
}

impl Passed {
    /// The same with one more piece. A picture begins with each slice segment whose first payload
    /// bit is set (7.3.6.1).
    fn take(&mut self, piece: &[u8]) {
        for byte in piece {
            if *byte >= 0x80 && is_slice_header(self.last) {
                self.pictures = self.pictures.saturating_add(1);
            }
            self.last = (self.last & 0xff_ffff_ffff) << 8 | u64::from(*byte);
        }
        self.bytes = self.bytes.saturating_add(piece.len() as u64);
    }
}

/// Whether these five bytes are a start code and the header of a slice segment, whose type is below
/// 32 (Table 7-1).
fn is_slice_header(bytes: u64) -> bool {
    bytes >> 16 & 0xff_ffff == 1 && bytes >> 8 & 0x80 == 0 && bytes >> 9 & 0x3f < 32
}

/// How far a program is, and when it told so.
#[derive(Drop)]
struct Progress<'a, R> {
    runtime: &'a R,
    name: &'static str,
    telling: Telling,
    passed: Passed,
    /// When it was told last, or reading began; None where it isn't told, or no clock is there.
    told: Option<Instant>,
    is_begun: bool,
}

impl<'a, R: Clock + Eprint> Progress<'a, R> {
    fn new(runtime: &'a R, name: &'static str, telling: Telling) -> Progress<'a, R> {
        let told = match telling {
            Telling::Never => None,
            Telling::InPlace | Telling::ByLine => Instant::now(runtime).ok(),
        };
        Progress {
            runtime,
            name,
            telling,
            passed: Passed {
                bytes: 0,
                pictures: 0,
                last: 0,
            },
            told,
            is_begun: false,
        }
    }

    /// One more piece passed. It is told where it is to be, and it is time.
    fn take(&mut self, piece: &[u8]) {
        let Some(told) = self.told else {
            return;
        };
        self.passed.take(piece);
        let Ok(now) = Instant::now(self.runtime) else {
            return;
        };
        if now.saturating_duration_since(told) >= Duration::from_millis(PAUSE) {
            self.told = Some(now);
            self.is_begun = true;
            self.write_line();
        }
    }

    /// Writes the line.
    fn write_line(&self) {
        let name = self.name;
        let megabytes = self.passed.bytes / 1_000_000;
        let pictures = self.passed.pictures;
        let _ = match self.telling {
            Telling::InPlace => {
                eprint!(self.runtime; "\r{name}: {megabytes} MB read, {pictures} pictures")
            }
            Telling::Never | Telling::ByLine => {
                eprintln!(self.runtime; "{name}: {megabytes} MB read, {pictures} pictures")
            }
        };
    }

    /// Leaves the line of a terminal, where one was written.
    fn finish(&self) {
        if self.is_begun && self.telling == Telling::InPlace {
            let _ = eprintln!(self.runtime);
        }
    }
}

/// A source that tells how much of it passed.
#[derive(Drop)]
pub(crate) struct ProgressSource<'a, S: Source, R> {
    source: S,
    progress: Progress<'a, R>,
}

impl<'a, S: Source, R: Clock + Eprint> ProgressSource<'a, S, R> {
    /// A source over another, of which nothing has passed yet.
    pub(crate) fn new(
        source: S,
        runtime: &'a R,
        name: &'static str,
        telling: Telling,
    ) -> ProgressSource<'a, S, R> {
        ProgressSource {
            source,
            progress: Progress::new(runtime, name, telling),
        }
    }

    /// The source that it reads.
    pub(crate) fn within(&self) -> &S {
        &self.source
    }

    /// No more is read.
    pub(crate) fn finish(&self) {
        self.progress.finish();
    }
}

impl<S: Source, R: Clock + Eprint> Source for ProgressSource<'_, S, R> {
    ghost left = { λ source. S.left source.source };

    ghost faults = { λ source. S.faults source.source };

    fn read(&mut self, buf: &mut [u8]) -> Result<usize, Failed> {
        let count = self.source.read(buf)?;
        self.progress.take(&buf[..count]);
        Ok(count)
    }
}
