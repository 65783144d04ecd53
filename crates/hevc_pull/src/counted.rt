//! Pictures that were counted, and whose end wasn't told.
ghost use Rattle.std.specs.Prelude.{◌≡◌, map, not, option_copied};
ghost use Rattle.std.specs.List.{find};
ghost use Rattle.hevc_walk_units.specs.Units.{open_head};
ghost use Rattle.hevc_stateless.specs.Decoders.{view_of};
ghost use Rattle.hevc_pull.specs.Counting.{counted_after, counted_of, counted_with, first_ended};
ghost use Rattle.hevc_pull.specs.Counting.{has_ended, has_number, told_by, told_if_own, without};
ghost use Rattle.hevc_walk_frames.specs.Coming.{is_coming, is_open};

use hevc_events::{Event, Window, no_window};
use hevc_queue::QueueBackend;
use hevc_stateless::StatelessDecoder;

/// A picture that was counted.
#[derive(Clone, Copy, Drop)]
pub struct Counted {
    /// Its number.
    pub number: u64,
    /// The timestamp that came with its first slice.
    pub timestamp: u64,
    /// Whether it was told that it began.
    pub is_begun: bool,
    /// Its width, and its height in luma samples, once its slices come.
    pub width: u32,
    pub height: u32,
    /// What is shown of it (7.4.3.2.1).
    pub window: Window,
}

impl Counted {
    /// A picture of which this is known, and no more.
    pub(crate) fn new(number: u64, timestamp: u64) -> Counted
        ensures { result ≡ counted_with number timestamp }
    {
        Counted {
            number,
            timestamp,
            is_begun: false,
            width: 0,
            height: 0,
            window: no_window(),
        }
    }
}

/// Whether a picture has this number.
fn has_number(counted: &Counted, number: u64) -> bool
    ensures { result ≡ has_number number counted.now }
{
    counted.number == number
}

/// The first picture of this number.
fn find_number(counted: &[Counted], number: u64) -> Option<&Counted>
    ensures { option_copied result ≡ find (has_number number) counted.now }
{
    counted.iter().find(|one| has_number(one, number))
}

/// What is known of the picture of this number.
pub(crate) fn counted_of(counted: &[Counted], number: u64) -> Counted
    ensures { result ≡ counted_of number counted.now }
{
    match find_number(counted, number) {
        Some(one) => *one,
        None => Counted::new(number, 0),
    }
}

/// All but the picture of this number stay.
pub(crate) fn remove(counted: &mut Vec<Counted>, number: u64)
    ensures { counted.new.items ≡ without number counted.old.items }
{
    counted.retain(|one| one.number != number);
}

/// An event is told.
pub(crate) fn tell(counted: &mut Vec<Counted>, event: &Event)
    ensures { counted.new.items ≡ counted_after event.now counted.old.items }
{
    if event.kind == 2 && event.is_output == 0 {
        remove(counted, event.number);
    } else {
        tell_each(counted, event);
    }
}

/// An event is told that a picture may be known by.
fn tell_each(counted: &mut [Counted], event: &Event)
    ensures { counted.new ≡ map (told_if_own event.now) counted.old }
{
    for one in counted.iter_mut() {
        tell_if_own(one, event);
    }
}

/// An event is told, if it is this picture's.
fn tell_if_own(counted: &mut Counted, event: &Event)
    ensures { counted.new ≡ told_if_own event.now counted.old }
{
    if counted.number == event.number {
        tell_of(counted, event);
    }
}

/// An event of this picture is told.
fn tell_of(counted: &mut Counted, event: &Event)
    ensures { counted.new ≡ told_by event.now counted.old }
{
    if event.kind == 2 {
        counted.is_begun = true;
    } else if event.kind == 3 {
        counted.width = event.width;
        counted.height = event.height;
        counted.window = event.window;
    }
}

/// The first picture whose end is due.
pub(crate) fn first_ended<'a>(
    counted: &'a [Counted],
    decoder: &StatelessDecoder<QueueBackend>,
) -> Option<&'a Counted>
    ensures { option_copied result
        ≡ first_ended (view_of decoder.now).standing counted.now }
{
    counted.iter().find(|one| has_ended(one, decoder))
}

/// Whether a picture isn't to come any more.
fn has_ended(counted: &Counted, decoder: &StatelessDecoder<QueueBackend>) -> bool
    ensures { result ≡ has_ended (view_of decoder.now).standing counted.now }
{
    !is_coming(counted.number, decoder)
}

/// Whether a picture isn't output yet and may be.
fn is_coming(number: u64, decoder: &StatelessDecoder<QueueBackend>) -> bool
    ensures { result ≡ is_coming (view_of decoder.now).standing number }
{
    is_open(number, decoder) || decoder.is_waiting(number)
}

/// Whether the slices of this picture come.
fn is_open(number: u64, decoder: &StatelessDecoder<QueueBackend>) -> bool
    ensures { result ≡ is_open number (open_head (view_of decoder.now).standing.current) }
{
    match decoder.open_picture() {
        Some(head) => head.number == number,
        None => false,
    }
}
