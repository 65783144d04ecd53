//! The queue of events that wait.
ghost use Rattle.std.specs.Prelude.{◌≡◌, ◌+◌, ◌<◌, ◌^◌, ◌↔◌, [], ◌∷◌, length, IsNone, IfNone};
ghost use Rattle.std.specs.Prelude.{IfSome, OnErr, OnOk};
ghost use Rattle.hevc_events.specs.Waiting.{all_taken, sequence_is_next, next_place, no_event};
ghost use Rattle.hevc_events.specs.Waiting.{with_event};

use crate::event::Event;
use std::alloc::{AllocError, Global};
use std::collections::VecDeque;
use std::marker::Model;

/// Events that wait until they are taken, the first that was put first.
#[derive(Drop)]
pub struct EventQueue {
    /// Those that wait.
    events: VecDeque<Event>,
    /// How many were taken.
    taken: u64,
    /// How many were put.
    put: u64,
}

impl Model for EventQueue {
    ghost use Rattle.std.specs.Prelude.{◌≡◌, ◌+◌, length};
    ghost use Rattle.hevc_events.specs.Waiting.{Waiting, waiting_code};

    ghost Value = { Waiting };

    ghost coded = { waiting_code };

    ghost view = { λ q. record { taken = q.taken; events = q.events.items } };

    ghost invariant = { λ q. q.taken + length q.events.items ≡ q.put };
}

impl EventQueue {
    /// A queue into which no event was put.
    pub fn new(alloc: Global) -> EventQueue
        ensures { result ≡ no_event }
    {
        EventQueue {
            events: VecDeque::new(alloc),
            taken: 0,
            put: 0,
        }
    }

    /// A queue into which as many events were put, and of which none waits.
    pub fn stand_in(&self, alloc: Global) -> EventQueue
        ensures { result ≡ all_taken self.now }
    {
        EventQueue {
            events: VecDeque::new(alloc),
            taken: self.put,
            put: self.put,
        }
    }

    /// How many events wait.
    pub fn num_waiting(&self) -> usize
        ensures { result ≡ length self.now.events }
    {
        self.events.len()
    }

    /// Whether a sequence begins by the first event that waits.
    pub fn is_sequence_next(&self) -> bool
        ensures { result ≡ sequence_is_next self.now.events }
    {
        match self.events.front() {
            Some(event) => event.kind == 1,
            None => false,
        }
    }

    /// The place of the event that is put next: how many were put, taken or not. None once these
    /// are 2^64 - 1.
    pub fn next_place(&self) -> Option<u64>
        ensures none { IsNone result ↔ (next_place self.now + 1 ≡ 2 ^ 64) }
        ensures place { IfSome result (λ place. place ≡ next_place self.now) }
    {
        if self.put == u64::MAX {
            None
        } else {
            Some(self.put)
        }
    }

    /// Puts an event after the others, while a place is left.
    ///
    /// Errors: an allocation fails; all stays.
    pub fn put(&mut self, event: Event) -> Result<(), AllocError>
        requires left { next_place self.now + 1 < 2 ^ 64 }
        ensures put { OnOk result (self.new ≡ with_event self.old event) }
        ensures unchanged { OnErr result (self.new ≡ self.old) }
    {
        self.events.push_back(event)?;
        self.put += 1;
        Ok(())
    }

    /// Takes the first event that waits.
    pub fn take(&mut self) -> Option<Event>
        ensures none { IsNone result ↔ (self.old.events ≡ []) }
        ensures first { IfSome result (λ event. self.old.events ≡ event ∷ self.new.events) }
        ensures taken { IfSome result (λ _. self.new.taken ≡ self.old.taken + 1) }
        ensures unchanged { IfNone result (self.new ≡ self.old) }
    {
        let event = self.events.pop_front()?;
        prove!(self.taken < self.put);
        self.taken += 1;
        Some(event)
    }
}
