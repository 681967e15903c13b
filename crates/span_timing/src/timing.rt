//! How often spans and events came, and how long spans took, by their callsites.
ghost use Rattle.std.specs.Option.{option_copied, option_to_list};
ghost use Rattle.std.specs.Prelude.{◌≡◌, ◌++◌, ◌∷◌, [], ℕ, List, IfOk, OnErr, OnOk};
ghost use Rattle.span_timing.specs.Life.{event_sent, events_of, life_ended, lives_of};
ghost use Rattle.span_timing.specs.Row.{IsRowOf, IsSameRow};
ghost use Rattle.span_timing.specs.Timing.{IsTimingOf, event_callsites, events_at, row_at, span_callsites};
ghost use Rattle.span_timing.specs.declared.life.Life.{Life};

use crate::histogram::Histogram;
use crate::life::{Life, life_in};
use span_times::{Happening, Point};
use std::alloc::{AllocError, Global};
use std::collections::BTreeMap;

/// How long the spans of a callsite took.
#[derive(Drop)]
pub struct Row {
    /// How long they were busy.
    pub busy: Histogram,
    /// How long they were idle.
    pub idle: Histogram,
    /// How long they were open.
    pub open: Histogram,
}

impl Clone for Row {
    ghost is_clone = { IsSameRow };

    fn clone(&self) -> Result<Row, AllocError> {
        let busy = self.busy.clone()?;
        let idle = self.idle.clone()?;
        let open = self.open.clone()?;
        Ok(Row { busy, idle, open })
    }
}

impl Row {
    /// No spans yet.
    fn new(alloc: Global) -> Row
        ensures { IsRowOf [] result }
    {
        Row {
            busy: Histogram::new(alloc),
            idle: Histogram::new(alloc),
            open: Histogram::new(alloc),
        }
    }

    /// Adds a span.
    fn add(&mut self, life: Life) -> Result<(), AllocError>
        ensures { OnOk result ((lives : List Life) → IsRowOf lives self.old
            → IsRowOf (lives ++ life ∷ []) self.new) }
    {
        self.busy.add(life.busy)?;
        self.idle.add(life.idle)?;
        self.open.add(life.open)?;
        Ok(())
    }
}

/// How often spans and events came, and how long spans took, by the numbers of their callsites.
///
/// It keeps three histograms for each callsite of spans, however many come: add what a timeline
/// hands out by `take_finished` from time to time.
pub struct Timing {
    alloc: Global,
    rows: BTreeMap<u64, Row>,
    events: BTreeMap<u64, u64>,
}

impl Drop for Timing {
    fn drop(self) {
        let Timing {
            alloc,
            rows,
            events,
        } = self;
    }
}

impl Timing {
    /// Nothing came yet.
    pub fn new(alloc: Global) -> Timing
        ensures { IsTimingOf [] [] result }
    {
        Timing {
            alloc,
            rows: BTreeMap::new(alloc),
            events: BTreeMap::new(alloc),
        }
    }

    /// Adds the spans that close at these points, and the events that were sent. A span counts if
    /// its opening is among the points, too. Where memory is refused, all stays as it was.
    pub fn add(&mut self, points: &[Point]) -> Result<(), AllocError>
        ensures added { OnOk result ((lives : List Life) (sent : List ℕ)
            → IsTimingOf lives sent self.old
            → IsTimingOf (lives ++ lives_of points.now) (sent ++ events_of points.now)
            self.new) }
        ensures unchanged { OnErr result (self.new ≡ self.old) }
    {
        let mut grown = self.copied()?;
        grown.note_all(points)?;
        *self = grown;
        Ok(())
    }

    /// How long the spans of a callsite took, if any closed.
    pub fn row(&self, callsite: u64) -> Option<&Row>
        ensures { option_copied result ≡ row_at callsite self.now }
    {
        self.rows.get(&callsite)
    }

    /// How many events a callsite sent, up to `u64::MAX`.
    pub fn events(&self, callsite: u64) -> u64
        ensures { result ≡ events_at callsite self.now }
    {
        self.events.get(&callsite).copied().unwrap_or(0)
    }

    /// The callsites of which spans closed, in the order of their numbers.
    pub(crate) fn span_callsites(&self) -> Result<Vec<u64>, AllocError>
        ensures { IfOk result (λ numbers. numbers.items ≡ span_callsites self.now) }
    {
        self.rows.keys().copied().collect(self.alloc)
    }

    /// The callsites that sent events, in the order of their numbers.
    pub(crate) fn event_callsites(&self) -> Result<Vec<u64>, AllocError>
        ensures { IfOk result (λ numbers. numbers.items ≡ event_callsites self.now) }
    {
        self.events.keys().copied().collect(self.alloc)
    }

    /// The same once more.
    fn copied(&self) -> Result<Timing, AllocError>
        ensures { IfOk result (λ copy. (lives : List Life) (sent : List ℕ)
            → IsTimingOf lives sent self.now → IsTimingOf lives sent copy) }
    {
        let rows = self.rows.clone()?;
        let events = self.events.clone()?;
        Ok(Timing {
            alloc: self.alloc,
            rows,
            events,
        })
    }

    /// Notes what happened at each of these points.
    fn note_all(&mut self, points: &[Point]) -> Result<(), AllocError>
        ensures { OnOk result ((lives : List Life) (sent : List ℕ)
            → IsTimingOf lives sent self.old
            → IsTimingOf (lives ++ lives_of points.now) (sent ++ events_of points.now)
            self.new) }
    {
        for (place, point) in points.iter().enumerate() {
            self.note(&points[..place + 1], point.what)?;
        }
        Ok(())
    }

    /// Notes what happened at the last of these points.
    fn note(&mut self, points: &[Point], what: Happening) -> Result<(), AllocError>
        ensures { OnOk result ((lives : List Life) (sent : List ℕ)
            → IsTimingOf lives sent self.old
            → IsTimingOf (lives ++ option_to_list (life_ended points.now what))
            (sent ++ option_to_list (event_sent what)) self.new) }
    {
        match what {
            Happening::Closed(id) => match life_in(points, id) {
                Some(life) => self.note_life(life),
                None => Ok(()),
            },
            Happening::Sent(callsite, _) => self.note_event(callsite),
            _ => Ok(()),
        }
    }

    /// Notes a span.
    fn note_life(&mut self, life: Life) -> Result<(), AllocError>
        ensures { OnOk result ((lives : List Life) (sent : List ℕ)
            → IsTimingOf lives sent self.old
            → IsTimingOf (lives ++ life ∷ []) sent self.new) }
    {
        let mut row = match self.rows.remove(&life.callsite) {
            Some(row) => row,
            None => Row::new(self.alloc),
        };
        row.add(life)?;
        self.rows.insert(life.callsite, row)?;
        Ok(())
    }

    /// Notes an event.
    fn note_event(&mut self, callsite: u64) -> Result<(), AllocError>
        ensures { OnOk result ((lives : List Life) (sent : List ℕ)
            → IsTimingOf lives sent self.old
            → IsTimingOf lives (sent ++ callsite ∷ []) self.new) }
    {
        let so_far = self.events(callsite);
        self.events.insert(callsite, so_far.saturating_add(1))?;
        Ok(())
    }
}
