//! A layer that keeps what happened, on which lane, and when.
ghost use Rattle.std.specs.Prelude.{◌≡◌, [], IfOk, OnErr, false, true};
ghost use Rattle.span_times.specs.Field.{given_by, kept_in};
ghost use Rattle.span_times.specs.Kept.{IsFull, KeepsNone, KeepsPoint, NeedsNone};
ghost use Rattle.span_times.specs.Site.{sites_said};
ghost use Rattle.span_times.specs.Timeline.{IsNew, SetsValues, TakesAll, TakesFinished, clock_of, fields_of, has_failed, keeps_values, kept_of, points_of, sites_of, timeline_steps};

use crate::clock::Now;
use crate::happening::{Happening, Point, happening_in, metadata_in, values_in};
use crate::kept::{Kept, Table, Taken};
use span_core::{FieldValue, Lane, Metadata};
use span_layers::{AlwaysUsableObserver, Observe};
use span_registry::{ContextMut, Notice, Subscriber, laws};
use std::alloc::{AllocError, Global};

/// A layer that keeps a point for all that it is notified of, up to the first that finds no memory,
/// with what its callsite is called, and if values are asked for, those that spans and events were
/// given.
///
/// A point takes 72 bytes and a field 80, beside the field's name and text, in lists that double as
/// they grow. So in a server call `take_finished` from time to time.
pub struct Timeline<C> {
    clock: C,
    kept: Kept,
    values: bool,
    failed: bool,
}

impl<C: Drop> Drop for Timeline<C> {
    fn drop(self) {
        let Timeline {
            clock,
            kept,
            values,
            failed,
        } = self;
    }
}

impl<C: Now> Timeline<C> {
    /// A timeline on this clock. It was notified of nothing yet, and keeps no values.
    pub fn new(alloc: Global, clock: C) -> Timeline<C>
        ensures { IsNew C.latest clock result }
    {
        Timeline {
            clock,
            kept: Kept::new(alloc),
            values: false,
            failed: false,
        }
    }

    /// The same timeline, which from now on keeps the values that spans and events are given, or
    /// doesn't. Those that it has stay.
    pub fn with_values(self, kept: bool) -> Timeline<C>
        ensures { SetsValues kept self result }
    {
        let mut timeline = self;
        timeline.values = kept;
        timeline
    }

    /// What happened, first things first.
    pub fn points(&self) -> &[Point]
        ensures { result.now ≡ points_of self.now }
    {
        self.kept.points()
    }

    /// What the points refer to: what their callsites are called, and the fields that they came
    /// with. No span is above them.
    pub fn table(&self) -> Table<'_>
        ensures sites { sites_said result.sites.now ≡ sites_of self.now }
        ensures fields { kept_in result.fields.now ≡ fields_of self.now }
        ensures above { result.above.now ≡ [] }
    {
        self.kept.table()
    }

    /// Whether no memory was found for a point: none is kept since then.
    pub fn failed(&self) -> bool
        ensures { result ≡ has_failed self.now }
    {
        self.failed
    }

    /// Hands out all that it keeps, and begins anew on its clock. Where it had failed, it has no
    /// longer: ask `failed` before. What comes later of spans that are open has no opening then:
    /// exports leave these spans out, and take those below them for roots.
    pub fn take(&mut self) -> Taken
        ensures { TakesAll C.latest result self.old self.new }
    {
        self.failed = false;
        self.kept.take()
    }

    /// Hands out the points of spans that have closed, with the events in them, and those of events
    /// that are in no span, and forgets them and their fields. So a server keeps what is open, and
    /// what came since the last call. Sites stay, and are handed out each time; so are the openings
    /// of the spans that stay, below which some of those that closed may be.
    ///
    /// Points and fields are copied, both ways: where memory is refused, all stays as it was. A
    /// timeline that failed stays so: then call `take`.
    pub fn take_finished(&mut self) -> Result<Taken, AllocError>
        ensures taken { IfOk result (λ taken. TakesFinished C.latest taken self.old self.new) }
        ensures unchanged { OnErr result (self.new ≡ self.old) }
    {
        self.kept.take_finished()
    }

    /// Keeps a point with those of these fields that have a value, and the site of these metadata,
    /// unless the timeline had failed.
    fn keep(
        &mut self,
        time: u64,
        lane: Lane,
        what: Happening,
        metadata: Option<Metadata>,
        values: &[(&'static str, FieldValue<'_>)],
    )
        ensures kept { has_failed self.new ≡ false → (has_failed self.old ≡ false)
            × KeepsPoint time lane.0 what metadata (given_by (keeps_values self.old) values.now)
            (kept_of self.old) (kept_of self.new) }
        ensures lost { has_failed self.new ≡ true
            → KeepsNone (kept_of self.old) (kept_of self.new) }
        ensures full { has_failed self.old ≡ false → has_failed self.new ≡ true
            → NeedsNone metadata (given_by (keeps_values self.old) values.now) (kept_of self.old)
            → IsFull (kept_of self.old) }
        ensures values { keeps_values self.new ≡ keeps_values self.old }
        ensures clock { clock_of self.new ≡ clock_of self.old }
    {
        if self.failed {
            return;
        }
        let added = self
            .kept
            .add(time, lane, what, metadata, self.values, values);
        self.failed = added.is_err();
    }
}

impl<S: Subscriber, C: Now> Observe<S> for Timeline<C> {
    ghost observed = { timeline_steps C.latest C.gives };

    fn observe(&mut self, notice: Notice<'_, '_>, ctx: &mut ContextMut<'_, S>) {
        laws::extensions_change_no_look_up();
        let time = self.clock.now();
        let what = happening_in(notice, ctx);
        self.keep(
            time,
            ctx.lane(),
            what,
            metadata_in(notice),
            values_in(notice),
        );
    }
}

impl<S: Subscriber, C: Now> AlwaysUsableObserver<S> for Timeline<C> {
    ghost always = { λ x. tt };
}
