//! What a timeline keeps: points, what their callsites are called, and the fields that they came
//! with.
ghost use Rattle.std.specs.Prelude.{◌≡◌, [], IfOk, OnErr, OnOk};
ghost use Rattle.span_times.specs.Field.{given_by, kept_in};
ghost use Rattle.span_times.specs.Finished.{HandsOutFinished};
ghost use Rattle.span_times.specs.Site.{sites_said};
ghost use Rattle.span_times.specs.Kept.{IsFull, KeepsNone, KeepsPoint, NeedsNone};

use crate::field::{FieldRange, OwnedField, keep_given};
use crate::finished::{closed_in, copied, openings};
use crate::happening::{Happening, Point};
use crate::site::{Site, Sites};
use span_core::{FieldValue, Lane, Metadata};
use std::alloc::{AllocError, Global};
use std::marker::Model;
use std::mem;

/// What points refer to: what their callsites are called, the fields that they came with, and spans
/// that were still open.
#[derive(Clone, Copy)]
pub struct Table<'a> {
    /// The sites of their callsites.
    pub sites: &'a [Site],
    /// The fields that they came with.
    pub fields: &'a [OwnedField],
    /// The openings of spans that stay open and aren't among the points, the outer ones first:
    /// exports to OpenTelemetry find roots by them, others don't read them.
    pub above: &'a [Happening],
}

/// What is taken out of a timeline: its points, and what they refer to.
#[derive(Drop)]
pub struct Taken {
    /// What happened, first things first.
    pub points: Vec<Point>,
    /// What the callsites are called, by their first use.
    pub sites: Vec<Site>,
    /// The fields that points came with, one after the other; a point says which are its own.
    pub fields: Vec<OwnedField>,
    /// The openings of the spans that stay, the outer ones first: some points may be below these.
    pub above: Vec<Happening>,
}

impl Taken {
    /// What the points refer to.
    pub fn table(&self) -> Table<'_>
        ensures sites { result.sites.now ≡ self.now.sites.items }
        ensures fields { result.fields.now ≡ self.now.fields.items }
        ensures above { result.above.now ≡ self.now.above.items }
    {
        Table {
            sites: &self.sites,
            fields: &self.fields,
            above: &self.above,
        }
    }
}

/// Points, what their callsites are called, and the fields that they came with.
pub(crate) struct Kept {
    alloc: Global,
    points: Vec<Point>,
    sites: Sites,
    fields: Vec<OwnedField>,
}

impl Drop for Kept {
    fn drop(self) {
        let Kept {
            alloc,
            points,
            sites,
            fields,
        } = self;
    }
}

impl Model for Kept {
    ghost use Rattle.std.specs.Prelude.{◌-◌, vec_capacity, vec_len};
    ghost use Rattle.span_times.specs.Field.{kept_in};
    ghost use Rattle.span_times.specs.Kept.{KeptState};
    ghost use Rattle.span_times.specs.Sites.{kept_by};

    ghost Value = { KeptState };

    ghost view = { λ a. record {
      points = a.points.items;
      sites = kept_by a.sites;
      fields = kept_in a.fields.items;
      room = vec_capacity a.points - vec_len a.points;
    } };
}

impl Kept {
    /// Nothing yet.
    pub(crate) fn new(alloc: Global) -> Kept
        ensures points { result.points ≡ [] }
        ensures sites { result.sites ≡ [] }
        ensures fields { result.fields ≡ [] }
    {
        Kept {
            alloc,
            points: Vec::new(alloc),
            sites: Sites::new(alloc),
            fields: Vec::new(alloc),
        }
    }

    /// The points, first things first.
    pub(crate) fn points(&self) -> &[Point]
        ensures { result.now ≡ self.now.points }
    {
        &self.points
    }

    /// What the points refer to.
    pub(crate) fn table(&self) -> Table<'_>
        ensures sites { sites_said result.sites.now ≡ self.now.sites }
        ensures fields { kept_in result.fields.now ≡ self.now.fields }
        ensures above { result.above.now ≡ [] }
    {
        Table {
            sites: self.sites.sites(),
            fields: &self.fields,
            above: &[],
        }
    }

    /// Keeps what happened, and with it those of these fields that have a value, if values are
    /// kept, and the site of these metadata, if there are any. Where memory is refused for that,
    /// all stays as it was.
    pub(crate) fn add(
        &mut self,
        time: u64,
        lane: Lane,
        what: Happening,
        metadata: Option<Metadata>,
        kept: bool,
        values: &[(&'static str, FieldValue<'_>)],
    ) -> Result<(), AllocError>
        ensures added { OnOk result
            (KeepsPoint time lane.0 what metadata (given_by kept values.now) self.old self.new) }
        ensures unchanged { OnErr result (KeepsNone self.old self.new) }
        ensures full { OnErr result
            (NeedsNone metadata (given_by kept values.now) self.old → IsFull self.old) }
    {
        let from = self.fields.len();
        keep_given(self.alloc, kept, &mut self.fields, values)?;
        let fields = FieldRange {
            from,
            to: self.fields.len(),
        };
        let point = Point {
            time,
            lane,
            what,
            fields,
        };
        if let Err(failed) = self.points.push(point) {
            self.fields.truncate(from);
            return Err(AllocError::from(failed));
        }
        if let Err(error) = self.sites.keep(metadata) {
            let _ = self.points.pop();
            self.fields.truncate(from);
            return Err(error);
        }
        Ok(())
    }

    /// Takes all out.
    pub(crate) fn take(&mut self) -> Taken
        ensures points { result.points.items ≡ self.old.points }
        ensures sites { sites_said result.sites.items ≡ self.old.sites }
        ensures fields { kept_in result.fields.items ≡ self.old.fields }
        ensures above { result.above.items ≡ [] }
        ensures no_points { self.new.points ≡ [] }
        ensures no_sites { self.new.sites ≡ [] }
        ensures no_fields { self.new.fields ≡ [] }
    {
        Taken {
            points: mem::replace(&mut self.points, Vec::new(self.alloc)),
            sites: self.sites.take(),
            fields: mem::replace(&mut self.fields, Vec::new(self.alloc)),
            above: Vec::new(self.alloc),
        }
    }

    /// Hands out copies of the points that are over, with their fields, of all sites, and of the
    /// openings that stay, and forgets these points and fields. Where memory is refused, all stays
    /// as it was.
    pub(crate) fn take_finished(&mut self) -> Result<Taken, AllocError>
        ensures taken { IfOk result (λ taken. HandsOutFinished taken self.old self.new) }
        ensures unchanged { OnErr result (self.new ≡ self.old) }
    {
        let closed = closed_in(self.alloc, &self.points)?;
        let over = copied(self.alloc, &self.points, &self.fields, &closed, true)?;
        let left = copied(self.alloc, &self.points, &self.fields, &closed, false)?;
        let above = openings(self.alloc, &left.points)?;
        let sites = self.sites.copied()?;
        self.points = left.points;
        self.fields = left.fields;
        Ok(Taken {
            points: over.points,
            sites,
            fields: over.fields,
            above,
        })
    }
}
