//! Which points are over: their span has closed, or they are in none.
ghost use Rattle.std.specs.BTreeSet.{contains};
ghost use Rattle.std.specs.Ordering.{nat_cmp};
ghost use Rattle.std.specs.Prelude.{◌≡◌, ◌++◌, ◌∷◌, [], ℕ, IfOk, OnOk, flat_map, length};
ghost use Rattle.span_times.specs.Field.{kept_in, range_of};
ghost use Rattle.span_times.specs.Finished.{closed_after, goes_with, is_closed_in, is_over, openings_in, picked, points_for, points_said};
ghost use Rattle.span_times.specs.Kept.{point_at};

use crate::field::{FieldRange, OwnedField};
use crate::happening::{Happening, Point};
use std::alloc::{AllocError, Global};
use std::collections::BTreeSet;

/// The numbers of the spans that are closed after these points.
pub(crate) fn closed_in(alloc: Global, points: &[Point]) -> Result<BTreeSet<u64>, AllocError>
    ensures { IfOk result
        (λ closed. (x : ℕ) → contains nat_cmp closed x ≡ is_closed_in points.now x) }
{
    let mut closed = BTreeSet::new(alloc);
    for point in points {
        note(&mut closed, point.what)?;
    }
    Ok(closed)
}

/// Notes whether a span opened or closed.
fn note(closed: &mut BTreeSet<u64>, what: Happening) -> Result<(), AllocError>
    ensures { OnOk result ((x : ℕ) → contains nat_cmp closed.new x
        ≡ closed_after x (contains nat_cmp closed.old x) what) }
{
    match what {
        Happening::Opened(id, _, _) => {
            closed.remove(&id.into_u64());
        }
        Happening::Closed(id) => {
            closed.insert(id.into_u64())?;
        }
        _ => {}
    }
    Ok(())
}

/// Whether this is over, where these spans are closed.
fn is_over(closed: &BTreeSet<u64>, what: Happening) -> bool
    ensures { result ≡ is_over (contains nat_cmp closed.now) what }
{
    match what.span() {
        Some(id) => closed.contains(&id.into_u64()),
        None => true,
    }
}

/// Whether this goes with what is over, or with the rest, where these spans are closed.
fn goes_with(over: bool, closed: &BTreeSet<u64>, what: Happening) -> bool
    ensures { result ≡ goes_with over (contains nat_cmp closed.now) what }
{
    if over {
        is_over(closed, what)
    } else {
        !is_over(closed, what)
    }
}

/// The openings among these points.
pub(crate) fn openings(alloc: Global, points: &[Point]) -> Result<Vec<Happening>, AllocError>
    ensures { IfOk result (λ openings. openings.items ≡ openings_in points.now) }
{
    let happenings = points.iter().map(|point| point.what);
    happenings
        .filter(|what| matches!(what, Happening::Opened(_, _, _)))
        .collect(alloc)
}

/// Points, and the fields that they came with.
#[derive(Drop)]
pub(crate) struct Batch {
    pub(crate) points: Vec<Point>,
    pub(crate) fields: Vec<OwnedField>,
}

/// Copies of those of these points that are over, or of the rest.
pub(crate) fn copied(
    alloc: Global,
    points: &[Point],
    fields: &[OwnedField],
    closed: &BTreeSet<u64>,
    over: bool,
) -> Result<Batch, AllocError>
    ensures points { IfOk result (λ batch. batch.points.items ≡ points_for 0
        (picked over (contains nat_cmp closed.now) (points_said (kept_in fields.now) points.now))) }
    ensures fields { IfOk result (λ batch. kept_in batch.fields.items ≡ flat_map (λ s. s.fields)
        (picked over (contains nat_cmp closed.now) (points_said (kept_in fields.now) points.now))) }
{
    let mut batch = Batch {
        points: Vec::new(alloc),
        fields: Vec::new(alloc),
    };
    for point in points {
        if goes_with(over, closed, point.what) {
            batch.add(alloc, point, point.fields_in(fields))?;
        }
    }
    Ok(batch)
}

impl Batch {
    /// Adds copies of a point and of the fields that it came with.
    fn add(&mut self, alloc: Global, point: &Point, given: &[OwnedField]) -> Result<(), AllocError>
        ensures points { OnOk result (self.new.points.items ≡ self.old.points.items
            ++ point_at point.now.time point.now.lane.0 point.now.what
            (range_of (length (kept_in self.old.fields.items)) (length (kept_in given.now))) ∷ []) }
        ensures fields { OnOk result
            (kept_in self.new.fields.items ≡ kept_in self.old.fields.items ++ kept_in given.now) }
    {
        let from = self.fields.len();
        copy_fields(alloc, &mut self.fields, given)?;
        let fields = FieldRange {
            from,
            to: self.fields.len(),
        };
        self.points.push(Point { fields, ..*point })?;
        Ok(())
    }
}

/// Adds copies of fields behind these.
fn copy_fields(
    alloc: Global,
    fields: &mut Vec<OwnedField>,
    given: &[OwnedField],
) -> Result<(), AllocError>
    ensures { OnOk result
        (kept_in fields.new.items ≡ kept_in fields.old.items ++ kept_in given.now) }
{
    for field in given {
        fields.push(field.copied(alloc)?)?;
    }
    Ok(())
}
