//! Spans with the spans above them.
ghost use Rattle.std.specs.Prelude.{◌≡◌, ℕ, IfOk, OnOk, map};
ghost use Rattle.span_core.specs.Span.{number_of};
ghost use Rattle.span_export.specs.Scope.{opened_by, scope_of};
ghost use Rattle.span_export.specs.private.Scopes.{scope_in};

use span_core::Id;
use span_times::{Happening, Point};
use std::alloc::{AllocError, Global};
use std::collections::BTreeMap;

/// The spans down to each that opened, the outermost first, by its number.
pub(crate) type Scopes = BTreeMap<u64, Vec<Id>>;

/// The scopes of all spans that these points open.
pub(crate) fn scopes(alloc: Global, points: &[Point]) -> Result<Scopes, AllocError>
    ensures { IfOk result (λ scopes. (x : ℕ) → scope_in scopes x ≡ scope_of points.now x) }
{
    let mut scopes = BTreeMap::new(alloc);
    for point in points {
        note(alloc, &mut scopes, point)?;
    }
    Ok(scopes)
}

/// Notes the scope of a span that opens: its parent's as it is now, and behind it the span.
fn note(alloc: Global, scopes: &mut Scopes, point: &Point) -> Result<(), AllocError>
    ensures { OnOk result ((x : ℕ) → scope_in scopes.new x
        ≡ opened_by (scope_in scopes.old) point.now.what x) }
{
    let Happening::Opened(id, _, parent) = point.what else {
        return Ok(());
    };
    let mut scope = match parent {
        Some(parent) => scope(alloc, scopes, parent)?,
        None => Vec::new(alloc),
    };
    scope.push(id)?;
    scopes.insert(id.into_u64(), scope)?;
    Ok(())
}

/// The spans down to this one, and it alone where its opening isn't known.
pub(crate) fn scope(alloc: Global, scopes: &Scopes, id: Id) -> Result<Vec<Id>, AllocError>
    ensures { IfOk result
        (λ scope. map number_of scope.items ≡ scope_in scopes.now (number_of id)) }
{
    if let Some(scope) = scopes.get(&id.into_u64()) {
        return scope.clone();
    }
    let mut alone = Vec::new(alloc);
    alone.push(id)?;
    Ok(alone)
}
