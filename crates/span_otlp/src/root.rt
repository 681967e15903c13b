//! The root spans, which others are below.
ghost use Rattle.std.specs.Prelude.{◌≡◌, ◌++◌, ℕ, IfOk, List, OnOk};
ghost use Rattle.span_core.specs.Span.{number_of};
ghost use Rattle.span_times.specs.declared.happening.Happening.{Happening};
ghost use Rattle.span_otlp.specs.Root.{known_of, root_after};
ghost use Rattle.span_otlp.specs.private.Rooted.{AreRoots, root_by};

use span_core::Id;
use span_times::{Happening, Point, Table};
use std::alloc::{AllocError, Global};
use std::collections::BTreeMap;

/// The roots that spans are below, by the spans' numbers.
#[derive(Drop)]
pub(crate) struct Roots {
    found: BTreeMap<u64, Id>,
}

impl Roots {
    /// The roots of all spans of these points, and of those above them.
    pub(crate) fn of(alloc: Global, points: &[Point], table: Table<'_>) -> Result<Roots, AllocError>
        ensures { IfOk result (AreRoots (known_of table.entry points.now)) }
    {
        let mut roots = Roots {
            found: BTreeMap::new(alloc),
        };
        roots.note_all(table.above)?;
        for point in points {
            roots.note(point.what)?;
        }
        Ok(roots)
    }

    /// Notes the roots of spans that open.
    fn note_all(&mut self, above: &[Happening]) -> Result<(), AllocError>
        ensures { OnOk result ((hs : List Happening) → AreRoots hs self.old
            → AreRoots (hs ++ above.now) self.new) }
    {
        for what in above {
            self.note(*what)?;
        }
        Ok(())
    }

    /// Notes the root of a span that opens.
    fn note(&mut self, what: Happening) -> Result<(), AllocError>
        ensures { OnOk result ((x : ℕ) → root_by self.new x
            ≡ root_after what (root_by self.old) x) }
    {
        if let Happening::Opened(id, _, parent) = what {
            let root = match parent {
                Some(parent) => self.root(parent),
                None => id,
            };
            self.found.insert(id.into_u64(), root)?;
        }
        Ok(())
    }

    /// The root that a span is below, or the span itself where its opening isn't known.
    pub(crate) fn root(&self, id: Id) -> Id
        ensures { number_of result ≡ root_by self.now (number_of id) }
    {
        match self.found.get(&id.into_u64()) {
            Some(root) => *root,
            None => id,
        }
    }
}
