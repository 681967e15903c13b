//! Laws of exports to OpenTelemetry. The functions make no call: what they ensure is the law.
ghost use Rattle.std.specs.Prelude.{◌<◌};
ghost use Rattle.span_otlp.specs.Shared.{ChildrenHaveTheirParentsRoot, PartsKeepRoots, RootsAreTheirOwn};
ghost use Rattle.span_otlp.specs.TraceId.{GivesNoZero, SeedsAreApart};
ghost use Rattle.span_otlp.specs.TraceParent.{ParentsAreReadAgain, TextsAreOfOne};
ghost use Rattle.span_otlp.specs.declared.trace_id.OneTrace.{OneTrace};
ghost use Rattle.span_otlp.specs.declared.trace_id.SeededTraces.{SeededTraces};

use crate::trace_id::{OneTrace, SeededTraces, TraceIds};

/// A text is of one parent at most, and what is written of a parent is read as that one, if neither
/// of its numbers is 0: whatever `TraceParent::from_str` answers is it.
pub fn parents_are_read_again()
    ensures one { TextsAreOfOne }
    ensures again { ParentsAreReadAgain }
{}

/// A child has its parent's root, and so is in its trace; a span without a parent is its own root.
pub fn a_child_is_in_its_parents_trace()
    ensures below { ChildrenHaveTheirParentsRoot }
    ensures own { RootsAreTheirOwn }
{}

/// Whether spans are handed out at once or in parts, as they close, each is in the same trace: it
/// has the same root. A link to a span that was handed out before may say another.
pub fn parts_keep_traces()
    ensures { PartsKeepRoots }
{}

/// No trace has the number 0, unless that was given as the one trace. By seeds each root has a trace
/// of its own, and no two seeds share one.
pub fn traces_have_numbers()
    ensures one { (ids : OneTrace) → 0 < ids.0
        → GivesNoZero (⟦<OneTrace as TraceIds>⟧.trace_of ids) }
    ensures seeded { (ids : SeededTraces)
        → GivesNoZero (⟦<SeededTraces as TraceIds>⟧.trace_of ids) }
    ensures apart { SeedsAreApart }
{}
