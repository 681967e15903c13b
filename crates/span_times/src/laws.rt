//! Laws of times. The functions make no call: what they ensure is the law.
ghost use Rattle.span_times.specs.Measure.{BusyAndIdleAreOpen};
ghost use Rattle.span_times.specs.Serving.{TimelinesKeepAll};

use crate::clock::Now;

/// A timeline keeps a point for all that it is notified of, in order, wherever it stands in a
/// stack, unless it failed.
pub fn a_timeline_keeps_what_it_is_told<C: Now>()
    ensures { TimelinesKeepAll C.latest C.gives }
{}

/// A span that is entered and left in turns until it closes is busy or idle as long as it is open,
/// by a clock that never goes back.
pub fn busy_and_idle_are_open()
    ensures { BusyAndIdleAreOpen }
{}
