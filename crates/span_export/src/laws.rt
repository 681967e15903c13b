//! Laws of exports. The functions make no call: what they ensure is the law.
ghost use Rattle.span_export.specs.Chrome.{TracesCountAll, TracesNest};
ghost use Rattle.span_export.specs.Folded.{LinesHaveAllTime};

/// A trace has as many beginnings and ends of spans' durations as spans opened and closed, and as
/// many instants as there were events.
pub fn a_trace_counts_all()
    ensures { TracesCountAll }
{}

/// The lines of folded stacks together have all the time that lanes were in spans, each up to its
/// last point, if it is less than 2^64 nanoseconds.
pub fn lines_have_all_time()
    ensures { LinesHaveAllTime }
{}

/// In a trace, each end of a box is that of the newest one of its lane, and the boxes that are open
/// after any points are those of the spans that the lane is in.
pub fn a_trace_nests()
    ensures { TracesNest }
{}
