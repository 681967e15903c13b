//! Laws for callers: functions whose contract is the law, and that do nothing.
ghost use Rattle.span_macros.specs.Behind.{EventsServedAlone, EventsUnwanted, SpansServedAlone, SpansUnwanted};

use span_registry::Subscriber;

/// A probe before an event adds nothing, where the stack is honest and the cache up to date: the
/// two are served as the event alone, and where the probe doesn't say yes, no event of its metadata
/// would have been made.
pub fn probes_add_nothing_to_events<S: Subscriber>()
    ensures behind { EventsServedAlone S.Subscriber }
    ensures unwanted { EventsUnwanted S.Subscriber }
{}

/// A probe before a new span adds nothing, where the stack is honest and the cache up to date: the
/// two are served as the span alone, and where the probe doesn't say yes, no span of its metadata
/// would have been made.
pub fn probes_add_nothing_to_spans<S: Subscriber>()
    ensures behind { SpansServedAlone S.Subscriber }
    ensures unwanted { SpansUnwanted S.Subscriber }
{}
