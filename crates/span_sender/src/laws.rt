//! What holds of all that a program may do with a queue.
ghost use Rattle.std.specs.Prelude.{List};
ghost use Rattle.span_sender.specs.Batches.{IsNew};
ghost use Rattle.span_sender.specs.Run.{Event, LosesNone, Run};
ghost use Rattle.span_sender.specs.declared.batches.Batches.{Batches};
ghost use Rattle.span_sender.specs.declared.config.BatchConfig.{BatchConfig};

/// No span is lost, whatever calls are made of a queue: what it took is, in order, what it let go
/// and what it still holds; and what it let go was accepted, refused or dropped, and is counted.
pub fn no_span_is_lost()
    ensures { (config : BatchConfig) → (old new : Batches) → (events : List Event)
        → IsNew config old → Run old events new → LosesNone events new }
{}
