//! A layer that hands events to a logger.
ghost use Rattle.std.specs.Prelude.{◌≡◌};
ghost use Rattle.span_log.specs.Layer.{IsWantedRecordOf, log_steps, logger_of};

use crate::fields::Fields;
use crate::record::event_record;
use log::{Log, Record};
use span_core::{Event, FieldValue};
use span_layers::{AlwaysUsableObserver, Observe};
use span_registry::{ContextMut, Notice, Subscriber};

/// A layer that hands each event to a logger that is enabled for it.
///
/// Stands for what the feature `log` of `tracing` does with events.
#[derive(Debug, Drop)]
pub struct LogLayer<L> {
    log: L,
}

impl<L: Log> LogLayer<L> {
    /// Hands events to this logger.
    pub fn new(log: L) -> LogLayer<L>
        ensures { logger_of result ≡ log }
    {
        LogLayer { log }
    }

    /// The logger.
    pub fn log(&self) -> &L
        ensures { result.now ≡ logger_of self.now }
    {
        &self.log
    }

    /// The record of an event that the logger is handed, which is asked first: none where it isn't
    /// enabled for the record's level and target.
    pub fn wanted_record<'a>(
        &self,
        event: &Event<'a>,
    ) -> Option<Record<'a, FieldValue<'a>, Fields<'a>>>
        ensures { IsWantedRecordOf (L.enables (logger_of self.now)) event.now result }
    {
        let record = event_record(event);
        if self.log.enabled(record.metadata()) {
            Some(record)
        } else {
            None
        }
    }

    /// The logger, taken out.
    pub fn into_log(self) -> L
        ensures { result ≡ logger_of self }
    {
        self.log
    }
}

impl<S: Subscriber, L: Log> Observe<S> for LogLayer<L> {
    ghost observed = { log_steps };

    fn observe(&mut self, notice: Notice<'_, '_>, _ctx: &mut ContextMut<'_, S>) {
        let Notice::Event(event) = notice else {
            return;
        };
        if let Some(record) = self.wanted_record(event) {
            self.log.log(&record);
        }
    }
}

impl<S: Subscriber, L: Log> AlwaysUsableObserver<S> for LogLayer<L> {
    ghost always = { λ x. tt };
}
