//! The end at which a program hands over closed spans, and never waits.
ghost use Rattle.std.specs.Prelude.{◌≡◌, ◌∷◌, ◌++◌, [], IsFalse, IsTrue};
ghost use Rattle.rtrb.specs.Ring.{SameProducer, sent};
ghost use Rattle.span_sender.specs.Sender.{Hands, Misses, missed_by};

use crate::shared::Shared;
use rtrb::Producer;
use std::alloc::Global;
use std::sync::Arc;

/// Hands closed spans, each the text of an export request, to a thread that posts them; never
/// waits: a span that finds the queue full is dropped and counted.
#[derive(Drop)]
pub struct Sender {
    pub(crate) queue: Producer<String>,
    pub(crate) missed: u64,
    pub(crate) shared: Arc<Shared, Global>,
}

impl Sender {
    /// Hands over a span, as the text of an export request of one span: what a collector rejects is
    /// counted in spans. Says whether it was taken: else it is dropped and counted, as the queue is
    /// full or the thread's guard has gone.
    pub fn push(&mut self, span: String) -> bool
        ensures taken { IsTrue result → Hands self.old self.new span }
        ensures missed { IsFalse result → Misses self.old self.new }
    {
        let taken = offer(&mut self.queue, &self.shared, span);
        if !taken {
            self.missed = self.missed.saturating_add(1);
            self.shared.set_missed(self.missed);
        }
        taken
    }

    /// How many spans were dropped here.
    pub fn missed(&self) -> u64
        ensures { result ≡ missed_by self.now }
    {
        self.missed
    }
}

/// Puts a span in the queue, if that is open and not full.
fn offer(queue: &mut Producer<String>, shared: &Shared, span: String) -> bool
    ensures same { SameProducer queue.old queue.new }
    ensures taken { IsTrue result → sent queue.new ≡ sent queue.old ++ span ∷ [] }
    ensures refused { IsFalse result → sent queue.new ≡ sent queue.old }
{
    if !shared.enter() {
        return false;
    }
    let pushed = queue.push(span).is_ok();
    shared.leave();
    pushed
}
