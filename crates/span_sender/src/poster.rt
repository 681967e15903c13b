//! Who posts requests.
ghost use Rattle.std.specs.Prelude.{ℕ, List, Option, ◌∷◌, []};
ghost use Rattle.span_sender.specs.Post.{Grows, Posts};
ghost use Rattle.span_sender.specs.declared.answer.Answer.{Answer};

use crate::answer::Answer;

/// Posts requests to a collector, as an HTTP client does.
pub trait Poster {
    /// The requests that were posted, and what came of each, where that is known.
    ghost posted: { Self → Posts };

    /// Posts this body, waits, and says what came.
    fn post(&mut self, body: &[u8]) -> Answer
        ensures { Grows (posted self.old) (posted self.new) ((body.now, result) ∷ []) };
}
