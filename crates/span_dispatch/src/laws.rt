//! Laws, for proofs above: no call does anything.
ghost use Rattle.span_dispatch.specs.Contract.{SeesWhatIsMade};
ghost use Rattle.span_dispatch.specs.Readable.{ClosesAsItOpened};
ghost use Rattle.std.specs.Prelude.{List};

use span_registry::Subscriber;

/// Of whatever is made of an honest stack, each leaf is notified of just what its path passes, in
/// order; and where only plain filters stand round it, of what it would be notified of if it stood
/// alone.
pub fn leaves_see_what_their_paths_pass<S: Subscriber>()
    ensures { SeesWhatIsMade S.Subscriber }
{}

/// A path passes a span's close exactly if it passed the span, by the form that the span opened
/// under or any that keeps its rules, also where filters were reloaded between.
pub fn a_close_is_told_to_whom_the_span_was()
    ensures { ClosesAsItOpened }
{}
