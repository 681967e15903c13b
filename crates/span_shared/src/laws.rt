//! Laws, for proofs above: no call does anything.
ghost use Rattle.span_shared.specs.Journal.{Entry, LeavesOne};
ghost use Rattle.std.specs.Prelude.{List};

/// One journal leaves one store, extensions aside.
pub fn one_journal_leaves_one_store()
    ensures { (journal : List Entry) → LeavesOne journal }
{
    span_registry::laws::closes_once();
}
