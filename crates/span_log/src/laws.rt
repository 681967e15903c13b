//! Laws for callers: each is a function whose contract is the law, and that does nothing.
ghost use Rattle.span_log.specs.Event.{RecordsComeBack};
ghost use Rattle.span_log.specs.Level.{LevelsAgree};

/// Levels of `log` and levels here are the same ones in the same order, and filters pass the same.
pub fn levels_agree()
    ensures { LevelsAgree }
{}

/// A record that is sent as an event and then logged has its level, its target and its message
/// again, and no pairs.
pub fn records_come_back()
    ensures { RecordsComeBack }
{}
