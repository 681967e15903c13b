//! A target, and the levels that pass there.
ghost use Rattle.std.specs.Prelude.{◌≡◌, IfOk, Some};
ghost use Rattle.span_targets.specs.Directive.{directive_text, word_of};

use span_core::LevelFilter;
use std::alloc::{AllocError, Global};
use std::cmp::Ordering;
use std::fmt;

/// A target, and the levels that pass where a target begins with it.
#[derive(Debug, Drop)]
pub struct Directive {
    target: String,
    level: LevelFilter,
}

impl Directive {
    ghost use Rattle.span_targets.specs.Directive.{level_by, target_of};
    ghost use Rattle.span_targets.specs.private.Order.{begins, order_to};

    /// A directive of these parts.
    pub(crate) fn new(
        alloc: Global,
        target: &str,
        level: LevelFilter,
    ) -> Result<Directive, AllocError>
        ensures { IfOk result (λ d. (target_of d ≡ target.now) × (level_by d ≡ level)) }
    {
        let target = String::from_str(alloc, target)?;
        Ok(Directive { target, level })
    }

    /// What a target begins with.
    pub fn target(&self) -> &str
        ensures { result.now ≡ target_of self.now }
    {
        self.target.as_str()
    }

    /// The levels that pass.
    pub fn level(&self) -> LevelFilter
        ensures { result ≡ level_by self.now }
    {
        self.level
    }

    /// Lets other levels pass.
    pub(crate) fn set_level(&mut self, level: LevelFilter)
        ensures target { target_of self.new ≡ target_of self.old }
        ensures level { level_by self.new ≡ level }
    {
        self.level = level;
    }

    /// Whether the text begins with the directive's target.
    pub(crate) fn begins(&self, text: &str) -> bool
        ensures { result ≡ begins text.now self.now }
    {
        text.as_bytes().starts_with(self.target.as_bytes())
    }

    /// How the directive stands to one with this target: the longest target comes first, of those
    /// as long the greatest.
    pub(crate) fn order_to(&self, target: &str) -> Ordering
        ensures { result ≡ order_to target.now self.now }
    {
        match target.len().cmp(&self.target.len()) {
            Ordering::Equal => target.cmp(self.target.as_str()),
            unequal => unequal,
        }
    }
}

/// Writes the directive as `target=level`, with the level in small letters.
impl fmt::Display for Directive {
    ghost output = { λ directive. Some (directive_text directive) };

    fn fmt<W: fmt::Write>(&self, f: &mut fmt::Formatter<W>) -> fmt::Result {
        let target = self.target();
        let word = level_word(self.level);
        write!(f, "{target}={word}")
    }
}

/// The word for what passes.
pub(crate) fn level_word(level: LevelFilter) -> &'static str
    ensures { result.now ≡ word_of level }
{
    if level == LevelFilter::OFF {
        "off"
    } else if level == LevelFilter::ERROR {
        "error"
    } else if level == LevelFilter::WARN {
        "warn"
    } else if level == LevelFilter::INFO {
        "info"
    } else if level == LevelFilter::DEBUG {
        "debug"
    } else {
        "trace"
    }
}
