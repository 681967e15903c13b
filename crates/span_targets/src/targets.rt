//! A filter by targets.
ghost use Rattle.std.specs.Prelude.{◌≡◌, IfOk, None, OnErr, OnOk, Some, map, true};
ghost use Rattle.std.specs.Option.{option_copied};
ghost use Rattle.std.specs.Slice.Iter.{iter_rest};
ghost use Rattle.span_core.specs.Level.{passes_level};
ghost use Rattle.span_targets.specs.Directive.{target_of};
ghost use Rattle.span_targets.specs.Names.{IsMost, level_for, naming, naming_each, nothing};
ghost use Rattle.span_targets.specs.private.Order.{is_longest_first};

use crate::directive::{Directive, level_word};
use crate::order::{first_level, most_of, search};
use crate::read::Said;
use span_core::{Level, LevelFilter};
use std::alloc::{AllocError, Global};
use std::{fmt, slice};

/// Decides by target and level what a layer is notified of.
///
/// Of the directives with whose target a target begins, that with the longest one decides; where
/// there is none, the default does; where there is none either, nothing passes.
///
/// Stands for `tracing_subscriber::filter::Targets`, without fields in directives.
#[derive(Debug, Drop)]
pub struct Targets {
    directives: Vec<Directive>,
    default: Option<LevelFilter>,
    ghost ordered: { is_longest_first (map target_of directives.items) ≡ true },
}

impl Targets {
    ghost use Rattle.span_targets.specs.Targets.{IsSame, TakesSome, directives_of, most_by, names_of};

    /// No directive and no default, so that nothing passes.
    pub fn new(alloc: Global) -> Targets
        ensures { names_of result ≡ nothing }
    {
        Targets {
            directives: Vec::new(alloc),
            default: None,
        }
    }

    /// Takes what a directive says.
    pub(crate) fn set(&mut self, said: Said<'_>) -> Result<(), AllocError>
        ensures { OnOk result (names_of self.new
            ≡ naming (option_copied said.entry.target) said.entry.level (names_of self.old)) }
    {
        match said.target {
            Some(target) => self.add(target, said.level)?,
            None => self.default = Some(said.level),
        }
        Ok(())
    }

    /// Lets these levels pass where a target begins with this one, in the place of those that did.
    ///
    /// Own to this port: the crate extends a filter by many at once.
    pub fn add(&mut self, target: &str, level: LevelFilter) -> Result<(), AllocError>
        ensures ok { OnOk result
            (names_of self.new ≡ naming (Some target.now) level (names_of self.old)) }
        ensures err { OnErr result (IsSame self.new self.old) }
    {
        match search(&self.directives, target) {
            Ok(place) => self.directives[place].set_level(level),
            Err(place) => {
                let directive = Directive::new(*self.directives.allocator(), target, level)?;
                self.directives.insert(place, directive)?;
            }
        }
        Ok(())
    }

    /// Adds each of these targets with its levels, in their order. Where memory is refused, the
    /// filter has some of the first.
    ///
    /// Stands for the crate's `Extend`.
    pub fn extend(&mut self, targets: &[(&str, LevelFilter)]) -> Result<(), AllocError>
        ensures ok { OnOk result
            (names_of self.new ≡ naming_each targets.now (names_of self.old)) }
        ensures err { OnErr result (TakesSome targets.now self.old self.new) }
    {
        for (target, level) in targets {
            self.add(target, *level)?;
        }
        Ok(())
    }

    /// The filter, with these levels where a target begins with this one.
    pub fn with_target(mut self, target: &str, level: LevelFilter) -> Result<Targets, AllocError>
        ensures { IfOk result (λ f. names_of f ≡ naming (Some target.now) level (names_of self)) }
    {
        self.add(target, level)?;
        Ok(self)
    }

    /// The filter, with each of these targets and its levels.
    pub fn with_targets(mut self, targets: &[(&str, LevelFilter)]) -> Result<Targets, AllocError>
        ensures { IfOk result (λ f. names_of f ≡ naming_each targets.now (names_of self)) }
    {
        self.extend(targets)?;
        Ok(self)
    }

    /// The filter, with these levels where a target begins with none of its targets.
    pub fn with_default(mut self, level: LevelFilter) -> Targets
        ensures { names_of result ≡ naming None level (names_of self) }
    {
        self.default = Some(level);
        self
    }

    /// The levels that pass where a target begins with none of its targets, if they were set.
    pub fn default_level(&self) -> Option<LevelFilter>
        ensures { result ≡ names_of self.now None }
    {
        self.default
    }

    /// The directives with targets, the longest target first.
    pub fn iter(&self) -> slice::Iter<'_, Directive>
        ensures { iter_rest result ≡ directives_of self.now }
    {
        self.directives.iter()
    }

    /// Whether the level passes at the target.
    pub fn would_enable(&self, target: &str, level: Level) -> bool
        ensures { result ≡ passes_level (level_for (names_of self.now) target.now) level }
    {
        self.level_for(target).passes(level)
    }

    /// The levels that pass at a target.
    fn level_for(&self, target: &str) -> LevelFilter
        ensures { result ≡ level_for (names_of self.now) target.now }
    {
        match first_level(&self.directives, target) {
            Some(level) => level,
            None => self.default.unwrap_or(LevelFilter::OFF),
        }
    }

    /// The most that passes at any target.
    ///
    /// Own to this port, where it is the filter's hint.
    pub fn max_level(&self) -> LevelFilter
        ensures value { result ≡ most_by self.now }
        ensures most { IsMost (names_of self.now) result }
    {
        most_of(&self.directives, self.level_for(""))
    }
}

/// Writes directives with commas between them, the longest target first and the default last, or
/// `off` where there is none. `laws::texts_are_read_back` says when the text is read back.
impl fmt::Display for Targets {
    ghost use Rattle.span_targets.specs.Targets.{text_of};

    ghost output = { λ targets. Some (text_of targets) };

    fn fmt<W: fmt::Write>(&self, f: &mut fmt::Formatter<W>) -> fmt::Result {
        let mut between = "";
        for directive in &self.directives {
            write!(f, "{between}{directive}")?;
            between = ",";
        }
        match self.default {
            Some(level) => {
                let word = level_word(level);
                write!(f, "{between}{word}")
            }
            None if between.is_empty() => write!(f, "off"),
            None => Ok(()),
        }
    }
}
