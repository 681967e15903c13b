//! What a filter is set to while a program runs.
ghost use Rattle.std.specs.Prelude.{◌≡◌, IfOk};
ghost use Rattle.span_targets.specs.EnvText.{env_reading};
ghost use Rattle.span_targets.specs.Setting.{ReadsSetting, level_in, sets_to};
ghost use Rattle.span_targets.specs.declared.setting.Setting.TheVariants.{Level};

use crate::env_filter::EnvFilter;
use crate::error::ParseError;
use span_core::LevelFilter;
use std::alloc::{AllocError, Global};

/// What a filter is set to while a program runs: a level, or directives.
///
/// Directives are never given back, so that filters take them without memory: they stay where they
/// are until the program ends.
///
/// Stands for the new value of `tracing_subscriber::reload::Handle::reload`.
#[derive(Clone, Copy, Debug)]
pub enum Setting {
    /// Levels up to this one pass.
    Level(LevelFilter),
    /// What these directives let by passes.
    Directives(&'static EnvFilter),
}

impl Setting {
    /// The setting of these directives, which are never given back.
    pub fn leak(alloc: Global, filter: EnvFilter) -> Result<Setting, AllocError>
        ensures { IfOk result (sets_to filter) }
    {
        let kept: &'static EnvFilter = Box::leak(Box::new(alloc, filter)?);
        Ok(Setting::Directives(kept))
    }

    /// Reads directives as `EnvFilter::parse` does. They are never given back.
    pub fn parse(alloc: Global, text: &str) -> Result<Setting, ParseError>
        ensures { ReadsSetting (env_reading text.now) result }
    {
        let filter = EnvFilter::parse(alloc, text)?;
        Ok(Setting::leak(alloc, filter)?)
    }

    /// The level, if the setting is one.
    pub fn level(&self) -> Option<LevelFilter>
        ensures { result ≡ level_in self.now }
    {
        match self {
            Setting::Level(level) => Some(*level),
            Setting::Directives(_) => None,
        }
    }
}

impl From<LevelFilter> for Setting {
    ghost from_gives = { λ level setting. setting ≡ Level level };

    fn from(level: LevelFilter) -> Setting {
        Setting::Level(level)
    }
}
