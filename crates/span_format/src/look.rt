//! How lines look.
ghost use Rattle.std.specs.Prelude.{◌≡◌, OnOk};
ghost use Rattle.span_fmt.specs.Text.{IsContinued};
ghost use Rattle.span_format.specs.Look.{begun_text, lane_text, level_column, looks, margin, target_text};

use crate::layout::Layout;
use crate::style::{Style, ended, write_styled};
use span_core::{Lane, Level, Metadata};
use span_fmt::LaneNames;
use std::alloc::AllocError;

/// How lines look: how they are laid out, what they show beside spans, message and fields, whether
/// parts of them are in styles, and what lanes are called.
#[derive(Drop)]
pub(crate) struct Look {
    pub(crate) layout: Layout,
    pub(crate) level: bool,
    pub(crate) target: bool,
    pub(crate) lanes: bool,
    pub(crate) ansi: bool,
    pub(crate) names: LaneNames,
}

impl Look {
    /// Writes how a line begins: with its level and its lane, as far as they are shown.
    pub(crate) fn begin(
        &self,
        text: &mut String,
        lane: Lane,
        level: Level,
    ) -> Result<(), AllocError>
        ensures { OnOk result
            (IsContinued text.old text.new (begun_text (looks self.now) lane.0 level)) }
    {
        self.write_level(text, level)?;
        if self.lanes {
            self.write_lane(text, lane)?;
            text.push_str(" ")?;
        }
        Ok(())
    }

    /// Writes a level at the right of five columns and a space, if levels are shown.
    pub(crate) fn write_level(&self, text: &mut String, level: Level) -> Result<(), AllocError>
        ensures { OnOk result
            (IsContinued text.old text.new (level_column (looks self.now) level)) }
    {
        if !self.level {
            return Ok(());
        }
        text.push_str(Style::Level(level).begun(self.ansi))?;
        text.push_str(margin(level))?;
        text.push_str(level.as_str())?;
        text.push_str(ended(self.ansi))?;
        text.push_str(" ")
    }

    /// Writes a lane's name in quotes, or its number where it has none.
    pub(crate) fn write_lane(&self, text: &mut String, lane: Lane) -> Result<(), AllocError>
        ensures { OnOk result
            (IsContinued text.old text.new (lane_text (looks self.now) lane.0)) }
    {
        self.names.write_lane(text, lane)
    }

    /// Writes a target, a colon and a space, if targets are shown.
    pub(crate) fn write_target(
        &self,
        text: &mut String,
        metadata: Metadata,
    ) -> Result<(), AllocError>
        ensures { OnOk result
            (IsContinued text.old text.new (target_text (looks self.now) metadata)) }
    {
        if !self.target {
            return Ok(());
        }
        write_styled(text, self.ansi, Style::Dim, metadata.target())?;
        text.push_str(": ")
    }
}

/// What stands in front of a level that is at the right of five columns.
fn margin(level: Level) -> &'static str
    ensures { result.now ≡ margin level }
{
    if level.as_str().len() < 5 { " " } else { "" }
}
