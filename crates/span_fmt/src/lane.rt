//! Names of lanes.
ghost use Rattle.std.specs.Prelude.{◌≡◌, OnErr, OnOk};
ghost use Rattle.span_fmt.specs.Known.{nothing_known, with_text};
ghost use Rattle.span_fmt.specs.Lane.{lane_text, names_in};
ghost use Rattle.span_fmt.specs.Text.{IsContinued};

use crate::quote::write_quoted;
use span_core::Lane;
use std::alloc::{AllocError, Global};
use std::collections::BTreeMap;

/// Names of lanes, by the lanes' numbers. Lanes that share a name look alike in lines.
///
/// Stands for the names that threads have in Rust.
#[derive(Drop)]
pub struct LaneNames {
    names: BTreeMap<u32, String>,
}

impl LaneNames {
    /// No lane has a name.
    pub fn new(alloc: Global) -> LaneNames
        ensures { names_in result ≡ nothing_known }
    {
        LaneNames {
            names: BTreeMap::new(alloc),
        }
    }

    /// The name of a lane, and an empty text where it has none.
    pub fn name(&self, lane: Lane) -> &str
        ensures { result.now ≡ names_in self.now lane.0 }
    {
        match self.names.get(&lane.0) {
            Some(name) => name.as_str(),
            None => "",
        }
    }

    /// Gives a lane a name; an empty one is none.
    pub fn set(&mut self, alloc: Global, lane: Lane, name: &str) -> Result<(), AllocError>
        ensures named { OnOk result
            (names_in self.new ≡ with_text lane.0 name.now (names_in self.old)) }
        ensures unchanged { OnErr result (names_in self.new ≡ names_in self.old) }
    {
        let name = String::from_str(alloc, name)?;
        match self.names.insert(lane.0, name) {
            Ok(_) => Ok(()),
            Err(_) => Err(AllocError),
        }
    }

    /// Writes a lane: its name in quotes, as `write_quoted` has it, or else its number.
    ///
    /// Where memory is refused, no clause says what of it is written: throw the text away.
    pub fn write_lane(&self, text: &mut String, lane: Lane) -> Result<(), AllocError>
        ensures { OnOk result
            (IsContinued text.old text.new (lane_text (names_in self.now) lane.0)) }
    {
        let name = self.name(lane);
        if name.is_empty() {
            return write!(text, "{}", lane.0);
        }
        write_quoted(text, name)
    }
}
