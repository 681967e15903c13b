//! Filters by targets, read from texts.
ghost use Rattle.std.specs.Prelude.{◌≡◌, IfOk, OnOk};
ghost use Rattle.span_targets.specs.Text.{Reads, ReadsLossily, meaning, reading};
ghost use Rattle.span_targets.specs.private.Take.{Takes, TakesAll};

use crate::error::{Fault, ParseError, WrongDirective};
use crate::read::read_directive;
use crate::targets::Targets;
use std::alloc::{AllocError, Global};

/// How many directives of a text are read at most.
pub const MAX_DIRECTIVES: usize = 1024;

impl Targets {
    /// Reads directives, with commas between them. A later one replaces an earlier one with the
    /// same target.
    ///
    /// A directive is `target=level`; or a level, which is the default; or a target, of which each
    /// level passes then. A level is what `LevelFilter` reads: `off`, `error`, `warn`, `info`,
    /// `debug` or `trace`, in any case, or a number from 0 to 5; the empty text is `error`.
    ///
    /// Of a text with more than `MAX_DIRECTIVES` the next one is wrong, and none behind it is read:
    /// so the time grows with the text's length alone.
    pub fn parse(alloc: Global, text: &str) -> Result<Targets, ParseError>
        ensures { Reads (reading text.now) result }
    {
        let (targets, wrong) = Targets::parse_lossy(alloc, text)?;
        match wrong.first() {
            Some(wrong) => Err(ParseError::Wrong(*wrong)),
            None => Ok(targets),
        }
    }

    /// Reads directives as `parse` does, but leaves out those that are wrong, and says which.
    ///
    /// Stands for `tracing_subscriber::filter::Builder::parse_lossy`, which prints them.
    pub fn parse_lossy(
        alloc: Global,
        text: &str,
    ) -> Result<(Targets, Vec<WrongDirective>), AllocError>
        ensures { IfOk result (λ r. ReadsLossily text.now r.0 r.1.items) }
    {
        let mut targets = Targets::new(alloc);
        let mut wrong = Vec::new(alloc);
        targets.take_all(text, &mut wrong)?;
        Ok((targets, wrong))
    }

    /// Takes the directives of a text, and notes which are wrong.
    fn take_all(&mut self, text: &str, wrong: &mut Vec<WrongDirective>) -> Result<(), AllocError>
        ensures { OnOk result
            (TakesAll text.now self.old wrong.old.items self.new wrong.new.items) }
    {
        let mut rest = text;
        for index in 0..MAX_DIRECTIVES {
            match rest.split_once(',') {
                Some((first, later)) => {
                    self.take(index + 1, first, wrong)?;
                    rest = later;
                }
                None => return self.take(index + 1, rest, wrong),
            }
        }
        wrong.push(WrongDirective {
            number: MAX_DIRECTIVES + 1,
            fault: Fault::TooMany,
        })?;
        Ok(())
    }

    /// Takes the directive with this number, or notes what is wrong with it.
    fn take(
        &mut self,
        number: usize,
        text: &str,
        wrong: &mut Vec<WrongDirective>,
    ) -> Result<(), AllocError>
        ensures { OnOk result
            (Takes number (meaning text.now) self.old wrong.old.items self.new wrong.new.items) }
    {
        match read_directive(text) {
            Ok(said) => self.set(said)?,
            Err(fault) => wrong.push(WrongDirective { number, fault })?,
        }
        Ok(())
    }
}
