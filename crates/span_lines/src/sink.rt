//! A writer that keeps nothing.
ghost use Rattle.std.specs.Prelude.{Some, [], None};

use std::io::{self, Write};

/// Takes all that it is given, and keeps none of it. Stands for `std::io::sink`.
#[derive(Drop)]
pub struct Sink;

impl Write for Sink {
    ghost contents = { λ w. None };

    fn write(&mut self, buf: &[u8]) -> io::Result<usize> {
        Ok(buf.len())
    }

    fn flush(&mut self) -> io::Result<()> {
        Ok(())
    }
}
