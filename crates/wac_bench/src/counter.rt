//! A sink that counts.

ghost use Rattle.std.specs.Prelude.{None};

use std::io::{self, Write};
use wac_streams::ByteSink;

/// How many bytes were written to it.
#[derive(Drop)]
pub(crate) struct Counter {
    pub(crate) count: usize,
}

impl Write for Counter {
    fn write(&mut self, buf: &[u8]) -> io::Result<usize> {
        self.count = self.count.saturating_add(buf.len());
        Ok(buf.len())
    }

    fn flush(&mut self) -> io::Result<()> {
        Ok(())
    }
}

impl ByteSink for Counter {
    ghost calls = { λ _. None };

    fn write_some(&mut self, buf: &[u8]) -> io::Result<usize> {
        self.write(buf)
    }
}
