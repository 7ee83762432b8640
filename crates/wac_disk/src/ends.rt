//! Standard output and standard error as ends of a run.

ghost use Rattle.std.specs.Prelude.{None};

use std::io::{self, Write};
use wac_streams::ByteSink;

/// Standard output.
#[derive(Drop)]
pub struct OutputEnd<'a> {
    pub rt: &'a HostRuntime,
}

impl Write for OutputEnd<'_> {
    fn write(&mut self, buf: &[u8]) -> io::Result<usize> {
        self.rt.stdout().write(buf)
    }

    fn flush(&mut self) -> io::Result<()> {
        self.rt.stdout().flush()
    }
}

impl ByteSink for OutputEnd<'_> {
    ghost calls = { λ _. None };

    fn write_some(&mut self, buf: &[u8]) -> io::Result<usize> {
        self.write(buf)
    }
}

/// Standard error.
#[derive(Drop)]
pub struct ErrorEnd<'a> {
    pub rt: &'a HostRuntime,
}

impl Write for ErrorEnd<'_> {
    fn write(&mut self, buf: &[u8]) -> io::Result<usize> {
        self.rt.stderr().write(buf)
    }

    fn flush(&mut self) -> io::Result<()> {
        self.rt.stderr().flush()
    }
}

impl ByteSink for ErrorEnd<'_> {
    ghost calls = { λ _. None };

    fn write_some(&mut self, buf: &[u8]) -> io::Result<usize> {
        self.write(buf)
    }
}
