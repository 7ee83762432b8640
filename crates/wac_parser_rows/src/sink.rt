//! A writer that fails, takes nothing, or takes few bytes a call.

ghost use Rattle.std.specs.Prelude.{None};

use std::alloc::Global;
use std::io::{self, Write};
use wac_parser_print::ByteSink;

/// Takes at most so many bytes a call, and fails at the call of that number, counted from 1, or
/// takes nothing there.
#[derive(Drop)]
pub(crate) struct Sink {
    pub(crate) taken: Vec<u8>,
    most: usize,
    pub(crate) fails_at: usize,
    takes_nothing: bool,
    pub(crate) calls: usize,
}

impl Sink {
    pub(crate) fn new(alloc: Global, most: usize, fails_at: usize, takes_nothing: bool) -> Self {
        Sink {
            taken: Vec::new(alloc),
            most,
            fails_at,
            takes_nothing,
            calls: 0,
        }
    }
}

impl Write for Sink {
    fn write(&mut self, buf: &[u8]) -> io::Result<usize> {
        self.calls = self.calls.saturating_add(1);
        if self.fails_at == self.calls {
            if self.takes_nothing {
                return Ok(0);
            }
            return Err(io::Error::from(io::ErrorKind::BrokenPipe));
        }
        let count = self.most.min(buf.len());
        self.taken.extend_from_slice(&buf[..count])?;
        Ok(count)
    }

    fn flush(&mut self) -> io::Result<()> {
        Ok(())
    }
}

impl ByteSink for Sink {
    ghost calls = { λ _. None };

    fn write_some(&mut self, buf: &[u8]) -> io::Result<usize> {
        self.write(buf)
    }
}
