//! Test ends for streams: readers and writers that fail, never end, or go one byte at a time. None tells a proof what it
//! gives, takes or counts; each counts its calls for the tests.
ghost use Rattle.std.specs.Prelude.{None};

use std::alloc::Global;
use std::io::{self, Read, Write};
use wac_streams::{ByteSink, ByteSource};

/// Fails at each call.
#[derive(Debug, Drop)]
pub(crate) struct FailsAtOnce {
    pub calls: usize,
}

impl Read for FailsAtOnce {
    fn read(&mut self, _buf: &mut [u8]) -> io::Result<usize> {
        self.calls = self.calls.saturating_add(1);
        Err(io::Error::from(io::ErrorKind::BrokenPipe))
    }
}

impl ByteSource for FailsAtOnce {
    ghost calls = { λ _. None };

    fn read_some(&mut self, buf: &mut [u8]) -> io::Result<usize> {
        self.read(buf)
    }
}

/// Gives the same byte without end.
#[derive(Debug, Drop)]
pub(crate) struct Endless {
    pub byte: u8,
    pub calls: usize,
}

impl Read for Endless {
    fn read(&mut self, buf: &mut [u8]) -> io::Result<usize> {
        self.calls = self.calls.saturating_add(1);
        buf.fill(self.byte);
        Ok(buf.len())
    }
}

impl ByteSource for Endless {
    ghost calls = { λ _. None };

    fn read_some(&mut self, buf: &mut [u8]) -> io::Result<usize> {
        self.read(buf)
    }
}

/// Gives a slice's bytes, at most so many a call, and fails at the call of that number, counted from 1.
#[derive(Debug, Drop)]
pub(crate) struct SliceSource<'a> {
    pub rest: &'a [u8],
    pub most: usize,
    pub fails_at: Option<usize>,
    pub calls: usize,
}

impl<'a> SliceSource<'a> {
    /// All that there is room for at once.
    pub(crate) fn new(bytes: &'a [u8]) -> Self {
        SliceSource {
            rest: bytes,
            most: usize::MAX,
            fails_at: None,
            calls: 0,
        }
    }
}

impl<'a> Read for SliceSource<'a> {
    fn read(&mut self, buf: &mut [u8]) -> io::Result<usize> {
        self.calls = self.calls.saturating_add(1);
        if self.fails_at == Some(self.calls) {
            return Err(io::Error::from(io::ErrorKind::BrokenPipe));
        }
        let count = self.most.min(buf.len()).min(self.rest.len());
        let (front, rest) = self.rest.split_at(count);
        buf[..count].copy_from_slice(front);
        self.rest = rest;
        Ok(count)
    }
}

impl<'a> ByteSource for SliceSource<'a> {
    ghost calls = { λ _. None };

    fn read_some(&mut self, buf: &mut [u8]) -> io::Result<usize> {
        self.read(buf)
    }
}

/// Takes nothing.
#[derive(Debug, Drop)]
pub(crate) struct TakesNothing {
    pub calls: usize,
}

impl Write for TakesNothing {
    fn write(&mut self, _buf: &[u8]) -> io::Result<usize> {
        self.calls = self.calls.saturating_add(1);
        Ok(0)
    }

    fn flush(&mut self) -> io::Result<()> {
        Ok(())
    }
}

impl ByteSink for TakesNothing {
    ghost calls = { λ _. None };

    fn write_some(&mut self, buf: &[u8]) -> io::Result<usize> {
        self.write(buf)
    }
}

/// Takes at most so many bytes a call, and fails at the call of that number, counted from 1.
#[derive(Debug, Drop)]
pub(crate) struct VecSink {
    pub taken: Vec<u8>,
    pub most: usize,
    pub fails_at: Option<usize>,
    pub calls: usize,
}

impl VecSink {
    /// All that it is given.
    pub(crate) fn new(alloc: Global) -> Self {
        VecSink {
            taken: Vec::new(alloc),
            most: usize::MAX,
            fails_at: None,
            calls: 0,
        }
    }

    /// One byte a call.
    pub(crate) fn byte_by_byte(alloc: Global) -> Self {
        VecSink {
            taken: Vec::new(alloc),
            most: 1,
            fails_at: None,
            calls: 0,
        }
    }

    /// Fails at each first call.
    pub(crate) fn failing(alloc: Global) -> Self {
        VecSink {
            taken: Vec::new(alloc),
            most: 1,
            fails_at: Some(1),
            calls: 0,
        }
    }
}

impl Write for VecSink {
    fn write(&mut self, buf: &[u8]) -> io::Result<usize> {
        self.calls = self.calls.saturating_add(1);
        if self.fails_at == Some(self.calls) {
            return Err(io::Error::from(io::ErrorKind::BrokenPipe));
        }
        let count = self.most.min(buf.len());
        self.taken.extend_from_slice(&buf[..count])?;
        Ok(count)
    }

    fn flush(&mut self) -> io::Result<()> {
        Ok(())
    }
}

impl ByteSink for VecSink {
    ghost calls = { λ _. None };

    fn write_some(&mut self, buf: &[u8]) -> io::Result<usize> {
        self.write(buf)
    }
}
