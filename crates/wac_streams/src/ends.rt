//! Readers and writers that tell their calls.

ghost use Rattle.std.specs.Prelude.{Option, None};
ghost use Rattle.std.specs.Io.{ReadsAtMost, WritesAtMost};
ghost use Rattle.std.specs.Io.KnownBytes.{ReadConsumes, WriteAppends};
ghost use Rattle.wac_streams.specs.Calls.{Calls, CountsRead, CountsWrite};

use std::io::{self, Read, Stdin, Write};

/// A reader whose contract tells its calls and its failures, where they are known. A reader of one's own implements it by
/// [`Read::read`], with `calls` as none where nothing counts them.
pub trait ByteSource: Read {
    ghost calls: { Self → Option Calls };

    /// One read, as [`Read::read`].
    fn read_some(&mut self, buf: &mut [u8]) -> io::Result<usize>
        ensures bound { ReadsAtMost result buf.new }
        ensures bytes { ReadConsumes (Self.remaining self.old) (Self.remaining self.new) result buf.new }
        ensures counted { CountsRead (calls self.old) (calls self.new) result };
}

/// A writer whose contract tells its calls and its failures, where they are known. A writer of one's own implements it by
/// [`Write::write`], with `calls` as none where nothing counts them.
pub trait ByteSink: Write {
    ghost calls: { Self → Option Calls };

    /// One write, as [`Write::write`]: it takes a front of the bytes and says how many, or fails and takes none.
    fn write_some(&mut self, buf: &[u8]) -> io::Result<usize>
        ensures bound { WritesAtMost result buf.now }
        ensures bytes { WriteAppends (Self.contents self.old) (Self.contents self.new) result buf.now }
        ensures counted { CountsWrite (calls self.old) (calls self.new) result buf.now };
}

impl ByteSource for Stdin {
    ghost calls = { λ _. None };

    fn read_some(&mut self, buf: &mut [u8]) -> io::Result<usize> {
        self.read(buf)
    }
}

impl ByteSink for Vec<u8> {
    ghost calls = { λ _. None };

    fn write_some(&mut self, buf: &[u8]) -> io::Result<usize> {
        self.write(buf)
    }
}
