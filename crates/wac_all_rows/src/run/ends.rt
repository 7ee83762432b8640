//! The ends of runs of rows: an input, files, and outputs, which count their calls. A part `fails END NUMBER` of a row has the
//! call of that number, counted from 1, fail at `read`, `print`, `tell` or `file`; a part `pieces NUMBER` has each read and each
//! write take so many bytes at most; with the part `endless` the input begins again where it ended. None tells a proof what it
//! gives, takes or counts.

ghost use Rattle.std.specs.Prelude.{None};

use crate::run::files::files_of;
use std::alloc::Global;
use std::io::{self, Read, Write};
use wac::{ByteSink, ByteSource, Files, FilesError, MemoryFiles, run};
use wac_rows::{Row, Told};

/// The calls of an end: how many there were, which one fails, and how many bytes each takes at most.
#[derive(Clone, Copy)]
pub(crate) struct Calls {
    made: u64,
    fails_at: Option<u64>,
    most: usize,
}

impl Calls {
    /// What a row says of an end.
    fn of(row: &Row<'_>, end: &str) -> Self {
        let mut fails_at = None;
        for part in &row.parts {
            if part.kind == "fails" {
                let (name, number) = part.name.split_once(' ').unwrap_or(("", ""));
                if name == end {
                    fails_at = number.parse::<u64>().ok();
                }
            }
        }
        Calls {
            made: 0,
            fails_at,
            most: row.name_of("pieces").parse::<usize>().unwrap_or(usize::MAX),
        }
    }

    /// Counts a call. Whether it fails.
    fn count(&mut self) -> bool {
        self.made = self.made.saturating_add(1);
        self.fails_at == Some(self.made)
    }
}

/// A text that is read.
#[derive(Drop)]
struct Input<'a> {
    text: &'a [u8],
    rest: &'a [u8],
    is_endless: bool,
    calls: Calls,
}

impl<'a> Read for Input<'a> {
    fn read(&mut self, buf: &mut [u8]) -> io::Result<usize> {
        if self.calls.count() {
            return Err(io::Error::from(io::ErrorKind::BrokenPipe));
        }
        if self.rest.is_empty() && self.is_endless {
            self.rest = self.text;
        }
        let count = self.calls.most.min(buf.len()).min(self.rest.len());
        let (front, rest) = self.rest.split_at(count);
        buf[..count].copy_from_slice(front);
        self.rest = rest;
        Ok(count)
    }
}

impl<'a> ByteSource for Input<'a> {
    ghost calls = { λ _. None };

    fn read_some(&mut self, buf: &mut [u8]) -> io::Result<usize> {
        self.read(buf)
    }
}

/// What is printed or told.
#[derive(Drop)]
struct Sink {
    taken: Vec<u8>,
    calls: Calls,
}

impl Write for Sink {
    fn write(&mut self, buf: &[u8]) -> io::Result<usize> {
        if self.calls.count() {
            return Err(io::Error::from(io::ErrorKind::BrokenPipe));
        }
        let count = self.calls.most.min(buf.len());
        self.taken.extend_from_slice(&buf[..count])?;
        Ok(count)
    }

    fn flush(&mut self) -> io::Result<()> {
        Ok(())
    }
}

impl ByteSink for Sink {
    ghost calls = { λ _. None };

    fn write_some(&mut self, buf: &[u8]) -> io::Result<usize> {
        self.write(buf)
    }
}

/// A row's files.
#[derive(Drop)]
struct RowFiles {
    files: MemoryFiles,
    writes: Calls,
}

impl Files for RowFiles {
    ghost stored = { λ _. None };

    ghost failures = { λ _. None };

    fn read(&self, alloc: Global, path: &str) -> Result<Vec<u8>, FilesError> {
        self.files.read(alloc, path)
    }

    fn write(&mut self, alloc: Global, path: &str, bytes: &[u8]) -> Result<(), FilesError> {
        if self.writes.count() {
            return Err(FilesError::Failed);
        }
        self.files.write(alloc, path, bytes)
    }
}

/// The ends of a run.
#[derive(Drop)]
pub(crate) struct Ends<'a> {
    input: Input<'a>,
    files: RowFiles,
    out: Sink,
    err: Sink,
}

impl<'a> Ends<'a> {
    /// Those of a row, over an input. A fault of its files is told.
    pub(crate) fn new(told: &mut Told, row: &Row<'_>, input: &'a str) -> Self {
        Ends {
            input: Input {
                text: input.as_bytes(),
                rest: input.as_bytes(),
                is_endless: row.text("endless").is_some(),
                calls: Calls::of(row, "read"),
            },
            files: RowFiles {
                files: files_of(told, row),
                writes: Calls::of(row, "file"),
            },
            out: Sink {
                taken: Vec::new(told.alloc()),
                calls: Calls::of(row, "print"),
            },
            err: Sink {
                taken: Vec::new(told.alloc()),
                calls: Calls::of(row, "tell"),
            },
        }
    }

    /// Runs the program on words. The answer is its status.
    pub(crate) fn run(&mut self, alloc: Global, words: &[&str]) -> u8 {
        run(
            alloc,
            words,
            &mut self.input,
            &mut self.files,
            &mut self.out,
            &mut self.err,
        )
    }

    /// The files that are there.
    pub(crate) fn files(&self) -> &MemoryFiles {
        &self.files.files
    }

    /// What is printed.
    pub(crate) fn printed(&self) -> &[u8] {
        &self.out.taken
    }

    /// What is told of a refusal.
    pub(crate) fn told(&self) -> &[u8] {
        &self.err.taken
    }

    /// How often an end was called; none where there is none of that name.
    pub(crate) fn calls(&self, end: &str) -> Option<u64> {
        match end {
            "read" => Some(self.input.calls.made),
            "print" => Some(self.out.calls.made),
            "tell" => Some(self.err.calls.made),
            "file" => Some(self.files.writes.made),
            _ => None,
        }
    }
}
