//! A printer: where its text goes, and the smallest texts.

ghost use Rattle.std.specs.Prelude.{◌≡◌, MatchOption, false, codes};
ghost use Rattle.wac_parser_lexer.specs.Pieces.{text_at};
ghost use Rattle.wac_parser_print.specs.Texts.{word as word_text, slice as slice_text, line_end as line_end_text, indent as indent_text, unit};
ghost use Rattle.wac_parser_print.specs.Printers.{Adds, Tells};

use crate::error::PrintError;
use std::marker::Model;
use wac_parser_lexer::SourceSpan;
use wac_streams::{ByteSink, write_bytes};

/// Prints documents and their parts to a writer of bytes, as UTF-8 text.
///
/// Names, paths and strings are taken from the source, at the trees' places (offset and length in bytes);
/// what a place has behind the source's end is left out. Each method prints its form from the left
/// edge, and its contract says the text. It answers `Write` where a write failed or took nothing: a
/// front of the text was written by then. From there on every method answers `Failed`, and the writer
/// gets no call. The forms are those of the original's printer; `docs/DIFFERENCES.md` says what differs.
#[derive(Drop)]
pub struct DocumentPrinter<'a, W: ByteSink + Drop> {
    writer: W,
    source: &'a str,
    space: &'a str,
    failed: bool,
}

impl<'a, W: ByteSink + Drop> Model for DocumentPrinter<'a, W> {
    ghost use Rattle.wac_parser_print.specs.Printers.{Printer};

    ghost Value = { Printer };

    ghost view = { λ p. record {
      layout = record { source = p.source.now; space = p.space.now };
      failed = p.failed;
      written = W.contents p.writer;
      calls = W.calls p.writer;
    } };
}

/// The part of a source at a span, as far as the source goes.
fn part_at(source: &str, span: SourceSpan) -> &[u8]
    ensures { result.now ≡ text_at source.now span }
{
    let bytes = source.as_bytes();
    let rest = &bytes[span.offset.min(bytes.len())..];
    &rest[..span.length.min(rest.len())]
}

impl<'a, W: ByteSink + Drop> DocumentPrinter<'a, W> {
    /// A printer of trees over this source, which writes nothing yet. A level of indentation is `space`,
    /// or four blanks.
    pub fn new(writer: W, source: &'a str, space: Option<&'a str>) -> Self
        ensures source { result.layout.source ≡ source.now }
        ensures space { MatchOption space.entry (result.layout.space ≡ codes "    ") (λ s. result.layout.space ≡ s.now) }
        ensures works { result.failed ≡ false }
        ensures written { result.written ≡ W.contents writer }
        ensures calls { result.calls ≡ W.calls writer }
    {
        DocumentPrinter {
            writer,
            source,
            space: space.unwrap_or("    "),
            failed: false,
        }
    }

    /// The writer, with what was printed; nothing is flushed.
    pub fn into_writer(self) -> W
        ensures written { W.contents result ≡ self.entry.written }
        ensures calls { W.calls result ≡ self.entry.calls }
    {
        let DocumentPrinter {
            writer,
            source: _,
            space: _,
            failed: _,
        } = self;
        writer
    }

    /// Whether a write of this printer failed.
    pub(crate) fn has_failed(&self) -> bool
        ensures { result ≡ self.now.failed }
    {
        self.failed
    }

    /// The answer of a call before which the printer had failed, or not.
    pub(crate) fn outcome(&self, had_failed: bool) -> Result<(), PrintError>
        ensures { Tells had_failed self.now.failed result }
    {
        if had_failed {
            return Err(PrintError::Failed);
        }
        if self.failed {
            return Err(PrintError::Write);
        }
        Ok(())
    }

    /// Adds bytes, unless a write failed.
    fn add_bytes(&mut self, bytes: &[u8])
        ensures { Adds self.old (word_text bytes.now) self.new }
    {
        if self.failed {
            return;
        }
        if write_bytes(&mut self.writer, bytes).is_err() {
            self.failed = true;
        }
    }

    pub(crate) fn word(&mut self, text: &str)
        ensures { Adds self.old (word_text text.now) self.new }
    {
        self.add_bytes(text.as_bytes());
    }

    /// Adds what the source has at a span.
    pub(crate) fn slice(&mut self, span: SourceSpan)
        ensures { Adds self.old (slice_text span) self.new }
    {
        let source = self.source;
        self.add_bytes(part_at(source, span));
    }

    pub(crate) fn line_end(&mut self)
        ensures { Adds self.old line_end_text self.new }
    {
        self.word("\n");
    }

    /// Adds one unit of indentation.
    fn unit(&mut self)
        ensures { Adds self.old unit self.new }
    {
        let space = self.space;
        self.word(space);
    }

    /// Adds so many units of indentation.
    pub(crate) fn indent(&mut self, level: usize)
        ensures { Adds self.old (indent_text level) self.new }
    {
        for n in 0..level {
            self.unit();
        }
    }
}
