//! Where a text stands in a source.

ghost use Rattle.std.specs.Prelude.{◌≡◌, ◌==◌, ◌↔◌, IsTrue};
ghost use Rattle.wac_parser_lexer.specs.Pieces.{IsSpanIn};

/// A part of a source, in bytes.
#[derive(Clone, Copy, Debug, PartialEq, Eq)]
pub struct SourceSpan {
    /// Where the part begins.
    pub offset: usize,
    /// How many bytes it has.
    pub length: usize,
}

impl SourceSpan {
    /// The part of so many bytes from a place on.
    pub fn new(offset: usize, length: usize) -> Self
        ensures begins { result.offset ≡ offset }
        ensures bytes { result.length ≡ length }
    {
        SourceSpan { offset, length }
    }

    /// Where the part begins.
    pub fn offset(&self) -> usize
        ensures { result ≡ self.now.offset }
    {
        self.offset
    }

    /// How many bytes the part has.
    pub fn len(&self) -> usize
        ensures { result ≡ self.now.length }
    {
        self.length
    }

    /// Whether the part has no bytes.
    pub fn is_empty(&self) -> bool
        ensures { result ≡ (self.now.length == 0) }
    {
        self.len() == 0
    }
}

/// Whether a span lies in a source, on the bounds of characters.
pub fn span_in(source: &str, span: SourceSpan) -> bool
    ensures { IsTrue result ↔ IsSpanIn source.now span }
{
    match span.offset.checked_add(span.length) {
        Some(end) => source.is_char_boundary(span.offset) && source.is_char_boundary(end),
        None => false,
    }
}
