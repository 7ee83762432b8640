//! The segments of a package path.

ghost use Rattle.std.specs.Prelude.{◌≡◌, ◌∷◌, length};
ghost use Rattle.std.specs.Option.{option_map};
ghost use Rattle.std.specs.Iterator.{at_most};
ghost use Rattle.wac_parser_tree.specs.Segments.{GivesSegment, between_slashes, placed, texts_left};

use std::marker::Model;
use wac_parser_lexer::SourceSpan;

/// The segments of a path that are left, each with where it stands.
#[derive(Drop)]
pub struct SegmentSpans<'a> {
    // the text of the segments, none behind the last
    rest: Option<&'a str>,
    // where that text begins
    at: usize,
}

impl<'a> Model for SegmentSpans<'a> {
    ghost use Rattle.std.specs.Prelude.{List, ◌<◌, ◌^◌};
    ghost use Rattle.std.specs.Option.{option_map};
    ghost use Rattle.wac_parser_tree.specs.Segments.{Segment, segments_left};

    ghost Value = { List Segment };

    ghost view = { λ s. segments_left s.at (option_map (λ text. text.now) s.rest) };

    ghost invariant = { λ s. s.at < 2 ^ 64 };
}

/// A text up to its first slash, and what follows the slash.
fn cut_segment(text: &str) -> (&str, Option<&str>)
    ensures { between_slashes text.now ≡ result.0.now ∷ texts_left (option_map (λ rest. rest.now) result.1) }
{
    match text.split_once('/') {
        Some((first, rest)) => (first, Some(rest)),
        None => (text, None),
    }
}

impl<'a> SegmentSpans<'a> {
    /// The segments of a text that begins at a place.
    pub(crate) fn new(segments: &'a str, at: usize) -> Self
        ensures { result ≡ placed at (between_slashes segments.now) }
    {
        SegmentSpans {
            rest: Some(segments),
            at,
        }
    }
}

impl<'a> Iterator for SegmentSpans<'a> {
    type Item = (&'a str, SourceSpan);

    ghost next_gives = { λ old found new. GivesSegment old (option_map (λ s. (s.0.now, s.1)) found) new };

    ghost remaining = { λ s. at_most (length s) };

    fn next(&mut self) -> Option<(&'a str, SourceSpan)> {
        let text = self.rest?;
        let (segment, rest) = cut_segment(text);
        let span = SourceSpan {
            offset: self.at,
            length: segment.len(),
        };
        self.at = self.at.saturating_add(segment.len()).saturating_add(1);
        self.rest = rest;
        Some((segment, span))
    }
}
