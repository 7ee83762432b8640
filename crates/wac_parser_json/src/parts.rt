//! Arrays, and what may be absent.

ghost use Rattle.std.specs.Prelude.{map};
ghost use Rattle.std.specs.Option.{option_map};
ghost use Rattle.serde_json.specs.Data.{Data};
ghost use Rattle.wac_parser_print.specs.Objects.{array_of, or_null};
ghost use Rattle.wac_parser_json.specs.Writers.{Writes};

use crate::writer::JsonWriter;
use wac_streams::ByteSink;

/// Writes an object. Its members stand by ascending name, and each value is written by its expression.
macro_rules! object {
    ($out:expr; {$first:literal: $value:expr $(, $name:literal: $other:expr)*}) => {{
        $out.word(concat!("{\"", $first, "\":"));
        $value;
        $(
            $out.word(concat!(",\"", $name, "\":"));
            $other;
        )*
        $out.word("}");
    }};
}

pub(crate) use object;

/// A part of a document that is written as a value.
pub(crate) trait Part {
    ghost Plain: { Type 0 };

    ghost plain: { Self → Plain };

    ghost json: { Plain → Data };

    fn write<W: ByteSink>(&self, out: &mut JsonWriter<'_, W>)
        ensures { Writes W.contents W.calls out.old (json (plain self.now)) out.new };
}

/// Writes an array of the parts.
pub(crate) fn array<T: Part, W: ByteSink>(parts: &Vec<T>, out: &mut JsonWriter<'_, W>)
    ensures { Writes W.contents W.calls out.old (array_of T.json (map T.plain parts.now.items)) out.new }
{
    out.word("[");
    let mut between = "";
    for part in parts {
        out.word(between);
        part.write(out);
        between = ",";
    }
    out.word("]");
}

/// Writes the part, or `null`.
pub(crate) fn optional<T: Part, W: ByteSink>(part: &Option<T>, out: &mut JsonWriter<'_, W>)
    ensures { Writes W.contents W.calls out.old (or_null T.json (option_map T.plain part.now)) out.new }
{
    match part {
        Some(part) => part.write(out),
        None => out.word("null"),
    }
}
