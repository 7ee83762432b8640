//! Names, places, versions and doc comments.

ghost use Rattle.std.specs.Prelude.{decimal};
ghost use Rattle.std.specs.Option.{option_map};
ghost use Rattle.json.specs.Print.{escape};
ghost use Rattle.semver.specs.Identifiers.{marked, parts_of, version_text};
ghost use Rattle.serde_json.specs.Data.{string};
ghost use Rattle.wac_parser_tree.specs.Trees as t;
ghost use Rattle.wac_parser_tree.specs.Views.{view_doc_comment, view_extern_name, view_ident, view_package_name, view_package_path, view_string};
ghost use Rattle.wac_parser_print.specs.Objects as objects;
ghost use Rattle.wac_parser_print.specs.Values as values;
ghost use Rattle.wac_parser_json.specs.Writers.{Writes, WritesBytes};

use crate::parts::{Part, object};
use crate::writer::JsonWriter;
use itoa::Buffer;
use semver::Version;
use wac_parser_lexer::SourceSpan;
use wac_parser_tree::{DocComment, ExternName, Ident, PackageName, PackagePath, String};
use wac_streams::ByteSink;

pub(crate) fn span<W: ByteSink>(at: SourceSpan, out: &mut JsonWriter<'_, W>)
    ensures { Writes W.contents W.calls out.old (objects.span at) out.new }
{
    object!(out; {
        "length": out.number(at.length as u64),
        "offset": out.number(at.offset as u64)
    });
}

/// Writes a number as it stands in a string.
fn numeral<W: ByteSink>(number: u64, out: &mut JsonWriter<'_, W>)
    ensures { WritesBytes W.contents W.calls out.old (escape (decimal number)) out.new }
{
    let mut buffer = Buffer::new();
    out.escaped(buffer.format(number).as_bytes());
}

/// Writes the mark and the text behind it, or nothing where there is no text.
fn marked<W: ByteSink>(mark: u8, text: &str, out: &mut JsonWriter<'_, W>)
    ensures { WritesBytes W.contents W.calls out.old (escape (marked mark text.now)) out.new }
{
    if text.is_empty() {
        return;
    }
    out.escaped(&[mark]);
    out.escaped(text.as_bytes());
}

fn version_text<W: ByteSink>(version: &Version, out: &mut JsonWriter<'_, W>)
    ensures { Writes W.contents W.calls out.old (string (version_text version.now)) out.new }
{
    out.word("\"");
    numeral(version.major, out);
    out.word(".");
    numeral(version.minor, out);
    out.word(".");
    numeral(version.patch, out);
    marked(b'-', version.pre.as_str(), out);
    marked(b'+', version.build.as_str(), out);
    out.word("\"");
}

/// Writes the text of the version, or `null`.
fn version<W: ByteSink>(version: &Option<Version>, out: &mut JsonWriter<'_, W>)
    ensures { Writes W.contents W.calls out.old (objects.version (option_map parts_of version.now)) out.new }
{
    match version {
        Some(version) => version_text(version, out),
        None => out.word("null"),
    }
}

/// Writes the text of a version track, or `null`.
pub(crate) fn track<W: ByteSink>(track: Option<&str>, out: &mut JsonWriter<'_, W>)
    ensures { Writes W.contents W.calls out.old (objects.or_null string (option_map (λ t. t.now) track.entry)) out.new }
{
    match track {
        Some(track) => out.string(track),
        None => out.word("null"),
    }
}

pub(crate) fn ident<W: ByteSink>(id: &Ident<'_>, out: &mut JsonWriter<'_, W>)
    ensures { Writes W.contents W.calls out.old (values.ident (view_ident id.now)) out.new }
{
    object!(out; {
        "span": span(id.span, out),
        "string": out.string(id.string)
    });
}

impl<'a> Part for Ident<'a> {
    ghost Plain = { t.Ident };

    ghost plain = { view_ident };

    ghost json = { values.ident };

    fn write<W: ByteSink>(&self, out: &mut JsonWriter<'_, W>) {
        ident(self, out);
    }
}

pub(crate) fn string_literal<W: ByteSink>(literal: &String<'_>, out: &mut JsonWriter<'_, W>)
    ensures { Writes W.contents W.calls out.old (values.string_literal (view_string literal.now)) out.new }
{
    object!(out; {
        "span": span(literal.span, out),
        "value": out.string(literal.value)
    });
}

fn doc_comment<W: ByteSink>(doc: &DocComment<'_>, out: &mut JsonWriter<'_, W>)
    ensures { Writes W.contents W.calls out.old (values.doc_comment (view_doc_comment doc.now)) out.new }
{
    object!(out; {
        "comment": out.string(doc.comment),
        "span": span(doc.span, out)
    });
}

impl<'a> Part for DocComment<'a> {
    ghost Plain = { t.DocComment };

    ghost plain = { view_doc_comment };

    ghost json = { values.doc_comment };

    fn write<W: ByteSink>(&self, out: &mut JsonWriter<'_, W>) {
        doc_comment(self, out);
    }
}

pub(crate) fn package_name<W: ByteSink>(name: &PackageName<'_>, out: &mut JsonWriter<'_, W>)
    ensures { Writes W.contents W.calls out.old (values.package_name (view_package_name name.now)) out.new }
{
    object!(out; {
        "name": out.string(name.name),
        "span": span(name.span, out),
        "string": out.string(name.string),
        "version": version(&name.version, out)
    });
}

pub(crate) fn package_path<W: ByteSink>(path: &PackagePath<'_>, out: &mut JsonWriter<'_, W>)
    ensures { Writes W.contents W.calls out.old (values.package_path (view_package_path path.now)) out.new }
{
    object!(out; {
        "name": out.string(path.name),
        "segments": out.string(path.segments),
        "span": span(path.span, out),
        "string": out.string(path.string),
        "version": version(&path.version, out)
    });
}

pub(crate) fn extern_name<W: ByteSink>(name: &ExternName<'_>, out: &mut JsonWriter<'_, W>)
    ensures { Writes W.contents W.calls out.old (values.extern_name (view_extern_name name.now)) out.new }
{
    match name {
        ExternName::Ident(id) => object!(out; {"ident": ident(id, out)}),
        ExternName::String(literal) => object!(out; {"string": string_literal(literal, out)}),
    }
}

impl<'a> Part for ExternName<'a> {
    ghost Plain = { t.ExternName };

    ghost plain = { view_extern_name };

    ghost json = { values.extern_name };

    fn write<W: ByteSink>(&self, out: &mut JsonWriter<'_, W>) {
        extern_name(self, out);
    }
}
