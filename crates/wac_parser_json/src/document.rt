//! Documents.

ghost use Rattle.std.specs.Prelude.{OnOk, OnErr};
ghost use Rattle.std.specs.Io.KnownBytes.{Appends};
ghost use Rattle.wac_streams.specs.Calls.{FailedOnce, NoneFailed, AppendsPrefix};
ghost use Rattle.wac_parser_tree.specs.Views.{view_document, view_package_directive};
ghost use Rattle.wac_parser_print.specs.Values as values;
ghost use Rattle.wac_parser_json.specs.Texts.{json_text};
ghost use Rattle.wac_parser_json.specs.Writers.{Writes};

use crate::names::{package_name, package_path};
use crate::parts::{array, object};
use crate::statements::statements;
use crate::writer::JsonWriter;
use wac_parser_tree::{Document, PackageDirective};
use wac_streams::{ByteSink, WriteError};

fn package_directive<W: ByteSink>(directive: &PackageDirective<'_>, out: &mut JsonWriter<'_, W>)
    ensures { Writes W.contents W.calls out.old (values.package_directive (view_package_directive directive.now)) out.new }
{
    match &directive.targets {
        Some(path) => object!(out; {
            "package": package_name(&directive.package, out),
            "targets": package_path(path, out)
        }),
        None => object!(out; {"package": package_name(&directive.package, out)}),
    }
}

fn document<W: ByteSink>(document: &Document<'_>, out: &mut JsonWriter<'_, W>)
    ensures { Writes W.contents W.calls out.old (values.document (view_document document.now)) out.new }
{
    object!(out; {
        "directive": package_directive(&document.directive, out),
        "docs": array(&document.docs, out),
        "statements": statements(&document.statements, out)
    });
}

/// Writes the JSON text of a document, piece by piece as it is walked: no memory is taken. Where a write fails,
/// or takes nothing, a front of the text was written, and the sink gets no further call.
pub fn write_json<W: ByteSink>(tree: &Document<'_>, sink: &mut W) -> Result<(), WriteError>
    ensures whole { OnOk result (Appends (W.contents sink.old) (W.contents sink.new) (json_text (view_document tree.now))) }
    ensures prefix { OnErr result
        (AppendsPrefix (W.contents sink.old) (W.contents sink.new) (json_text (view_document tree.now))) }
    ensures none_failed { OnOk result (NoneFailed (W.calls sink.old) (W.calls sink.new)) }
    ensures failed { OnErr result (FailedOnce (W.calls sink.old) (W.calls sink.new)) }
{
    let mut out = JsonWriter {
        sink,
        failed: false,
    };
    document(tree, &mut out);
    let JsonWriter { sink: _, failed } = out;
    if failed {
        return Err(WriteError);
    }
    Ok(())
}
