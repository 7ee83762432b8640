//! Values of names, spans and versions, and objects of variants.

ghost use Rattle.std.specs.Prelude.{◌≡◌, ◌∷◌, [], IfOk, codes, map};
ghost use Rattle.std.specs.Option.{option_map};
ghost use Rattle.semver.specs.Identifiers.{parts_of};
ghost use Rattle.serde_json.specs.Data.{Data, boolean, string};
ghost use Rattle.serde_json.specs.View.{view};
ghost use Rattle.wac_parser_tree.specs.Trees as t;
ghost use Rattle.wac_parser_tree.specs.Views.{view_doc_comment, view_extern_name, view_ident, view_package_name, view_package_path, view_string};
ghost use Rattle.wac_parser_print.specs.Objects.{Gives, GivesOf, array_of};
ghost use Rattle.wac_parser_print.specs.Objects as objects;
ghost use Rattle.wac_parser_print.specs.Values.{docs_of};
ghost use Rattle.wac_parser_print.specs.Values as values;

use super::members::{Object, pair, variant};
use semver::Version;
use serde_json::{Value, json};
use std::alloc::{AllocError, Global};
use wac_parser_lexer::SourceSpan;
use wac_parser_tree::{DocComment, ExternName, Ident, PackageName, PackagePath, String};

/// What has a JSON value.
pub(crate) trait Valued {
    ghost Plain: { Type 0 };

    ghost plain: { Self → Plain };

    ghost shown: { Plain → Data };

    fn value(&self, alloc: Global) -> Result<Value, AllocError>
        ensures { Gives result (shown (plain self.now)) };
}

/// The values of all, in order.
pub(crate) fn array<T: Valued>(alloc: Global, items: &Vec<T>) -> Result<Value, AllocError>
    ensures { Gives result (array_of T.shown (map T.plain items.now.items)) }
{
    let mut values = Vec::new(alloc);
    for item in items {
        values.push(item.value(alloc)?)?;
    }
    Ok(Value::from(values))
}

#[tactic(auto, unfolding(crate::specs::Objects::span))]
pub(crate) fn span(alloc: Global, span: SourceSpan) -> Result<Value, AllocError>
    ensures { IfOk result (λ v. view v ≡ objects.span span) }
{
    json!(in alloc; {"offset": span.offset, "length": span.length})
}

/// Whether something holds.
pub(crate) fn truth(holds: bool) -> Result<Value, AllocError>
    ensures { Gives result (boolean holds) }
{
    Ok(Value::Bool(holds))
}

#[tactic(auto, unfolding(crate::specs::Objects::version))]
pub(crate) fn version(alloc: Global, version: &Option<Version>) -> Result<Value, AllocError>
    ensures { IfOk result (λ v. view v ≡ objects.version (option_map parts_of version.now)) }
{
    match version {
        Some(version) => Ok(Value::from(version.to_string(alloc)?)),
        None => Ok(Value::Null),
    }
}

/// A text under a name, and where it stands.
fn spelled(alloc: Global, name: &str, text: &str, at: SourceSpan) -> Result<Value, AllocError>
    ensures { Gives result (objects.object_of ((name.now, string text.now) ∷ (codes "span", objects.span at) ∷ [])) }
{
    pair(
        alloc,
        name,
        Value::try_from_str(alloc, text),
        "span",
        span(alloc, at),
    )
}

#[tactic(auto, unfolding(crate::specs::Values::ident))]
pub(crate) fn ident(alloc: Global, id: &Ident<'_>) -> Result<Value, AllocError>
    ensures { IfOk result (λ v. view v ≡ values.ident (view_ident id.now)) }
{
    spelled(alloc, "string", id.string, id.span)
}

#[tactic(auto, unfolding(crate::specs::Values::string_literal))]
pub(crate) fn string_literal(alloc: Global, string: &String<'_>) -> Result<Value, AllocError>
    ensures { IfOk result (λ v. view v ≡ values.string_literal (view_string string.now)) }
{
    spelled(alloc, "value", string.value, string.span)
}

impl<'a> Valued for DocComment<'a> {
    ghost Plain = { t.DocComment };

    ghost plain = { view_doc_comment };

    ghost shown = { values.doc_comment };

    #[tactic(auto, unfolding(crate::specs::Values::doc_comment))]
    fn value(&self, alloc: Global) -> Result<Value, AllocError>
        ensures { Gives result (values.doc_comment (view_doc_comment self.now)) }
    {
        spelled(alloc, "comment", self.comment, self.span)
    }
}

/// Doc comments, and one member more.
pub(crate) fn documented(
    alloc: Global,
    docs: &Vec<DocComment<'_>>,
    name: &str,
    value: Result<Value, AllocError>,
) -> Result<Value, AllocError>
    ensures { GivesOf value (values.documented (docs_of docs.now.items) name.now) result }
{
    pair(alloc, "docs", array(alloc, docs), name, value)
}

/// Doc comments, the identifier that is declared, and one member more.
pub(crate) fn declaration(
    alloc: Global,
    docs: &Vec<DocComment<'_>>,
    id: &Ident<'_>,
    name: &str,
    value: Result<Value, AllocError>,
) -> Result<Value, AllocError>
    ensures { GivesOf value (values.decl (docs_of docs.now.items) (view_ident id.now) name.now) result }
{
    Object::new(alloc)
        .with("docs", array(alloc, docs))
        .with("id", ident(alloc, id))
        .with(name, value)
        .into_value()
}

/// An identifier, and one member more.
pub(crate) fn identified(
    alloc: Global,
    id: &Ident<'_>,
    name: &str,
    value: Result<Value, AllocError>,
) -> Result<Value, AllocError>
    ensures { GivesOf value (values.identified (view_ident id.now) name.now) result }
{
    pair(alloc, "id", ident(alloc, id), name, value)
}

/// Where a form stands, and one member more.
pub(crate) fn placed(
    alloc: Global,
    at: SourceSpan,
    name: &str,
    value: Result<Value, AllocError>,
) -> Result<Value, AllocError>
    ensures { GivesOf value (objects.placed at name.now) result }
{
    pair(alloc, "span", span(alloc, at), name, value)
}

#[tactic(auto, unfolding(crate::specs::Values::package_name))]
pub(crate) fn package_name(alloc: Global, name: &PackageName<'_>) -> Result<Value, AllocError>
    ensures { IfOk result (λ v. view v ≡ values.package_name (view_package_name name.now)) }
{
    let string = Value::try_from_str(alloc, name.string);
    let own = Value::try_from_str(alloc, name.name);
    let version = version(alloc, &name.version);
    let at = span(alloc, name.span);
    Object::new(alloc)
        .with("string", string)
        .with("name", own)
        .with("version", version)
        .with("span", at)
        .into_value()
}

#[tactic(auto, unfolding(crate::specs::Values::package_path))]
pub(crate) fn package_path(alloc: Global, path: &PackagePath<'_>) -> Result<Value, AllocError>
    ensures { IfOk result (λ v. view v ≡ values.package_path (view_package_path path.now)) }
{
    let at = span(alloc, path.span);
    let string = Value::try_from_str(alloc, path.string);
    let name = Value::try_from_str(alloc, path.name);
    let segments = Value::try_from_str(alloc, path.segments);
    let version = version(alloc, &path.version);
    Object::new(alloc)
        .with("span", at)
        .with("string", string)
        .with("name", name)
        .with("segments", segments)
        .with("version", version)
        .into_value()
}

#[tactic(auto, unfolding(crate::specs::Values::extern_name))]
pub(crate) fn extern_name(alloc: Global, name: &ExternName<'_>) -> Result<Value, AllocError>
    ensures { IfOk result (λ v. view v ≡ values.extern_name (view_extern_name name.now)) }
{
    match name {
        ExternName::Ident(x) => variant(alloc, "ident", ident(alloc, x)),
        ExternName::String(x) => variant(alloc, "string", string_literal(alloc, x)),
    }
}
