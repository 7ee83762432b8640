//! What names mean.
#![tactic(auto, using(crate::proofs::Standing::adding))]

ghost use Rattle.std.specs.Prelude.{◌≡◌, ◌∷◌, ◌++◌, [], OnOk, OnErr, string_bytes};
ghost use Rattle.wac_parser_declare.specs.InBodies.{IsBound, IsMeaning};

use crate::functions::add_new;
use std::alloc::Global;
use wac_parser_lexer::SourceSpan;
use wac_parser_refusals::{Outcome, duplicate_name, undefined_name};
use wac_parser_tree::{Ident, PackageName};
use wac_types_base::{ItemKind, NamedMap};

/// What a name means, and where it got the name.
#[derive(Clone, Copy, Debug, PartialEq, Eq)]
pub struct Binding {
    /// The item.
    pub kind: ItemKind,
    /// Where the name was given.
    pub span: SourceSpan,
}

/// Where a declaration stands: the document's own package, and the names of its root.
#[derive(Clone, Copy)]
pub struct Context<'a> {
    /// The package that the document composes.
    pub own: &'a PackageName<'a>,
    /// The names of the root.
    pub root: &'a NamedMap<Binding>,
}

/// What a name of a scope means.
pub fn meaning(alloc: Global, names: &NamedMap<Binding>, id: &Ident<'_>) -> Outcome<Binding>
    ensures { IsMeaning names.now id.now result }
{
    match names.get(id.string) {
        Some(binding) => Ok(*binding),
        None => Err(undefined_name(alloc, id.string, id.span)),
    }
}

/// Gives a name to an item, where the name is new.
pub fn bind(
    alloc: Global,
    names: &mut NamedMap<Binding>,
    id: &Ident<'_>,
    kind: ItemKind,
) -> Outcome<()>
    ensures outcome { IsBound names.old id.now kind names.new result }
    ensures ok { OnOk result (names.new ≡ names.old ++ (id.now.string.now, record { kind = kind; span = id.now.span }) ∷ []) }
    ensures kept { OnErr result (names.new ≡ names.old) }
{
    if let Some(earlier) = names.get(id.string) {
        return Err(duplicate_name(alloc, id.string, id.span, earlier.span));
    }
    let binding = Binding {
        kind,
        span: id.span,
    };
    let _ = add_new(alloc, names, id.string, binding)?;
    Ok(())
}
