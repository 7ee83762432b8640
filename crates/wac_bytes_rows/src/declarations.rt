//! Declarations of component types and instance types: `type TYPE`, `alias SORT INSTANCE NAME`, `outer SORT SCOPES INDEX`,
//! `import NAME D`, `export NAME D`, `module` (of no declarations), and `component_type ..` and `instance_type ..` with
//! declarations of their own, between which ` , ` stands.

use crate::types::take_defined;
use crate::values::{take_description, take_sort};
use wac_graph_bytes::{Alias, Declaration};
use wac_rows::Words;

/// An alias of an instance's export.
pub(crate) fn take_alias(words: &mut Words<'_>) -> Alias {
    let sort = take_sort(words);
    let instance = words.take_number();
    Alias::Export(sort, instance, words.take_text())
}

/// An alias of an index further out.
pub(crate) fn take_outer(words: &mut Words<'_>) -> Alias {
    let sort = take_sort(words);
    let scopes = words.take_number();
    Alias::Outer(sort, scopes, words.take_number())
}

fn take_import(words: &mut Words<'_>) -> Declaration {
    let name = words.take_text();
    Declaration::Import(name, take_description(words))
}

fn take_export(words: &mut Words<'_>) -> Declaration {
    let name = words.take_text();
    Declaration::Export(name, take_description(words))
}

/// The declaration of a first word that has no declarations of its own.
fn take_flat(words: &mut Words<'_>, word: &str) -> Declaration {
    match word {
        "type" => Declaration::Defined(take_defined(words)),
        "alias" => Declaration::Alias(take_alias(words)),
        "outer" => Declaration::Alias(take_outer(words)),
        "import" => take_import(words),
        "export" => take_export(words),
        _ => {
            if word != "module" {
                words.refuse("no such declaration");
            }
            Declaration::Module(Vec::new(words.alloc()))
        }
    }
}

/// The declarations that are left and have none of their own, with ` , ` between them.
fn take_inner(words: &mut Words<'_>) -> Vec<Declaration> {
    let mut declarations = Vec::new(words.alloc());
    for part in words.rest().split(" , ") {
        if !part.is_empty() {
            let mut inside = words.inside(part);
            let word = inside.take();
            let declaration = take_flat(&mut inside, word);
            words.join(inside);
            words.keep(&mut declarations, declaration);
        }
    }
    declarations
}

/// The declaration of a text.
fn take_declaration(words: &mut Words<'_>) -> Declaration {
    match words.take() {
        "component_type" => Declaration::ComponentType(take_inner(words)),
        "instance_type" => Declaration::InstanceType(take_inner(words)),
        word => take_flat(words, word),
    }
}

/// The declarations that are left, with ` ; ` between them.
pub(crate) fn take_declarations(words: &mut Words<'_>) -> Vec<Declaration> {
    let mut declarations = Vec::new(words.alloc());
    for part in words.rest().split(" ; ") {
        if !part.is_empty() {
            let mut inside = words.inside(part);
            let declaration = take_declaration(&mut inside);
            words.join(inside);
            words.keep(&mut declarations, declaration);
        }
    }
    declarations
}
