//! The kinds of names.

use wac_graph_bytes::{NameKind, component_name};
use wac_rows::Told;

fn kind_word(kind: Option<NameKind>) -> &'static str {
    match kind {
        Some(NameKind::Plain) => "plain",
        Some(NameKind::Interface) => "interface",
        Some(NameKind::Dependency) => "dependency",
        Some(NameKind::Url) => "url",
        Some(NameKind::Hash) => "hash",
        None => "no name",
    }
}

/// Tells the kind of each line of a text.
pub(crate) fn tell_kinds(told: &mut Told, text: &str) {
    for line in text.split('\n') {
        let kind = match component_name(told.alloc(), line) {
            Ok(kind) => kind_word(kind),
            Err(_) => "out of memory",
        };
        told.push(line);
        told.push(": ");
        told.push(kind);
        told.push("\n");
    }
}
