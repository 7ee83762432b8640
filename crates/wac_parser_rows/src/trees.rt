//! The trees of documents, and their clones.

use std::alloc::{AllocError, Global};
use std::fmt::Debug;
use wac_parser_read::ParseDocument;
use wac_parser_tree::Document;
use wac_rows::Told;

// What owns a document is generic in its type, and the type is named once, where the text that it borrows comes first: a proof
// then need not take the whole tree of types apart.

/// Documents that can be cloned.
pub(crate) trait CopyDocument: Sized {
    fn copied(&self, alloc: Global) -> Result<Self, AllocError>;
}

impl<'s> CopyDocument for Document<'s> {
    fn copied(&self, alloc: Global) -> Result<Self, AllocError> {
        self.clone(alloc)
    }
}

/// Tells a clone of a tree.
fn tell_clone<'s, D: ParseDocument<'s> + CopyDocument + Debug>(tree: &D, told: &mut Told) {
    match tree.copied(told.alloc()) {
        Ok(copy) => told.show_debug(&copy),
        Err(_) => told.push("out of memory"),
    }
}

/// Tells a clone of a clone of a tree.
fn tell_second<'s, D: ParseDocument<'s> + CopyDocument + Debug>(tree: &D, told: &mut Told) {
    match tree.copied(told.alloc()) {
        Ok(copy) => tell_clone::<D>(&copy, told),
        Err(_) => told.push("out of memory"),
    }
}

/// Tells a tree, and its clones where they are other trees. Whether they are alike.
fn tell_alike<'s, D: ParseDocument<'s> + CopyDocument + Debug>(tree: &D, told: &mut Told) -> bool {
    let mut first = Told::new(told.alloc());
    let mut second = Told::new(told.alloc());
    tell_clone::<D>(tree, &mut first);
    tell_second::<D>(tree, &mut second);
    told.show_debug(tree);
    told.compare(&first) && told.compare(&second)
}

/// Tells the `tree` of a source by `Debug`, or the fault; its clones are alike. Or tells that its `clones` are alike.
fn tell_of<'s, D: ParseDocument<'s> + CopyDocument + Debug>(
    source: &'s str,
    told: &mut Told,
    kind: &str,
) {
    match D::parse(told.alloc(), source) {
        Ok(tree) => {
            let mut whole = Told::new(told.alloc());
            let are_alike = tell_alike::<D>(&tree, &mut whole);
            if kind == "clones" && are_alike {
                told.push("alike");
            } else {
                told.push(whole.text());
            }
        }
        Err(fault) => told.show_debug(&fault),
    }
}

/// Tells the `tree` of a source, or what its `clones` are.
pub(crate) fn tell_tree(source: &str, told: &mut Told, kind: &str) {
    tell_of::<Document<'_>>(source, told, kind);
}
