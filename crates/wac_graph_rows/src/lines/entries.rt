//! Entries of a collection, and of maps by name.

ghost use Rattle.std.specs.Prelude.{IfSome};
ghost use Rattle.wac_types_base.specs.Collection.{HasChildren};

use wac_rows::Words;
use wac_types_base::{ItemKind, NamedMap, Places, Types};

// What is put or added is of a parameter's type: a proof then need not take it apart where it is given up.

/// An entry, if all its ids stand.
pub fn standing<E: Places + Drop>(types: &Types, entry: E) -> Option<E>
    ensures { IfSome result (λ e. HasChildren types.now (E.entry e)) }
{
    if types.has_ids_of(&entry) {
        return Some(entry);
    }
    None
}

/// Puts something under a name.
pub(crate) fn put<T: Drop>(words: &mut Words<'_>, map: &mut NamedMap<T>, name: &str, it: T) {
    let name = words.own(name);
    if map.insert(name, it).is_err() {
        words.refuse("out of memory");
    }
}

/// What a word stands for, among items.
pub(crate) trait Meant: Sized {
    fn meant(items: &NamedMap<ItemKind>, words: &mut Words<'_>, word: &str) -> Self;
}

/// What the words `NAME=WORD` stand for behind a word, up to the next of another form.
pub(crate) fn map_behind<T: Meant + Drop>(
    items: &NamedMap<ItemKind>,
    words: &mut Words<'_>,
    before: &str,
) -> NamedMap<T> {
    let mut map = NamedMap::new(words.alloc());
    let mut inside = false;
    for word in words.rest().split(' ') {
        match word.split_once('=') {
            Some((name, word)) => {
                if inside {
                    let it = T::meant(items, words, word);
                    put(words, &mut map, name, it);
                }
            }
            None => inside = word == before,
        }
    }
    map
}
