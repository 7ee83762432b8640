//! Entries of components: `type TYPE`, `alias ..`, `outer ..`, `import NAME D`, `export NAME SORT.INDEX D` (the last may be left
//! out), `instantiate N NAME=SORT.INDEX ..`, `nested BYTE ..`, `module ..`, `component_type ..` and `instance_type ..` with
//! declarations, between which ` ; ` stands.

use crate::core_items::take_core_declarations;
use crate::declarations::{take_alias, take_declarations, take_outer};
use crate::types::take_defined;
use crate::values::{description_of, index_of, take_description, take_sort};
use wac_graph_bytes::{Description, Entry, Export, IndexName, NamedIndex, Processor, SortNames};
use wac_rows::Words;

fn take_import(words: &mut Words<'_>) -> Entry {
    let name = words.take_text();
    Entry::Import(name, take_description(words))
}

/// What an export is said to be, if that is left.
fn take_stated(words: &mut Words<'_>) -> Option<Description> {
    match words.take() {
        "" => None,
        word => Some(description_of(words, word)),
    }
}

/// The export of a line.
pub(crate) fn take_export(words: &mut Words<'_>) -> Export {
    let name = words.take_text();
    let word = words.take();
    let (sort, index) = index_of(words, word);
    Export {
        name,
        sort,
        index,
        stated: take_stated(words),
    }
}

/// The arguments of words `NAME=SORT.INDEX`.
fn take_arguments(words: &mut Words<'_>) -> Vec<NamedIndex> {
    let mut arguments = Vec::new(words.alloc());
    for word in words.rest().split(' ') {
        if let Some((name, at)) = word.split_once('=') {
            let (sort, index) = index_of(words, at);
            let name = words.own(name);
            words.keep(&mut arguments, NamedIndex { name, sort, index });
        }
    }
    arguments
}

fn take_instantiate(words: &mut Words<'_>) -> Entry {
    let component = words.take_number();
    Entry::Instantiate(component, take_arguments(words))
}

/// The byte of a word.
fn byte_of(words: &mut Words<'_>, word: &str) -> u8 {
    match word.parse::<u8>() {
        Ok(byte) => byte,
        Err(_) => {
            words.refuse("no byte");
            0
        }
    }
}

fn take_bytes(words: &mut Words<'_>) -> Vec<u8> {
    let mut bytes = Vec::new(words.alloc());
    for word in words.rest().split(' ') {
        let byte = byte_of(words, word);
        words.keep(&mut bytes, byte);
    }
    bytes
}

/// The entry of a line.
pub(crate) fn take_entry(words: &mut Words<'_>) -> Entry {
    match words.take() {
        "type" => Entry::Defined(take_defined(words)),
        "alias" => Entry::Alias(take_alias(words)),
        "outer" => Entry::Alias(take_outer(words)),
        "import" => take_import(words),
        "export" => Entry::Export(take_export(words)),
        "instantiate" => take_instantiate(words),
        "nested" => Entry::Nested(take_bytes(words)),
        "module" => Entry::Module(take_core_declarations(words)),
        "component_type" => Entry::ComponentType(take_declarations(words)),
        word => {
            if word != "instance_type" {
                words.refuse("no such entry");
            }
            Entry::InstanceType(take_declarations(words))
        }
    }
}

/// The entries of a text's lines.
pub(crate) fn take_entries(words: &mut Words<'_>) -> Vec<Entry> {
    let mut entries = Vec::new(words.alloc());
    for line in words.rest().split('\n') {
        if !line.is_empty() {
            let mut inside = words.inside(line);
            let entry = take_entry(&mut inside);
            words.join(inside);
            words.keep(&mut entries, entry);
        }
    }
    entries
}

/// What wrote a component: `NAME VERSION`.
pub(crate) fn take_processor(words: &mut Words<'_>) -> Processor {
    let name = words.take_text();
    Processor {
        name,
        version: words.take_text(),
    }
}

/// The names for debuggers of a line `SORT INDEX=NAME ..`.
fn take_sort_names(words: &mut Words<'_>) -> SortNames {
    let sort = take_sort(words);
    let mut names = Vec::new(words.alloc());
    for word in words.rest().split(' ') {
        let (index, name) = word.split_once('=').unwrap_or(("", word));
        let index = words.number_of(index);
        let name = words.own(name);
        words.keep(&mut names, IndexName { index, name });
    }
    SortNames { sort, names }
}

/// The names for debuggers of a text's lines.
pub(crate) fn take_debug_names(words: &mut Words<'_>) -> Vec<SortNames> {
    let mut all = Vec::new(words.alloc());
    for line in words.rest().split('\n') {
        if !line.is_empty() {
            let mut inside = words.inside(line);
            let names = take_sort_names(&mut inside);
            words.join(inside);
            words.keep(&mut all, names);
        }
    }
    all
}
