//! A reading as text, a line for each import, instance and export.

use super::types::text_if;
use super::{
    Custom, Import, Inner, Instance, Item, Made, ReadError, Reading, Root, Source, WholeReading,
};
use std::alloc::{AllocError, Global};

/// A text while it is written. Where memory ran out, [`Text::finish`] says so.
#[derive(Drop)]
pub struct Text {
    alloc: Global,
    text: String,
    refusal: Option<AllocError>,
}

impl Text {
    pub fn new(alloc: Global) -> Self {
        Text {
            alloc,
            text: String::new(alloc),
            refusal: None,
        }
    }

    pub fn push(&mut self, part: &str) {
        if let Err(refusal) = self.text.push_str(part) {
            self.refusal = Some(refusal);
        }
    }

    pub fn push_number(&mut self, number: usize) {
        match number.to_string(self.alloc) {
            Ok(digits) => self.push(digits.as_str()),
            Err(refusal) => self.refusal = Some(refusal),
        }
    }

    /// Writes two digits for each byte.
    pub fn push_bytes(&mut self, bytes: &[u8]) {
        for byte in bytes {
            if let Err(refusal) = write!(self.text, "{byte:02x}") {
                self.refusal = Some(refusal);
            }
        }
    }

    pub fn finish(self) -> Result<String, ReadError> {
        match self.refusal {
            Some(refusal) => Err(ReadError::from(refusal)),
            None => Ok(self.text),
        }
    }
}

/// What stands inside, between its front and its back.
pub fn between(alloc: Global, front: &str, inside: &str, back: &str) -> Result<String, ReadError> {
    let mut text = Text::new(alloc);
    text.push(front);
    text.push(inside);
    text.push(back);
    text.finish()
}

/// Lines, one below the other.
pub fn tell_lines(alloc: Global, lines: &[String]) -> Result<String, ReadError> {
    let mut text = Text::new(alloc);
    for line in lines {
        text.push(line.as_str());
        text.push("\n");
    }
    text.finish()
}

/// As `component 0`.
pub fn numbered(alloc: Global, word: &str, number: usize) -> Result<String, ReadError> {
    let mut text = Text::new(alloc);
    tell_numbered(&mut text, word, number);
    text.finish()
}

/// Writes `import f`, `#0`, `component 0` or `type list<u8>`.
pub fn tell_root(text: &mut Text, root: &Root) {
    match root {
        Root::Import(name) => tell_named(text, "import ", name.as_str()),
        Root::Instance(number) => tell_numbered(text, "#", *number),
        Root::Component(number) => tell_numbered(text, "component ", *number),
        Root::Type(tree) => tell_named(text, "type ", tree.as_str()),
    }
}

pub fn tell_named(text: &mut Text, word: &str, name: &str) {
    text.push(word);
    text.push(name);
}

pub fn tell_numbered(text: &mut Text, word: &str, number: usize) {
    text.push(word);
    text.push_number(number);
}

/// Writes the names of a path, as `.f.g`.
pub fn tell_path(text: &mut Text, path: &[String]) {
    for name in path {
        tell_named(text, ".", name.as_str());
    }
}

fn tell_source(text: &mut Text, source: &Source) {
    tell_root(text, &source.root);
    tell_path(text, &source.path);
}

impl Source {
    /// `import f`, `#0.g` (an instance's export), `component 0`, `type list<u8>`.
    pub fn text(&self, alloc: Global) -> Result<String, ReadError> {
        let mut text = Text::new(alloc);
        tell_source(&mut text, self);
        text.finish()
    }
}

impl Reading {
    /// As `import f: func()`, `#0 = component 0 (f = import f)`, `export g = #0.g`, `custom producers`.
    pub fn text(&self, alloc: Global) -> Result<String, ReadError> {
        let mut text = Text::new(alloc);
        tell_reading(&mut text, self);
        text.finish()
    }
}

impl WholeReading {
    /// As `import f: func()`, `#0 = leaf 1 (f = import f)`, `#1 = composition (f = #0.g)`, `export g = #0.g`.
    pub fn text(&self, alloc: Global) -> Result<String, ReadError> {
        let mut text = Text::new(alloc);
        tell_whole(&mut text, self);
        text.finish()
    }
}

fn tell_reading(text: &mut Text, reading: &Reading) {
    tell_imports(text, &reading.imports);
    tell_instances(text, &reading.instances);
    tell_exports(text, &reading.exports);
    tell_customs(text, &reading.customs);
}

fn tell_instances(text: &mut Text, instances: &[Instance]) {
    for (number, instance) in instances.iter().enumerate() {
        tell_instance(text, number);
        tell_source(text, &instance.of);
        tell_items(text, &instance.arguments);
    }
}

fn tell_whole(text: &mut Text, whole: &WholeReading) {
    tell_imports(text, &whole.imports);
    tell_inners(text, &whole.instances);
    tell_exports(text, &whole.exports);
}

fn tell_inners(text: &mut Text, instances: &[Inner]) {
    for (number, inner) in instances.iter().enumerate() {
        tell_instance(text, number);
        tell_made(text, inner);
        tell_items(text, &inner.arguments);
    }
}

/// Writes `#0 = `.
pub fn tell_instance(text: &mut Text, number: usize) {
    tell_numbered(text, "#", number);
    text.push(" = ");
}

fn tell_made(text: &mut Text, inner: &Inner) {
    match &inner.made {
        Made::Leaf(leaf) => tell_numbered(text, "leaf ", *leaf),
        Made::Imported => tell_source(text, &inner.of),
        Made::Composition(_) => text.push("composition"),
    }
}

pub fn tell_imports(text: &mut Text, imports: &[Import]) {
    for import in imports {
        tell_named(text, "import ", import.name.as_str());
        tell_named(text, ": ", import.ty.as_str());
        text.push("\n");
    }
}

fn tell_items(text: &mut Text, items: &[Item]) {
    text.push(" (");
    for (i, item) in items.iter().enumerate() {
        tell_named(text, text_if(i > 0, ", "), item.name.as_str());
        text.push(" = ");
        tell_source(text, &item.source);
    }
    text.push(")\n");
}

/// Writes `export g = `.
pub fn tell_export(text: &mut Text, name: &str) {
    tell_named(text, "export ", name);
    text.push(" = ");
}

fn tell_exports(text: &mut Text, exports: &[Item]) {
    for export in exports {
        tell_export(text, export.name.as_str());
        tell_source(text, &export.source);
        if let Some(stated) = &export.stated {
            tell_named(text, " as ", stated.as_str());
        }
        text.push("\n");
    }
}

fn tell_customs(text: &mut Text, customs: &[Custom]) {
    for custom in customs {
        tell_named(text, "custom ", custom.name.as_str());
        text.push("\n");
    }
}
