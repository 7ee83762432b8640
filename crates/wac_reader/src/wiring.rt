//! What is read down, as text: outer imports, the instances of handed components, and exports. Compositions are told by
//! what they give alone.

use super::told::{
    Text, tell_export, tell_imports, tell_instance, tell_named, tell_numbered, tell_path, tell_root,
};
use super::types::text_if;
use super::{Inner, Item, Made, ReadError, Root, Source, WholeReading, read_down};
use std::alloc::{AllocError, Global};

/// A handed component.
#[derive(Drop)]
pub struct Leaf {
    pub key: String,
    pub bytes: Vec<u8>,
}

/// How deep bundles in bundles are told.
const DEPTH: u8 = 8;

/// The numbers of instances among those that are told; a composition has none.
#[derive(Drop)]
struct Told<'a> {
    whole: &'a WholeReading,
    numbers: Vec<Option<usize>>,
}

fn numbers_of(alloc: Global, whole: &WholeReading) -> Result<Vec<Option<usize>>, AllocError> {
    let mut numbers = Vec::new(alloc);
    let mut next = 0usize;
    for inner in &whole.instances {
        match inner.made {
            Made::Composition(_) => numbers.push(None)?,
            Made::Leaf(_) | Made::Imported => {
                numbers.push(Some(next))?;
                next = next.wrapping_add(1);
            }
        }
    }
    Ok(numbers)
}

impl Told<'_> {
    fn exports_of(&self, source: &Source) -> Option<&Vec<Item>> {
        match &source.root {
            Root::Instance(number) => match self.whole.instances.get(*number) {
                Some(inner) => match &inner.made {
                    Made::Composition(items) => Some(items),
                    _ => None,
                },
                None => None,
            },
            _ => None,
        }
    }

    fn number(&self, number: usize) -> usize {
        match self.numbers.get(number) {
            Some(Some(told)) => *told,
            _ => usize::MAX,
        }
    }

    /// `import f`, `#0.g`, `type list<u8>`.
    fn plain(&self, text: &mut Text, source: &Source) {
        match &source.root {
            Root::Instance(number) => tell_numbered(text, "#", self.number(*number)),
            root => tell_root(text, root),
        }
        tell_path(text, &source.path);
    }

    /// The same, or `{ g = #0.g }` for a bundle.
    #[cycle(bundles)]
    fn source(&self, text: &mut Text, source: &Source, depth: u8) {
        if depth > 0 && source.path.is_empty() {
            if let Some(items) = self.exports_of(source) {
                text.push("{ ");
                self.items(text, items, depth - 1);
                return text.push(" }");
            }
        }
        self.plain(text, source)
    }

    /// `a = import f, b = #0.g`.
    #[cycle(bundles)]
    fn items(&self, text: &mut Text, items: &Vec<Item>, depth: u8) {
        for (at, item) in items.iter().enumerate() {
            tell_named(text, text_if(at > 0, ", "), item.name.as_str());
            text.push(" = ");
            self.source(text, &item.source, depth);
        }
    }

    /// A line for each instance that is no composition, as `#0 = p:p (f = import f)`.
    fn instances(&self, text: &mut Text, leaves: &[Leaf]) -> Result<(), ReadError> {
        for (number, inner) in self.whole.instances.iter().enumerate() {
            if !matches!(inner.made, Made::Composition(_)) {
                tell_instance(text, self.number(number));
                self.made(text, inner, leaves)?;
                text.push(" (");
                self.items(text, &inner.arguments, DEPTH);
                text.push(")\n");
            }
        }
        Ok(())
    }

    /// A leaf's key, or where an imported component comes from.
    fn made(&self, text: &mut Text, inner: &Inner, leaves: &[Leaf]) -> Result<(), ReadError> {
        match &inner.made {
            Made::Leaf(leaf) => match leaves.get(*leaf) {
                Some(leaf) => text.push(leaf.key.as_str()),
                None => return Err(ReadError::At(0, "no such leaf")),
            },
            _ => self.source(text, &inner.of, 0),
        }
        Ok(())
    }

    fn exports(&self, text: &mut Text) {
        for export in &self.whole.exports {
            tell_export(text, export.name.as_str());
            self.source(text, &export.source, DEPTH);
            text.push("\n");
        }
    }
}

fn bytes_of(alloc: Global, leaves: &[Leaf]) -> Result<Vec<&[u8]>, AllocError> {
    let mut bytes: Vec<&[u8]> = Vec::new(alloc);
    for leaf in leaves {
        bytes.push(leaf.bytes.as_slice())?;
    }
    Ok(bytes)
}

fn tell_whole(alloc: Global, whole: &WholeReading, leaves: &[Leaf]) -> Result<String, ReadError> {
    let mut text = Text::new(alloc);
    tell_imports(&mut text, &whole.imports);
    let numbers = numbers_of(alloc, whole)?;
    let told = Told { whole, numbers };
    told.instances(&mut text, leaves)?;
    told.exports(&mut text);
    text.finish()
}

/// Tells the wiring of a component, read down to the leaves.
pub fn tell(
    alloc: Global,
    text: &mut String,
    bytes: &[u8],
    leaves: &[Leaf],
) -> Result<(), ReadError> {
    let handed = bytes_of(alloc, leaves)?;
    let whole = read_down(alloc, bytes, &handed)?;
    let told = tell_whole(alloc, &whole, leaves)?;
    text.push_str(told.as_str())?;
    Ok(())
}
