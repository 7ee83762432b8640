//! Each export's chain, down to handed packages and outer imports.

use super::told::{Text, tell_named, tell_numbered, tell_path, tell_root};
use super::types::text_if;
use super::{Inner, Item, Made, ReadError, Root, Source, WholeReading, keep};
use std::alloc::Global;

impl WholeReading {
    /// For each export, as `g = leaf 0(f = import f).g`. An instance that is used twice reads as two that are alike: the
    /// numbers of [`WholeReading::text`] tell them apart.
    pub fn chains(&self, alloc: Global) -> Result<Vec<String>, ReadError> {
        let told = self.told(alloc)?;
        let mut chains = Vec::new(alloc);
        for export in &self.exports {
            keep(&mut chains, export_chain(alloc, export, &told)?)?;
        }
        Ok(chains)
    }

    /// The text of each instance. None where it is made of itself.
    fn told(&self, alloc: Global) -> Result<Vec<Option<String>>, ReadError> {
        let mut told = self.untold(alloc)?;
        // Each round tells at least one instance more, as none goes round in a circle.
        for _ in &self.instances {
            self.tell_more(alloc, &mut told)?;
        }
        Ok(told)
    }

    /// None for each instance.
    fn untold(&self, alloc: Global) -> Result<Vec<Option<String>>, ReadError> {
        let mut told = Vec::new(alloc);
        for _ in &self.instances {
            keep(&mut told, None)?;
        }
        Ok(told)
    }

    fn tell_more(&self, alloc: Global, told: &mut Vec<Option<String>>) -> Result<(), ReadError> {
        for (number, inner) in self.instances.iter().enumerate() {
            let text = instance_chain(alloc, inner, told)?;
            if let Some(place) = told.get_mut(number) {
                *place = text;
            }
        }
        Ok(())
    }
}

fn export_chain(
    alloc: Global,
    export: &Item,
    told: &Vec<Option<String>>,
) -> Result<String, ReadError> {
    let mut text = Text::new(alloc);
    tell_named(&mut text, export.name.as_str(), " = ");
    if chain(&mut text, &export.source, told) {
        text.finish()
    } else {
        Err(ReadError::At(0, "a circle of instances"))
    }
}

/// An instance's text, where those that it is made of have theirs.
fn instance_chain(
    alloc: Global,
    inner: &Inner,
    told: &Vec<Option<String>>,
) -> Result<Option<String>, ReadError> {
    let mut text = Text::new(alloc);
    if tell_inner(&mut text, inner, told) {
        Ok(Some(text.finish()?))
    } else {
        Ok(None)
    }
}

/// Writes an instance's text; whether those that it is made of have theirs.
fn tell_inner(text: &mut Text, inner: &Inner, told: &Vec<Option<String>>) -> bool {
    match &inner.made {
        Made::Composition(exports) => {
            text.push("composition");
            chains_of(text, exports, told)
        }
        Made::Leaf(leaf) => {
            tell_numbered(text, "leaf ", *leaf);
            chains_of(text, &inner.arguments, told)
        }
        Made::Imported => {
            chain(text, &inner.of, told) && chains_of(text, &inner.arguments, told)
        }
    }
}

/// `(a = import f, b = leaf 0().g)`
fn chains_of(text: &mut Text, items: &Vec<Item>, told: &Vec<Option<String>>) -> bool {
    text.push("(");
    for (i, item) in items.iter().enumerate() {
        tell_named(text, text_if(i > 0, ", "), item.name.as_str());
        text.push(" = ");
        if !chain(text, &item.source, told) {
            return false;
        }
    }
    text.push(")");
    true
}

fn chain(text: &mut Text, source: &Source, told: &Vec<Option<String>>) -> bool {
    match &source.root {
        Root::Instance(number) => match told.get(*number) {
            Some(Some(instance)) => text.push(instance.as_str()),
            _ => return false,
        },
        root => tell_root(text, root),
    }
    tell_path(text, &source.path);
    true
}
