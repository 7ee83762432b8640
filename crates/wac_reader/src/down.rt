//! Reading down: nested compositions are read too, until handed packages and outer imports are left.

use super::entries::item_of;
use super::{Import, Instance, Item, ReadError, Reading, Root, Source, keep, read};
use std::alloc::{AllocError, Global};

/// What an instance of the whole is made of.
#[derive(Drop)]
pub enum Made {
    /// The handed package of that number.
    Leaf(usize),
    /// A component that is imported.
    Imported,
    /// A composition, with what its exports are.
    Composition(Vec<Item>),
}

/// An instance somewhere in the whole.
#[derive(Drop)]
pub struct Inner {
    pub made: Made,
    pub of: Source,
    pub arguments: Vec<Item>,
}

/// A component with all that is nested in it. The outermost component's instances are counted first, then those of
/// each composition in turn. No source goes through a composition: it is followed inside.
#[derive(Drop)]
pub struct WholeReading {
    pub imports: Vec<Import>,
    pub instances: Vec<Inner>,
    pub exports: Vec<Item>,
}

/// The most instances that are read.
const MAX_INSTANCES: usize = 1000;

/// The most steps from a source to where it comes from.
const MAX_STEPS: usize = 1000;

#[derive(Drop)]
struct Whole<'a> {
    alloc: Global,
    leaves: &'a [&'a [u8]],
    components: Vec<Vec<u8>>,
    instances: Vec<Inner>,
}

/// Where one level's numbers begin in the whole, and what its imports are: none at the outermost.
#[derive(Drop)]
struct Place {
    components: usize,
    instances: usize,
    given: Option<Vec<Item>>,
}

/// Reads a component and every composition nested in it; the leaves are taken as they are.
pub fn read_down(alloc: Global, bytes: &[u8], leaves: &[&[u8]]) -> Result<WholeReading, ReadError> {
    let outermost = read(alloc, bytes)?;
    let mut whole = Whole {
        alloc,
        leaves,
        components: Vec::new(alloc),
        instances: Vec::new(alloc),
    };
    let exports = whole.enter(&outermost, None)?;
    whole.open_all()?;
    whole.finish(outermost.imports, &exports)
}

impl<'a> Whole<'a> {
    /// Adds a level's components and instances; what its exports are.
    fn enter(&mut self, level: &Reading, given: Option<Vec<Item>>) -> Result<Vec<Item>, ReadError> {
        let place = Place {
            components: self.components.len(),
            instances: self.instances.len(),
            given,
        };
        self.components.extend_from_slice(&level.components)?;
        for instance in &level.instances {
            let inner = place.placed_instance(self.alloc, instance)?;
            keep(&mut self.instances, inner)?;
        }
        place.placed_all(self.alloc, &level.exports)
    }

    /// Finds what each instance is made of, those that are entered on the way too.
    fn open_all(&mut self) -> Result<(), ReadError> {
        for number in 0..MAX_INSTANCES {
            if number >= self.instances.len() {
                return Ok(());
            }
            self.open(number)?;
        }
        Err(ReadError::At(0, "too many instances"))
    }

    /// Finds what an instance is made of, and enters it where that is a composition.
    fn open(&mut self, number: usize) -> Result<(), ReadError> {
        let Some(inner) = self.instances.get(number) else {
            return Err(ReadError::At(0, "no such instance"));
        };
        if let Some(component) = self.component_of(inner)? {
            let arguments = inner.arguments.clone()?;
            let made = self.made(component, arguments)?;
            self.set_made(number, made);
        }
        Ok(())
    }

    /// The number of the nested component that an instance is made of. None where its component is imported.
    fn component_of(&self, inner: &Inner) -> Result<Option<usize>, ReadError> {
        let of = self.settle(&inner.of)?;
        match &of.root {
            Root::Component(component) if of.path.is_empty() => Ok(Some(*component)),
            _ => Ok(None),
        }
    }

    fn set_made(&mut self, number: usize, made: Made) {
        if let Some(inner) = self.instances.get_mut(number) {
            inner.made = made;
        }
    }

    fn made(&mut self, component: usize, arguments: Vec<Item>) -> Result<Made, ReadError> {
        let Some(bytes) = self.components.get(component) else {
            return Err(ReadError::At(0, "no such component"));
        };
        if let Some(leaf) = leaf_of(self.leaves, bytes) {
            return Ok(Made::Leaf(leaf));
        }
        let level = read(self.alloc, bytes)?;
        let exports = self.enter(&level, Some(arguments))?;
        Ok(Made::Composition(exports))
    }

    /// Where a source comes from, followed through compositions.
    fn settle(&self, source: &Source) -> Result<Source, ReadError> {
        let mut source = source.clone()?;
        for _ in 0..MAX_STEPS {
            match self.followed(&source)? {
                Some(next) => source = next,
                None => return Ok(source),
            }
        }
        Err(ReadError::At(0, "too many steps"))
    }

    /// What an export of a composition is; none where the source names no such export.
    fn followed(&self, source: &Source) -> Result<Option<Source>, ReadError> {
        let (Root::Instance(number), Some((name, rest))) = (&source.root, source.path.split_first())
        else {
            return Ok(None);
        };
        let Some(inner) = self.instances.get(*number) else {
            return Err(ReadError::At(0, "no such instance"));
        };
        let Made::Composition(exports) = &inner.made else {
            return Ok(None);
        };
        match item_of(exports, name.as_str()) {
            Some(item) => Ok(Some(extended(&item.source, rest)?)),
            None => Err(ReadError::At(0, "no export of that name")),
        }
    }

    fn settle_all(&self, items: &Vec<Item>) -> Result<Vec<Item>, ReadError> {
        let mut settled = Vec::new(self.alloc);
        for item in items {
            keep(&mut settled, with_source(item, self.settle(&item.source)?)?)?;
        }
        Ok(settled)
    }

    fn settle_made(&self, made: &Made) -> Result<Made, ReadError> {
        match made {
            Made::Leaf(leaf) => Ok(Made::Leaf(*leaf)),
            Made::Imported => Ok(Made::Imported),
            Made::Composition(exports) => Ok(Made::Composition(self.settle_all(exports)?)),
        }
    }

    fn settle_inner(&self, inner: &Inner) -> Result<Inner, ReadError> {
        Ok(Inner {
            made: self.settle_made(&inner.made)?,
            of: self.settle(&inner.of)?,
            arguments: self.settle_all(&inner.arguments)?,
        })
    }

    fn settle_instances(&self) -> Result<Vec<Inner>, ReadError> {
        let mut instances = Vec::new(self.alloc);
        for inner in &self.instances {
            keep(&mut instances, self.settle_inner(inner)?)?;
        }
        Ok(instances)
    }

    fn finish(&self, imports: Vec<Import>, exports: &Vec<Item>) -> Result<WholeReading, ReadError> {
        Ok(WholeReading {
            imports,
            instances: self.settle_instances()?,
            exports: self.settle_all(exports)?,
        })
    }
}

impl Place {
    /// A level's source, in the whole's numbers.
    fn placed(&self, source: &Source) -> Result<Source, ReadError> {
        if let (Root::Import(name), Some(given)) = (&source.root, &self.given) {
            return argument_of(given, name.as_str(), &source.path);
        }
        let mut placed = source.clone()?;
        self.place_root(&mut placed.root);
        Ok(placed)
    }

    fn place_root(&self, root: &mut Root) {
        match root {
            Root::Instance(number) => *number = self.instances.wrapping_add(*number),
            Root::Component(number) => *number = self.components.wrapping_add(*number),
            Root::Import(_) | Root::Type(_) => {}
        }
    }

    fn placed_instance(&self, alloc: Global, instance: &Instance) -> Result<Inner, ReadError> {
        Ok(Inner {
            made: Made::Imported,
            of: self.placed(&instance.of)?,
            arguments: self.placed_all(alloc, &instance.arguments)?,
        })
    }

    fn placed_all(&self, alloc: Global, items: &Vec<Item>) -> Result<Vec<Item>, ReadError> {
        let mut placed = Vec::new(alloc);
        for item in items {
            keep(&mut placed, with_source(item, self.placed(&item.source)?)?)?;
        }
        Ok(placed)
    }
}

/// The number of the leaf that has these bytes.
fn leaf_of(leaves: &[&[u8]], bytes: &[u8]) -> Option<usize> {
    for (number, leaf) in leaves.iter().enumerate() {
        if *leaf == bytes {
            return Some(number);
        }
    }
    None
}

/// Where an import's path leads, by the argument of its name.
fn argument_of(given: &Vec<Item>, name: &str, path: &[String]) -> Result<Source, ReadError> {
    match item_of(given, name) {
        Some(item) => extended(&item.source, path),
        None => Err(ReadError::At(0, "an import without an argument")),
    }
}

fn extended(source: &Source, path: &[String]) -> Result<Source, ReadError> {
    let mut longer = source.clone()?;
    longer.path.extend_from_slice(path)?;
    Ok(longer)
}

fn with_source(item: &Item, source: Source) -> Result<Item, AllocError> {
    Ok(Item {
        name: item.name.clone()?,
        sort: item.sort,
        source,
        stated: item.stated.clone()?,
    })
}
