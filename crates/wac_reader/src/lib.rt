//! A slow reader of component bytes, written from the standard's binary format alone: it shares nothing with the
//! writers. One level at a time; `down` follows sources through nested compositions.
#![tactic(auto)]

mod aliases;
mod chains;
mod core_types;
mod cursor;
mod customs;
mod down;
mod entries;
mod looks;
mod names;
mod told;
mod type_text;
mod types;
mod wiring;

use cursor::Cursor;
pub use customs::{DebugName, Processor};
pub use down::{Inner, Made, WholeReading, read_down};
pub use looks::{look, nested_in, tell_down, tell_level};
use std::alloc::{AllocError, AllocFailed, Global};
pub use wiring::{Leaf, tell};

/// Why bytes were not read.
#[derive(Debug, Drop)]
pub enum ReadError {
    /// At which offset, and what is wrong there.
    At(usize, &'static str),
    Memory,
}

impl From<AllocError> for ReadError {
    fn from(_: AllocError) -> Self {
        ReadError::Memory
    }
}

impl<T: Drop> From<AllocFailed<T>> for ReadError {
    fn from(_: AllocFailed<T>) -> Self {
        ReadError::Memory
    }
}

/// What an index stands for.
#[derive(Clone, Copy, Drop, PartialEq, Eq)]
pub enum Sort {
    Module,
    Func,
    Type,
    Component,
    Instance,
    /// A core type: it can be neither imported nor exported.
    CoreType,
}

impl Sort {
    /// The sort's name.
    fn word(self) -> &'static str {
        match self {
            Sort::Module => "Module",
            Sort::Func => "Func",
            Sort::Type => "Type",
            Sort::Component => "Component",
            Sort::Instance => "Instance",
            Sort::CoreType => "CoreType",
        }
    }
}

/// Where a source begins.
#[derive(Clone, Drop)]
pub enum Root {
    /// The outer import of that name.
    Import(String),
    /// The instance of that number, counted over the instances that are made here.
    Instance(usize),
    /// The nested component of that number.
    Component(usize),
    /// A type that is defined here: its tree as text.
    Type(String),
}

/// Where something comes from: a root, and the export names by which it is reached from there.
#[derive(Clone, Drop)]
pub struct Source {
    pub root: Root,
    pub path: Vec<String>,
}

/// A name and what goes under it: an export, or an argument.
#[derive(Clone, Drop)]
pub struct Item {
    pub name: String,
    pub sort: Sort,
    pub source: Source,
    /// What an export is said to be, where that is written.
    pub stated: Option<String>,
}

#[derive(Drop)]
pub struct Import {
    pub name: String,
    pub sort: Sort,
    /// Its type's tree as text, as `func(a: list<u8>) -> string`.
    pub ty: String,
}

/// An instance that is made here: of which component, with which arguments.
#[derive(Drop)]
pub struct Instance {
    pub of: Source,
    pub arguments: Vec<Item>,
}

#[derive(Drop)]
pub struct Custom {
    pub name: String,
    pub contents: Vec<u8>,
}

/// One level of a component.
#[derive(Drop)]
pub struct Reading {
    pub imports: Vec<Import>,
    pub components: Vec<Vec<u8>>,
    pub instances: Vec<Instance>,
    pub exports: Vec<Item>,
    pub customs: Vec<Custom>,
}

/// What a type's tree is at its top.
#[derive(Clone, Copy, Drop, PartialEq, Eq)]
enum Kind {
    Value,
    Resource,
    Func,
    Component,
    Instance,
    Module,
    /// The type of something in a nested component, which is not read here.
    Unknown,
}

/// An export of a component type or an instance type; its type by number.
#[derive(Drop)]
struct Member {
    name: String,
    sort: Sort,
    ty: usize,
}

/// A type: its tree as text, and the exports that an alias can name.
#[derive(Drop)]
struct Node {
    kind: Kind,
    text: String,
    exports: Vec<Member>,
}

/// What stands at an index: its type by number.
#[derive(Clone, Drop)]
struct Thing {
    sort: Sort,
    source: Source,
    ty: usize,
}

/// The component itself, or a component or instance type inside it, with index spaces of its own.
#[derive(Drop)]
struct Scope {
    kind: Kind,
    /// How many declarations are still to be read.
    left: u32,
    text: String,
    things: Vec<Thing>,
    imports: Vec<String>,
    exports: Vec<Member>,
}

/// The index spaces and the types of one level while it is read.
#[derive(Drop)]
struct Spaces {
    alloc: Global,
    /// The component, and the types inside which the cursor is, outermost first.
    scopes: Vec<Scope>,
    nodes: Vec<Node>,
}

/// One level while it is read.
#[derive(Drop)]
struct Level {
    spaces: Spaces,
    reading: Reading,
}

/// Reads one level of a component.
pub fn read(alloc: Global, bytes: &[u8]) -> Result<Reading, ReadError> {
    let mut level = Level {
        spaces: Spaces::new(alloc),
        reading: Reading::new(alloc),
    };
    level.component(bytes)?;
    Ok(level.reading)
}

/// Adds an item to a list.
fn keep<T: Drop>(list: &mut Vec<T>, item: T) -> Result<(), ReadError> {
    list.push(item)?;
    Ok(())
}

fn new_scope(alloc: Global, kind: Kind, left: u32) -> Scope {
    Scope {
        kind,
        left,
        text: String::new(alloc),
        things: Vec::new(alloc),
        imports: Vec::new(alloc),
        exports: Vec::new(alloc),
    }
}

impl Level {
    fn component(&mut self, bytes: &[u8]) -> Result<(), ReadError> {
        let mut cursor = Cursor::new(bytes);
        cursor.preamble()?;
        self.spaces.open_scope(Kind::Component, 0)?;
        self.sections(&mut cursor)
    }
}

impl Reading {
    fn new(alloc: Global) -> Self {
        Reading {
            imports: Vec::new(alloc),
            components: Vec::new(alloc),
            instances: Vec::new(alloc),
            exports: Vec::new(alloc),
            customs: Vec::new(alloc),
        }
    }
}

impl Source {
    /// A root, and no path from there.
    fn new(alloc: Global, root: Root) -> Self {
        Source {
            root,
            path: Vec::new(alloc),
        }
    }
}

/// What stands at an index of a sort.
fn nth_of(things: &Vec<Thing>, sort: Sort, index: u32) -> Option<&Thing> {
    let mut left = index;
    for thing in things {
        if thing.sort == sort {
            if left == 0 {
                return Some(thing);
            }
            left -= 1;
        }
    }
    None
}

impl Spaces {
    fn new(alloc: Global) -> Self {
        Spaces {
            alloc,
            scopes: Vec::new(alloc),
            nodes: Vec::new(alloc),
        }
    }

    /// Begins a scope inside the innermost one.
    fn open_scope(&mut self, kind: Kind, left: u32) -> Result<(), ReadError> {
        keep(&mut self.scopes, new_scope(self.alloc, kind, left))
    }

    /// Adds one index to its sort's space in the innermost scope.
    fn add(&mut self, thing: Thing, cursor: &Cursor<'_>) -> Result<(), ReadError> {
        match self.scopes.last_mut() {
            Some(inner) => keep(&mut inner.things, thing),
            None => cursor.fault("no scope"),
        }
    }

    /// What stands at an index of a sort, in the scope so many scopes further out.
    fn find_outside(
        &self,
        cursor: &Cursor<'_>,
        count: u32,
        sort: Sort,
        index: u32,
    ) -> Result<&Thing, ReadError> {
        let Some(scope) = self.scopes.iter().rev().nth(count as usize) else {
            return cursor.fault("no such scope");
        };
        match nth_of(&scope.things, sort, index) {
            Some(thing) => Ok(thing),
            None => cursor.fault("index out of range"),
        }
    }

    fn find(&self, cursor: &Cursor<'_>, sort: Sort, index: u32) -> Result<&Thing, ReadError> {
        self.find_outside(cursor, 0, sort, index)
    }

    /// What stands at the index that is read here.
    fn indexed(&self, cursor: &mut Cursor<'_>, sort: Sort) -> Result<&Thing, ReadError> {
        let index = cursor.unsigned()?;
        self.find(cursor, sort, index)
    }

    /// The number of a new type.
    fn node(&mut self, kind: Kind, text: String, exports: Vec<Member>) -> Result<usize, ReadError> {
        let number = self.nodes.len();
        let node = Node {
            kind,
            text,
            exports,
        };
        keep(&mut self.nodes, node)?;
        Ok(number)
    }

    fn kind_of(&self, ty: usize) -> Kind {
        match self.nodes.get(ty) {
            Some(node) => node.kind,
            None => Kind::Unknown,
        }
    }

    fn text_of(&self, cursor: &Cursor<'_>, ty: usize) -> Result<&str, ReadError> {
        match self.nodes.get(ty) {
            Some(node) => Ok(node.text.as_str()),
            None => cursor.fault("no such type"),
        }
    }
}
