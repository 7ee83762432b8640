//! What the custom sections `producers` and `component-name` say; offsets in errors are of the section's contents.

use super::cursor::Cursor;
use super::{Custom, ReadError, Reading, Sort, keep};
use std::alloc::Global;

/// What processed the component.
#[derive(Drop)]
pub struct Processor {
    pub name: String,
    pub version: String,
}

/// A name for debuggers, of what stands at an index.
#[derive(Drop)]
pub struct DebugName {
    pub sort: Sort,
    pub index: u32,
    pub name: String,
}

impl Reading {
    fn customs_of(&self, name: &str) -> Option<&Custom> {
        for custom in &self.customs {
            if custom.name.as_str() == name {
                return Some(custom);
            }
        }
        None
    }

    /// What the section `producers` says: one field, `processed-by`. None without that section.
    pub fn processors(&self, alloc: Global) -> Result<Vec<Processor>, ReadError> {
        let mut processors = Vec::new(alloc);
        if let Some(custom) = self.customs_of("producers") {
            let mut cursor = Cursor::new(&custom.contents);
            push_processors(alloc, &mut cursor, &mut processors)?;
        }
        Ok(processors)
    }

    /// What the section `component-name` says, of all sorts. None without that section.
    pub fn debug_names(&self, alloc: Global) -> Result<Vec<DebugName>, ReadError> {
        let mut names = Vec::new(alloc);
        if let Some(custom) = self.customs_of("component-name") {
            let mut cursor = Cursor::new(&custom.contents);
            push_debug_names(alloc, &mut cursor, &mut names)?;
        }
        Ok(names)
    }
}

fn push_processors(
    alloc: Global,
    cursor: &mut Cursor<'_>,
    processors: &mut Vec<Processor>,
) -> Result<(), ReadError> {
    cursor.exactly(0x01, "not one field")?;
    if cursor.label()? != "processed-by" {
        return cursor.fault("another field before here");
    }
    for _ in 0..cursor.unsigned()? {
        keep(processors, read_processor(alloc, cursor)?)?;
    }
    cursor.at_end("more bytes than names")
}

fn read_processor(alloc: Global, cursor: &mut Cursor<'_>) -> Result<Processor, ReadError> {
    Ok(Processor {
        name: cursor.name(alloc)?,
        version: cursor.name(alloc)?,
    })
}

fn push_debug_names(
    alloc: Global,
    cursor: &mut Cursor<'_>,
    names: &mut Vec<DebugName>,
) -> Result<(), ReadError> {
    for _ in 0..cursor.left() {
        if cursor.is_empty() {
            break;
        }
        let mut part = names_part(cursor)?;
        push_names(alloc, &mut part, names)?;
    }
    Ok(())
}

/// What stands of the next sort.
fn names_part<'a>(cursor: &mut Cursor<'a>) -> Result<Cursor<'a>, ReadError> {
    cursor.exactly(0x01, "no names of a sort")?;
    let size = cursor.unsigned()?;
    cursor.part(size)
}

/// A sort, and the names of its indexes.
fn push_names(
    alloc: Global,
    cursor: &mut Cursor<'_>,
    names: &mut Vec<DebugName>,
) -> Result<(), ReadError> {
    let sort = cursor.sort()?;
    for _ in 0..cursor.unsigned()? {
        keep(names, read_name(alloc, cursor, sort)?)?;
    }
    cursor.at_end("more bytes than names")
}

fn read_name(alloc: Global, cursor: &mut Cursor<'_>, sort: Sort) -> Result<DebugName, ReadError> {
    Ok(DebugName {
        sort,
        index: cursor.unsigned()?,
        name: cursor.name(alloc)?,
    })
}
