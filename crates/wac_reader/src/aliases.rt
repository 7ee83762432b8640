//! Aliases: an export of an instance, or what stands in a scope further out.

use super::cursor::Cursor;
use super::entries::member_of;
use super::{Kind, ReadError, Sort, Source, Spaces, Thing};
use std::alloc::{AllocError, Global};

impl Spaces {
    /// A sort, then `00` with an instance and a name, or `02` with a count of scopes and an index.
    pub fn alias_entry(&mut self, cursor: &mut Cursor<'_>) -> Result<(), ReadError> {
        let sort = alias_sort(cursor)?;
        match cursor.byte()? {
            0x00 => self.export_alias(cursor, sort),
            0x02 => self.outer_alias(cursor, sort),
            _ => cursor.fault("no target of an alias before here"),
        }
    }

    fn export_alias(&mut self, cursor: &mut Cursor<'_>, sort: Sort) -> Result<(), ReadError> {
        let instance = self.indexed(cursor, Sort::Instance)?;
        let name = cursor.label()?;
        let known = self.member_type(cursor, instance.ty, name, sort)?;
        let source = export_of(self.alloc, &instance.source, name)?;
        self.add_alias(cursor, sort, source, known)
    }

    /// Adds the index of an instance's export.
    fn add_alias(
        &mut self,
        cursor: &Cursor<'_>,
        sort: Sort,
        source: Source,
        known: Option<usize>,
    ) -> Result<(), ReadError> {
        let ty = match known {
            Some(ty) => ty,
            None => self.unknown(&source)?,
        };
        self.add(Thing { sort, source, ty }, cursor)
    }

    /// The type of an instance's export. None where the instance's type is not known.
    fn member_type(
        &self,
        cursor: &Cursor<'_>,
        ty: usize,
        name: &str,
        sort: Sort,
    ) -> Result<Option<usize>, ReadError> {
        let Some(node) = self.nodes.get(ty) else {
            return cursor.fault("no such type");
        };
        match member_of(&node.exports, name) {
            Some(member) if member.sort == sort => Ok(Some(member.ty)),
            Some(_) => cursor.fault("an export of another sort"),
            None if node.kind == Kind::Unknown => Ok(None),
            None => cursor.fault("no export of that name"),
        }
    }

    /// The type of an export of a nested component goes by the export's source.
    fn unknown(&mut self, source: &Source) -> Result<usize, ReadError> {
        let text = source.text(self.alloc)?;
        self.node(Kind::Unknown, text, Vec::new(self.alloc))
    }

    fn outer_alias(&mut self, cursor: &mut Cursor<'_>, sort: Sort) -> Result<(), ReadError> {
        let count = cursor.unsigned()?;
        let index = cursor.unsigned()?;
        if sort == Sort::Func || sort == Sort::Instance {
            return cursor.fault("an outer alias of that sort");
        }
        let thing = self.find_outside(cursor, count, sort, index)?.clone()?;
        self.add(thing, cursor)
    }
}

/// Where an instance's export comes from.
fn export_of(alloc: Global, instance: &Source, name: &str) -> Result<Source, AllocError> {
    let mut source = instance.clone()?;
    source.path.push(String::from_str(alloc, name)?)?;
    Ok(source)
}

/// Beside the sorts of imports, the core type: `00 10`.
fn alias_sort(cursor: &mut Cursor<'_>) -> Result<Sort, ReadError> {
    let mut ahead = *cursor;
    if ahead.byte()? == 0x00 && ahead.byte()? == 0x10 {
        *cursor = ahead;
        return Ok(Sort::CoreType);
    }
    cursor.sort()
}
