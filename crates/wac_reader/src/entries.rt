//! Sections and their entries.

use super::cursor::Cursor;
use super::names::{is_export_name, is_import_name};
use super::told::numbered;
use super::{
    Custom, Import, Instance, Item, Kind, Level, Member, ReadError, Root, Sort, Source, Spaces,
    Thing, keep,
};
use std::alloc::Global;

impl Level {
    /// All sections that are left.
    pub fn sections(&mut self, cursor: &mut Cursor<'_>) -> Result<(), ReadError> {
        for _ in 0..cursor.left() {
            if cursor.is_empty() {
                break;
            }
            let id = cursor.section_id()?;
            let size = cursor.unsigned()?;
            self.section(&mut cursor.part(size)?, id)?;
        }
        Ok(())
    }

    /// The section of that id, to the end of its contents.
    fn section(&mut self, cursor: &mut Cursor<'_>, id: u8) -> Result<(), ReadError> {
        self.contents(cursor, id)?;
        cursor.at_end("bytes after a section's last entry")
    }

    fn contents(&mut self, cursor: &mut Cursor<'_>, id: u8) -> Result<(), ReadError> {
        match id {
            0 => self.custom(cursor),
            4 => self.nested(cursor),
            _ => self.entries(cursor, id),
        }
    }

    fn entries(&mut self, cursor: &mut Cursor<'_>, id: u8) -> Result<(), ReadError> {
        for _ in 0..cursor.unsigned()? {
            self.entry(cursor, id)?;
        }
        Ok(())
    }

    fn entry(&mut self, cursor: &mut Cursor<'_>, id: u8) -> Result<(), ReadError> {
        match id {
            3 => self.spaces.core_type_entry(cursor),
            5 => self.instance_entry(cursor),
            6 => self.spaces.alias_entry(cursor),
            7 => self.spaces.type_entry(cursor),
            10 => self.import_entry(cursor),
            11 => self.export_entry(cursor),
            _ => cursor.fault("a section of another id"),
        }
    }

    fn custom(&mut self, cursor: &mut Cursor<'_>) -> Result<(), ReadError> {
        let custom = read_custom(self.spaces.alloc, cursor)?;
        keep(&mut self.reading.customs, custom)
    }

    fn nested(&mut self, cursor: &mut Cursor<'_>) -> Result<(), ReadError> {
        let alloc = self.spaces.alloc;
        let bytes = cursor.rest().to_vec(alloc)?;
        let number = self.reading.components.len();
        keep(&mut self.reading.components, bytes)?;
        let text = numbered(alloc, "component ", number)?;
        let ty = self.spaces.node(Kind::Unknown, text, Vec::new(alloc))?;
        self.spaces
            .add_root(cursor, Sort::Component, Root::Component(number), ty)
    }

    /// `00`, a component's index, and the arguments.
    fn instance_entry(&mut self, cursor: &mut Cursor<'_>) -> Result<(), ReadError> {
        cursor.exactly(0x00, "an instance that is no component's")?;
        let (instance, ty) = self.spaces.instance(cursor)?;
        let number = self.reading.instances.len();
        keep(&mut self.reading.instances, instance)?;
        self.spaces
            .add_root(cursor, Sort::Instance, Root::Instance(number), ty)
    }

    fn import_entry(&mut self, cursor: &mut Cursor<'_>) -> Result<(), ReadError> {
        let name = cursor.extern_name()?;
        let (sort, ty) = self.spaces.import(cursor, name)?;
        let import = self.spaces.described_import(cursor, name, sort, ty)?;
        keep(&mut self.reading.imports, import)
    }

    fn export_entry(&mut self, cursor: &mut Cursor<'_>) -> Result<(), ReadError> {
        let item = self.spaces.export(cursor)?;
        keep(&mut self.reading.exports, item)
    }
}

impl Spaces {
    /// Adds the index of what has no path.
    fn add_root(
        &mut self,
        cursor: &Cursor<'_>,
        sort: Sort,
        root: Root,
        ty: usize,
    ) -> Result<(), ReadError> {
        let source = Source::new(self.alloc, root);
        self.add(Thing { sort, source, ty }, cursor)
    }

    /// Adds the index of the import of that name.
    fn add_import(
        &mut self,
        cursor: &Cursor<'_>,
        sort: Sort,
        name: &str,
        ty: usize,
    ) -> Result<(), ReadError> {
        let root = Root::Import(String::from_str(self.alloc, name)?);
        self.add_root(cursor, sort, root, ty)
    }

    /// An instance, and its component's type.
    fn instance(&self, cursor: &mut Cursor<'_>) -> Result<(Instance, usize), ReadError> {
        let component = self.indexed(cursor, Sort::Component)?;
        let arguments = self.arguments(cursor)?;
        let of = component.source.clone()?;
        Ok((Instance { of, arguments }, component.ty))
    }

    fn arguments(&self, cursor: &mut Cursor<'_>) -> Result<Vec<Item>, ReadError> {
        let mut arguments = Vec::new(self.alloc);
        for _ in 0..cursor.unsigned()? {
            let argument = self.argument(cursor, &arguments)?;
            keep(&mut arguments, argument)?;
        }
        Ok(arguments)
    }

    /// An argument after those.
    fn argument(&self, cursor: &mut Cursor<'_>, before: &Vec<Item>) -> Result<Item, ReadError> {
        let name = cursor.label()?;
        let sort = cursor.sort()?;
        let index = cursor.unsigned()?;
        if item_of(before, name).is_some() {
            return cursor.fault("two arguments of one name");
        }
        let thing = self.find(cursor, sort, index)?;
        self.item(name, thing)
    }

    /// What stands at an index, under a name.
    fn item(&self, name: &str, thing: &Thing) -> Result<Item, ReadError> {
        Ok(Item {
            name: String::from_str(self.alloc, name)?,
            sort: thing.sort,
            source: thing.source.clone()?,
            stated: None,
        })
    }

    /// An import of that name: its sort, and its type by number.
    fn import(&mut self, cursor: &mut Cursor<'_>, name: &str) -> Result<(Sort, usize), ReadError> {
        let (sort, ty) = self.description(cursor, name)?;
        self.new_import(cursor, name)?;
        self.add_import(cursor, sort, name, ty)?;
        Ok((sort, ty))
    }

    fn described_import(
        &self,
        cursor: &Cursor<'_>,
        name: &str,
        sort: Sort,
        ty: usize,
    ) -> Result<Import, ReadError> {
        let ty = self.described(cursor, sort, ty)?;
        let name = String::from_str(self.alloc, name)?;
        Ok(Import { name, sort, ty })
    }

    /// An export: a name, what is exported, and `00`, or `01` and what it is said to be.
    fn export(&mut self, cursor: &mut Cursor<'_>) -> Result<Item, ReadError> {
        let name = cursor.extern_name()?;
        let sort = cursor.sort()?;
        let thing = self.indexed(cursor, sort)?.clone()?;
        self.export_thing(cursor, name, &thing)
    }

    fn export_thing(
        &mut self,
        cursor: &mut Cursor<'_>,
        name: &str,
        thing: &Thing,
    ) -> Result<Item, ReadError> {
        let stated = self.stated(cursor, name, thing.sort)?;
        let ty = stated.unwrap_or(thing.ty);
        self.new_export(cursor, name, thing.sort, ty)?;
        let source = thing.source.clone()?;
        let sort = thing.sort;
        self.add(Thing { sort, source, ty }, cursor)?;
        self.exported(cursor, name, thing, stated)
    }

    fn exported(
        &self,
        cursor: &Cursor<'_>,
        name: &str,
        thing: &Thing,
        stated: Option<usize>,
    ) -> Result<Item, ReadError> {
        let mut item = self.item(name, thing)?;
        if let Some(ty) = stated {
            item.stated = Some(self.described(cursor, thing.sort, ty)?);
        }
        Ok(item)
    }

    fn stated(
        &mut self,
        cursor: &mut Cursor<'_>,
        name: &str,
        sort: Sort,
    ) -> Result<Option<usize>, ReadError> {
        match cursor.byte()? {
            0x00 => Ok(None),
            0x01 => self.stated_type(cursor, name, sort),
            _ => cursor.fault("neither 00 nor 01 before here"),
        }
    }

    /// What an export of that sort is said to be.
    fn stated_type(
        &mut self,
        cursor: &mut Cursor<'_>,
        name: &str,
        sort: Sort,
    ) -> Result<Option<usize>, ReadError> {
        let (stated, ty) = self.description(cursor, name)?;
        if stated == sort {
            Ok(Some(ty))
        } else {
            cursor.fault("an export said to be of another sort")
        }
    }

    /// An import of a component type.
    pub fn declared_import(&mut self, cursor: &mut Cursor<'_>) -> Result<(), ReadError> {
        let name = cursor.extern_name()?;
        let (sort, ty) = self.import(cursor, name)?;
        self.expect_component(cursor)?;
        self.declare(cursor, "import ", name, sort, ty)
    }

    /// The innermost scope may have imports.
    fn expect_component(&self, cursor: &Cursor<'_>) -> Result<(), ReadError> {
        match self.scopes.last() {
            Some(inner) if inner.kind != Kind::Component => {
                cursor.fault("an import in an instance type")
            }
            _ => Ok(()),
        }
    }

    /// An export of a component type or an instance type.
    pub fn declared_export(&mut self, cursor: &mut Cursor<'_>) -> Result<(), ReadError> {
        let name = cursor.extern_name()?;
        let (sort, ty) = self.description(cursor, name)?;
        self.new_export(cursor, name, sort, ty)?;
        self.add_import(cursor, sort, name, ty)?;
        self.declare(cursor, "export ", name, sort, ty)
    }

    /// Writes a declaration into the innermost scope's text.
    fn declare(
        &mut self,
        cursor: &Cursor<'_>,
        word: &str,
        name: &str,
        sort: Sort,
        ty: usize,
    ) -> Result<(), ReadError> {
        let text = self.described(cursor, sort, ty)?;
        match self.scopes.last_mut() {
            Some(inner) => push_all(&mut inner.text, &[word, name, ": ", text.as_str(), "; "]),
            None => cursor.fault("no scope"),
        }
    }

    /// The name is an import's, and no other import of the innermost scope has it.
    fn new_import(&mut self, cursor: &Cursor<'_>, name: &str) -> Result<(), ReadError> {
        if !is_import_name(name) {
            return cursor.fault("no name of an import");
        }
        let Some(inner) = self.scopes.last_mut() else {
            return cursor.fault("no scope");
        };
        if has_name(&inner.imports, name) {
            return cursor.fault("two imports of one name");
        }
        keep(&mut inner.imports, String::from_str(self.alloc, name)?)
    }

    /// The name is an export's, and no other export of the innermost scope has it.
    fn new_export(
        &mut self,
        cursor: &Cursor<'_>,
        name: &str,
        sort: Sort,
        ty: usize,
    ) -> Result<(), ReadError> {
        if !is_export_name(name) {
            return cursor.fault("no name of an export");
        }
        let Some(inner) = self.scopes.last_mut() else {
            return cursor.fault("no scope");
        };
        if member_of(&inner.exports, name).is_some() {
            return cursor.fault("two exports of one name");
        }
        let name = String::from_str(self.alloc, name)?;
        keep(&mut inner.exports, Member { name, sort, ty })
    }
}

fn read_custom(alloc: Global, cursor: &mut Cursor<'_>) -> Result<Custom, ReadError> {
    Ok(Custom {
        name: cursor.name(alloc)?,
        contents: cursor.rest().to_vec(alloc)?,
    })
}

/// Writes the parts, one after another.
fn push_all(text: &mut String, parts: &[&str]) -> Result<(), ReadError> {
    for part in parts {
        text.push_str(*part)?;
    }
    Ok(())
}

fn has_name(names: &Vec<String>, name: &str) -> bool {
    for other in names {
        if other.as_str() == name {
            return true;
        }
    }
    false
}

/// What goes under that name.
pub fn item_of<'i>(items: &'i Vec<Item>, name: &str) -> Option<&'i Item> {
    for item in items {
        if item.name.as_str() == name {
            return Some(item);
        }
    }
    None
}

/// The export of that name.
pub fn member_of<'m>(members: &'m Vec<Member>, name: &str) -> Option<&'m Member> {
    for member in members {
        if member.name.as_str() == name {
            return Some(member);
        }
    }
    None
}
