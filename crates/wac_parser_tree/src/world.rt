//! Worlds.

ghost use Rattle.std.specs.Prelude.{◌≡◌, IfOk, map};
ghost use Rattle.wac_parser_tree.specs.Accessors.{world_ref_name, world_ref_span};
ghost use Rattle.wac_parser_tree.specs.Views.{view_extern_type, view_named_world_item, view_world_decl, view_world_export, view_world_import, view_world_include, view_world_include_item, view_world_item, view_world_item_path, view_world_ref};

use crate::declaration::ItemTypeDecl;
use crate::import::PackagePath;
use crate::interface::{InlineInterface, Use};
use crate::lists::clone_all;
use crate::text::{DocComment, Ident, clone_docs};
use crate::value_type::FuncType;
use std::alloc::{AllocError, Global};
use std::fmt;
use wac_parser_lexer::SourceSpan;

/// A declaration `world ID { ITEMS }`.
#[derive(Drop)]
pub struct WorldDecl<'a> {
    /// The doc comments of the world.
    pub docs: Vec<DocComment<'a>>,
    /// The name of the world.
    pub id: Ident<'a>,
    /// Its items, in order.
    pub items: Vec<WorldItem<'a>>,
}

impl fmt::Debug for WorldDecl<'_> {
    fn fmt<W: fmt::Write>(&self, f: &mut fmt::Formatter<W>) -> fmt::Result {
        f.write_str("WorldDecl { docs: ")?;
        fmt::Debug::fmt(&self.docs, f)?;
        f.write_str(", id: ")?;
        fmt::Debug::fmt(&self.id, f)?;
        f.write_str(", items: ")?;
        let mut list = f.debug_list();
        for item in &self.items {
            list.entry(item);
        }
        list.finish()?;
        f.write_str(" }")
    }
}

/// An item of a world.
#[derive(Debug)]
pub enum WorldItem<'a> {
    /// Types of an interface or another world.
    Use(Use<'a>),
    /// A declared type.
    Ty(ItemTypeDecl<'a>),
    /// An import.
    Import(WorldImport<'a>),
    /// An export.
    Export(WorldExport<'a>),
    /// The items of another world.
    Include(WorldInclude<'a>),
}

// It takes the value apart: where one is held at a `?`, a derived drop is proved there part by part.
impl Drop for WorldItem<'_> {
    fn drop(self) {
        match self {
            WorldItem::Use(_) => {}
            WorldItem::Ty(_) => {}
            WorldItem::Import(_) => {}
            WorldItem::Export(_) => {}
            WorldItem::Include(_) => {}
        }
    }
}

/// An item `import PATH;`.
#[derive(Debug, Drop)]
pub struct WorldImport<'a> {
    /// The doc comments of the import.
    pub docs: Vec<DocComment<'a>>,
    /// What is imported.
    pub path: WorldItemPath<'a>,
}

/// An item `export PATH;`.
#[derive(Debug, Drop)]
pub struct WorldExport<'a> {
    /// The doc comments of the export.
    pub docs: Vec<DocComment<'a>>,
    /// What is exported.
    pub path: WorldItemPath<'a>,
}

/// What a world imports or exports.
#[derive(Debug)]
pub enum WorldItemPath<'a> {
    /// An item under a name.
    Named(NamedWorldItem<'a>),
    /// An item of a package.
    Package(PackagePath<'a>),
    /// An interface of the document.
    Ident(Ident<'a>),
}

// It takes the value apart: where one is held at a `?`, a derived drop is proved there part by part.
impl Drop for WorldItemPath<'_> {
    fn drop(self) {
        match self {
            WorldItemPath::Named(_) => {}
            WorldItemPath::Package(_) => {}
            WorldItemPath::Ident(_) => {}
        }
    }
}

/// An item `ID: TYPE` of a world.
#[derive(Debug, Drop)]
pub struct NamedWorldItem<'a> {
    /// The name of the item.
    pub id: Ident<'a>,
    /// Its type.
    pub ty: ExternType<'a>,
}

/// The type of an item of a world.
#[derive(Debug)]
pub enum ExternType<'a> {
    /// A type of the document.
    Ident(Ident<'a>),
    /// A function.
    Func(FuncType<'a>),
    /// An interface.
    Interface(InlineInterface<'a>),
}

// It takes the value apart: where one is held at a `?`, a derived drop is proved there part by part.
impl Drop for ExternType<'_> {
    fn drop(self) {
        match self {
            ExternType::Ident(_) => {}
            ExternType::Func(_) => {}
            ExternType::Interface(_) => {}
        }
    }
}

/// An item `include WORLD [with { ITEMS }];`.
#[derive(Debug, Drop)]
pub struct WorldInclude<'a> {
    /// The doc comments of the item.
    pub docs: Vec<DocComment<'a>>,
    /// The world that is included.
    pub world: WorldRef<'a>,
    /// The names that change, in order.
    pub with: Vec<WorldIncludeItem<'a>>,
}

/// A world of the document or of a package.
#[derive(Debug)]
pub enum WorldRef<'a> {
    /// A world of the document.
    Ident(Ident<'a>),
    /// A world of a package.
    Package(PackagePath<'a>),
}

// It takes the value apart: where one is held at a `?`, a derived drop is proved there part by part.
impl Drop for WorldRef<'_> {
    fn drop(self) {
        match self {
            WorldRef::Ident(_) => {}
            WorldRef::Package(_) => {}
        }
    }
}

/// A name that changes: `ID as ID`.
#[derive(Clone, Copy, Debug)]
pub struct WorldIncludeItem<'a> {
    /// The name in the included world.
    pub from: Ident<'a>,
    /// The name here.
    pub to: Ident<'a>,
}

impl<'a> ExternType<'a> {
    /// An equal type.
    pub fn clone(&self, alloc: Global) -> Result<Self, AllocError>
        ensures { IfOk result (λ t. view_extern_type t ≡ view_extern_type self.now) }
    {
        match self {
            ExternType::Ident(id) => Ok(ExternType::Ident(*id)),
            ExternType::Func(ty) => Ok(ExternType::Func(ty.clone(alloc)?)),
            ExternType::Interface(interface) => Ok(ExternType::Interface(interface.clone(alloc)?)),
        }
    }
}

impl<'a> NamedWorldItem<'a> {
    /// An equal item.
    pub fn clone(&self, alloc: Global) -> Result<Self, AllocError>
        ensures { IfOk result (λ t. view_named_world_item t ≡ view_named_world_item self.now) }
    {
        Ok(NamedWorldItem {
            id: self.id,
            ty: self.ty.clone(alloc)?,
        })
    }
}

impl<'a> WorldItemPath<'a> {
    /// An equal path.
    pub fn clone(&self, alloc: Global) -> Result<Self, AllocError>
        ensures { IfOk result (λ t. view_world_item_path t ≡ view_world_item_path self.now) }
    {
        match self {
            WorldItemPath::Named(item) => Ok(WorldItemPath::Named(item.clone(alloc)?)),
            WorldItemPath::Package(path) => Ok(WorldItemPath::Package(path.clone(alloc)?)),
            WorldItemPath::Ident(id) => Ok(WorldItemPath::Ident(*id)),
        }
    }
}

impl<'a> WorldImport<'a> {
    /// An equal import.
    pub fn clone(&self, alloc: Global) -> Result<Self, AllocError>
        ensures { IfOk result (λ t. view_world_import t ≡ view_world_import self.now) }
    {
        Ok(WorldImport {
            docs: clone_docs(alloc, &self.docs)?,
            path: self.path.clone(alloc)?,
        })
    }
}

impl<'a> WorldExport<'a> {
    /// An equal export.
    pub fn clone(&self, alloc: Global) -> Result<Self, AllocError>
        ensures { IfOk result (λ t. view_world_export t ≡ view_world_export self.now) }
    {
        Ok(WorldExport {
            docs: clone_docs(alloc, &self.docs)?,
            path: self.path.clone(alloc)?,
        })
    }
}

impl<'a> WorldRef<'a> {
    /// The name of the world: the identifier, or the whole path.
    pub fn name(&self) -> &'a str
        ensures { result.now ≡ world_ref_name (view_world_ref self.now) }
    {
        match self {
            WorldRef::Ident(id) => id.string,
            WorldRef::Package(path) => path.string,
        }
    }

    /// Where the reference stands.
    pub fn span(&self) -> SourceSpan
        ensures { result ≡ world_ref_span (view_world_ref self.now) }
    {
        match self {
            WorldRef::Ident(id) => id.span,
            WorldRef::Package(path) => path.span,
        }
    }

    /// An equal reference.
    pub fn clone(&self, alloc: Global) -> Result<Self, AllocError>
        ensures { IfOk result (λ t. view_world_ref t ≡ view_world_ref self.now) }
    {
        match self {
            WorldRef::Ident(id) => Ok(WorldRef::Ident(*id)),
            WorldRef::Package(path) => Ok(WorldRef::Package(path.clone(alloc)?)),
        }
    }
}

impl<'a> WorldInclude<'a> {
    /// An equal item.
    pub fn clone(&self, alloc: Global) -> Result<Self, AllocError>
        ensures { IfOk result (λ t. view_world_include t ≡ view_world_include self.now) }
    {
        Ok(WorldInclude {
            docs: clone_docs(alloc, &self.docs)?,
            world: self.world.clone(alloc)?,
            with: clone_renames(alloc, &self.with)?,
        })
    }
}

impl<'a> WorldItem<'a> {
    /// An equal item.
    pub fn clone(&self, alloc: Global) -> Result<Self, AllocError>
        ensures { IfOk result (λ t. view_world_item t ≡ view_world_item self.now) }
    {
        match self {
            WorldItem::Use(item) => Ok(WorldItem::Use(item.clone(alloc)?)),
            WorldItem::Ty(ty) => Ok(WorldItem::Ty(ty.clone(alloc)?)),
            WorldItem::Import(import) => Ok(WorldItem::Import(import.clone(alloc)?)),
            WorldItem::Export(export) => Ok(WorldItem::Export(export.clone(alloc)?)),
            WorldItem::Include(include) => Ok(WorldItem::Include(include.clone(alloc)?)),
        }
    }
}

impl<'a> WorldDecl<'a> {
    /// An equal declaration.
    pub fn clone(&self, alloc: Global) -> Result<Self, AllocError>
        ensures { IfOk result (λ t. view_world_decl t ≡ view_world_decl self.now) }
    {
        Ok(WorldDecl {
            docs: clone_docs(alloc, &self.docs)?,
            id: self.id,
            items: clone_all(alloc, &self.items)?,
        })
    }
}

fn clone_renames<'a>(
    alloc: Global,
    renames: &Vec<WorldIncludeItem<'a>>,
) -> Result<Vec<WorldIncludeItem<'a>>, AllocError>
    ensures { IfOk result (λ v. map view_world_include_item v.items ≡ map view_world_include_item renames.now.items) }
{
    Vec::from_slice(alloc, renames.as_slice())
}
