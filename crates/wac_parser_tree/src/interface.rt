//! Interfaces.

ghost use Rattle.std.specs.Prelude.{◌≡◌, IfOk, map};
ghost use Rattle.wac_parser_tree.specs.Views.{view_inline_interface, view_interface_decl, view_interface_export, view_interface_item, view_use, view_use_item, view_use_path};

use crate::declaration::ItemTypeDecl;
use crate::import::PackagePath;
use crate::lists::clone_all;
use crate::text::{DocComment, Ident, clone_docs};
use crate::value_type::FuncTypeRef;
use std::alloc::{AllocError, Global};

/// A declaration `interface ID { ITEMS }`.
#[derive(Debug, Drop)]
pub struct InterfaceDecl<'a> {
    /// The doc comments of the interface.
    pub docs: Vec<DocComment<'a>>,
    /// The name of the interface.
    pub id: Ident<'a>,
    /// Its items, in order.
    pub items: Vec<InterfaceItem<'a>>,
}

/// An interface without a name: `interface { ITEMS }`.
#[derive(Debug, Drop)]
pub struct InlineInterface<'a> {
    /// The items, in order.
    pub items: Vec<InterfaceItem<'a>>,
}

/// An item of an interface.
#[derive(Debug)]
pub enum InterfaceItem<'a> {
    /// Types of another interface or world.
    Use(Box<Use<'a>>),
    /// A declared type.
    Ty(ItemTypeDecl<'a>),
    /// A function.
    Export(InterfaceExport<'a>),
}

// It takes the value apart: where one is held at a `?`, a derived drop is proved there part by part.
impl Drop for InterfaceItem<'_> {
    fn drop(self) {
        match self {
            InterfaceItem::Use(_) => {}
            InterfaceItem::Ty(_) => {}
            InterfaceItem::Export(_) => {}
        }
    }
}

/// A function `ID: TYPE;` of an interface.
#[derive(Debug, Drop)]
pub struct InterfaceExport<'a> {
    /// The doc comments of the function.
    pub docs: Vec<DocComment<'a>>,
    /// The name of the function.
    pub id: Ident<'a>,
    /// Its type.
    pub ty: FuncTypeRef<'a>,
}

/// An item `use PATH.{ITEMS};`.
#[derive(Debug, Drop)]
pub struct Use<'a> {
    /// The doc comments of the item.
    pub docs: Vec<DocComment<'a>>,
    /// The interface or world that has the types.
    pub path: UsePath<'a>,
    /// The types, in order.
    pub items: Vec<UseItem<'a>>,
}

/// What has the types that are used.
#[derive(Debug)]
pub enum UsePath<'a> {
    /// An item of a package.
    Package(PackagePath<'a>),
    /// A name of the document.
    Ident(Ident<'a>),
}

// It takes the value apart: where one is held at a `?`, a derived drop is proved there part by part.
impl Drop for UsePath<'_> {
    fn drop(self) {
        match self {
            UsePath::Package(_) => {}
            UsePath::Ident(_) => {}
        }
    }
}

/// A type that is used: `ID` or `ID as ID`.
#[derive(Clone, Copy, Debug)]
pub struct UseItem<'a> {
    /// Its name there.
    pub id: Ident<'a>,
    /// Its name here, where it is another.
    pub as_id: Option<Ident<'a>>,
}

impl<'a> UsePath<'a> {
    /// An equal path.
    pub fn clone(&self, alloc: Global) -> Result<Self, AllocError>
        ensures { IfOk result (λ t. view_use_path t ≡ view_use_path self.now) }
    {
        match self {
            UsePath::Package(path) => Ok(UsePath::Package(path.clone(alloc)?)),
            UsePath::Ident(id) => Ok(UsePath::Ident(*id)),
        }
    }
}

impl<'a> Use<'a> {
    /// An equal item.
    pub fn clone(&self, alloc: Global) -> Result<Self, AllocError>
        ensures { IfOk result (λ t. view_use t ≡ view_use self.now) }
    {
        Ok(Use {
            docs: clone_docs(alloc, &self.docs)?,
            path: self.path.clone(alloc)?,
            items: clone_use_items(alloc, &self.items)?,
        })
    }
}

impl<'a> InterfaceExport<'a> {
    /// An equal export.
    pub fn clone(&self, alloc: Global) -> Result<Self, AllocError>
        ensures { IfOk result (λ t. view_interface_export t ≡ view_interface_export self.now) }
    {
        Ok(InterfaceExport {
            docs: clone_docs(alloc, &self.docs)?,
            id: self.id,
            ty: self.ty.clone(alloc)?,
        })
    }
}

impl<'a> InterfaceItem<'a> {
    /// An equal item.
    pub fn clone(&self, alloc: Global) -> Result<Self, AllocError>
        ensures { IfOk result (λ t. view_interface_item t ≡ view_interface_item self.now) }
    {
        match self {
            InterfaceItem::Use(item) => Ok(InterfaceItem::Use(Box::new(
                alloc,
                Use::clone(item, alloc)?,
            )?)),
            InterfaceItem::Ty(ty) => Ok(InterfaceItem::Ty(ty.clone(alloc)?)),
            InterfaceItem::Export(export) => Ok(InterfaceItem::Export(export.clone(alloc)?)),
        }
    }
}

impl<'a> InterfaceDecl<'a> {
    /// An equal declaration.
    pub fn clone(&self, alloc: Global) -> Result<Self, AllocError>
        ensures { IfOk result (λ t. view_interface_decl t ≡ view_interface_decl self.now) }
    {
        Ok(InterfaceDecl {
            docs: clone_docs(alloc, &self.docs)?,
            id: self.id,
            items: clone_all(alloc, &self.items)?,
        })
    }
}

impl<'a> InlineInterface<'a> {
    /// An equal interface.
    pub fn clone(&self, alloc: Global) -> Result<Self, AllocError>
        ensures { IfOk result (λ t. view_inline_interface t ≡ view_inline_interface self.now) }
    {
        Ok(InlineInterface {
            items: clone_all(alloc, &self.items)?,
        })
    }
}

fn clone_use_items<'a>(
    alloc: Global,
    items: &Vec<UseItem<'a>>,
) -> Result<Vec<UseItem<'a>>, AllocError>
    ensures { IfOk result (λ v. map view_use_item v.items ≡ map view_use_item items.now.items) }
{
    Vec::from_slice(alloc, items.as_slice())
}
