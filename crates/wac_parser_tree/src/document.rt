//! A whole document.

ghost use Rattle.std.specs.Prelude.{◌≡◌, IfOk};
ghost use Rattle.std.specs.Option.{option_map};
ghost use Rattle.wac_parser_tree.specs.Views.{view_document, view_package_directive, view_package_path, view_statement, view_type_statement};

use crate::declaration::TypeDecl;
use crate::export::ExportStatement;
use crate::import::{ImportStatement, PackageName, PackagePath};
use crate::interface::InterfaceDecl;
use crate::let_statement::LetStatement;
use crate::lists::clone_all;
use crate::text::{DocComment, clone_docs};
use crate::world::WorldDecl;
use std::alloc::{AllocError, Global};
use std::fmt;

/// A document: a package directive, then statements.
pub struct Document<'a> {
    /// The doc comments of the package.
    pub docs: Vec<DocComment<'a>>,
    /// The package directive.
    pub directive: PackageDirective<'a>,
    /// The statements, in the order of the source.
    pub statements: Vec<Statement<'a>>,
}

impl Drop for Document<'_> {
    fn drop(self) {
        let Document {
            docs: _,
            directive: _,
            statements: _,
        } = self;
    }
}

impl fmt::Debug for Document<'_> {
    fn fmt<W: fmt::Write>(&self, f: &mut fmt::Formatter<W>) -> fmt::Result {
        f.write_str("Document { docs: ")?;
        fmt::Debug::fmt(&self.docs, f)?;
        f.write_str(", directive: ")?;
        fmt::Debug::fmt(&self.directive, f)?;
        f.write_str(", statements: ")?;
        let mut list = f.debug_list();
        for statement in &self.statements {
            list.entry(statement);
        }
        list.finish()?;
        f.write_str(" }")
    }
}

/// A directive `package NAME [targets PATH];`.
#[derive(Debug, Drop)]
pub struct PackageDirective<'a> {
    /// The name of the package that the document composes.
    pub package: PackageName<'a>,
    /// The world that the package targets, if it names one.
    pub targets: Option<PackagePath<'a>>,
}

/// A statement of a document.
#[derive(Debug)]
pub enum Statement<'a> {
    /// An import.
    Import(ImportStatement<'a>),
    /// A type.
    Ty(TypeStatement<'a>),
    /// A name for an expression.
    Let(LetStatement<'a>),
    /// An export.
    Export(ExportStatement<'a>),
}

// It takes the value apart: where one is held at a `?`, a derived drop is proved there part by part.
impl Drop for Statement<'_> {
    fn drop(self) {
        match self {
            Statement::Import(_) => {}
            Statement::Ty(_) => {}
            Statement::Let(_) => {}
            Statement::Export(_) => {}
        }
    }
}

/// A statement that declares a type.
#[derive(Debug)]
pub enum TypeStatement<'a> {
    /// An interface.
    Interface(InterfaceDecl<'a>),
    /// A world.
    World(WorldDecl<'a>),
    /// Any other type.
    Ty(TypeDecl<'a>),
}

// It takes the value apart: where one is held at a `?`, a derived drop is proved there part by part.
impl Drop for TypeStatement<'_> {
    fn drop(self) {
        match self {
            TypeStatement::Interface(_) => {}
            TypeStatement::World(_) => {}
            TypeStatement::Ty(_) => {}
        }
    }
}

impl<'a> TypeStatement<'a> {
    /// An equal statement.
    pub fn clone(&self, alloc: Global) -> Result<Self, AllocError>
        ensures { IfOk result (λ t. view_type_statement t ≡ view_type_statement self.now) }
    {
        match self {
            TypeStatement::Interface(interface) => Ok(TypeStatement::Interface(interface.clone(
                alloc,
            )?)),
            TypeStatement::World(world) => Ok(TypeStatement::World(world.clone(alloc)?)),
            TypeStatement::Ty(ty) => Ok(TypeStatement::Ty(ty.clone(alloc)?)),
        }
    }
}

impl<'a> Statement<'a> {
    /// An equal statement.
    pub fn clone(&self, alloc: Global) -> Result<Self, AllocError>
        ensures { IfOk result (λ t. view_statement t ≡ view_statement self.now) }
    {
        match self {
            Statement::Import(import) => Ok(Statement::Import(import.clone(alloc)?)),
            Statement::Ty(ty) => Ok(Statement::Ty(ty.clone(alloc)?)),
            Statement::Let(statement) => Ok(Statement::Let(statement.clone(alloc)?)),
            Statement::Export(export) => Ok(Statement::Export(export.clone(alloc)?)),
        }
    }
}

impl<'a> PackageDirective<'a> {
    /// An equal directive.
    pub fn clone(&self, alloc: Global) -> Result<Self, AllocError>
        ensures { IfOk result (λ t. view_package_directive t ≡ view_package_directive self.now) }
    {
        Ok(PackageDirective {
            package: self.package.clone(alloc)?,
            targets: clone_target(alloc, &self.targets)?,
        })
    }
}

impl<'a> Document<'a> {
    /// An equal document.
    pub fn clone(&self, alloc: Global) -> Result<Self, AllocError>
        ensures { IfOk result (λ t. view_document t ≡ view_document self.now) }
    {
        Ok(Document {
            docs: clone_docs(alloc, &self.docs)?,
            directive: self.directive.clone(alloc)?,
            statements: clone_all(alloc, &self.statements)?,
        })
    }
}

fn clone_target<'a>(
    alloc: Global,
    target: &Option<PackagePath<'a>>,
) -> Result<Option<PackagePath<'a>>, AllocError>
    ensures { IfOk result (λ t. option_map view_package_path t ≡ option_map view_package_path target.now) }
{
    match target {
        Some(path) => Ok(Some(path.clone(alloc)?)),
        None => Ok(None),
    }
}
