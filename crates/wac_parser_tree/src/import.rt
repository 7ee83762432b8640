//! Imports, and the names of packages and of what they hold.

ghost use Rattle.std.specs.Prelude.{◌≡◌, ℕ, List, IfOk, map};
ghost use Rattle.std.specs.List.{All};
ghost use Rattle.std.specs.Option.{option_map};
ghost use Rattle.semver.specs.Identifiers.{parts_of};
ghost use Rattle.wac_parser_lexer.specs.Pieces.{text_at};
ghost use Rattle.wac_parser_tree.specs.Accessors.{extern_name_span, extern_name_text};
ghost use Rattle.wac_parser_tree.specs.Segments.{HasNoSlash, IsPathIn, StandsAt, joined, package_name_span as name_span_of, segment_text, segment_spans as segments_of};
ghost use Rattle.wac_parser_tree.specs.Views.{view_extern_name, view_import_statement, view_import_type, view_package_name, view_package_path};

use crate::interface::InlineInterface;
use crate::segments::SegmentSpans;
use crate::text::{DocComment, Ident, String, clone_docs};
use crate::value_type::FuncType;
use semver::Version;
use std::alloc::{AllocError, Global};
use wac_parser_lexer::SourceSpan;

/// The outer name of an import or an export.
#[derive(Clone, Copy, Debug)]
pub enum ExternName<'a> {
    /// An identifier.
    Ident(Ident<'a>),
    /// A string literal.
    String(String<'a>),
}

/// A statement `import ID [as NAME]: TYPE;`.
#[derive(Debug, Drop)]
pub struct ImportStatement<'a> {
    /// The doc comments of the statement.
    pub docs: Vec<DocComment<'a>>,
    /// The name of the item in the document.
    pub id: Ident<'a>,
    /// The name of the import, where it is another.
    pub name: Option<ExternName<'a>>,
    /// The type of the item.
    pub ty: ImportType<'a>,
}

/// The type of an import.
#[derive(Debug)]
pub enum ImportType<'a> {
    /// An item of a package.
    Package(PackagePath<'a>),
    /// A function.
    Func(FuncType<'a>),
    /// An interface.
    Interface(InlineInterface<'a>),
    /// A type of the document.
    Ident(Ident<'a>),
}

// It takes the value apart: where one is held at a `?`, a derived drop is proved there part by part.
impl Drop for ImportType<'_> {
    fn drop(self) {
        match self {
            ImportType::Package(_) => {}
            ImportType::Func(_) => {}
            ImportType::Interface(_) => {}
            ImportType::Ident(_) => {}
        }
    }
}

/// A path to an item of a package, as `a:b/c/d@1.0.0`.
#[derive(Debug, Drop)]
pub struct PackagePath<'a> {
    /// Where the path stands.
    pub span: SourceSpan,
    /// The whole path.
    pub string: &'a str,
    /// The name of the package, as `a:b`.
    pub name: &'a str,
    /// The segments behind the name and a slash, as `c/d`.
    pub segments: &'a str,
    /// The version, if it has one.
    pub version: Option<Version>,
}

/// The name of a package, as `a:b@1.0.0`.
#[derive(Debug, Drop)]
pub struct PackageName<'a> {
    /// The name with its version.
    pub string: &'a str,
    /// The name without its version, as `a:b`.
    pub name: &'a str,
    /// The version, if it has one.
    pub version: Option<Version>,
    /// Where the name stands, the version included.
    pub span: SourceSpan,
}

fn clone_version(version: &Option<Version>) -> Result<Option<Version>, AllocError>
    ensures { IfOk result (λ v. option_map parts_of v ≡ option_map parts_of version.now) }
{
    match version {
        Some(version) => Ok(Some(version.clone()?)),
        None => Ok(None),
    }
}

impl<'a> ExternName<'a> {
    /// Where the name stands.
    pub fn span(&self) -> SourceSpan
        ensures { result ≡ extern_name_span (view_extern_name self.now) }
    {
        match self {
            ExternName::Ident(id) => id.span,
            ExternName::String(string) => string.span,
        }
    }

    /// The text of the name, without quotes.
    pub fn as_str(&self) -> &'a str
        ensures { result.now ≡ extern_name_text (view_extern_name self.now) }
    {
        match self {
            ExternName::Ident(id) => id.string,
            ExternName::String(string) => string.value,
        }
    }
}

impl<'a> PackagePath<'a> {
    /// Where the name of the package stands, without the segments and the version.
    pub fn package_name_span(&self) -> SourceSpan
        ensures value { result ≡ name_span_of (view_package_path self.now) }
        ensures slice { (source : List ℕ) → IsPathIn source (view_package_path self.now)
            → text_at source result ≡ self.now.name.now }
    {
        SourceSpan {
            offset: self.span.offset,
            length: self.name.len(),
        }
    }

    /// The segments of the path, in order, each with where it stands. In a path that was not parsed, a
    /// place past the greatest number is that number.
    pub fn segment_spans(&self) -> SegmentSpans<'a>
        ensures value { result ≡ segments_of (view_package_path self.now) }
        ensures joined { joined (map segment_text (segments_of (view_package_path self.now))) ≡ self.now.segments.now }
        ensures cut { All HasNoSlash (segments_of (view_package_path self.now)) }
        ensures slices { (source : List ℕ) → IsPathIn source (view_package_path self.now)
            → All (StandsAt source) (segments_of (view_package_path self.now)) }
    {
        let behind_name = self.span.offset.saturating_add(self.name.len());
        SegmentSpans::new(self.segments, behind_name.saturating_add(1))
    }

    /// An equal path.
    pub fn clone(&self, _alloc: Global) -> Result<Self, AllocError>
        ensures { IfOk result (λ t. view_package_path t ≡ view_package_path self.now) }
    {
        Ok(PackagePath {
            span: self.span,
            string: self.string,
            name: self.name,
            segments: self.segments,
            version: clone_version(&self.version)?,
        })
    }
}

impl<'a> PackageName<'a> {
    /// An equal name.
    pub fn clone(&self, _alloc: Global) -> Result<Self, AllocError>
        ensures { IfOk result (λ t. view_package_name t ≡ view_package_name self.now) }
    {
        Ok(PackageName {
            string: self.string,
            name: self.name,
            version: clone_version(&self.version)?,
            span: self.span,
        })
    }
}

impl<'a> ImportType<'a> {
    /// An equal type.
    pub fn clone(&self, alloc: Global) -> Result<Self, AllocError>
        ensures { IfOk result (λ t. view_import_type t ≡ view_import_type self.now) }
    {
        match self {
            ImportType::Package(path) => Ok(ImportType::Package(path.clone(alloc)?)),
            ImportType::Func(ty) => Ok(ImportType::Func(ty.clone(alloc)?)),
            ImportType::Interface(interface) => Ok(ImportType::Interface(interface.clone(alloc)?)),
            ImportType::Ident(id) => Ok(ImportType::Ident(*id)),
        }
    }
}

impl<'a> ImportStatement<'a> {
    /// An equal statement.
    pub fn clone(&self, alloc: Global) -> Result<Self, AllocError>
        ensures { IfOk result (λ t. view_import_statement t ≡ view_import_statement self.now) }
    {
        Ok(ImportStatement {
            docs: clone_docs(alloc, &self.docs)?,
            id: self.id,
            name: self.name,
            ty: self.ty.clone(alloc)?,
        })
    }
}
