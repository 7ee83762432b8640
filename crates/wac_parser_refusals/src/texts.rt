//! The texts of refusals.

use crate::error::{Error, InstanceOperation};
use std::fmt;
use wac_types_base::{ExternKind, FuncKind};

/// Words in which each `#` stands for the next name.
#[derive(Clone, Copy)]
struct Text<'e> {
    words: &'static str,
    names: [&'e str; 4],
}

impl fmt::Display for Text<'_> {
    fn fmt<W: fmt::Write>(&self, f: &mut fmt::Formatter<W>) -> fmt::Result {
        let mut names = self.names.iter();
        for piece in self.words.split('#') {
            f.write_str(piece)?;
            if let Some(name) = names.next() {
                f.write_str(name)?;
            }
        }
        Ok(())
    }
}

/// A text without names.
fn plain(words: &'static str) -> Text<'static> {
    Text {
        words,
        names: ["", "", "", ""],
    }
}

/// A text with one name.
fn one<'e>(words: &'static str, name: &'e String) -> Text<'e> {
    Text {
        words,
        names: [name.as_str(), "", "", ""],
    }
}

/// A text with two names.
fn two<'e>(words: &'static str, first: &'e String, second: &'e String) -> Text<'e> {
    Text {
        words,
        names: [first.as_str(), second.as_str(), "", ""],
    }
}

/// A text with a name and what it is the name of.
fn of_kind<'e>(words: &'static str, name: &'e String, kind: &'static str) -> Text<'e> {
    Text {
        words,
        names: [name.as_str(), kind, "", ""],
    }
}

/// A text with three names.
fn three<'e>(
    words: &'static str,
    first: &'e String,
    second: &'e String,
    third: &'e String,
) -> Text<'e> {
    Text {
        words,
        names: [first.as_str(), second.as_str(), third.as_str(), ""],
    }
}

/// A text with a name, what it is the name of, and another name.
fn of_kind_in<'e>(
    words: &'static str,
    name: &'e String,
    kind: &'static str,
    other: &'e String,
) -> Text<'e> {
    Text {
        words,
        names: [name.as_str(), kind, other.as_str(), ""],
    }
}

/// A text with a word before a name.
fn in_words<'e>(words: &'static str, word: &'static str, name: &'e String) -> Text<'e> {
    Text {
        words,
        names: [word, name.as_str(), "", ""],
    }
}

/// The words for a kind of functions.
fn func_words(kind: FuncKind) -> &'static str {
    match kind {
        FuncKind::Free => "function",
        FuncKind::Method => "method",
        FuncKind::Static => "static method",
        FuncKind::Constructor => "constructor",
    }
}

/// The text where what stands at a path in a package lacks an export.
fn at_path<'e>(
    kind: &'static str,
    path: &'e String,
    package: &'e String,
    export: &'e String,
) -> Text<'e> {
    Text {
        words: "# `#` in package `#` has no export named `#`",
        names: [kind, path.as_str(), package.as_str(), export.as_str()],
    }
}

/// The words for imports or those for exports.
fn by_kind(kind: ExternKind, imports: &'static str, exports: &'static str) -> &'static str {
    match kind {
        ExternKind::Import => imports,
        ExternKind::Export => exports,
    }
}

/// The text of a fault; of `ImportConflict` without the package at its end.
fn text_of(error: &Error) -> Text<'_> {
    match error {
        Error::UndefinedName { name, .. } => one("undefined name `#`", name),
        Error::DuplicateName { name, .. } => one("`#` is already defined", name),
        Error::UnknownPackage { name, .. } => one("unknown package `#`", name),
        Error::PackageMissingExport {
            package,
            export,
            kind,
            path,
            ..
        } => match kind {
            Some(kind) => at_path(*kind, path, package, export),
            None => two("package `#` has no export named `#`", package, export),
        },
        Error::PackagePathMissingExport {
            name,
            kind,
            export,
            ..
        } => of_kind_in("`#` (#) has no export named `#`", name, *kind, export),
        Error::MissingComponentImport {
            package,
            import,
            ..
        } => two("component `#` has no import named `#`", package, import),
        Error::MismatchedInstantiationArg { name, .. } => one(
            "mismatched instantiation argument `#`",
            name,
        ),
        Error::DuplicateInstantiationArg { name, .. } => one(
            "duplicate instantiation argument `#`",
            name,
        ),
        Error::MissingInstantiationArg { name, package, .. } => two(
            "missing instantiation argument `#` for package `#`",
            name,
            package,
        ),
        Error::ImportConflict { name, .. } => one(
            "import `#` conflicts with an item that was implicitly imported by an instantiation of",
            name,
        ),
        Error::ExplicitImportConflict { name, .. } => one(
            "import `#` does not merge with an earlier import",
            name,
        ),
        Error::InstantiationArgMergeFailure { name, .. } => one(
            "failed to merge the type definition for implicit import `#` due to conflicting types",
            name,
        ),
        Error::NotAnInstance { operation, .. } => plain(match operation {
            InstanceOperation::Access => "an instance is required to perform an access operation",
            InstanceOperation::Spread => "an instance is required to perform a spread operation",
        }),
        Error::MissingInstanceExport { name, .. } => one(
            "the instance has no export named `#`",
            name,
        ),
        Error::ExportRequiresAs { .. } => plain(
            "export statement requires an `as` clause as the export name cannot be inferred",
        ),
        Error::DeclarationConflict { name, .. } => one(
            "type declaration `#` conflicts with a previous export of the same name",
            name,
        ),
        Error::ExportConflict { name, kind, .. } => of_kind(
            "export `#` conflicts with # definition",
            name,
            *kind,
        ),
        Error::DuplicateExternName { kind, name, .. } => one(
            by_kind(*kind, "duplicate import `#`", "duplicate export `#`"),
            name,
        ),
        Error::InvalidExternName { kind, name, .. } => one(
            by_kind(
                *kind,
                "import name `#` is not valid",
                "export name `#` is not valid",
            ),
            name,
        ),
        Error::UseConflict { name, kind, .. } => one(
            by_kind(
                *kind,
                "use of type `#` conflicts with an import of the same name",
                "use of type `#` conflicts with an export of the same name",
            ),
            name,
        ),
        Error::FillArgumentNotLast { .. } => plain(
            "implicit import argument `...` must be the last argument",
        ),
        Error::SpreadInstantiationNoMatch { .. } => plain(
            "the instance has no matching exports for the remaining unsatisfied arguments",
        ),
        Error::SpreadExportNoEffect { .. } => plain(
            "instance has no exports or all exports of the instance match previously exported names",
        ),
        Error::ImportNotInTarget { world, name, .. } => two(
            "target world `#` does not have an import named `#`",
            world,
            name,
        ),
        Error::MissingTargetExport { world, name, .. } => two(
            "target world `#` requires an export named `#`",
            world,
            name,
        ),
        Error::TargetMismatch {
            kind,
            name,
            world,
            ..
        } => two(
            by_kind(
                *kind,
                "import `#` has a mismatched type for target world `#`",
                "export `#` has a mismatched type for target world `#`",
            ),
            name,
            world,
        ),
        Error::ValidationFailure { .. } => plain("the encoding of the graph failed validation"),
        Error::TypeCannotBeWritten { name } => one("a type of `#` cannot be written", name),
        Error::TypeNotWritten => plain("a type that can be written was not"),
        Error::TooLarge => plain("the component is too large"),
        Error::NotFuncOrInterface { name, kind, .. } => of_kind(
            "`#` (#) is not a function type or interface",
            name,
            *kind,
        ),
        Error::NotInterface { name, kind, .. } => of_kind(
            "`#` (#) is not an interface",
            name,
            *kind,
        ),
        Error::NotWorld { name, kind, .. } => of_kind("`#` (#) is not a world", name, *kind),
        Error::NotFuncType { name, kind, .. } => of_kind(
            "`#` (#) is not a function type",
            name,
            *kind,
        ),
        Error::NotResourceType { name, kind, .. } => of_kind(
            "`#` (#) is not a resource type",
            name,
            *kind,
        ),
        Error::NotValueType { name, kind, .. } => of_kind(
            "`#` (#) cannot be used as a value type",
            name,
            *kind,
        ),
        Error::InvalidAliasType { name, kind, .. } => of_kind(
            "`#` (#) cannot be used in a type alias",
            name,
            *kind,
        ),
        Error::UndefinedInterfaceType {
            name,
            interface_name,
            ..
        } => two(
            "a type named `#` is not defined in interface `#`",
            name,
            interface_name,
        ),
        Error::NotInterfaceValueType {
            name,
            kind,
            interface_name,
            ..
        } => of_kind_in(
            "`#` (#) is not a value type in interface `#`",
            name,
            *kind,
            interface_name,
        ),
        Error::DuplicateInterfaceExport {
            name,
            interface_name,
            ..
        } => match interface_name {
            Some(interface) => two(
                "duplicate interface export `#` for interface `#`",
                name,
                interface,
            ),
            None => one("duplicate interface export `#`", name),
        },
        Error::DuplicateWorldItem {
            kind,
            name,
            world,
            ..
        } => two(
            by_kind(
                *kind,
                "import `#` conflicts with existing import of the same name in world `#`",
                "export `#` conflicts with existing export of the same name in world `#`",
            ),
            name,
            world,
        ),
        Error::DuplicateWorldIncludeName { name, .. } => one(
            "duplicate `#` in world include `with` clause",
            name,
        ),
        Error::MissingWorldInclude { world, name, .. } => two(
            "world `#` does not have an import or export named `#`",
            world,
            name,
        ),
        Error::WorldIncludeConflict {
            kind,
            name,
            from,
            to,
            ..
        } => three(
            by_kind(
                *kind,
                "import `#` from world `#` conflicts with import of the same name in world `#`",
                "export `#` from world `#` conflicts with export of the same name in world `#`",
            ),
            name,
            from,
            to,
        ),
        Error::DuplicateResourceConstructor { resource, .. } => one(
            "duplicate constructor for resource `#`",
            resource,
        ),
        Error::DuplicateResourceMethod { name, resource, .. } => two(
            "duplicate method `#` for resource `#`",
            name,
            resource,
        ),
        Error::DuplicateVariantCase { case, name, .. } => two(
            "duplicate case `#` for variant type `#`",
            case,
            name,
        ),
        Error::DuplicateRecordField { field, name, .. } => two(
            "duplicate field `#` for record type `#`",
            field,
            name,
        ),
        Error::DuplicateEnumCase { case, name, .. } => two(
            "duplicate case `#` for enum type `#`",
            case,
            name,
        ),
        Error::DuplicateFlag { flag, name, .. } => two(
            "duplicate flag `#` for flags type `#`",
            flag,
            name,
        ),
        Error::DuplicateParameter { kind, name, .. } => in_words(
            "duplicate # parameter `#`",
            func_words(*kind),
            name,
        ),
        Error::DuplicateResult { kind, name, .. } => in_words(
            "duplicate # result `#`",
            func_words(*kind),
            name,
        ),
        Error::BorrowInResult { .. } => plain(
            "function result cannot recursively contain a borrow type",
        ),
        Error::Memory => plain("out of memory"),
    }
}

impl fmt::Display for Error {
    fn fmt<W: fmt::Write>(&self, f: &mut fmt::Formatter<W>) -> fmt::Result {
        fmt::Display::fmt(&text_of(self), f)?;
        match self {
            Error::ImportConflict { package, .. } => write!(f, " `{package}`"),
            _ => Ok(()),
        }
    }
}

impl std::error::Error for Error {}
