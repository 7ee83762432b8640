//! Why a document is refused.

ghost use Rattle.std.specs.Prelude.{◌≡◌};
ghost use Rattle.wac_parser_refusals.specs.Causes.{span_of};
ghost use Rattle.wac_parser_refusals.specs.Views.{cause_of};

use std::alloc::{AllocError, AllocFailed};
use std::fmt;
use wac_names::{NameError, ValidationFault};
use wac_parser_lexer::SourceSpan;
use wac_types_base::{ExternKind, FuncKind};
use wac_types_fit::SubtypeError;
use wac_types_merge::AggregateError;
use wac_types_names::PackageKey;

/// What may help where a name is there already.
pub const AS_HELP: &str = "consider using an `as` clause to use a different name";

/// What may help where an item of a world that is included is there already.
pub const WITH_HELP: &str = "consider using a `with` clause to use a different name";

/// What is done with an instance.
#[derive(Clone, Copy, Debug, PartialEq, Eq, Hash)]
pub enum InstanceOperation {
    /// An access `.name` or `["name"]`.
    Access,
    /// A spread `...`.
    Spread,
}

impl fmt::Display for InstanceOperation {
    fn fmt<W: fmt::Write>(&self, f: &mut fmt::Formatter<W>) -> fmt::Result {
        f.write_str(match self {
            InstanceOperation::Access => "an access operation",
            InstanceOperation::Spread => "a spread operation",
        })
    }
}

/// Why a document is refused, with the place of the fault.
#[derive(Debug, Drop)]
pub enum Error {
    /// An undefined name was met.
    UndefinedName {
        /// The name.
        name: String,
        /// Where the fault stands.
        span: SourceSpan,
    },
    /// A name is defined twice.
    DuplicateName {
        /// The name.
        name: String,
        /// Where the fault stands.
        span: SourceSpan,
        /// Where the earlier one stands.
        previous: SourceSpan,
    },
    /// A package is unknown.
    UnknownPackage {
        /// The name.
        name: String,
        /// Where the fault stands.
        span: SourceSpan,
    },
    /// A package, or an item in it, lacks an export.
    PackageMissingExport {
        /// The package.
        package: String,
        /// The export.
        export: String,
        /// What it is.
        kind: Option<&'static str>,
        /// The path to what lacks it.
        path: String,
        /// Where the fault stands.
        span: SourceSpan,
    },
    /// An item of the document's own package lacks an export.
    PackagePathMissingExport {
        /// The name.
        name: String,
        /// What it is.
        kind: &'static str,
        /// The export.
        export: String,
        /// Where the fault stands.
        span: SourceSpan,
    },
    /// A component lacks an import.
    MissingComponentImport {
        /// The package.
        package: String,
        /// The import.
        import: String,
        /// Where the fault stands.
        span: SourceSpan,
    },
    /// An argument does not fit its import.
    MismatchedInstantiationArg {
        /// The name.
        name: String,
        /// Where the fault stands.
        span: SourceSpan,
        /// Why it does not fit.
        source: SubtypeError,
    },
    /// An argument is given twice.
    DuplicateInstantiationArg {
        /// The name.
        name: String,
        /// Where the fault stands.
        span: SourceSpan,
    },
    /// An argument is missing.
    MissingInstantiationArg {
        /// The name.
        name: String,
        /// The package.
        package: String,
        /// Where the fault stands.
        span: SourceSpan,
    },
    /// An import has the name of one that an instantiation asks for.
    ImportConflict {
        /// The name.
        name: String,
        /// The package.
        package: PackageKey,
        /// Where the instantiation stands.
        instantiation: SourceSpan,
        /// Where the import stands.
        import: SourceSpan,
    },
    /// An import does not merge with an earlier one.
    ExplicitImportConflict {
        /// The name.
        name: String,
        /// Where the fault stands.
        span: SourceSpan,
        /// Where the earlier one stands.
        previous: SourceSpan,
    },
    /// What is asked under one name does not merge.
    InstantiationArgMergeFailure {
        /// The name.
        name: String,
        /// Where the fault stands.
        span: SourceSpan,
        /// Where the instantiation stands.
        instantiation: SourceSpan,
        /// Why they do not merge.
        source: AggregateError,
    },
    /// An operation asks for an instance.
    NotAnInstance {
        /// What it is.
        kind: &'static str,
        /// What was to be done.
        operation: InstanceOperation,
        /// Where the fault stands.
        span: SourceSpan,
    },
    /// An instance lacks an export.
    MissingInstanceExport {
        /// The name.
        name: String,
        /// Where the fault stands.
        span: SourceSpan,
    },
    /// The name of an export cannot be inferred.
    ExportRequiresAs {
        /// Where the fault stands.
        span: SourceSpan,
    },
    /// A declaration has the name of an export.
    DeclarationConflict {
        /// The name.
        name: String,
        /// Where the fault stands.
        span: SourceSpan,
        /// Where the export stands.
        export: SourceSpan,
    },
    /// An export has the name of a definition.
    ExportConflict {
        /// The name.
        name: String,
        /// What it is.
        kind: &'static str,
        /// Where the fault stands.
        span: SourceSpan,
        /// Where the definition stands.
        definition: SourceSpan,
        /// What may help.
        help: Option<&'static str>,
    },
    /// An import or an export is there already.
    DuplicateExternName {
        /// The name.
        name: String,
        /// What it is.
        kind: ExternKind,
        /// Where the fault stands.
        span: SourceSpan,
        /// Where the earlier one stands.
        previous: SourceSpan,
        /// What may help.
        help: Option<&'static str>,
    },
    /// The name of an import or an export is not valid.
    InvalidExternName {
        /// The name.
        name: String,
        /// What it is.
        kind: ExternKind,
        /// Where the fault stands.
        span: SourceSpan,
        /// Why it is not valid.
        source: NameError,
    },
    /// A type that is used has the name of another item.
    UseConflict {
        /// The name.
        name: String,
        /// What it is.
        kind: ExternKind,
        /// Where the fault stands.
        span: SourceSpan,
        /// What may help.
        help: Option<&'static str>,
    },
    /// The argument `...` does not stand last.
    FillArgumentNotLast {
        /// Where the fault stands.
        span: SourceSpan,
    },
    /// A spread argument has nothing that is still asked.
    SpreadInstantiationNoMatch {
        /// Where the fault stands.
        span: SourceSpan,
    },
    /// A spread export has nothing to export.
    SpreadExportNoEffect {
        /// Where the fault stands.
        span: SourceSpan,
    },
    /// An import is not in the target world.
    ImportNotInTarget {
        /// The name.
        name: String,
        /// The world.
        world: String,
        /// Where the fault stands.
        span: Option<SourceSpan>,
    },
    /// An export of the target world is missing.
    MissingTargetExport {
        /// The name.
        name: String,
        /// What it is.
        kind: &'static str,
        /// The world.
        world: String,
        /// Where the fault stands.
        span: SourceSpan,
    },
    /// An item has another type than in the target world.
    TargetMismatch {
        /// What it is.
        kind: ExternKind,
        /// The name.
        name: String,
        /// The world.
        world: String,
        /// Where the fault stands.
        span: Option<SourceSpan>,
        /// Why it does not fit.
        source: SubtypeError,
    },
    /// Two names of imports, or of exports, are too much alike.
    ValidationFailure {
        /// Which two.
        source: ValidationFault,
    },
    /// A type has no written form.
    TypeCannotBeWritten {
        /// The name.
        name: String,
    },
    /// A type was not written against which no cause stands. No source is known of which it is answered.
    TypeNotWritten,
    /// A count, an index or a size is too large.
    TooLarge,
    /// A name is not one of a function type or an interface.
    NotFuncOrInterface {
        /// The name.
        name: String,
        /// What it is.
        kind: &'static str,
        /// Where the fault stands.
        span: SourceSpan,
    },
    /// A name or a path is not one of an interface.
    NotInterface {
        /// The name.
        name: String,
        /// What it is.
        kind: &'static str,
        /// Where the fault stands.
        span: SourceSpan,
    },
    /// A name or a path is not one of a world.
    NotWorld {
        /// The name.
        name: String,
        /// What it is.
        kind: &'static str,
        /// Where the fault stands.
        span: SourceSpan,
    },
    /// A name is not one of a function type.
    NotFuncType {
        /// The name.
        name: String,
        /// What it is.
        kind: &'static str,
        /// Where the fault stands.
        span: SourceSpan,
    },
    /// A name is not one of a resource.
    NotResourceType {
        /// The name.
        name: String,
        /// What it is.
        kind: &'static str,
        /// Where the fault stands.
        span: SourceSpan,
    },
    /// A name is not one of a value type.
    NotValueType {
        /// The name.
        name: String,
        /// What it is.
        kind: &'static str,
        /// Where the fault stands.
        span: SourceSpan,
    },
    /// A name is not one of what can be aliased.
    InvalidAliasType {
        /// The name.
        name: String,
        /// What it is.
        kind: &'static str,
        /// Where the fault stands.
        span: SourceSpan,
    },
    /// An interface lacks a type that is used.
    UndefinedInterfaceType {
        /// The name.
        name: String,
        /// The interface.
        interface_name: String,
        /// Where the fault stands.
        span: SourceSpan,
    },
    /// What is used of an interface is no value type.
    NotInterfaceValueType {
        /// The name.
        name: String,
        /// What it is.
        kind: &'static str,
        /// The interface.
        interface_name: String,
        /// Where the fault stands.
        span: SourceSpan,
    },
    /// An interface has two exports of one name.
    DuplicateInterfaceExport {
        /// The name.
        name: String,
        /// The interface.
        interface_name: Option<String>,
        /// Where the fault stands.
        span: SourceSpan,
    },
    /// A world has two imports, or two exports, of one name.
    DuplicateWorldItem {
        /// What it is.
        kind: ExternKind,
        /// The name.
        name: String,
        /// The world.
        world: String,
        /// Where the fault stands.
        span: SourceSpan,
    },
    /// A name stands twice in a `with` clause.
    DuplicateWorldIncludeName {
        /// The name.
        name: String,
        /// Where the fault stands.
        span: SourceSpan,
    },
    /// A world lacks a name of a `with` clause.
    MissingWorldInclude {
        /// The world.
        world: String,
        /// The name.
        name: String,
        /// Where the fault stands.
        span: SourceSpan,
    },
    /// An item of a world that is included is there already.
    WorldIncludeConflict {
        /// What it is.
        kind: ExternKind,
        /// The name.
        name: String,
        /// The world that is included.
        from: String,
        /// The world that includes it.
        to: String,
        /// Where the fault stands.
        span: SourceSpan,
        /// What may help.
        help: Option<&'static str>,
    },
    /// A resource has two constructors.
    DuplicateResourceConstructor {
        /// The resource.
        resource: String,
        /// Where the fault stands.
        span: SourceSpan,
    },
    /// A resource has two methods of one name.
    DuplicateResourceMethod {
        /// The name.
        name: String,
        /// The resource.
        resource: String,
        /// Where the fault stands.
        span: SourceSpan,
    },
    /// A variant has two cases of one name.
    DuplicateVariantCase {
        /// The case.
        case: String,
        /// The name.
        name: String,
        /// Where the fault stands.
        span: SourceSpan,
    },
    /// A record has two fields of one name.
    DuplicateRecordField {
        /// The field.
        field: String,
        /// The name.
        name: String,
        /// Where the fault stands.
        span: SourceSpan,
    },
    /// An enum has two cases of one name.
    DuplicateEnumCase {
        /// The case.
        case: String,
        /// The name.
        name: String,
        /// Where the fault stands.
        span: SourceSpan,
    },
    /// Flags have two of one name.
    DuplicateFlag {
        /// The flag.
        flag: String,
        /// The name.
        name: String,
        /// Where the fault stands.
        span: SourceSpan,
    },
    /// A function has two parameters of one name.
    DuplicateParameter {
        /// The name.
        name: String,
        /// What it is.
        kind: FuncKind,
        /// Where the fault stands.
        span: SourceSpan,
    },
    /// A function has two results of one name. No document is refused for it: a function has one result, without a name.
    DuplicateResult {
        /// The name.
        name: String,
        /// What it is.
        kind: FuncKind,
        /// Where the fault stands.
        span: SourceSpan,
    },
    /// A function returns a borrow.
    BorrowInResult {
        /// Where the fault stands.
        span: SourceSpan,
    },
    /// Memory was refused.
    Memory,
}

/// What a resolution answers.
pub type ResolutionResult<T> = Result<T, Error>;

impl From<AllocError> for Error {
    ghost use Rattle.std.specs.Prelude.{◌≡◌};
    ghost use Rattle.wac_parser_refusals.specs.declared.error.Error.{Error};

    ghost from_gives = { λ _ e. e ≡ Error.Memory };

    fn from(_error: AllocError) -> Self {
        Error::Memory
    }
}

impl<T: Drop> From<AllocFailed<T>> for Error {
    ghost use Rattle.std.specs.Prelude.{◌≡◌};
    ghost use Rattle.wac_parser_refusals.specs.declared.error.Error.{Error};

    ghost from_gives = { λ _ e. e ≡ Error.Memory };

    fn from(_error: AllocFailed<T>) -> Self {
        Error::Memory
    }
}

impl Error {
    /// Where the fault stands, if it has a place.
    pub fn span(&self) -> Option<SourceSpan>
        ensures { result ≡ span_of (cause_of self.now) }
    {
        match self {
            Error::UndefinedName { span, .. }
            | Error::DuplicateName { span, .. }
            | Error::UnknownPackage { span, .. }
            | Error::PackageMissingExport { span, .. }
            | Error::PackagePathMissingExport { span, .. }
            | Error::MissingComponentImport { span, .. }
            | Error::MismatchedInstantiationArg { span, .. }
            | Error::DuplicateInstantiationArg { span, .. }
            | Error::MissingInstantiationArg { span, .. }
            | Error::ImportConflict { import: span, .. }
            | Error::ExplicitImportConflict { span, .. }
            | Error::InstantiationArgMergeFailure { span, .. }
            | Error::NotAnInstance { span, .. }
            | Error::MissingInstanceExport { span, .. }
            | Error::ExportRequiresAs { span, .. }
            | Error::DeclarationConflict { span, .. }
            | Error::ExportConflict { span, .. }
            | Error::DuplicateExternName { span, .. }
            | Error::InvalidExternName { span, .. }
            | Error::UseConflict { span, .. }
            | Error::FillArgumentNotLast { span, .. }
            | Error::SpreadInstantiationNoMatch { span, .. }
            | Error::SpreadExportNoEffect { span, .. }
            | Error::MissingTargetExport { span, .. }
            | Error::NotFuncOrInterface { span, .. }
            | Error::NotInterface { span, .. }
            | Error::NotWorld { span, .. }
            | Error::NotFuncType { span, .. }
            | Error::NotResourceType { span, .. }
            | Error::NotValueType { span, .. }
            | Error::InvalidAliasType { span, .. }
            | Error::UndefinedInterfaceType { span, .. }
            | Error::NotInterfaceValueType { span, .. }
            | Error::DuplicateInterfaceExport { span, .. }
            | Error::DuplicateWorldItem { span, .. }
            | Error::DuplicateWorldIncludeName { span, .. }
            | Error::MissingWorldInclude { span, .. }
            | Error::WorldIncludeConflict { span, .. }
            | Error::DuplicateResourceConstructor { span, .. }
            | Error::DuplicateResourceMethod { span, .. }
            | Error::DuplicateVariantCase { span, .. }
            | Error::DuplicateRecordField { span, .. }
            | Error::DuplicateEnumCase { span, .. }
            | Error::DuplicateFlag { span, .. }
            | Error::DuplicateParameter { span, .. }
            | Error::DuplicateResult { span, .. }
            | Error::BorrowInResult { span, .. } => Some(*span),
            Error::ImportNotInTarget { span, .. } | Error::TargetMismatch { span, .. } => *span,
            Error::ValidationFailure { .. }
            | Error::TypeCannotBeWritten { .. }
            | Error::TypeNotWritten
            | Error::TooLarge
            | Error::Memory => None,
        }
    }
}
