//! The types of components, names on version tracks, packages, what fits what, and merging: the public crate over its parts.
#![tactic(auto)]

pub use wac_types_base::{
    CoreExtern, CoreFuncType, CoreImports, CoreRefType, CoreType, CycleError, DefinedType,
    DefinedTypeId, EntryIter, Enum, ExternKind, Flags, FuncKind, FuncType, FuncTypeId, HeapType,
    Interface, InterfaceId, ItemKind, Items, ModuleType, ModuleTypeId, NamedMap, Names, Places,
    PrimitiveType, Record, Resource, ResourceAlias, ResourceId, TargetError, Text, Type, Types,
    TypesMut, UsedType, ValueType, Variant, World, WorldId,
};
pub use wac_types_fit::{
    Cache, SubtypeCheck, SubtypeChecker, SubtypeError, TargetValidationReport,
    TargetValidationResult, meets_of_plain_trees, new_cache, order_on_trees, refusals_are_true,
    validate_target,
};
pub use wac_types_merge::{
    AggregateError, Family, Import, TypeAggregator, aggregate_all, asks_merge_in_turn,
};
pub use wac_types_names::{
    Adding, BorrowedKey, BorrowedPackageKey, NameMap, NameMapError, NameMapIntern, NameMapNoIntern,
    Package, PackageKey, alternate_lookup_key, are_semver_compatible, compatible_names, copy_world,
    examples, is_track, one_name_a_version, order_of_insertion, same_key, tracks_end_lookup_keys,
};
