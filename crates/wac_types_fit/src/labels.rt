//! Whether names are the same, and defined types but for the types in them.

ghost use Rattle.std.specs.Prelude.{◌≡◌, IsTrue, ◌↔◌};
ghost use Rattle.wac_types_base.specs.Entries.{texts_of};
ghost use Rattle.wac_types_base.specs.Collection.{defined_entry};

use wac_types_base::DefinedType;

/// Whether the names are the same, in order.
pub fn same_names(a: &[String], b: &[String]) -> bool
    ensures { IsTrue result ↔ (texts_of a.now ≡ texts_of b.now) }
{
    a == b
}

/// Whether two defined types are the same but for the types in them.
pub fn same_defined(a: &DefinedType, b: &DefinedType) -> bool
    ensures { IsTrue result ↔ ((defined_entry a.now).0 ≡ (defined_entry b.now).0) }
{
    match a {
        DefinedType::Tuple(_) => matches!(b, DefinedType::Tuple(_)),
        DefinedType::List(_) => matches!(b, DefinedType::List(_)),
        DefinedType::FixedSizeList(_, m) => match b {
            DefinedType::FixedSizeList(_, n) => *m == *n,
            _ => false,
        },
        DefinedType::Option(_) => matches!(b, DefinedType::Option(_)),
        DefinedType::Result { .. } => matches!(b, DefinedType::Result { .. }),
        DefinedType::Variant(v) => match b {
            DefinedType::Variant(w) => same_names(v.cases.names(), w.cases.names()),
            _ => false,
        },
        DefinedType::Record(v) => match b {
            DefinedType::Record(w) => same_names(v.fields.names(), w.fields.names()),
            _ => false,
        },
        DefinedType::Flags(v) => match b {
            DefinedType::Flags(w) => same_names(v.0.as_slice(), w.0.as_slice()),
            _ => false,
        },
        DefinedType::Enum(v) => match b {
            DefinedType::Enum(w) => same_names(v.0.as_slice(), w.0.as_slice()),
            _ => false,
        },
        DefinedType::Alias(_) => matches!(b, DefinedType::Alias(_)),
        DefinedType::Stream(_) => matches!(b, DefinedType::Stream(_)),
        DefinedType::Future(_) => matches!(b, DefinedType::Future(_)),
    }
}
