//! Numbers by which equal value types are found: equal types have one number, others hardly ever.

ghost use Rattle.std.specs.Prelude.{◌≡◌};
ghost use Rattle.std.specs.Map.{lookup};
ghost use Rattle.wac_types_base.specs.contracts.ids.DefinedTypeIdPartialEq.TheImpl.{eq-value};
ghost use Rattle.wac_types_base.specs.declared.item.ItemKind.{ItemKind};
ghost use Rattle.wac_types_base.specs.declared.item.ValueType.{ValueType};
ghost use Rattle.wac_types_base.specs.declared.item.«Type».{«Type» as TypeKind};
ghost use Rattle.wac_types_base.specs.Record.{Collection};
ghost use Rattle.wac_types_base.specs.Entries.{texts_of};
ghost use Rattle.wac_types_base.specs.Collection.{Stands, StandsIf, defined_entry};
ghost use Rattle.wac_types_base.specs.Resolving.{IsNoAlias};
ghost use Rattle.wac_types_fit.specs.Trees.{tree_in};
ghost use Rattle.wac_types_fit.specs.Checking.{HoldsValues, value_tree, place_trees};
ghost use Rattle.wac_graph_scopes.specs.Prints.{text_print, joined, names_print, primitive_print, label_print, resource_print, type_print, ArePrints, GivesPrint, GivesPlace, GivesRow};

use indexmap::IndexMap;
use std::alloc::{AllocError, Global};
use std::hash::{FoldHasher, Hash, Hasher};
use wac_types_base::{
    DefinedType, DefinedTypeId, ItemKind, PrimitiveType, ResourceId, Types, ValueType,
};
use wac_types_fit::value_of;

/// The numbers of defined types, each found once.
#[derive(Drop)]
pub struct Prints {
    found: IndexMap<DefinedTypeId, u64>,
}

fn text_print(text: &str) -> u64
    ensures { result ≡ text_print text.now }
{
    let mut hasher = FoldHasher::default();
    text.hash(&mut hasher);
    hasher.finish()
}

/// The number of a list behind one more.
fn joined(before: u64, next: u64) -> u64
    ensures { result ≡ joined before next }
{
    let mut hasher = FoldHasher::default();
    before.hash(&mut hasher);
    next.hash(&mut hasher);
    hasher.finish()
}

/// The number of names behind others.
fn names_print(before: u64, names: &[String]) -> u64
    ensures { result ≡ names_print before (texts_of names.now) }
{
    let mut print = before;
    for name in names {
        print = joined(print, text_print(name.as_str()));
    }
    print
}

fn primitive_print(ty: PrimitiveType) -> u64
    ensures { result ≡ primitive_print ty }
{
    match ty {
        PrimitiveType::U8 => 16,
        PrimitiveType::S8 => 17,
        PrimitiveType::U16 => 18,
        PrimitiveType::S16 => 19,
        PrimitiveType::U32 => 20,
        PrimitiveType::S32 => 21,
        PrimitiveType::U64 => 22,
        PrimitiveType::S64 => 23,
        PrimitiveType::F32 => 24,
        PrimitiveType::F64 => 25,
        PrimitiveType::Char => 26,
        PrimitiveType::Bool => 27,
        PrimitiveType::String => 28,
        PrimitiveType::ErrorContext => 29,
    }
}

/// The number of what stands beside the places.
fn label_print(ty: &DefinedType) -> u64
    ensures { result ≡ label_print (defined_entry ty.now).0 }
{
    match ty {
        DefinedType::Tuple(_) => 1,
        DefinedType::List(_) => 2,
        DefinedType::FixedSizeList(_, len) => joined(3, u64::from(*len)),
        DefinedType::Option(_) => 4,
        DefinedType::Result { .. } => 5,
        DefinedType::Variant(v) => names_print(6, v.cases.names()),
        DefinedType::Record(r) => names_print(7, r.fields.names()),
        DefinedType::Flags(f) => names_print(8, f.0.as_slice()),
        DefinedType::Enum(e) => names_print(9, e.0.as_slice()),
        DefinedType::Alias(_) => 10,
        DefinedType::Stream(_) => 11,
        DefinedType::Future(_) => 12,
    }
}

/// The number of a resource, by its root name.
fn resource_print(types: &Types, id: ResourceId) -> u64
    requires { Stands types.now (ItemKind.Ty (TypeKind.Resource id)) }
    ensures { result ≡ resource_print (tree_in types.now (ItemKind.Ty (TypeKind.Resource id))) }
{
    types.see_acyclic();
    let root = types.resource(types.resolve_resource(id));
    text_print(root.name.as_str())
}

impl Prints {
    /// None is found yet.
    pub fn new(alloc: Global) -> Self
        ensures { (c : Collection) → ArePrints c result }
    {
        Prints {
            found: IndexMap::new(alloc),
        }
    }

    /// The number that was found of a defined type.
    fn found(&self, id: DefinedTypeId) -> Option<u64>
        ensures { result ≡ lookup (eq-value.it id) self.now.found.entries }
    {
        match self.found.get(&id) {
            Some(print) => Some(*print),
            None => None,
        }
    }

    /// Keeps the number of a defined type.
    fn keep(&mut self, id: DefinedTypeId, print: u64) -> Result<(), AllocError>
        ensures { (c : Collection) → Stands c (ItemKind.Value (ValueType.Defined id)) → print ≡ type_print c id
            → ArePrints c self.old → ArePrints c self.new }
    {
        let _ = self.found.insert(id, print)?;
        Ok(())
    }

    /// The number of a value type.
    #[cycle(prints)]
    pub fn of(&mut self, types: &Types, ty: ValueType) -> Result<u64, AllocError>
        requires { Stands types.now (ItemKind.Value ty) }
        ensures { GivesPrint types.now (tree_in types.now (ItemKind.Value ty)) self.old self.new result }
    {
        types.see_acyclic();
        match types.resolve_value_type(ty) {
            ValueType::Primitive(p) => Ok(primitive_print(p)),
            ValueType::Own(id) => Ok(joined(13, resource_print(types, id))),
            ValueType::Borrow(id) => Ok(joined(14, resource_print(types, id))),
            ValueType::Defined(id) => self.of_defined(types, id),
        }
    }

    /// The number of a defined type that is no alias.
    #[cycle(prints)]
    fn of_defined(&mut self, types: &Types, id: DefinedTypeId) -> Result<u64, AllocError>
        requires stands { Stands types.now (ItemKind.Value (ValueType.Defined id)) }
        requires no_alias { IsNoAlias types.now (ValueType.Defined id) }
        ensures { GivesPrint types.now (tree_in types.now (ItemKind.Value (ValueType.Defined id))) self.old self.new result }
    {
        if let Some(print) = self.found(id) {
            return Ok(print);
        }
        let print = self.of_new(types, id)?;
        self.keep(id, print)?;
        Ok(print)
    }

    /// The number of a defined type that is no alias, by what it is made of.
    #[cycle(prints)]
    fn of_new(&mut self, types: &Types, id: DefinedTypeId) -> Result<u64, AllocError>
        requires stands { Stands types.now (ItemKind.Value (ValueType.Defined id)) }
        requires no_alias { IsNoAlias types.now (ValueType.Defined id) }
        ensures { GivesPrint types.now (tree_in types.now (ItemKind.Value (ValueType.Defined id))) self.old self.new result }
    {
        types.see_acyclic();
        let label = label_print(types.defined_type(id));
        self.of_places(types, ItemKind::Value(ValueType::Defined(id)), label)
    }

    /// The number of a list, and of what stands in the places of a kind behind it.
    #[cycle(prints)]
    fn of_places(&mut self, types: &Types, kind: ItemKind, before: u64) -> Result<u64, AllocError>
        requires stands { Stands types.now kind }
        requires values { HoldsValues types.now kind }
        ensures { GivesRow types.now before (place_trees types.now kind) self.old self.new result }
    {
        types.see_acyclic();
        let mut print = before;
        let mut at: u128 = 0;
        while let Some(place) = types.place(kind, at) {
            print = self.of_place(types, value_of(place), print)?;
            at += 1;
        }
        Ok(print)
    }

    /// The number of a list, and of what stands in one place behind it.
    #[cycle(prints)]
    fn of_place(
        &mut self,
        types: &Types,
        place: Option<ValueType>,
        before: u64,
    ) -> Result<u64, AllocError>
        requires { StandsIf types.now place }
        ensures { GivesPlace types.now before (value_tree types.now place) self.old self.new result }
    {
        match place {
            None => Ok(joined(before, 1)),
            Some(ty) => {
                let print = self.of(types, ty)?;
                Ok(joined(joined(before, 2), print))
            }
        }
    }
}
