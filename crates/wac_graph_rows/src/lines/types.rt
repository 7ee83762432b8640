//! Types as lines, each of which may name those before it:
//! `func NAME params P=V ..`, `record NAME fields F=V ..`, `type NAME V` (another name of a value type), `list NAME V`,
//! `option NAME V`, `pair NAME V V` (a tuple),
//! `resource NAME TEXT of RESOURCE in INTERFACE`, `interface NAME as TEXT uses R=I .. exports E=ITEM ..`,
//! `world NAME as TEXT uses R=I .. imports I=ITEM .. exports E=ITEM ..`, `value NAME V` (the item of a value),
//! `typed NAME ITEM` (the type of an interface, a world, a function or a value), `module NAME HEAP` and
//! `memories NAME imports M::N=PAGES exports N=PAGES ..` (the type of a module of memories).
//!
//! Of a line that is read here the first two words are taken.

use crate::lines::entries::{map_behind, put, standing};
use crate::lines::modules::{take_memories, take_module};
use crate::lines::words::{interface_named, resource_named, take_value, type_named, word_behind};
use wac_graph_core::CompositionGraph;
use wac_rows::Words;
use wac_types_base::{
    DefinedType, FuncType, Interface, ItemKind, Items, ModuleType, NamedMap, PrimitiveType, Record,
    Resource, ResourceAlias, Text, Type, ValueType, World,
};

/// The primitive types that lines name.
const PRIMITIVES: [(&str, PrimitiveType); 4] = [
    ("u8", PrimitiveType::U8),
    ("s32", PrimitiveType::S32),
    ("u32", PrimitiveType::U32),
    ("string", PrimitiveType::String),
];

/// The function type of a line.
pub fn take_func(items: &NamedMap<ItemKind>, words: &mut Words<'_>) -> FuncType {
    FuncType {
        params: map_behind(items, words, "params"),
        result: None,
        is_async: false,
    }
}

/// A tuple of the value types that are left.
fn take_tuple(items: &NamedMap<ItemKind>, words: &mut Words<'_>) -> DefinedType {
    let mut values = Vec::new(words.alloc());
    let first = take_value(items, words);
    words.keep(&mut values, first);
    let second = take_value(items, words);
    words.keep(&mut values, second);
    DefinedType::Tuple(Items::from_vec(values))
}

/// The defined type of a line whose first word is this kind.
pub fn take_defined(items: &NamedMap<ItemKind>, words: &mut Words<'_>, kind: &str) -> DefinedType {
    match kind {
        "record" => DefinedType::Record(Record {
            fields: map_behind(items, words, "fields"),
        }),
        "list" => DefinedType::List(take_value(items, words)),
        "option" => DefinedType::Option(take_value(items, words)),
        "pair" => take_tuple(items, words),
        _ => {
            if kind != "type" {
                words.refuse("no such line of types");
            }
            DefinedType::Alias(take_value(items, words))
        }
    }
}

/// What a resource is an alias of.
fn alias_in(items: &NamedMap<ItemKind>, words: &Words<'_>) -> Option<ResourceAlias> {
    let source = match word_behind(words, "of") {
        "" => return None,
        name => resource_named(items, name),
    };
    let owner = match word_behind(words, "in") {
        "" => None,
        name => Some(interface_named(items, name)),
    };
    Some(ResourceAlias { owner, source })
}

/// The resource of a line.
pub fn take_resource(items: &NamedMap<ItemKind>, words: &mut Words<'_>) -> Resource {
    let name = words.take_text();
    Resource {
        name: Text::new(name),
        alias: alias_in(items, words),
    }
}

/// The identifier, if there is one.
fn identifier_in(words: &mut Words<'_>) -> Option<Text> {
    match word_behind(words, "as") {
        "" => None,
        word => Some(Text::new(words.own(word))),
    }
}

/// The interface of a line.
pub fn take_interface(items: &NamedMap<ItemKind>, words: &mut Words<'_>) -> Interface {
    Interface {
        id: identifier_in(words),
        uses: map_behind(items, words, "uses"),
        exports: map_behind(items, words, "exports"),
    }
}

/// The world of a line.
pub fn take_world(items: &NamedMap<ItemKind>, words: &mut Words<'_>) -> World {
    World {
        id: identifier_in(words),
        uses: map_behind(items, words, "uses"),
        imports: map_behind(items, words, "imports"),
        exports: map_behind(items, words, "exports"),
    }
}

/// The module type of a line whose first word is this kind: `module` by its heap type, `memories` by its memories.
pub fn take_module_type(
    items: &NamedMap<ItemKind>,
    words: &mut Words<'_>,
    kind: &str,
) -> ModuleType {
    match kind {
        "module" => take_module(words),
        _ => take_memories(items, words),
    }
}

fn add_func(graph: &mut CompositionGraph, func: FuncType) -> Option<ItemKind> {
    let func = standing(graph.types(), func)?;
    let id = graph.types_mut().add_func_type(func).ok()?;
    Some(ItemKind::Func(id))
}

fn add_defined(graph: &mut CompositionGraph, ty: DefinedType) -> Option<ItemKind> {
    let ty = standing(graph.types(), ty)?;
    let id = graph.types_mut().add_defined_type(ty).ok()?;
    Some(ItemKind::Ty(Type::Value(ValueType::Defined(id))))
}

fn add_resource(graph: &mut CompositionGraph, resource: Resource) -> Option<ItemKind> {
    let resource = standing(graph.types(), resource)?;
    let id = graph.types_mut().add_resource(resource).ok()?;
    Some(ItemKind::Ty(Type::Resource(id)))
}

fn add_interface(graph: &mut CompositionGraph, interface: Interface) -> Option<ItemKind> {
    let interface = standing(graph.types(), interface)?;
    let id = graph.types_mut().add_interface(interface).ok()?;
    Some(ItemKind::Instance(id))
}

fn add_world(graph: &mut CompositionGraph, world: World) -> Option<ItemKind> {
    let world = standing(graph.types(), world)?;
    let id = graph.types_mut().add_world(world).ok()?;
    Some(ItemKind::Component(id))
}

fn add_module(graph: &mut CompositionGraph, module: ModuleType) -> Option<ItemKind> {
    let id = graph.types_mut().add_module_type(module).ok()?;
    Some(ItemKind::Module(id))
}

/// Adds what a line says whose first word is this kind, or gives the item of a value or the type of an item.
fn add_item(
    graph: &mut CompositionGraph,
    items: &NamedMap<ItemKind>,
    words: &mut Words<'_>,
    kind: &str,
) -> Option<ItemKind> {
    match kind {
        "func" => add_func(graph, take_func(items, words)),
        "resource" => add_resource(graph, take_resource(items, words)),
        "interface" => add_interface(graph, take_interface(items, words)),
        "world" => add_world(graph, take_world(items, words)),
        "module" | "memories" => add_module(graph, take_module_type(items, words, kind)),
        "typed" => {
            let name = words.take();
            Some(ItemKind::Ty(type_named(items, words, name)))
        }
        "value" => Some(ItemKind::Value(take_value(items, words))),
        _ => add_defined(graph, take_defined(items, words, kind)),
    }
}

/// Adds what a line says, under its name.
fn add_line(graph: &mut CompositionGraph, items: &mut NamedMap<ItemKind>, words: &mut Words<'_>) {
    let kind = words.take();
    let name = words.take();
    match add_item(graph, items, words, kind) {
        Some(item) => put(words, items, name, item),
        None => words.refuse("an id of the line does not stand"),
    }
}

/// Some primitive types under their names.
fn primitives(words: &mut Words<'_>) -> NamedMap<ItemKind> {
    let mut items = NamedMap::new(words.alloc());
    for (name, ty) in PRIMITIVES {
        let item = ItemKind::Ty(Type::Value(ValueType::Primitive(ty)));
        put(words, &mut items, name, item);
    }
    items
}

/// Adds the types of a text; each is an item under its name, as some primitive types are.
pub fn add_types(graph: &mut CompositionGraph, words: &mut Words<'_>) -> NamedMap<ItemKind> {
    let mut items = primitives(words);
    for line in words.rest().split('\n') {
        if !line.is_empty() {
            let mut inside = words.inside(line);
            add_line(graph, &mut items, &mut inside);
            words.join(inside);
        }
    }
    items
}
