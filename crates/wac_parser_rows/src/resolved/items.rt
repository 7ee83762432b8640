//! Types as texts, one level deep.

use wac_rows::Told;
use wac_types_base::{
    DefinedType, DefinedTypeId, FuncTypeId, InterfaceId, ItemKind, NamedMap, ResourceId, Type,
    Types, UsedType, ValueType, WorldId,
};

fn resource_name(types: &Types, id: ResourceId) -> &str {
    if types.has(ItemKind::Ty(Type::Resource(id))) {
        types[id].name.as_str()
    } else {
        "?"
    }
}

fn value_word(types: &Types, ty: ValueType) -> &'static str {
    if types.has(ItemKind::Value(ty)) {
        ty.desc(types)
    } else {
        "?"
    }
}

/// A handle with its resource.
fn add_handle(types: &Types, told: &mut Told, word: &str, id: ResourceId) {
    told.push(word);
    told.push(resource_name(types, id));
    told.push(">");
}

/// A value type: a defined one by its word, a handle with its resource.
fn add_value(types: &Types, told: &mut Told, ty: ValueType) {
    match ty {
        ValueType::Borrow(id) => add_handle(types, told, "borrow<", id),
        ValueType::Own(id) => add_handle(types, told, "own<", id),
        other => told.push(value_word(types, other)),
    }
}

/// A value type behind a word.
fn add_one(types: &Types, told: &mut Told, word: &str, ty: ValueType) {
    told.push(word);
    add_value(types, told, ty);
}

/// A value type behind a word, or that there is none.
fn add_option(types: &Types, told: &mut Told, word: &str, ty: Option<ValueType>) {
    match ty {
        Some(ty) => add_one(types, told, word, ty),
        None => {
            told.push(word);
            told.push("_");
        }
    }
}

fn add_params(types: &Types, told: &mut Told, params: &NamedMap<ValueType>) {
    for at in 0..params.len() {
        let (name, ty) = params.entry(at);
        if at > 0 {
            told.push(", ");
        }
        told.push(name);
        told.push(": ");
        add_value(types, told, *ty);
    }
}

fn add_cases(types: &Types, told: &mut Told, cases: &NamedMap<Option<ValueType>>) {
    told.push("variant { ");
    for at in 0..cases.len() {
        let (name, ty) = cases.entry(at);
        if at > 0 {
            told.push(", ");
        }
        told.push(name);
        if let Some(ty) = *ty {
            add_one(types, told, ": ", ty);
        }
    }
    told.push(" }");
}

/// Names in braces behind a word.
fn add_names(told: &mut Told, word: &str, names: &[String]) {
    told.push(word);
    told.push(" { ");
    for (at, name) in names.iter().enumerate() {
        if at > 0 {
            told.push(", ");
        }
        told.push(name.as_str());
    }
    told.push(" }");
}

fn add_func(types: &Types, told: &mut Told, id: FuncTypeId) {
    if !types.has(ItemKind::Func(id)) {
        return told.push("?");
    }
    let func = &types[id];
    if func.is_async {
        told.push("async ");
    }
    told.push("func(");
    add_params(types, told, &func.params);
    told.push(")");
    if let Some(ty) = func.result {
        told.push(" -> ");
        add_value(types, told, ty);
    }
}

fn add_defined(types: &Types, told: &mut Told, id: DefinedTypeId) {
    if !types.has(ItemKind::Value(ValueType::Defined(id))) {
        return told.push("?");
    }
    match &types[id] {
        DefinedType::Tuple(items) => {
            told.push("tuple");
            for item in items.as_slice() {
                add_one(types, told, " ", *item);
            }
        }
        DefinedType::List(ty) => add_one(types, told, "list ", *ty),
        DefinedType::FixedSizeList(ty, _) => add_one(types, told, "fixed ", *ty),
        DefinedType::Option(ty) => add_one(types, told, "option ", *ty),
        DefinedType::Result { ok, err } => {
            add_option(types, told, "result ", *ok);
            add_option(types, told, " ", *err);
        }
        DefinedType::Variant(variant) => add_cases(types, told, &variant.cases),
        DefinedType::Record(record) => {
            told.push("record { ");
            add_params(types, told, &record.fields);
            told.push(" }");
        }
        DefinedType::Flags(flags) => add_names(told, "flags", flags.0.as_slice()),
        DefinedType::Enum(names) => add_names(told, "enum", names.0.as_slice()),
        DefinedType::Alias(ty) => add_one(types, told, "alias ", *ty),
        DefinedType::Stream(ty) => add_option(types, told, "stream ", *ty),
        DefinedType::Future(ty) => add_option(types, told, "future ", *ty),
    }
}

fn add_resource(types: &Types, told: &mut Told, id: ResourceId) {
    if !types.has(ItemKind::Ty(Type::Resource(id))) {
        return told.push("?");
    }
    let resource = &types[id];
    told.push("resource ");
    told.push(resource.name.as_str());
    if let Some(alias) = resource.alias {
        told.push(" = ");
        told.push(resource_name(types, alias.source));
        if let Some(owner) = alias.owner {
            told.push(" of ");
            add_identifier(types, told, owner);
        }
    }
}

fn add_identifier(types: &Types, told: &mut Told, id: InterfaceId) {
    if !types.has(ItemKind::Instance(id)) {
        return told.push("?");
    }
    match &types[id].id {
        Some(id) => told.push(id.as_str()),
        None => told.push("?"),
    }
}

fn add_uses(types: &Types, told: &mut Told, uses: &NamedMap<UsedType>) {
    for at in 0..uses.len() {
        let (name, used) = uses.entry(at);
        told.push("use ");
        add_identifier(types, told, used.interface);
        told.push(".");
        if let Some(there) = &used.name {
            told.push(there.as_str());
            told.push(" as ");
        }
        told.push(name);
        told.push("; ");
    }
}

/// An item in an interface or a world: an interface or a world in it by its identifier.
fn add_item(types: &Types, told: &mut Told, kind: ItemKind) {
    match kind {
        ItemKind::Ty(Type::Resource(id)) => add_resource(types, told, id),
        ItemKind::Ty(Type::Func(id)) => {
            told.push("type ");
            add_func(types, told, id)
        }
        ItemKind::Ty(Type::Value(ValueType::Defined(id))) => add_defined(types, told, id),
        ItemKind::Ty(Type::Value(ty)) => add_value(types, told, ty),
        ItemKind::Func(id) => add_func(types, told, id),
        ItemKind::Instance(id) => {
            told.push("instance ");
            add_identifier(types, told, id)
        }
        other => told.push(if types.has(other) {
            other.desc(types)
        } else {
            "?"
        }),
    }
}

fn add_items(types: &Types, told: &mut Told, word: &str, items: &NamedMap<ItemKind>) {
    for at in 0..items.len() {
        let (name, kind) = items.entry(at);
        told.push(word);
        told.push(name);
        told.push(": ");
        add_item(types, told, *kind);
        told.push("; ");
    }
}

fn add_interface(types: &Types, told: &mut Told, id: InterfaceId) {
    if !types.has(ItemKind::Instance(id)) {
        return told.push("?");
    }
    let interface = &types[id];
    told.push("interface ");
    add_identifier(types, told, id);
    told.push(" { ");
    add_uses(types, told, &interface.uses);
    add_items(types, told, "", &interface.exports);
    told.push("}")
}

fn add_world(types: &Types, told: &mut Told, id: WorldId) {
    if !types.has(ItemKind::Component(id)) {
        return told.push("?");
    }
    let world = &types[id];
    told.push("world ");
    match &world.id {
        Some(id) => told.push(id.as_str()),
        None => told.push("?"),
    }
    told.push(" { ");
    add_uses(types, told, &world.uses);
    add_items(types, told, "import ", &world.imports);
    add_items(types, told, "export ", &world.exports);
    told.push("}")
}

/// Tells an item: an interface or a world with what it holds.
pub(crate) fn tell_item(types: &Types, told: &mut Told, kind: ItemKind) {
    match kind {
        ItemKind::Ty(Type::Interface(id)) | ItemKind::Instance(id) => add_interface(
            types, told, id,
        ),
        ItemKind::Ty(Type::World(id)) | ItemKind::Component(id) => add_world(types, told, id),
        other => add_item(types, told, other),
    }
}
