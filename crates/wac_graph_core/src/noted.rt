//! What is known of nodes by one look.

ghost use Rattle.std.specs.Prelude.{◌≡◌, ◌∷◌, ◌++◌, [], None, Some, true, string_bytes, IfSome, IfNone, OnOk};
ghost use Rattle.wac_types_base.specs.declared.item.ItemKind.{ItemKind};
ghost use Rattle.wac_types_base.specs.Entries.{IsNew};
ghost use Rattle.wac_graph_core.specs.Nodes.{Role};
ghost use Rattle.wac_graph_core.specs.Noted.{DefinesNoType, ForgetsImport, NotesImport, NotesType, IsNodeNoted, IsNodeForgotten};

use crate::ids::NodeId;
use crate::named::NamedNodes;
use crate::node::{Node, NodeKind};
use crate::type_map::TypeMap;
use std::alloc::{AllocError, Global};
use wac_types_base::{ItemKind, Type};

/// All imports by their names, and all definitions by their types.
#[derive(Drop)]
pub struct Noted {
    pub imports: NamedNodes,
    pub types: TypeMap,
}

/// What is known of no nodes.
pub(crate) fn none_noted(alloc: Global) -> Noted {
    Noted {
        imports: NamedNodes::new(alloc),
        types: TypeMap::new(alloc),
    }
}

/// The type that a node defines.
pub(crate) fn defined_type(node: &Node) -> Option<Type>
    ensures some { IfSome result (λ t. (node.now.role ≡ Role.Defined) × (node.now.item_kind ≡ ItemKind.Ty t)) }
    ensures none { IfNone result (DefinesNoType node.now) }
{
    match node.item_kind() {
        ItemKind::Ty(ty) => { if node.is_definition() { Some(ty) } else { None } }
        _ => None,
    }
}

/// Adds a node under a new name.
fn push_import(imports: &mut NamedNodes, name: &String, id: NodeId) -> Result<(), AllocError>
    requires { IsNew (string_bytes name.now) imports.old.items }
    ensures { OnOk result (imports.new.items ≡ imports.old.items ++ (string_bytes name.now, id) ∷ []) }
{
    let name = name.clone()?;
    imports.reserve(1)?;
    imports.push_reserved(name, id);
    Ok(())
}

/// Notes an import by its name, where there is memory for it and no other one is noted.
fn note_import(imports: &mut NamedNodes, node: &Node, id: NodeId) -> bool
    ensures { result ≡ true → NotesImport imports.old.items node.now id imports.new.items }
{
    match node.kind() {
        NodeKind::Import(name) => {
            if imports.get(name.as_str()).is_some() {
                return false;
            }
            push_import(imports, name, id).is_ok()
        }
        _ => true,
    }
}

/// Takes away the name of an import.
fn forget_import(imports: &mut NamedNodes, node: &Node)
    ensures { ForgetsImport imports.old.items node.now imports.new.items }
{
    let _ = imports.len();
    if let NodeKind::Import(name) = node.kind() {
        if let Some(at) = imports.place_of(name.as_str()) {
            imports.swap_remove(at);
        }
    }
}

/// Notes a definition by its type, where there is memory for it and no other one is noted.
fn note_type(types: &mut TypeMap, node: &Node, id: NodeId) -> bool
    ensures { result ≡ true → NotesType types.old node.now id types.new }
{
    match defined_type(node) {
        Some(ty) => {
            if types.get(ty).is_some() {
                return false;
            }
            types.insert(ty, id).is_ok()
        }
        None => true,
    }
}

/// What is known with one more node, if anything.
pub(crate) fn with_node(noted: Option<Noted>, node: &Node, id: NodeId) -> Option<Noted>
    ensures { IsNodeNoted noted node.now id result }
{
    let mut noted = noted?;
    if !note_import(&mut noted.imports, node, id) {
        return None;
    }
    if !note_type(&mut noted.types, node, id) {
        return None;
    }
    Some(noted)
}

/// What is known with one node less, if anything.
pub(crate) fn without_node(noted: Option<Noted>, node: &Node) -> Option<Noted>
    ensures { IsNodeForgotten noted node.now result }
{
    let mut noted = noted?;
    forget_import(&mut noted.imports, node);
    if let Some(ty) = defined_type(node) {
        noted.types.remove(ty);
    }
    Some(noted)
}
