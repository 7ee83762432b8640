//! Definitions of types.

ghost use Rattle.std.specs.Prelude.{◌≡◌, [], ℕ, None, true, IsTrue, IfOk, IfErr, IfSome, IfNone, IsSome, OnErr, string_bytes};
ghost use Rattle.std.specs.FinMap as map;
ghost use Rattle.std.specs.Bool.{Decides};
ghost use Rattle.wac_types_base.specs.Collection.{Stands};
ghost use Rattle.wac_graph_core.specs.Edges.{has};
ghost use Rattle.wac_graph_core.specs.Ties.{AddsDependencies};
ghost use Rattle.wac_graph_core.specs.NodeMaps.{AreBelow, IsDefinition, NoDefinition, AreThose};
ghost use Rattle.wac_graph_core.specs.Nodes.{IsResource};
ghost use Rattle.wac_graph_core.specs.Defining.{IsUserOf, MayDefine, DefinesType, DefineRefused};

use crate::edges::Edges;
use crate::error::{DefineTypeError, NameError};
use crate::graph::{CompositionGraph, is_extern_name};
use crate::ids::NodeId;
use crate::node::Node;
use crate::nodes::Nodes;
use std::alloc::AllocError;
use wac_types_base::visit::defined_of;
use wac_types_base::{ItemKind, Text, Type};

fn is_resource(ty: Type) -> bool
    ensures { Decides result (IsResource ty) }
{
    matches!(ty, Type::Resource(_))
}

/// Adds a definition that uses some and is used by others.
fn insert_definition(
    nodes: &mut Nodes,
    edges: &mut Edges,
    node: Node,
    sources: &[NodeId],
    targets: &[NodeId],
) -> Result<NodeId, AllocError>
    requires { (k : ℕ) → has sources.now k ≡ true → IsSome (map.get nodes.old k) }
    ensures above { IfOk result (λ id. AreBelow nodes.old id) }
    ensures free { IfOk result (λ id. map.get nodes.old id ≡ None) }
    ensures nodes { IfOk result (λ id. nodes.new ≡ map.insert nodes.old id node) }
    ensures edges { IfOk result (λ id. AddsDependencies edges.old edges.new id sources.now targets.now) }
    ensures kept { OnErr result ((nodes.new ≡ nodes.old) × (edges.new ≡ edges.old)) }
{
    let id = nodes.insert(node)?;
    match edges.add_dependencies(id, sources, targets) {
        Ok(()) => Ok(id),
        Err(error) => {
            nodes.remove_all(&[id]);
            Err(error)
        }
    }
}

impl CompositionGraph {
    /// Whether a type is newer than each that a definition reaches.
    fn is_newer(&self, ty: Type) -> bool
        ensures undefined { IsTrue result → NoDefinition self.now.nodes (ItemKind.Ty ty) }
        ensures unused { IsTrue result → AreThose self.now.nodes (IsUserOf self.now.types ty) [] }
    {
        match defined_of(ItemKind::Ty(ty)) {
            Some(id) => id.index >= self.defined_below,
            None => false,
        }
    }

    /// The definition of a type, if there is one.
    fn find_definition(&self, ty: Type) -> Option<NodeId>
        ensures found { IfSome result (λ k. IsDefinition self.now.nodes k (ItemKind.Ty ty)) }
        ensures none { IfNone result (NoDefinition self.now.nodes (ItemKind.Ty ty)) }
    {
        if self.is_newer(ty) {
            return None;
        }
        self.nodes.find_definition(ty)
    }

    /// The definitions of types that use a type.
    fn users_of(&self, ty: Type) -> Result<Vec<NodeId>, AllocError>
        ensures { IfOk result (λ v. AreThose self.now.nodes (IsUserOf self.now.types ty) v.items) }
    {
        self.see_sound();
        if self.is_newer(ty) {
            return Ok(Vec::new(self.alloc));
        }
        self.nodes.users_of(self.alloc, &self.types, ty)
    }

    /// The name as a text, where a type may be defined under it.
    fn definable(&self, name: &str, ty: Type) -> Result<String, DefineTypeError>
        ensures found { IfOk result (λ own. MayDefine self.now name.now ty (string_bytes own)) }
        ensures refused { IfErr result (λ e. DefineRefused self.now name.now ty e) }
    {
        if let Some(_) = self.find_definition(ty) {
            return Err(DefineTypeError::TypeAlreadyDefined);
        }
        if is_resource(ty) {
            return Err(DefineTypeError::CannotDefineResource);
        }
        let own = String::from_str(self.alloc, name)?;
        let valid = is_extern_name(self.alloc, name)?;
        if !valid {
            return Err(DefineTypeError::InvalidExternName {
                name: own,
                source: NameError::InvalidName,
            });
        }
        match self.get_export(name) {
            Some(_) => Err(DefineTypeError::ExportConflict { name: own }),
            None => Ok(own),
        }
    }

    /// Defines a type and exports it under its name. Resources are never defined.
    pub fn define_type(&mut self, name: &str, ty: Type) -> Result<NodeId, DefineTypeError>
        requires { Stands self.old.types (ItemKind.Ty ty) }
        ensures defined { IfOk result (λ k. DefinesType self.old self.new name.now ty k) }
        ensures refused { IfErr result (λ e. DefineRefused self.old name.now ty e) }
        ensures kept { OnErr result (self.new ≡ self.old) }
    {
        let own = self.definable(name, ty)?;
        self.see_sound();
        self.types.see_acyclic();
        let told = Text::new(String::from_str(self.alloc, name)?);
        let sources = self.nodes.used_by(self.alloc, &self.types, ty)?;
        let targets = self.users_of(ty)?;
        self.exports.reserve(1)?;
        let node = Node::defined(ty, told);
        let (used, users) = (sources.as_slice(), targets.as_slice());
        let id = insert_definition(&mut self.nodes, &mut self.edges, node, used, users)?;
        self.exports.push_reserved(own, id);
        self.defined_below = self.types.defined_types().len();
        Ok(id)
    }
}
