//! Exports and the names of nodes.

ghost use Rattle.std.specs.Prelude.{◌≡◌, IfOk, IfErr, OnOk, OnErr};
ghost use Rattle.std.specs.Bool.{Decides};
ghost use Rattle.std.specs.Option.{option_copied};
ghost use Rattle.wac_types_base.specs.Entries.{value_at};
ghost use Rattle.wac_graph_core.specs.Graph.{ContainsNode, node_at};
ghost use Rattle.wac_graph_core.specs.Exporting.{IsExportName, Exports, IsTold, Unexports, Names, ExportRefused, UnexportRefused, import_name_of};

use crate::error::{ExportError, NameError, UnexportError};
use crate::graph::CompositionGraph;
use crate::ids::NodeId;
use crate::named::NamedNodes;
use std::alloc::{AllocError, Global};
use wac_graph_bytes::{NameKind, component_name};
use wac_types_base::Text;

/// Whether a text is the name of an export: a plain one, or that of an interface.
fn is_export_name(alloc: Global, name: &str) -> Result<bool, AllocError>
    ensures { IfOk result (λ yes. Decides yes (IsExportName name.now)) }
{
    match component_name(alloc, name)? {
        Some(NameKind::Plain) => Ok(true),
        Some(NameKind::Interface) => Ok(true),
        Some(_) => Ok(false),
        None => Ok(false),
    }
}

impl CompositionGraph {
    /// The exports, in order.
    pub fn exports(&self) -> &NamedNodes
        ensures { result.now.items ≡ self.now.exports }
    {
        &self.exports
    }

    /// The node that is exported under a name.
    pub fn get_export(&self, name: &str) -> Option<NodeId>
        ensures { result ≡ value_at self.now.exports name.now }
    {
        self.exports.get(name)
    }

    /// Exports a node under a name. Under a second name it is a second export.
    pub fn export(&mut self, node: NodeId, name: &str) -> Result<(), ExportError>
        requires { ContainsNode self.old node }
        ensures exported { OnOk result (Exports self.old self.new node name.now) }
        ensures refused { IfErr result (λ e. ExportRefused self.old name.now e) }
        ensures kept { OnErr result (self.new ≡ self.old) }
    {
        let own = String::from_str(self.alloc, name)?;
        if let Some(other) = self.get_export(name) {
            return Err(ExportError::ExportAlreadyExists {
                name: own,
                node: other,
            });
        }
        let valid = is_export_name(self.alloc, name)?;
        if !valid {
            return Err(ExportError::InvalidExportName {
                name: own,
                source: NameError::InvalidName,
            });
        }
        let last = Text::new(String::from_str(self.alloc, name)?);
        self.exports.reserve(1)?;
        self.exports.push_reserved(own, node);
        self.nodes.set_export(node, Some(last));
        Ok(())
    }

    /// Where the export stands whose name a node tells.
    fn export_place(&self, node: NodeId) -> Option<usize>
        requires { ContainsNode self.now node }
        ensures { IsTold self.now node result }
    {
        self.see_sound();
        match self.node(node).export_name() {
            Some(name) => self.exports.place_of(name),
            None => None,
        }
    }

    /// Takes away the export whose name a node tells, if it tells one. The last export takes its place.
    pub fn unexport(&mut self, node: NodeId) -> Result<(), UnexportError>
        requires { ContainsNode self.old node }
        ensures unexported { OnOk result (Unexports self.old self.new node) }
        ensures refused { IfErr result (λ e. UnexportRefused self.old node e) }
        ensures kept { OnErr result (self.new ≡ self.old) }
    {
        if self.node(node).is_definition() {
            return Err(UnexportError::MustExportDefinition);
        }
        match self.export_place(node) {
            None => Ok(()),
            Some(at) => {
                self.exports.swap_remove(at);
                self.nodes.set_export(node, None);
                Ok(())
            }
        }
    }

    /// Gives a node a name.
    pub fn set_node_name(&mut self, node: NodeId, name: &str) -> Result<(), AllocError>
        requires { ContainsNode self.old node }
        ensures named { OnOk result (Names self.old self.new node name.now) }
        ensures kept { OnErr result (self.new ≡ self.old) }
    {
        let own = Text::new(String::from_str(self.alloc, name)?);
        self.nodes.set_name(node, own);
        Ok(())
    }

    /// The name of a node that is an import.
    pub fn get_import_name(&self, node: NodeId) -> Option<&str>
        requires { ContainsNode self.now node }
        ensures { option_copied result ≡ import_name_of (node_at self.now node) }
    {
        self.node(node).import_name()
    }
}
