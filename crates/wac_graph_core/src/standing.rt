//! Whether a package may be registered.

ghost use Rattle.std.specs.Prelude.{◌≡◌, ◌↔◌, IsTrue};
ghost use Rattle.wac_types_names.specs.Packages.{interface_of};
ghost use Rattle.wac_graph_core.specs.Graph.{PackageStands};
ghost use Rattle.wac_graph_core.specs.Packages.{HasInstanceType};

use crate::graph::CompositionGraph;
use wac_types_base::replace::is_same;
use wac_types_base::{Interface, ItemKind, NamedMap, Text, UsedType, World};
use wac_types_names::Package;

/// Whether two texts, where they are there, are the same.
fn same_text(a: &Option<Text>, b: &Option<Text>) -> bool
    ensures { IsTrue result ↔ (a.now ≡ b.now) }
{
    match a {
        None => b.is_none(),
        Some(own) => match b {
            None => false,
            Some(other) => own.is(other.as_str()),
        },
    }
}

/// Whether two uses are the same.
fn same_use(a: &UsedType, b: &UsedType) -> bool
    ensures { IsTrue result ↔ (a.now ≡ b.now) }
{
    let interface = a.interface == b.interface;
    let name = same_text(&a.name, &b.name);
    interface && name
}

/// Whether the items are the same, in order.
fn same_items(a: &NamedMap<ItemKind>, b: &NamedMap<ItemKind>) -> bool
    ensures { IsTrue result ↔ (a.now ≡ b.now) }
{
    if a.len() != b.len() {
        return false;
    }
    for at in 0..a.len() {
        let (name, kind) = a.entry(at);
        let (other, asked) = b.entry(at);
        if name != other {
            return false;
        }
        if !is_same(*kind, *asked) {
            return false;
        }
    }
    true
}

/// Whether the uses are the same, in order.
fn same_uses(a: &NamedMap<UsedType>, b: &NamedMap<UsedType>) -> bool
    ensures { IsTrue result ↔ (a.now ≡ b.now) }
{
    if a.len() != b.len() {
        return false;
    }
    for at in 0..a.len() {
        let (name, used) = a.entry(at);
        let (other, asked) = b.entry(at);
        if name != other {
            return false;
        }
        if !same_use(used, asked) {
            return false;
        }
    }
    true
}

/// Whether an interface is the one that is made of a world.
fn is_made_of(interface: &Interface, world: &World) -> bool
    ensures { IsTrue result ↔ (interface.now ≡ interface_of world.now) }
{
    if interface.id.is_some() {
        return false;
    }
    let uses = same_uses(&interface.uses, &world.uses);
    let exports = same_items(&interface.exports, &world.exports);
    uses && exports
}

impl CompositionGraph {
    /// Whether a package may be registered: its world stands in the graph's collection, and the interface of its instances
    /// is the one that `add_package` makes of it.
    pub fn package_stands(&self, package: &Package) -> bool
        ensures exact { IsTrue result ↔ HasInstanceType self.now.types «package».now }
        ensures stands { IsTrue result → PackageStands self.now.types «package».now }
    {
        self.types.see_acyclic();
        if !self.types.has(ItemKind::Component(package.ty())) {
            return false;
        }
        if !self.types.has(ItemKind::Instance(package.instance_type())) {
            return false;
        }
        let interface = self.types.interface(package.instance_type());
        let world = self.types.world(package.ty());
        is_made_of(interface, world)
    }
}
