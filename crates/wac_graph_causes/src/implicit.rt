//! An import that is asked by its name and by an instance.

ghost use Rattle.std.specs.Prelude.{◌≡◌, [], ◌∷◌, None, IsSome, OnOk, IfOk, IfErr, option_copied};
ghost use Rattle.wac_graph_core.specs.Graph.{instantiated};
ghost use Rattle.wac_graph_asks.specs.Asked.{IsAsked};
ghost use Rattle.wac_graph_causes.specs.Firsts.{AddsFirst, AreFirst};
ghost use Rattle.wac_graph_causes.specs.Implicit.{AreMade, IsImplicit, IsMade, TellsAsk, TellsClash};
ghost use Rattle.wac_graph_causes.specs.Implicit.{all_named, clash, clash_named, first_clash, implicit_cause, named};

use crate::error::Refusal;
use std::alloc::{AllocError, Global};
use wac_graph_asks::asks::{Ask, Asked, Asking};
use wac_graph_asks::nodes::{package_at, package_of};
use wac_graph_core::{CompositionGraph, NodeId};
use wac_types_base::NamedMap;
use wac_types_names::{Package, PackageKey};

/// Adds an import, if there is none of its name.
fn add_first(alloc: Global, imports: &mut NamedMap<NodeId>, ask: &Ask) -> Result<(), AllocError>
    ensures { OnOk result (AddsFirst imports.old imports.new ((ask.now.name, ask.now.by) ∷ [])) }
{
    if imports.contains(ask.name.as_str()) {
        return Ok(());
    }
    let name = String::from_str(alloc, ask.name.as_str())?;
    let _ = imports.insert(name, ask.by)?;
    Ok(())
}

/// Adds what asks by its name, if there is none of that name.
fn add_named(alloc: Global, imports: &mut NamedMap<NodeId>, ask: &Ask) -> Result<(), AllocError>
    ensures { OnOk result (AddsFirst imports.old imports.new (named ask.now)) }
{
    match ask.asking {
        Asking::ByName => add_first(alloc, imports, ask),
        _ => Ok(()),
    }
}

/// Adds those that ask by name, the first of each name.
fn add_imports(
    alloc: Global,
    asks: &[Ask],
    imports: &mut NamedMap<NodeId>,
) -> Result<(), AllocError>
    requires { imports.old ≡ [] }
    ensures { OnOk result (AreFirst imports.new (all_named asks.now)) }
{
    for ask in asks {
        add_named(alloc, imports, ask)?;
    }
    Ok(())
}

/// The package of an instance.
fn instantiated(graph: &CompositionGraph, id: NodeId) -> Option<&Package>
    ensures { option_copied result ≡ instantiated graph.now id }
{
    match package_of(graph, id) {
        Some(package) => package_at(graph, package),
        None => None,
    }
}

fn conflict_with(
    alloc: Global,
    package: &Package,
    import: NodeId,
    ask: &Ask,
) -> Result<Refusal, AllocError>
    ensures { IfOk result (TellsAsk «package».now import ask.now) }
{
    Ok(Refusal::ImplicitImportConflict {
        import,
        instantiation: ask.by,
        package: PackageKey::new(alloc, package)?,
        name: String::from_str(alloc, ask.name.as_str())?,
    })
}

/// An import of an instance has not exactly the name of an import of the graph.
fn check_filled(
    alloc: Global,
    graph: &CompositionGraph,
    imports: &NamedMap<NodeId>,
    ask: &Ask,
) -> Result<(), Refusal>
    ensures none { OnOk result (IsSome (instantiated graph.now ask.now.by) → clash_named imports.now ask.now ≡ None) }
    ensures cause { IfErr result (TellsClash graph.now (clash_named imports.now ask.now)) }
{
    let Some(import) = imports.get(ask.name.as_str()) else {
        return Ok(());
    };
    match instantiated(graph, ask.by) {
        Some(package) => Err(conflict_with(alloc, package, *import, ask)?),
        None => Ok(()),
    }
}

/// If an instance asks, then not exactly under the name of an import.
fn check_ask(
    alloc: Global,
    graph: &CompositionGraph,
    imports: &NamedMap<NodeId>,
    ask: &Ask,
) -> Result<(), Refusal>
    ensures none { OnOk result (IsMade graph.now ask.now → clash imports.now ask.now ≡ None) }
    ensures cause { IfErr result (TellsClash graph.now (clash imports.now ask.now)) }
{
    match ask.asking {
        Asking::ToFill => check_filled(alloc, graph, imports, ask),
        _ => Ok(()),
    }
}

/// No ask of an instance has exactly the name of an import.
fn check_asks(
    alloc: Global,
    graph: &CompositionGraph,
    imports: &NamedMap<NodeId>,
    asks: &[Ask],
) -> Result<(), Refusal>
    ensures none { OnOk result (AreMade graph.now asks.now → first_clash imports.now asks.now ≡ None) }
    ensures cause { IfErr result (λ e. AreMade graph.now asks.now → TellsClash graph.now (first_clash imports.now asks.now) e) }
{
    for ask in asks {
        check_ask(alloc, graph, imports, ask)?;
    }
    Ok(())
}

/// No instance fills an import that has exactly the name of an import of the graph.
pub fn check_implicit(alloc: Global, graph: &CompositionGraph, asked: &Asked) -> Result<(), Refusal>
    ensures none { OnOk result (IsAsked graph.now asked.now → implicit_cause graph.now ≡ None) }
    ensures cause { IfErr result (λ e. IsAsked graph.now asked.now → IsImplicit graph.now e) }
{
    let mut imports = NamedMap::new(alloc);
    add_imports(alloc, &asked.asks, &mut imports)?;
    check_asks(alloc, graph, &imports, &asked.asks)
}
