//! Which exports of a plug are for which imports of a socket.

ghost use Rattle.std.specs.Prelude.{◌≡◌, IfOk, OnOk, IfSome, IfNone};
ghost use Rattle.wac_types_base.specs.Collection.{Stands};
ghost use Rattle.wac_types_base.specs.Entries.{Name, AreDistinct, names_of, with_values};
ghost use Rattle.wac_types_base.specs.Stated.{stated_of, exports_of, stated_world};
ghost use Rattle.wac_graph_plug.specs.Plugging.{Finds, AreWorldMatches};
ghost use Rattle.wac_graph_plug.specs.Lookups.{IsNext, NoneNear, IsMatchOf, ItemsStandIn, with_match};

use std::alloc::{AllocError, Global};
use wac_types_base::{ItemKind, NamedMap, Text, Types, WorldId};
use wac_types_fit::is_subtype;
use wac_types_names::are_semver_compatible;

/// An export of a plug, and the import of the socket that it is for.
#[derive(Drop)]
pub struct Match {
    pub export: Text,
    pub import: Text,
}

impl Match {
    /// The same match again.
    pub(crate) fn copy(&self) -> Result<Match, AllocError>
        ensures { IfOk result (λ m. m ≡ self.now) }
    {
        Ok(Match {
            export: self.export.copy()?,
            import: self.import.copy()?,
        })
    }
}

/// The first place, no lower than that, of a name that is compatible with this one.
fn next_near(
    alloc: Global,
    imports: &NamedMap<ItemKind>,
    name: &str,
    low: usize,
) -> Result<Option<usize>, AllocError>
    ensures found { IfOk result (λ o. IfSome o (λ at. IsNext imports.now name.now low at)) }
    ensures none { IfOk result (λ o. IfNone o (NoneNear imports.now name.now low)) }
{
    for at in low..imports.len() {
        let (other, _) = imports.entry(at);
        let near = are_semver_compatible(alloc, name, other)?;
        if near {
            return Ok(Some(at));
        }
    }
    Ok(None)
}

/// The import that the name of an export finds.
fn find_import<'a>(
    alloc: Global,
    imports: &'a NamedMap<ItemKind>,
    name: &'a str,
) -> Result<Option<&'a str>, AllocError>
    ensures found { IfOk result (λ o. IfSome o (λ i. Finds (names_of imports.now) name.now i.now)) }
    ensures none { IfOk result (λ o. IfNone o ((i : Name) → Finds (names_of imports.now) name.now i → ⊥)) }
{
    let _count = imports.len();
    if imports.contains(name) {
        return Ok(Some(name));
    }
    match next_near(alloc, imports, name, 0)? {
        None => Ok(None),
        Some(at) => match next_near(alloc, imports, name, at + 1)? {
            Some(_) => Ok(None),
            None => {
                let (import, _) = imports.entry(at);
                Ok(Some(import))
            }
        },
    }
}

/// The match of an export, if there is one.
fn matched(
    alloc: Global,
    types: &Types,
    imports: &NamedMap<ItemKind>,
    name: &str,
    given: ItemKind,
) -> Result<Option<Match>, AllocError>
    requires given { Stands types.now given }
    requires asked { ItemsStandIn types.now imports.now }
    ensures { IfOk result (IsMatchOf (with_values (stated_of types.now) imports.now) name.now (stated_of types.now given)) }
{
    let import = match find_import(alloc, imports, name)? {
        Some(import) => import,
        None => return Ok(None),
    };
    let asked = match imports.get(import) {
        Some(asked) => *asked,
        None => return Ok(None),
    };
    let yes = is_subtype(alloc, types, given, asked)?;
    if !yes {
        return Ok(None);
    }
    let export = Text::new(String::from_str(alloc, name)?);
    let import = Text::new(String::from_str(alloc, import)?);
    Ok(Some(Match { export, import }))
}

/// Adds a match, where there is one.
fn gather(found: &mut Vec<Match>, one: Option<Match>) -> Result<(), AllocError>
    ensures { OnOk result (found.new.items ≡ with_match found.old.items one) }
{
    match one {
        Some(one) => {
            found.push(one)?;
            Ok(())
        }
        None => Ok(()),
    }
}

/// The matches of a plug's exports with a socket's imports, in the order of the exports.
pub fn matches_of(
    alloc: Global,
    types: &Types,
    plug: WorldId,
    socket: WorldId,
) -> Result<Vec<Match>, AllocError>
    requires plug { Stands types.now (ItemKind.Component plug) }
    requires socket { Stands types.now (ItemKind.Component socket) }
    ensures matches { IfOk result (λ v. AreWorldMatches types.now socket plug v.items) }
    ensures distinct { OnOk result (AreDistinct (names_of (exports_of (stated_world types.now plug)))) }
{
    types.see_acyclic();
    let exports = &types.world(plug).exports;
    let imports = &types.world(socket).imports;
    let mut found = Vec::new(alloc);
    for at in 0..exports.len() {
        let (name, item) = exports.entry(at);
        let one = matched(alloc, types, imports, name, *item)?;
        gather(&mut found, one)?;
    }
    Ok(found)
}
