//! Unions of interfaces' uses and exports, and interfaces under other identifiers.

ghost use Rattle.std.specs.Prelude.{◌≡◌, ◌++◌, OnOk, IfOk, None};
ghost use Rattle.wac_types_base.specs.declared.item.ItemKind.{ItemKind};
ghost use Rattle.wac_types_base.specs.Collection.{Stands, Grows};
ghost use Rattle.wac_types_base.specs.Entries.{names_of, value_at, IsNew};
ghost use Rattle.wac_types_fit.specs.TargetSteps.{AllStand};
ghost use Rattle.wac_types_merge.specs.Interfaces.{if_new, new_in, joined, merged_interface, IsAt, IsRenamed, UsesStand};

use std::alloc::{AllocError, Global};
use wac_types_base::{
    Interface, InterfaceId, ItemKind, NamedMap, Text, Types, UsedType, copy_items, copy_text,
    copy_uses,
};

/// Adds an export, unless those kept have its name.
fn add_export(
    alloc: Global,
    kept: &NamedMap<ItemKind>,
    name: &str,
    kind: ItemKind,
    all: &mut NamedMap<ItemKind>,
) -> Result<(), AllocError>
    requires { value_at kept.now name.now ≡ None → IsNew name.now all.old }
    ensures { OnOk result (all.new ≡ all.old ++ if_new kept.now name.now kind) }
{
    if kept.contains(name) {
        return Ok(());
    }
    all.push(String::from_str(alloc, name)?, kind)?;
    Ok(())
}

/// Adds the exports asked whose names are not among those kept, which have the names of the map so far.
fn add_exports(
    alloc: Global,
    kept: &NamedMap<ItemKind>,
    asked: &NamedMap<ItemKind>,
    all: &mut NamedMap<ItemKind>,
) -> Result<(), AllocError>
    requires { names_of all.old ≡ names_of kept.now }
    ensures { OnOk result (all.new ≡ all.old ++ new_in kept.now asked.now) }
{
    for at in 0..asked.len() {
        let (name, kind) = asked.entry(at);
        add_export(alloc, kept, name, *kind, all)?;
    }
    Ok(())
}

/// Adds a use, unless those kept have its name.
fn add_use(
    alloc: Global,
    kept: &NamedMap<UsedType>,
    name: &str,
    used: &UsedType,
    all: &mut NamedMap<UsedType>,
) -> Result<(), AllocError>
    requires { value_at kept.now name.now ≡ None → IsNew name.now all.old }
    ensures { OnOk result (all.new ≡ all.old ++ if_new kept.now name.now used.now) }
{
    if kept.contains(name) {
        return Ok(());
    }
    let used = used.copy()?;
    all.push(String::from_str(alloc, name)?, used)?;
    Ok(())
}

/// Adds the uses asked whose names are not among those kept, which have the names of the map so far.
fn add_uses(
    alloc: Global,
    kept: &NamedMap<UsedType>,
    asked: &NamedMap<UsedType>,
    all: &mut NamedMap<UsedType>,
) -> Result<(), AllocError>
    requires { names_of all.old ≡ names_of kept.now }
    ensures { OnOk result (all.new ≡ all.old ++ new_in kept.now asked.now) }
{
    for at in 0..asked.len() {
        let (name, used) = asked.entry(at);
        add_use(alloc, kept, name, used, all)?;
    }
    Ok(())
}

/// The uses of both, those kept where both have the name.
fn join_uses(
    alloc: Global,
    kept: &NamedMap<UsedType>,
    asked: &NamedMap<UsedType>,
) -> Result<NamedMap<UsedType>, AllocError>
    ensures { IfOk result (λ m. m ≡ joined kept.now asked.now) }
{
    let mut all = copy_uses(alloc, kept)?;
    add_uses(alloc, kept, asked, &mut all)?;
    Ok(all)
}

/// The interface of two whose common exports are merged.
fn join_interfaces(
    alloc: Global,
    first: &Interface,
    second: &Interface,
    both: NamedMap<ItemKind>,
) -> Result<Interface, AllocError>
    requires { names_of both ≡ names_of first.now.exports }
    ensures { IfOk result (λ x. x ≡ merged_interface first.now second.now both) }
{
    let mut exports = both;
    add_exports(alloc, &first.exports, &second.exports, &mut exports)?;
    Ok(Interface {
        id: copy_text(&first.id)?,
        uses: join_uses(alloc, &first.uses, &second.uses)?,
        exports,
    })
}

/// Adds the interface of two whose common exports are merged.
pub(crate) fn add_joined(
    alloc: Global,
    own: &mut Types,
    first: &Interface,
    second: &Interface,
    both: NamedMap<ItemKind>,
) -> Result<InterfaceId, AllocError>
    requires names { names_of both ≡ names_of first.now.exports }
    requires both { AllStand own.old both }
    requires exports { AllStand own.old second.now.exports }
    requires uses { UsesStand own.old first.now.uses }
    requires more_uses { UsesStand own.old second.now.uses }
    ensures added { IfOk result (λ i. IsAt own.new i (merged_interface first.now second.now both)) }
    ensures stands { IfOk result (λ i. Stands own.new (ItemKind.Instance i)) }
    ensures grows { Grows own.old own.new }
{
    own.see_acyclic();
    let interface = join_interfaces(alloc, first, second, both)?;
    own.add_interface(interface)
}

/// Adds an interface again, under another identifier.
pub(crate) fn rename_interface(
    alloc: Global,
    own: &mut Types,
    id: InterfaceId,
    name: &str,
) -> Result<InterfaceId, AllocError>
    requires { Stands own.old (ItemKind.Instance id) }
    ensures added { IfOk result (λ i. IsRenamed own.old id own.new i name.now) }
    ensures grows { Grows own.old own.new }
{
    own.see_acyclic();
    let interface = own.interface(id);
    let name = Text::new(String::from_str(alloc, name)?);
    let uses = copy_uses(alloc, &interface.uses)?;
    let exports = copy_items(alloc, &interface.exports)?;
    own.add_interface(Interface {
        id: Some(name),
        uses,
        exports,
    })
}
