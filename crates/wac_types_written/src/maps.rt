//! Uses of other interfaces, and the types among items.

ghost use Rattle.std.specs.Prelude.{◌≡◌, ◌++◌, ◌∷◌, [], IfOk, OnOk};
ghost use Rattle.wac_types_base.specs.Entries.{IsNew};
ghost use Rattle.wac_types_written.specs.Forms.{is_type_item, type_items};

use std::alloc::{AllocError, Global};
use wac_types_base::{InterfaceId, ItemKind, NamedMap, UsedType, copy_text};

/// A use of an interface under the name of another use.
pub(crate) fn use_of(used: &UsedType, interface: InterfaceId) -> Result<UsedType, AllocError>
    ensures { IfOk result (λ u. u ≡ record { interface = interface; name = used.now.name }) }
{
    Ok(UsedType {
        interface,
        name: copy_text(&used.name)?,
    })
}

/// Whether an item is a type.
fn is_type(item: ItemKind) -> bool
    ensures { result ≡ is_type_item item }
{
    matches!(item, ItemKind::Ty(_))
}

/// Adds an item under a new name, where it is a type.
fn add_type(
    alloc: Global,
    name: &str,
    item: ItemKind,
    types: &mut NamedMap<ItemKind>,
) -> Result<(), AllocError>
    requires { IsNew name.now types.old }
    ensures { OnOk result (types.new ≡ types.old ++ type_items ((name.now, item) ∷ [])) }
{
    if !is_type(item) {
        return Ok(());
    }
    types.push(String::from_str(alloc, name)?, item)?;
    Ok(())
}

/// The items that are types.
pub(crate) fn types_of(
    alloc: Global,
    items: &NamedMap<ItemKind>,
) -> Result<NamedMap<ItemKind>, AllocError>
    ensures { IfOk result (λ m. m ≡ type_items items.now) }
{
    let mut types = NamedMap::new(alloc);
    for at in 0..items.len() {
        let (name, item) = items.entry(at);
        add_type(alloc, name, *item, &mut types)?;
    }
    Ok(types)
}
