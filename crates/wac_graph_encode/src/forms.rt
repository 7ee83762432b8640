//! Definitions in the forms in which they are written.

ghost use Rattle.std.specs.Prelude.{◌∷◌, [], IfOk, IfSome, OnOk};
ghost use Rattle.wac_types_base.specs.Collection.{Stands, Grows};
ghost use Rattle.wac_graph_asks.specs.AskedUses.{CopiesStand};
ghost use Rattle.wac_graph_encode.specs.Formed.{FormsAll, FormsMore, FormsOne, IsFormOf, KeepsCopies};

use std::alloc::{AllocError, Global};
use wac_graph_asks::asks::Definition;
use wac_types_base::{ItemKind, Types};
use wac_types_written::written_definition;

/// The form in which a copy is written, if there is one.
fn form_of(
    alloc: Global,
    types: &mut Types,
    copy: Option<ItemKind>,
) -> Result<Option<ItemKind>, AllocError>
    requires { IfSome copy (Stands types.old) }
    ensures form { IfOk result (IsFormOf types.old types.new copy) }
    ensures grows { Grows types.old types.new }
{
    types.see_acyclic();
    match copy {
        Some(kind) => {
            let form = written_definition(alloc, types, kind)?;
            Ok(Some(form))
        }
        None => Ok(None),
    }
}

/// A definition in the form in which it is written.
fn formed(
    alloc: Global,
    types: &mut Types,
    definition: &Definition,
) -> Result<Definition, AllocError>
    requires { IfSome definition.now.copy (Stands types.old) }
    ensures forms { FormsOne types.old types.new definition.now result }
    ensures stands { IfOk result (λ d. IfSome d.copy (Stands types.new)) }
    ensures grows { Grows types.old types.new }
{
    let copy = form_of(alloc, types, definition.copy)?;
    let name = definition.name.copy()?;
    Ok(Definition {
        node: definition.node,
        name,
        ty: definition.ty,
        copy,
    })
}

/// Adds a definition in the form in which it is written.
fn push_formed(
    alloc: Global,
    types: &mut Types,
    definition: &Definition,
    written: &mut Vec<Definition>,
) -> Result<(), AllocError>
    requires { IfSome definition.now.copy (Stands types.old) }
    ensures forms { FormsMore types.old types.new (definition.now ∷ []) written.old.items written.new.items result }
    ensures stand { OnOk result (KeepsCopies types.old types.new written.old.items written.new.items) }
    ensures grows { Grows types.old types.new }
{
    let definition = formed(alloc, types, definition)?;
    written.push(definition)?;
    Ok(())
}

/// Adds definitions in the forms in which they are written.
fn push_all_formed(
    alloc: Global,
    types: &mut Types,
    definitions: &[Definition],
    written: &mut Vec<Definition>,
) -> Result<(), AllocError>
    requires { CopiesStand types.old definitions.now }
    ensures forms { FormsMore types.old types.new definitions.now written.old.items written.new.items result }
    ensures stand { OnOk result (KeepsCopies types.old types.new written.old.items written.new.items) }
    ensures grows { Grows types.old types.new }
{
    types.see_acyclic();
    for definition in definitions {
        push_formed(alloc, types, definition, written)?;
    }
    Ok(())
}

/// Definitions in the forms in which they are written.
pub(crate) fn written_definitions(
    alloc: Global,
    types: &mut Types,
    definitions: &[Definition],
) -> Result<Vec<Definition>, AllocError>
    requires { CopiesStand types.old definitions.now }
    ensures forms { FormsAll types.old types.new definitions.now result }
    ensures stand { IfOk result (λ v. CopiesStand types.new v.items) }
    ensures grows { Grows types.old types.new }
{
    let mut written = Vec::new(alloc);
    push_all_formed(alloc, types, definitions, &mut written)?;
    Ok(written)
}
