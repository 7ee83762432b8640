//! Lists of trees.

ghost use Rattle.std.specs.Prelude.{◌≡◌, IfOk, map};
ghost use Rattle.wac_parser_tree.specs.Trees as t;
ghost use Rattle.wac_parser_tree.specs.Views.{view_enum_case, view_field, view_flag, view_interface_item, view_named_type, view_resource_method, view_statement, view_variant_case, view_world_item};

use crate::declaration::{EnumCase, Field, Flag, ResourceMethod, VariantCase};
use crate::document::Statement;
use crate::interface::InterfaceItem;
use crate::value_type::NamedType;
use crate::world::WorldItem;
use std::alloc::{AllocError, Global};

/// A tree of which a list can hold equal ones.
pub(crate) trait Listed: Sized + Drop {
    /// What the tree says, without where it lies in memory.
    ghost Plain: { Type 0 };

    ghost view: { Self → Plain };

    /// An equal tree.
    fn copy(&self, alloc: Global) -> Result<Self, AllocError>
        ensures { IfOk result (λ t. view t ≡ view self.now) };
}

/// Equal trees, in the same order.
pub(crate) fn clone_all<T: Listed>(alloc: Global, trees: &Vec<T>) -> Result<Vec<T>, AllocError>
    ensures { IfOk result (λ v. map T.view v.items ≡ map T.view trees.now.items) }
{
    let mut copies = Vec::new(alloc);
    for tree in trees {
        copies.push(tree.copy(alloc)?)?;
    }
    Ok(copies)
}

impl<'a> Listed for VariantCase<'a> {
    ghost Plain = { t.VariantCase };

    ghost view = { view_variant_case };

    fn copy(&self, alloc: Global) -> Result<Self, AllocError> {
        self.clone(alloc)
    }
}

impl<'a> Listed for Field<'a> {
    ghost Plain = { t.Field };

    ghost view = { view_field };

    fn copy(&self, alloc: Global) -> Result<Self, AllocError> {
        self.clone(alloc)
    }
}

impl<'a> Listed for Flag<'a> {
    ghost Plain = { t.Flag };

    ghost view = { view_flag };

    fn copy(&self, alloc: Global) -> Result<Self, AllocError> {
        self.clone(alloc)
    }
}

impl<'a> Listed for EnumCase<'a> {
    ghost Plain = { t.EnumCase };

    ghost view = { view_enum_case };

    fn copy(&self, alloc: Global) -> Result<Self, AllocError> {
        self.clone(alloc)
    }
}

impl<'a> Listed for ResourceMethod<'a> {
    ghost Plain = { t.ResourceMethod };

    ghost view = { view_resource_method };

    fn copy(&self, alloc: Global) -> Result<Self, AllocError> {
        self.clone(alloc)
    }
}

impl<'a> Listed for Statement<'a> {
    ghost Plain = { t.Statement };

    ghost view = { view_statement };

    fn copy(&self, alloc: Global) -> Result<Self, AllocError> {
        self.clone(alloc)
    }
}

impl<'a> Listed for InterfaceItem<'a> {
    ghost Plain = { t.InterfaceItem };

    ghost view = { view_interface_item };

    fn copy(&self, alloc: Global) -> Result<Self, AllocError> {
        self.clone(alloc)
    }
}

impl<'a> Listed for NamedType<'a> {
    ghost Plain = { t.NamedType };

    ghost view = { view_named_type };

    fn copy(&self, alloc: Global) -> Result<Self, AllocError> {
        self.clone(alloc)
    }
}

impl<'a> Listed for WorldItem<'a> {
    ghost Plain = { t.WorldItem };

    ghost view = { view_world_item };

    fn copy(&self, alloc: Global) -> Result<Self, AllocError> {
        self.clone(alloc)
    }
}
