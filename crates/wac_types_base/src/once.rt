//! Entries that are equal are one.

use crate::core_types::ModuleType;
use crate::defined::{DefinedType, FuncType, Interface, Resource, World};
use crate::entries::Once;

impl Once for DefinedType {
    ghost use Rattle.wac_types_base.specs.OneEntry.{one_defined};

    ghost one = { one_defined };
}

impl Once for Resource {
    ghost use Rattle.wac_types_base.specs.OneEntry.{one_resource};

    ghost one = { one_resource };
}

impl Once for FuncType {
    ghost use Rattle.wac_types_base.specs.OneEntry.{one_func};

    ghost one = { one_func };
}

impl Once for Interface {
    ghost use Rattle.wac_types_base.specs.OneEntry.{one_interface};

    ghost one = { one_interface };
}

impl Once for World {
    ghost use Rattle.wac_types_base.specs.OneEntry.{one_world};

    ghost one = { one_world };
}

impl Once for ModuleType {
    ghost use Rattle.wac_types_base.specs.OneEntry.{one_module};

    ghost one = { one_module };
}
