//! Core instances and instances.
ghost use Rattle.std.specs.Prelude.{◌≡◌, map};
ghost use Rattle.wac_component.specs.Numbers.{vec};
ghost use Rattle.wac_component.specs.Instances as grammar;
ghost use Rattle.wac_component.specs.Views.{core_argument_view, core_item_view, core_instance_view, item_view, instance_view};
ghost use Rattle.wac_component.specs.Reads.{Gives};

use crate::entry::{CoreArgument, CoreInstance, CoreItem, Instance, Item};
use crate::fault::{FaultKind, Stop};
use crate::numbers::{expect_byte, read_byte, read_name, read_number, refuse};
use crate::sorts::{read_core_sort, read_extern_name, read_sort};
use std::alloc::Global;

#[tactic(auto, unfolding(crate::specs::Instances::core_argument))]
fn read_core_argument(alloc: Global, bytes: &[u8]) -> Result<(CoreArgument, &[u8]), Stop>
    ensures { Gives (λ x. (core_argument_view x.0, x.1.now)) result (grammar.core_argument.read bytes.now) }
{
    let (name, rest) = read_name(alloc, bytes)?;
    let rest = expect_byte(0x12, FaultKind::Sort, rest)?;
    let (instance, rest) = read_number(rest)?;
    Ok((CoreArgument { name, instance }, rest))
}

#[tactic(auto, unfolding(crate::specs::Instances::core_item))]
fn read_core_item(alloc: Global, bytes: &[u8]) -> Result<(CoreItem, &[u8]), Stop>
    ensures { Gives (λ x. (core_item_view x.0, x.1.now)) result (grammar.core_item.read bytes.now) }
{
    let (name, rest) = read_name(alloc, bytes)?;
    let (sort, rest) = read_core_sort(rest)?;
    let (index, rest) = read_number(rest)?;
    Ok((CoreItem { name, sort, index }, rest))
}

/// The core instances under the names of a module's imports.
fn read_core_arguments(alloc: Global, bytes: &[u8]) -> Result<(Vec<CoreArgument>, &[u8]), Stop>
    ensures { Gives (λ x. (map core_argument_view x.0.items, x.1.now)) result ((vec grammar.core_argument).read bytes.now) }
{
    let (count, first) = read_number(bytes)?;
    let mut values = Vec::new(alloc);
    let mut rest = first;
    for _ in 0..count {
        let (value, after) = read_core_argument(alloc, rest)?;
        values.push(value)?;
        rest = after;
    }
    Ok((values, rest))
}

/// Core items under names.
fn read_core_items(alloc: Global, bytes: &[u8]) -> Result<(Vec<CoreItem>, &[u8]), Stop>
    ensures { Gives (λ x. (map core_item_view x.0.items, x.1.now)) result ((vec grammar.core_item).read bytes.now) }
{
    let (count, first) = read_number(bytes)?;
    let mut values = Vec::new(alloc);
    let mut rest = first;
    for _ in 0..count {
        let (value, after) = read_core_item(alloc, rest)?;
        values.push(value)?;
        rest = after;
    }
    Ok((values, rest))
}

#[tactic(auto, unfolding(crate::specs::Instances::core_instantiation))]
fn read_core_instantiation(alloc: Global, bytes: &[u8]) -> Result<(CoreInstance, &[u8]), Stop>
    ensures { Gives (λ x. (core_instance_view x.0, x.1.now)) result (grammar.core_instantiation.read bytes.now) }
{
    let (module, rest) = read_number(bytes)?;
    let (arguments, rest) = read_core_arguments(alloc, rest)?;
    Ok((CoreInstance::Instantiate(module, arguments), rest))
}

#[tactic(auto, unfolding(crate::specs::Instances::core_instance))]
fn read_core_instance(alloc: Global, bytes: &[u8]) -> Result<(CoreInstance, &[u8]), Stop>
    ensures { Gives (λ x. (core_instance_view x.0, x.1.now)) result (grammar.core_instance.read bytes.now) }
{
    let (b, rest) = read_byte(bytes)?;
    match b {
        0 => read_core_instantiation(alloc, rest),
        1 => {
            let (items, rest) = read_core_items(alloc, rest)?;
            Ok((CoreInstance::Bundle(items), rest))
        }
        _ => Err(refuse(FaultKind::Instance, rest)),
    }
}

/// The core instances of a section.
pub fn read_core_instances(alloc: Global, bytes: &[u8]) -> Result<(Vec<CoreInstance>, &[u8]), Stop>
    ensures { Gives (λ x. (map core_instance_view x.0.items, x.1.now)) result ((vec grammar.core_instance).read bytes.now) }
{
    let (count, first) = read_number(bytes)?;
    let mut values = Vec::new(alloc);
    let mut rest = first;
    for _ in 0..count {
        let (value, after) = read_core_instance(alloc, rest)?;
        values.push(value)?;
        rest = after;
    }
    Ok((values, rest))
}

/// An item under the name of an import.
#[tactic(auto, unfolding(crate::specs::Instances::argument))]
fn read_argument(alloc: Global, bytes: &[u8]) -> Result<(Item, &[u8]), Stop>
    ensures { Gives (λ x. (item_view x.0, x.1.now)) result (grammar.argument.read bytes.now) }
{
    let (name, rest) = read_name(alloc, bytes)?;
    let (sort, rest) = read_sort(rest)?;
    let (index, rest) = read_number(rest)?;
    Ok((Item { name, sort, index }, rest))
}

/// An item under the name of an export.
#[tactic(auto, unfolding(crate::specs::Instances::item))]
fn read_item(alloc: Global, bytes: &[u8]) -> Result<(Item, &[u8]), Stop>
    ensures { Gives (λ x. (item_view x.0, x.1.now)) result (grammar.item.read bytes.now) }
{
    let (name, rest) = read_extern_name(alloc, bytes)?;
    let (sort, rest) = read_sort(rest)?;
    let (index, rest) = read_number(rest)?;
    Ok((Item { name, sort, index }, rest))
}

/// The items under the names of a component's imports.
fn read_arguments(alloc: Global, bytes: &[u8]) -> Result<(Vec<Item>, &[u8]), Stop>
    ensures { Gives (λ x. (map item_view x.0.items, x.1.now)) result ((vec grammar.argument).read bytes.now) }
{
    let (count, first) = read_number(bytes)?;
    let mut values = Vec::new(alloc);
    let mut rest = first;
    for _ in 0..count {
        let (value, after) = read_argument(alloc, rest)?;
        values.push(value)?;
        rest = after;
    }
    Ok((values, rest))
}

/// Items under names.
fn read_items(alloc: Global, bytes: &[u8]) -> Result<(Vec<Item>, &[u8]), Stop>
    ensures { Gives (λ x. (map item_view x.0.items, x.1.now)) result ((vec grammar.item).read bytes.now) }
{
    let (count, first) = read_number(bytes)?;
    let mut values = Vec::new(alloc);
    let mut rest = first;
    for _ in 0..count {
        let (value, after) = read_item(alloc, rest)?;
        values.push(value)?;
        rest = after;
    }
    Ok((values, rest))
}

#[tactic(auto, unfolding(crate::specs::Instances::instantiation))]
fn read_instantiation(alloc: Global, bytes: &[u8]) -> Result<(Instance, &[u8]), Stop>
    ensures { Gives (λ x. (instance_view x.0, x.1.now)) result (grammar.instantiation.read bytes.now) }
{
    let (component, rest) = read_number(bytes)?;
    let (arguments, rest) = read_arguments(alloc, rest)?;
    Ok((Instance::Instantiate(component, arguments), rest))
}

#[tactic(auto, unfolding(crate::specs::Instances::instance))]
fn read_instance(alloc: Global, bytes: &[u8]) -> Result<(Instance, &[u8]), Stop>
    ensures { Gives (λ x. (instance_view x.0, x.1.now)) result (grammar.instance.read bytes.now) }
{
    let (b, rest) = read_byte(bytes)?;
    match b {
        0 => read_instantiation(alloc, rest),
        1 => {
            let (items, rest) = read_items(alloc, rest)?;
            Ok((Instance::Bundle(items), rest))
        }
        _ => Err(refuse(FaultKind::Instance, rest)),
    }
}

/// The instances of a section.
pub fn read_instances(alloc: Global, bytes: &[u8]) -> Result<(Vec<Instance>, &[u8]), Stop>
    ensures { Gives (λ x. (map instance_view x.0.items, x.1.now)) result ((vec grammar.instance).read bytes.now) }
{
    let (count, first) = read_number(bytes)?;
    let mut values = Vec::new(alloc);
    let mut rest = first;
    for _ in 0..count {
        let (value, after) = read_instance(alloc, rest)?;
        values.push(value)?;
        rest = after;
    }
    Ok((values, rest))
}
