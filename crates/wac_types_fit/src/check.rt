//! Whether an item of one collection fits an item of another.

ghost use Rattle.std.specs.Prelude.{◌≡◌, IsTrue, ◌↔◌, OnOk, []};
ghost use Rattle.wac_types_base.specs.declared.item.ItemKind.{ItemKind};
ghost use Rattle.wac_types_base.specs.declared.item.«Type».{«Type» as TypeKind};
ghost use Rattle.wac_types_base.specs.Collection.{Stands};
ghost use Rattle.wac_types_fit.specs.Frames.{Step, Disagree};
ghost use Rattle.wac_types_fit.specs.Errors.{IfMismatch, IfSaid};
ghost use Rattle.wac_types_fit.specs.Words.{Called, ItemsCalled, InstanceCalled, WorldCalled, NamedCalled, AreCalled};
ghost use Rattle.wac_types_fit.specs.Trees.{tree_in, Fit, SameTree, OneOrApart};
ghost use Rattle.wac_types_fit.specs.Checking.{HasPair, IsTrueOf, OnlyTrue, AreInside, GivesName, GivesAll, NameDisagrees, ItemsDisagree, IsFlat};

use crate::cache::{Cache, knows, remember};
use crate::core_items::modules_fit;
use crate::error::{SubtypeError, mismatch, within};
use crate::values::{is_one, same_funcs, same_resources, same_values};
use std::alloc::{AllocError, Global};
use wac_types_base::{ExternKind, InterfaceId, ItemKind, NamedMap, Type, Types, WorldId};

/// A collection whose items are given and one whose items are asked. Turned, the given ones are those that a refusal calls
/// expected.
#[derive(Clone, Copy)]
pub(crate) struct Sides<'a> {
    pub given: &'a Types,
    pub asked: &'a Types,
    pub turned: bool,
}

/// An item under its name.
#[derive(Clone, Copy)]
pub(crate) struct Item<'a> {
    pub name: &'a str,
    pub kind: ItemKind,
}

/// The imports or the exports of an item.
#[derive(Clone, Copy)]
struct Inside<'a> {
    of: ItemKind,
    items: &'a NamedMap<ItemKind>,
}

/// Two items that do not fit.
fn differ(sides: Sides<'_>, alloc: Global, a: ItemKind, b: ItemKind) -> Result<(), SubtypeError>
    requires given { Stands sides.given.now a }
    requires asked { Stands sides.asked.now b }
    requires apart { Disagree [] (tree_in sides.given.now a) (tree_in sides.asked.now b) }
    ensures yes { OnOk result (Fit sides.entry.given.now a sides.entry.asked.now b) }
    ensures no { IfMismatch result (λ ss. Disagree ss (tree_in sides.entry.given.now a) (tree_in sides.entry.asked.now b)) }
    ensures words { IfSaid result (λ ss e f. AreCalled sides.entry.turned (Called sides.entry.given.now a ss)
        (Called sides.entry.asked.now b ss) e f) }
{
    Err(mismatch(
        alloc,
        sides.turned,
        Some(a.desc(sides.given)),
        Some(b.desc(sides.asked)),
    ))
}

/// Two items without parts of their own that fit where they have one tree.
fn alike(
    sides: Sides<'_>,
    alloc: Global,
    same: bool,
    a: ItemKind,
    b: ItemKind,
) -> Result<(), SubtypeError>
    requires given { Stands sides.given.now a }
    requires asked { Stands sides.asked.now b }
    requires flat { IsFlat a }
    requires tested { IsTrue same ↔ SameTree sides.given.now a sides.asked.now b }
    ensures yes { OnOk result (Fit sides.entry.given.now a sides.entry.asked.now b) }
    ensures no { IfMismatch result (λ ss. Disagree ss (tree_in sides.entry.given.now a) (tree_in sides.entry.asked.now b)) }
    ensures words { IfSaid result (λ ss e f. AreCalled sides.entry.turned (Called sides.entry.given.now a ss)
        (Called sides.entry.asked.now b ss) e f) }
{
    sides.given.see_acyclic();
    if same {
        Ok(())
    } else {
        differ(sides, alloc, a, b)
    }
}

/// Whether `a` fits `b`. A pair that is found to fit is remembered.
#[cycle(fits)]
pub(crate) fn fits(
    sides: Sides<'_>,
    alloc: Global,
    cache: &mut Cache,
    a: ItemKind,
    b: ItemKind,
) -> Result<(), SubtypeError>
    requires given { Stands sides.given.now a }
    requires asked { Stands sides.asked.now b }
    requires apart { OneOrApart sides.given.now sides.asked.now }
    ensures yes { OnOk result (IsTrueOf sides.entry.given.now sides.entry.asked.now cache.old.keys
        → Fit sides.entry.given.now a sides.entry.asked.now b) }
    ensures no { IfMismatch result (λ ss. Disagree ss (tree_in sides.entry.given.now a) (tree_in sides.entry.asked.now b)) }
    ensures words { IfSaid result (λ ss e f. AreCalled sides.entry.turned (Called sides.entry.given.now a ss)
        (Called sides.entry.asked.now b ss) e f) }
    ensures remembered { OnOk result (HasPair cache.new.keys a b) }
    ensures only { IsTrueOf sides.entry.given.now sides.entry.asked.now cache.old.keys
        → OnlyTrue sides.entry.given.now sides.entry.asked.now cache.old.keys cache.new.keys }
    ensures cache { IsTrueOf sides.entry.given.now sides.entry.asked.now cache.old.keys
        → IsTrueOf sides.entry.given.now sides.entry.asked.now cache.new.keys }
{
    sides.given.see_acyclic();
    sides.asked.see_acyclic();
    if knows(cache, a, b) {
        return Ok(());
    }
    unfolded(sides, alloc, cache, a, b)?;
    match remember(cache, a, b) {
        Ok(()) => Ok(()),
        Err(AllocError) => Err(SubtypeError::Memory),
    }
}

/// Whether `a` fits `b`, by what both are.
#[cycle(fits)]
fn unfolded(
    sides: Sides<'_>,
    alloc: Global,
    cache: &mut Cache,
    a: ItemKind,
    b: ItemKind,
) -> Result<(), SubtypeError>
    requires given { Stands sides.given.now a }
    requires asked { Stands sides.asked.now b }
    requires apart { OneOrApart sides.given.now sides.asked.now }
    ensures yes { OnOk result (IsTrueOf sides.entry.given.now sides.entry.asked.now cache.old.keys
        → Fit sides.entry.given.now a sides.entry.asked.now b) }
    ensures no { IfMismatch result (λ ss. Disagree ss (tree_in sides.entry.given.now a) (tree_in sides.entry.asked.now b)) }
    ensures words { IfSaid result (λ ss e f. AreCalled sides.entry.turned (Called sides.entry.given.now a ss)
        (Called sides.entry.asked.now b ss) e f) }
    ensures only { IsTrueOf sides.entry.given.now sides.entry.asked.now cache.old.keys
        → OnlyTrue sides.entry.given.now sides.entry.asked.now cache.old.keys cache.new.keys }
    ensures cache { IsTrueOf sides.entry.given.now sides.entry.asked.now cache.old.keys
        → IsTrueOf sides.entry.given.now sides.entry.asked.now cache.new.keys }
{
    sides.given.see_acyclic();
    sides.asked.see_acyclic();
    if is_one(a, sides.given, b, sides.asked) {
        return Ok(());
    }
    match (a, b) {
        (ItemKind::Ty(x), ItemKind::Ty(y)) => types_fit(sides, alloc, cache, x, y),
        (ItemKind::Func(f), ItemKind::Func(g)) => {
            let same = same_funcs(f, sides.given, g, sides.asked);
            alike(sides, alloc, same, a, b)
        }
        (ItemKind::Instance(i), ItemKind::Instance(j)) => instances_fit(sides, alloc, cache, i, j),
        (ItemKind::Component(i), ItemKind::Component(j)) => worlds_fit(sides, alloc, cache, i, j),
        (ItemKind::Module(i), ItemKind::Module(j)) => {
            let given = sides.given.module_type(i);
            let asked = sides.asked.module_type(j);
            modules_fit(alloc, sides.turned, given, asked)
        }
        (ItemKind::Value(x), ItemKind::Value(y)) => {
            let same = same_values(x, sides.given, y, sides.asked);
            alike(sides, alloc, same, a, b)
        }
        _ => differ(sides, alloc, a, b),
    }
}

/// Whether a type item fits another, by what both are.
#[cycle(fits)]
fn types_fit(
    sides: Sides<'_>,
    alloc: Global,
    cache: &mut Cache,
    a: Type,
    b: Type,
) -> Result<(), SubtypeError>
    requires given { Stands sides.given.now (ItemKind.Ty a) }
    requires asked { Stands sides.asked.now (ItemKind.Ty b) }
    requires apart { OneOrApart sides.given.now sides.asked.now }
    ensures yes { OnOk result (IsTrueOf sides.entry.given.now sides.entry.asked.now cache.old.keys
        → Fit sides.entry.given.now (ItemKind.Ty a) sides.entry.asked.now (ItemKind.Ty b)) }
    ensures no { IfMismatch result (λ ss. Disagree ss (tree_in sides.entry.given.now (ItemKind.Ty a))
        (tree_in sides.entry.asked.now (ItemKind.Ty b))) }
    ensures words { IfSaid result (λ ss e f. AreCalled sides.entry.turned (Called sides.entry.given.now (ItemKind.Ty a) ss)
        (Called sides.entry.asked.now (ItemKind.Ty b) ss) e f) }
    ensures only { IsTrueOf sides.entry.given.now sides.entry.asked.now cache.old.keys
        → OnlyTrue sides.entry.given.now sides.entry.asked.now cache.old.keys cache.new.keys }
    ensures cache { IsTrueOf sides.entry.given.now sides.entry.asked.now cache.old.keys
        → IsTrueOf sides.entry.given.now sides.entry.asked.now cache.new.keys }
{
    sides.given.see_acyclic();
    sides.asked.see_acyclic();
    let (given, asked) = (ItemKind::Ty(a), ItemKind::Ty(b));
    match (a, b) {
        (Type::Resource(r), Type::Resource(s)) => {
            let same = same_resources(r, sides.given, s, sides.asked);
            alike(sides, alloc, same, given, asked)
        }
        (Type::Func(f), Type::Func(g)) => {
            let same = same_funcs(f, sides.given, g, sides.asked);
            alike(sides, alloc, same, given, asked)
        }
        (Type::Value(x), Type::Value(y)) => {
            let same = same_values(x, sides.given, y, sides.asked);
            alike(sides, alloc, same, given, asked)
        }
        (Type::Interface(i), Type::Interface(j)) => instances_fit(sides, alloc, cache, i, j),
        (Type::World(i), Type::World(j)) => worlds_fit(sides, alloc, cache, i, j),
        (Type::Module(i), Type::Module(j)) => {
            let given = sides.given.module_type(i);
            let asked = sides.asked.module_type(j);
            modules_fit(alloc, sides.turned, given, asked)
        }
        _ => differ(sides, alloc, given, asked),
    }
}

/// Whether an instance fits another.
#[cycle(fits)]
fn instances_fit(
    sides: Sides<'_>,
    alloc: Global,
    cache: &mut Cache,
    a: InterfaceId,
    b: InterfaceId,
) -> Result<(), SubtypeError>
    requires given { Stands sides.given.now (ItemKind.Instance a) }
    requires asked { Stands sides.asked.now (ItemKind.Instance b) }
    requires apart { OneOrApart sides.given.now sides.asked.now }
    ensures yes { OnOk result (IsTrueOf sides.entry.given.now sides.entry.asked.now cache.old.keys
        → Fit sides.entry.given.now (ItemKind.Instance a) sides.entry.asked.now (ItemKind.Instance b)) }
    ensures no { IfMismatch result (λ ss. Disagree ss (tree_in sides.entry.given.now (ItemKind.Instance a))
        (tree_in sides.entry.asked.now (ItemKind.Instance b))) }
    ensures words { IfSaid result (λ ss e f. AreCalled sides.entry.turned (InstanceCalled sides.entry.given.now a ss)
        (InstanceCalled sides.entry.asked.now b ss) e f) }
    ensures only { IsTrueOf sides.entry.given.now sides.entry.asked.now cache.old.keys
        → OnlyTrue sides.entry.given.now sides.entry.asked.now cache.old.keys cache.new.keys }
    ensures cache { IsTrueOf sides.entry.given.now sides.entry.asked.now cache.old.keys
        → IsTrueOf sides.entry.given.now sides.entry.asked.now cache.new.keys }
{
    let given = sides.given.interface(a);
    let asked = sides.asked.interface(b);
    let given_items = Inside {
        of: ItemKind::Instance(a),
        items: &given.exports,
    };
    let asked_items = Inside {
        of: ItemKind::Instance(b),
        items: &asked.exports,
    };
    items_fit(
        sides,
        alloc,
        cache,
        ExternKind::Export,
        given_items,
        asked_items,
    )
}

/// Whether a component fits another: its imports the other way round, and its exports.
#[cycle(fits)]
fn worlds_fit(
    sides: Sides<'_>,
    alloc: Global,
    cache: &mut Cache,
    a: WorldId,
    b: WorldId,
) -> Result<(), SubtypeError>
    requires given { Stands sides.given.now (ItemKind.Component a) }
    requires asked { Stands sides.asked.now (ItemKind.Component b) }
    requires apart { OneOrApart sides.given.now sides.asked.now }
    ensures yes { OnOk result (IsTrueOf sides.entry.given.now sides.entry.asked.now cache.old.keys
        → Fit sides.entry.given.now (ItemKind.Component a) sides.entry.asked.now (ItemKind.Component b)) }
    ensures no { IfMismatch result (λ ss. Disagree ss (tree_in sides.entry.given.now (ItemKind.Component a))
        (tree_in sides.entry.asked.now (ItemKind.Component b))) }
    ensures words { IfSaid result (λ ss e f. AreCalled sides.entry.turned (WorldCalled sides.entry.given.now a ss)
        (WorldCalled sides.entry.asked.now b ss) e f) }
    ensures only { IsTrueOf sides.entry.given.now sides.entry.asked.now cache.old.keys
        → OnlyTrue sides.entry.given.now sides.entry.asked.now cache.old.keys cache.new.keys }
    ensures cache { IsTrueOf sides.entry.given.now sides.entry.asked.now cache.old.keys
        → IsTrueOf sides.entry.given.now sides.entry.asked.now cache.new.keys }
{
    let given = sides.given.world(a);
    let asked = sides.asked.world(b);
    let turned = Sides {
        given: sides.asked,
        asked: sides.given,
        turned: !sides.turned,
    };
    let given_imports = Inside {
        of: ItemKind::Component(a),
        items: &given.imports,
    };
    let asked_imports = Inside {
        of: ItemKind::Component(b),
        items: &asked.imports,
    };
    items_fit(
        turned,
        alloc,
        cache,
        ExternKind::Import,
        asked_imports,
        given_imports,
    )?;
    let given_exports = Inside {
        of: ItemKind::Component(a),
        items: &given.exports,
    };
    let asked_exports = Inside {
        of: ItemKind::Component(b),
        items: &asked.exports,
    };
    items_fit(
        sides,
        alloc,
        cache,
        ExternKind::Export,
        given_exports,
        asked_exports,
    )
}

/// Whether each of the items asked has one of its name that fits.
#[cycle(fits)]
fn items_fit(
    sides: Sides<'_>,
    alloc: Global,
    cache: &mut Cache,
    side: ExternKind,
    given: Inside<'_>,
    asked: Inside<'_>,
) -> Result<(), SubtypeError>
    requires given { AreInside sides.given.now given.of given.items.now }
    requires asked { AreInside sides.asked.now asked.of asked.items.now }
    requires apart { OneOrApart sides.given.now sides.asked.now }
    ensures yes { OnOk result (IsTrueOf sides.entry.given.now sides.entry.asked.now cache.old.keys
        → GivesAll sides.entry.given.now given.entry.items.now sides.entry.asked.now asked.entry.items.now) }
    ensures no { IfMismatch result (ItemsDisagree side sides.entry.given.now given.entry.items.now sides.entry.asked.now
        asked.entry.items.now) }
    ensures words { IfSaid result (λ ss e f. AreCalled sides.entry.turned
        (ItemsCalled sides.entry.given.now side given.entry.items.now ss)
        (ItemsCalled sides.entry.asked.now side asked.entry.items.now ss) e f) }
    ensures only { IsTrueOf sides.entry.given.now sides.entry.asked.now cache.old.keys
        → OnlyTrue sides.entry.given.now sides.entry.asked.now cache.old.keys cache.new.keys }
    ensures cache { IsTrueOf sides.entry.given.now sides.entry.asked.now cache.old.keys
        → IsTrueOf sides.entry.given.now sides.entry.asked.now cache.new.keys }
{
    for index in 0..asked.items.len() {
        let (name, kind) = asked.items.entry(index);
        let item = Item { name, kind: *kind };
        item_fits(sides, alloc, cache, side, given, item)?;
    }
    Ok(())
}

/// Whether there is an item of this name that fits.
#[cycle(fits)]
fn item_fits(
    sides: Sides<'_>,
    alloc: Global,
    cache: &mut Cache,
    side: ExternKind,
    given: Inside<'_>,
    asked: Item<'_>,
) -> Result<(), SubtypeError>
    requires given { AreInside sides.given.now given.of given.items.now }
    requires asked { Stands sides.asked.now asked.kind }
    requires apart { OneOrApart sides.given.now sides.asked.now }
    ensures yes { OnOk result (IsTrueOf sides.entry.given.now sides.entry.asked.now cache.old.keys
        → GivesName sides.entry.given.now given.entry.items.now sides.entry.asked.now asked.entry.name.now asked.entry.kind) }
    ensures no { IfMismatch result (NameDisagrees side sides.entry.given.now given.entry.items.now sides.entry.asked.now
        asked.entry.name.now asked.entry.kind) }
    ensures words { IfSaid result (λ ss e f. AreCalled sides.entry.turned
        (ItemsCalled sides.entry.given.now side given.entry.items.now ss)
        (NamedCalled sides.entry.asked.now side asked.entry.name.now asked.entry.kind ss) e f) }
    ensures only { IsTrueOf sides.entry.given.now sides.entry.asked.now cache.old.keys
        → OnlyTrue sides.entry.given.now sides.entry.asked.now cache.old.keys cache.new.keys }
    ensures cache { IsTrueOf sides.entry.given.now sides.entry.asked.now cache.old.keys
        → IsTrueOf sides.entry.given.now sides.entry.asked.now cache.new.keys }
{
    match given.items.get(asked.name) {
        None => {
            let fault = mismatch(
                alloc,
                sides.turned,
                None,
                Some(asked.kind.desc(sides.asked)),
            );
            Err(within(alloc, side, asked.name, fault))
        }
        Some(found) => match fits(sides, alloc, cache, *found, asked.kind) {
            Ok(()) => Ok(()),
            Err(fault) => Err(within(alloc, side, asked.name, fault)),
        },
    }
}
