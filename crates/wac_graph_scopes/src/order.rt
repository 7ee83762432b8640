//! The order in which the imports of a world are written.

ghost use Rattle.std.specs.Prelude.{◌≡◌, ◌↔◌, ◌<◌, ℕ, [], ◌∷◌, ◌++◌, true, false, Some, length, slice_get, option_to_list, IfOk, IfSome, OnOk, IsTrue};
ghost use Rattle.wac_types_base.specs.declared.item.ItemKind.{ItemKind};
ghost use Rattle.wac_types_base.specs.Entries.{names_of, values_of, AreDistinct};
ghost use Rattle.wac_types_base.specs.Collection.{Stands};
ghost use Rattle.wac_types_parts.specs.Parts.{exports_of};
ghost use Rattle.wac_graph_scopes.specs.Imports.{all_imports, all_exports, IsGiven};
ghost use Rattle.wac_graph_scopes.specs.declared.order.Turn.TheVariants as TheTurn;
ghost use Rattle.wac_graph_scopes.specs.Orders.{IsOrder, IsBegun, Puts, Marks, Leaves, IsDone, AreDone, IsSource, IsEarly, HasTurn, IsTurnAt, AreTurns, EarlyFirst, SourcesFirst};
ghost use Rattle.wac_graph_scopes.specs.Orders.{PutsPlaces, PutsNeed, PutsAt, PutsTurn, PutsTurns, is_same, has_turn};
ghost use Rattle.wac_graph_scopes.specs.UsePlaces.{place_of, places_used, UsePlaces, AddsUseAt, AddsUses, ComesBefore, ItemUses, AllUses, HasUses, AreUses, IsPlainOrder, HaveExportUses, IsExportOrder};
ghost use Rattle.wac_graph_scopes.specs.UsePlaces.{IsSourceAt, IsSourceBefore, IsGivenAt, AddsSources, AddsBefore, IsNeeds, AreNeeds, HaveNeeds, SourcesBehind};
ghost use Rattle.wac_graph_scopes.specs.Behind.{lists_of, needs_at, places_in_order, IsBehindNeeds};

use crate::import_places::add_export_places;
use crate::imports::{Importing, use_giving};
use crate::type_places::TypePlaces;
use indexmap::IndexSet;
use std::alloc::{AllocError, Global};
use std::mem;
use wac_types_base::{InterfaceId, ItemKind, NamedMap, Types};
use wac_types_parts::parts::{
    Item, Use, export_at, export_count, identifier, import_at, import_count, interface_of,
    is_fresh, use_at, use_count, world_export_at, world_export_count, world_use_named,
};

/// Which imports are put in order together.
#[derive(Clone, Copy, PartialEq, Eq)]
enum Turn {
    /// Resources under their own names.
    Fresh,
    /// Instances, and what is used of them.
    Interfaces,
    /// Other types.
    Types,
    /// What else there is.
    Others,
}

/// The order as far as it stands.
#[derive(Drop)]
struct Order {
    alloc: Global,
    /// Of each place, those that it needs.
    needs: Vec<Vec<usize>>,
    /// When it is the turn of each place.
    turns: Vec<Turn>,
    /// Of each place, whether it is in the order, or those that it needs are being put there.
    begun: Vec<bool>,
    order: Vec<usize>,
}

/// Where the import of a used interface stands.
fn place_of_use(types: &Types, found: &NamedMap<usize>, used: Use<'_>) -> Option<usize>
    ensures { result ≡ place_of types.now found.now used.entry.interface }
{
    let name = identifier(types, used.interface)?;
    found.get(name).copied()
}

/// Where the import of the interface stands of which an import is a used type.
fn place_of_used(
    alloc: Global,
    all: Importing<'_>,
    found: &NamedMap<usize>,
    import: Item<'_>,
) -> Result<Option<usize>, AllocError>
    ensures found { IfOk result (λ o. (m : ℕ) → IsGivenAt all.entry found.now import.entry m → o ≡ Some m) }
    ensures given { IfOk result (λ o. IfSome o (λ _. IsGiven all.entry import.entry)) }
{
    let given = use_giving(alloc, all, import)?;
    match given {
        Some(given) => Ok(place_of_use(all.types, found, given.used)),
        None => Ok(None),
    }
}

/// Whether a use of a name is one of the world itself, or of an interface that is imported.
fn is_found(all: Importing<'_>, found: &NamedMap<usize>, name: &str, used: Use<'_>) -> bool {
    world_use_named(all.types, all.world, name).is_some()
        || place_of_use(all.types, found, used).is_some()
}

/// Whether it is a used type: one that the world uses itself, or one of an interface that is imported.
fn is_used(
    alloc: Global,
    all: Importing<'_>,
    found: &NamedMap<usize>,
    import: Item<'_>,
) -> Result<bool, AllocError>
    ensures { IfOk result (λ yes. yes ≡ true → IsGiven all.entry import.entry) }
{
    let given = use_giving(alloc, all, import)?;
    match given {
        Some(given) => Ok(is_found(all, found, import.name, given.used)),
        None => Ok(false),
    }
}

/// When it is the turn of an import.
fn turn_of(
    alloc: Global,
    all: Importing<'_>,
    found: &NamedMap<usize>,
    import: Item<'_>,
) -> Result<Turn, AllocError>
    ensures early { IfOk result
        (λ t. Stands all.entry.types.now import.entry.kind → IsSource import.entry.kind → IsEarly t) }
    ensures only { IfOk result (HasTurn all.entry import.entry) }
{
    let used = is_used(alloc, all, found, import)?;
    if used {
        return Ok(Turn::Interfaces);
    }
    if is_fresh(all.types, import) {
        return Ok(Turn::Fresh);
    }
    if interface_of(all.types, import.kind).is_some() {
        return Ok(Turn::Interfaces);
    }
    if matches!(import.kind, ItemKind::Ty(_)) {
        Ok(Turn::Types)
    } else {
        Ok(Turn::Others)
    }
}

/// Adds where the import of the interface stands that another one uses at a place.
fn add_use_at(
    types: &Types,
    found: &NamedMap<usize>,
    id: InterfaceId,
    at: usize,
    needs: &mut Vec<usize>,
) -> Result<(), AllocError>
    ensures { OnOk result (AddsUseAt types.now found.now id at needs.old.items needs.new.items) }
{
    match use_at(types, id, at) {
        Some(used) => add_place(place_of_use(types, found, used), needs),
        None => Ok(()),
    }
}

/// Adds a place, if there is one.
fn add_place(place: Option<usize>, places: &mut Vec<usize>) -> Result<(), AllocError>
    ensures { OnOk result (places.new.items ≡ places.old.items ++ option_to_list place) }
{
    match place {
        Some(place) => Ok(places.push(place)?),
        None => Ok(()),
    }
}

/// Adds where the imports of the interfaces stand that an interface uses itself.
fn add_uses(
    types: &Types,
    found: &NamedMap<usize>,
    id: InterfaceId,
    needs: &mut Vec<usize>,
) -> Result<(), AllocError>
    ensures { OnOk result (needs.new.items ≡ needs.old.items ++ places_used types.now found.now id) }
{
    for at in 0..use_count(types, id) {
        add_use_at(types, found, id, at, needs)?;
    }
    Ok(())
}

/// Adds where the imports of the interfaces stand that an item uses.
#[cycle(needs)]
fn add_needs(
    types: &Types,
    found: &NamedMap<usize>,
    kind: ItemKind,
    needs: &mut Vec<usize>,
) -> Result<(), AllocError>
    ensures { OnOk result (AddsUses types.now found.now (kind ∷ []) needs.old.items needs.new.items) }
{
    let Some(id) = interface_of(types, kind) else {
        return Ok(());
    };
    add_uses(types, found, id, needs)?;
    add_needs_of_exports(types, found, id, needs)
}

/// Adds where the imports of the interfaces stand that the exports of an interface use.
#[cycle(needs)]
fn add_needs_of_exports(
    types: &Types,
    found: &NamedMap<usize>,
    id: InterfaceId,
    needs: &mut Vec<usize>,
) -> Result<(), AllocError>
    ensures { OnOk result (AddsUses types.now found.now (values_of (exports_of types.now id)) needs.old.items needs.new.items) }
{
    for at in 0..export_count(types, id) {
        if let Some(item) = export_at(types, id, at) {
            add_needs(types, found, item.kind, needs)?;
        }
    }
    Ok(())
}

/// Whether two turns are one.
fn same_turn(a: Turn, b: Turn) -> bool
    ensures same { IsTrue result ↔ (a ≡ b) }
    ensures test { result ≡ is_same b a }
{
    a == b
}

/// When it is the turn of each import.
fn turns_of(
    alloc: Global,
    all: Importing<'_>,
    found: &NamedMap<usize>,
) -> Result<Vec<Turn>, AllocError>
    ensures len { IfOk result (λ v. length v.items ≡ length (all_imports all.entry)) }
    ensures turns { IfOk result (λ v. AreTurns all.entry v.items) }
    ensures distinct { AreDistinct (names_of (all_imports all.entry)) }
{
    let mut turns = Vec::new(alloc);
    for at in 0..import_count(all.types, all.world) {
        let turn = turn_at(alloc, all, found, at)?;
        turns.push(turn)?;
    }
    Ok(turns)
}

/// When it is the turn of the import at a place.
fn turn_at(
    alloc: Global,
    all: Importing<'_>,
    found: &NamedMap<usize>,
    at: usize,
) -> Result<Turn, AllocError>
    ensures { IfOk result (IsTurnAt all.entry at) }
{
    match import_at(all.types, all.world, at) {
        Some(import) => turn_of(alloc, all, found, import),
        None => Ok(Turn::Others),
    }
}

/// So many imports, of which none is begun.
fn none_begun(alloc: Global, count: usize) -> Result<Vec<bool>, AllocError>
    ensures len { IfOk result (λ v. length v.items ≡ count) }
    ensures none { IfOk result (λ v. (k : ℕ) → IsBegun v.items k → ⊥) }
{
    let mut begun = Vec::new(alloc);
    for _at in 0..count {
        begun.push(false)?;
    }
    Ok(begun)
}

/// Where the imports stand that the interface of the one at a place uses.
fn uses_of_import(
    alloc: Global,
    all: Importing<'_>,
    found: &NamedMap<usize>,
    at: usize,
) -> Result<Vec<usize>, AllocError>
    ensures { IfOk result (λ v. HasUses all.entry found.now at v.items) }
{
    match import_at(all.types, all.world, at) {
        Some(import) => needs_of_item(alloc, all.types, found, import.kind),
        None => Ok(Vec::new(alloc)),
    }
}

/// Of each import, where those stand that its interface uses.
fn uses_of_imports(
    alloc: Global,
    all: Importing<'_>,
    found: &NamedMap<usize>,
) -> Result<Vec<Vec<usize>>, AllocError>
    ensures { IfOk result (λ v. AreUses all.entry found.now (lists_of v.items)) }
{
    let mut uses = Vec::new(alloc);
    for at in 0..import_count(all.types, all.world) {
        uses.push(uses_of_import(alloc, all, found, at)?)?;
    }
    Ok(uses)
}

/// The set of places, in their order.
fn set_of(alloc: Global, places: &[usize]) -> Result<IndexSet<usize>, AllocError>
    ensures { IfOk result (λ o. AreDistinct places.now → o.keys ≡ places.now) }
{
    let mut set = IndexSet::new(alloc);
    for at in places {
        let _ = set.insert(*at)?;
    }
    Ok(set)
}

/// The order in which interfaces are written, each behind those that it uses.
fn interfaces_in_order(
    alloc: Global,
    all: Importing<'_>,
    found: &NamedMap<usize>,
) -> Result<IndexSet<usize>, AllocError>
    ensures { IfOk result (λ o. IsPlainOrder all.entry found.now o.keys) }
{
    let uses = uses_of_imports(alloc, all, found)?;
    let order = order_by_needs(alloc, uses)?;
    set_of(alloc, &order)
}

/// Whether one place comes before another.
fn comes_before(order: &IndexSet<usize>, one: usize, other: usize) -> bool
    ensures { IsTrue result ↔ ComesBefore order.now.keys one other }
{
    match (order.get_index_of(&one), order.get_index_of(&other)) {
        (Some(first), Some(second)) => first < second,
        _ => false,
    }
}

/// Whether the import at a place is an instance or an interface.
fn is_source_at(all: Importing<'_>, at: usize) -> bool
    ensures { IsTrue result ↔ IsSourceAt all.entry at }
{
    match import_at(all.types, all.world, at) {
        Some(import) => interface_of(all.types, import.kind).is_some(),
        None => false,
    }
}

/// Whether the import at a place is a source that comes before another one.
fn is_source_before(all: Importing<'_>, order: &IndexSet<usize>, used: usize, at: usize) -> bool
    ensures { IsTrue result ↔ IsSourceBefore all.entry order.now.keys used at }
{
    is_source_at(all, used) && comes_before(order, used, at)
}

/// Adds where the imports of the interfaces stand that the interface of the one at a place uses, but for those that wait for it.
fn add_uses_before(
    alloc: Global,
    all: Importing<'_>,
    found: &NamedMap<usize>,
    order: &IndexSet<usize>,
    at: usize,
    needs: &mut Vec<usize>,
) -> Result<(), AllocError>
    ensures { OnOk result (AddsBefore all.entry found.now order.now.keys at needs.old.items needs.new.items) }
{
    let uses = uses_of_import(alloc, all, found, at)?;
    add_sources_before(all, order, at, &uses, needs)
}

/// Adds a place, if it is that of a source and comes before another one.
fn add_source_before(
    all: Importing<'_>,
    order: &IndexSet<usize>,
    at: usize,
    used: usize,
    needs: &mut Vec<usize>,
) -> Result<(), AllocError>
    ensures { OnOk result (AddsSources all.entry order.now.keys at (used ∷ []) needs.old.items needs.new.items) }
{
    if is_source_before(all, order, used, at) {
        Ok(needs.push(used)?)
    } else {
        Ok(())
    }
}

/// Adds those of some places that are of sources and come before another one.
fn add_sources_before(
    all: Importing<'_>,
    order: &IndexSet<usize>,
    at: usize,
    uses: &[usize],
    needs: &mut Vec<usize>,
) -> Result<(), AllocError>
    ensures { OnOk result (AddsSources all.entry order.now.keys at uses.now needs.old.items needs.new.items) }
{
    for used in uses {
        add_source_before(all, order, at, *used, needs)?;
    }
    Ok(())
}

/// Where the imports stand that the one at a place uses or is made of.
fn needs_of_import(
    alloc: Global,
    all: Importing<'_>,
    found: &NamedMap<usize>,
    order: &IndexSet<usize>,
    places: &mut TypePlaces,
    at: usize,
) -> Result<Vec<usize>, AllocError>
    ensures { IfOk result (λ v. IsNeeds all.entry found.now order.now.keys at v.items) }
{
    all.types.see_acyclic();
    let Some(import) = import_at(all.types, all.world, at) else {
        return Ok(Vec::new(alloc));
    };
    let used = place_of_used(alloc, all, found, import)?;
    match used {
        Some(place) => one_place(alloc, place),
        None => needs_of_other(alloc, all, found, order, places, at, import.kind),
    }
}

/// A list of one place.
fn one_place(alloc: Global, place: usize) -> Result<Vec<usize>, AllocError>
    ensures { IfOk result (λ v. v.items ≡ place ∷ []) }
{
    let mut places = Vec::new(alloc);
    places.push(place)?;
    Ok(places)
}

/// Where the imports stand that the one at a place, which no use gives, uses or is made of.
fn needs_of_other(
    alloc: Global,
    all: Importing<'_>,
    found: &NamedMap<usize>,
    order: &IndexSet<usize>,
    places: &mut TypePlaces,
    at: usize,
    kind: ItemKind,
) -> Result<Vec<usize>, AllocError>
    ensures { IfOk result (λ v. IsSource kind → AddsBefore all.entry found.now order.now.keys at [] v.items) }
{
    let mut needs = Vec::new(alloc);
    add_uses_before(alloc, all, found, order, at, &mut needs)?;
    places.add_needs(all.types, kind, &mut needs)?;
    Ok(needs)
}

/// Of each import, where those stand that it uses or is made of. Of interfaces that use each other in a circle each needs
/// those alone that come before it when there are no used types, which could bring another of them forward. An interface
/// needs no import that is none, which could wait for it.
fn needs_of_imports(
    alloc: Global,
    all: Importing<'_>,
    found: &NamedMap<usize>,
) -> Result<Vec<Vec<usize>>, AllocError>
    ensures len { IfOk result (λ v. length v.items ≡ length (all_imports all.entry)) }
    ensures needs { IfOk result (λ v. HaveNeeds all.entry found.now (lists_of v.items)) }
{
    let order = interfaces_in_order(alloc, all, found)?;
    needs_in_order(alloc, all, found, &order)
}

/// Of each import, where those stand that it uses or is made of, over the order of the interfaces.
fn needs_in_order(
    alloc: Global,
    all: Importing<'_>,
    found: &NamedMap<usize>,
    order: &IndexSet<usize>,
) -> Result<Vec<Vec<usize>>, AllocError>
    ensures len { IfOk result (λ v. length v.items ≡ length (all_imports all.entry)) }
    ensures needs { IfOk result (λ v. AreNeeds all.entry found.now order.now.keys (lists_of v.items)) }
{
    let mut places = TypePlaces::of(alloc, all)?;
    let mut needs = Vec::new(alloc);
    for at in 0..import_count(all.types, all.world) {
        needs.push(needs_of_import(alloc, all, found, order, &mut places, at)?)?;
    }
    Ok(needs)
}

impl Order {
    fn new(alloc: Global, needs: Vec<Vec<usize>>, turns: Vec<Turn>) -> Result<Self, AllocError>
        ensures turns { IfOk result (λ o. o.turns ≡ turns) }
        ensures needs { IfOk result (λ o. o.needs ≡ needs) }
        ensures len { IfOk result (λ o. length o.begun.items ≡ length o.turns.items) }
        ensures none { IfOk result (λ o. (k : ℕ) → IsBegun o.begun.items k → ⊥) }
        ensures order { IfOk result (λ o. o.order.items ≡ []) }
    {
        let begun = none_begun(alloc, turns.len())?;
        Ok(Order {
            alloc,
            needs,
            turns,
            begun,
            order: Vec::new(alloc),
        })
    }

    /// Whether it is begun only now.
    fn begin(&mut self, at: usize) -> bool
        ensures begun { result ≡ true → Marks self.old.begun.items self.new.begun.items at }
        ensures not { result ≡ false → Leaves self.old.begun.items self.new.begun.items at }
        ensures order { self.new.order.items ≡ self.old.order.items }
        ensures turns { self.new.turns.items ≡ self.old.turns.items }
        ensures needs { self.new.needs.items ≡ self.old.needs.items }
    {
        if at < self.begun.len() && !self.begun[at] {
            self.begun[at] = true;
            true
        } else {
            false
        }
    }

    /// One of those that a place needs.
    fn need(&self, at: usize, which: usize) -> Option<usize>
        ensures { result ≡ slice_get (needs_at (lists_of self.now.needs.items) at) which }
    {
        match self.needs.get(at) {
            Some(needs) => needs.get(which).copied(),
            None => None,
        }
    }

    /// How many a place needs.
    fn need_count(&self, at: usize) -> usize
        ensures { result ≡ length (needs_at (lists_of self.now.needs.items) at) }
    {
        match self.needs.get(at) {
            Some(needs) => needs.len(),
            None => 0,
        }
    }

    /// Puts a place behind those that it needs. No path of needs is longer than there are places, so the depth that is
    /// left lasts.
    #[cycle(putting)]
    fn put(&mut self, at: usize, depth: usize) -> Result<(), AllocError>
        ensures puts { OnOk result (Puts self.old.begun.items self.new.begun.items self.old.order.items self.new.order.items) }
        ensures exactly { OnOk result (PutsPlaces depth (at ∷ []) self.old self.new) }
        ensures begun { OnOk result (0 < depth → at < length self.old.begun.items → IsBegun self.new.begun.items at) }
        ensures turns { self.new.turns.items ≡ self.old.turns.items }
        ensures needs { self.new.needs.items ≡ self.old.needs.items }
    {
        if depth == 0 || !self.begin(at) {
            return Ok(());
        }
        self.put_needs(at, depth - 1)?;
        self.order.push(at)?;
        Ok(())
    }

    /// Puts those that a place needs.
    #[cycle(putting)]
    fn put_needs(&mut self, at: usize, depth: usize) -> Result<(), AllocError>
        ensures puts { OnOk result (Puts self.old.begun.items self.new.begun.items self.old.order.items self.new.order.items) }
        ensures exactly { OnOk result (PutsPlaces depth (needs_at (lists_of self.old.needs.items) at) self.old self.new) }
        ensures turns { self.new.turns.items ≡ self.old.turns.items }
        ensures needs { self.new.needs.items ≡ self.old.needs.items }
    {
        for which in 0..self.need_count(at) {
            self.put_need(at, which, depth)?;
        }
        Ok(())
    }

    /// Puts one of those that a place needs.
    #[cycle(putting)]
    fn put_need(&mut self, at: usize, which: usize, depth: usize) -> Result<(), AllocError>
        ensures puts { OnOk result (Puts self.old.begun.items self.new.begun.items self.old.order.items self.new.order.items) }
        ensures exactly { OnOk result (PutsNeed at which depth self.old self.new) }
        ensures turns { self.new.turns.items ≡ self.old.turns.items }
        ensures needs { self.new.needs.items ≡ self.old.needs.items }
    {
        match self.need(at, which) {
            Some(need) => self.put(need, depth),
            None => Ok(()),
        }
    }

    /// Whether it is the turn of a place.
    fn is_turn(&self, at: usize, turn: Turn) -> bool
        ensures early { slice_get self.now.turns.items at ≡ Some turn → IsTrue result }
        ensures test { result ≡ has_turn self.now.turns.items turn at }
    {
        match self.turns.get(at) {
            Some(own) => same_turn(*own, turn),
            None => false,
        }
    }

    /// Puts a place in the order, if it is its turn.
    fn put_at(&mut self, turn: Turn, at: usize) -> Result<(), AllocError>
        ensures puts { OnOk result (Puts self.old.begun.items self.new.begun.items self.old.order.items self.new.order.items) }
        ensures exactly { OnOk result (PutsAt turn at self.old self.new) }
        ensures begun { OnOk result (IsDone self.old.turns.items turn self.old.begun.items self.new.begun.items at) }
        ensures turns { self.new.turns.items ≡ self.old.turns.items }
        ensures needs { self.new.needs.items ≡ self.old.needs.items }
    {
        if self.is_turn(at, turn) {
            let count = self.begun.len();
            self.put(at, count)
        } else {
            Ok(())
        }
    }

    /// Puts those in order whose turn it is.
    fn put_all(&mut self, turn: Turn) -> Result<(), AllocError>
        ensures puts { OnOk result (Puts self.old.begun.items self.new.begun.items self.old.order.items self.new.order.items) }
        ensures exactly { OnOk result (PutsTurn turn self.old self.new) }
        ensures begun { OnOk result (AreDone self.old.turns.items turn self.old.begun.items self.new.begun.items) }
        ensures turns { self.new.turns.items ≡ self.old.turns.items }
        ensures needs { self.new.needs.items ≡ self.old.needs.items }
    {
        for at in 0..self.begun.len() {
            self.put_at(turn, at)?;
        }
        Ok(())
    }

    /// Puts those in order whose turn is the first or the second; they alone are handed out.
    fn put_both(&mut self, first: Turn, second: Turn) -> Result<Vec<usize>, AllocError>
        ensures puts { IfOk result (λ v. Puts self.old.begun.items self.new.begun.items self.old.order.items v.items) }
        ensures exactly { IfOk result (λ v. PutsTurns first second self.old self.new.begun.items v.items) }
        ensures first { OnOk result (AreDone self.old.turns.items first self.old.begun.items self.new.begun.items) }
        ensures second { OnOk result (AreDone self.old.turns.items second self.old.begun.items self.new.begun.items) }
        ensures turns { self.new.turns.items ≡ self.old.turns.items }
        ensures needs { self.new.needs.items ≡ self.old.needs.items }
        ensures none { OnOk result (self.new.order.items ≡ []) }
    {
        self.put_all(first)?;
        self.put_all(second)?;
        let next = Vec::new(self.alloc);
        Ok(mem::replace(&mut self.order, next))
    }
}

/// Where the imports of a world stand, in the order in which they are written.
#[derive(Drop)]
pub struct ImportOrder {
    /// Resources under their own names, then instances and what is used of them, each behind what it uses itself. Of
    /// instances that use each other in a circle the one that is asked first comes last.
    pub sources: Vec<usize>,
    /// Other types, each behind those of which it is made, then what else there is.
    pub others: Vec<usize>,
}

/// Puts all in order: sources, and then the others.
fn put_sources_and_others(order: &mut Order) -> Result<ImportOrder, AllocError>
    requires len { length order.old.begun.items ≡ length order.old.turns.items }
    requires none { (k : ℕ) → IsBegun order.old.begun.items k → ⊥ }
    requires empty { order.old.order.items ≡ [] }
    requires needs { length order.old.needs.items ≡ length order.old.turns.items }
    ensures order { IfOk result (λ o. IsOrder (length order.old.turns.items) o.sources.items o.others.items) }
    ensures early { IfOk result (λ o. EarlyFirst order.old.turns.items o.sources.items) }
    ensures behind { IfOk result (λ o. IsBehindNeeds (lists_of order.old.needs.items) (o.sources.items ++ o.others.items)) }
{
    let sources = order.put_both(Turn::Fresh, Turn::Interfaces)?;
    let others = order.put_both(Turn::Types, Turn::Others)?;
    Ok(ImportOrder { sources, others })
}

/// The order in which imports are written.
pub(crate) fn order_of(
    alloc: Global,
    all: Importing<'_>,
    found: &NamedMap<usize>,
) -> Result<ImportOrder, AllocError>
    ensures order { IfOk result (λ o. IsOrder (length (all_imports all.entry)) o.sources.items o.others.items) }
    ensures sources { IfOk result (λ o. SourcesFirst all.entry o.sources.items) }
    ensures behind { IfOk result (λ o. SourcesBehind all.entry found.now (o.sources.items ++ o.others.items)) }
    ensures distinct { AreDistinct (names_of (all_imports all.entry)) }
{
    all.types.see_acyclic();
    let turns = turns_of(alloc, all, found)?;
    let needs = needs_of_imports(alloc, all, found)?;
    let mut order = Order::new(alloc, needs, turns)?;
    put_sources_and_others(&mut order)
}

/// So many places whose turn is the last.
fn last_turns(alloc: Global, count: usize) -> Result<Vec<Turn>, AllocError>
    ensures len { IfOk result (λ v. length v.items ≡ count) }
    ensures last { IfOk result (λ v. (k : ℕ) → k < count → slice_get v.items k ≡ Some TheTurn.Others) }
{
    let mut turns = Vec::new(alloc);
    for _at in 0..count {
        turns.push(Turn::Others)?;
    }
    Ok(turns)
}

/// Places one after another, but each behind those that it needs, which are given of each.
pub fn order_by_needs(alloc: Global, needs: Vec<Vec<usize>>) -> Result<Vec<usize>, AllocError>
    ensures order { IfOk result (λ v. IsOrder (length needs.items) [] v.items) }
    ensures listed { IfOk result (λ v. v.items ≡ places_in_order (lists_of needs.items)) }
    ensures behind { IfOk result (λ v. IsBehindNeeds (lists_of needs.items) v.items) }
{
    let turns = last_turns(alloc, needs.len())?;
    let mut order = Order::new(alloc, needs, turns)?;
    let all = order.put_both(Turn::Types, Turn::Others)?;
    Ok(all)
}

/// Where those of a list stand that an item uses.
pub fn needs_of_item(
    alloc: Global,
    types: &Types,
    found: &NamedMap<usize>,
    kind: ItemKind,
) -> Result<Vec<usize>, AllocError>
    ensures { IfOk result (λ v. UsePlaces types.now found.now (kind ∷ []) v.items) }
{
    let mut needs = Vec::new(alloc);
    add_needs(types, found, kind, &mut needs)?;
    Ok(needs)
}

/// Where the exports stand that the one at a place uses.
fn needs_of_export(
    alloc: Global,
    all: Importing<'_>,
    found: &NamedMap<usize>,
    at: usize,
) -> Result<Vec<usize>, AllocError>
    ensures { IfOk result (λ v. ItemUses all.entry.types.now (all_exports all.entry) found.now at v.items) }
{
    match world_export_at(all.types, all.world, at) {
        Some(item) => needs_of_item(alloc, all.types, found, item.kind),
        None => Ok(Vec::new(alloc)),
    }
}

/// Of each export, where those stand that it uses, by where they are found.
fn needs_found(
    alloc: Global,
    all: Importing<'_>,
    found: &NamedMap<usize>,
) -> Result<Vec<Vec<usize>>, AllocError>
    ensures { IfOk result (λ v. AllUses all.entry.types.now (all_exports all.entry) found.now (lists_of v.items)) }
{
    let mut needs = Vec::new(alloc);
    for at in 0..world_export_count(all.types, all.world) {
        needs.push(needs_of_export(alloc, all, found, at)?)?;
    }
    Ok(needs)
}

/// Of each export, where those stand that it uses.
fn needs_of_exports(alloc: Global, all: Importing<'_>) -> Result<Vec<Vec<usize>>, AllocError>
    ensures len { IfOk result (λ v. length v.items ≡ length (all_exports all.entry)) }
    ensures uses { IfOk result (λ v. HaveExportUses all.entry (lists_of v.items)) }
    ensures distinct { AreDistinct (names_of (all_exports all.entry)) }
{
    let mut found = NamedMap::new(alloc);
    add_export_places(alloc, all, &mut found)?;
    needs_found(alloc, all, &found)
}

/// The order in which exports are written: as they are listed, but each behind those that it uses.
pub(crate) fn export_order(alloc: Global, all: Importing<'_>) -> Result<Vec<usize>, AllocError>
    ensures order { IfOk result (λ v. IsOrder (length (all_exports all.entry)) [] v.items) }
    ensures listed { IfOk result (λ v. IsExportOrder all.entry v.items) }
    ensures distinct { AreDistinct (names_of (all_exports all.entry)) }
{
    let needs = needs_of_exports(alloc, all)?;
    order_by_needs(alloc, needs)
}
