//! The bytes and the world of a composition graph.

ghost use Rattle.std.specs.Prelude.{◌≡◌, [], None, IfOk, IfErr, OnOk, map, true, false};
ghost use Rattle.wac_types_base.specs.Entries.{names_of};
ghost use Rattle.wac_graph_bytes.specs.Views.{all_names_view, view};
ghost use Rattle.wac_graph_bytes.specs.Writing.{debug_if_fits};
ghost use Rattle.wac_graph_core.specs.Graph.{Graph};
ghost use Rattle.wac_graph_asks.specs.Asked.{IsAsked, KeepsAsked};
ghost use Rattle.wac_graph_asks.specs.AskedUses.{AskedStand, CopiesStand};
ghost use Rattle.wac_graph_asks.specs.Outers.{AnswersOuters};
ghost use Rattle.wac_graph_causes.specs.Acyclic.{IsNoCycle};
ghost use Rattle.wac_graph_causes.specs.Circling.{PackagesStand};
ghost use Rattle.wac_graph_causes.specs.Unwritable.{alias_cause};
ghost use Rattle.wac_graph_encode.specs.Beginning.{IsToBegin};
ghost use Rattle.wac_graph_encode.specs.Encoding.{HasTrueWorld, HasUnfit, TellsProcessor};
ghost use Rattle.wac_graph_encode.specs.Worlds.{IsToHandOut};
ghost use Rattle.wac_graph_encode.specs.Refused.{FitsProcessor, HasLargeProcessor, HasNoneAlike, HasNoneClashing, HasNoneFound, HasNoneUnwritten};
ghost use Rattle.wac_graph_encode.specs.Refused.{IsErrorFor, IsFree, IsRefusedFor, waiting_cause};
ghost use Rattle.wac_graph_encode.specs.Finished.{IfOfSize, UnfitAsked, UnfitWired};
ghost use Rattle.wac_graph_encode.specs.Finished.{AreSpelled, HasAllOf, IsPrepared, IsThere, MeansAsked, MeansImported, MeansNested, MeansWired, NestsSo, NestsWired};
ghost use Rattle.wac_graph_encode.specs.Finished.{PreparedHands, PreparedImports, PreparedMeans, PreparedWaits, RefusesPrepared};

use crate::error::BytesError;
use crate::forms::written_definitions;
use crate::instances::Wired;
use crate::options::{EncodeOptions, Encoded};
use crate::root::{Writing, write_root};
use crate::uses::uses_of_instances;
use crate::world::composed_world;
use std::alloc::{AllocError, Global};
use wac_graph_asks::asks::{Asked, Definition, asked_by};
use wac_graph_asks::outers::{Outers, outers_of};
use wac_graph_bytes::{
    Entry, SizeError, SortNames, push_component, push_debug_names, push_producers,
};
use wac_graph_causes::circles::check_circles;
use wac_graph_causes::error::{EncodeError, Refusal, error_of};
use wac_graph_causes::implicit::check_implicit;
use wac_graph_causes::names::check_names;
use wac_graph_causes::writable::check_writable;
use wac_graph_core::CompositionGraph;
use wac_graph_scopes::imports::Importing;
use wac_types_base::{NamedMap, Types, UsedType, WorldId};

/// The names for debuggers, or none where they do not fit in 32 bits: no component is refused for them.
fn names_that_fit(alloc: Global, names: Vec<SortNames>) -> Result<Vec<SortNames>, AllocError>
    ensures { IfOk result (λ ns. debug_if_fits (all_names_view ns.items) ≡ true) }
{
    let mut section = Vec::new(alloc);
    match push_debug_names(alloc, &mut section, &names) {
        Ok(()) => Ok(names),
        Err(SizeError::TooLarge) => Ok(Vec::new(alloc)),
        Err(SizeError::Memory) => Err(AllocError),
    }
}

/// That what is said to have written the component fits in 32 bits.
fn check_processor(alloc: Global, options: &EncodeOptions) -> Result<(), BytesError>
    ensures fits { OnOk result (FitsProcessor options.now) }
    ensures refused { IfErr result (IfOfSize (HasLargeProcessor options.now)) }
{
    let mut section = Vec::new(alloc);
    if let Some(processor) = options.processor.as_ref() {
        push_producers(alloc, &mut section, processor)?;
    }
    Ok(())
}

/// The bytes of a component of these entries.
fn bytes_of_entries(
    alloc: Global,
    entries: &[Entry],
    names: Vec<SortNames>,
    options: &EncodeOptions,
) -> Result<Vec<u8>, BytesError>
    ensures spelled { IfOk result (λ bytes. AreSpelled (map view entries.now) bytes.items) }
    ensures processor { IfOk result (λ bytes. TellsProcessor options.now.processor bytes.items) }
    ensures unfit { FitsProcessor options.now → IfErr result (IfOfSize (HasUnfit (map view entries.now))) }
{
    let names = names_that_fit(alloc, names)?;
    let mut bytes = Vec::new(alloc);
    let processor = options.processor.as_ref();
    push_component(alloc, &mut bytes, entries, processor, &names)?;
    Ok(bytes)
}

/// The bytes of a composition, where nothing of it is written yet.
fn bytes_wired(writing: Writing<'_>, wired: &mut Wired<'_>) -> Result<Vec<u8>, BytesError>
    requires places { wired.old.places.now ≡ writing.all.places.now }
    requires graph { wired.old.graph.now ≡ writing.graph.now }
    requires to { IsToBegin writing }
    requires all { HasAllOf writing.graph.now (names_of writing.worlds.now.entries) writing.definitions.now }
    ensures means { MeansWired writing.entry wired.old result }
    ensures nests { NestsWired writing.entry wired.old result }
    ensures processor { IfOk result (λ bytes. TellsProcessor writing.entry.options.now.processor bytes.items) }
    ensures unfit { UnfitWired writing.entry wired.old result }
{
    writing.graph.see_sound();
    writing.graph.types().see_acyclic();
    writing.all.types.see_acyclic();
    write_root(writing, &mut wired.root)?;
    let names = wired.write_all()?;
    let alloc = writing.graph.alloc();
    bytes_of_entries(alloc, &wired.root.entries, names, writing.options)
}

/// The bytes of a composition, of which these imports are used types.
fn bytes_with_uses(
    graph: &CompositionGraph,
    asked: &Asked,
    outers: &Outers,
    uses: &NamedMap<UsedType>,
    definitions: &[Definition],
    options: &EncodeOptions,
) -> Result<Vec<u8>, BytesError>
    requires there { IsThere graph.now asked.now outers.now definitions.now }
    requires all { HasAllOf graph.now (names_of asked.now.packages.entries) definitions.now }
    ensures means { MeansAsked graph.now asked.now outers.now definitions.now options.now result }
    ensures nests { NestsSo options.now.define_components graph.now (names_of asked.now.packages.entries) result }
    ensures processor { IfOk result (λ bytes. TellsProcessor options.now.processor bytes.items) }
    ensures unfit { UnfitAsked graph.now asked.now outers.now definitions.now options.now result }
{
    let all = Importing {
        types: &asked.types,
        world: outers.world,
        places: &outers.places,
        uses,
        over_exports: false,
    };
    let writing = Writing {
        graph,
        worlds: &asked.packages,
        all,
        definitions,
        options,
    };
    let mut wired = Wired::new(graph.alloc(), graph, &outers.places);
    bytes_wired(writing, &mut wired)
}

/// The bytes of a composition.
fn bytes_of(
    graph: &CompositionGraph,
    asked: &Asked,
    outers: &Outers,
    definitions: &[Definition],
    options: &EncodeOptions,
) -> Result<Vec<u8>, BytesError>
    requires there { IsThere graph.now asked.now outers.now definitions.now }
    requires all { HasAllOf graph.now (names_of asked.now.packages.entries) definitions.now }
    ensures means { MeansAsked graph.now asked.now outers.now definitions.now options.now result }
    ensures nests { NestsSo options.now.define_components graph.now (names_of asked.now.packages.entries) result }
    ensures processor { IfOk result (λ bytes. TellsProcessor options.now.processor bytes.items) }
    ensures unfit { UnfitAsked graph.now asked.now outers.now definitions.now options.now result }
{
    let uses = uses_of_instances(graph, asked)?;
    bytes_with_uses(graph, asked, outers, &uses, definitions, options)
}

/// The world of a composition, in a collection of this number.
fn world_of(
    graph: &CompositionGraph,
    types: &mut Types,
    outers: &Outers,
    definitions: &[Definition],
    number: u64,
) -> Result<(Types, WorldId), AllocError>
    requires { IsToHandOut graph.now types.old outers.now definitions.now }
    ensures number { IfOk result (λ p. p.0.number ≡ number) }
    ensures world { IfOk result (λ p. HasTrueWorld graph.now p.0 p.1) }
{
    let mut own = Types::new(graph.alloc(), number);
    let world = composed_world(graph, types, outers, definitions, &mut own)?;
    Ok((own, world))
}

/// The bytes of what is asked, and the definitions as they are written.
fn bytes_asked(
    graph: &CompositionGraph,
    options: &EncodeOptions,
    asked: &mut Asked,
    outers: &Outers,
) -> Result<(Vec<u8>, Vec<Definition>), Refusal>
    requires copies { CopiesStand asked.old.types asked.old.definitions.items }
    requires packages { PackagesStand asked.old.types asked.old.packages.entries }
    requires prepared { IsPrepared graph.now asked.old outers.now }
    requires aliases { alias_cause graph.now ≡ None }
    ensures means { IfOk result (λ p. PreparedMeans graph.now asked.old outers.now options.now p.0.items) }
    ensures imports { IfOk result (λ p. PreparedImports graph.now asked.old outers.now options.now p.0.items) }
    ensures processor { IfOk result (λ p. TellsProcessor options.now.processor p.0.items) }
    ensures waits { OnOk result (PreparedWaits graph.now asked.old outers.now options.now) }
    ensures apart { OnOk result (IsPrepared graph.now asked.old outers.now → HasNoneAlike options.now graph.now) }
    ensures ready { IfOk result (λ p. PreparedHands graph.now asked.old asked.new outers.now p.1.items) }
    ensures refused { IfErr result (RefusesPrepared graph.now asked.old outers.now options.now) }
{
    graph.see_sound();
    graph.types().see_acyclic();
    let alloc = graph.alloc();
    let definitions = written_definitions(alloc, &mut asked.types, &asked.definitions)?;
    check_circles(
        &mut asked.types,
        graph,
        outers,
        &asked.packages,
        &definitions,
        options.define_components,
    )?;
    check_processor(alloc, options)?;
    let bytes = bytes_of(graph, asked, outers, &definitions, options)?;
    check_names(
        alloc,
        graph,
        asked,
        outers,
        options.define_components,
        options.validate,
    )?;
    Ok((bytes, definitions))
}

/// The bytes and the world of what is asked and can be written.
fn encoded_asked(
    graph: &CompositionGraph,
    options: &EncodeOptions,
    asked: &mut Asked,
    outers: &Outers,
    number: u64,
) -> Result<Encoded, Refusal>
    requires copies { CopiesStand asked.old.types asked.old.definitions.items }
    requires prepared { IsPrepared graph.now asked.old outers.now }
    requires aliases { alias_cause graph.now ≡ None }
    ensures means { IfOk result (λ e. MeansNested graph.now options.now e.bytes.items) }
    ensures imports { IfOk result (λ e. MeansImported graph.now options.now e.bytes.items) }
    ensures processor { IfOk result (λ e. TellsProcessor options.now.processor e.bytes.items) }
    ensures waits { OnOk result (waiting_cause options.now graph.now ≡ None) }
    ensures apart { OnOk result (HasNoneAlike options.now graph.now) }
    ensures refused { IfErr result (λ e. HasNoneFound options.now graph.now → IsRefusedFor options.now graph.now e) }
    ensures number { IfOk result (λ e. e.types.number ≡ number) }
    ensures world { IfOk result (λ e. HasTrueWorld graph.now e.types e.world) }
{
    let (bytes, definitions) = bytes_asked(graph, options, asked, outers)?;
    let (types, world) = world_of(graph, &mut asked.types, outers, &definitions, number)?;
    Ok(Encoded {
        bytes,
        types,
        world,
    })
}

/// The outer imports of what is asked, if all of it can be written.
fn outers_checked(
    graph: &CompositionGraph,
    options: &EncodeOptions,
    asked: &mut Asked,
) -> Result<Outers, Refusal>
    requires { AskedStand asked.old.types asked.old.asks.items }
    ensures keeps { OnOk result (KeepsAsked asked.old asked.new) }
    ensures outers { IfOk result (AnswersOuters asked.old asked.new) }
    ensures free { OnOk result (IsAsked graph.now asked.old → HasNoneClashing graph.now) }
    ensures written { OnOk result (IsAsked graph.now asked.old → HasNoneUnwritten options.now graph.now) }
    ensures refused { IfErr result (λ e. IsAsked graph.now asked.old → IsRefusedFor options.now graph.now e) }
{
    let alloc = graph.alloc();
    check_implicit(alloc, graph, asked)?;
    let outers = outers_of(alloc, asked)?;
    check_writable(alloc, graph, asked, &outers, options.define_components)?;
    Ok(outers)
}

/// The bytes and the world of a graph.
fn encoded(
    graph: &CompositionGraph,
    options: &EncodeOptions,
    numbers: (u64, u64),
) -> Result<Encoded, Refusal>
    ensures means { IfOk result (λ e. MeansNested graph.now options.now e.bytes.items) }
    ensures imports { IfOk result (λ e. MeansImported graph.now options.now e.bytes.items) }
    ensures processor { IfOk result (λ e. TellsProcessor options.now.processor e.bytes.items) }
    ensures free { OnOk result (IsFree options.now graph.now) }
    ensures refused { IfErr result (IsRefusedFor options.now graph.now) }
    ensures number { IfOk result (λ e. e.types.number ≡ numbers.1) }
    ensures world { IfOk result (λ e. HasTrueWorld graph.now e.types e.world) }
{
    let mut asked = asked_by(graph.alloc(), graph, numbers.0)?;
    let outers = outers_checked(graph, options, &mut asked)?;
    encoded_asked(graph, options, &mut asked, &outers, numbers.1)
}

/// Two numbers that are not this one.
fn other_numbers(number: u64) -> (u64, u64) {
    match number {
        0 => (1, 2),
        1 => (0, 2),
        _ => (0, 1),
    }
}

/// Encoding of composition graphs.
pub trait EncodeGraph {
    /// The graph that is composed.
    ghost graph: { Self → Graph };

    /// The bytes of the composition.
    fn encode(&self, options: EncodeOptions) -> Result<Vec<u8>, EncodeError>
        ensures means { IfOk result (λ bytes. MeansNested (graph self.now) options bytes.items) }
        ensures imports { IfOk result (λ bytes. MeansImported (graph self.now) options bytes.items) }
        ensures processor { IfOk result (λ bytes. TellsProcessor options.processor bytes.items) }
        ensures free { OnOk result (IsFree options (graph self.now)) }
        ensures refused { IfErr result (IsErrorFor options (graph self.now)) }
        ensures acyclic { IfErr result IsNoCycle };

    /// The bytes of the composition, and the world that is true of them, in a collection of the second number. The
    /// first is that of the collection in which imports are merged.
    fn encode_world(
        &self,
        options: EncodeOptions,
        numbers: (u64, u64),
    ) -> Result<Encoded, EncodeError>
        ensures means { IfOk result (λ e. MeansNested (graph self.now) options e.bytes.items) }
        ensures imports { IfOk result (λ e. MeansImported (graph self.now) options e.bytes.items) }
        ensures processor { IfOk result (λ e. TellsProcessor options.processor e.bytes.items) }
        ensures free { OnOk result (IsFree options (graph self.now)) }
        ensures refused { IfErr result (IsErrorFor options (graph self.now)) }
        ensures number { IfOk result (λ e. e.types.number ≡ numbers.1) }
        ensures world { IfOk result (λ e. HasTrueWorld (graph self.now) e.types e.world) }
        ensures acyclic { IfErr result IsNoCycle };
}

impl EncodeGraph for CompositionGraph {
    ghost graph = { λ g. g };

    fn encode(&self, options: EncodeOptions) -> Result<Vec<u8>, EncodeError> {
        let numbers = other_numbers(self.types().number());
        match encoded(self, &options, numbers) {
            Ok(encoded) => Ok(encoded.bytes),
            Err(refusal) => Err(error_of(refusal)),
        }
    }

    fn encode_world(
        &self,
        options: EncodeOptions,
        numbers: (u64, u64),
    ) -> Result<Encoded, EncodeError> {
        match encoded(self, &options, numbers) {
            Ok(encoded) => Ok(encoded),
            Err(refusal) => Err(error_of(refusal)),
        }
    }
}
