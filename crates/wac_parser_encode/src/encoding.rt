//! Resolved documents as components.

ghost use Rattle.std.specs.Prelude.{◌≡◌, IfErr, IfOk, OnOk, Some};
ghost use Rattle.wac_graph_core.specs.Graph.{Graph};
ghost use Rattle.wac_graph_causes.specs.Acyclic.{IsNoCycle};
ghost use Rattle.wac_graph_encode.specs.Encoding.{HasTrueWorld};
ghost use Rattle.wac_graph_encode.specs.Finished.{MeansImported, MeansNested};
ghost use Rattle.wac_parser_refusals.specs.Views.{cause_of};
ghost use Rattle.wac_parser_resolve.specs.Resolved.{Places, graph_of, places_of};
ghost use Rattle.wac_parser_encode.specs.Processing.{IsProcessed, TellsSomeProcessor};
ghost use Rattle.wac_parser_encode.specs.Meaning.{HasResolvedWorld, ImportsResolved, MeansResolved};
ghost use Rattle.wac_parser_encode.specs.Refused.{CanBeEncoded, HasSource, RefusesResolved, TellsAnywhere, TellsSource, fault_in};

use std::alloc::{AllocError, Global};
use wac_graph_bytes::Processor;
use wac_graph_core::CompositionGraph;
use wac_graph_encode::{EncodeError, EncodeGraph, EncodeOptions, Encoded};
use wac_parser_refusals::{Error, ResolutionResult};
use wac_parser_resolve::Resolved;

/// What is said to have written a component where nothing else is said.
const PROCESSOR: &str = "wac-parser";

const VERSION: &str = "0.11.0";

/// The document's fault that a refusal of its graph is. No graph has a cycle.
fn fault_of<D>(resolution: &Resolved<'_, D>, fault: EncodeError) -> Error
    requires { IsNoCycle fault }
    ensures fault { cause_of result ≡ fault_in (places_of resolution.now) fault }
    ensures source { (g : Graph) → HasSource g fault → TellsSource g result }
{
    match fault {
        EncodeError::ImplicitImportConflict {
            import,
            instantiation,
            package,
            name,
        } => Error::ImportConflict {
            name,
            package,
            instantiation: resolution.asker_span(instantiation),
            import: resolution.import_span(import),
        },
        EncodeError::ExplicitImportConflict {
            name,
            first,
            second,
        } => Error::ExplicitImportConflict {
            name,
            span: resolution.import_span(second),
            previous: resolution.import_span(first),
        },
        EncodeError::ImportTypeMergeConflict {
            import,
            first,
            second,
            source,
        } => Error::InstantiationArgMergeFailure {
            name: import,
            span: resolution.asker_span(second),
            instantiation: resolution.asker_span(first),
            source,
        },
        EncodeError::TypeCannotBeWritten { name } => Error::TypeCannotBeWritten { name },
        EncodeError::TypeNotWritten => Error::TypeNotWritten,
        EncodeError::TooLarge => Error::TooLarge,
        EncodeError::ValidationFailure { source } => Error::ValidationFailure { source },
        EncodeError::GraphContainsCycle { .. } => unreachable!(),
        EncodeError::Memory => Error::Memory,
    }
}

/// The options, with a processor.
fn with_processor(alloc: Global, options: EncodeOptions) -> Result<EncodeOptions, AllocError>
    ensures { IfOk result (λ all. IsProcessed options all) }
{
    let EncodeOptions {
        define_components,
        validate,
        processor,
    } = options;
    let processor = match processor {
        Some(processor) => processor,
        None => Processor {
            name: String::from_str(alloc, PROCESSOR)?,
            version: String::from_str(alloc, VERSION)?,
        },
    };
    Ok(EncodeOptions {
        define_components,
        validate,
        processor: Some(processor),
    })
}

/// The component of a graph.
fn encoded_bytes(graph: &CompositionGraph, options: EncodeOptions) -> Result<Vec<u8>, EncodeError>
    ensures means { IfOk result (λ bytes. MeansNested graph.now options bytes.items) }
    ensures ascribed { IfOk result (λ bytes. MeansResolved graph.now options bytes.items) }
    ensures imports { IfOk result (λ bytes. MeansImported graph.now options bytes.items) }
    ensures imported { IfOk result (λ bytes. ImportsResolved graph.now options bytes.items) }
    ensures processor { IfOk result (λ bytes. TellsSomeProcessor options.processor bytes.items) }
    ensures free { OnOk result (CanBeEncoded graph.now options) }
    ensures acyclic { IfErr result IsNoCycle }
    ensures refused { IfErr result (TellsAnywhere graph.now options) }
    ensures source { IfErr result (HasSource graph.now) }
{
    graph.see_sound();
    graph.types().see_acyclic();
    match with_processor(graph.alloc(), options) {
        Ok(options) => graph.encode(options),
        Err(AllocError) => Err(EncodeError::Memory),
    }
}

/// The component of a graph, and its world in a collection of the second number.
fn encoded_world(
    graph: &CompositionGraph,
    options: EncodeOptions,
    numbers: (u64, u64),
) -> Result<Encoded, EncodeError>
    ensures means { IfOk result (λ e. MeansNested graph.now options e.bytes.items) }
    ensures ascribed { IfOk result (λ e. MeansResolved graph.now options e.bytes.items) }
    ensures imports { IfOk result (λ e. MeansImported graph.now options e.bytes.items) }
    ensures imported { IfOk result (λ e. ImportsResolved graph.now options e.bytes.items) }
    ensures number { IfOk result (λ e. e.types.number ≡ numbers.1) }
    ensures world { IfOk result (λ e. HasTrueWorld graph.now e.types e.world) }
    ensures resolved { IfOk result (λ e. HasResolvedWorld graph.now e.types e.world) }
    ensures processor { IfOk result (λ e. TellsSomeProcessor options.processor e.bytes.items) }
    ensures free { OnOk result (CanBeEncoded graph.now options) }
    ensures acyclic { IfErr result IsNoCycle }
    ensures refused { IfErr result (TellsAnywhere graph.now options) }
    ensures source { IfErr result (HasSource graph.now) }
{
    graph.see_sound();
    graph.types().see_acyclic();
    match with_processor(graph.alloc(), options) {
        Ok(options) => graph.encode_world(options, numbers),
        Err(AllocError) => Err(EncodeError::Memory),
    }
}

/// Encoding of resolved documents.
pub trait EncodeResolution {
    /// The graph of the document.
    ghost graph: { Self → Graph };

    /// Where its imports and instances stand in the document.
    ghost places: { Self → Places };

    /// The component of the graph.
    fn encode(&self, options: EncodeOptions) -> ResolutionResult<Vec<u8>>
        ensures means { IfOk result (λ bytes. MeansNested (graph self.now) options bytes.items) }
        ensures ascribed { IfOk result (λ bytes. MeansResolved (graph self.now) options bytes.items) }
        ensures imports { IfOk result (λ bytes. MeansImported (graph self.now) options bytes.items) }
        ensures imported { IfOk result (λ bytes. ImportsResolved (graph self.now) options bytes.items) }
        ensures processor { IfOk result (λ bytes. TellsSomeProcessor options.processor bytes.items) }
        ensures free { OnOk result (CanBeEncoded (graph self.now) options) }
        ensures refused { IfErr result (RefusesResolved (graph self.now) (places self.now) options) }
        ensures source { IfErr result (TellsSource (graph self.now)) };

    /// The component of the graph, and the world that is true of it, in a collection of the second number. The first is
    /// that of the collection in which imports are merged.
    fn encode_world(&self, options: EncodeOptions, numbers: (u64, u64)) -> ResolutionResult<Encoded>
        ensures means { IfOk result (λ e. MeansNested (graph self.now) options e.bytes.items) }
        ensures ascribed { IfOk result (λ e. MeansResolved (graph self.now) options e.bytes.items) }
        ensures imports { IfOk result (λ e. MeansImported (graph self.now) options e.bytes.items) }
        ensures imported { IfOk result (λ e. ImportsResolved (graph self.now) options e.bytes.items) }
        ensures number { IfOk result (λ e. e.types.number ≡ numbers.1) }
        ensures world { IfOk result (λ e. HasTrueWorld (graph self.now) e.types e.world) }
        ensures resolved { IfOk result (λ e. HasResolvedWorld (graph self.now) e.types e.world) }
        ensures processor { IfOk result (λ e. TellsSomeProcessor options.processor e.bytes.items) }
        ensures free { OnOk result (CanBeEncoded (graph self.now) options) }
        ensures refused { IfErr result (RefusesResolved (graph self.now) (places self.now) options) }
        ensures source { IfErr result (TellsSource (graph self.now)) };
}

impl<'d, D> EncodeResolution for Resolved<'d, D> {
    ghost graph = { graph_of };

    ghost places = { places_of };

    fn encode(&self, options: EncodeOptions) -> ResolutionResult<Vec<u8>> {
        match encoded_bytes(self.graph(), options) {
            Ok(bytes) => Ok(bytes),
            Err(fault) => Err(fault_of(self, fault)),
        }
    }

    fn encode_world(
        &self,
        options: EncodeOptions,
        numbers: (u64, u64),
    ) -> ResolutionResult<Encoded> {
        match encoded_world(self.graph(), options, numbers) {
            Ok(encoded) => Ok(encoded),
            Err(fault) => Err(fault_of(self, fault)),
        }
    }
}
