//! Composing documents.

ghost use Rattle.std.specs.Prelude.{◌≡◌, ◌+◌, ◌<◌, All, IfOk, IfErr, OnErr, OnOk, IsErrOf, true};
ghost use Rattle.std.specs.Option.{option_copied, option_map};
ghost use Rattle.semver.specs.Identifiers.{parts_of};
ghost use Rattle.wac_types_base.specs.declared.item.ItemKind.{ItemKind};
ghost use Rattle.wac_types_base.specs.Collection.{Stands};
ghost use Rattle.wac_parser_tree.specs.Trees.{Document as Tree};
ghost use Rattle.wac_parser_tree.specs.Views.{view_document, view_package_name};
ghost use Rattle.wac_parser_resolve.specs.Meeting.{uses_are_named};
ghost use Rattle.wac_parser_resolve.specs.Knowing.{handed_list};
ghost use Rattle.wac_parser_resolve.specs.Resolved.{graph_of, places_of, target_of};
ghost use Rattle.wac_parser_resolve.specs.Targeting.{IsTarget};
ghost use Rattle.wac_graph_encode.specs.Finished.{MeansImported, MeansNested};
ghost use Rattle.wac_parser_encode.specs.Meaning.{HasResolvedWorld, ImportsResolved, MeansResolved};
ghost use Rattle.wac_parser_encode.specs.Processing.{TellsSomeProcessor};
ghost use Rattle.wac_parser_encode.specs.Refused.{CanBeEncoded};
ghost use Rattle.wac_workspace.specs.Composing.{greatest, ImportsSaid, ImportsSource, IsUnmade, IsOutput, IsGraphed, IsUnresolved, MeansSaid, MeansSource};
ghost use Rattle.wac_workspace.specs.Packages.{AreApart};
ghost use Rattle.wac_workspace.specs.View.{HasWorld};
ghost use Rattle.wac_workspace.specs.Resolving.{handed, says, Accepts, IsGraphOf, IsComposition, IsLate, IsOfResolving};
ghost use Rattle.wac_workspace.specs.Steps.{AreNext, IsPair, IsEncoded, IsUnmet, IsAfterwards, IsNamedOutput, IsOf, IsUnencoded, MeetsTargetOf};
ghost use Rattle.wac_types_base.specs.Stated.{stated_world};
ghost use Rattle.wac_workspace.specs.Targets.{Meets};

use crate::entries::{Entry, packages_of};
use crate::error::ComposeError;
use crate::output::Output;
use crate::workspace::Workspace;
use semver::Version;
use std::alloc::{AllocError, Global};
use wac_graph_core::CompositionGraph;
use wac_parser_encode::{EncodeOptions, EncodeResolution, Encoded};
use wac_parser_read::ParseDocument;
use wac_parser_resolve::{AstResolver, Error as ResolutionError, Packages, Resolved};
use wac_parser_tree::{Document, PackageDirective, PackageName};
use wac_types_base::{TargetError, Types, WorldId, copy_world};
use wac_types_fit::validate_target;

/// The number of a collection that no one sees.
const UNSEEN: u64 = u64::MAX;

/// The numbers of one composition, and the one behind them.
#[derive(Clone, Copy)]
struct Numbers {
    graph: u64,
    merging: u64,
    output: u64,
    after: u64,
}

/// The next three numbers.
fn numbers_from(next: u64) -> Result<Numbers, ComposeError>
    ensures next { IfOk result (AreNext next) }
    ensures exhausted { OnErr result (IsErrOf result ComposeError.NumbersExhausted × (greatest < next + 3)) }
{
    match next.checked_add(3) {
        None => Err(ComposeError::NumbersExhausted),
        Some(after) => Ok(Numbers {
            graph: next,
            merging: next + 1,
            output: next + 2,
            after,
        }),
    }
}

/// The same version again, if there is one.
fn version_again(version: Option<&Version>) -> Result<Option<Version>, AllocError>
    ensures { IfOk result (λ v. option_map parts_of v ≡ option_map parts_of (option_copied version.entry)) }
{
    match version {
        None => Ok(None),
        Some(version) => Ok(Some(version.clone()?)),
    }
}

/// The name of a directive's target; empty where it names none.
fn target_name<'a>(directive: &'a PackageDirective<'_>) -> &'a str {
    match &directive.targets {
        None => "",
        Some(path) => path.string,
    }
}

/// Two worlds in one collection.
#[derive(Drop)]
struct Pair {
    types: Types,
    target: WorldId,
    world: WorldId,
}

/// A target and the world of a component, of collections of their own, in one.
fn bring_together(
    alloc: Global,
    types: &Types,
    target: WorldId,
    encoded: &Encoded,
) -> Result<Pair, AllocError>
    requires target { Stands types.now (ItemKind.Component target) }
    requires component { Stands encoded.now.types (ItemKind.Component encoded.now.world) }
    ensures { IfOk result (IsPair types.now encoded.now.types target encoded.now.world) }
{
    let mut both = Types::new(alloc, UNSEEN);
    let mut adding = both.adding();
    let target = copy_world(alloc, types, target, &mut adding)?;
    let world = copy_world(alloc, &encoded.types, encoded.world, &mut adding)?;
    Ok(Pair {
        types: both,
        target,
        world,
    })
}

/// Tests a component against a target, named as the directive names it. The interfaces that the target uses have
/// identifiers: resolving the directive refuses another.
fn test_target(
    alloc: Global,
    name: &str,
    types: &Types,
    target: WorldId,
    encoded: &Encoded,
) -> Result<(), ComposeError>
    requires target { Stands types.now (ItemKind.Component target) }
    requires component { Stands encoded.now.types (ItemKind.Component encoded.now.world) }
    requires named { uses_are_named (stated_world types.now target) ≡ true }
    ensures met { OnOk result
        (Meets (stated_world types.now target) (stated_world encoded.now.types encoded.now.world)) }
    ensures unmet { IfErr result
        (IsUnmet (stated_world types.now target) (stated_world encoded.now.types encoded.now.world)) }
{
    let pair = bring_together(alloc, types, target, encoded)?;
    pair.types.see_acyclic();
    let met = match validate_target(alloc, &pair.types, pair.target, pair.world) {
        Ok(met) => met,
        Err(TargetError::Memory) => return Err(ComposeError::Memory),
        // which does not come: such a target is refused before, by this very cause
        Err(TargetError::UsedWithoutIdentifier) => {
            return Err(ComposeError::Resolution(ResolutionError::TypeCannotBeWritten {
                name: String::from_str(alloc, name)?,
            }))
        }
    };
    match met {
        Ok(()) => Ok(()),
        Err(report) => Err(ComposeError::Target(report)),
    }
}

/// The component of a resolved document, which meets its target of this name.
fn encode_resolved<'d, D: Drop>(
    resolution: Resolved<'d, D>,
    alloc: Global,
    numbers: Numbers,
    options: EncodeOptions,
    name: String,
) -> Result<Encoded, ComposeError>
    requires { IsTarget (graph_of resolution) (target_of resolution) }
    ensures encoded { IfOk result (IsEncoded numbers.output) }
    ensures means { IfOk result (λ e. MeansNested (graph_of resolution.entry) options e.bytes.items) }
    ensures imports { IfOk result (λ e. MeansImported (graph_of resolution.entry) options e.bytes.items) }
    ensures ascribed { IfOk result (λ e. MeansResolved (graph_of resolution.entry) options e.bytes.items) }
    ensures imported { IfOk result (λ e. ImportsResolved (graph_of resolution.entry) options e.bytes.items) }
    ensures processor { IfOk result (λ e. TellsSomeProcessor options.processor e.bytes.items) }
    ensures resolved { IfOk result (λ e. HasResolvedWorld (graph_of resolution.entry) e.types e.world) }
    ensures free { OnOk result (CanBeEncoded (graph_of resolution.entry) options) }
    ensures target { IfOk result (λ e. MeetsTargetOf (graph_of resolution.entry) (target_of resolution.entry) e.types e.world) }
    ensures late { IfErr result
        (IsAfterwards (graph_of resolution.entry) (places_of resolution.entry) (target_of resolution.entry) options) }
{
    let encoded = resolution.encode_world(options, (numbers.merging, numbers.output))?;
    if let Some(target) = resolution.target() {
        let types = resolution.graph().types();
        types.see_acyclic();
        test_target(alloc, name.as_str(), types, target, &encoded)?;
    }
    Ok(encoded)
}

/// The component of a document, which meets its target.
fn encode_document(
    document: &Document<'_>,
    alloc: Global,
    packages: &Packages<'_>,
    numbers: Numbers,
    options: EncodeOptions,
) -> Result<Encoded, ComposeError>
    requires validate { options.validate ≡ true }
    ensures encoded { IfOk result (IsEncoded numbers.output) }
    ensures means { IfOk result (λ e. MeansSaid options (says (view_document document.now) «packages».now) e.bytes.items) }
    ensures imports { IfOk result
        (λ e. ImportsSaid options (says (view_document document.now) «packages».now) e.bytes.items) }
    ensures processor { IfOk result (λ e. TellsSomeProcessor options.processor e.bytes.items) }
    ensures accepted { OnOk result (Accepts options.define_components (view_document document.now) «packages».now) }
    ensures composed { IfOk result (λ e. IsComposition (says (view_document document.now) «packages».now) e.types e.world) }
    ensures late { IfErr result (IsLate options (says (view_document document.now) «packages».now)) }
{
    let name = String::from_str(alloc, target_name(&document.directive))?;
    let resolution = AstResolver::new(document).resolve(alloc, packages, numbers.graph)?;
    encode_resolved(resolution, alloc, numbers, options, name)
}

/// A component under a name.
fn output_of(
    package: &PackageName<'_>,
    alloc: Global,
    encoded: Encoded,
) -> Result<Output, AllocError>
    ensures { IfOk result (IsNamedOutput (view_package_name «package».now) encoded) }
{
    let name = String::from_str(alloc, package.name)?;
    let version = version_again(package.version.as_ref())?;
    Ok(Output {
        bytes: encoded.bytes,
        types: encoded.types,
        world: encoded.world,
        name,
        version,
    })
}

/// The options, with names tested.
fn validated(options: EncodeOptions) -> EncodeOptions
    ensures { result ≡ record options { validate = true } }
{
    EncodeOptions {
        define_components: options.define_components,
        validate: true,
        processor: options.processor,
    }
}

/// What a document is composed to, by the next three numbers, and the number behind them.
fn compose_document(
    document: &Document<'_>,
    alloc: Global,
    packages: &Packages<'_>,
    next: u64,
    options: EncodeOptions,
) -> Result<(Output, u64), ComposeError>
    ensures output { IfOk result (λ r. IsOf next (view_package_name document.now.directive.«package») r.0) }
    ensures means { IfOk result
        (λ r. MeansSaid options (says (view_document document.now) «packages».now) r.0.bytes.items) }
    ensures imports { IfOk result
        (λ r. ImportsSaid options (says (view_document document.now) «packages».now) r.0.bytes.items) }
    ensures processor { IfOk result (λ r. TellsSomeProcessor options.processor r.0.bytes.items) }
    ensures accepted { OnOk result (Accepts options.define_components (view_document document.now) «packages».now) }
    ensures composed { IfOk result
        (λ r. IsComposition (says (view_document document.now) «packages».now) r.0.types r.0.world) }
    ensures after { IfOk result (λ r. r.1 ≡ next + 3) }
    ensures refused { IfErr result
        (IsUnencoded next options (says (view_document document.now) «packages».now)) }
{
    let numbers = numbers_from(next)?;
    let encoded = encode_document(document, alloc, packages, numbers, validated(options))?;
    let output = output_of(&document.directive.package, alloc, encoded)?;
    Ok((output, numbers.after))
}

/// The graph of a document over these packages.
fn document_graph(
    document: &Document<'_>,
    alloc: Global,
    packages: &Packages<'_>,
) -> Result<CompositionGraph, ComposeError>
    ensures number { IfOk result (λ g. g.types.number ≡ greatest) }
    ensures graph { IfOk result (IsGraphOf (says (view_document document.now) «packages».now)) }
    ensures refused { IfErr result (IsOfResolving (says (view_document document.now) «packages».now)) }
{
    let resolution = AstResolver::new(document).resolve(alloc, packages, UNSEEN)?;
    Ok(resolution.into_graph())
}

// A document is looked at and dropped by functions that are generic in its type, without its lifetime: a proof then need not
// take the whole tree of types apart.

/// Documents that are composed.
trait ComposeDocument: Sized + Drop {
    ghost stated: { Self → Tree };

    /// The document's graph over these packages.
    fn graph(
        &self,
        alloc: Global,
        packages: &Packages<'_>,
    ) -> Result<CompositionGraph, ComposeError>
        ensures number { IfOk result (λ g. g.types.number ≡ greatest) }
        ensures graph { IfOk result (IsGraphOf (says (stated self.now) «packages».now)) }
        ensures refused { IfErr result (IsOfResolving (says (stated self.now) «packages».now)) };

    /// What the document is composed to, by the next three numbers, and the number behind them.
    fn compose(
        &self,
        alloc: Global,
        packages: &Packages<'_>,
        next: u64,
        options: EncodeOptions,
    ) -> Result<(Output, u64), ComposeError>
        ensures output { IfOk result (λ r. IsOf next (stated self.now).directive.«package» r.0) }
        ensures means { IfOk result (λ r. MeansSaid options (says (stated self.now) «packages».now) r.0.bytes.items) }
        ensures imports { IfOk result (λ r. ImportsSaid options (says (stated self.now) «packages».now) r.0.bytes.items) }
        ensures processor { IfOk result (λ r. TellsSomeProcessor options.processor r.0.bytes.items) }
        ensures accepted { OnOk result (Accepts options.define_components (stated self.now) «packages».now) }
        ensures composed { IfOk result (λ r. IsComposition (says (stated self.now) «packages».now) r.0.types r.0.world) }
        ensures after { IfOk result (λ r. r.1 ≡ next + 3) }
        ensures refused { IfErr result
            (IsUnencoded next options (says (stated self.now) «packages».now)) };
}

impl<'s> ComposeDocument for Document<'s> {
    ghost stated = { view_document };

    fn graph(
        &self,
        alloc: Global,
        packages: &Packages<'_>,
    ) -> Result<CompositionGraph, ComposeError> {
        document_graph(self, alloc, packages)
    }

    fn compose(
        &self,
        alloc: Global,
        packages: &Packages<'_>,
        next: u64,
        options: EncodeOptions,
    ) -> Result<(Output, u64), ComposeError> {
        compose_document(self, alloc, packages, next, options)
    }
}

/// What a document that is handed over is composed to, by the next three numbers, and the number behind them.
fn compose_whole<D: ComposeDocument>(
    document: D,
    alloc: Global,
    packages: &Packages<'_>,
    next: u64,
    options: EncodeOptions,
) -> Result<(Output, u64), ComposeError>
    ensures output { IfOk result (λ r. IsOf next (D.stated document).directive.«package» r.0) }
    ensures means { IfOk result (λ r. MeansSaid options (says (D.stated document) «packages».now) r.0.bytes.items) }
    ensures imports { IfOk result (λ r. ImportsSaid options (says (D.stated document) «packages».now) r.0.bytes.items) }
    ensures processor { IfOk result (λ r. TellsSomeProcessor options.processor r.0.bytes.items) }
    ensures accepted { OnOk result (Accepts options.define_components (D.stated document) «packages».now) }
    ensures composed { IfOk result (λ r. IsComposition (says (D.stated document) «packages».now) r.0.types r.0.world) }
    ensures after { IfOk result (λ r. r.1 ≡ next + 3) }
    ensures refused { IfErr result (IsUnencoded next options (says (D.stated document) «packages».now)) }
{
    document.compose(alloc, packages, next, options)
}

/// The graph of a document that is handed over.
fn graph_of_whole<D: ComposeDocument>(
    document: D,
    alloc: Global,
    packages: &Packages<'_>,
) -> Result<CompositionGraph, ComposeError>
    ensures number { IfOk result (λ g. g.types.number ≡ greatest) }
    ensures graph { IfOk result (IsGraphOf (says (D.stated document) «packages».now)) }
    ensures refused { IfErr result (IsOfResolving (says (D.stated document) «packages».now)) }
{
    document.graph(alloc, packages)
}

/// What a source is composed to, by the next three numbers, over these packages, and the number behind.
#[tactic(auto, unfolding(crate::specs::Composing::MeansSource, crate::specs::Composing::ImportsSource))]
fn compose_source(
    source: &str,
    alloc: Global,
    packages: &Packages<'_>,
    next: u64,
    options: EncodeOptions,
) -> Result<(Output, u64), ComposeError>
    ensures output { IfOk result (λ r. IsOutput next (handed_list «packages».now) source.now options.define_components r.0) }
    ensures means { IfOk result
        (λ r. MeansSource options.define_components (handed_list «packages».now) source.now r.0.bytes.items) }
    ensures imports { IfOk result
        (λ r. ImportsSource options.define_components (handed_list «packages».now) source.now r.0.bytes.items) }
    ensures processor { IfOk result (λ r. TellsSomeProcessor options.processor r.0.bytes.items) }
    ensures after { IfOk result (λ r. r.1 ≡ next + 3) }
    ensures refused { IfErr result (IsUnmade next (handed_list «packages».now) source.now options) }
{
    let document: Document<'_> = ParseDocument::parse(alloc, source)?;
    compose_whole(document, alloc, packages, next, options)
}

/// The same over the packages of these entries.
fn compose_over(
    source: &str,
    alloc: Global,
    entries: &[Entry],
    next: u64,
    options: EncodeOptions,
) -> Result<(Output, u64), ComposeError>
    requires worlds { All HasWorld entries.now }
    requires apart { AreApart entries.now }
    ensures output { IfOk result (λ r. IsOutput next (handed entries.now) source.now options.define_components r.0) }
    ensures means { IfOk result (λ r. MeansSource options.define_components (handed entries.now) source.now r.0.bytes.items) }
    ensures imports { IfOk result
        (λ r. ImportsSource options.define_components (handed entries.now) source.now r.0.bytes.items) }
    ensures processor { IfOk result (λ r. TellsSomeProcessor options.processor r.0.bytes.items) }
    ensures after { IfOk result (λ r. r.1 ≡ next + 3) }
    ensures refused { IfErr result (IsUnmade next (handed entries.now) source.now options) }
{
    let packages = packages_of(alloc, entries)?;
    compose_source(source, alloc, &packages, next, options)
}

/// The graph of a source over these packages.
fn source_graph(
    source: &str,
    alloc: Global,
    packages: &Packages<'_>,
) -> Result<CompositionGraph, ComposeError>
    ensures number { IfOk result (λ g. g.types.number ≡ greatest) }
    ensures graph { IfOk result (IsGraphed (handed_list «packages».now) source.now) }
    ensures refused { IfErr result (IsUnresolved (handed_list «packages».now) source.now) }
{
    let document: Document<'_> = ParseDocument::parse(alloc, source)?;
    graph_of_whole(document, alloc, packages)
}

impl Workspace {
    ghost use Rattle.std.specs.Prelude.{◌≡◌, IfOk, IfErr, OnErr};
    ghost use Rattle.wac_workspace.specs.Resolving.{handed};
    ghost use Rattle.wac_workspace.specs.Composing.{greatest, ComposesSource, IsRefused, IsGraphed, IsUnresolved};

    /// The graph of the document that the source is, over the packages: to look at, with nothing registered. The number of
    /// its collection is the greatest `u64`, which no output has.
    pub fn graph(&self, source: &str) -> Result<CompositionGraph, ComposeError>
        ensures number { IfOk result (λ g. g.types.number ≡ greatest) }
        ensures graph { IfOk result (IsGraphed (handed self.now.packages) source.now) }
        ensures refused { IfErr result (IsUnresolved (handed self.now.packages) source.now) }
    {
        let packages = packages_of(self.alloc, &self.entries)?;
        source_graph(source, self.alloc, &packages)
    }

    /// Composes the component of the document that the source is. With components defined it is registered under the
    /// directive's key, and later sources may instantiate it. Names are tested whatever the options say. Spans of faults
    /// are offsets in the source, in bytes.
    pub fn compose(&mut self, source: &str, options: EncodeOptions) -> Result<Output, ComposeError>
        ensures composed { IfOk result (ComposesSource self.old self.new source.now options) }
        ensures refused { IfErr result (IsRefused self.old source.now options) }
        ensures kept { OnErr result (self.new ≡ self.old) }
    {
        let define = options.define_components;
        let (output, after) = compose_over(source, self.alloc, &self.entries, self.next, options)?;
        if define {
            self.register(&output)?;
        }
        self.next = after;
        Ok(output)
    }
}
