//! Arguments of instantiations.

ghost use Rattle.std.specs.Prelude.{◌≡◌, ◌≢◌, ℕ, Some, IfOk, IfErr, OnOk, OnErr, MatchOption};
ghost use Rattle.std.specs.Option.{option_copied};
ghost use Rattle.wac_types_base.specs.Collection.{Stands};
ghost use Rattle.wac_types_fit.specs.Trees.{OneOrApart};
ghost use Rattle.wac_graph_core.specs.Graph.{ContainsNode, IsArgument, IsStatedImport, instantiated};
ghost use Rattle.wac_graph_core.specs.Steps.{NodeFits, SetsArgument, UnsetsArgument};
ghost use Rattle.wac_graph_core.specs.Refusals.{ArgumentRefused, LacksImport, TellsMismatch, NodeMismatches, WrittenFits, WrittenMismatches};

use crate::edge::{Follow, reached_from};
use crate::error::InstantiationArgumentError;
use crate::graph::CompositionGraph;
use crate::ids::NodeId;
use std::alloc::{AllocError, Global};
use wac_types_base::copy::copy_item;
use wac_types_base::{ItemKind, Types};
use wac_types_fit::{SubtypeChecker, SubtypeError, new_cache};
use wac_types_names::Package;
use wac_types_written::written_definition;

/// Why one kind may not be given where another is asked, if it may not.
fn mismatch(
    alloc: Global,
    given_types: &Types,
    given: ItemKind,
    types: &Types,
    asked: ItemKind,
) -> Result<Option<SubtypeError>, AllocError>
    requires given { Stands given_types.now given }
    requires asked { Stands types.now asked }
    requires apart { OneOrApart given_types.now types.now }
    ensures { IfOk result (TellsMismatch given_types.now given types.now asked) }
{
    let mut cache = new_cache(alloc);
    let mut checker = SubtypeChecker::new(alloc, &mut cache);
    match checker.is_subtype(given, given_types, asked, types) {
        Ok(()) => Ok(None),
        Err(SubtypeError::Memory) => Err(AllocError),
        Err(
            SubtypeError::Mismatch {
                frames,
                expected,
                found,
            },
        ) => Ok(Some(SubtypeError::Mismatch {
            frames,
            expected,
            found,
        })),
    }
}

/// Another number than that.
fn another(number: u64) -> u64
    ensures { result ≢ number }
{
    if number == 0 { 1 } else { 0 }
}

/// Why the form in which a definition of one item is written does not fit another, if it does not.
fn written_mismatch(
    alloc: Global,
    types: &Types,
    given: ItemKind,
    asked: ItemKind,
) -> Result<Option<SubtypeError>, AllocError>
    requires given { Stands types.now given }
    requires asked { Stands types.now asked }
    ensures { IfOk result (λ o. MatchOption o (WrittenFits types.now given asked) (WrittenMismatches types.now given asked)) }
{
    types.see_acyclic();
    let mut own = Types::new(alloc, another(types.number()));
    let copy = copy_item(alloc, types, given, &mut own)?;
    own.see_acyclic();
    let form = written_definition(alloc, &mut own, copy)?;
    let fault = mismatch(alloc, &own, form, types, asked)?;
    Ok(fault)
}

impl CompositionGraph {
    /// The package that a node is an instance of.
    pub(crate) fn instantiated(&self, node: NodeId) -> Option<&Package>
        requires { ContainsNode self.now node }
        ensures { option_copied result ≡ instantiated self.now node }
    {
        match self.node(node).package() {
            Some(package) => self.get_package(package),
            None => None,
        }
    }

    /// What an import of an instantiation asks for.
    pub(crate) fn argument_item(
        &self,
        instantiation: NodeId,
        name: &str,
    ) -> Result<ItemKind, InstantiationArgumentError>
        requires { ContainsNode self.now instantiation }
        ensures found { IfOk result (λ item. IsArgument self.now instantiation name.now item) }
        ensures asked { IfOk result (λ item. IsStatedImport self.now instantiation name.now item) }
        ensures stands { IfOk result (λ item. Stands self.now.types item) }
        ensures refused { (a : ℕ) → IfErr result (λ e. ArgumentRefused self.now instantiation name.now a e) }
        ensures lacks { IfErr result (λ e. LacksImport self.now instantiation name.now e) }
    {
        self.see_sound();
        let package = match self.instantiated(instantiation) {
            Some(package) => package,
            None => {
                return Err(InstantiationArgumentError::NodeIsNotAnInstantiation {
                    node: instantiation,
                });
            }
        };
        match self.types.world(package.ty()).imports.get(name) {
            Some(item) => Ok(*item),
            None => Err(InstantiationArgumentError::InvalidArgumentName {
                node: instantiation,
                name: String::from_str(self.alloc, name)?,
                package: String::from_str(self.alloc, package.name())?,
            }),
        }
    }

    /// Why a node may not be passed where that is asked, if it may not: a definition is compared as it is written.
    fn node_mismatch(
        &self,
        node: NodeId,
        asked: ItemKind,
    ) -> Result<Option<SubtypeError>, AllocError>
        requires node { ContainsNode self.now node }
        requires asked { Stands self.now.types asked }
        ensures { IfOk result (λ o. MatchOption o (NodeFits self.now node asked) (NodeMismatches self.now node asked)) }
    {
        self.see_sound();
        let given = self.node(node);
        let item = given.item_kind();
        if given.is_definition() {
            let fault = written_mismatch(self.alloc, &self.types, item, asked)?;
            return Ok(fault);
        }
        let fault = mismatch(self.alloc, &self.types, item, &self.types, asked)?;
        Ok(fault)
    }

    /// Passes a node to an instantiation.
    pub fn set_instantiation_argument(
        &mut self,
        instantiation: NodeId,
        name: &str,
        argument: NodeId,
    ) -> Result<(), InstantiationArgumentError>
        requires instantiation { ContainsNode self.old instantiation }
        requires argument { ContainsNode self.old argument }
        ensures set { OnOk result (SetsArgument self.old self.new instantiation name.now argument) }
        ensures refused { IfErr result (λ e. ArgumentRefused self.old instantiation name.now argument e) }
        ensures kept { OnErr result (self.new ≡ self.old) }
    {
        let item = self.argument_item(instantiation, name)?;
        let own = String::from_str(self.alloc, name)?;
        if let Some(passed) = self.edges.argument(instantiation, &own) {
            if passed.index() == argument.index() {
                return Ok(());
            }
            return Err(InstantiationArgumentError::ArgumentAlreadyPassed {
                node: instantiation,
                name: own,
            });
        }
        if let Some(source) = self.node_mismatch(argument, item)? {
            return Err(InstantiationArgumentError::ArgumentTypeMismatch { name: own, source });
        }
        let seen = reached_from(self.alloc, &self.edges, Follow::Flow, instantiation)?;
        if seen.has(argument) {
            return Err(InstantiationArgumentError::WouldFormCycle {
                node: instantiation,
            });
        }
        self.edges.add_argument(argument, instantiation, own)?;
        Ok(())
    }

    /// Takes an argument back; one that isn't passed is no fault.
    pub fn unset_instantiation_argument(
        &mut self,
        instantiation: NodeId,
        name: &str,
        argument: NodeId,
    ) -> Result<(), InstantiationArgumentError>
        requires { ContainsNode self.old instantiation }
        ensures unset { OnOk result (UnsetsArgument self.old self.new instantiation name.now argument) }
        ensures refused { IfErr result (λ e. LacksImport self.old instantiation name.now e) }
        ensures kept { OnErr result (self.new ≡ self.old) }
    {
        self.argument_item(instantiation, name)?;
        let own = String::from_str(self.alloc, name)?;
        self.edges.remove_argument(argument, instantiation, own);
        Ok(())
    }
}
