//! How plugs are plugged into a socket, by their worlds alone.

ghost use Rattle.std.specs.Prelude.{◌≡◌, ◌∷◌, ◌++◌, [], All, IsTrue, ◌↔◌, IfOk, IfErr, OnOk, map};
ghost use Rattle.wac_types_base.specs.Graph.{Among};
ghost use Rattle.wac_types_base.specs.Stated.{imports_of, exports_of};
ghost use Rattle.wac_graph_plug.specs.Plugging.{AreMatchesOf};
ghost use Rattle.wac_graph_plug.specs.Plans.{world_in, WorldStands, imports_given, gives, Gives, GivesAll, IsGivenTwice, PlansOne, IsPlan, PlanRefused, FirstConflicts};

use crate::matching::{Match, matches_of};
use std::alloc::{AllocError, AllocFailed, Global};
use thiserror::Error;
use wac_types_base::{Types, WorldId, copy_world};

/// The number of a collection that no one sees.
const UNSEEN: u64 = u64::MAX;

/// A world in its collection.
#[derive(Clone, Copy)]
pub struct WorldIn<'a> {
    pub types: &'a Types,
    pub world: WorldId,
}

/// An export of a plug that is given to an import of the socket.
#[derive(Drop)]
pub struct Argument {
    /// Which of the plugs that have a match.
    pub plug: usize,
    pub given: Match,
}

/// How plugs are plugged.
#[derive(Drop)]
pub struct Plan {
    /// The places of the plugs that have a match, in order.
    pub plugs: Vec<usize>,
    /// In the order of the plugs, and of the exports of each.
    pub arguments: Vec<Argument>,
}

/// Why plugs are not plugged.
#[derive(Debug, Drop, Error)]
pub enum PlanError {
    /// Two exports are for one import of the socket.
    #[error("two plugs match import `{import}`")]
    PlugConflict { import: String },
    /// No export of a plug is for an import of the socket.
    #[error("no plug matches an import of the socket")]
    NoPlugHappened,
    #[error("out of memory")]
    Memory,
}

impl From<AllocError> for PlanError {
    ghost use Rattle.std.specs.Prelude.{◌≡◌};
    ghost use Rattle.wac_graph_plug.specs.declared.plan.PlanError.{PlanError};

    ghost from_gives = { λ _ e. e ≡ PlanError.Memory };

    fn from(_: AllocError) -> Self {
        PlanError::Memory
    }
}

impl<T: Drop> From<AllocFailed<T>> for PlanError {
    ghost use Rattle.std.specs.Prelude.{◌≡◌};
    ghost use Rattle.wac_graph_plug.specs.declared.plan.PlanError.{PlanError};

    ghost from_gives = { λ _ e. e ≡ PlanError.Memory };

    fn from(_: AllocFailed<T>) -> Self {
        PlanError::Memory
    }
}

/// The matches of a plug's exports with a socket's imports, in the order of the exports.
fn matches_between(
    alloc: Global,
    plug: WorldIn<'_>,
    socket: WorldIn<'_>,
) -> Result<Vec<Match>, AllocError>
    requires plug { WorldStands plug }
    requires socket { WorldStands socket }
    ensures { IfOk result
        (λ v. AreMatchesOf (imports_of (world_in socket.entry)) (exports_of (world_in plug.entry)) v.items) }
{
    let mut both = Types::new(alloc, UNSEEN);
    let mut adding = both.adding();
    let given = copy_world(alloc, plug.types, plug.world, &mut adding)?;
    let asked = copy_world(alloc, socket.types, socket.world, &mut adding)?;
    matches_of(alloc, &both, given, asked)
}

impl Plan {
    /// Nothing is plugged.
    fn new(alloc: Global) -> Self
        ensures plugs { result.plugs.items ≡ [] }
        ensures arguments { result.arguments.items ≡ [] }
    {
        Plan {
            plugs: Vec::new(alloc),
            arguments: Vec::new(alloc),
        }
    }

    /// Whether an import is given something.
    fn has_given(&self, import: &str) -> bool
        ensures { IsTrue result ↔ Among import.now (imports_given self.now.arguments.items) }
    {
        for argument in &self.arguments {
            if argument.given.import.is(import) {
                return true;
            }
        }
        false
    }

    /// Gives an export of a plug to the import that it is for.
    fn give(&mut self, alloc: Global, plug: usize, given: &Match) -> Result<(), PlanError>
        ensures given { OnOk result (Gives plug given.now self.old self.new) }
        ensures refused { IfErr result (IsGivenTwice (given.now ∷ []) self.old) }
    {
        if self.has_given(given.import.as_str()) {
            return Err(PlanError::PlugConflict {
                import: String::from_str(alloc, given.import.as_str())?,
            });
        }
        let given = given.copy()?;
        self.arguments.push(Argument { plug, given })?;
        Ok(())
    }

    /// Gives the exports of a plug to the imports that they are for.
    fn give_all(&mut self, alloc: Global, plug: usize, found: &[Match]) -> Result<(), PlanError>
        ensures given { OnOk result (GivesAll plug found.now self.old self.new) }
        ensures refused { IfErr result (IsGivenTwice found.now self.old) }
    {
        for given in found {
            self.give(alloc, plug, given)?;
        }
        Ok(())
    }

    /// Plugs the plug at a place, if it has a match.
    fn add(&mut self, alloc: Global, at: usize, found: &[Match]) -> Result<(), PlanError>
        ensures planned { OnOk result (PlansOne at found.now self.old self.new) }
        ensures refused { IfErr result (IsGivenTwice found.now self.old) }
    {
        if found.is_empty() {
            return Ok(());
        }
        let plug = self.plugs.len();
        self.plugs.push(at)?;
        self.give_all(alloc, plug, found)
    }
}

/// How these plugs are plugged into a socket.
///
/// # Errors
///
/// `PlugConflict` where two exports are for one import, `NoPlugHappened` where none is for any, `Memory`.
pub fn plan_of(alloc: Global, plugs: &[WorldIn<'_>], socket: WorldIn<'_>) -> Result<Plan, PlanError>
    requires plugs { All WorldStands plugs.now }
    requires socket { WorldStands socket }
    ensures plan { IfOk result (IsPlan (map world_in plugs.now) (world_in socket.entry)) }
    ensures refused { IfErr result (PlanRefused (map world_in plugs.now) (world_in socket.entry)) }
{
    let mut plan = Plan::new(alloc);
    for at in 0..plugs.len() {
        let found = matches_between(alloc, plugs[at], socket)?;
        plan.add(alloc, at, &found)?;
    }
    if plan.plugs.is_empty() {
        return Err(PlanError::NoPlugHappened);
    }
    Ok(plan)
}
