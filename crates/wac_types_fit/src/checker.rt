//! The checker that callers hold.

ghost use Rattle.std.specs.Prelude.{◌≡◌, IfOk, OnOk, ◌<◌, ◌+◌, ◌-◌, ◌^◌};
ghost use Rattle.std.specs.Bool.{Decides};
ghost use Rattle.wac_types_base.specs.Collection.{Stands};
ghost use Rattle.wac_types_fit.specs.Frames.{Disagree};
ghost use Rattle.wac_types_fit.specs.Errors.{IfMismatch, IfSaid};
ghost use Rattle.wac_types_fit.specs.Words.{Called, CalledUnder};
ghost use Rattle.wac_types_fit.specs.Trees.{tree_in, Fit, OneOrApart};
ghost use Rattle.wac_types_fit.specs.Checking.{HasPair, IsTrueOf, OnlyTrue};
ghost use Rattle.wac_types_fit.specs.Directions.{direction_of};

use crate::cache::{Cache, new_cache};
use crate::check::{Sides, fits};
use crate::error::SubtypeError;
use std::alloc::{AllocError, Global};
use wac_types_base::{ItemKind, Types};

/// A direction of checking: which side's item is called the expected one.
#[derive(Clone, Copy, Debug, PartialEq, Eq, Hash)]
pub enum SubtypeCheck {
    Covariant,
    Contravariant,
}

/// A checker over a cache of pairs that are known to fit.
#[derive(Drop)]
pub struct SubtypeChecker<'a> {
    alloc: Global,
    cache: &'a mut Cache,
    directions: u32,
}

impl<'a> SubtypeChecker<'a> {
    /// A checker with no direction set: it is covariant.
    pub fn new(alloc: Global, cache: &'a mut Cache) -> Self
        ensures cache { result.cache.now ≡ cache.entry.now }
        ensures none { result.directions ≡ 0 }
        ensures same_reference { result.cache.ghost_name ≡ cache.entry.ghost_name }
    {
        SubtypeChecker {
            alloc,
            cache,
            directions: 0,
        }
    }

    /// How many directions are set.
    pub fn directions(&self) -> u32
        ensures { result ≡ self.now.directions }
    {
        self.directions
    }

    /// The direction now.
    fn direction(&self) -> SubtypeCheck
        ensures { result ≡ direction_of self.now.directions }
    {
        if self.directions % 2 == 0 {
            SubtypeCheck::Covariant
        } else {
            SubtypeCheck::Contravariant
        }
    }

    /// Sets the other direction, and answers the one before.
    pub fn invert(&mut self) -> SubtypeCheck
        requires { self.old.directions + 1 < 2 ^ 32 }
        ensures before { result ≡ direction_of self.old.directions }
        ensures set { self.new.directions ≡ self.old.directions + 1 }
        ensures cache { self.new.cache.now ≡ self.old.cache.now }
        ensures same_reference { self.new.cache.ghost_name ≡ self.old.cache.ghost_name }
    {
        let before = self.direction();
        self.directions += 1;
        before
    }

    /// Takes away the direction that was set last.
    pub fn revert(&mut self)
        requires { 0 < self.old.directions }
        ensures set { self.new.directions ≡ self.old.directions - 1 }
        ensures cache { self.new.cache.now ≡ self.old.cache.now }
        ensures same_reference { self.new.cache.ghost_name ≡ self.old.cache.ghost_name }
    {
        self.directions -= 1;
    }

    /// Whether `a` fits `b`. Pairs that are found to fit are remembered.
    pub fn is_subtype(
        &mut self,
        a: ItemKind,
        at: &Types,
        b: ItemKind,
        bt: &Types,
    ) -> Result<(), SubtypeError>
        requires given { Stands at.now a }
        requires asked { Stands bt.now b }
        requires apart { OneOrApart at.now bt.now }
        ensures yes { OnOk result (IsTrueOf at.now bt.now self.old.cache.now.keys → Fit at.now a bt.now b) }
        ensures no { IfMismatch result (λ ss. Fit at.now a bt.now b → ⊥) }
        ensures frames { IfMismatch result (λ ss. Disagree ss (tree_in at.now a) (tree_in bt.now b)) }
        ensures words { IfSaid result (λ ss e f. CalledUnder (direction_of self.old.directions) (Called at.now a ss)
            (Called bt.now b ss) e f) }
        ensures remembered { OnOk result (HasPair self.new.cache.now.keys a b) }
        ensures only { IsTrueOf at.now bt.now self.old.cache.now.keys
            → OnlyTrue at.now bt.now self.old.cache.now.keys self.new.cache.now.keys }
        ensures cache { IsTrueOf at.now bt.now self.old.cache.now.keys → IsTrueOf at.now bt.now self.new.cache.now.keys }
        ensures direction { self.new.directions ≡ self.old.directions }
        ensures same_reference { self.new.cache.ghost_name ≡ self.old.cache.ghost_name }
    {
        let turned = self.directions % 2 == 1;
        let sides = Sides {
            given: at,
            asked: bt,
            turned,
        };
        fits(sides, self.alloc, self.cache, a, b)
    }
}

/// Whether one item of a collection fits another. No pair is remembered.
pub fn is_subtype(
    alloc: Global,
    types: &Types,
    a: ItemKind,
    b: ItemKind,
) -> Result<bool, AllocError>
    requires given { Stands types.now a }
    requires asked { Stands types.now b }
    ensures { IfOk result (λ yes. Decides yes (Fit types.now a types.now b)) }
{
    let mut cache = new_cache(alloc);
    let mut checker = SubtypeChecker::new(alloc, &mut cache);
    match checker.is_subtype(a, types, b, types) {
        Ok(()) => Ok(true),
        Err(SubtypeError::Memory) => Err(AllocError),
        Err(SubtypeError::Mismatch { .. }) => Ok(false),
    }
}
