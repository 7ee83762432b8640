//! Nested outputs: what bytes mean when they are read down to the components that were handed in,
//! and what every list of a workspace's steps keeps. Laws over the definitions alone: each is the
//! contract of a function without a body.
#![tactic(auto)]

ghost use Rattle.wac_nesting.specs.Laws.{Steps_carry, Worlds_exist, Reading_is_one, Substitution_replaces};

/// The bytes of each output, read down to the handed components, are the wiring that the sources
/// ascribe, with the own ascribed wiring of each earlier output in the place of each instance of it,
/// and each import of each handed component is bound once, to what fits it.
pub fn steps_carry()
    ensures { Steps_carry }
{}

/// There are worlds that are true of all packages of a workspace, since what an output's world
/// exports follows from its bytes.
pub fn worlds_exist()
    ensures { Worlds_exist }
{}

/// Bytes are read down to one wiring at most.
pub fn reading_is_one()
    ensures { Reading_is_one }
{}

/// An instance of a handed component is one leaf, and an instance of an output is a fresh copy of
/// its leaves.
pub fn substitution_replaces()
    ensures { Substitution_replaces }
{}
