//! What a run of the program leaves behind means, through every level of nesting. Definitions and one law over them, which is
//! the contract of a function without a body.
#![tactic(auto)]

ghost use Rattle.wac_runs.specs.Levels.{Runs_are_as_ascribed};

/// Whatever manifest a run composes with its packages nested: the bytes of each output, which stand in its file or in its
/// line, read down to the components of the manifest, mean the wiring that the texts say.
pub fn runs_are_as_ascribed()
    ensures { Runs_are_as_ascribed }
{}
