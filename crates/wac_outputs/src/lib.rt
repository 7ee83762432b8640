//! What the outputs of a workspace mean through every level of nesting. Definitions and one law over them, which is the
//! contract of a function without a body.
#![tactic(auto)]

ghost use Rattle.wac_outputs.specs.Calls.{Outputs_are_as_ascribed};

/// Whatever components are handed to a workspace and whatever sources it composes: the bytes of each output, read down to
/// the handed components, mean the wiring that its text ascribes, with the ascribed wiring of each earlier output in the
/// place of each instance of it; and each import of each handed component is bound once, to what fits.
pub fn outputs_are_as_ascribed()
    ensures { Outputs_are_as_ascribed }
{}
