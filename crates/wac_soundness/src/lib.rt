//! Graphs are sound, and the world that is handed out with their bytes is true of what these mean. Laws alone: each is
//! the contract of a function without a body.
#![tactic(auto)]

ghost use Rattle.wac_soundness.specs.Sound.{GraphsAreSound};
ghost use Rattle.wac_soundness.specs.Wired.{GraphsAreWired};
ghost use Rattle.wac_soundness.specs.Encoded.{EncodedWorldsAreTrue};

/// The composition of each graph is sound: what is passed to an instance is there, fits and leads to no circle, exports have
/// their types, and asks are straight. So, where its asks are met, each import of each instance is bound once, to what fits
/// it, and the world of the composition is true of the graph's wiring.
pub fn graphs_are_sound()
    ensures sound { GraphsAreSound }
    ensures wired { GraphsAreWired }
{}

/// The world that `encode_world` hands out is true of what the bytes mean, in all worlds that are true of the packages, whether
/// these are nested or imported; and each import of each instance is bound once, to what fits it.
pub fn encoded_worlds_are_true()
    ensures { EncodedWorldsAreTrue }
{}
