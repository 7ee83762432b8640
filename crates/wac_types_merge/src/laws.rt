//! Laws over the definitions alone: each is the contract of a function without a body.

ghost use Rattle.std.specs.Prelude.{ℕ, List, [], ◌∷◌, ◌++◌};
ghost use Rattle.wac_types_merge.specs.Imports.{Imports, AreSound};
ghost use Rattle.wac_types_merge.specs.Merging.{Ask, IsAsked};
ghost use Rattle.wac_types_merge.specs.Lists.{Merges, none_yet};

/// A list of asks, each accepted by what those before it left, merges to what is left in the end: so any loop of
/// `aggregate` does what `aggregate_all` does.
pub fn asks_merge_in_turn()
    ensures none { (number : ℕ) → Merges [] (none_yet number) }
    ensures one_more { (asks : List Ask) (a : Ask) (g h : Imports) → AreSound g → AreSound h
        → Merges asks g → IsAsked g a h → Merges (asks ++ a ∷ []) h }
{}
