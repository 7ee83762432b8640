//! Laws over the definitions alone: each is the contract of a function without a body.

ghost use Rattle.std.specs.Prelude.{◌≡◌, List, [], ◌∷◌, ◌++◌};
ghost use Rattle.wac_types_base.specs.declared.item.ItemKind.{ItemKind};
ghost use Rattle.wac_types_base.specs.Record.{Collection};
ghost use Rattle.wac_types_base.specs.Tree.{Tree};
ghost use Rattle.wac_types_base.specs.Fits.{Fits};
ghost use Rattle.wac_types_fit.specs.Ordered.{InOrder};
ghost use Rattle.wac_types_fit.specs.Meets.{IsMeet, IsPlain};
ghost use Rattle.wac_types_fit.specs.Trees.{tree_in};
ghost use Rattle.wac_types_fit.specs.Frames.{Step, Disagree};

/// What fits what is an order on the trees of ids.
pub fn order_on_trees()
    ensures itself { (a : Tree) → Fits a a }
    ensures joined { (a b c : Tree) → Fits a b → Fits b c → Fits a c }
    ensures both_ways { (a b : Tree) → InOrder a → InOrder b → Fits a b → Fits b a → a ≡ b }
    ensures in_order { (c : Collection) (k : ItemKind) → InOrder (tree_in c k) }
{}

/// Two trees to which the steps of a refusal lead do not fit.
pub fn refusals_are_true()
    ensures { (ss : List Step) (a b : Tree) → InOrder a → InOrder b → Disagree ss a b → Fits a b → ⊥ }
{}

/// Two trees in order that a common tree fits have a greatest tree that fits both, where one of them has no component and
/// no module in it. There is at most one such tree, and that of several trees may be found one by one.
pub fn meets_of_plain_trees()
    ensures there_is_one { (a b x : Tree) → InOrder a → InOrder b → InOrder x → IsPlain a → Fits x a → Fits x b
        → (m : Tree) × IsMeet m (a ∷ b ∷ []) }
    ensures at_most_one { (m k : Tree) (ts : List Tree) → IsMeet m ts → IsMeet k ts → m ≡ k }
    ensures one_more { (k m u : Tree) (ts : List Tree) → IsMeet k ts → IsMeet m (k ∷ u ∷ []) → IsMeet m (ts ++ u ∷ []) }
{}
