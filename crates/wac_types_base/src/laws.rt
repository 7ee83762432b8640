//! Laws over the definitions alone: each is the contract of a function without a body.

ghost use Rattle.std.specs.Prelude.{◌≡◌, Some};
ghost use Rattle.wac_types_base.specs.declared.item.ItemKind.{ItemKind};
ghost use Rattle.wac_types_base.specs.Record.{Collection};
ghost use Rattle.wac_types_base.specs.Graph.{Whole, Unfolds};
ghost use Rattle.wac_types_base.specs.Collection.{Shape, IsAcyclic, item_node, unfolding_of};

/// The unfolding of an item is the one that the relation has of it; of an acyclic collection it has no other.
pub fn unfoldings_are_related()
    ensures found { (c : Collection) (k : ItemKind) (t : Whole Shape) → unfolding_of c k ≡ Some t → Unfolds (item_node c) k t }
    ensures all { (c : Collection) (k : ItemKind) (t : Whole Shape) → IsAcyclic c → Unfolds (item_node c) k t
        → unfolding_of c k ≡ Some t }
{}
