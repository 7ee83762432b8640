//! Equality and hashes of the containers: those of the lists that they are seen as. The order counts.

ghost use Rattle.std.specs.Prelude.{◌≡◌, IsTrue, ◌↔◌, ◌==◌};

use crate::containers::{Items, NamedMap, Names, Text};
use crate::core_types::CoreImports;
use std::hash::{Hash, Hasher};

impl PartialEq for Text {
    ghost use Rattle.wac_types_base.specs.Equal.{same_text, same_text_equiv};
    ghost use Rattle.std.specs.Cmp.{partial_equiv_from_equiv};

    ghost eq = { same_text };

    ghost laws = { partial_equiv_from_equiv same_text_equiv };

    fn eq(&self, other: &Self) -> bool {
        self.as_str() == other.as_str()
    }
}

impl Eq for Text {
    ghost use Rattle.wac_types_base.specs.Equal.{same_text_equiv};

    ghost laws = { same_text_equiv };
}

impl Hash for Text {
    ghost use Rattle.wac_types_base.specs.Equal.{fed_text, fed_text_alike};

    ghost hash_input = { fed_text };

    ghost respects_eq = { fed_text_alike.fed };

    fn hash<H: Hasher>(&self, state: &mut H) {
        self.as_str().hash(state);
    }
}

impl<T: PartialEq> PartialEq for Items<T> {
    ghost use Rattle.std.specs.Cmp.Lexicographic.{pointwise, lists_per};

    ghost eq = { pointwise T.eq };

    ghost laws = { lists_per T.laws };

    fn eq(&self, other: &Self) -> bool {
        self.as_slice() == other.as_slice()
    }
}

impl<T: Eq> Eq for Items<T> {
    ghost use Rattle.std.specs.Cmp.Lexicographic.{lists_equiv};

    ghost laws = { lists_equiv T.Eq.laws };
}

impl<T: Hash> Hash for Items<T> {
    ghost use Rattle.wac_types_base.specs.Equal.{fed_items, fed_items_alike};

    ghost hash_input = { fed_items T.hash_input };

    ghost respects_eq = { (fed_items_alike (record { fed = T.respects_eq })).fed };

    fn hash<H: Hasher>(&self, state: &mut H) {
        self.as_slice().hash(state);
    }
}

impl PartialEq for Names {
    ghost use Rattle.wac_types_base.specs.Equal.{same_names, same_names_equiv};
    ghost use Rattle.std.specs.Cmp.{partial_equiv_from_equiv};

    ghost eq = { same_names };

    ghost laws = { partial_equiv_from_equiv same_names_equiv };

    fn eq(&self, other: &Self) -> bool {
        self.as_slice() == other.as_slice()
    }
}

impl Eq for Names {
    ghost use Rattle.wac_types_base.specs.Equal.{same_names_equiv};

    ghost laws = { same_names_equiv };
}

impl Hash for Names {
    ghost use Rattle.wac_types_base.specs.Equal.{fed_names, fed_names_alike};

    ghost hash_input = { fed_names };

    ghost respects_eq = { fed_names_alike.fed };

    fn hash<H: Hasher>(&self, state: &mut H) {
        self.as_slice().hash(state);
    }
}

impl<T: PartialEq> PartialEq for NamedMap<T> {
    ghost use Rattle.wac_types_base.specs.Equal.{same_map, same_map_laws};

    ghost eq = { same_map T.eq };

    ghost laws = { same_map_laws T.laws };

    fn eq(&self, other: &Self) -> bool {
        self.names() == other.names() && self.values() == other.values()
    }
}

impl<T: Eq> Eq for NamedMap<T> {
    ghost use Rattle.wac_types_base.specs.Equal.{same_map_equiv};

    ghost laws = { same_map_equiv T.Eq.laws };
}

impl<T: Hash> Hash for NamedMap<T> {
    ghost use Rattle.wac_types_base.specs.Equal.{fed_map, fed_map_alike};

    ghost hash_input = { fed_map T.hash_input };

    ghost respects_eq = { (fed_map_alike (record { fed = T.respects_eq })).fed };

    fn hash<H: Hasher>(&self, state: &mut H) {
        self.names().hash(state);
        self.values().hash(state);
    }
}

impl PartialEq for CoreImports {
    ghost use Rattle.wac_types_base.specs.EqualImports.{same_imports, same_imports_equiv};
    ghost use Rattle.std.specs.Cmp.{partial_equiv_from_equiv};

    ghost eq = { same_imports };

    ghost laws = { partial_equiv_from_equiv same_imports_equiv };

    fn eq(&self, other: &Self) -> bool {
        self.names() == other.names() && self.values() == other.values()
    }
}

impl Eq for CoreImports {
    ghost use Rattle.wac_types_base.specs.EqualImports.{same_imports_equiv};

    ghost laws = { same_imports_equiv };
}

impl Hash for CoreImports {
    ghost use Rattle.wac_types_base.specs.EqualImports.{fed_imports, fed_imports_alike};

    ghost hash_input = { fed_imports };

    ghost respects_eq = { fed_imports_alike.fed };

    fn hash<H: Hasher>(&self, state: &mut H) {
        self.names().hash(state);
        self.values().hash(state);
    }
}
