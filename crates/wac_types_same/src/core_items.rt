//! Whether two core module types are the same.

ghost use Rattle.std.specs.Prelude.{◌≡◌, IsTrue, ◌↔◌};
ghost use Rattle.wac_types_base.specs.Entries.{pairs_of};
ghost use Rattle.wac_types_same.specs.Same.{pair_of};

use wac_types_base::{CoreExtern, CoreImports, ModuleType, NamedMap};
use wac_types_fit::labels::same_names;
use wac_types_fit::same_core::same_items;

/// Whether two pairs of names are the same.
fn same_pairs(a: &(String, String), b: &(String, String)) -> bool
    ensures { IsTrue result ↔ (pair_of a.now ≡ pair_of b.now) }
{
    a.0.as_str() == b.0.as_str() && a.1.as_str() == b.1.as_str()
}

/// Whether the pairs of names are the same, in order.
fn same_pair_lists(a: &[(String, String)], b: &[(String, String)]) -> bool
    ensures { IsTrue result ↔ (pairs_of a.now ≡ pairs_of b.now) }
{
    if a.len() != b.len() {
        return false;
    }
    for at in 0..a.len() {
        if !same_pairs(&a[at], &b[at]) {
            return false;
        }
    }
    true
}

/// Whether the core items are the same, in order.
fn same_item_lists(a: &[CoreExtern], b: &[CoreExtern]) -> bool
    ensures { IsTrue result ↔ (a.now ≡ b.now) }
{
    if a.len() != b.len() {
        return false;
    }
    for at in 0..a.len() {
        if !same_items(&a[at], &b[at]) {
            return false;
        }
    }
    true
}

/// Whether two modules export the same.
fn same_exports(a: &NamedMap<CoreExtern>, b: &NamedMap<CoreExtern>) -> bool
    ensures { IsTrue result ↔ (a.now ≡ b.now) }
{
    same_names(a.names(), b.names()) && same_item_lists(a.values(), b.values())
}

/// Whether two modules import the same.
fn same_imports(a: &CoreImports, b: &CoreImports) -> bool
    ensures { IsTrue result ↔ (a.now ≡ b.now) }
{
    same_pair_lists(a.names(), b.names()) && same_item_lists(a.values(), b.values())
}

/// Whether two module types are the same.
pub(crate) fn same_modules(a: &ModuleType, b: &ModuleType) -> bool
    ensures { IsTrue result ↔ (a.now ≡ b.now) }
{
    same_imports(&a.imports, &b.imports) && same_exports(&a.exports, &b.exports)
}
