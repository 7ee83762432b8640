//! Orders of keys.

ghost use Rattle.std.specs.Prelude.{◌≡◌, ◌+◌, ℕ};
ghost use Rattle.std.specs.Cmp.{IsTotalOrder};
ghost use Rattle.std.specs.declared.cmp.Ordering.{Ordering as Order};

use crate::count::Count;
use std::cmp::Ordering;

/// An order of keys, which counts how often keys were compared by it.
pub trait KeyOrder<K> {
    /// How two keys stand.
    ghost order: { K → K → Order };

    /// How often keys were compared. Only contracts see it.
    ghost count: { Self → ℕ };

    /// Compares two keys.
    fn compare(&mut self, a: &K, b: &K) -> Ordering
        ensures told { result ≡ order a.now b.now }
        ensures counted { count self.new ≡ count self.old + 1 };

    ghost total: { IsTotalOrder order };
}

/// The order that keys have themselves.
#[derive(Drop)]
pub struct ByOrd {
    compared: Count,
}

impl ByOrd {
    /// Nothing is compared yet.
    pub fn new() -> Self {
        ByOrd {
            compared: Count::new(),
        }
    }
}

impl<K: Ord> KeyOrder<K> for ByOrd {
    ghost order = { K.cmp };

    ghost count = { λ o. o.compared.number };

    fn compare(&mut self, a: &K, b: &K) -> Ordering {
        self.compared.raise();
        a.cmp(b)
    }

    ghost total = { K.total };
}
