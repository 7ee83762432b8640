//! Lists in the order of their keys: what a search answers, and after how many comparisons.

use std::cmp::Ordering;
use std::test::Fail;
use wac_graph_core::count::Count;
use wac_graph_core::{ByOrd, KeyOrder, SortedList};

/// The order that keys have themselves, with how often two were compared.
struct Counted {
    compared: Count,
    calls: usize,
}

impl Drop for Counted {
    fn drop(self) {
        let Counted {
            compared: _,
            calls: _,
        } = self;
    }
}

impl<K: Ord> KeyOrder<K> for Counted {
    ghost order = { K.cmp };

    ghost count = { λ o. o.compared.number };

    fn compare(&mut self, a: &K, b: &K) -> Ordering {
        self.compared.raise();
        self.calls = self.calls.wrapping_add(1);
        a.cmp(b)
    }

    ghost total = { K.total };
}

#[test]
fn searches_within_digits(rt: HostRuntime) -> Result<(), Fail> {
    let mut list: SortedList<usize, usize, Counted> = SortedList::new(rt.alloc());
    let mut order = Counted {
        compared: Count::new(),
        calls: 0,
    };
    // Each key with the binary digits of how many there are before it.
    for (key, digits) in [
        (13, 0),
        (1, 1),
        (7, 2),
        (15, 2),
        (3, 3),
        (11, 3),
        (5, 3),
        (9, 3),
    ] {
        order.calls = 0;
        list.reserve(1)?;
        let Err(place) = list.search(&key, &mut order) else {
            return Err("a key that was not put is found")?;
        };
        assert!(rt; order.calls <= digits);
        list.insert_reserved(place, key, digits);
    }
    for (place, key, below) in [
        (0, 1, 0),
        (1, 3, 2),
        (2, 5, 4),
        (3, 7, 6),
        (4, 9, 8),
        (5, 11, 10),
        (6, 13, 12),
        (7, 15, 14),
    ] {
        order.calls = 0;
        assert_eq!(rt; list.search(&key, &mut order), Ok(place));
        assert!(rt; order.calls <= 4);
        assert_eq!(rt; list.search(&below, &mut order), Err(place));
        assert!(rt; order.calls <= 8);
    }
    assert_eq!(rt; list.search(&16, &mut order), Err(8));
    Ok(())
}

#[test]
fn entries_leave(rt: HostRuntime) -> Result<(), Fail> {
    let mut order = ByOrd::new();
    let mut list: SortedList<usize, char, ByOrd> = SortedList::from_sorted(Vec::new(rt.alloc()));
    assert_eq!(rt; list.search(&2, &mut order), Err(0));
    for (key, value) in [(3, 'c'), (1, 'a'), (2, 'b')] {
        list.reserve(1)?;
        if let Err(place) = list.search(&key, &mut order) {
            list.insert_reserved(place, key, value);
        }
    }
    if list.as_slice().len() != 3 {
        return Err("not three entries")?;
    }
    assert_eq!(rt; list.remove_at(1), (2, 'b'));
    assert_eq!(rt; list.search(&3, &mut order), Ok(1));
    list.retain(|entry| entry.1 == 'c');
    assert_eq!(rt; list.as_slice().len(), 1);
    assert_eq!(rt; list.search(&3, &mut order), Ok(0));
    assert_eq!(rt; list.search(&1, &mut order), Err(0));
    Ok(())
}
