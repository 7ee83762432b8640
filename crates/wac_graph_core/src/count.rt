//! A number that only contracts see.

ghost use Rattle.std.specs.Prelude.{◌≡◌, ◌+◌, ℕ};
ghost use Rattle.std.specs.Borrow.{ftrue};

use std::marker::{Model, PhantomData};

/// A number that only contracts see: it takes no bytes, and raising it has no code.
#[derive(Drop)]
pub struct Count {
    marker: PhantomData<()>,
    pub ghost number: { ℕ },
}

impl Model for Count {
    ghost also_owns = { λ _. ftrue };
}

impl Count {
    /// Nothing is counted yet.
    pub fn new() -> Count
        ensures { result.number ≡ 0 }
    {
        Count {
            marker: PhantomData,
        }
    }

    /// Counts one more.
    pub fn raise(&mut self)
        ensures { self.new.number ≡ self.old.number + 1 }
    {}
}
