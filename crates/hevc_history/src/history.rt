//! A history that only proofs read. It takes no memory, and its methods do nothing at run time.
ghost use Rattle.std.specs.Prelude.{◌≡◌, List, [], ◌∷◌, ◌++◌};
ghost use Rattle.std.specs.Borrow.{ftrue};

use std::marker::{Model, PhantomData};

/// The values that proofs named, in order. A clause reads them as `items`. Nothing ties them to
/// memory: they tell what the invariant of the struct around them says of them.
#[derive(Drop)]
pub struct History<T> {
    of: PhantomData<T>,
    pub ghost items: { List T },
}

impl<T> Model for History<T> {
    ghost also_owns = { λ _. ftrue };
}

impl<T> History<T> {
    /// The history of nothing.
    pub fn new() -> History<T>
        ensures { result.items ≡ [] }
    {
        History { of: PhantomData }
    }

    /// The same history once more.
    pub fn again(&self) -> History<T>
        ensures { result.items ≡ self.now.items }
    {
        History { of: PhantomData }
    }

    /// The history with one more value. No code makes the value: a proof names it, by what is told.
    pub fn and<A>(&self, _told: &A) -> History<T>
        ghost item: { T }
        ensures { result.items ≡ self.now.items ++ item ∷ [] }
    {
        History { of: PhantomData }
    }
}
