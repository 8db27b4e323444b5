//! A list that contracts see and memory doesn't have.

ghost use Rattle.std.specs.Prelude.{◌≡◌, List, [], ◌∷◌, ◌++◌};
ghost use Rattle.std.specs.Coded.{coded_list};
ghost use Rattle.std.specs.Borrow.{ftrue};

use std::marker::{Model, PhantomData};

/// How a note tells an item. The note may borrow what the item has, so that nothing is copied.
pub trait Tells<N, T> {
    /// The item.
    ghost told: { N → T };
}

/// A list that only contracts see (project-defined). It takes no memory, and its methods do nothing at run time.
#[derive(Drop)]
pub struct Past<T> {
    of: PhantomData<T>,
    pub ghost items: { List T } by { coded_list T.code },
}

impl<T> Model for Past<T> {
    ghost also_owns = { λ _. ftrue };
}

// A past owns nothing.
unsafe impl<T> Send for Past<T> {}

unsafe impl<T> Sync for Past<T> {}

impl<T> Past<T> {
    /// Returns the empty list.
    #[inline(always)]
    pub fn new() -> Past<T>
        ensures { result.items ≡ [] }
    {
        Past { of: PhantomData }
    }

    /// Returns the same list.
    #[inline(always)]
    pub fn again(&self) -> Past<T>
        ensures { result.items ≡ self.now.items }
    {
        Past { of: PhantomData }
    }

    /// Returns the list with one more item, which the note tells.
    #[inline(always)]
    pub fn then<N, M: Tells<N, T>>(&self, note: &N) -> Past<T>
        ensures { result.items ≡ self.now.items ++ M.told note.now ∷ [] }
    {
        Past { of: PhantomData }
    }

    /// Adds one more item, which the note tells.
    #[inline(always)]
    pub fn add<N, M: Tells<N, T>>(&mut self, note: &N)
        ensures { self.new.items ≡ self.old.items ++ M.told note.now ∷ [] }
    {
        *self = self.then::<N, M>(note);
    }
}
