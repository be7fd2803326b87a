//! A history that only proofs read. It takes no memory, and its methods do nothing at run time.
ghost use Rattle.std.specs.Prelude.{◌≡◌, List, [], ◌∷◌, ◌++◌};
ghost use Rattle.std.specs.Borrow.{ftrue};

use std::marker::{Model, PhantomData};

/// The states that something had, the oldest first, which clauses read as `states`.
#[derive(Drop)]
pub struct Past<A> {
    of: PhantomData<A>,
    pub ghost states: { List A },
}

impl<A> Model for Past<A> {
    ghost also_owns = { λ _. ftrue };
}

impl<A> Past<A> {
    /// No state yet.
    pub fn new() -> Past<A>
        ensures { result.states ≡ [] }
    {
        Past { of: PhantomData }
    }

    /// The same states, and then this one.
    pub fn and(&self, state: &A) -> Past<A>
        ensures { result.states ≡ self.now.states ++ state.now ∷ [] }
    {
        Past { of: PhantomData }
    }
}
