//! What is left of a user that was let go. It exists only in proofs.

ghost use Rattle.std.specs.Prelude.{◌≡◌};
ghost use Rattle.std.specs.Borrow.{ftrue};

use std::marker::{Model, PhantomData};

// A user that was let go, as it was then. It takes no memory.
#[derive(Drop)]
pub(crate) struct Gone<U> {
    of: PhantomData<U>,
    pub(crate) ghost user: { U },
}

impl<U> Model for Gone<U> {
    ghost also_owns = { λ _. ftrue };
}

impl<U> Gone<U> {
    // This user, as it is now.
    pub(crate) fn of(_user: &U) -> Gone<U>
        ensures { result.user ≡ _user.now }
    {
        Gone { of: PhantomData }
    }
}
