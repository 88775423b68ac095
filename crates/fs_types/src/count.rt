//! A whole number that exists in proofs alone.
ghost use Rattle.std.specs.Prelude.{◌≡◌, ℕ, ◌+◌};
ghost use base.Fml.{ftrue};

use std::marker::Model;
use std::mem::size_of;

/// A whole number `n` without a greatest value. It takes no bytes when the program runs.
///
/// Nothing but the clauses of the calls ties the number to what a program does: a count says
/// something of code that reaches it through a trait's facts, and of nothing else.
#[derive(Drop)]
pub struct Count {
    pub ghost n: { ℕ },
}

const _: () = prove!(size_of::<Count>() == 0);

impl Model for Count {
    ghost also_owns = { λ _. ftrue };
}

impl Count {
    /// The count of nothing.
    pub fn zero() -> Count
        ensures { result.n ≡ 0 }
    {
        Count {}
    }

    /// The count with one more.
    pub fn more(&self) -> Count
        ensures { result.n ≡ self.now.n + 1 }
    {
        Self {}
    }
}
