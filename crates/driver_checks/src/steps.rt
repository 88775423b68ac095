//! Steps that exist in proofs alone.
ghost use Rattle.std.specs.Prelude.{◌≡◌, List, [], ◌∷◌};
ghost use Rattle.driver_checks.specs.declared.step.Step.{Step};
ghost use base.Fml.{ftrue};

use crate::step::Step;
use std::marker::Model;
use std::mem::size_of;

/// What a bench was asked to do so far, the last step first. It takes no bytes when the program runs.
#[derive(Drop)]
pub struct Steps {
    pub ghost list: { List Step },
}

const _: () = prove!(size_of::<Steps>() == 0);

impl Model for Steps {
    ghost also_owns = { λ _. ftrue };
}

impl Steps {
    /// No step.
    pub fn new() -> Steps
        ensures { result.list ≡ [] }
    {
        Steps {}
    }

    /// The steps with one more.
    pub fn then(&self, _step: &Step) -> Steps
        ensures { result.list ≡ _step.now ∷ self.now.list }
    {
        Steps {}
    }
}
