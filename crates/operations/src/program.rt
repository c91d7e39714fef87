// A vetted program. Only vetting makes one.
ghost use Rattle.std.specs.Prelude.{◌≡◌, ◌<◌, ◌≤◌, length, IfSome, slice_get};
ghost use Rattle.operations.specs.Records.{Registers};
ghost use Rattle.operations.specs.Sound.{Runnable};

use crate::step::Step;
use crate::vetting::MOST_OPERATIONS;
use arrayvec::ArrayVec;
use std::marker::Model;

// A program is the list of its steps, each sound among the others.
#[derive(Drop)]
pub struct Program {
    pub(crate) steps: ArrayVec<Step, MOST_OPERATIONS>,
}

impl Model for Program {
    ghost use Rattle.std.specs.Prelude.{List};
    ghost use Rattle.operations.specs.declared.step.Step.{Step};
    ghost use Rattle.operations.specs.Sound.{Runnable};

    ghost Value = { List Step };

    ghost view = { λ program. program.steps.items };

    ghost invariant = { λ program. Runnable program.steps.items };
}

impl Program {
    // How many steps it has: 1 to 512.
    pub fn len(&self) -> usize
        ensures value { result ≡ length self.now }
        ensures some { 0 < result }
        ensures few { result ≤ 512 }
    {
        self.steps.len()
    }

    // Its steps, in order. What vetting asked of them holds of the list.
    pub fn steps(&self) -> &[Step]
        ensures value { result.now ≡ self.now }
        ensures sound { Runnable result.now }
    {
        &self.steps
    }

    // The step at a position, if the program reaches so far.
    pub fn get(&self, position: usize) -> Option<Step>
        ensures value { result ≡ slice_get self.now position }
        ensures registers { IfSome result (λ s. Registers s) }
    {
        self.steps.get(position).copied()
    }
}
