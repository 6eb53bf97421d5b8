// The stencil functions of a call: the plan and its batch. The contracts cite specs/Sides.antt.
ghost use Rattle.std.specs.Prelude.{◌≡◌};
ghost use Rattle.pipeline_calls.specs.Sides.{SidesAllowed, sides_at, sides_answer};

use calls::batch::Batch;
use calls::parts::{with_fixed, with_progress};
use names::gl::StencilState;
use pipeline::stencil::stencil_func_at;
use records::command::Command;
use records::outcome::Outcome;
use records::state::{Answer, FixedState, Progress, State};

// Where the commands go and how many they are, and the stencil that they set.
#[derive(Clone, Copy)]
pub struct Sides {
    pub at: usize,
    pub n: usize,
    pub stencil: StencilState,
}

#[derive(Clone, Copy)]
pub struct SidesPlan {
    pub progress: Progress,
    pub fixed: FixedState,
    pub batch: Sides,
    pub outcome: Outcome,
}

impl Batch for Sides {
    ghost place_of = { λ b. b.at };

    ghost count_of = { λ b. b.n };

    ghost Allowed = { SidesAllowed };

    ghost command_at = { sides_at };

    fn at(&self) -> usize {
        self.at
    }

    fn count(&self) -> usize {
        self.n
    }

    fn command(&self, i: usize) -> Command {
        let stencil = self.stencil;
        stencil_func_at(stencil, i as u32)
    }
}

pub fn sides_answer(plan: SidesPlan, s: State) -> Answer
    ensures { result ≡ sides_answer plan s }
{
    let outcome = plan.outcome;
    let moved = with_progress(s, plan.progress);
    let state = with_fixed(moved, plan.fixed);
    Answer { outcome, state }
}
