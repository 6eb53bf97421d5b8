// What render and compute pipelines share, of a call that records nothing else: the plan and its
// batch. The contracts cite specs/Programmed.antt.
ghost use Rattle.std.specs.Prelude.{◌≡◌};
ghost use Rattle.pipeline_calls.specs.Programmed.{ProgrammedAllowed, programmed_at, programmed_answer};

use crate::moved::shared_moved;
use calls::batch::Batch;
use pipeline::inner::inner_command_at;
use records::command::Command;
use records::outcome::Outcome;
use records::state::{Answer, BindState, DrawState, ImmediateState, Progress, State};

// Where the commands go and how many they are, the program, the bindings after the call, and the
// units whose sampler number it changes.
#[derive(Clone, Copy)]
pub struct Programmed {
    pub at: usize,
    pub n: usize,
    pub program: u32,
    pub bind: BindState,
    pub changed: u32,
}

// Whether the call is carried through, and the parts that it changes then; the bindings are the
// batch's.
// `ok` beside the parts, as in `Verdict`: a refused call has a progress and a place too.
#[derive(Clone, Copy)]
pub struct ProgrammedPlan {
    pub ok: bool,
    pub progress: Progress,
    pub draw: DrawState,
    pub immediates: ImmediateState,
    pub batch: Programmed,
    pub outcome: Outcome,
}

impl Batch for Programmed {
    ghost place_of = { λ b. b.at };

    ghost count_of = { λ b. b.n };

    ghost Allowed = { ProgrammedAllowed };

    ghost command_at = { programmed_at };

    fn at(&self) -> usize {
        self.at
    }

    fn count(&self) -> usize {
        self.n
    }

    fn command(&self, i: usize) -> Command {
        let bind = self.bind;
        inner_command_at(self.program, bind, self.changed, i as u32)
    }
}

pub fn programmed_answer(plan: ProgrammedPlan, s: State) -> Answer
    ensures { result ≡ programmed_answer plan s }
{
    let outcome = plan.outcome;
    let progress = plan.progress;
    let draw = plan.draw;
    let bind = plan.batch.bind;
    let immediates = plan.immediates;
    let state = shared_moved(plan.ok, s, progress, draw, bind, immediates);
    Answer { outcome, state }
}
