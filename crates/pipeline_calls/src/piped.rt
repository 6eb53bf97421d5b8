// Render pipelines: the plan and its batch. The contracts cite specs/Piped.antt.
ghost use Rattle.std.specs.Prelude.{ℕ, ◌+◌, ◌<◌, ◌≤◌, ◌≡◌, length};
ghost use Rattle.walks.specs.Fill.{filled};
ghost use Rattle.calls.specs.Did.{record_of};
ghost use Rattle.pipeline_calls.specs.Piped.{PipedAllowed, piped_at, piped_answer};

use crate::moved::{render_moved, shared_moved, with_location, with_topology};
use calls::batch::{Batch, record};
use pipeline::fixed::pipeline_fixed;
use pipeline::inner::inner_immediates;
use pipeline::render::{RenderPlan, render_command_at};
use pipeline::vertex::pipeline_vertex;
use records::command::{Command, Record};
use records::outcome::Outcome;
use records::pipeline::{PrivateCapabilities, RenderPipeline};
use records::state::{Answer, BindState, FixedState, Progress, State, VertexState};

// Where the commands go and how many they are, the pipeline, the bindings after the call, the other
// parts before it, and what `render_plan` gave.
#[derive(Clone, Copy)]
pub struct Piped {
    pub at: usize,
    pub n: usize,
    pub caps: PrivateCapabilities,
    pub pipeline: RenderPipeline,
    pub vertex: VertexState,
    pub bind: BindState,
    pub fixed: FixedState,
    pub plan: RenderPlan,
}

// `ok` beside the parts, as in `Verdict`: a refused call has a progress and a place too.
#[derive(Clone, Copy)]
pub struct PipedPlan {
    pub ok: bool,
    pub progress: Progress,
    pub batch: Piped,
    pub outcome: Outcome,
}

impl Batch for Piped {
    ghost place_of = { λ b. b.at };

    ghost count_of = { λ b. b.n };

    ghost Allowed = { PipedAllowed };

    ghost command_at = { piped_at };

    fn at(&self) -> usize {
        self.at
    }

    fn count(&self) -> usize {
        self.n
    }

    fn command(&self, i: usize) -> Command {
        render_command_at(
            self.caps,
            self.pipeline,
            self.vertex,
            self.bind,
            self.fixed,
            self.plan,
            i as u32,
        )
    }
}

// The parts that change are worked out from the batch and the state before the call.
pub fn piped_answer(plan: PipedPlan, s: State) -> Answer
    ensures { result ≡ piped_answer plan s }
{
    let ok = plan.ok;
    let progress = plan.progress;
    let outcome = plan.outcome;
    let caps = plan.batch.caps;
    let p = plan.batch.pipeline;
    let bind = plan.batch.bind;
    let inner = p.inner;
    let location = inner.first_instance_location;
    let topology = p.topology;
    let old_draw = s.draw;
    let old_vertex = s.vertex;
    let old_fixed = s.fixed;
    let old_immediates = s.immediates;
    let located = with_location(old_draw, location);
    let draw = with_topology(located, topology);
    let vertex = pipeline_vertex(caps, p, old_vertex);
    let fixed = pipeline_fixed(p, old_fixed);
    let immediates = inner_immediates(inner, old_immediates);
    let shared = shared_moved(ok, s, progress, draw, bind, immediates);
    let state = render_moved(ok, s, shared, vertex, fixed);
    Answer { outcome, state }
}

// The plan by value, as in `record_drawn` (docs/BENCHMARKS.md).
pub(crate) fn record_piped(list: &mut [Record], plan: PipedPlan)
    requires { (plan.batch.at + plan.batch.n ≤ length list.old) × ((i : ℕ) → i < plan.batch.n → PipedAllowed plan.batch i) }
    ensures { list.new ≡ filled (λ i. record_of (piped_at plan.batch i)) list.old plan.batch.at plan.batch.n }
{
    record(list, &plan.batch);
}
