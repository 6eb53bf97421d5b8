// The beginning of a compute pass: the plan, its batch, and how the label is written into the marker
// bytes. The contracts cite specs/BegunCompute.antt.
ghost use Rattle.std.specs.Prelude.{◌≡◌, length, get_or};
ghost use Rattle.walks.specs.Fill.{filled};
ghost use Rattle.pass.specs.Marks.{Label};
ghost use Rattle.calls.specs.Step.{begin_compute_meaning};
ghost use Rattle.pass_calls.specs.Marked.{LabelFits};
ghost use Rattle.pass_calls.specs.BegunCompute.{ComputeAllowed, compute_at, ComputeOf, compute_answer};

use crate::marked::{begin_asks, label_short, label_size, plan_mark};
use calls::batch::Batch;
use calls::judge::past_u32;
use calls::parts::{with_pass, with_progress};
use calls::phase::in_open;
use pass::marks::{begin_query, over_run, timestamps_out};
use pass::opening::{opening_at, opening_count};
use pass::render::begin_compute_pass;
use records::command::Command;
use records::outcome::Outcome;
use records::pass::TimestampWrites;
use records::pipeline::PrivateCapabilities;
use records::state::{Answer, PassState, Phase, Progress, State};

// Where the commands go and how many they are, the beginning's query, whether there is a label, and
// where its bytes go and how many they are.
// `label` beside its size: an empty label is still pushed, and `Label` (pass/specs/Marks.antt) has
// presence and bytes apart.
#[derive(Clone, Copy)]
pub struct ComputeBegun {
    pub at: usize,
    pub n: usize,
    pub query: Option<u32>,
    pub label: bool,
    pub from: usize,
    pub size: usize,
}

// Not one plan with `RenderPlan`: the contracts name `compute_answer` and `render_answer` over the
// two.
#[derive(Clone, Copy)]
pub struct ComputePlan {
    pub progress: Progress,
    pub pass: PassState,
    pub batch: ComputeBegun,
    pub outcome: Outcome,
    pub put: usize,
    pub size: usize,
}

impl Batch for ComputeBegun {
    ghost place_of = { λ b. b.at };

    ghost count_of = { λ b. b.n };

    ghost Allowed = { ComputeAllowed };

    ghost command_at = { compute_at };

    fn at(&self) -> usize {
        self.at
    }

    fn count(&self) -> usize {
        self.n
    }

    fn command(&self, i: usize) -> Command {
        let query = self.query;
        opening_at(query, self.label, self.from, self.size, i as u32)
    }
}

pub fn compute_answer(plan: ComputePlan, s: State) -> Answer
    ensures { result ≡ compute_answer plan s }
{
    let outcome = plan.outcome;
    let moved = with_progress(s, plan.progress);
    let state = with_pass(moved, plan.pass);
    Answer { outcome, state }
}

pub fn plan_begin_compute(
    set: &[u32],
    room: usize,
    bytes_room: usize,
    label_len: usize,
    has_label: bool,
    label_count: usize,
    set_count: usize,
    caps: PrivateCapabilities,
    s: State,
    t: Option<TimestampWrites>,
) -> ComputePlan
    ensures { ComputeOf room bytes_room label_len s (λ (l : Label). begin_compute_meaning s t l (record { run = set.now; count = set_count })) has_label label_count result }
{
    let p = s.progress;
    let phase = p.phase;
    let old = s.pass;
    let range = timestamps_out(set_count, t);
    let sum = has_label & past_u32(p.bytes, label_count);
    let unnamed = label_short(label_count, label_len);
    let short = unnamed | over_run(set, set_count);
    let c = begin_asks(in_open(phase), false, range, false, sum, short);
    let size = label_size(has_label, label_count, label_len);
    let query = begin_query(set, set_count, t);
    let n = opening_count(query, has_label) as usize;
    let pass = begin_compute_pass(set, set_count, t, has_label, old);
    let m = plan_mark(room, bytes_room, s, c, Phase::Compute, n, size, pass);
    let progress = m.progress;
    let pass = m.pass;
    let outcome = m.outcome;
    ComputePlan {
        progress,
        pass,
        batch: ComputeBegun {
            at: m.at,
            n: m.n,
            query,
            label: has_label,
            from: p.bytes,
            size,
        },
        outcome,
        put: m.put,
        size: m.size,
    }
}
