// The beginning of a render pass: the plan, its batch, and how the label is written into the marker
// bytes. The contracts cite specs/BegunRender.antt.
ghost use Rattle.std.specs.Prelude.{◌≡◌, length, get_or};
ghost use Rattle.walks.specs.Fill.{filled};
ghost use Rattle.pass.specs.Marks.{Label};
ghost use Rattle.calls.specs.Step.{begin_render_meaning};
ghost use Rattle.pass_calls.specs.Marked.{LabelFits};
ghost use Rattle.pass_calls.specs.BegunRender.{RenderAllowed, render_at, RenderOf, render_answer};

use crate::marked::{begin_asks, label_short, label_size, plan_mark};
use calls::batch::Batch;
use calls::judge::past_u32;
use calls::parts::{with_pass, with_progress};
use calls::phase::in_open;
use pass::begin::{BeginPlan, begin_command_at, begin_plan};
use pass::marks::{over_run, timestamps_out};
use pass::render::{begin_render_pass, pass_wrong_kind};
use records::command::Command;
use records::outcome::Outcome;
use records::pass::RenderPassDescriptor;
use records::pipeline::PrivateCapabilities;
use records::state::{Answer, PassState, Phase, Progress, State};

// Where the commands go and how many they are, what they are worked out from, and where the label's
// bytes go and how many they are.
#[derive(Clone, Copy)]
pub struct RenderBegun {
    pub at: usize,
    pub n: usize,
    pub caps: PrivateCapabilities,
    pub d: RenderPassDescriptor,
    pub plan: BeginPlan,
    pub from: usize,
    pub size: usize,
}

#[derive(Clone, Copy)]
pub struct RenderPlan {
    pub progress: Progress,
    pub pass: PassState,
    pub batch: RenderBegun,
    pub outcome: Outcome,
    pub put: usize,
    pub size: usize,
}

impl Batch for RenderBegun {
    ghost place_of = { λ b. b.at };

    ghost count_of = { λ b. b.n };

    ghost Allowed = { RenderAllowed };

    ghost command_at = { render_at };

    fn at(&self) -> usize {
        self.at
    }

    fn count(&self) -> usize {
        self.n
    }

    fn command(&self, i: usize) -> Command {
        let plan = self.plan;
        let caps = self.caps;
        let d = self.d;
        begin_command_at(plan, caps, d, self.from, self.size, i as u32)
    }
}

pub fn render_answer(plan: RenderPlan, s: State) -> Answer
    ensures { result ≡ render_answer plan s }
{
    let outcome = plan.outcome;
    let moved = with_progress(s, plan.progress);
    let state = with_pass(moved, plan.pass);
    Answer { outcome, state }
}

fn begun_count(plan: BeginPlan) -> u32
    ensures { result ≡ plan.count }
{
    plan.count
}

pub fn plan_begin_render(
    set: &[u32],
    room: usize,
    bytes_room: usize,
    label_len: usize,
    has_label: bool,
    label_count: usize,
    set_count: usize,
    caps: PrivateCapabilities,
    s: State,
    d: RenderPassDescriptor,
) -> RenderPlan
    ensures { RenderOf room bytes_room label_len s (λ (l : Label). begin_render_meaning caps s d l (record { run = set.now; count = set_count })) has_label label_count result }
{
    let p = s.progress;
    let phase = p.phase;
    let old = s.pass;
    let writes = d.timestamp_writes;
    let range = timestamps_out(set_count, writes);
    let kind = pass_wrong_kind(caps, d);
    let sum = has_label & past_u32(p.bytes, label_count);
    let unnamed = label_short(label_count, label_len);
    let short = unnamed | over_run(set, set_count);
    let many = 8 < d.color_attachment_count;
    let c = begin_asks(in_open(phase), many, range, kind, sum, short);
    let size = label_size(has_label, label_count, label_len);
    let plan = begin_plan(set, set_count, caps, d, has_label);
    let n = begun_count(plan) as usize;
    let pass = begin_render_pass(set, set_count, caps, d, has_label, old);
    let m = plan_mark(room, bytes_room, s, c, Phase::Render, n, size, pass);
    let progress = m.progress;
    let pass = m.pass;
    let outcome = m.outcome;
    RenderPlan {
        progress,
        pass,
        batch: RenderBegun {
            at: m.at,
            n: m.n,
            caps,
            d,
            plan,
            from: p.bytes,
            size,
        },
        outcome,
        put: m.put,
        size: m.size,
    }
}
