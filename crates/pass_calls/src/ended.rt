// The end of a pass: the plan and its batch. The contracts cite specs/Ended.antt.
ghost use Rattle.std.specs.Prelude.{◌≡◌, cond, length};
ghost use Rattle.calls.specs.Meaning.{in_render, in_compute};
ghost use Rattle.pass_calls.specs.Ended.{end_of, ending, EndAllowed, ended_at, EndOf, end_answer};

use calls::batch::Batch;
use calls::judge::{commands_only, judge, list_rooms, spot_of, taken};
use calls::parts::{with_fixed, with_pass, with_progress, with_vertex};
use calls::phase::{in_compute, in_phase, in_render};
use pass::end::{end_command_at, end_compute_at, end_compute_count, end_render_count};
use records::check::broken_limits;
use records::command::Command;
use records::outcome::Outcome;
use records::state::{Answer, FixedState, PassState, Phase, Progress, State, VertexState};

// Where the commands go and how many they are, which kind of pass ends, and the parts of the state
// that they are worked out from.
// `render` is a bool: `ending` and `end_of` of specs/Ended.antt take it so.
#[derive(Clone, Copy)]
pub struct Ended {
    pub at: usize,
    pub n: usize,
    pub render: bool,
    pub pass: PassState,
    pub vertex: VertexState,
}

// The progress and the three parts after the call, what is written, and the outcome.
#[derive(Clone, Copy)]
pub struct EndPlan {
    pub progress: Progress,
    pub vertex: VertexState,
    pub fixed: FixedState,
    pub pass: PassState,
    pub batch: Ended,
    pub outcome: Outcome,
}

// How many commands the end has.
fn end_count(render: bool, pass: PassState, vertex: VertexState) -> u32
    ensures { result ≡ length (end_of render pass vertex) }
{
    if render {
        end_render_count(pass, vertex)
    } else {
        end_compute_count(pass)
    }
}

// The phase that the end needs.
fn ends_in(render: bool, phase: Phase) -> bool
    ensures { result ≡ cond render (in_render phase) (in_compute phase) }
{
    if render {
        in_render(phase)
    } else {
        in_compute(phase)
    }
}

impl Batch for Ended {
    ghost place_of = { λ b. b.at };

    ghost count_of = { λ b. b.n };

    ghost Allowed = { EndAllowed };

    ghost command_at = { ended_at };

    fn at(&self) -> usize {
        self.at
    }

    fn count(&self) -> usize {
        self.n
    }

    fn command(&self, i: usize) -> Command {
        let pass = self.pass;
        let vertex = self.vertex;
        let k = i as u32;
        if self.render {
            end_command_at(pass, vertex, k)
        } else {
            end_compute_at(pass, k)
        }
    }
}

pub fn end_answer(plan: EndPlan, s: State) -> Answer
    ensures { result ≡ end_answer plan s }
{
    let outcome = plan.outcome;
    let moved = with_progress(s, plan.progress);
    let passed = with_pass(moved, plan.pass);
    let settled = with_fixed(passed, plan.fixed);
    let state = with_vertex(settled, plan.vertex);
    Answer { outcome, state }
}

// The end of a pass of this kind, which leaves these three parts.
pub(crate) fn plan_end(
    room: usize,
    s: State,
    render: bool,
    vertex: VertexState,
    fixed: FixedState,
    pass: PassState,
) -> EndPlan
    ensures { EndOf room s (ending s render vertex fixed pass) result }
{
    let p = s.progress;
    let phase = p.phase;
    let old_vertex = s.vertex;
    let old_fixed = s.fixed;
    let old_pass = s.pass;
    let n = end_count(render, old_pass, old_vertex) as usize;
    let c = in_phase(ends_in(render, phase));
    let rooms = list_rooms(room);
    let more = commands_only(n);
    let broken = broken_limits(s);
    let v = judge(rooms, broken, p, c, Phase::Open, more);
    let place = spot_of(v.ok, p.commands, n);
    let outcome = v.outcome;
    let progress = v.progress;
    let vertex = taken(v.ok, vertex, old_vertex);
    let fixed = taken(v.ok, fixed, old_fixed);
    let pass = taken(v.ok, pass, old_pass);
    EndPlan {
        progress,
        vertex,
        fixed,
        pass,
        batch: Ended {
            at: place.at,
            n: place.n,
            render,
            pass: old_pass,
            vertex: old_vertex,
        },
        outcome,
    }
}
