// Render pipelines. The contracts cite calls/specs/Step.antt and Did.antt.
ghost use Rattle.std.specs.Prelude.{◌≡◌};
ghost use Rattle.records.specs.declared.pipeline.PrivateCapabilities.{PrivateCapabilities};
ghost use Rattle.records.specs.declared.state.State.{State};
ghost use Rattle.calls.specs.Call.{set_render_pipeline};
ghost use Rattle.calls.specs.Did.{Lists};
ghost use Rattle.calls.specs.Meaning.{in_render};
ghost use Rattle.calls.specs.Step.{set_render_pipeline_meaning};
ghost use Rattle.pipeline_calls.specs.Piped.{PipedOf};
ghost use Rattle.calls.specs.Judge.{asking};

use crate::piped::{Piped, PipedPlan, piped_answer, record_piped};
use calls::judge::{commands_only, judge, list_rooms, spot_of};
use calls::phase::{in_phase, in_render};
use pipeline::attributes::{vertex_absent, vertex_out_of_range, vertex_too_many, vertex_twice};
use pipeline::fixed::fixed_too_many;
use pipeline::inner::{inner_bind, inner_out_of_range, inner_too_many};
use pipeline::render::render_plan;
use records::check::broken_limits;
use records::command::Record;
use records::outcome::Conditions;
use records::pipeline::{PrivateCapabilities, RenderPipeline};
use records::state::{Answer, Phase, State};

// The conditions of the call: its phase and its arguments.
fn render_asks(phase: Phase, p: RenderPipeline) -> Conditions
    ensures { (caps : PrivateCapabilities) (s : State) → result ≡ asking (in_render phase) (set_render_pipeline_meaning caps s p).asks }
{
    let inner = p.inner;
    Conditions {
        many: vertex_too_many(p) | (fixed_too_many(p) | inner_too_many(inner)),
        range: vertex_out_of_range(p) | inner_out_of_range(inner),
        absent: vertex_absent(p),
        kind: vertex_twice(p),
        ..in_phase(in_render(phase))
    }
}

// List, board and state are parameters of each call (state by value, the list lent): a struct would
// ask callers for another type.
pub fn plan_set_render_pipeline(
    room: usize,
    caps: PrivateCapabilities,
    s: State,
    p: RenderPipeline,
) -> PipedPlan
    ensures { PipedOf room s (set_render_pipeline_meaning caps s p) result }
{
    let now = s.progress;
    let phase = now.phase;
    let vertex = s.vertex;
    let old_bind = s.bind;
    let fixed = s.fixed;
    let inner = p.inner;
    let plan = render_plan(caps, p, vertex, old_bind, fixed);
    let n = plan.count as usize;
    let more = commands_only(n);
    let c = render_asks(phase, p);
    let rooms = list_rooms(room);
    let broken = broken_limits(s);
    let v = judge(rooms, broken, now, c, phase, more);
    let place = spot_of(v.ok, now.commands, n);
    let progress = v.progress;
    let outcome = v.outcome;
    let bind = inner_bind(inner, old_bind);
    PipedPlan {
        ok: v.ok,
        progress,
        batch: Piped {
            at: place.at,
            n: place.n,
            caps,
            pipeline: p,
            vertex,
            bind,
            fixed,
            plan,
        },
        outcome,
    }
}

pub fn set_render_pipeline(
    list: &mut [Record],
    caps: PrivateCapabilities,
    s: State,
    p: RenderPipeline,
) -> Answer
    ensures { Lists caps s (set_render_pipeline p) list.old result list.new }
{
    let plan = plan_set_render_pipeline(list.len(), caps, s, p);
    record_piped(list, plan);
    piped_answer(plan, s)
}
