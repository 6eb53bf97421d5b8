// Compute pipelines. The contracts cite calls/specs/Step.antt and Did.antt.
ghost use Rattle.std.specs.Prelude.{◌≡◌};
ghost use Rattle.records.specs.declared.state.State.{State};
ghost use Rattle.calls.specs.Call.{set_compute_pipeline};
ghost use Rattle.calls.specs.Did.{Lists};
ghost use Rattle.calls.specs.Meaning.{in_compute};
ghost use Rattle.calls.specs.Step.{set_compute_pipeline_meaning};
ghost use Rattle.pipeline_calls.specs.Programmed.{ProgrammedOf};
ghost use Rattle.calls.specs.Judge.{asking};

use crate::moved::with_location;
use crate::programmed::{Programmed, ProgrammedPlan, programmed_answer};
use calls::batch::record;
use calls::judge::{commands_only, judge, list_rooms, spot_of};
use calls::phase::{in_compute, in_phase};
use pipeline::inner::{
    changed_units, inner_bind, inner_count, inner_immediates, inner_out_of_range, inner_too_many,
};
use records::check::broken_limits;
use records::command::Record;
use records::outcome::Conditions;
use records::pipeline::{ComputePipeline, PrivateCapabilities};
use records::state::{Answer, Phase, State};

// The conditions of the call: its phase and its arguments.
fn compute_asks(phase: Phase, p: ComputePipeline) -> Conditions
    ensures { (s : State) → result ≡ asking (in_compute phase) (set_compute_pipeline_meaning s p).asks }
{
    let inner = p.inner;
    Conditions {
        many: inner_too_many(inner),
        range: inner_out_of_range(inner),
        ..in_phase(in_compute(phase))
    }
}

pub fn plan_set_compute_pipeline(
    room: usize,
    caps: PrivateCapabilities,
    s: State,
    p: ComputePipeline,
) -> ProgrammedPlan
    ensures { ProgrammedOf room s (set_compute_pipeline_meaning s p) result }
{
    let now = s.progress;
    let phase = now.phase;
    let old_draw = s.draw;
    let old_bind = s.bind;
    let old_immediates = s.immediates;
    let inner = p.inner;
    let location = inner.first_instance_location;
    let changed = changed_units(inner, old_bind);
    let n = inner_count(changed) as usize;
    let rooms = list_rooms(room);
    let more = commands_only(n);
    let c = compute_asks(phase, p);
    let broken = broken_limits(s);
    let v = judge(rooms, broken, now, c, phase, more);
    let place = spot_of(v.ok, now.commands, n);
    let progress = v.progress;
    let outcome = v.outcome;
    let bind = inner_bind(inner, old_bind);
    let draw = with_location(old_draw, location);
    let immediates = inner_immediates(inner, old_immediates);
    ProgrammedPlan {
        ok: v.ok,
        progress,
        draw,
        immediates,
        batch: Programmed {
            at: place.at,
            n: place.n,
            program: inner.program,
            bind,
            changed,
        },
        outcome,
    }
}

pub fn set_compute_pipeline(
    list: &mut [Record],
    caps: PrivateCapabilities,
    s: State,
    p: ComputePipeline,
) -> Answer
    ensures { Lists caps s (set_compute_pipeline p) list.old result list.new }
{
    let plan = plan_set_compute_pipeline(list.len(), caps, s, p);
    record(list, &plan.batch);
    programmed_answer(plan, s)
}
