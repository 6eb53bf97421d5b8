// The stencil reference. The contracts cite calls/specs/Step.antt and Did.antt.
ghost use Rattle.std.specs.Prelude.{◌≡◌};
ghost use Rattle.calls.specs.Call.{set_stencil_reference};
ghost use Rattle.calls.specs.Did.{Lists};
ghost use Rattle.calls.specs.Parts.{with_stencil};
ghost use Rattle.calls.specs.Settings.{with_reference, referenced as referenced_of};
ghost use Rattle.calls.specs.Step.{set_stencil_reference_meaning};
ghost use Rattle.pipeline_calls.specs.Sides.{SidesOf};

use crate::sides::{Sides, SidesPlan, sides_answer};
use calls::batch::record;
use calls::judge::{commands_only, judge, list_rooms, spot_of, taken};
use calls::phase::{in_phase, in_render};
use names::gl::{StencilSide, StencilState};
use pipeline::stencil::stencil_func_count;
use records::check::broken_limits;
use records::command::Record;
use records::pipeline::PrivateCapabilities;
use records::state::{Answer, FixedState, State};

fn with_reference(s: StencilSide, reference: u32) -> StencilSide
    ensures { result ≡ with_reference reference s }
{
    StencilSide { reference, ..s }
}

// Both sides with the reference.
fn referenced(s: StencilState, reference: u32) -> StencilState
    ensures { result ≡ referenced_of reference s }
{
    let old_front = s.front;
    let old_back = s.back;
    let front = with_reference(old_front, reference);
    let back = with_reference(old_back, reference);
    StencilState { front, back }
}

fn with_stencil(f: FixedState, stencil: StencilState) -> FixedState
    ensures { result ≡ with_stencil stencil f }
{
    FixedState { stencil, ..f }
}

pub fn plan_set_stencil_reference(
    room: usize,
    caps: PrivateCapabilities,
    s: State,
    reference: u32,
) -> SidesPlan
    ensures { SidesOf room s (set_stencil_reference_meaning s reference) result }
{
    let p = s.progress;
    let phase = p.phase;
    let old = s.fixed;
    let old_stencil = old.stencil;
    let stencil = referenced(old_stencil, reference);
    let n = stencil_func_count(stencil) as usize;
    let rooms = list_rooms(room);
    let more = commands_only(n);
    let c = in_phase(in_render(phase));
    let broken = broken_limits(s);
    let v = judge(rooms, broken, p, c, phase, more);
    let place = spot_of(v.ok, p.commands, n);
    let progress = v.progress;
    let outcome = v.outcome;
    let new = with_stencil(old, stencil);
    let fixed = taken(v.ok, new, old);
    SidesPlan {
        progress,
        fixed,
        batch: Sides {
            at: place.at,
            n: place.n,
            stencil,
        },
        outcome,
    }
}

pub fn set_stencil_reference(
    list: &mut [Record],
    caps: PrivateCapabilities,
    s: State,
    reference: u32,
) -> Answer
    ensures { Lists caps s (set_stencil_reference reference) list.old result list.new }
{
    let plan = plan_set_stencil_reference(list.len(), caps, s, reference);
    record(list, &plan.batch);
    sides_answer(plan, s)
}
