// The ends of a render pass and of a compute pass. The contracts cite Step.antt and Did.antt of
// `calls`.
ghost use Rattle.std.specs.Prelude.{◌≡◌};
ghost use Rattle.calls.specs.Call.{end_render_pass, end_compute_pass};
ghost use Rattle.calls.specs.Did.{Lists};
ghost use Rattle.calls.specs.Parts.{end_vertex, end_fixed};
ghost use Rattle.calls.specs.Step.{end_render_meaning, end_compute_meaning};
ghost use Rattle.pass_calls.specs.Ended.{EndOf};

use crate::ended::{EndPlan, end_answer, plan_end};
use calls::batch::record;
use names::gl::PrimitiveState;
use records::command::Record;
use records::limits::MAX_VERTEX_BUFFERS;
use records::pipeline::PrivateCapabilities;
use records::state::{Answer, FixedState, State, VertexState};

// No attribute, no dirty slot, no slot by instance, and no slot remembers an instance.
fn end_vertex(v: VertexState) -> VertexState
    ensures { result ≡ end_vertex v }
{
    let mut next = v;
    next.dirty_vbuf_mask = 0;
    next.attribute_count = 0;
    next.instances = [0; MAX_VERTEX_BUFFERS];
    next.instance_vbuf_mask = 0;
    next
}

// No colour target, and the primitive of the start.
fn end_fixed(f: FixedState) -> FixedState
    ensures { result ≡ end_fixed f }
{
    FixedState {
        primitive: PrimitiveState::new(),
        color_target_count: 0,
        ..f
    }
}

// List, board and state are parameters of each call (state by value, the list lent): a struct would
// ask callers for another type.
pub fn plan_end_render_pass(room: usize, caps: PrivateCapabilities, s: State) -> EndPlan
    ensures { EndOf room s (end_render_meaning s) result }
{
    let old_vertex = s.vertex;
    let old_fixed = s.fixed;
    let old_pass = s.pass;
    let vertex = end_vertex(old_vertex);
    let fixed = end_fixed(old_fixed);
    let pass = pass::render::end_render_pass(old_pass);
    plan_end(room, s, true, vertex, fixed, pass)
}

pub fn end_render_pass(list: &mut [Record], caps: PrivateCapabilities, s: State) -> Answer
    ensures { Lists caps s end_render_pass list.old result list.new }
{
    let plan = plan_end_render_pass(list.len(), caps, s);
    record(list, &plan.batch);
    end_answer(plan, s)
}

pub fn plan_end_compute_pass(room: usize, caps: PrivateCapabilities, s: State) -> EndPlan
    ensures { EndOf room s (end_compute_meaning s) result }
{
    let vertex = s.vertex;
    let fixed = s.fixed;
    let old_pass = s.pass;
    let pass = pass::render::end_compute_pass(old_pass);
    plan_end(room, s, false, vertex, fixed, pass)
}

pub fn end_compute_pass(list: &mut [Record], caps: PrivateCapabilities, s: State) -> Answer
    ensures { Lists caps s end_compute_pass list.old result list.new }
{
    let plan = plan_end_compute_pass(list.len(), caps, s);
    record(list, &plan.batch);
    end_answer(plan, s)
}
