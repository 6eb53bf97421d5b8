// The commands of `set_render_pipeline` by place: the vertex part, what both kinds of pipeline
// share, the fixed part. The contracts cite specs/Render.antt.
ghost use Rattle.std.specs.Prelude.{◌≤◌, ◌≡◌};
ghost use Rattle.records.specs.declared.state.BindState.{BindState};
ghost use Rattle.slots.specs.Place.{Stands};
ghost use Rattle.pipeline.specs.Inner.{inner_bind};
ghost use Rattle.pipeline.specs.Render.{render_commands, render_plan};

use crate::attributes::{vertex_command_at, vertex_count};
use crate::fixed::fixed_command_at;
use crate::inner::{changed_units, inner_command_at, inner_count};
use crate::plan::{FixedPlan, fixed_plan};
use records::command::Command;
use records::pipeline::{PrivateCapabilities, RenderPipeline};
use records::state::{BindState, FixedState, VertexState};

// How many commands each part has and how many there are in all, the units whose sampler number
// changes, and the plan of the fixed part.
#[derive(Clone, Copy)]
pub struct RenderPlan {
    pub vertex: u32,
    pub changed: u32,
    pub inner: u32,
    pub fixed: FixedPlan,
    pub count: u32,
}

pub fn render_plan(
    caps: PrivateCapabilities,
    p: RenderPipeline,
    v: VertexState,
    b: BindState,
    f: FixedState,
) -> RenderPlan
    ensures { (result ≡ render_plan caps p v b f) × (result.count ≤ 67) }
{
    let vertex = vertex_count(caps, p, v);
    let shared = p.inner;
    let changed = changed_units(shared, b);
    let inner = inner_count(changed);
    let fixed = fixed_plan(p, f);
    let count = vertex + inner + fixed.count;
    RenderPlan {
        vertex,
        changed,
        inner,
        fixed,
        count,
    }
}

// Command number k, by the plan that `render_plan` gives of the old state; b is what `inner_bind`
// makes of the old one.
pub fn render_command_at(
    caps: PrivateCapabilities,
    p: RenderPipeline,
    v: VertexState,
    b: BindState,
    f: FixedState,
    plan: RenderPlan,
    k: u32,
) -> Command
    ensures { (old : BindState) → b ≡ inner_bind p.inner old → plan ≡ render_plan caps p v old f → Stands result k (render_commands caps p v old f) }
{
    if k < plan.vertex {
        return vertex_command_at(caps, p, v, k);
    }
    let at_inner = k - plan.vertex;
    if at_inner < plan.inner {
        return inner_command_at(p.inner.program, b, plan.changed, at_inner);
    }
    let fixed = plan.fixed;
    fixed_command_at(p, f, fixed, at_inner - plan.inner)
}
