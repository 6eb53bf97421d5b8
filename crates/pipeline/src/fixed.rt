// The fixed part of `set_render_pipeline`: primitive, depth bias, depth, stencil, alpha to coverage,
// targets, clip distances. The contracts cite specs/Fixed.antt.
ghost use Rattle.std.specs.Prelude.{◌≤◌, ◌≡◌, length};
ghost use Rattle.slots.specs.Place.{Stands};
ghost use Rattle.pipeline.specs.Fixed.{depth_commands, depth_aspect, aspects_of, fixed_commands, pipeline_fixed, fixed_too_many};
ghost use Rattle.pipeline.specs.Plan.{fixed_plan};

use crate::plan::{FixedPlan, fixed_plan};
use crate::stencil::{stencil_aspect, stencil_command_at, stencil_or};
use crate::targets::target_command_at;
use names::map_primitive_state;
use records::command::{Command, DepthState};
use records::limits::MAX_COLOR_ATTACHMENTS;
use records::pipeline::RenderPipeline;
use records::state::FixedState;

// A match: the place in the list did not close over `map_or`.
fn depth_command_at(depth: Option<DepthState>, k: u32) -> Command
    ensures { Stands result k (depth_commands depth) }
{
    match depth {
        None => Command::ConfigureDepthStencil(0),
        Some(d) => Command::SetDepth(d),
    }
}

fn depth_aspect(depth: Option<DepthState>) -> u32
    ensures { (result ≡ depth_aspect depth) × (result ≤ 2) }
{
    if depth.is_some() { 2 } else { 0 }
}

// The aspects that the pipeline tests: depth 2, stencil 4.
fn aspects(p: RenderPipeline) -> u32
    ensures { result ≡ aspects_of p }
{
    depth_aspect(p.depth) + stencil_aspect(p.stencil)
}

pub(crate) fn fixed_count(p: RenderPipeline, f: FixedState) -> u32
    ensures { (result ≡ length (fixed_commands p f)) × (result ≤ 18) }
{
    let plan = fixed_plan(p, f);
    plan.count
}

// Command number k of the fixed part, by the plan that `fixed_plan` gives.
pub(crate) fn fixed_command_at(p: RenderPipeline, f: FixedState, plan: FixedPlan, k: u32) -> Command
    ensures { plan ≡ fixed_plan p f → Stands result k (fixed_commands p f) }
{
    if k < plan.primitive {
        let primitive = p.primitive;
        return Command::SetPrimitive(map_primitive_state(primitive));
    }
    let at_bias = k - plan.primitive;
    if at_bias < plan.bias {
        let bias = p.depth_bias;
        return Command::SetDepthBias(bias);
    }
    let at_depth = at_bias - plan.bias;
    if at_depth < plan.depth {
        let depth = p.depth;
        return depth_command_at(depth, at_depth);
    }
    let at_stencil = at_depth - plan.depth;
    if at_stencil < plan.stencil {
        let stencil = p.stencil;
        return stencil_command_at(stencil, at_stencil);
    }
    let at_aspects = at_stencil - plan.stencil;
    if at_aspects == 0 {
        return Command::ConfigureDepthStencil(aspects(p));
    }
    let at_alpha = at_aspects - 1;
    if at_alpha < plan.alpha {
        return Command::SetAlphaToCoverage(p.alpha_to_coverage_enabled);
    }
    let at_targets = at_alpha - plan.alpha;
    if at_targets < plan.targets {
        return target_command_at(p, plan.alike, at_targets);
    }
    Command::SetClipDistances {
        old_count: f.clip_distance_count,
        new_count: p.inner.clip_distance_count,
    }
}

// The state with the pipeline's fixed part.
pub fn pipeline_fixed(p: RenderPipeline, f: FixedState) -> FixedState
    ensures { result ≡ pipeline_fixed p f }
{
    let primitive = p.primitive;
    let color_targets = p.color_targets;
    let old = f.stencil;
    let new = p.stencil;
    let depth_bias = p.depth_bias;
    FixedState {
        primitive: map_primitive_state(primitive),
        color_targets,
        color_target_count: p.color_target_count,
        stencil: stencil_or(old, new),
        depth_bias,
        alpha_to_coverage_enabled: p.alpha_to_coverage_enabled,
        clip_distance_count: p.inner.clip_distance_count,
    }
}

// Condition 2: more than 8 targets.
pub fn fixed_too_many(p: RenderPipeline) -> bool
    ensures { result ≡ fixed_too_many p }
{
    MAX_COLOR_ATTACHMENTS < p.color_target_count
}
