// How many commands the fixed part of `set_render_pipeline` has, part by part. The contracts cite
// specs/Fixed.antt and specs/Plan.antt.
ghost use Rattle.std.specs.Prelude.{◌≤◌, ◌≡◌, cond, length};
ghost use Rattle.pipeline.specs.Fixed.{depth_commands};
ghost use Rattle.pipeline.specs.Targets.{all_alike};
ghost use Rattle.pipeline.specs.Plan.{primitive_part, bias_part, alpha_part, target_part, clip_part, fixed_plan};

use crate::stencil::stencil_count;
use crate::targets::{all_alike, same_targets, target_count};
use names::gl::PrimitiveState;
use names::map_primitive_state;
use names::wgt::PrimitiveState as WgtPrimitiveState;
use records::command::{DepthBiasState, DepthState};
use records::pipeline::RenderPipeline;
use records::same::{same_depth_bias, same_primitive};
use records::state::FixedState;

// How many commands each part has, whether the targets are all alike, and how many there are in all.
#[derive(Clone, Copy)]
pub struct FixedPlan {
    pub primitive: u32,
    pub bias: u32,
    pub depth: u32,
    pub stencil: u32,
    pub alpha: u32,
    pub targets: u32,
    pub alike: bool,
    pub clip: u32,
    pub count: u32,
}

fn one_if(b: bool) -> u32
    ensures { (result ≡ cond b 1 0) × (result ≤ 1) }
{
    b as u32
}

fn primitive_count(new: WgtPrimitiveState, old: PrimitiveState) -> u32
    ensures { (result ≡ length (primitive_part new old)) × (result ≤ 1) }
{
    let state = map_primitive_state(new);
    let differs = !same_primitive(state, old);
    one_if(differs)
}

fn bias_count(new: DepthBiasState, old: DepthBiasState) -> u32
    ensures { (result ≡ length (bias_part new old)) × (result ≤ 1) }
{
    let differs = !same_depth_bias(new, old);
    one_if(differs)
}

fn depth_count(depth: Option<DepthState>) -> u32
    ensures { (result ≡ length (depth_commands depth)) × (result ≤ 1) }
{
    depth.is_some() as u32
}

fn alpha_count(new: bool, old: bool) -> u32
    ensures { (result ≡ length (alpha_part new old)) × (result ≤ 1) }
{
    one_if(new != old)
}

fn clip_count(new: u32, old: u32) -> u32
    ensures { (result ≡ length (clip_part new old)) × (result ≤ 1) }
{
    one_if(new != old)
}

// None where the targets are the state's.
fn changed_target_count(p: RenderPipeline, f: FixedState, alike: bool) -> u32
    ensures { (alike ≡ all_alike p → result ≡ length (target_part p f)) × (result ≤ 8) }
{
    if same_targets(f, p) {
        0
    } else {
        target_count(p, alike)
    }
}

pub(crate) fn fixed_plan(p: RenderPipeline, f: FixedState) -> FixedPlan
    ensures { (result ≡ fixed_plan p f) × (result.count ≤ 18) }
{
    let new_primitive = p.primitive;
    let old_primitive = f.primitive;
    let primitive = primitive_count(new_primitive, old_primitive);
    let new_bias = p.depth_bias;
    let old_bias = f.depth_bias;
    let bias = bias_count(new_bias, old_bias);
    let depth_state = p.depth;
    let depth = depth_count(depth_state);
    let stencil_state = p.stencil;
    let stencil = stencil_count(stencil_state);
    let alpha = alpha_count(p.alpha_to_coverage_enabled, f.alpha_to_coverage_enabled);
    let alike = all_alike(p);
    let targets = changed_target_count(p, f, alike);
    let clip = clip_count(p.inner.clip_distance_count, f.clip_distance_count);
    FixedPlan {
        primitive,
        bias,
        depth,
        stencil,
        alpha,
        targets,
        alike,
        clip,
        count: primitive + bias + depth + stencil + 1 + alpha + targets + clip,
    }
}
