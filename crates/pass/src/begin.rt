// What the beginning of a render pass records, by place. The contracts cite specs/Plan.antt.
ghost use Rattle.std.specs.Prelude.{ℕ, ◌+◌, ◌^◌, ◌<◌, ◌≤◌, ◌≡◌, Bool, List, length};
ghost use Rattle.records.specs.declared.command.Command.TheVariants.{SetDrawColorBuffers};
ghost use Rattle.records.specs.declared.pipeline.PrivateCapabilities.{PrivateCapabilities as Caps};
ghost use Rattle.slots.specs.Place.{Stands};
ghost use Rattle.pass.specs.Marks.{Lent};
ghost use Rattle.pass.specs.Render.{places_of, default_first, extent_rect, full_depth, begin_render_commands};
ghost use Rattle.pass.specs.Plan.{filled_mask, cleared_mask, attached, all_clears, settings, framing, begin_plan};

use crate::attach::attachment_at;
use crate::clears::clear_at;
use crate::depth::clears_depth;
use crate::marks::begin_query;
use crate::opening::{opening_at, opening_count};
use crate::render::{default_first, to_external};
use crate::survey::{cleared_mask, filled_mask};
use bindings::group::one_if;
use numbers::{as_i32, of_bits32};
use records::check::within;
use records::command::{Command, DepthRange, Extent3d, RectI32};
use records::pass::RenderPassDescriptor;
use records::pipeline::PrivateCapabilities;

// The parts of the commands: the beginning's query, the label, the places, and how many commands
// the parts have.
#[derive(Clone, Copy)]
pub struct BeginPlan {
    pub query: Option<u32>,
    pub label: bool,
    pub is_default: bool,
    pub filled: u32,
    pub cleared: u32,
    pub opening: u32,
    pub attachments: u32,
    pub buffers: u32,
    pub count: u32,
}

fn extent_rect(e: Extent3d) -> RectI32
    ensures { result ≡ extent_rect e }
{
    RectI32 {
        x: 0,
        y: 0,
        w: as_i32(e.width),
        h: as_i32(e.height),
    }
}

fn full_depth() -> DepthRange
    ensures { result ≡ full_depth }
{
    DepthRange {
        start: of_bits32(0),
        end: of_bits32(0x3f800000),
    }
}

fn attachment_count(d: RenderPassDescriptor, is_default: bool, filled: u32) -> u32
    ensures { (result ≤ 33) × ((caps : Caps) → is_default ≡ default_first (places_of d) → filled ≡ filled_mask d → result ≡ length (attached caps d)) }
{
    if is_default {
        0
    } else {
        mask::count(filled) + one_if(d.depth_stencil_attachment.is_some())
    }
}

fn clear_count(d: RenderPassDescriptor, cleared: u32) -> u32
    ensures { (result ≤ 33) × (cleared ≡ cleared_mask d → result ≡ length (all_clears d)) }
{
    let target = d.depth_stencil_attachment;
    let depth = clears_depth(target);
    mask::count(cleared) + one_if(depth)
}

// The plan, and how many commands there are.
pub fn begin_plan(
    set: &[u32],
    set_count: usize,
    caps: PrivateCapabilities,
    d: RenderPassDescriptor,
    label: bool,
) -> BeginPlan
    ensures { (result ≡ begin_plan caps d label (record { run = set.now; count = set_count })) × ((bytes : Lent) (at : ℕ) → result.count ≡ length (begin_render_commands caps d (record { present = label; bytes = bytes }) (record { run = set.now; count = set_count }) at)) }
{
    let writes = d.timestamp_writes;
    let query = begin_query(set, set_count, writes);
    let filled = filled_mask(&d);
    let cleared = cleared_mask(&d);
    let is_default = default_first(d);
    let opening = opening_count(query, label);
    let attachments = attachment_count(d, is_default, filled);
    let buffers = one_if(!to_external(&d));
    let clears = clear_count(d, cleared);
    BeginPlan {
        query,
        label,
        is_default,
        filled,
        cleared,
        opening,
        attachments,
        buffers,
        count: opening + 1 + attachments + 2 + buffers + clears,
    }
}

fn draw_buffers(count: usize) -> Command
    ensures { count ≤ 8 → result ≡ SetDrawColorBuffers count }
{
    let n = within(count, 8);
    Command::SetDrawColorBuffers(n as u32)
}

// Command number k from the scissor on.
fn setting_at(plan: BeginPlan, d: RenderPassDescriptor, k: u32) -> Command
    ensures { (caps : Caps) (label : Bool) (set : Lent) → plan ≡ begin_plan caps d label set → d.color_attachment_count ≤ 8 → Stands result k (settings d) }
{
    let extent = d.extent;
    let rect = extent_rect(extent);
    if k == 0 {
        Command::SetScissor(rect)
    } else if k == 1 {
        let depth = full_depth();
        Command::SetViewport { rect, depth }
    } else if k - 2 < plan.buffers {
        draw_buffers(d.color_attachment_count)
    } else {
        clear_at(d, plan.cleared, k - 2 - plan.buffers)
    }
}

// Command number k from the framebuffer reset on.
fn framing_at(
    plan: BeginPlan,
    caps: PrivateCapabilities,
    d: RenderPassDescriptor,
    k: u32,
) -> Command
    ensures { (label : Bool) (set : Lent) → plan ≡ begin_plan caps d label set → d.color_attachment_count ≤ 8 → Stands result k (framing caps d) }
{
    if k == 0 {
        Command::ResetFramebuffer {
            is_default: plan.is_default,
        }
    } else if k - 1 < plan.attachments {
        attachment_at(caps, d, plan.filled, k - 1)
    } else {
        setting_at(plan, d, k - 1 - plan.attachments)
    }
}

// Command number k of the beginning.
pub fn begin_command_at(
    plan: BeginPlan,
    caps: PrivateCapabilities,
    d: RenderPassDescriptor,
    at: usize,
    bytes: usize,
    k: u32,
) -> Command
    ensures { (label : Bool) (set : Lent) (run : List ℕ) → plan ≡ begin_plan caps d label set → d.color_attachment_count ≤ 8 → at + bytes < 2 ^ 32 → Stands result k (begin_render_commands caps d (record { present = label; bytes = record { run = run; count = bytes } }) set at) }
{
    if k < plan.opening {
        let query = plan.query;
        opening_at(query, plan.label, at, bytes, k)
    } else {
        framing_at(plan, caps, d, k - plan.opening)
    }
}
