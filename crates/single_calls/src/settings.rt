// The settings of a render pass that record one command or none.
ghost use Rattle.std.specs.Prelude.{◌≡◌, cond};
ghost use Rattle.calls.specs.Call.{set_index_buffer, set_viewport, set_scissor_rect, set_blend_constants};
ghost use Rattle.calls.specs.Did.{Lists};
ghost use Rattle.single_calls.specs.One.{OneOf};
ghost use Rattle.calls.specs.Settings.{viewport_rect, scissor_rect, indexed as indexed_of};
ghost use Rattle.calls.specs.Step.{set_index_buffer_meaning, set_viewport_meaning, set_scissor_rect_meaning, set_blend_constants_meaning};

use crate::one::{One, OnePlan, one_answer, plan_one};
use calls::batch::record;
use calls::judge::{commands_only, judge, list_rooms, spot_of};
use calls::phase::{in_phase, in_phase_with, in_render};
use numbers::{as_i32, trunc_i32};
use records::args::{RectF32, RectU32};
use records::check::broken_limits;
use records::command::{ColorF32, Command, DepthRange, Record, RectI32};
use records::pipeline::PrivateCapabilities;
use records::state::{Answer, DrawState, IndexFormat, State};

fn viewport_rect(r: RectF32) -> RectI32
    ensures { result ≡ viewport_rect r }
{
    RectI32 {
        x: trunc_i32(r.x),
        y: trunc_i32(r.y),
        w: trunc_i32(r.w),
        h: trunc_i32(r.h),
    }
}

// List, board and state are parameters of each call (state by value, the list lent): a struct would
// ask callers for another type.
pub fn plan_set_viewport(
    room: usize,
    caps: PrivateCapabilities,
    s: State,
    rect: RectF32,
    depth: DepthRange,
) -> OnePlan
    ensures { OneOf room s (set_viewport_meaning s rect depth) result }
{
    let broken = broken_limits(s);
    let progress = s.progress;
    let phase = progress.phase;
    let c = in_phase(in_render(phase));
    let rect = viewport_rect(rect);
    plan_one(
        room,
        broken,
        s,
        c,
        true,
        Command::SetViewport { rect, depth },
    )
}

pub fn set_viewport(
    list: &mut [Record],
    caps: PrivateCapabilities,
    s: State,
    rect: RectF32,
    depth: DepthRange,
) -> Answer
    ensures { Lists caps s (set_viewport rect depth) list.old result list.new }
{
    let plan = plan_set_viewport(list.len(), caps, s, rect, depth);
    record(list, &plan.batch);
    one_answer(plan, s)
}

fn scissor_rect(r: RectU32) -> RectI32
    ensures { result ≡ scissor_rect r }
{
    RectI32 {
        x: as_i32(r.x),
        y: as_i32(r.y),
        w: as_i32(r.w),
        h: as_i32(r.h),
    }
}

pub fn plan_set_scissor_rect(
    room: usize,
    caps: PrivateCapabilities,
    s: State,
    rect: RectU32,
) -> OnePlan
    ensures { OneOf room s (set_scissor_rect_meaning s rect) result }
{
    let broken = broken_limits(s);
    let progress = s.progress;
    let phase = progress.phase;
    let c = in_phase(in_render(phase));
    let rect = scissor_rect(rect);
    plan_one(room, broken, s, c, true, Command::SetScissor(rect))
}

pub fn set_scissor_rect(
    list: &mut [Record],
    caps: PrivateCapabilities,
    s: State,
    rect: RectU32,
) -> Answer
    ensures { Lists caps s (set_scissor_rect rect) list.old result list.new }
{
    let plan = plan_set_scissor_rect(list.len(), caps, s, rect);
    record(list, &plan.batch);
    one_answer(plan, s)
}

pub fn plan_set_blend_constants(
    room: usize,
    caps: PrivateCapabilities,
    s: State,
    color: ColorF32,
) -> OnePlan
    ensures { OneOf room s (set_blend_constants_meaning s color) result }
{
    let broken = broken_limits(s);
    let progress = s.progress;
    let phase = progress.phase;
    let c = in_phase(in_render(phase));
    plan_one(room, broken, s, c, true, Command::SetBlendConstant(color))
}

pub fn set_blend_constants(
    list: &mut [Record],
    caps: PrivateCapabilities,
    s: State,
    color: ColorF32,
) -> Answer
    ensures { Lists caps s (set_blend_constants color) list.old result list.new }
{
    let plan = plan_set_blend_constants(list.len(), caps, s, color);
    record(list, &plan.batch);
    one_answer(plan, s)
}

// The index buffer's format and offset, or what they were.
fn indexed(ok: bool, d: DrawState, offset: u64, format: IndexFormat) -> DrawState
    ensures { result ≡ cond ok (indexed_of offset format d) d }
{
    if ok {
        DrawState {
            index_format: format,
            index_offset: offset,
            ..d
        }
    } else {
        d
    }
}

pub fn plan_set_index_buffer(
    room: usize,
    caps: PrivateCapabilities,
    s: State,
    buffer: u32,
    offset: u64,
    format: IndexFormat,
) -> OnePlan
    ensures { OneOf room s (set_index_buffer_meaning s buffer offset format) result }
{
    let broken = broken_limits(s);
    let p = s.progress;
    let phase = p.phase;
    let d = s.draw;
    let c = in_phase_with(in_render(phase), buffer == 0);
    let rooms = list_rooms(room);
    let more = commands_only(1);
    let v = judge(rooms, broken, p, c, phase, more);
    let place = spot_of(v.ok, p.commands, 1);
    let outcome = v.outcome;
    let progress = v.progress;
    let draw = indexed(v.ok, d, offset, format);
    OnePlan {
        progress,
        draw,
        batch: One {
            at: place.at,
            n: place.n,
            command: Command::SetIndexBuffer(buffer),
        },
        outcome,
    }
}

pub fn set_index_buffer(
    list: &mut [Record],
    caps: PrivateCapabilities,
    s: State,
    buffer: u32,
    offset: u64,
    format: IndexFormat,
) -> Answer
    ensures { Lists caps s (set_index_buffer buffer offset format) list.old result list.new }
{
    let plan = plan_set_index_buffer(list.len(), caps, s, buffer, offset, format);
    record(list, &plan.batch);
    one_answer(plan, s)
}
