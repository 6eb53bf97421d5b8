// The two dispatch calls, and the clearing of a buffer: one command or none.
ghost use Rattle.calls.specs.Call.{clear_buffer, dispatch_workgroups, dispatch_workgroups_indirect};
ghost use Rattle.calls.specs.Did.{Lists};
ghost use Rattle.single_calls.specs.One.{OneOf};
ghost use Rattle.calls.specs.Step.{clear_buffer_meaning, dispatch_workgroups_meaning, dispatch_workgroups_indirect_meaning};

use crate::one::{OnePlan, one_answer, plan_one};
use calls::batch::record;
use calls::phase::{in_compute, in_open, in_phase, in_phase_with};
use records::args::Buffer;
use records::check::broken_limits;
use records::command::{Command, MemoryRange, Record};
use records::pipeline::PrivateCapabilities;
use records::state::{Answer, State};

pub fn plan_clear_buffer(
    room: usize,
    caps: PrivateCapabilities,
    s: State,
    buffer: Buffer,
    range: MemoryRange,
) -> OnePlan
    ensures { OneOf room s (clear_buffer_meaning s buffer range) result }
{
    let broken = broken_limits(s);
    let progress = s.progress;
    let phase = progress.phase;
    let c = in_phase(in_open(phase));
    plan_one(
        room,
        broken,
        s,
        c,
        true,
        Command::ClearBuffer {
            dst: buffer.raw,
            dst_target: buffer.target,
            range,
        },
    )
}

pub fn clear_buffer(
    list: &mut [Record],
    caps: PrivateCapabilities,
    s: State,
    buffer: Buffer,
    range: MemoryRange,
) -> Answer
    ensures { Lists caps s (clear_buffer buffer range) list.old result list.new }
{
    let plan = plan_clear_buffer(list.len(), caps, s, buffer, range);
    record(list, &plan.batch);
    one_answer(plan, s)
}

pub fn plan_dispatch_workgroups(
    room: usize,
    caps: PrivateCapabilities,
    s: State,
    x: u32,
    y: u32,
    z: u32,
) -> OnePlan
    ensures { OneOf room s (dispatch_workgroups_meaning s x y z) result }
{
    let broken = broken_limits(s);
    let progress = s.progress;
    let phase = progress.phase;
    let c = in_phase(in_compute(phase));
    let none = (x == 0) | ((y == 0) | (z == 0));
    plan_one(room, broken, s, c, !none, Command::Dispatch(x, y, z))
}

pub fn dispatch_workgroups(
    list: &mut [Record],
    caps: PrivateCapabilities,
    s: State,
    x: u32,
    y: u32,
    z: u32,
) -> Answer
    ensures { Lists caps s (dispatch_workgroups x y z) list.old result list.new }
{
    let plan = plan_dispatch_workgroups(list.len(), caps, s, x, y, z);
    record(list, &plan.batch);
    one_answer(plan, s)
}

pub fn plan_dispatch_workgroups_indirect(
    room: usize,
    caps: PrivateCapabilities,
    s: State,
    buffer: u32,
    offset: u64,
) -> OnePlan
    ensures { OneOf room s (dispatch_workgroups_indirect_meaning s buffer offset) result }
{
    let broken = broken_limits(s);
    let progress = s.progress;
    let phase = progress.phase;
    let c = in_phase_with(in_compute(phase), buffer == 0);
    plan_one(
        room,
        broken,
        s,
        c,
        true,
        Command::DispatchIndirect {
            indirect_buf: buffer,
            indirect_offset: offset,
        },
    )
}

pub fn dispatch_workgroups_indirect(
    list: &mut [Record],
    caps: PrivateCapabilities,
    s: State,
    buffer: u32,
    offset: u64,
) -> Answer
    ensures { Lists caps s (dispatch_workgroups_indirect buffer offset) list.old result list.new }
{
    let plan = plan_dispatch_workgroups_indirect(list.len(), caps, s, buffer, offset);
    record(list, &plan.batch);
    one_answer(plan, s)
}
