// Buffer barriers, and copies between buffers. The contracts cite calls/specs/Step.antt and
// Did.antt.
ghost use Rattle.std.specs.Prelude.{◌≡◌, cond, not, false as no};
ghost use Rattle.calls.specs.Call.{transition_buffers, copy_buffer_to_buffer};
ghost use Rattle.calls.specs.Did.{Lists};
ghost use Rattle.calls.specs.Step.{transition_buffers_meaning, copy_buffer_to_buffer_meaning};
ghost use Rattle.transfer_calls.specs.Barriers.{BarriersOf};
ghost use Rattle.transfer_calls.specs.Regions.{CopiesOf};

use crate::barriers::{
    BarrierCommands, BarrierPlan, Barriers, barrier_absent, barrier_count, barriers_answer,
};
use crate::regions::{Copies, CopyCommands, CopyPlan, copies_answer, empty_region, region_count};
use crate::threes::over_run;
use calls::batch::record;
use calls::judge::{commands_only, judge, list_rooms, spot_of};
use calls::phase::{in_open, in_phase, run_asks};
use records::args::Buffer;
use records::check::broken_limits;
use records::command::Record;
use records::outcome::Conditions;
use records::pipeline::PrivateCapabilities;
use records::state::{Answer, State};

// The phase, an absent buffer, and a count above its run.
fn barrier_asks(allowed: bool, absent: bool, short: bool) -> Conditions
    ensures { result ≡ record { phase = not allowed; many = no; range = no; absent = absent; kind = no; sum = no; room = short } }
{
    Conditions {
        absent,
        room: short,
        ..in_phase(allowed)
    }
}

// A board without memory barriers records none.
fn on_board(some: bool, n: usize) -> usize
    ensures { result ≡ cond some n 0 }
{
    if some { n } else { 0 }
}

// The count beside its run: one above the run is refused (condition 7), which a slice could not
// say.
pub fn plan_transition_buffers(
    barriers: &[u32],
    room: usize,
    count: usize,
    caps: PrivateCapabilities,
    s: State,
) -> BarrierPlan
    ensures { BarriersOf barriers.now room s (transition_buffers_meaning caps s (record { run = barriers.now; count = count })) result }
{
    let p = s.progress;
    let phase = p.phase;
    let some = caps.memory_barriers;
    let absent = some & barrier_absent(barriers, count);
    let n = on_board(some, barrier_count(barriers, count));
    let short = over_run(barriers.len(), count);
    let c = barrier_asks(in_open(phase), absent, short);
    let rooms = list_rooms(room);
    let more = commands_only(n);
    let broken = broken_limits(s);
    let v = judge(rooms, broken, p, c, phase, more);
    let place = spot_of(v.ok, p.commands, n);
    let outcome = v.outcome;
    let progress = v.progress;
    BarrierPlan {
        progress,
        batch: Barriers {
            at: place.at,
            n: place.n,
            count,
        },
        outcome,
    }
}

pub fn transition_buffers(
    list: &mut [Record],
    barriers: &[u32],
    count: usize,
    caps: PrivateCapabilities,
    s: State,
) -> Answer
    ensures { Lists caps s (transition_buffers (record { run = barriers.now; count = count })) list.old result list.new }
{
    let plan = plan_transition_buffers(barriers, list.len(), count, caps, s);
    record(
        list,
        &BarrierCommands {
            run: barriers,
            batch: &plan.batch,
        },
    );
    barriers_answer(plan, s)
}

pub fn plan_copy_buffer_to_buffer(
    regions: &[u64],
    room: usize,
    count: usize,
    caps: PrivateCapabilities,
    s: State,
    src: Buffer,
    dst: Buffer,
) -> CopyPlan
    ensures { CopiesOf regions.now room s (copy_buffer_to_buffer_meaning s src dst (record { run = regions.now; count = count })) result }
{
    let p = s.progress;
    let phase = p.phase;
    let range = empty_region(regions, count);
    let n = region_count(regions, count);
    let short = over_run(regions.len(), count);
    let c = run_asks(in_open(phase), range, short);
    let rooms = list_rooms(room);
    let more = commands_only(n);
    let broken = broken_limits(s);
    let v = judge(rooms, broken, p, c, phase, more);
    let place = spot_of(v.ok, p.commands, n);
    let outcome = v.outcome;
    let progress = v.progress;
    CopyPlan {
        progress,
        batch: Copies {
            at: place.at,
            n: place.n,
            count,
            src,
            dst,
        },
        outcome,
    }
}

pub fn copy_buffer_to_buffer(
    list: &mut [Record],
    regions: &[u64],
    count: usize,
    caps: PrivateCapabilities,
    s: State,
    src: Buffer,
    dst: Buffer,
) -> Answer
    ensures { Lists caps s (copy_buffer_to_buffer src dst (record { run = regions.now; count = count })) list.old result list.new }
{
    let plan = plan_copy_buffer_to_buffer(regions, list.len(), count, caps, s, src, dst);
    record(
        list,
        &CopyCommands {
            run: regions,
            batch: &plan.batch,
        },
    );
    copies_answer(plan, s)
}
