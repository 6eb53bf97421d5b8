// Queries of a set that is lent with its count: the three calls that record a command, and
// `reset_queries`, which records none.
ghost use Rattle.calls.specs.Call.{begin_query, end_query, write_timestamp, reset_queries};
ghost use Rattle.calls.specs.Did.{Keeps, Lists};
ghost use Rattle.single_calls.specs.One.{OneOf};
ghost use Rattle.calls.specs.Step.{begin_query_meaning, end_query_meaning, write_timestamp_meaning};

use crate::one::{OnePlan, one_answer, plan_one};
use calls::batch::record;
use calls::judge::{judge, no_rooms, nothing};
use calls::parts::with_progress;
use calls::phase::{not_closed, run_asks};
use pass::marks::{over_run, query_of};
use records::check::broken_limits;
use records::command::{Command, Record};
use records::pipeline::PrivateCapabilities;
use records::state::{Answer, State};

// The count beside its run: one above the run is refused (condition 7), which a slice could not
// say.
pub fn plan_begin_query(
    set: &[u32],
    room: usize,
    count: usize,
    target: u32,
    caps: PrivateCapabilities,
    s: State,
    index: u32,
) -> OnePlan
    ensures { OneOf room s (begin_query_meaning s (record { queries = record { run = set.now; count = count }; target = target }) index) result }
{
    let broken = broken_limits(s);
    let p = s.progress;
    let phase = p.phase;
    let range = count <= (index as usize);
    let short = over_run(set, count);
    let c = run_asks(not_closed(phase), range, short);
    let query = query_of(set, count, index);
    plan_one(room, broken, s, c, true, Command::BeginQuery(query, target))
}

pub fn begin_query(
    list: &mut [Record],
    set: &[u32],
    count: usize,
    target: u32,
    caps: PrivateCapabilities,
    s: State,
    index: u32,
) -> Answer
    ensures { Lists caps s (begin_query (record { queries = record { run = set.now; count = count }; target = target }) index) list.old result list.new }
{
    let plan = plan_begin_query(set, list.len(), count, target, caps, s, index);
    record(list, &plan.batch);
    one_answer(plan, s)
}

pub fn plan_end_query(
    set: &[u32],
    room: usize,
    count: usize,
    target: u32,
    caps: PrivateCapabilities,
    s: State,
    index: u32,
) -> OnePlan
    ensures { OneOf room s (end_query_meaning s (record { queries = record { run = set.now; count = count }; target = target }) index) result }
{
    let broken = broken_limits(s);
    let p = s.progress;
    let phase = p.phase;
    let range = count <= (index as usize);
    let short = over_run(set, count);
    let c = run_asks(not_closed(phase), range, short);
    plan_one(room, broken, s, c, true, Command::EndQuery(target))
}

pub fn end_query(
    list: &mut [Record],
    set: &[u32],
    count: usize,
    target: u32,
    caps: PrivateCapabilities,
    s: State,
    index: u32,
) -> Answer
    ensures { Lists caps s (end_query (record { queries = record { run = set.now; count = count }; target = target }) index) list.old result list.new }
{
    let plan = plan_end_query(set, list.len(), count, target, caps, s, index);
    record(list, &plan.batch);
    one_answer(plan, s)
}

pub fn plan_write_timestamp(
    set: &[u32],
    room: usize,
    count: usize,
    target: u32,
    caps: PrivateCapabilities,
    s: State,
    index: u32,
) -> OnePlan
    ensures { OneOf room s (write_timestamp_meaning s (record { queries = record { run = set.now; count = count }; target = target }) index) result }
{
    let broken = broken_limits(s);
    let p = s.progress;
    let phase = p.phase;
    let range = count <= (index as usize);
    let short = over_run(set, count);
    let c = run_asks(not_closed(phase), range, short);
    let query = query_of(set, count, index);
    plan_one(room, broken, s, c, true, Command::TimestampQuery(query))
}

pub fn write_timestamp(
    list: &mut [Record],
    set: &[u32],
    count: usize,
    target: u32,
    caps: PrivateCapabilities,
    s: State,
    index: u32,
) -> Answer
    ensures { Lists caps s (write_timestamp (record { queries = record { run = set.now; count = count }; target = target }) index) list.old result list.new }
{
    let plan = plan_write_timestamp(set, list.len(), count, target, caps, s, index);
    record(list, &plan.batch);
    one_answer(plan, s)
}

// The queries from `start` to `end` of the set.
pub fn reset_queries(
    set: &[u32],
    count: usize,
    target: u32,
    caps: PrivateCapabilities,
    s: State,
    start: u32,
    end: u32,
) -> Answer
    ensures { Keeps caps s (reset_queries (record { queries = record { run = set.now; count = count }; target = target }) start end) result }
{
    let broken = broken_limits(s);
    let p = s.progress;
    let phase = p.phase;
    let range = (end < start) | (count < (end as usize));
    let short = over_run(set, count);
    let c = run_asks(not_closed(phase), range, short);
    let rooms = no_rooms();
    let more = nothing();
    let v = judge(rooms, broken, p, c, phase, more);
    let progress = v.progress;
    let outcome = v.outcome;
    let state = with_progress(s, progress);
    Answer { outcome, state }
}
