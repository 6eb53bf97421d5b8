// `copy_query_results`. The contracts cite calls/specs/Step.antt and Did.antt.
ghost use Rattle.std.specs.Prelude.{◌-◌, ◌≡◌};
ghost use Rattle.calls.specs.Call.{copy_query_results};
ghost use Rattle.calls.specs.Did.{Resolves};
ghost use Rattle.calls.specs.Step.{copy_query_results_meaning};
ghost use Rattle.calls.specs.Transfers.{queries_over};
ghost use Rattle.transfer_calls.specs.Resolved.{ResolvedOf};

use crate::resolved::{
    Resolved, ResolvedPlan, copy_queries, query_count, range_of, resolved_answer,
};
use calls::batch::record;
use calls::judge::{Counts, judge, past_u32, query_rooms, spot_of};
use calls::phase::{in_open, range_asks};
use pass::marks::over_run;
use records::args::Buffer;
use records::check::broken_limits;
use records::command::Record;
use records::pipeline::PrivateCapabilities;
use records::state::{Answer, State};

// One command, and so many queries.
fn one_and(queries: usize) -> Counts
    ensures { result ≡ record { commands = 1; bytes = 0; queries = queries } }
{
    Counts {
        commands: 1,
        bytes: 0,
        queries,
    }
}

// The queries that a range asks for: none where it ends before it starts.
fn asked(start: u32, end: u32) -> usize
    ensures { result ≡ end - start }
{
    if end < start {
        return 0;
    }
    (end - start) as usize
}

// The range of the query list ends past 32 bits.
fn queries_over(at: usize, start: u32, end: u32) -> bool
    ensures { result ≡ queries_over at start end }
{
    past_u32(at, asked(start, end))
}

// The count beside its run: one above the run is refused (condition 7), which a slice could not
// say.
pub fn plan_copy_query_results(
    set: &[u32],
    room: usize,
    queries_room: usize,
    count: usize,
    target: u32,
    caps: PrivateCapabilities,
    s: State,
    start: u32,
    end: u32,
    dst: Buffer,
    offset: u64,
) -> ResolvedPlan
    ensures { ResolvedOf set.now room queries_room s (copy_query_results_meaning s (record { queries = record { run = set.now; count = count }; target = target }) start end dst offset) result }
{
    let p = s.progress;
    let phase = p.phase;
    let range = (end < start) | (count < (end as usize));
    let sum = queries_over(p.queries, start, end);
    let short = over_run(set, count);
    let size = query_count(set, count, start, end);
    let c = range_asks(in_open(phase), range, sum, short);
    let rooms = query_rooms(room, queries_room);
    let more = one_and(size);
    let broken = broken_limits(s);
    let v = judge(rooms, broken, p, c, phase, more);
    let place = spot_of(v.ok, p.commands, 1);
    let put = spot_of(v.ok, p.queries, size);
    // Of a call that is turned away no query is read.
    let from = spot_of(v.ok, start as usize, 0);
    let range = range_of(put.at, put.n);
    let outcome = v.outcome;
    let progress = v.progress;
    ResolvedPlan {
        progress,
        batch: Resolved {
            at: place.at,
            n: place.n,
            range,
            dst: dst.raw,
            target: dst.target,
            offset,
        },
        outcome,
        from: from.at,
        to: put.at,
        size: put.n,
    }
}

pub fn copy_query_results(
    list: &mut [Record],
    queries: &mut [u32],
    set: &[u32],
    count: usize,
    target: u32,
    caps: PrivateCapabilities,
    s: State,
    start: u32,
    end: u32,
    dst: Buffer,
    offset: u64,
) -> Answer
    ensures { Resolves caps s (copy_query_results (record { queries = record { run = set.now; count = count }; target = target }) start end dst offset) list.old queries.old result list.new queries.new }
{
    let plan = plan_copy_query_results(
        set,
        list.len(),
        queries.len(),
        count,
        target,
        caps,
        s,
        start,
        end,
        dst,
        offset,
    );
    copy_queries(queries, set, plan);
    record(list, &plan.batch);
    resolved_answer(plan, s)
}
