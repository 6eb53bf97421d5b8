// Two lists joined: the second is appended to the first, in its runs. The contracts cite
// specs/Joins.antt and specs/Plan.antt.
ghost use Rattle.std.specs.Prelude.{◌≡◌, ℕ, ◌+◌, ◌≤◌, ◌<◌, length, get_or};
ghost use Rattle.std.proofs.Math.Seq.{paste};
ghost use Rattle.records.specs.declared.command.Command.TheVariants.{PopDebugGroup};
ghost use Rattle.walks.specs.Fill.{filled};
ghost use Rattle.list_walks.specs.Map.{map_at};
ghost use Rattle.joining.specs.Ending.{rest_by};
ghost use Rattle.joining.specs.Joins.{record_of, lent, Joins};
ghost use Rattle.joining.specs.Plan.{numbers_by, planned_of, reset_at, Allowed, moved_record, ListJoined, RunsFit, RunsJoined};

use crate::ending::{Ending, no_color, zero_color};
use crate::moving::moved_record;
use crate::plan::{
    Asked, JoinPlan, Joined, Looked, Resets, done_plan, is_done, judge, look_first, refused_plan,
    resets_count,
};
use lists::limits::{Surveyed, Used, survey};
use mask::{count, nth};
use records::command::{Command, DepthBiasState, Record};
use records::same::same_depth_bias;

// Of what is put in, the command past the samplers at a place.
fn rest_at(e: Ending, k: usize) -> Command
    ensures { result ≡ get_or (rest_by e) k PopDebugGroup }
{
    let bias = e.bias;
    let blend = e.blend;
    let start = DepthBiasState::new();
    let same = same_depth_bias(bias, start);
    let zero = zero_color(blend);
    let first = usize::from(!same);
    let second = usize::from(!zero);
    let third = usize::from(e.alpha);
    let fourth = usize::from(e.clip != 0);
    if k < first {
        return Command::SetDepthBias(start);
    }
    let k1 = k - first;
    if k1 < second {
        let none = no_color();
        return Command::SetBlendConstant(none);
    }
    let k2 = k1 - second;
    if k2 < third {
        return Command::SetAlphaToCoverage(false);
    }
    let k3 = k2 - third;
    if k3 < fourth {
        return Command::SetClipDistances {
            old_count: e.clip,
            new_count: 0,
        };
    }
    Command::PopDebugGroup
}

// The command at a place.
fn reset_at(batch: Resets, i: usize) -> Command
    requires { Allowed batch i }
    ensures { result ≡ reset_at batch i }
{
    let e = batch.ending;
    let units = e.units;
    let n = count(units) as usize;
    if i < n {
        let unit = nth(units, i as u32);
        return Command::BindSampler(unit, None);
    }
    rest_at(e, i - n)
}

// Not `calls::record`: this crate does not depend on `calls`.
fn put_in(list: &mut [Record], batch: Resets)
    requires { (batch.at + batch.n ≤ length list.old) × ((i : ℕ) → i < batch.n → Allowed batch i) }
    ensures { list.new ≡ filled (λ i. record_of (reset_at batch i)) list.old batch.at batch.n }
{
    for i in 0..batch.n {
        let command = reset_at(batch, i);
        list[batch.at + i] = Record { command };
    }
}

fn copy_moved(src: &[Record], dst: &mut [Record], plan: JoinPlan)
    requires { (plan.copied.commands ≤ length src.now) × (plan.from.commands + plan.copied.commands ≤ length dst.old) }
    ensures { dst.new ≡ paste dst.old plan.from.commands (map_at (moved_record plan) 0 src.now) plan.copied.commands }
{
    for i in 0..plan.copied.commands {
        dst[plan.from.commands + i] = moved_record(plan, i, src[i]);
    }
}

// The answer, and what is to be written for it.
fn plan_join(x: Asked, a: Looked, s: Surveyed) -> JoinPlan
    ensures { result ≡ planned_of x a s }
{
    let ending = a.ending;
    let n = resets_count(ending);
    let outcome = judge(x, a, s, n);
    if is_done(outcome) {
        done_plan(x, a, n)
    } else {
        refused_plan(outcome, x, a)
    }
}

// The commands: nothing is written unless the answer is `Done`.
fn join_list(list: &mut [Record], other: &[Record], x: Asked) -> JoinPlan
    ensures { ListJoined list.old other.now x list.new result }
{
    let a = look_first(list, x);
    let s = survey(other, x.other);
    let plan = plan_join(x, a, s);
    put_in(list, plan.batch);
    copy_moved(other, list, plan);
    plan
}

// The marker bytes and the queries, and the answer.
fn join_runs(
    bytes: &mut [u8],
    queries: &mut [u32],
    other_bytes: &[u8],
    other_queries: &[u32],
    plan: JoinPlan,
) -> Joined
    requires { RunsFit bytes.old queries.old other_bytes.now other_queries.now plan }
    ensures { RunsJoined bytes.old queries.old other_bytes.now other_queries.now plan bytes.new queries.new result }
{
    let from = plan.from;
    let copied = plan.copied;
    bytes[from.bytes..from.bytes + copied.bytes].copy_from_slice(&other_bytes[..copied.bytes]);
    queries[from.queries..from.queries + copied.queries].copy_from_slice(
        &other_queries[..copied.queries],
    );
    Joined {
        outcome: plan.outcome,
        used: plan.used,
    }
}

// The second list behind the first, in the first's runs; `used` and `other_used` say how much of the
// runs is used. Where the answer is not `Done`, nothing is written.
pub fn join(
    list: &mut [Record],
    bytes: &mut [u8],
    queries: &mut [u32],
    other: &[Record],
    other_bytes: &[u8],
    other_queries: &[u32],
    used: Used,
    other_used: Used,
) -> Joined
    ensures { Joins (lent list.old bytes.old queries.old used) (lent other.now other_bytes.now other_queries.now other_used) (lent list.new bytes.new queries.new result.used) result.outcome }
{
    let x = Asked {
        bytes: bytes.len(),
        queries: queries.len(),
        other_bytes: other_bytes.len(),
        other_queries: other_queries.len(),
        used,
        other: other_used,
    };
    let plan = join_list(list, other, x);
    join_runs(bytes, queries, other_bytes, other_queries, plan)
}
