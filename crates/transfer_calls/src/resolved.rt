// Query results: the queries that are copied into the query list, the plan and its batch. The
// contracts cite specs/Resolved.antt.
ghost use Rattle.std.specs.Prelude.{◌+◌, ◌<◌, ◌≤◌, ◌≡◌, length};
ghost use Rattle.calls.specs.Transfers.{queries_in};
ghost use Rattle.transfer_calls.specs.Resolved.{resolved_at, resolved_answer, QueriesFit, queries_copied};

use calls::batch::Batch;
use calls::parts::with_progress;
use records::check::within;
use records::command::{Command, RangeU32};
use records::outcome::Outcome;
use records::state::{Answer, Progress, State};

// Where the command goes and whether there is one, the range of the query list, and where its
// results go.
#[derive(Clone, Copy)]
pub struct Resolved {
    pub at: usize,
    pub n: usize,
    pub range: RangeU32,
    pub dst: u32,
    pub target: u32,
    pub offset: u64,
}

// `size` queries of the set, from `from` on, go to the query list from `to` on.
#[derive(Clone, Copy)]
pub struct ResolvedPlan {
    pub progress: Progress,
    pub batch: Resolved,
    pub outcome: Outcome,
    pub from: usize,
    pub to: usize,
    pub size: usize,
}

// How many queries of the range the set has.
pub(crate) fn query_count(set: &[u32], count: usize, start: u32, end: u32) -> usize
    ensures { result ≡ length (queries_in (record { run = set.now; count = count }) start end) }
{
    let last = within(within(count, set.len()), end as usize);
    let first = within(start as usize, last);
    last - first
}

// The range of n queries from `at` on, within the limit of the query list.
pub(crate) fn range_of(at: usize, n: usize) -> RangeU32
    ensures { at + n ≤ 1024 → result ≡ record { start = at; end = at + n } }
{
    let first = within(at, 1024);
    let more = within(n, 1024);
    RangeU32 {
        start: first as u32,
        end: (first + more) as u32,
    }
}

pub fn copy_queries(queries: &mut [u32], set: &[u32], plan: ResolvedPlan)
    requires { QueriesFit set.now plan (length queries.old) }
    ensures { queries.new ≡ queries_copied set.now plan queries.old }
{
    let from = plan.from;
    let to = plan.to;
    let n = plan.size;
    queries[to..to + n].copy_from_slice(&set[from..from + n]);
}

impl Batch for Resolved {
    ghost place_of = { λ b. b.at };

    ghost count_of = { λ b. b.n };

    ghost Allowed = { λ b i. i < 1 };

    ghost command_at = { resolved_at };

    fn at(&self) -> usize {
        self.at
    }

    fn count(&self) -> usize {
        self.n
    }

    fn command(&self, i: usize) -> Command {
        let query_range = self.range;
        Command::CopyQueryResults {
            query_range,
            dst: self.dst,
            dst_target: self.target,
            dst_offset: self.offset,
        }
    }
}

pub fn resolved_answer(plan: ResolvedPlan, s: State) -> Answer
    ensures { result ≡ resolved_answer plan s }
{
    let outcome = plan.outcome;
    let state = with_progress(s, plan.progress);
    Answer { outcome, state }
}
