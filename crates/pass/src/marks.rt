// Timestamps of a pass. The contracts cite specs/Marks.antt.
ghost use Rattle.std.specs.Prelude.{◌≡◌, ℕ, List, get_or};
ghost use Rattle.pass.specs.Marks.{counted, over_run, query_at, index_out, timestamps_out, timestamp, begin_timestamp, end_timestamp};
ghost use Rattle.pass.specs.Plan.{begin_query_meaning};

use records::check::counted;
use records::pass::TimestampWrites;

// Condition 7: a count above its run.
// The run with its count, as the call is lent them: the clause is over both.
pub fn over_run(set: &[u32], count: usize) -> bool
    ensures { result ≡ over_run (record { run = set.now; count = count }) }
{
    set.len() < count
}

// Query number i of the set; 0 past its counted end.
pub fn query_of(set: &[u32], count: usize, i: u32) -> u32
    ensures { result ≡ get_or (counted (record { run = set.now; count = count })) i 0 }
{
    counted(set, count).get(i as usize).copied().unwrap_or(0)
}

pub(crate) fn query_at(set: &[u32], count: usize, index: Option<u32>) -> Option<u32>
    ensures { result ≡ query_at (record { run = set.now; count = count }) index }
{
    index.map(|i| query_of(set, count, i))
}

// Condition 3: an index past the set.
pub(crate) fn index_out(count: usize, index: Option<u32>) -> bool
    ensures { (run : List ℕ) → result ≡ index_out (record { run = run; count = count }) index }
{
    index.is_some_and(|i| count <= (i as usize))
}

pub fn timestamps_out(count: usize, t: Option<TimestampWrites>) -> bool
    ensures { (run : List ℕ) → result ≡ timestamps_out (record { run = run; count = count }) t }
{
    t.is_some_and(|w| {
        index_out(count, w.beginning_of_pass_write_index)
            | index_out(count, w.end_of_pass_write_index)
    })
}

// The query of the beginning's timestamp.
pub fn begin_query(set: &[u32], count: usize, t: Option<TimestampWrites>) -> Option<u32>
    ensures { (result ≡ begin_query_meaning (record { run = set.now; count = count }) t) × (timestamp result ≡ begin_timestamp (record { run = set.now; count = count }) t) }
{
    query_at(set, count, t?.beginning_of_pass_write_index)
}

// The query that the end of the pass writes.
pub(crate) fn end_timestamp(
    set: &[u32],
    count: usize,
    t: Option<TimestampWrites>,
    old: Option<u32>,
) -> Option<u32>
    ensures { result ≡ end_timestamp (record { run = set.now; count = count }) t old }
{
    match t {
        None => old,
        Some(w) => query_at(set, count, w.end_of_pass_write_index),
    }
}
