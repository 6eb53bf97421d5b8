// Buffer barriers: which of them are recorded, the plan and its batch. The contracts cite
// specs/Barriers.antt.
ghost use Rattle.std.specs.Prelude.{◌+◌, ◌*◌, ◌-◌, ◌<◌, ◌≡◌, ◌&&◌, eqb, length};
ghost use Rattle.mask.specs.Mask.{digit_of};
ghost use Rattle.records.specs.Check.{some?};
ghost use Rattle.calls.specs.Transfers.{buffer_barriers, buffer_barrier_commands, synchronizes as synchronizes_of, barrier_absent};
ghost use Rattle.transfer_calls.specs.Barriers.{barrier_at, Recorded, BarrierAllowed, barrier_command_at, barrier_answer};

use crate::threes::elements;
use bindings::group::one_if;
use calls::batch::Batch;
use calls::parts::with_progress;
use records::check::within;
use records::command::Command;
use records::outcome::Outcome;
use records::state::{Answer, Progress, State};

// Where the commands go, how many they are, and how many barriers are read.
#[derive(Clone, Copy)]
pub struct Barriers {
    pub at: usize,
    pub n: usize,
    pub count: usize,
}

#[derive(Clone, Copy)]
pub struct BarrierPlan {
    pub progress: Progress,
    pub batch: Barriers,
    pub outcome: Outcome,
}

// Barrier i comes after a storage use.
// Three numbers a place: `barrier_at` of the clause reads the flat run.
fn synchronizes(run: &[u32], i: usize) -> bool
    requires { 3 * i + 2 < length run.now }
    ensures { result ≡ synchronizes_of (barrier_at run.now i) }
{
    let at = 3 * i + 1;
    mask::test(run[at], 8)
}

// Barrier i is recorded, and its buffer is absent.
fn absent(run: &[u32], i: usize) -> bool
    requires { 3 * i + 2 < length run.now }
    ensures { result ≡ barrier_absent (barrier_at run.now i) }
{
    let at = 3 * i;
    synchronizes(run, i) & (run[at] == 0)
}

// How many barriers are recorded.
pub(crate) fn barrier_count(run: &[u32], count: usize) -> usize
    ensures { result ≡ length (buffer_barrier_commands (buffer_barriers (record { run = run.now; count = count }))) }
{
    let all = elements(run.len(), count);
    let mut n: usize = 0;
    for i in (0..all).rev() {
        let some = synchronizes(run, i);
        n = (one_if(some) as usize) + n;
    }
    n
}

// Condition 4.
pub(crate) fn barrier_absent(run: &[u32], count: usize) -> bool
    ensures { result ≡ some? barrier_absent (buffer_barriers (record { run = run.now; count = count })) }
{
    let n = elements(run.len(), count);
    let mut bad = false;
    for i in (0..n).rev() {
        bad = absent(run, i) | bad;
    }
    bad
}

// Barrier j is recorded, and no recorded one is passed over before it.
fn reached(run: &[u32], j: usize, left: usize) -> bool
    requires { 3 * j + 2 < length run.now }
    ensures { result ≡ synchronizes_of (barrier_at run.now j) && eqb left 0 }
{
    synchronizes(run, j) & (left == 0)
}

// How many recorded ones are passed over behind barrier j.
fn left_after(run: &[u32], j: usize, left: usize) -> usize
    requires { 3 * j + 2 < length run.now }
    ensures { result ≡ left - digit_of (synchronizes_of (barrier_at run.now j)) }
{
    let some = synchronizes(run, j);
    left - within(one_if(some) as usize, left)
}

// The place of the recorded barrier number i. A `while`: a `for` would need an answer for a run that
// ends before, which the contract excludes.
fn barrier_place(run: &[u32], count: usize, i: usize) -> usize
    requires { i < length (buffer_barrier_commands (buffer_barriers (record { run = run.now; count = count }))) }
    ensures { Recorded run.now count i result }
{
    let mut j: usize = 0;
    let mut left = i;
    while !reached(run, j, left) {
        left = left_after(run, j, left);
        j = j + 1;
    }
    j
}

// A batch with the barriers that its commands are worked out from.
#[derive(Clone, Copy)]
pub struct BarrierCommands<'a> {
    pub run: &'a [u32],
    pub batch: &'a Barriers,
}

impl<'a> Batch for BarrierCommands<'a> {
    ghost place_of = { λ b. b.batch.now.at };

    ghost count_of = { λ b. b.batch.now.n };

    ghost Allowed = { λ b. BarrierAllowed b.run.now b.batch.now };

    ghost command_at = { λ b. barrier_command_at b.run.now b.batch.now };

    fn at(&self) -> usize {
        self.batch.at
    }

    fn count(&self) -> usize {
        self.batch.n
    }

    fn command(&self, i: usize) -> Command {
        let j = barrier_place(self.run, self.batch.count, i);
        let at = 3 * j;
        Command::BufferBarrier(self.run[at], self.run[at + 2])
    }
}

// As `copies_answer` and `resolved_answer` but for the plan: the contracts name the answer of each.
pub fn barriers_answer(plan: BarrierPlan, s: State) -> Answer
    ensures { result ≡ barrier_answer plan s }
{
    let outcome = plan.outcome;
    let state = with_progress(s, plan.progress);
    Answer { outcome, state }
}
