// Copies between buffers: the regions, the plan and its batch. The contracts cite specs/Regions.antt.
ghost use Rattle.std.specs.Prelude.{◌+◌, ◌*◌, ◌<◌, ◌≡◌, length};
ghost use Rattle.records.specs.Check.{some?};
ghost use Rattle.calls.specs.Transfers.{regions_of, empty_copy, copy_command};
ghost use Rattle.transfer_calls.specs.Regions.{region_at, CopyAllowed, copy_at, copy_answer};

use crate::threes::elements;
use calls::batch::Batch;
use calls::parts::with_progress;
use records::args::Buffer;
use records::command::{BufferCopy, Command};
use records::outcome::Outcome;
use records::state::{Answer, Progress, State};

const COPY_READ_BUFFER: u32 = 0x8f36;

const COPY_WRITE_BUFFER: u32 = 0x8f37;

// Where the commands go, how many they are, how many regions are read, and the two buffers.
#[derive(Clone, Copy)]
pub struct Copies {
    pub at: usize,
    pub n: usize,
    pub count: usize,
    pub src: Buffer,
    pub dst: Buffer,
}

#[derive(Clone, Copy)]
pub struct CopyPlan {
    pub progress: Progress,
    pub batch: Copies,
    pub outcome: Outcome,
}

// Three numbers a place: `region_at` of the clause reads the flat run.
fn region_at(run: &[u64], i: usize) -> BufferCopy
    requires { 3 * i + 2 < length run.now }
    ensures { result ≡ region_at run.now i }
{
    let at = 3 * i;
    BufferCopy {
        src_offset: run[at],
        dst_offset: run[at + 1],
        size: run[at + 2],
    }
}

// How many copies there are.
pub(crate) fn region_count(run: &[u64], count: usize) -> usize
    ensures { result ≡ length (regions_of (record { run = run.now; count = count })) }
{
    elements(run.len(), count)
}

// Condition 3.
pub(crate) fn empty_region(run: &[u64], count: usize) -> bool
    ensures { result ≡ some? empty_copy (regions_of (record { run = run.now; count = count })) }
{
    let n = elements(run.len(), count);
    let mut bad = false;
    for i in (0..n).rev() {
        let c = region_at(run, i);
        bad = (c.size == 0) | bad;
    }
    bad
}

fn copy_of(src: Buffer, dst: Buffer, copy: BufferCopy) -> Command
    ensures { result ≡ copy_command src dst copy }
{
    if src.target == dst.target {
        Command::CopyBufferToBuffer {
            src: src.raw,
            src_target: COPY_READ_BUFFER,
            dst: dst.raw,
            dst_target: COPY_WRITE_BUFFER,
            copy,
        }
    } else {
        Command::CopyBufferToBuffer {
            src: src.raw,
            src_target: src.target,
            dst: dst.raw,
            dst_target: dst.target,
            copy,
        }
    }
}

// A batch with the regions that its commands are worked out from.
#[derive(Clone, Copy)]
pub struct CopyCommands<'a> {
    pub run: &'a [u64],
    pub batch: &'a Copies,
}

impl<'a> Batch for CopyCommands<'a> {
    ghost place_of = { λ b. b.batch.now.at };

    ghost count_of = { λ b. b.batch.now.n };

    ghost Allowed = { λ b. CopyAllowed b.run.now b.batch.now };

    ghost command_at = { λ b. copy_at b.run.now b.batch.now };

    fn at(&self) -> usize {
        self.batch.at
    }

    fn count(&self) -> usize {
        self.batch.n
    }

    fn command(&self, i: usize) -> Command {
        let src = self.batch.src;
        let dst = self.batch.dst;
        let copy = region_at(self.run, i);
        copy_of(src, dst, copy)
    }
}

pub fn copies_answer(plan: CopyPlan, s: State) -> Answer
    ensures { result ≡ copy_answer plan s }
{
    let outcome = plan.outcome;
    let state = with_progress(s, plan.progress);
    Answer { outcome, state }
}
