// Texture barriers: one command for all uses after a storage write.
ghost use Rattle.std.specs.Prelude.{◌+◌, ◌*◌, ◌<◌, ◌≡◌, cond, ◌||◌, ltb, length, get_or, take};
ghost use Rattle.mask.specs.Mask.{test_bit};
ghost use Rattle.calls.specs.Call.{transition_textures};
ghost use Rattle.calls.specs.Did.{Lists};
ghost use Rattle.single_calls.specs.One.{OneOf};
ghost use Rattle.calls.specs.Step.{transition_textures_meaning};
ghost use Rattle.calls.specs.Transfers.{texture_uses};

use crate::one::{OnePlan, one_answer, plan_one};
use calls::batch::record;
use calls::phase::{in_open, run_asks};
use records::check::{broken_limits, within};
use records::command::{Command, Record};
use records::pipeline::PrivateCapabilities;
use records::state::{Answer, State};

fn pick(some: bool, uses: u32) -> u32
    ensures { result ≡ cond some uses 0 }
{
    if some { uses } else { 0 }
}

// The use after barrier i, where the one before is a storage write or read-write.
fn texture_use(run: &[u32], i: usize) -> u32
    requires { 2 * i + 1 < length run.now }
    ensures { result ≡ cond (test_bit (get_or run.now (2 * i) 0) 9 || test_bit (get_or run.now (2 * i) 0) 10) (get_or run.now (2 * i + 1) 0) 0 }
{
    let at = 2 * i;
    let from = run[at];
    let to = run[at + 1];
    let some = mask::test(from, 9) | mask::test(from, 10);
    pick(some, to)
}

fn texture_uses(run: &[u32], count: usize) -> u32
    ensures { result ≡ texture_uses (take (2 * count) run.now) }
{
    let n = within(count, run.len() / 2);
    let mut uses: u32 = 0;
    for i in (0..n).rev() {
        uses = texture_use(run, i) | uses;
    }
    uses
}

// Condition 7: more barriers counted than the run has.
fn over_pairs(length: usize, count: usize) -> bool
    ensures { result ≡ ltb length (2 * count) }
{
    length / 2 < count
}

pub fn plan_transition_textures(
    barriers: &[u32],
    room: usize,
    count: usize,
    caps: PrivateCapabilities,
    s: State,
) -> OnePlan
    ensures { OneOf room s (transition_textures_meaning caps s (record { run = barriers.now; count = count })) result }
{
    let broken = broken_limits(s);
    let p = s.progress;
    let phase = p.phase;
    let uses = texture_uses(barriers, count);
    let short = over_pairs(barriers.len(), count);
    let c = run_asks(in_open(phase), false, short);
    let some = caps.memory_barriers & (uses != 0);
    plan_one(room, broken, s, c, some, Command::TextureBarrier(uses))
}

pub fn transition_textures(
    list: &mut [Record],
    barriers: &[u32],
    count: usize,
    caps: PrivateCapabilities,
    s: State,
) -> Answer
    ensures { Lists caps s (transition_textures (record { run = barriers.now; count = count })) list.old result list.new }
{
    let plan = plan_transition_textures(barriers, list.len(), count, caps, s);
    record(list, &plan.batch);
    one_answer(plan, s)
}
