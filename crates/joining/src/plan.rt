// The plan of a join: what is looked at, the answer, and what is to be written. The contracts cite
// specs/Plan.antt.
ghost use Rattle.std.specs.Prelude.{◌≡◌, ◌+◌, ◌^◌, ◌≤◌, ◌<◌, false, cond, ltb, length};
ghost use Rattle.list_walks.specs.Fold.{fold_at, part};
ghost use Rattle.lists.specs.Survey.{survey_of};
ghost use Rattle.joining.specs.Ending.{resets_by};
ghost use Rattle.joining.specs.Joins.{number, is_done, too_long};
ghost use Rattle.joining.specs.Plan.{none, total, small_by, judged_by, refused_plan, done_plan};
ghost use Rattle.joining.specs.Plan.{look_record, looked_of};

use crate::ending::{Ending, ended, fresh_ending, zero_color};
use lists::limits::{Surveyed, Used, first_survey, survey_between, survey_record};
use mask::count;
use records::check::within;
use records::command::{DepthBiasState, Record};
use records::same::same_depth_bias;

// The lengths of the runs of numbers, the first's before the second's, and how much is used.
#[derive(Clone, Copy)]
pub struct Asked {
    pub bytes: usize,
    pub queries: usize,
    pub other_bytes: usize,
    pub other_queries: usize,
    pub used: Used,
    pub other: Used,
}

// What is known of the first list: its limits, the five at its end, and the length of its run.
#[derive(Clone, Copy)]
pub struct Looked {
    pub surveyed: Surveyed,
    pub ending: Ending,
    pub room: usize,
}

// One enum, since `Joins` and `verdict` (specs/Joins.antt) name `Done` among the answers.
#[derive(Clone, Copy, Debug, PartialEq, Eq)]
pub enum Joining {
    Done,
    // 2
    TooMany,
    // 3
    OutOfRange,
    // 16
    TooLong,
    // 7
    NoRoom,
}

// The first's counts where nothing is written, so no value that a refusal leaves out (the contract
// `Joins` names both).
#[derive(Clone, Copy)]
pub struct Joined {
    pub outcome: Joining,
    pub used: Used,
}

// What is put in between: where, how many commands, and for which five.
#[derive(Clone, Copy)]
pub struct Resets {
    pub at: usize,
    pub n: usize,
    pub ending: Ending,
}

// What is used afterwards, where the second list goes, and how much of it; nothing where the answer
// is not `Done`.
#[derive(Clone, Copy)]
pub struct JoinPlan {
    pub outcome: Joining,
    pub used: Used,
    pub from: Used,
    pub copied: Used,
    pub batch: Resets,
}

fn look_record(l: Looked, i: usize, x: Record) -> Looked
    requires { l.surveyed.draws + 1 < 2 ^ 64 }
    ensures { result ≡ look_record l i x }
{
    let surveyed = survey_record(l.surveyed, i, x);
    let ending = ended(l.ending, x.command);
    Looked {
        surveyed,
        ending,
        ..l
    }
}

fn look_between(list: &[Record], from: usize, to: usize, acc: Looked) -> Looked
    requires { (from ≤ to) × (to ≤ length list.now) × (acc.surveyed.draws ≤ from) }
    ensures { result ≡ fold_at look_record acc from (part list.now from to) }
{
    let mut a = acc;
    for i in from..to {
        a = look_record(a, i, list[i]);
    }
    a
}

// The first list: the used records that are there.
pub(crate) fn look_first(list: &[Record], x: Asked) -> Looked
    ensures { result ≡ looked_of list.now x }
{
    let room = list.len();
    let acc = Looked {
        surveyed: first_survey(x.used, room),
        ending: fresh_ending(),
        room,
    };
    look_between(list, 0, within(x.used.commands, room), acc)
}

// How many commands are put in.
pub(crate) fn resets_count(e: Ending) -> usize
    ensures { (result ≡ length (resets_by e)) × (result ≤ 36) }
{
    let bias = e.bias;
    let blend = e.blend;
    let start = DepthBiasState::new();
    let same = same_depth_bias(bias, start);
    let zero = zero_color(blend);
    let units = count(e.units);
    let first = usize::from(!same);
    let second = usize::from(!zero);
    let third = usize::from(e.alpha);
    let fourth = usize::from(e.clip != 0);
    (units as usize) + (first + (second + (third + fourth)))
}

// A sum of counts beyond a limit; nothing wraps.
fn beyond(limit: usize, a: usize, n: usize, b: usize) -> bool
    requires { (limit ≤ 65536) × (n ≤ 36) }
    ensures { result ≡ ltb limit (a + (n + b)) }
{
    limit < a || limit < b || limit < a + (n + b)
}

// 16.
fn too_long(x: Asked, n: usize) -> bool
    requires { n ≤ 36 }
    ensures { result ≡ too_long (total x n) }
{
    let used = x.used;
    let other = x.other;
    let commands = beyond(4096, used.commands, n, other.commands);
    let bytes = beyond(65536, used.bytes, 0, other.bytes);
    let queries = beyond(1024, used.queries, 0, other.queries);
    commands | (bytes | queries)
}

// 7.
fn too_small(x: Asked, a: Looked, s: Surveyed, n: usize) -> bool
    requires { too_long (total x n) ≡ false }
    ensures { result ≡ small_by x a s (total x n) }
{
    let used = x.used;
    let other = x.other;
    let first = a.surveyed;
    let breaks = first.breaks;
    let others = s.breaks;
    let commands = a.room < used.commands + (n + other.commands);
    let bytes = x.bytes < used.bytes + other.bytes;
    let queries = x.queries < used.queries + other.queries;
    let short = (x.other_bytes < other.bytes) | (x.other_queries < other.queries);
    (breaks.room | others.room) | ((commands | (bytes | queries)) | short)
}

pub(crate) fn judge(x: Asked, a: Looked, s: Surveyed, n: usize) -> Joining
    requires { n ≤ 36 }
    ensures { result ≡ judged_by x a s (total x n) }
{
    let first = a.surveyed;
    let breaks = first.breaks;
    let others = s.breaks;
    if breaks.many | others.many {
        return Joining::TooMany;
    }
    if breaks.range | others.range {
        return Joining::OutOfRange;
    }
    if too_long(x, n) {
        return Joining::TooLong;
    }
    if too_small(x, a, s, n) {
        return Joining::NoRoom;
    }
    Joining::Done
}

pub(crate) fn is_done(outcome: Joining) -> bool
    ensures { result ≡ is_done outcome }
{
    matches!(outcome, Joining::Done)
}

// Document 02's number of the answer.
pub fn join_number(outcome: Joining) -> u8
    ensures { result ≡ number outcome }
{
    match outcome {
        Joining::Done => 0,
        Joining::TooMany => 2,
        Joining::OutOfRange => 3,
        Joining::TooLong => 16,
        Joining::NoRoom => 7,
    }
}

pub(crate) fn refused_plan(outcome: Joining, x: Asked, a: Looked) -> JoinPlan
    ensures { result ≡ refused_plan outcome x a }
{
    let nothing = Used {
        commands: 0,
        bytes: 0,
        queries: 0,
    };
    JoinPlan {
        outcome,
        used: x.used,
        from: nothing,
        copied: nothing,
        batch: Resets {
            at: 0,
            n: 0,
            ending: a.ending,
        },
    }
}

pub(crate) fn done_plan(x: Asked, a: Looked, n: usize) -> JoinPlan
    requires { too_long (total x n) ≡ false }
    ensures { result ≡ done_plan x a n }
{
    let old = x.used;
    let copied = x.other;
    let ending = a.ending;
    let used = Used {
        commands: old.commands + (n + copied.commands),
        bytes: old.bytes + copied.bytes,
        queries: old.queries + copied.queries,
    };
    let from = Used {
        commands: old.commands + n,
        bytes: old.bytes,
        queries: old.queries,
    };
    let batch = Resets {
        at: old.commands,
        n,
        ending,
    };
    JoinPlan {
        outcome: Joining::Done,
        used,
        from,
        copied,
        batch,
    }
}
