// Whether a call is carried through: the smallest number whose condition holds of the call or of
// the state that it is handed, and the progress after it. The contracts cite specs/Judge.antt.
ghost use Rattle.std.specs.Prelude.{◌+◌, ◌^◌, ◌≡◌, leb, ltb, cond};
ghost use Rattle.records.specs.Check.{over_room};
ghost use Rattle.records.specs.Outcome.{accepted as accepted_of};
ghost use Rattle.calls.specs.Judge.{grown, judged_by, taken};
ghost use Rattle.calls.specs.Planned.{list_rooms, byte_rooms, query_rooms, commands_only, no_rooms, nothing as nothing_of};

use records::check::{Broken, Rooms, over_room};
use records::limits::{MAX_BYTES, MAX_COMMANDS, MAX_QUERIES};
use records::outcome::{Conditions, Outcome, outcome_of};
use records::state::{Phase, Progress};

// How much a call appends to each run.
#[derive(Clone, Copy)]
pub struct Counts {
    pub commands: usize,
    pub bytes: usize,
    pub queries: usize,
}

// More than a limit, without a sum that leaves its field.
fn exceeds(limit: usize, used: usize, more: usize) -> bool
    ensures { result ≡ ltb limit (used + more) }
{
    if limit < used {
        return true;
    }
    limit - used < more
}

// A sum past 32 bits, without one that leaves its field.
pub fn past_u32(used: usize, more: usize) -> bool
    ensures { result ≡ leb (2 ^ 32) (used + more) }
{
    exceeds(4294967295, used, more)
}

fn over_after(p: Progress, phase: Phase, more: Counts, r: Rooms) -> bool
    ensures { result ≡ over_room (grown p phase more) r }
{
    exceeds(MAX_COMMANDS, p.commands, more.commands)
        | (exceeds(MAX_BYTES, p.bytes, more.bytes)
            | (exceeds(MAX_QUERIES, p.queries, more.queries)
                | (exceeds(r.commands, p.commands, more.commands)
                    | (exceeds(r.bytes, p.bytes, more.bytes)
                        | exceeds(r.queries, p.queries, more.queries)))))
}

pub fn accepted(outcome: Outcome) -> bool
    ensures { result ≡ accepted_of outcome }
{
    matches!(outcome, Outcome::Done)
}

// The smallest number whose condition holds, of a call with conditions `c` that ends in `phase` and
// appends `more`. The state that it is handed breaks the limits `broken` and has the progress `p`.
fn outcome_for(
    rooms: Rooms,
    broken: Broken,
    p: Progress,
    c: Conditions,
    phase: Phase,
    more: Counts,
) -> Outcome
    ensures { result ≡ judged_by rooms broken p c phase more }
{
    let full = over_room(p, rooms);
    let over = over_after(p, phase, more, rooms);
    let all = Conditions {
        many: broken.many | c.many,
        range: broken.range | c.range,
        kind: broken.kind | c.kind,
        room: full | (c.room | over),
        ..c
    };
    outcome_of(all)
}

// No `Result`: the plan of a refused call has a progress and a place too, and each part would match anew.
#[derive(Clone, Copy)]
pub struct Verdict {
    pub outcome: Outcome,
    pub ok: bool,
    pub progress: Progress,
}

pub fn judge(
    rooms: Rooms,
    broken: Broken,
    p: Progress,
    c: Conditions,
    phase: Phase,
    more: Counts,
) -> Verdict
    ensures { (result.outcome ≡ judged_by rooms broken p c phase more) × (result.ok ≡ accepted_of (judged_by rooms broken p c phase more)) × (result.progress ≡ taken (judged_by rooms broken p c phase more) (grown p phase more) p) }
{
    let outcome = outcome_for(rooms, broken, p, c, phase, more);
    if accepted(outcome) {
        return Verdict {
            outcome,
            ok: true,
            progress: Progress {
                phase,
                commands: p.commands + more.commands,
                bytes: p.bytes + more.bytes,
                queries: p.queries + more.queries,
            },
        };
    }
    Verdict {
        outcome,
        ok: false,
        progress: p,
    }
}

// What a call that is carried through makes of a part of the state, and a refused one leaves.
pub fn taken<T: Copy>(ok: bool, new: T, old: T) -> T
    ensures { result ≡ cond ok new old }
{
    if ok { new } else { old }
}

// The rooms of a call that is handed the command list alone.
pub fn list_rooms(room: usize) -> Rooms
    ensures { result ≡ list_rooms room }
{
    Rooms {
        commands: room,
        bytes: MAX_BYTES,
        queries: MAX_QUERIES,
    }
}

// The rooms of a call that is handed the command list and the marker bytes.
pub fn byte_rooms(room: usize, bytes: usize) -> Rooms
    ensures { result ≡ byte_rooms room bytes }
{
    Rooms {
        commands: room,
        bytes,
        queries: MAX_QUERIES,
    }
}

// The rooms of a call that is handed the command list and the query list.
pub fn query_rooms(room: usize, queries: usize) -> Rooms
    ensures { result ≡ query_rooms room queries }
{
    Rooms {
        commands: room,
        bytes: MAX_BYTES,
        queries,
    }
}

// The rooms of a call that is handed no run.
pub fn no_rooms() -> Rooms
    ensures { result ≡ no_rooms }
{
    Rooms {
        commands: MAX_COMMANDS,
        bytes: MAX_BYTES,
        queries: MAX_QUERIES,
    }
}

pub fn nothing() -> Counts
    ensures { result ≡ nothing_of }
{
    Counts {
        commands: 0,
        bytes: 0,
        queries: 0,
    }
}

pub fn commands_only(n: usize) -> Counts
    ensures { result ≡ commands_only n }
{
    Counts {
        commands: n,
        bytes: 0,
        queries: 0,
    }
}

// Where the commands of a call go, and how many: none of a call that is turned away.
#[derive(Clone, Copy)]
pub struct Spot {
    pub at: usize,
    pub n: usize,
}

pub fn spot_of(ok: bool, at: usize, n: usize) -> Spot
    ensures { (result.at ≡ cond ok at 0) × (result.n ≡ cond ok n 0) }
{
    if ok {
        Spot { at, n }
    } else {
        Spot { at: 0, n: 0 }
    }
}
