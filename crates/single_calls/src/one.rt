// Calls of one command: the plan and its batch. The contracts cite specs/One.antt.
ghost use Rattle.std.specs.Prelude.{◌<◌, ◌≡◌, length};
ghost use Rattle.records.specs.Check.{broken_limits};
ghost use Rattle.records.specs.declared.command.Command.{Command};
ghost use Rattle.calls.specs.Planned.{listed, moved};
ghost use Rattle.pipeline.specs.Fixed.{only};
ghost use Rattle.single_calls.specs.One.{OneFor, one_answer};

use calls::batch::Batch;
use calls::judge::{commands_only, judge, list_rooms, spot_of};
use calls::parts::{with_draw, with_progress};
use records::check::Broken;
use records::command::Command;
use records::outcome::{Conditions, Outcome};
use records::state::{Answer, DrawState, Progress, State};

// Where the command goes, and whether there is one.
#[derive(Clone, Copy)]
pub struct One {
    pub at: usize,
    pub n: usize,
    pub command: Command,
}

#[derive(Clone, Copy)]
pub struct OnePlan {
    pub progress: Progress,
    pub draw: DrawState,
    pub batch: One,
    pub outcome: Outcome,
}

impl Batch for One {
    ghost place_of = { λ b. b.at };

    ghost count_of = { λ b. b.n };

    ghost Allowed = { λ b i. i < 1 };

    ghost command_at = { λ b i. b.command };

    fn at(&self) -> usize {
        self.at
    }

    fn count(&self) -> usize {
        self.n
    }

    fn command(&self, i: usize) -> Command {
        self.command
    }
}

pub fn one_answer(plan: OnePlan, s: State) -> Answer
    ensures { result ≡ one_answer plan s }
{
    let outcome = plan.outcome;
    let moved = with_progress(s, plan.progress);
    let state = with_draw(moved, plan.draw);
    Answer { outcome, state }
}

// One command, or none.
fn count_of(some: bool) -> usize
    ensures { (c : Command) → result ≡ length (only some c) }
{
    if some { 1 } else { 0 }
}

// The plan of a call that stays in its phase, leaves the state as it is, and records the command
// where `some` says so. `broken` has the limits that the state breaks.
// `some` beside the command, no `Option`: `only` of the contract takes the two apart.
pub(crate) fn plan_one(
    room: usize,
    broken: Broken,
    s: State,
    c: Conditions,
    some: bool,
    command: Command,
) -> OnePlan
    ensures { broken ≡ broken_limits s → OneFor room s (listed room s c (length (only some command))) (moved s (length (only some command)) s) (only some command) result }
{
    let p = s.progress;
    let n = count_of(some);
    let rooms = list_rooms(room);
    let more = commands_only(n);
    let phase = p.phase;
    let v = judge(rooms, broken, p, c, phase, more);
    let place = spot_of(v.ok, p.commands, n);
    let outcome = v.outcome;
    let progress = v.progress;
    let draw = s.draw;
    OnePlan {
        progress,
        draw,
        batch: One {
            at: place.at,
            n: place.n,
            command,
        },
        outcome,
    }
}
