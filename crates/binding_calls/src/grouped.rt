// A bind group's commands: those of its entries, and then the samplers of the units that it
// touches; the plan and its batch. The contracts cite specs/Grouped.antt.
ghost use Rattle.std.specs.Prelude.{◌≡◌};
ghost use Rattle.binding_calls.specs.Grouped.{GroupAllowed, grouped_at, group_answer};

use bindings::group_command::bind_group_command_at;
use calls::batch::Batch;
use calls::parts::{with_bind, with_progress};
use records::binding::{BindGroup, GroupEntries, PipelineLayout};
use records::command::Command;
use records::outcome::Outcome;
use records::state::{Answer, BindState, Progress, State};

// Where the commands go and how many they are, what the call was handed, how many of the commands
// are the entries', the bind state after them, and the units whose sampler is set again.
#[derive(Clone, Copy)]
pub struct Grouped {
    pub at: usize,
    pub n: usize,
    pub count: usize,
    pub layout: PipelineLayout,
    pub index: u32,
    pub entries: GroupEntries,
    pub group: BindGroup,
    pub first: u32,
    pub bind: BindState,
    pub units: u32,
}

// `after` is the bind state that the call leaves.
#[derive(Clone, Copy)]
pub struct GroupPlan {
    pub progress: Progress,
    pub after: BindState,
    pub batch: Grouped,
    pub outcome: Outcome,
}

// A batch with the dynamic offsets that its commands are worked out from.
#[derive(Clone, Copy)]
pub struct GroupCommands<'a> {
    pub offsets: &'a [u32],
    pub batch: &'a Grouped,
}

impl<'a> Batch for GroupCommands<'a> {
    ghost place_of = { λ b. b.batch.now.at };

    ghost count_of = { λ b. b.batch.now.n };

    ghost Allowed = { λ b. GroupAllowed b.offsets.now b.batch.now };

    ghost command_at = { λ b. grouped_at b.offsets.now b.batch.now };

    fn at(&self) -> usize {
        self.batch.at
    }

    fn count(&self) -> usize {
        self.batch.n
    }

    fn command(&self, i: usize) -> Command {
        let layout = self.batch.layout;
        let entries = self.batch.entries;
        let group = self.batch.group;
        let bind = self.batch.bind;
        bind_group_command_at(
            self.offsets,
            self.batch.count,
            layout,
            self.batch.index,
            entries,
            group,
            self.batch.first,
            bind,
            self.batch.units,
            i as u32,
        )
    }
}

pub fn group_answer(plan: GroupPlan, s: State) -> Answer
    ensures { result ≡ group_answer plan s }
{
    let outcome = plan.outcome;
    let moved = with_progress(s, plan.progress);
    let state = with_bind(moved, plan.after);
    Answer { outcome, state }
}
