// Draws: the slots that are prepared, and then the draw's own commands; the plan and its batch. The
// contracts cite specs/Drawn.antt.
ghost use Rattle.std.specs.Prelude.{ℕ, ◌+◌, ◌*◌, ◌^◌, ◌<◌, ◌≤◌, ◌≡◌, false, length};
ghost use Rattle.walks.specs.Fill.{filled};
ghost use Rattle.calls.specs.Did.{record_of};
ghost use Rattle.slots.specs.Place.{Stands};
ghost use Rattle.draw_calls.specs.Drawn.{own_commands, own_over, DrawAllowed, drawn_at, draw_answer};
ghost use Rattle.slots.specs.Vertex.{stepped as stepped_of};

use calls::batch::{Batch, record};
use calls::parts::{with_progress, with_vertex};
use records::command::{Command, Record};
use records::limits::MAX_VERTEX_BUFFERS;
use records::outcome::Outcome;
use records::pipeline::PrivateCapabilities;
use records::state::{Answer, Progress, State, VertexState};
use slots::command::command_at;

// A draw's own commands: one, or those of an indirect call, by its count.
#[derive(Clone, Copy)]
pub enum Own {
    One(Command),
    Indirect {
        topology: u32,
        raw: u32,
        offset: u64,
        location: Option<u32>,
        count: u32,
    },
    IndexedIndirect {
        topology: u32,
        index_type: u32,
        raw: u32,
        offset: u64,
        location: Option<u32>,
        count: u32,
    },
}

// Where the commands go and how many they are, what `slots::prepare` works from and gave, and how
// many of the commands are its.
#[derive(Clone, Copy)]
pub struct Drawn {
    pub at: usize,
    pub n: usize,
    pub caps: PrivateCapabilities,
    pub vertex: VertexState,
    pub instance: u32,
    pub places: u32,
    pub first: u32,
    pub own: Own,
}

// The progress, the dirty mask and the slots' instances after the call: the old ones where it is
// refused. Worked out in the plan they keep the call itself small (D75).
#[derive(Clone, Copy)]
pub struct DrawPlan {
    pub progress: Progress,
    pub dirty: u32,
    pub instances: [u32; MAX_VERTEX_BUFFERS],
    pub batch: Drawn,
    pub outcome: Outcome,
}

// The place of record i, or 0 where it leaves its field.
fn record_offset(offset: u64, i: usize, size: u64) -> u64
    requires { (i < 2 ^ 32) × (size < 32) }
    ensures { offset + i * size < 2 ^ 64 → result ≡ offset + i * size }
{
    let more = (i as u64) * size;
    if 18446744073709551615 - offset < more {
        0
    } else {
        offset + more
    }
}

pub(crate) fn own_count(own: Own) -> u32
    ensures { result ≡ length (own_commands own) }
{
    match own {
        Own::One(c) => 1,
        Own::Indirect {
            topology,
            raw,
            offset,
            location,
            count,
        } => count,
        Own::IndexedIndirect {
            topology,
            index_type,
            raw,
            offset,
            location,
            count,
        } => count,
    }
}

fn own_command(own: Own, k: usize) -> Command
    requires { k < 2 ^ 32 }
    ensures { own_over own ≡ false → Stands result k (own_commands own) }
{
    match own {
        Own::One(c) => c,
        Own::Indirect {
            topology,
            raw,
            offset,
            location,
            count,
        } => Command::DrawIndirect {
            topology,
            indirect_buf: raw,
            indirect_offset: record_offset(offset, k, 16),
            first_instance_location: location,
        },
        Own::IndexedIndirect {
            topology,
            index_type,
            raw,
            offset,
            location,
            count,
        } => Command::DrawIndexedIndirect {
            topology,
            index_type,
            indirect_buf: raw,
            indirect_offset: record_offset(offset, k, 20),
            first_instance_location: location,
        },
    }
}

impl Batch for Drawn {
    ghost place_of = { λ b. b.at };

    ghost count_of = { λ b. b.n };

    ghost Allowed = { DrawAllowed };

    ghost command_at = { drawn_at };

    fn at(&self) -> usize {
        self.at
    }

    fn count(&self) -> usize {
        self.n
    }

    fn command(&self, i: usize) -> Command {
        let caps = self.caps;
        let vertex = self.vertex;
        let own = self.own;
        let first = self.first as usize;
        if i < first {
            command_at(caps, vertex, self.instance, self.places, i as u32)
        } else {
            own_command(own, i - first)
        }
    }
}

// The vertex part with this dirty mask and these instances.
fn stepped(v: VertexState, dirty: u32, instances: [u32; MAX_VERTEX_BUFFERS]) -> VertexState
    ensures { result ≡ stepped_of v dirty instances }
{
    let mut next = v;
    next.dirty_vbuf_mask = dirty;
    next.instances = instances;
    next
}

pub fn draw_answer(plan: DrawPlan, s: State) -> Answer
    ensures { result ≡ draw_answer plan s }
{
    let outcome = plan.outcome;
    let progress = plan.progress;
    let vertex = s.vertex;
    let instances = plan.instances;
    let after = stepped(vertex, plan.dirty, instances);
    let moved = with_progress(s, progress);
    let state = with_vertex(moved, after);
    Answer { outcome, state }
}

// The plan by value: where its batch is lent the plan stays in memory, and a draw that sets an instance
// takes 1.8 times as long (docs/BENCHMARKS.md).
pub(crate) fn record_drawn(list: &mut [Record], plan: DrawPlan)
    requires { (plan.batch.at + plan.batch.n ≤ length list.old) × ((i : ℕ) → i < plan.batch.n → DrawAllowed plan.batch i) }
    ensures { list.new ≡ filled (λ i. record_of (drawn_at plan.batch i)) list.old plan.batch.at plan.batch.n }
{
    record(list, &plan.batch);
}
