// `set_immediates`: the plan, its batch, and how its marker bytes are written. The contracts cite
// specs/ImmediatePlans.antt.
ghost use Rattle.std.specs.Prelude.{◌+◌, ◌^◌, ◌≡◌, ◌&&◌, ltb, leb, length};
ghost use Rattle.calls.specs.Step.{set_immediates_meaning};
ghost use Rattle.binding_calls.specs.ImmediatePlans.{WorkedOf, SendAllowed, sent_at, BytesFit, bytes_sent, ImmediateOf, immediate_answer};

use bindings::immediate_command::{Placed, immediate_command_at, place_descriptors};
use bindings::immediates::{immediates_after, out_of_range, picked};
use calls::batch::Batch;
use calls::judge::{Counts, byte_rooms, judge, past_u32, spot_of, taken};
use calls::parts::{with_immediates, with_progress};
use calls::phase::{in_pass, range_asks};
use numbers::bytes::byte_at;
use pass::marks::over_run;
use records::check::{broken_limits, within};
use records::command::Command;
use records::limits::{MAX_BYTES, MAX_IMMEDIATES};
use records::outcome::Outcome;
use records::pipeline::PrivateCapabilities;
use records::state::{Answer, ImmediateState, Progress, State};

// What a call sends: the descriptors that it sends with the new words, the places of their bytes,
// how many commands and bytes there are.
#[derive(Clone, Copy)]
pub struct Worked {
    pub state: ImmediateState,
    pub placed: Placed,
    pub n: usize,
    pub size: usize,
}

// Where the commands and the bytes go, how many they are, and what they are worked out from.
#[derive(Clone, Copy)]
pub struct Sending {
    pub at: usize,
    pub n: usize,
    pub put: usize,
    pub size: usize,
    pub state: ImmediateState,
    pub placed: Placed,
}

// `words` are those that the call leaves, `sent` the flag.
#[derive(Clone, Copy)]
pub struct ImmediatePlan {
    pub progress: Progress,
    pub words: [u32; MAX_IMMEDIATES],
    pub batch: Sending,
    pub outcome: Outcome,
    pub sent: bool,
}

impl Batch for Sending {
    ghost place_of = { λ b. b.at };

    ghost count_of = { λ b. b.n };

    ghost Allowed = { SendAllowed };

    ghost command_at = { sent_at };

    fn at(&self) -> usize {
        self.at
    }

    fn count(&self) -> usize {
        self.n
    }

    fn command(&self, i: usize) -> Command {
        let state = self.state;
        let placed = self.placed;
        immediate_command_at(state, placed, i as u32)
    }
}

pub fn sent_answer(plan: ImmediatePlan, s: State) -> Answer
    ensures { result ≡ immediate_answer plan s }
{
    let outcome = plan.outcome;
    let words = plan.words;
    let mut immediates = s.immediates;
    immediates.words = words;
    immediates.sent = plan.sent;
    let moved = with_progress(s, plan.progress);
    let state = with_immediates(moved, immediates);
    Answer { outcome, state }
}

// The bytes of the plan, one pass over its descriptors: i bytes are written, the next one is byte k
// of descriptor j. `words` are not read: the plan has them. A `while`: a turn writes a byte or goes
// on to the next descriptor.
pub fn write_bytes(bytes: &mut [u8], words: &[u32], plan: ImmediatePlan)
    requires { BytesFit plan (length bytes.old) }
    ensures { bytes.new ≡ bytes_sent plan bytes.old }
{
    let batch = plan.batch;
    let state = batch.state;
    let at = batch.put;
    let n = batch.size;
    let descs = state.descs;
    let sent = state.words;
    let mut i: usize = 0;
    let mut j: usize = 0;
    let mut k: u32 = 0;
    while i < n {
        let d = descs[j];
        if k < d.size_bytes {
            let word = ((d.offset / 4) as usize) + ((k / 4) as usize);
            bytes[at + i] = byte_at(sent[word], k % 4);
            i += 1;
            k += 1;
        } else {
            j += 1;
            k = 0;
        }
    }
}

// What a call sends that writes `count` words from the byte `offset` on, with `used` marker bytes
// before it.
fn work_out(words: &[u32], count: usize, i: ImmediateState, offset: u32, used: usize) -> Worked
    ensures { WorkedOf words.now count i offset used result }
{
    let after = immediates_after(words, count, i, offset);
    let first = within(used, MAX_BYTES);
    let start = offset / 4;
    let end = start + (within(count, 65) as u32);
    let mut state = picked(i, start, end);
    let placed = place_descriptors(state, first as u32);
    let n = state.count;
    let size = placed.total as usize;
    let new = after.words;
    state.words = new;
    Worked {
        state,
        placed,
        n,
        size,
    }
}

// Whether the last of n descriptors' bytes, `size` in all behind `used` others, end past 32 bits.
fn ends_past(n: usize, used: usize, size: usize) -> bool
    ensures { result ≡ ltb 0 n && leb (2 ^ 32) (used + size) }
{
    (0 < n) & past_u32(used, size)
}

pub fn plan_set_immediates(
    words: &[u32],
    room: usize,
    bytes_room: usize,
    count: usize,
    caps: PrivateCapabilities,
    s: State,
    offset: u32,
) -> ImmediatePlan
    ensures { ImmediateOf room bytes_room s (set_immediates_meaning s offset (record { run = words.now; count = count })) result }
{
    let p = s.progress;
    let phase = p.phase;
    let old = s.immediates;
    let range = out_of_range(offset, count);
    let short = over_run(words, count);
    let w = work_out(words, count, old, offset, p.bytes);
    let past = ends_past(w.n, p.bytes, w.size);
    let c = range_asks(in_pass(phase), range, past, short);
    let state = w.state;
    let placed = w.placed;
    let rooms = byte_rooms(room, bytes_room);
    let more = Counts {
        commands: w.n,
        bytes: w.size,
        queries: 0,
    };
    let broken = broken_limits(s);
    let v = judge(rooms, broken, p, c, phase, more);
    let place = spot_of(v.ok, p.commands, w.n);
    let put = spot_of(v.ok, p.bytes, w.size);
    let outcome = v.outcome;
    let progress = v.progress;
    let new = state.words;
    let kept = old.words;
    let words = taken(v.ok, new, kept);
    let sent = v.ok | old.sent;
    ImmediatePlan {
        progress,
        words,
        batch: Sending {
            at: place.at,
            n: place.n,
            put: put.at,
            size: put.n,
            state,
            placed,
        },
        outcome,
        sent,
    }
}
