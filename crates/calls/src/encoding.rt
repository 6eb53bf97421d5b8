// The calls that are handed no run: the beginning and the end of a list, and `set_vertex_buffer`.
ghost use Rattle.std.specs.Prelude.{◌<◌, ◌≡◌, cond, not, true as yes, false as no};
ghost use Rattle.calls.specs.Call.{begin_encoding, end_encoding, set_vertex_buffer};
ghost use Rattle.calls.specs.Did.{Keeps};
ghost use Rattle.calls.specs.Settings.{bound_slot};

use crate::judge::{accepted, judge, no_rooms, nothing};
use crate::parts::{with_progress, with_vertex};
use crate::phase::{in_closed, in_open, in_phase, in_render};
use records::check::{broken_limits, over_room};
use records::outcome::{Conditions, either, outcome_of};
use records::pipeline::PrivateCapabilities;
use records::state::{Answer, Phase, Progress, State, VertexSlot, VertexState};
use slots::slot_at;

// List, board and state are parameters of each call (state by value, the list lent): a struct would
// ask callers for another type.
pub fn begin_encoding(caps: PrivateCapabilities, s: State) -> Answer
    ensures { Keeps caps s begin_encoding result }
{
    let p = s.progress;
    let phase = p.phase;
    let broken = broken_limits(s);
    let held = Conditions {
        phase: false,
        many: broken.many,
        range: broken.range,
        absent: false,
        kind: broken.kind,
        sum: false,
        room: over_room(p, no_rooms()),
    };
    let c = in_phase(in_closed(phase));
    let all = either(held, c);
    let outcome = outcome_of(all);
    if accepted(outcome) {
        let fresh = State::new();
        let open = Progress {
            phase: Phase::Open,
            commands: 0,
            bytes: 0,
            queries: 0,
        };
        let state = with_progress(fresh, open);
        return Answer { outcome, state };
    }
    let state = s;
    Answer { outcome, state }
}

pub fn end_encoding(caps: PrivateCapabilities, s: State) -> Answer
    ensures { Keeps caps s end_encoding result }
{
    let p = s.progress;
    let phase = p.phase;
    let c = in_phase(in_open(phase));
    let rooms = no_rooms();
    let more = nothing();
    let broken = broken_limits(s);
    let v = judge(rooms, broken, p, c, Phase::Closed, more);
    let progress = v.progress;
    let outcome = v.outcome;
    let state = with_progress(s, progress);
    Answer { outcome, state }
}

// The vertex part with slot i bound and dirty, or as it was.
fn bound_slot(ok: bool, v: VertexState, i: u32, raw: u32, offset: u64) -> VertexState
    ensures { (ok ≡ yes → i < 16) → result ≡ cond ok (bound_slot i raw offset v) v }
{
    if !ok {
        return v;
    }
    if 16 <= i {
        return v;
    }
    let at = i as usize;
    let slot = slot_at(v, i);
    let mut buffers = v.buffers;
    buffers[at] = VertexSlot {
        stride: slot.stride,
        raw,
        offset,
    };
    let mut next = v;
    next.bound = mask::set(v.bound, i);
    next.dirty_vbuf_mask = mask::set(v.dirty_vbuf_mask, i);
    next.buffers = buffers;
    next
}

pub fn set_vertex_buffer(
    caps: PrivateCapabilities,
    s: State,
    index: u32,
    buffer: u32,
    offset: u64,
) -> Answer
    ensures { Keeps caps s (set_vertex_buffer index buffer offset) result }
{
    let p = s.progress;
    let phase = p.phase;
    let vertex = s.vertex;
    let c = Conditions {
        range: 16 <= index,
        absent: buffer == 0,
        ..in_phase(in_render(phase))
    };
    let rooms = no_rooms();
    let more = nothing();
    let broken = broken_limits(s);
    let v = judge(rooms, broken, p, c, phase, more);
    let progress = v.progress;
    let outcome = v.outcome;
    let after = bound_slot(v.ok, vertex, index, buffer, offset);
    let moved = with_progress(s, progress);
    let state = with_vertex(moved, after);
    Answer { outcome, state }
}
