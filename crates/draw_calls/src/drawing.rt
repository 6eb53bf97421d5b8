// The plan of a draw: its slots prepared, its conditions, its place in the list, what it changes.
ghost use Rattle.std.specs.Prelude.{◌≡◌, false as no};
ghost use Rattle.records.specs.Check.{broken_limits};
ghost use Rattle.draw_calls.specs.Drawn.{own_commands, own_over, DrawOf};
ghost use Rattle.calls.specs.Step.{drawing};

use crate::drawn::{DrawPlan, Drawn, Own, own_count};
use calls::judge::{commands_only, judge, list_rooms, spot_of, taken};
use calls::phase::{in_phase, in_render};
use records::check::Broken;
use records::outcome::Conditions;
use records::pipeline::PrivateCapabilities;
use records::state::State;
use slots::prepare::{prepare, remembered};

// A draw whose slots are moved on by instance w, in a state that breaks the limits `broken`.
// `absent` and `over` are conditions 4 and 6 of its own commands.
pub(crate) fn plan_drawing(
    room: usize,
    caps: PrivateCapabilities,
    broken: Broken,
    s: State,
    w: u32,
    absent: bool,
    over: bool,
    own: Own,
) -> DrawPlan
    ensures { broken ≡ broken_limits s → (over ≡ no → own_over own ≡ no) → DrawOf room s (drawing caps s w absent over (own_commands own)) result }
{
    let p = s.progress;
    let phase = p.phase;
    let vertex = s.vertex;
    let ready = prepare(caps, vertex, w);
    let n = (ready.count as usize) + (own_count(own) as usize);
    let rooms = list_rooms(room);
    let more = commands_only(n);
    let c = Conditions {
        absent,
        sum: ready.over | over,
        ..in_phase(in_render(phase))
    };
    let v = judge(rooms, broken, p, c, phase, more);
    let place = spot_of(v.ok, p.commands, n);
    let progress = v.progress;
    let outcome = v.outcome;
    let dirty = taken(v.ok, ready.dirty, vertex.dirty_vbuf_mask);
    let bound = taken(v.ok, ready.cleared, 0);
    let old = vertex.instances;
    let instances = remembered(old, bound, w);
    DrawPlan {
        progress,
        dirty,
        instances,
        batch: Drawn {
            at: place.at,
            n: place.n,
            caps,
            vertex,
            instance: w,
            places: ready.places,
            first: ready.count,
            own,
        },
        outcome,
    }
}
