// The state as a call leaves it: its progress, and the parts that it changes where it is carried
// through.
ghost use Rattle.std.specs.Prelude.{◌≡◌, cond};
ghost use Rattle.names.specs.Maps.{primitive_topology};
ghost use Rattle.calls.specs.Parts.{with_progress, with_vertex, with_draw, with_fixed, with_bind, with_immediates, with_location, with_topology};

use calls::judge::taken;
use calls::parts::{with_bind, with_draw, with_fixed, with_immediates, with_progress, with_vertex};
use names::map_primitive_topology;
use names::wgt::PrimitiveTopology;
use records::state::{
    BindState, DrawState, FixedState, ImmediateState, Progress, State, VertexState,
};

pub(crate) fn with_location(d: DrawState, location: Option<u32>) -> DrawState
    ensures { result ≡ with_location location d }
{
    DrawState {
        first_instance_location: location,
        ..d
    }
}

pub(crate) fn with_topology(d: DrawState, topology: PrimitiveTopology) -> DrawState
    ensures { result ≡ with_topology (primitive_topology topology) d }
{
    DrawState {
        topology: map_primitive_topology(topology),
        ..d
    }
}

// The parts that every pipeline changes.
pub(crate) fn shared_moved(
    ok: bool,
    s: State,
    progress: Progress,
    draw: DrawState,
    bind: BindState,
    immediates: ImmediateState,
) -> State
    ensures { result ≡ with_progress progress (cond ok (with_draw draw (with_bind bind (with_immediates immediates s))) s) }
{
    let old_draw = s.draw;
    let old_bind = s.bind;
    let old_immediates = s.immediates;
    let moved = with_progress(s, progress);
    let new_draw = taken(ok, draw, old_draw);
    let drawn = with_draw(moved, new_draw);
    let new_bind = taken(ok, bind, old_bind);
    let bound = with_bind(drawn, new_bind);
    let new_immediates = taken(ok, immediates, old_immediates);
    with_immediates(bound, new_immediates)
}

// A state whose other parts have moved, with the parts that only a render pipeline changes.
pub(crate) fn render_moved(
    ok: bool,
    s: State,
    shared: State,
    vertex: VertexState,
    fixed: FixedState,
) -> State
    ensures { result ≡ with_vertex (cond ok vertex s.vertex) (with_fixed (cond ok fixed s.fixed) shared) }
{
    let old_vertex = s.vertex;
    let old_fixed = s.fixed;
    let new_fixed = taken(ok, fixed, old_fixed);
    let set = with_fixed(shared, new_fixed);
    let new_vertex = taken(ok, vertex, old_vertex);
    with_vertex(set, new_vertex)
}
