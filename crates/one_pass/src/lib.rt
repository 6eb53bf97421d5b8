// A whole list, recorded by one function over lent runs with the public calls: `begin_encoding`, a
// render pass with one pipeline, one vertex buffer and one draw, and `end_encoding`. What the order
// theorem says of the list that it hands back stands in specs/InOrder.antt.
#![tactic(auto)]

ghost use Rattle.std.specs.Prelude.{◌≡◌};
ghost use Rattle.one_pass.specs.Script.{pass_of, Records};

use calls::encoding::{begin_encoding, end_encoding, set_vertex_buffer};
use draw_calls::draws::draw;
use pass_calls::begins::begin_render_pass;
use pass_calls::ends::end_render_pass;
use pipeline_calls::render::set_render_pipeline;
use records::command::Record;
use records::pass::RenderPassDescriptor;
use records::pipeline::{PrivateCapabilities, RenderPipeline};
use records::state::{Answer, State};

// The state that the next call is handed.
fn next_state(a: Answer) -> State
    ensures { result ≡ a.state }
{
    a.state
}

// `list` and `bytes` are written; `label` and the query set are read, as far as their counts say.
// A call that is turned away leaves state and runs, and the next one is made all the same. The
// answer is that of `end_encoding`.
// List, board and state are parameters of each call (state by value, the list lent): a struct would
// ask callers for another type.
pub fn record_pass(
    list: &mut [Record],
    bytes: &mut [u8],
    label: &[u8],
    set: &[u32],
    has_label: bool,
    label_count: usize,
    set_count: usize,
    caps: PrivateCapabilities,
    s: State,
    d: RenderPassDescriptor,
    p: RenderPipeline,
    slot: u32,
    buffer: u32,
    offset: u64,
    first_vertex: u32,
    vertex_count: u32,
    first_instance: u32,
    instance_count: u32,
) -> Answer
    ensures { Records caps s (pass_of d (record { present = has_label; bytes = record { run = label.now; count = label_count } }) (record { run = set.now; count = set_count }) p slot buffer offset first_vertex vertex_count first_instance instance_count) list.old bytes.old result list.new bytes.new }
{
    let begun = begin_encoding(caps, s);
    let open = next_state(begun);
    let entered = begin_render_pass(
        list,
        bytes,
        label,
        set,
        has_label,
        label_count,
        set_count,
        caps,
        open,
        d,
    );
    let inside = next_state(entered);
    let piped = set_render_pipeline(list, caps, inside, p);
    let ready = next_state(piped);
    let bound = set_vertex_buffer(caps, ready, slot, buffer, offset);
    let set_up = next_state(bound);
    let drawn = draw(
        list,
        caps,
        set_up,
        first_vertex,
        vertex_count,
        first_instance,
        instance_count,
    );
    let shown = next_state(drawn);
    let ended = end_render_pass(list, caps, shown);
    let outside = next_state(ended);
    end_encoding(caps, outside)
}
