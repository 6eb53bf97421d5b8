// Handed-in states at both sides of each limit, most of which no call hands back, given to
// `set_vertex_buffer`: one line a state, with document 01's number of what is answered.
#![tactic(auto)]

use calls::encoding::set_vertex_buffer;
use calls::parts::{with_bind, with_fixed, with_immediates, with_pass, with_progress, with_vertex};
use records::outcome::number_of;
use records::pipeline::PrivateCapabilities;
use records::state::{Phase, Progress, State};
use std::io;

fn board() -> PrivateCapabilities {
    PrivateCapabilities {
        memory_barriers: false,
        vertex_buffer_layout: false,
        fully_featured_instancing: false,
        multisampled_render_to_texture: false,
    }
}

// In a render pass, with that much recorded. Kept, a function a change: given as a closure, what its `call_once` requires did not prove.
fn recorded(commands: usize, bytes: usize, queries: usize) -> State {
    let s = State::new();
    let progress = Progress {
        phase: Phase::Render,
        commands,
        bytes,
        queries,
    };
    with_progress(s, progress)
}

// So many attributes, each at location 0.
fn attributes(count: usize) -> State {
    let s = recorded(0, 0, 0);
    let mut vertex = s.vertex;
    vertex.attribute_count = count;
    with_vertex(s, vertex)
}

fn dirty(mask: u32) -> State {
    let s = recorded(0, 0, 0);
    let mut vertex = s.vertex;
    vertex.dirty_vbuf_mask = mask;
    with_vertex(s, vertex)
}

fn targets(count: usize) -> State {
    let s = recorded(0, 0, 0);
    let mut fixed = s.fixed;
    fixed.color_target_count = count;
    with_fixed(s, fixed)
}

fn resolves(count: usize) -> State {
    let s = recorded(0, 0, 0);
    let mut pass = s.pass;
    pass.resolve_count = count;
    with_pass(s, pass)
}

fn invalidated(mask: u32) -> State {
    let s = recorded(0, 0, 0);
    let mut pass = s.pass;
    pass.invalidate_attachments = mask;
    with_pass(s, pass)
}

fn descriptors(count: usize) -> State {
    let s = recorded(0, 0, 0);
    let mut immediates = s.immediates;
    immediates.count = count;
    with_immediates(s, immediates)
}

fn sampled(mask: u32) -> State {
    let s = recorded(0, 0, 0);
    let mut bind = s.bind;
    bind.sampled = mask;
    with_bind(s, bind)
}

// More attributes than the limit, and more commands.
fn two_wrong() -> State {
    let s = recorded(4097, 0, 0);
    let mut vertex = s.vertex;
    vertex.attribute_count = 17;
    with_vertex(s, vertex)
}

// Outside a render pass the phase comes first.
fn closed() -> State {
    let s = State::new();
    let mut vertex = s.vertex;
    vertex.attribute_count = 17;
    with_vertex(s, vertex)
}

// A line: the answer, and what the state is.
fn row(rt: &impl Print, what: &str, s: State) -> io::Result<()> {
    let answer = set_vertex_buffer(board(), s, 0, 1, 0);
    println!(rt; "{} {what}", number_of(answer.outcome))
}

fn counts(rt: &impl Print) -> io::Result<()> {
    row(rt, "as it begins", recorded(0, 0, 0))?;
    row(rt, "4,096 commands", recorded(4096, 0, 0))?;
    row(rt, "4,097 commands", recorded(4097, 0, 0))?;
    row(rt, "65,537 bytes", recorded(0, 65537, 0))?;
    row(rt, "1,025 queries", recorded(0, 0, 1025))
}

fn vertices(rt: &impl Print) -> io::Result<()> {
    row(rt, "1 attribute", attributes(1))?;
    row(rt, "2 attributes at one location", attributes(2))?;
    row(rt, "17 attributes", attributes(17))?;
    row(rt, "slot 15 dirty", dirty(32768))?;
    row(rt, "slot 16 dirty", dirty(65536))
}

fn others(rt: &impl Print) -> io::Result<()> {
    row(rt, "8 targets", targets(8))?;
    row(rt, "9 targets", targets(9))?;
    row(rt, "8 resolves", resolves(8))?;
    row(rt, "9 resolves", resolves(9))?;
    row(rt, "bit 9 invalidated", invalidated(512))?;
    row(rt, "bit 10 invalidated", invalidated(1024))?;
    row(rt, "192 descriptors", descriptors(192))?;
    row(rt, "193 descriptors", descriptors(193))?;
    row(rt, "unit 15 sampled", sampled(32768))?;
    row(rt, "unit 16 sampled", sampled(65536))
}

fn main(rt: HostRuntime) -> io::Result<()> {
    counts(&rt)?;
    vertices(&rt)?;
    others(&rt)?;
    row(&rt, "17 attributes and 4,097 commands", two_wrong())?;
    row(&rt, "outside a render pass, 17 attributes", closed())
}
