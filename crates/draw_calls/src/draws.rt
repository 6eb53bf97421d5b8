// The four draw calls. The contracts cite specs/Step.antt and Did.antt.
ghost use Rattle.std.specs.Prelude.{◌^◌, ◌<◌, ◌≡◌};
ghost use Rattle.calls.specs.Call.{draw as draw_of, draw_indexed, draw_indirect, draw_indexed_indirect};
ghost use Rattle.calls.specs.Did.{Lists};
ghost use Rattle.draw_calls.specs.Drawn.{DrawOf};
ghost use Rattle.calls.specs.Draws.{index_type_of, index_size, index_over, index_offset_of, indirect_over, indirect_absent};
ghost use Rattle.calls.specs.Parts.{draw_args};
ghost use Rattle.calls.specs.Step.{draw_meaning, draw_indexed_meaning, draw_indirect_meaning, draw_indexed_indirect_meaning};

use crate::drawing::plan_drawing;
use crate::drawn::{DrawPlan, Own, draw_answer, record_drawn};
use records::check::broken_limits;
use records::command::{Command, Record};
use records::pipeline::PrivateCapabilities;
use records::state::{Answer, DrawState, IndexFormat, State};
use slots::working;

// List, board and state are parameters of each call (state by value, the list lent): a struct would
// ask callers for another type.
pub fn plan_draw(
    room: usize,
    caps: PrivateCapabilities,
    s: State,
    first_vertex: u32,
    vertex_count: u32,
    first_instance: u32,
    instance_count: u32,
) -> DrawPlan
    ensures { DrawOf room s (draw_meaning caps s first_vertex vertex_count first_instance instance_count) result }
{
    let broken = broken_limits(s);
    let d = s.draw;
    let location = d.first_instance_location;
    let w = working(caps, first_instance);
    let own = Own::One(Command::Draw {
        topology: d.topology,
        first_vertex,
        vertex_count,
        first_instance,
        instance_count,
        first_instance_location: location,
    });
    plan_drawing(room, caps, broken, s, w, false, false, own)
}

pub fn draw(
    list: &mut [Record],
    caps: PrivateCapabilities,
    s: State,
    first_vertex: u32,
    vertex_count: u32,
    first_instance: u32,
    instance_count: u32,
) -> Answer
    ensures { Lists caps s (draw_of first_vertex vertex_count first_instance instance_count) list.old result list.new }
{
    let plan = plan_draw(
        list.len(),
        caps,
        s,
        first_vertex,
        vertex_count,
        first_instance,
        instance_count,
    );
    record_drawn(list, plan);
    draw_answer(plan, s)
}

fn index_type(format: IndexFormat) -> u32
    ensures { result ≡ index_type_of format }
{
    match format {
        IndexFormat::Uint16 => 5123,
        IndexFormat::Uint32 => 5125,
    }
}

fn index_size(format: IndexFormat) -> u64
    ensures { result ≡ index_size format }
{
    match format {
        IndexFormat::Uint16 => 2,
        IndexFormat::Uint32 => 4,
    }
}

// The index offset, or 0 where it leaves its field.
fn index_offset(d: DrawState, first: u32) -> u64
    ensures { index_offset_of (draw_args d) first < 2 ^ 64 → result ≡ index_offset_of (draw_args d) first }
{
    let format = d.index_format;
    let size = index_size(format);
    let more = size * (first as u64);
    if 18446744073709551615 - d.index_offset < more {
        0
    } else {
        d.index_offset + more
    }
}

fn index_over(d: DrawState, first: u32) -> bool
    ensures { result ≡ index_over (draw_args d) first }
{
    let format = d.index_format;
    let size = index_size(format);
    let more = size * (first as u64);
    18446744073709551615 - d.index_offset < more
}

pub fn plan_draw_indexed(
    room: usize,
    caps: PrivateCapabilities,
    s: State,
    first_index: u32,
    index_count: u32,
    base_vertex: i32,
    first_instance: u32,
    instance_count: u32,
) -> DrawPlan
    ensures { DrawOf room s (draw_indexed_meaning caps s first_index index_count base_vertex first_instance instance_count) result }
{
    let broken = broken_limits(s);
    let d = s.draw;
    let location = d.first_instance_location;
    let format = d.index_format;
    let w = working(caps, first_instance);
    let over = index_over(d, first_index);
    let own = Own::One(Command::DrawIndexed {
        topology: d.topology,
        index_type: index_type(format),
        index_count,
        index_offset: index_offset(d, first_index),
        base_vertex,
        first_instance,
        instance_count,
        first_instance_location: location,
    });
    plan_drawing(room, caps, broken, s, w, false, over, own)
}

pub fn draw_indexed(
    list: &mut [Record],
    caps: PrivateCapabilities,
    s: State,
    first_index: u32,
    index_count: u32,
    base_vertex: i32,
    first_instance: u32,
    instance_count: u32,
) -> Answer
    ensures { Lists caps s (draw_indexed first_index index_count base_vertex first_instance instance_count) list.old result list.new }
{
    let plan = plan_draw_indexed(
        list.len(),
        caps,
        s,
        first_index,
        index_count,
        base_vertex,
        first_instance,
        instance_count,
    );
    record_drawn(list, plan);
    draw_answer(plan, s)
}

// Whether the offset of the last of `count` records of `size` bytes leaves its field.
fn indirect_over(size: u64, offset: u64, count: u32) -> bool
    requires { size < 32 }
    ensures { result ≡ indirect_over size offset count }
{
    if count == 0 {
        return false;
    }
    let more = ((count - 1) as u64) * size;
    18446744073709551615 - offset < more
}

fn indirect_absent(raw: u32, count: u32) -> bool
    ensures { result ≡ indirect_absent raw count }
{
    (0 < count) & (raw == 0)
}

pub fn plan_draw_indirect(
    room: usize,
    caps: PrivateCapabilities,
    s: State,
    buffer: u32,
    offset: u64,
    draw_count: u32,
) -> DrawPlan
    ensures { DrawOf room s (draw_indirect_meaning caps s buffer offset draw_count) result }
{
    let broken = broken_limits(s);
    let d = s.draw;
    let location = d.first_instance_location;
    let absent = indirect_absent(buffer, draw_count);
    let over = indirect_over(16, offset, draw_count);
    let own = Own::Indirect {
        topology: d.topology,
        raw: buffer,
        offset,
        location,
        count: draw_count,
    };
    plan_drawing(room, caps, broken, s, 0, absent, over, own)
}

pub fn draw_indirect(
    list: &mut [Record],
    caps: PrivateCapabilities,
    s: State,
    buffer: u32,
    offset: u64,
    draw_count: u32,
) -> Answer
    ensures { Lists caps s (draw_indirect buffer offset draw_count) list.old result list.new }
{
    let plan = plan_draw_indirect(list.len(), caps, s, buffer, offset, draw_count);
    record_drawn(list, plan);
    draw_answer(plan, s)
}

pub fn plan_draw_indexed_indirect(
    room: usize,
    caps: PrivateCapabilities,
    s: State,
    buffer: u32,
    offset: u64,
    draw_count: u32,
) -> DrawPlan
    ensures { DrawOf room s (draw_indexed_indirect_meaning caps s buffer offset draw_count) result }
{
    let broken = broken_limits(s);
    let d = s.draw;
    let location = d.first_instance_location;
    let format = d.index_format;
    let absent = indirect_absent(buffer, draw_count);
    let over = indirect_over(20, offset, draw_count);
    let own = Own::IndexedIndirect {
        topology: d.topology,
        index_type: index_type(format),
        raw: buffer,
        offset,
        location,
        count: draw_count,
    };
    plan_drawing(room, caps, broken, s, 0, absent, over, own)
}

pub fn draw_indexed_indirect(
    list: &mut [Record],
    caps: PrivateCapabilities,
    s: State,
    buffer: u32,
    offset: u64,
    draw_count: u32,
) -> Answer
    ensures { Lists caps s (draw_indexed_indirect buffer offset draw_count) list.old result list.new }
{
    let plan = plan_draw_indexed_indirect(list.len(), caps, s, buffer, offset, draw_count);
    record_drawn(list, plan);
    draw_answer(plan, s)
}
