// The commands that a draw records before its own, by place.
ghost use Rattle.std.specs.Prelude.{◌+◌, ◌^◌, ◌≡◌, false, get_or};
ghost use Rattle.records.specs.Start.{start_attribute};
ghost use Rattle.slots.specs.Vertex.{attributes_of};
ghost use Rattle.slots.specs.Prepare.{buffer_command, attribute_command, slot_over, attribute_over, slot_desc, prepared, prepared_over};
ghost use Rattle.slots.specs.Place.{within, Stands};
ghost use Rattle.slots.specs.Sent.{prepared_places};

use crate::{low_sum, slot_at, slot_offset, step_of};
use records::check::counted;
use records::command::{AttributeDesc, BufferBinding, Command, VertexBufferDesc};
use records::pipeline::PrivateCapabilities;
use records::state::VertexState;

fn slot_desc(v: VertexState, i: u32) -> VertexBufferDesc
    ensures { result ≡ slot_desc v i }
{
    let slot = slot_at(v, i);
    let step = step_of(mask::test(v.by_instance, i));
    VertexBufferDesc {
        step,
        stride: slot.stride,
    }
}

// The sum, or 0 where it leaves its field.
fn sum_of(offset: u64, more: u64) -> u64
    ensures { result ≡ within (2 ^ 64) (offset + more) }
{
    offset.checked_add(more).unwrap_or(0)
}

fn buffer_command(v: VertexState, w: u32, i: u32) -> Command
    ensures { slot_over v w i ≡ false → result ≡ buffer_command v w i }
{
    let slot = slot_at(v, i);
    let more = slot_offset(v, w, i);
    let desc = slot_desc(v, i);
    Command::SetVertexBuffer {
        index: i,
        buffer: BufferBinding {
            raw: slot.raw,
            offset: sum_of(slot.offset, more),
        },
        buffer_desc: desc,
    }
}

fn attribute_command(v: VertexState, w: u32, a: AttributeDesc) -> Command
    ensures { attribute_over v w a ≡ false → result ≡ attribute_command v w a }
{
    let slot = slot_at(v, a.buffer_index);
    let more = slot_offset(v, w, a.buffer_index);
    let desc = slot_desc(v, a.buffer_index);
    let format_desc = a.format_desc;
    Command::SetVertexAttribute {
        buffer: Some(slot.raw),
        buffer_desc: desc,
        attribute_desc: AttributeDesc {
            location: a.location,
            offset: low_sum(a.offset, slot.offset, more).unwrap_or(0),
            buffer_index: a.buffer_index,
            format_desc,
        },
    }
}

fn attribute_at(v: VertexState, i: u32) -> AttributeDesc
    ensures { result ≡ get_or (attributes_of v) i start_attribute }
{
    let attributes = v.attributes;
    counted(&attributes, v.attribute_count)
        .get(i as usize)
        .copied()
        .unwrap_or(AttributeDesc::new())
}

// Command number k of a draw's, by the places that `prepare` gives.
pub fn command_at(caps: PrivateCapabilities, v: VertexState, w: u32, places: u32, k: u32) -> Command
    ensures { places ≡ prepared_places caps v w → prepared_over caps v w ≡ false → Stands result k (prepared caps v w) }
{
    let i = mask::nth(places, k);
    if caps.vertex_buffer_layout {
        buffer_command(v, w, i)
    } else {
        let a = attribute_at(v, i);
        attribute_command(v, w, a)
    }
}
