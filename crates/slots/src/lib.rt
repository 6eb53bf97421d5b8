// Vertex slots at a draw: `prepare_draw` and `rebind_vertex_data` of gles/command.rs. The commands
// are worked out by count and place. The contracts cite specs/Prepare.antt.
#![tactic(auto)]

ghost use Rattle.std.specs.Prelude.{◌+◌, ◌^◌, ◌<◌, ◌≡◌, SomeIff};
ghost use Rattle.slots.specs.Vertex.{slot_at, step_of};
ghost use Rattle.slots.specs.Prepare.{working as working_of, moved as moved_of, woken as woken_of, instance_offset, slot_offset, slot_over, attribute_over};
ghost use Rattle.mask.specs.Mask.{digit_of};

pub mod command;
pub mod prepare;

use records::command::{AttributeDesc, VertexStepMode};
use records::limits::MAX_VERTEX_BUFFERS;
use records::pipeline::PrivateCapabilities;
use records::state::{VertexSlot, VertexState};

// The instance that the slots are moved on by.
pub fn working(caps: PrivateCapabilities, first: u32) -> u32
    ensures { result ≡ working_of caps first }
{
    if caps.fully_featured_instancing {
        0
    } else {
        first
    }
}

// The slots that the current pipeline steps by instance and that were not last bound with w.
fn moved(v: VertexState, w: u32) -> u32
    ensures { result ≡ moved_of v w }
{
    if v.instance_vbuf_mask == 0 {
        return 0;
    }
    let instances = v.instances;
    mask::mask_where(16, |i| {
        mask::test(v.instance_vbuf_mask, i) & (w != instances[i as usize])
    })
}

// The dirty mask at a draw.
pub(crate) fn woken(v: VertexState, w: u32) -> u32
    ensures { result ≡ woken_of v w }
{
    v.dirty_vbuf_mask | moved(v, w)
}

pub fn slot_at(v: VertexState, i: u32) -> VertexSlot
    ensures { result ≡ slot_at v i }
{
    let buffers = v.buffers;
    buffers
        .get(i as usize)
        .copied()
        .unwrap_or(VertexSlot::new())
}

pub fn step_of(by_instance: bool) -> VertexStepMode
    ensures { result ≡ step_of by_instance }
{
    if by_instance {
        VertexStepMode::Instance
    } else {
        VertexStepMode::Vertex
    }
}

// The step mode as a number: 1 by instance, 0 by vertex.
fn step_digit(by_instance: bool) -> u64
    ensures { result ≡ digit_of by_instance }
{
    by_instance as u64
}

// How far a description moves its slot on. There is no branch on the step mode.
pub(crate) fn instance_offset(by_instance: bool, w: u32, stride: u32) -> u64
    ensures { result ≡ instance_offset (step_of by_instance) w stride }
{
    step_digit(by_instance) * (w as u64) * (stride as u64)
}

// The sum, where it is a `u32`.
pub(crate) fn low_sum(own: u32, offset: u64, more: u64) -> Option<u32>
    ensures { SomeIff result (own + offset + more < 2 ^ 32) (own + offset + more) }
{
    let sum = offset.checked_add(more)?.checked_add(own as u64)?;
    u32::try_from(sum).ok()
}

// How far slot i is moved on.
pub(crate) fn slot_offset(v: VertexState, w: u32, i: u32) -> u64
    ensures { result ≡ slot_offset v w i }
{
    let slot = slot_at(v, i);
    instance_offset(mask::test(v.by_instance, i), w, slot.stride)
}

// Condition 6 of slot i, with layouts.
pub(crate) fn slot_over(v: VertexState, w: u32, i: u32) -> bool
    ensures { result ≡ slot_over v w i }
{
    let slot = slot_at(v, i);
    let more = slot_offset(v, w, i);
    u32::try_from(more).is_err() || slot.offset.checked_add(more).is_none()
}

// Condition 6 of an attribute, without layouts.
pub(crate) fn attribute_over(v: VertexState, w: u32, a: AttributeDesc) -> bool
    ensures { result ≡ attribute_over v w a }
{
    let slot = slot_at(v, a.buffer_index);
    let more = slot_offset(v, w, a.buffer_index);
    u32::try_from(more).is_err() || low_sum(a.offset, slot.offset, more).is_none()
}
