// What `set_render_pipeline` makes of the vertex part of the state. The contracts cite
// specs/Vertex.antt.
ghost use Rattle.std.specs.Prelude.{◌≡◌, cond, get_or};
ghost use Rattle.tables.specs.Tabulate.{tabulate};
ghost use Rattle.mask.specs.Mask.{test_bit};
ghost use Rattle.mask.specs.By.{mask_by};
ghost use Rattle.records.specs.Start.{start_slot};
ghost use Rattle.slots.specs.Vertex.{desc_at};
ghost use Rattle.pipeline.specs.Vertex.{attributes_in, has, pipe_desc, changes, steps_by_instance, step_or, described_slot, pipeline_vertex};
ghost use Rattle.pipeline.specs.Desc.{desc_in};
ghost use Rattle.pipeline.specs.Slots.{attribute_slots};

use crate::desc::{desc_changes, desc_in, described_slot, slot_desc, step_or, steps_by_instance};
use mask::mask_where;
use records::check::counted;
use records::command::AttributeDesc;
use records::limits::{MAX_VERTEX_ATTRIBUTES, MAX_VERTEX_BUFFERS};
use records::pipeline::{PrivateCapabilities, RenderPipeline, VertexBufferLayout};
use records::state::{VertexSlot, VertexState};
use std::array;

// The slots that the pipeline describes.
pub fn described_slots(p: &RenderPipeline) -> u32
    ensures { result ≡ mask_by 16 (λ i. has (pipe_desc p.now i)) }
{
    described_in(&p.vertex_buffers, p.vertex_buffer_count)
}

fn described_in(layouts: &[VertexBufferLayout; MAX_VERTEX_BUFFERS], count: usize) -> u32
    ensures { result ≡ mask_by 16 (λ i. has (desc_in layouts.now count i)) }
{
    mask_where(16, |i| desc_in(layouts, count, i).is_some())
}

// The slots that the pipeline steps by instance.
fn instance_slots(layouts: &[VertexBufferLayout; MAX_VERTEX_BUFFERS], count: usize) -> u32
    ensures { result ≡ mask_by 16 (λ i. steps_by_instance (desc_in layouts.now count i)) }
{
    mask_where(16, |i| steps_by_instance(desc_in(layouts, count, i)))
}

// The slots that step by instance after the call; a slot that the pipeline does not describe is as
// it was.
fn stepped_slots(layouts: &[VertexBufferLayout; MAX_VERTEX_BUFFERS], count: usize, old: u32) -> u32
    ensures { result ≡ mask_by 16 (λ i. step_or (test_bit old i) (desc_in layouts.now count i)) }
{
    mask_where(
        16,
        |i| step_or(mask::test(old, i), desc_in(layouts, count, i)),
    )
}

// The slots that the pipeline describes otherwise than the state does.
fn changed_slots(
    layouts: &[VertexBufferLayout; MAX_VERTEX_BUFFERS],
    count: usize,
    v: VertexState,
) -> u32
    ensures { result ≡ mask_by 16 (λ i. changes (desc_in layouts.now count i) (desc_at v i)) }
{
    let buffers = v.buffers;
    let described = v.described;
    let by_instance = v.by_instance;
    mask_where(16, |i| {
        let old = slot_desc(
            buffers[i as usize],
            mask::test(described, i),
            mask::test(by_instance, i),
        );
        desc_changes(desc_in(layouts, count, i), old)
    })
}

// The slots with the strides of their descriptions.
fn strided_slots(
    layouts: &[VertexBufferLayout; MAX_VERTEX_BUFFERS],
    count: usize,
    buffers: &[VertexSlot; MAX_VERTEX_BUFFERS],
) -> [VertexSlot; MAX_VERTEX_BUFFERS]
    ensures { result ≡ tabulate 16 (λ i. described_slot (desc_in layouts.now count i) (get_or buffers.now i start_slot)) }
{
    array::from_fn(|i| described_slot(desc_in(layouts, count, i as u32), buffers[i]))
}

// The slots of the attributes.
fn attribute_slots(attributes: &[AttributeDesc]) -> u32
    ensures { result ≡ attribute_slots attributes.now }
{
    attributes.iter().fold(0, |slots, a| {
        mask::set_if(slots, a.buffer_index, a.buffer_index < 16)
    })
}

// The dirty slots before those whose description changes.
fn dirty_before(caps: PrivateCapabilities, p: RenderPipeline, dirty: u32) -> u32
    ensures { result ≡ cond caps.vertex_buffer_layout dirty (attribute_slots (attributes_in p)) }
{
    if caps.vertex_buffer_layout {
        dirty
    } else {
        let attributes = p.vertex_attributes;
        attribute_slots(counted(&attributes, p.vertex_attribute_count))
    }
}

// With layouts the state's attributes stay; without, they are the pipeline's.
fn attributes_after(
    caps: PrivateCapabilities,
    p: RenderPipeline,
    v: VertexState,
) -> ([AttributeDesc; MAX_VERTEX_ATTRIBUTES], usize)
    ensures { result ≡ (cond caps.vertex_buffer_layout v.attributes p.vertex_attributes, cond caps.vertex_buffer_layout v.attribute_count p.vertex_attribute_count) }
{
    if caps.vertex_buffer_layout {
        let attributes = v.attributes;
        (attributes, v.attribute_count)
    } else {
        let attributes = p.vertex_attributes;
        (attributes, p.vertex_attribute_count)
    }
}

// The vertex part of the state after the call.
pub fn pipeline_vertex(caps: PrivateCapabilities, p: RenderPipeline, v: VertexState) -> VertexState
    ensures { result ≡ pipeline_vertex caps p v }
{
    let layouts = p.vertex_buffers;
    let count = p.vertex_buffer_count;
    let old = v.buffers;
    let dirty = dirty_before(caps, p, v.dirty_vbuf_mask);
    let buffers = strided_slots(&layouts, count, &old);
    let (attributes, attribute_count) = attributes_after(caps, p, v);
    VertexState {
        described: v.described | described_in(&layouts, count),
        by_instance: stepped_slots(&layouts, count, v.by_instance),
        dirty_vbuf_mask: dirty | changed_slots(&layouts, count, v),
        buffers,
        instance_vbuf_mask: instance_slots(&layouts, count),
        attributes,
        attribute_count,
        ..v
    }
}
