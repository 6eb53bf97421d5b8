// The vertex attributes of `set_render_pipeline`: its commands and what they are refused for. The
// contracts cite specs/Vertex.antt.
ghost use Rattle.std.specs.Prelude.{◌≤◌, ◌≡◌, map, get_or, length, None};
ghost use Rattle.records.specs.Start.{start_attribute};
ghost use Rattle.slots.specs.Place.{Stands};
ghost use Rattle.slots.specs.Vertex.{attributes_of};
ghost use Rattle.records.specs.declared.command.Command.TheVariants.{SetVertexAttribute};
ghost use Rattle.pipeline.specs.Desc.{desc_in};
ghost use Rattle.pipeline.specs.Vertex.{desc_or, unset_attribute, vertex_commands, vertex_too_many, vertex_out_of_range, vertex_absent, vertex_twice};

use crate::desc::desc_in;
use records::check::{bad_attribute, counted, scan_attributes, within};
use records::command::{AttributeDesc, Command, VertexBufferDesc, VertexStepMode};
use records::limits::{MAX_VERTEX_ATTRIBUTES, MAX_VERTEX_BUFFERS};
use records::pipeline::{PrivateCapabilities, RenderPipeline, VertexBufferLayout};
use records::state::VertexState;

fn attribute_in(attributes: &[AttributeDesc], i: u32) -> AttributeDesc
    ensures { result ≡ get_or attributes.now i start_attribute }
{
    attributes
        .get(i as usize)
        .copied()
        .unwrap_or(AttributeDesc::new())
}

fn set_attribute(
    layouts: &[VertexBufferLayout; MAX_VERTEX_BUFFERS],
    count: usize,
    a: AttributeDesc,
) -> Command
    ensures { result ≡ SetVertexAttribute None (desc_or (desc_in layouts.now count a.buffer_index)) a }
{
    Command::SetVertexAttribute {
        buffer: None,
        buffer_desc: desc_in(layouts, count, a.buffer_index).unwrap_or(VertexBufferDesc {
            step: VertexStepMode::Vertex,
            stride: 0,
        }),
        attribute_desc: a,
    }
}

// How many attributes the state holds: one is unset a command.
pub(crate) fn unset_count(v: VertexState) -> u32
    ensures { (result ≡ length (map unset_attribute (attributes_of v))) × (result ≤ 16) }
{
    within(v.attribute_count, MAX_VERTEX_ATTRIBUTES) as u32
}

pub(crate) fn unset_command_at(v: VertexState, k: u32) -> Command
    ensures { Stands result k (map unset_attribute (attributes_of v)) }
{
    let attributes = v.attributes;
    let a = attribute_in(counted(&attributes, v.attribute_count), k);
    Command::UnsetVertexAttribute(a.location)
}

pub(crate) fn vertex_count(caps: PrivateCapabilities, p: RenderPipeline, v: VertexState) -> u32
    ensures { (result ≡ length (vertex_commands caps p v)) × (result ≤ 16) }
{
    if caps.vertex_buffer_layout {
        within(p.vertex_attribute_count, MAX_VERTEX_ATTRIBUTES) as u32
    } else {
        unset_count(v)
    }
}

// Command number k of the vertex part.
pub(crate) fn vertex_command_at(
    caps: PrivateCapabilities,
    p: RenderPipeline,
    v: VertexState,
    k: u32,
) -> Command
    ensures { Stands result k (vertex_commands caps p v) }
{
    if caps.vertex_buffer_layout {
        let attributes = p.vertex_attributes;
        let layouts = p.vertex_buffers;
        let a = attribute_in(counted(&attributes, p.vertex_attribute_count), k);
        set_attribute(&layouts, p.vertex_buffer_count, a)
    } else {
        unset_command_at(v, k)
    }
}

// Condition 2.
pub fn vertex_too_many(p: RenderPipeline) -> bool
    ensures { result ≡ vertex_too_many p }
{
    (MAX_VERTEX_BUFFERS < p.vertex_buffer_count)
        | (MAX_VERTEX_ATTRIBUTES < p.vertex_attribute_count)
}

// Condition 3: a location or a slot of 16 or more.
pub fn vertex_out_of_range(p: RenderPipeline) -> bool
    ensures { result ≡ vertex_out_of_range p }
{
    let listed = p.vertex_attributes;
    let attributes = counted(&listed, p.vertex_attribute_count);
    attributes.iter().any(|a| bad_attribute(*a))
}

// Condition 5: a location stands twice.
pub fn vertex_twice(p: RenderPipeline) -> bool
    ensures { result ≡ vertex_twice p }
{
    let attributes = p.vertex_attributes;
    let scan = scan_attributes(attributes, p.vertex_attribute_count);
    scan.twice
}

// Condition 4: an attribute's slot has no description.
pub fn vertex_absent(p: RenderPipeline) -> bool
    ensures { result ≡ vertex_absent p }
{
    let listed = p.vertex_attributes;
    let layouts = p.vertex_buffers;
    let count = p.vertex_buffer_count;
    let attributes = counted(&listed, p.vertex_attribute_count);
    attributes
        .iter()
        .any(|a| desc_in(&layouts, count, a.buffer_index).is_none())
}
