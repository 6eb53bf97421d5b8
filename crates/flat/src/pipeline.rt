// The arguments of the two pipeline calls.
use crate::fixed::{take_bias, take_depth_state, take_primitive, take_stencil, take_topology};
use crate::inner::take_inner;
use crate::line::{Line, Wrong};
use crate::targets::take_target;
use crate::vertex::{take_attribute, take_slot};
use records::command::{AttributeDesc, ColorTargetDesc};
use records::limits::{MAX_COLOR_ATTACHMENTS, MAX_VERTEX_ATTRIBUTES, MAX_VERTEX_BUFFERS};
use records::pipeline::{ComputePipeline, RenderPipeline, VertexBufferLayout};

pub fn take_render_pipeline(line: &mut Line) -> Result<RenderPipeline, Wrong> {
    let inner = take_inner(line)?;
    let topology = take_topology(line)?;
    let primitive = take_primitive(line)?;
    let mut vertex_buffers = [VertexBufferLayout { desc: None }; MAX_VERTEX_BUFFERS];
    let vertex_buffer_count = line.take_list(&mut vertex_buffers, take_slot)?;
    let mut vertex_attributes = [AttributeDesc::new(); MAX_VERTEX_ATTRIBUTES];
    let vertex_attribute_count = line.take_list(&mut vertex_attributes, take_attribute)?;
    let mut color_targets = [ColorTargetDesc::new(); MAX_COLOR_ATTACHMENTS];
    let color_target_count = line.take_list(&mut color_targets, take_target)?;
    let depth = line.take_option(take_depth_state)?;
    let depth_bias = take_bias(line)?;
    let stencil = line.take_option(take_stencil)?;
    let alpha_to_coverage_enabled = line.take_bool()?;
    Ok(RenderPipeline {
        inner,
        topology,
        primitive,
        vertex_buffers,
        vertex_buffer_count,
        vertex_attributes,
        vertex_attribute_count,
        color_targets,
        color_target_count,
        depth,
        depth_bias,
        stencil,
        alpha_to_coverage_enabled,
    })
}

pub fn take_compute_pipeline(line: &mut Line) -> Result<ComputePipeline, Wrong> {
    let inner = take_inner(line)?;
    Ok(ComputePipeline { inner })
}
