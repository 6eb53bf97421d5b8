// What the pipeline calls are handed: `RenderPipeline`, `ComputePipeline` and `PipelineInner` of
// gles/mod.rs. An `ArrayVec` is an array beside its count (no heap); an element that may be missing is
// a struct that holds the `Option`.
use crate::command::{
    AttributeDesc, ColorTargetDesc, DepthBiasState, DepthState, ImmediateDesc, VertexBufferDesc,
};
use crate::limits::{
    MAX_COLOR_ATTACHMENTS, MAX_IMMEDIATES_COMMANDS, MAX_TEXTURE_SLOTS, MAX_VERTEX_ATTRIBUTES,
    MAX_VERTEX_BUFFERS,
};
use names::gl::StencilState;
use names::wgt::{PrimitiveState, PrimitiveTopology};

// The flags of a board, of `PrivateCapabilities` those that the recorder reads.
#[derive(Clone, Copy, Debug, PartialEq, Eq)]
pub struct PrivateCapabilities {
    pub memory_barriers: bool,
    pub vertex_buffer_layout: bool,
    pub fully_featured_instancing: bool,
    pub multisampled_render_to_texture: bool,
}

#[derive(Clone, Copy, Debug, PartialEq, Eq)]
pub struct VertexBufferLayout {
    pub desc: Option<VertexBufferDesc>,
}

// The sampler that a texture unit takes: an entry of `SamplerBindMap`.
#[derive(Clone, Copy, Debug, PartialEq, Eq)]
pub struct SamplerBind {
    pub sampler_index: Option<u32>,
}

#[derive(Clone, Copy)]
pub struct PipelineInner {
    pub program: u32,
    pub sampler_map: [SamplerBind; MAX_TEXTURE_SLOTS],
    pub first_instance_location: Option<u32>,
    pub immediates_descs: [ImmediateDesc; MAX_IMMEDIATES_COMMANDS],
    pub immediates_count: usize,
    pub clip_distance_count: u32,
}

#[derive(Clone, Copy)]
pub struct RenderPipeline {
    pub inner: PipelineInner,
    pub topology: PrimitiveTopology,
    pub primitive: PrimitiveState,
    pub vertex_buffers: [VertexBufferLayout; MAX_VERTEX_BUFFERS],
    pub vertex_buffer_count: usize,
    pub vertex_attributes: [AttributeDesc; MAX_VERTEX_ATTRIBUTES],
    pub vertex_attribute_count: usize,
    pub color_targets: [ColorTargetDesc; MAX_COLOR_ATTACHMENTS],
    pub color_target_count: usize,
    pub depth: Option<DepthState>,
    pub depth_bias: DepthBiasState,
    pub stencil: Option<StencilState>,
    pub alpha_to_coverage_enabled: bool,
}

#[derive(Clone, Copy)]
pub struct ComputePipeline {
    pub inner: PipelineInner,
}
