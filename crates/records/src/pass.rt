// What the pass beginnings are handed: `RenderPassDescriptor` and `ComputePassDescriptor` of lib.rs.
// The label and the queries of the timestamps' set are lent beside it.
use crate::command::{Extent3d, TextureView};
use crate::limits::MAX_COLOR_ATTACHMENTS;

// `AttachmentOps`.
pub const LOAD: u32 = 1;

pub const LOAD_CLEAR: u32 = 2;

pub const LOAD_DONT_CARE: u32 = 4;

pub const STORE: u32 = 8;

pub const STORE_DISCARD: u32 = 16;

// `FormatAspects`.
pub const ASPECT_COLOR: u32 = 1;

pub const ASPECT_DEPTH: u32 = 2;

pub const ASPECT_STENCIL: u32 = 4;

#[derive(Clone, Copy)]
pub struct ColorF64 {
    pub r: f64,
    pub g: f64,
    pub b: f64,
    pub a: f64,
}

#[derive(Clone, Copy)]
pub struct ColorAttachment {
    pub view: TextureView,
    pub depth_slice: Option<u32>,
    pub resolve_target: Option<TextureView>,
    pub ops: u32,
    pub clear_value: ColorF64,
}

// A colour place: filled or empty.
#[derive(Clone, Copy)]
pub struct ColorPlace {
    pub attachment: Option<ColorAttachment>,
}

#[derive(Clone, Copy)]
pub struct DepthStencilAttachment {
    pub view: TextureView,
    pub depth_ops: u32,
    pub stencil_ops: u32,
    pub clear_depth: f32,
    pub clear_stencil: u32,
}

// The places in the lent query set that are written at the beginning and at the end of the pass.
#[derive(Clone, Copy, Debug, PartialEq, Eq)]
pub struct TimestampWrites {
    pub beginning_of_pass_write_index: Option<u32>,
    pub end_of_pass_write_index: Option<u32>,
}

// An `ArrayVec` is an array beside its count (no heap).
#[derive(Clone, Copy)]
pub struct RenderPassDescriptor {
    pub extent: Extent3d,
    pub sample_count: u32,
    pub color_attachments: [ColorPlace; MAX_COLOR_ATTACHMENTS],
    pub color_attachment_count: usize,
    pub depth_stencil_attachment: Option<DepthStencilAttachment>,
    pub timestamp_writes: Option<TimestampWrites>,
}
