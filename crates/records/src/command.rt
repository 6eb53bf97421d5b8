// The commands of the list: `Command` of gles/mod.rs without texture copies and debug markers other
// than pass labels. Names and field order are the Rust's. No case holds an array.
ghost use Rattle.std.specs.Prelude.{◌≡◌};
ghost use Rattle.records.specs.Start.{start_attribute, start_depth_bias, start_extent, start_target};

use names::gl::{BlendDesc, PrimitiveState, StencilOps};

// Ranges and colours by their number, no generic: the contracts name each, and floats derive no
// `Eq`.
#[derive(Clone, Copy, Debug, PartialEq, Eq)]
pub struct RangeU32 {
    pub start: u32,
    pub end: u32,
}

#[derive(Clone, Copy, Debug, PartialEq, Eq)]
pub struct MemoryRange {
    pub start: u64,
    pub end: u64,
}

#[derive(Clone, Copy, Debug, PartialEq, Eq)]
pub struct BufferCopy {
    pub src_offset: u64,
    pub dst_offset: u64,
    pub size: u64,
}

#[derive(Clone, Copy, Debug, PartialEq, Eq)]
pub struct Extent3d {
    pub width: u32,
    pub height: u32,
    pub depth_or_array_layers: u32,
}

impl Extent3d {
    // One texel each way.
    pub const SIDE: u32 = 1;

    pub fn new() -> Self
        ensures { result ≡ start_extent }
    {
        Extent3d {
            width: Extent3d::SIDE,
            height: Extent3d::SIDE,
            depth_or_array_layers: Extent3d::SIDE,
        }
    }
}

#[derive(Clone, Copy, Debug, PartialEq, Eq)]
pub struct RectI32 {
    pub x: i32,
    pub y: i32,
    pub w: i32,
    pub h: i32,
}

#[derive(Clone, Copy)]
pub struct DepthRange {
    pub start: f32,
    pub end: f32,
}

// Four floats: the blend constants.
#[derive(Clone, Copy)]
pub struct ColorF32 {
    pub r: f32,
    pub g: f32,
    pub b: f32,
    pub a: f32,
}

// A clear colour: four floats and whether the view is sRGB.
#[derive(Clone, Copy)]
pub struct ClearColor {
    pub r: f32,
    pub g: f32,
    pub b: f32,
    pub a: f32,
    pub is_srgb: bool,
}

#[derive(Clone, Copy, Debug, PartialEq, Eq)]
pub struct ColorU32 {
    pub r: u32,
    pub g: u32,
    pub b: u32,
    pub a: u32,
}

#[derive(Clone, Copy, Debug, PartialEq, Eq)]
pub struct ColorI32 {
    pub r: i32,
    pub g: i32,
    pub b: i32,
    pub a: i32,
}

#[derive(Clone, Copy, Debug, PartialEq, Eq)]
pub enum TextureInner {
    Renderbuffer(u32),
    DefaultRenderbuffer,
    Texture { raw: u32, target: u32 },
    ExternalNativeFramebuffer(u32),
}

// In place of the format: what a sample of it is.
#[derive(Clone, Copy, Debug, PartialEq, Eq)]
pub enum SampleKind {
    Float,
    Uint,
    Sint,
    Depth,
}

#[derive(Clone, Copy, Debug, PartialEq, Eq)]
pub struct TextureView {
    pub inner: TextureInner,
    pub aspects: u32,
    pub mip_levels: RangeU32,
    pub array_layers: RangeU32,
    pub kind: SampleKind,
    pub is_srgb: bool,
}

#[derive(Clone, Copy, Debug, PartialEq, Eq)]
pub enum VertexStepMode {
    Vertex,
    Instance,
}

#[derive(Clone, Copy, Debug, PartialEq, Eq)]
pub struct VertexBufferDesc {
    pub step: VertexStepMode,
    pub stride: u32,
}

#[derive(Clone, Copy, Debug, PartialEq, Eq)]
pub struct BufferBinding {
    pub raw: u32,
    pub offset: u64,
}

#[derive(Clone, Copy, Debug, PartialEq, Eq)]
pub enum VertexAttribKind {
    Float,
    Integer,
}

#[derive(Clone, Copy, Debug, PartialEq, Eq)]
pub struct VertexFormatDesc {
    pub element_count: i32,
    pub element_format: u32,
    pub attrib_kind: VertexAttribKind,
}

#[derive(Clone, Copy, Debug, PartialEq, Eq)]
pub struct AttributeDesc {
    pub location: u32,
    pub offset: u32,
    pub buffer_index: u32,
    pub format_desc: VertexFormatDesc,
}

impl AttributeDesc {
    pub fn new() -> Self
        ensures { result ≡ start_attribute }
    {
        let format_desc = VertexFormatDesc {
            element_count: 0,
            element_format: 0,
            attrib_kind: VertexAttribKind::Float,
        };
        AttributeDesc {
            location: 0,
            offset: 0,
            buffer_index: 0,
            format_desc,
        }
    }
}

#[derive(Clone, Copy, Debug, PartialEq, Eq)]
pub struct ImageBinding {
    pub raw: u32,
    pub mip_level: u32,
    pub array_layer: Option<u32>,
    pub access: u32,
    pub format: u32,
}

#[derive(Clone, Copy, Debug, PartialEq, Eq)]
pub struct ImmediateDesc {
    pub location: u32,
    pub ty: u32,
    pub offset: u32,
    pub size_bytes: u32,
}

#[derive(Clone, Copy, Debug, PartialEq, Eq)]
pub struct DepthState {
    pub function: u32,
    pub mask: bool,
}

// The two floats are held as their bits, so that equality by bits is exact.
#[derive(Clone, Copy, Debug, PartialEq, Eq)]
pub struct DepthBiasState {
    pub constant: i32,
    pub slope_scale: u32,
    pub clamp: u32,
}

impl DepthBiasState {
    pub fn new() -> Self
        ensures { result ≡ start_depth_bias }
    {
        DepthBiasState {
            constant: 0,
            slope_scale: 0,
            clamp: 0,
        }
    }
}

#[derive(Clone, Copy, Debug, PartialEq, Eq)]
pub struct ColorTargetDesc {
    pub mask: u32,
    pub blend: Option<BlendDesc>,
}

impl ColorTargetDesc {
    // All four channels are written.
    pub const MASK: u32 = 15;

    pub fn new() -> Self
        ensures { result ≡ start_target }
    {
        ColorTargetDesc {
            mask: ColorTargetDesc::MASK,
            blend: None,
        }
    }
}

#[derive(Clone, Copy)]
pub enum Command {
    Draw {
        topology: u32,
        first_vertex: u32,
        vertex_count: u32,
        first_instance: u32,
        instance_count: u32,
        first_instance_location: Option<u32>,
    },
    DrawIndexed {
        topology: u32,
        index_type: u32,
        index_count: u32,
        index_offset: u64,
        base_vertex: i32,
        first_instance: u32,
        instance_count: u32,
        first_instance_location: Option<u32>,
    },
    DrawIndirect {
        topology: u32,
        indirect_buf: u32,
        indirect_offset: u64,
        first_instance_location: Option<u32>,
    },
    DrawIndexedIndirect {
        topology: u32,
        index_type: u32,
        indirect_buf: u32,
        indirect_offset: u64,
        first_instance_location: Option<u32>,
    },
    Dispatch(u32, u32, u32),
    DispatchIndirect {
        indirect_buf: u32,
        indirect_offset: u64,
    },
    ClearBuffer {
        dst: u32,
        dst_target: u32,
        range: MemoryRange,
    },
    CopyBufferToBuffer {
        src: u32,
        src_target: u32,
        dst: u32,
        dst_target: u32,
        copy: BufferCopy,
    },
    SetIndexBuffer(u32),
    BeginQuery(u32, u32),
    EndQuery(u32),
    TimestampQuery(u32),
    CopyQueryResults {
        query_range: RangeU32,
        dst: u32,
        dst_target: u32,
        dst_offset: u64,
    },
    ResetFramebuffer {
        is_default: bool,
    },
    BindAttachment {
        attachment: u32,
        view: TextureView,
        depth_slice: Option<u32>,
        sample_count: u32,
    },
    ResolveAttachment {
        attachment: u32,
        dst: TextureView,
        size: Extent3d,
    },
    InvalidateAttachments(u32),
    SetDrawColorBuffers(u32),
    ClearColorF {
        draw_buffer: u32,
        color: ClearColor,
    },
    ClearColorU(u32, ColorU32),
    ClearColorI(u32, ColorI32),
    ClearDepth(f32),
    ClearStencil(u32),
    ClearDepthAndStencil(f32, u32),
    BufferBarrier(u32, u32),
    TextureBarrier(u32),
    SetViewport {
        rect: RectI32,
        depth: DepthRange,
    },
    SetScissor(RectI32),
    SetStencilFunc {
        face: u32,
        function: u32,
        reference: u32,
        read_mask: u32,
    },
    SetStencilOps {
        face: u32,
        write_mask: u32,
        ops: StencilOps,
    },
    SetDepth(DepthState),
    SetDepthBias(DepthBiasState),
    ConfigureDepthStencil(u32),
    SetAlphaToCoverage(bool),
    SetVertexAttribute {
        buffer: Option<u32>,
        buffer_desc: VertexBufferDesc,
        attribute_desc: AttributeDesc,
    },
    UnsetVertexAttribute(u32),
    SetVertexBuffer {
        index: u32,
        buffer: BufferBinding,
        buffer_desc: VertexBufferDesc,
    },
    SetProgram(u32),
    SetPrimitive(PrimitiveState),
    SetBlendConstant(ColorF32),
    SetColorTarget {
        draw_buffer_index: Option<u32>,
        desc: ColorTargetDesc,
    },
    BindBuffer {
        target: u32,
        slot: u32,
        buffer: u32,
        offset: i32,
        size: i32,
    },
    BindSampler(u32, Option<u32>),
    BindTexture {
        slot: u32,
        texture: u32,
        target: u32,
        aspects: u32,
        mip_levels: RangeU32,
    },
    BindImage {
        slot: u32,
        binding: ImageBinding,
    },
    PushDebugGroup(RangeU32),
    PopDebugGroup,
    SetImmediates {
        uniform: ImmediateDesc,
        offset: u32,
    },
    SetClipDistances {
        old_count: u32,
        new_count: u32,
    },
}

// One element of the lent list.
#[derive(Clone, Copy)]
pub struct Record {
    pub command: Command,
}
