// The encoder's state, by value, in parts: `State` of gles/command.rs, the phase of document 01, and
// how much of the three lent runs is used. An `ArrayVec` is an array beside its count. What may be
// missing at each of sixteen places has a mask beside the array: bit i says that place i is there,
// and what the array holds at a place that is not there means nothing.
ghost use Rattle.std.specs.Prelude.{◌≡◌};
ghost use Rattle.records.specs.Start.{start_progress, start_slot, start_vertex, start_draw, start_fixed, start_bind, start_resolve, start_pass, start_immediates, start_state};

use crate::command::{
    AttributeDesc, ColorTargetDesc, DepthBiasState, Extent3d, ImmediateDesc, RangeU32, SampleKind,
    TextureInner, TextureView,
};
use crate::limits::{
    MAX_COLOR_ATTACHMENTS, MAX_IMMEDIATES, MAX_IMMEDIATES_COMMANDS, MAX_SAMPLERS,
    MAX_TEXTURE_SLOTS, MAX_VERTEX_ATTRIBUTES, MAX_VERTEX_BUFFERS,
};
use crate::outcome::Outcome;
use names::gl::{PrimitiveState, StencilState};

#[derive(Clone, Copy, Debug, PartialEq, Eq)]
pub enum Phase {
    Closed,
    Open,
    Render,
    Compute,
}

#[derive(Clone, Copy, Debug, PartialEq, Eq)]
pub enum IndexFormat {
    Uint16,
    Uint32,
}

// The phase, and how many commands, marker bytes and queries have been recorded.
#[derive(Clone, Copy, Debug, PartialEq, Eq)]
pub struct Progress {
    pub phase: Phase,
    pub commands: usize,
    pub bytes: usize,
    pub queries: usize,
}

impl Progress {
    pub fn new() -> Self
        ensures { result ≡ start_progress }
    {
        Progress {
            phase: Phase::Closed,
            commands: 0,
            bytes: 0,
            queries: 0,
        }
    }
}

// A pair of slot description and binding: the description's stride; the binding's buffer and offset.
#[derive(Clone, Copy, Debug, PartialEq, Eq)]
pub struct VertexSlot {
    pub stride: u32,
    pub raw: u32,
    pub offset: u64,
}

impl VertexSlot {
    pub fn new() -> Self
        ensures { result ≡ start_slot }
    {
        VertexSlot {
            stride: 0,
            raw: 0,
            offset: 0,
        }
    }
}

// The field order keeps the numbers that a call changes next to the slots, with no padding between.
// An array beside its count, here and below: no heap.
#[derive(Clone, Copy)]
pub struct VertexState {
    // Which slots have a description, and which a binding; which descriptions step by instance.
    pub described: u32,
    pub bound: u32,
    pub by_instance: u32,
    pub dirty_vbuf_mask: u32,
    pub buffers: [VertexSlot; MAX_VERTEX_BUFFERS],
    // The working instance that each slot was last bound with, in this pass.
    pub instances: [u32; MAX_VERTEX_BUFFERS],
    pub attribute_count: usize,
    // Which slots the current pipeline steps by instance.
    pub instance_vbuf_mask: u32,
    pub attributes: [AttributeDesc; MAX_VERTEX_ATTRIBUTES],
}

impl VertexState {
    pub fn new() -> Self
        ensures { result ≡ start_vertex }
    {
        let slot = VertexSlot::new();
        let attribute = AttributeDesc::new();
        VertexState {
            described: 0,
            bound: 0,
            by_instance: 0,
            dirty_vbuf_mask: 0,
            buffers: [slot; MAX_VERTEX_BUFFERS],
            instances: [0; MAX_VERTEX_BUFFERS],
            attribute_count: 0,
            instance_vbuf_mask: 0,
            attributes: [attribute; MAX_VERTEX_ATTRIBUTES],
        }
    }
}

// What a draw command takes from the state.
#[derive(Clone, Copy, Debug, PartialEq, Eq)]
pub struct DrawState {
    pub topology: u32,
    pub index_format: IndexFormat,
    pub index_offset: u64,
    pub first_instance_location: Option<u32>,
}

impl DrawState {
    pub const TOPOLOGY: u32 = 0;

    pub fn new() -> Self
        ensures { result ≡ start_draw }
    {
        DrawState {
            topology: DrawState::TOPOLOGY,
            index_format: IndexFormat::Uint32,
            index_offset: 0,
            first_instance_location: None,
        }
    }
}

// What is recorded only on change, and the stencil.
#[derive(Clone, Copy)]
pub struct FixedState {
    pub primitive: PrimitiveState,
    pub color_targets: [ColorTargetDesc; MAX_COLOR_ATTACHMENTS],
    pub color_target_count: usize,
    pub stencil: StencilState,
    pub depth_bias: DepthBiasState,
    pub alpha_to_coverage_enabled: bool,
    pub clip_distance_count: u32,
}

impl FixedState {
    pub fn new() -> Self
        ensures { result ≡ start_fixed }
    {
        let primitive = PrimitiveState::new();
        let target = ColorTargetDesc::new();
        let stencil = StencilState::new();
        let depth_bias = DepthBiasState::new();
        FixedState {
            primitive,
            color_targets: [target; MAX_COLOR_ATTACHMENTS],
            color_target_count: 0,
            stencil,
            depth_bias,
            alpha_to_coverage_enabled: false,
            clip_distance_count: 0,
        }
    }
}

#[derive(Clone, Copy, Debug, PartialEq, Eq)]
pub struct TextureSlotDesc {
    pub tex_target: u32,
    pub sampler_index: u32,
}

// The samplers by number, and each texture unit with the number of the sampler that it takes.
#[derive(Clone, Copy)]
pub struct BindState {
    pub samplers: [u32; MAX_SAMPLERS],
    // Which samplers are set, and which units take a sampler.
    pub sampler_set: u32,
    pub texture_slots: [TextureSlotDesc; MAX_TEXTURE_SLOTS],
    pub sampled: u32,
}

impl BindState {
    pub fn new() -> Self
        ensures { result ≡ start_bind }
    {
        let slot = TextureSlotDesc {
            tex_target: 0,
            sampler_index: 0,
        };
        BindState {
            samplers: [0; MAX_SAMPLERS],
            sampler_set: 0,
            texture_slots: [slot; MAX_TEXTURE_SLOTS],
            sampled: 0,
        }
    }
}

// A colour place that is resolved at the end of the pass, and where to.
#[derive(Clone, Copy, Debug, PartialEq, Eq)]
pub struct ResolveDesc {
    pub place: u32,
    pub dst: TextureView,
}

impl ResolveDesc {
    pub fn new() -> Self
        ensures { result ≡ start_resolve }
    {
        let mips = RangeU32 { start: 0, end: 0 };
        let layers = RangeU32 { start: 0, end: 0 };
        let dst = TextureView {
            inner: TextureInner::Renderbuffer(0),
            aspects: 0,
            mip_levels: mips,
            array_layers: layers,
            kind: SampleKind::Float,
            is_srgb: false,
        };
        ResolveDesc { place: 0, dst }
    }
}

// What the end of the pass records. The invalidation set has bits 0 to 7 for the colours, 8 for
// depth, 9 for stencil.
#[derive(Clone, Copy)]
pub struct PassState {
    pub render_size: Extent3d,
    pub resolves: [ResolveDesc; MAX_COLOR_ATTACHMENTS],
    pub resolve_count: usize,
    pub invalidate_attachments: u32,
    pub has_pass_label: bool,
    pub end_of_pass_timestamp: Option<u32>,
}

impl PassState {
    pub fn new() -> Self
        ensures { result ≡ start_pass }
    {
        let render_size = Extent3d::new();
        let resolve = ResolveDesc::new();
        PassState {
            render_size,
            resolves: [resolve; MAX_COLOR_ATTACHMENTS],
            resolve_count: 0,
            invalidate_attachments: 0,
            has_pass_label: false,
            end_of_pass_timestamp: None,
        }
    }
}

// The immediate descriptors of the current pipeline, the current words, and whether the
// descriptors were sent since the last pipeline call.
#[derive(Clone, Copy)]
pub struct ImmediateState {
    pub descs: [ImmediateDesc; MAX_IMMEDIATES_COMMANDS],
    pub count: usize,
    pub words: [u32; MAX_IMMEDIATES],
    pub sent: bool,
}

impl ImmediateState {
    pub fn new() -> Self
        ensures { result ≡ start_immediates }
    {
        let desc = ImmediateDesc {
            location: 0,
            ty: 0,
            offset: 0,
            size_bytes: 0,
        };
        ImmediateState {
            descs: [desc; MAX_IMMEDIATES_COMMANDS],
            count: 0,
            words: [0; MAX_IMMEDIATES],
            sent: false,
        }
    }
}

#[derive(Clone, Copy)]
pub struct State {
    pub progress: Progress,
    pub vertex: VertexState,
    pub draw: DrawState,
    pub fixed: FixedState,
    pub bind: BindState,
    pub pass: PassState,
    pub immediates: ImmediateState,
}

impl State {
    // The state of an encoder that has recorded nothing.
    pub fn new() -> Self
        ensures { result ≡ start_state }
    {
        let progress = Progress::new();
        let vertex = VertexState::new();
        let draw = DrawState::new();
        let fixed = FixedState::new();
        let bind = BindState::new();
        let pass = PassState::new();
        let immediates = ImmediateState::new();
        State {
            progress,
            vertex,
            draw,
            fixed,
            bind,
            pass,
            immediates,
        }
    }
}

// What a call answers: carried through or turned away, and the next state.
#[derive(Clone, Copy)]
pub struct Answer {
    pub outcome: Outcome,
    pub state: State,
}
