// OpenGL ES's numbers for WebGPU's names: the maps of gles/conv.rs. Each map is a constant table
// of GL numbers in WebGPU's order of names. The contracts cite specs/Maps.antt.
#![tactic(auto)]

ghost use Rattle.std.specs.Prelude.{◌≡◌};
ghost use Rattle.names.specs.Maps.{compare_func, primitive_topology, front_face_of, cull_face_of, polygon_mode_of, stencil_op, blend_factor, blend_equation, primitive_state, stencil_ops, stencil_side, stencil_state, blend_component, blend_desc};

pub mod gl;
pub mod name;
pub mod wgt;

use gl::{BlendComponent, BlendDesc, PrimitiveState, StencilOps, StencilSide, StencilState};
use name::number_of;

// The eight maps by their names in gles/conv.rs; each is `number_of` at its type.
pub const COMPARE_FUNCTIONS: [u32; 8] = [0x200, 0x201, 0x202, 0x203, 0x204, 0x205, 0x206, 0x207];

pub fn map_compare_func(fun: wgt::CompareFunction) -> u32
    ensures { result ≡ compare_func fun }
{
    number_of(fun)
}

pub const TOPOLOGIES: [u32; 5] = [0x0, 0x1, 0x3, 0x4, 0x5];

pub fn map_primitive_topology(topology: wgt::PrimitiveTopology) -> u32
    ensures { result ≡ primitive_topology topology }
{
    number_of(topology)
}

pub const FRONT_FACES: [u32; 2] = [0x900, 0x901];

pub fn map_front_face(face: wgt::FrontFace) -> u32
    ensures { result ≡ front_face_of face }
{
    number_of(face)
}

pub const CULL_FACES: [u32; 3] = [0x0, 0x404, 0x405];

pub fn map_cull_mode(mode: wgt::CullMode) -> u32
    ensures { result ≡ cull_face_of mode }
{
    number_of(mode)
}

pub const POLYGON_MODES: [u32; 3] = [0x1b02, 0x1b01, 0x1b00];

pub fn map_polygon_mode(mode: wgt::PolygonMode) -> u32
    ensures { result ≡ polygon_mode_of mode }
{
    number_of(mode)
}

pub fn map_primitive_state(state: wgt::PrimitiveState) -> PrimitiveState
    ensures { result ≡ primitive_state state }
{
    PrimitiveState {
        front_face: map_front_face(state.front_face),
        cull_face: map_cull_mode(state.cull_mode),
        unclipped_depth: state.unclipped_depth,
        polygon_mode: map_polygon_mode(state.polygon_mode),
    }
}

pub const STENCIL_OPERATIONS: [u32; 8] = [
    0x1e00, 0x0, 0x1e01, 0x150a, 0x1e02, 0x1e03, 0x8507, 0x8508,
];

pub fn map_stencil_op(operation: wgt::StencilOperation) -> u32
    ensures { result ≡ stencil_op operation }
{
    number_of(operation)
}

pub(crate) fn map_stencil_ops(face: wgt::StencilFaceState) -> StencilOps
    ensures { result ≡ stencil_ops face }
{
    StencilOps {
        pass: map_stencil_op(face.pass_op),
        fail: map_stencil_op(face.fail_op),
        depth_fail: map_stencil_op(face.depth_fail_op),
    }
}

pub(crate) fn map_stencil_side(
    face: wgt::StencilFaceState,
    read_mask: u32,
    write_mask: u32,
) -> StencilSide
    ensures { result ≡ stencil_side face read_mask write_mask }
{
    StencilSide {
        function: map_compare_func(face.compare),
        mask_read: read_mask,
        mask_write: write_mask,
        reference: 0,
        ops: map_stencil_ops(face),
    }
}

pub fn map_stencil(state: wgt::StencilState) -> StencilState
    ensures { result ≡ stencil_state state }
{
    StencilState {
        front: map_stencil_side(state.front, state.read_mask, state.write_mask),
        back: map_stencil_side(state.back, state.read_mask, state.write_mask),
    }
}

pub const BLEND_FACTORS: [u32; 17] = [
    0x0, 0x1, 0x300, 0x301, 0x302, 0x303, 0x306, 0x307, 0x304, 0x305, 0x308, 0x8001, 0x8002,
    0x88f9, 0x88fa, 0x8589, 0x88fb,
];

pub fn map_blend_factor(factor: wgt::BlendFactor) -> u32
    ensures { result ≡ blend_factor factor }
{
    number_of(factor)
}

pub const BLEND_OPERATIONS: [u32; 5] = [0x8006, 0x800a, 0x800b, 0x8007, 0x8008];

pub fn map_blend_operation(operation: wgt::BlendOperation) -> u32
    ensures { result ≡ blend_equation operation }
{
    number_of(operation)
}

pub(crate) fn map_blend_component(component: wgt::BlendComponent) -> BlendComponent
    ensures { result ≡ blend_component component }
{
    BlendComponent {
        src: map_blend_factor(component.src_factor),
        dst: map_blend_factor(component.dst_factor),
        equation: map_blend_operation(component.operation),
    }
}

pub fn map_blend(blend: wgt::BlendState) -> BlendDesc
    ensures { result ≡ blend_desc blend }
{
    BlendDesc {
        alpha: map_blend_component(blend.alpha),
        color: map_blend_component(blend.color),
    }
}
