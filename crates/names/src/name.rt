// What the eight enumerations of wgt.rt share: WebGPU's order of their names, and the map of each
// to GL's numbers.
ghost use Rattle.std.specs.Prelude.{◌≡◌, ℕ, map, T, refl};
ghost use Rattle.names.specs.Table.{Enumeration, different};
ghost use Rattle.names.specs.Different.{compare_names, topology_names, front_names, cull_names, polygon_names, stencil_op_names, factor_names, operation_names};
ghost use Rattle.names.specs.Maps.{compare_func, primitive_topology, front_face_of, cull_face_of, polygon_mode_of, stencil_op, blend_factor, blend_equation};

use crate::wgt::{
    BlendFactor, BlendOperation, CompareFunction, CullMode, FrontFace, PolygonMode,
    PrimitiveTopology, StencilOperation,
};
use crate::{
    BLEND_FACTORS, BLEND_OPERATIONS, COMPARE_FUNCTIONS, CULL_FACES, FRONT_FACES, POLYGON_MODES,
    STENCIL_OPERATIONS, TOPOLOGIES,
};

pub trait Name: Copy {
    ghost entries: { Enumeration Self };

    ghost number: { Self → ℕ };

    // GL's numbers in WebGPU's order of names.
    fn table() -> &'static [u32]
        ensures { result.now ≡ map number entries.names };

    // The name's place in that order.
    fn place(self) -> usize
        ensures { result ≡ entries.place self };

    // Different names have different numbers.
    ghost apart: { T (different (map number entries.names)) };
}

// The number of a name: its place's entry in the table.
pub fn number_of<N: Name>(name: N) -> u32
    ensures { result ≡ N.number name }
{
    N::table()[name.place()]
}

impl Name for CompareFunction {
    ghost entries = { compare_names };

    ghost number = { compare_func };

    ghost apart = { tt };

    fn table() -> &'static [u32] {
        &COMPARE_FUNCTIONS
    }

    fn place(self) -> usize {
        self as usize
    }
}

impl Name for PrimitiveTopology {
    ghost entries = { topology_names };

    ghost number = { primitive_topology };

    ghost apart = { tt };

    fn table() -> &'static [u32] {
        &TOPOLOGIES
    }

    fn place(self) -> usize {
        self as usize
    }
}

impl Name for FrontFace {
    ghost entries = { front_names };

    ghost number = { front_face_of };

    ghost apart = { tt };

    fn table() -> &'static [u32] {
        &FRONT_FACES
    }

    fn place(self) -> usize {
        self as usize
    }
}

impl Name for CullMode {
    ghost entries = { cull_names };

    ghost number = { cull_face_of };

    ghost apart = { tt };

    fn table() -> &'static [u32] {
        &CULL_FACES
    }

    fn place(self) -> usize {
        self as usize
    }
}

impl Name for PolygonMode {
    ghost entries = { polygon_names };

    ghost number = { polygon_mode_of };

    ghost apart = { tt };

    fn table() -> &'static [u32] {
        &POLYGON_MODES
    }

    fn place(self) -> usize {
        self as usize
    }
}

impl Name for StencilOperation {
    ghost entries = { stencil_op_names };

    ghost number = { stencil_op };

    ghost apart = { tt };

    fn table() -> &'static [u32] {
        &STENCIL_OPERATIONS
    }

    fn place(self) -> usize {
        self as usize
    }
}

impl Name for BlendFactor {
    ghost entries = { factor_names };

    ghost number = { blend_factor };

    ghost apart = { tt };

    fn table() -> &'static [u32] {
        &BLEND_FACTORS
    }

    fn place(self) -> usize {
        self as usize
    }
}

impl Name for BlendOperation {
    ghost entries = { operation_names };

    ghost number = { blend_equation };

    ghost apart = { tt };

    fn table() -> &'static [u32] {
        &BLEND_OPERATIONS
    }

    fn place(self) -> usize {
        self as usize
    }
}
