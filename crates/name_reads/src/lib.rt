// OpenGL ES's numbers read back as WebGPU's names (document 02, request 2). A reader searches the
// constant table of its map, from the last entry to the first. The contracts cite specs/Read.antt.
#![tactic(auto)]

ghost use Rattle.std.specs.Prelude.{◌≡◌};
ghost use Rattle.name_reads.specs.Read.{name_of, answer_number as number_of_answer, compare_read, topology_read, front_read, cull_read, stencil_op_read, factor_read, operation_read};

pub mod spelling;
pub mod word;

use crate::spelling::Spelled;
use names::wgt::{
    BlendFactor, BlendOperation, CompareFunction, CullMode, FrontFace, PrimitiveTopology,
    StencilOperation,
};

// The name for which the map gives the number; none where it never does.
pub fn read<N: Spelled>(n: u32) -> Option<N>
    ensures { result ≡ name_of N.number n N.entries.names }
{
    let at = N::table().iter().rposition(|&x| x == n)?;
    N::names().get(at).copied()
}

// The number of an answer.
pub fn answer_number<N: Copy>(answer: Option<N>) -> u8
    ensures { result ≡ number_of_answer answer }
{
    match answer {
        Some(_) => 0,
        None => 8,
    }
}

// The seven readers by their maps' names, `read_` for `map_`: README names them.
pub fn read_compare_func(n: u32) -> Option<CompareFunction>
    ensures { result ≡ compare_read n }
{
    read::<CompareFunction>(n)
}

pub fn read_primitive_topology(n: u32) -> Option<PrimitiveTopology>
    ensures { result ≡ topology_read n }
{
    read::<PrimitiveTopology>(n)
}

pub fn read_front_face(n: u32) -> Option<FrontFace>
    ensures { result ≡ front_read n }
{
    read::<FrontFace>(n)
}

pub fn read_cull_mode(n: u32) -> Option<CullMode>
    ensures { result ≡ cull_read n }
{
    read::<CullMode>(n)
}

pub fn read_stencil_op(n: u32) -> Option<StencilOperation>
    ensures { result ≡ stencil_op_read n }
{
    read::<StencilOperation>(n)
}

pub fn read_blend_factor(n: u32) -> Option<BlendFactor>
    ensures { result ≡ factor_read n }
{
    read::<BlendFactor>(n)
}

pub fn read_blend_operation(n: u32) -> Option<BlendOperation>
    ensures { result ≡ operation_read n }
{
    read::<BlendOperation>(n)
}
