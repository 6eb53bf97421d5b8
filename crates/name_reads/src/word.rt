// The word to show for a number, by the map that gave it. The contracts cite specs/Word.antt.
ghost use Rattle.std.specs.Prelude.{◌≡◌};
ghost use Rattle.name_reads.specs.Word.{word_read, number_read, shown};

use crate::spelling::Spelled;
use crate::{
    answer_number, read_blend_factor, read_blend_operation, read_compare_func, read_cull_mode,
    read_front_face, read_primitive_topology, read_stencil_op,
};

// The maps that are read back, by their names without `map_`.
#[derive(Clone, Copy, Debug, PartialEq, Eq)]
pub enum Map {
    CompareFunc,
    PrimitiveTopology,
    FrontFace,
    CullMode,
    StencilOp,
    BlendFactor,
    BlendOperation,
}

// The word of an answer; no byte without a name.
fn word_of<N: Spelled>(answer: Option<N>) -> &'static str
    ensures { result.now ≡ shown N.word answer }
{
    match answer {
        Some(name) => name.spell(),
        None => "",
    }
}

// The word of the name that the number reads as; no byte where the map never gives the number.
pub fn read_word(map: Map, n: u32) -> &'static str
    ensures { result.now ≡ word_read map n }
{
    match map {
        Map::CompareFunc => word_of(read_compare_func(n)),
        Map::PrimitiveTopology => word_of(read_primitive_topology(n)),
        Map::FrontFace => word_of(read_front_face(n)),
        Map::CullMode => word_of(read_cull_mode(n)),
        Map::StencilOp => word_of(read_stencil_op(n)),
        Map::BlendFactor => word_of(read_blend_factor(n)),
        Map::BlendOperation => word_of(read_blend_operation(n)),
    }
}

// The number of the answer: 8 where the map never gives the number, otherwise 0.
pub fn read_number(map: Map, n: u32) -> u8
    ensures { result ≡ number_read map n }
{
    match map {
        Map::CompareFunc => answer_number(read_compare_func(n)),
        Map::PrimitiveTopology => answer_number(read_primitive_topology(n)),
        Map::FrontFace => answer_number(read_front_face(n)),
        Map::CullMode => answer_number(read_cull_mode(n)),
        Map::StencilOp => answer_number(read_stencil_op(n)),
        Map::BlendFactor => answer_number(read_blend_factor(n)),
        Map::BlendOperation => answer_number(read_blend_operation(n)),
    }
}
