// The equality tests of what is recorded only on change: `==`, under the names of specs/Same.antt that
// other crates and docs/ name.
ghost use Rattle.std.specs.Prelude.{◌≡◌};
ghost use Rattle.records.specs.Same.{same_option_u32, same_color_target, same_stencil_ops, same_stencil_func, same_depth_bias, same_primitive};

use crate::command::{ColorTargetDesc, DepthBiasState};
use names::gl::{PrimitiveState, StencilOps, StencilSide};

pub fn same_option_u32(a: Option<u32>, b: Option<u32>) -> bool
    ensures { result ≡ same_option_u32 a b }
{
    a == b
}

pub fn same_color_target(a: ColorTargetDesc, b: ColorTargetDesc) -> bool
    ensures { result ≡ same_color_target a b }
{
    a == b
}

pub fn same_stencil_ops(a: StencilOps, b: StencilOps) -> bool
    ensures { result ≡ same_stencil_ops a b }
{
    a == b
}

// What `StencilFunc` sets of a side. Not `==`: the write mask and the operations are not compared.
pub fn same_stencil_func(front: StencilSide, back: StencilSide) -> bool
    ensures { result ≡ same_stencil_func front back }
{
    (front.function == back.function)
        & ((front.mask_read == back.mask_read) & (front.reference == back.reference))
}

pub fn same_depth_bias(a: DepthBiasState, b: DepthBiasState) -> bool
    ensures { result ≡ same_depth_bias a b }
{
    a == b
}

pub fn same_primitive(a: PrimitiveState, b: PrimitiveState) -> bool
    ensures { result ≡ same_primitive a b }
{
    a == b
}
