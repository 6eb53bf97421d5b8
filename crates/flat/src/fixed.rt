// The fixed parts of a render pipeline: primitive, depth, depth bias and stencil.
use crate::line::{Line, Wrong};
use names::gl::{StencilOps, StencilSide, StencilState};
use names::wgt::{CullMode, FrontFace, PolygonMode, PrimitiveState, PrimitiveTopology};
use records::command::{DepthBiasState, DepthState};

pub(crate) fn take_topology(line: &mut Line) -> Result<PrimitiveTopology, Wrong> {
    line.take_one_of(&[
        PrimitiveTopology::PointList,
        PrimitiveTopology::LineList,
        PrimitiveTopology::LineStrip,
        PrimitiveTopology::TriangleList,
        PrimitiveTopology::TriangleStrip,
    ])
}

pub(crate) fn take_primitive(line: &mut Line) -> Result<PrimitiveState, Wrong> {
    let front_face = line.take_one_of(&[FrontFace::Ccw, FrontFace::Cw])?;
    let cull_mode = line.take_one_of(&[CullMode::None, CullMode::Front, CullMode::Back])?;
    let unclipped_depth = line.take_bool()?;
    let polygon_mode = line.take_one_of(&[
        PolygonMode::Fill,
        PolygonMode::Line,
        PolygonMode::Point,
    ])?;
    Ok(PrimitiveState {
        front_face,
        cull_mode,
        unclipped_depth,
        polygon_mode,
    })
}

pub(crate) fn take_depth_state(line: &mut Line) -> Result<DepthState, Wrong> {
    let function = line.take_u32()?;
    let mask = line.take_bool()?;
    Ok(DepthState { function, mask })
}

// The two floats stay bits.
pub(crate) fn take_bias(line: &mut Line) -> Result<DepthBiasState, Wrong> {
    let constant = line.take_i32()?;
    let slope_scale = line.take_u32()?;
    let clamp = line.take_u32()?;
    Ok(DepthBiasState {
        constant,
        slope_scale,
        clamp,
    })
}

fn take_ops(line: &mut Line) -> Result<StencilOps, Wrong> {
    let pass = line.take_u32()?;
    let fail = line.take_u32()?;
    let depth_fail = line.take_u32()?;
    Ok(StencilOps {
        pass,
        fail,
        depth_fail,
    })
}

fn take_side(line: &mut Line) -> Result<StencilSide, Wrong> {
    let function = line.take_u32()?;
    let mask_read = line.take_u32()?;
    let mask_write = line.take_u32()?;
    let reference = line.take_u32()?;
    let ops = take_ops(line)?;
    Ok(StencilSide {
        function,
        mask_read,
        mask_write,
        reference,
        ops,
    })
}

pub(crate) fn take_stencil(line: &mut Line) -> Result<StencilState, Wrong> {
    let front = take_side(line)?;
    let back = take_side(line)?;
    Ok(StencilState { front, back })
}
