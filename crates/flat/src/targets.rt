// The colour targets of a render pipeline.
use crate::line::{Line, Wrong};
use names::gl::{BlendComponent, BlendDesc};
use records::command::ColorTargetDesc;

fn take_component(line: &mut Line) -> Result<BlendComponent, Wrong> {
    let src = line.take_u32()?;
    let dst = line.take_u32()?;
    let equation = line.take_u32()?;
    Ok(BlendComponent { src, dst, equation })
}

fn take_blend(line: &mut Line) -> Result<BlendDesc, Wrong> {
    let alpha = take_component(line)?;
    let color = take_component(line)?;
    Ok(BlendDesc { alpha, color })
}

pub(crate) fn take_target(line: &mut Line) -> Result<ColorTargetDesc, Wrong> {
    let mask = line.take_u32()?;
    let blend = line.take_option(take_blend)?;
    Ok(ColorTargetDesc { mask, blend })
}
