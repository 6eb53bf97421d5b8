// The attachments of a render pass.
use crate::line::{Line, Wrong};
use crate::small::{take_f32, take_f64};
use crate::view::take_view;
use records::pass::{ColorAttachment, ColorF64, ColorPlace, DepthStencilAttachment};

fn take_clear(line: &mut Line) -> Result<ColorF64, Wrong> {
    let r = take_f64(line)?;
    let g = take_f64(line)?;
    let b = take_f64(line)?;
    let a = take_f64(line)?;
    Ok(ColorF64 { r, g, b, a })
}

fn take_attachment(line: &mut Line) -> Result<ColorAttachment, Wrong> {
    let view = take_view(line)?;
    let depth_slice = line.take_option(|l| l.take_u32())?;
    let resolve_target = line.take_option(take_view)?;
    let ops = line.take_u8()? as u32;
    let clear_value = take_clear(line)?;
    Ok(ColorAttachment {
        view,
        depth_slice,
        resolve_target,
        ops,
        clear_value,
    })
}

pub(crate) fn take_place(line: &mut Line) -> Result<ColorPlace, Wrong> {
    let attachment = line.take_option(take_attachment)?;
    Ok(ColorPlace { attachment })
}

pub(crate) fn take_depth_stencil(line: &mut Line) -> Result<DepthStencilAttachment, Wrong> {
    let view = take_view(line)?;
    let depth_ops = line.take_u8()? as u32;
    let stencil_ops = line.take_u8()? as u32;
    let clear_depth = take_f32(line)?;
    let clear_stencil = line.take_u32()?;
    Ok(DepthStencilAttachment {
        view,
        depth_ops,
        stencil_ops,
        clear_depth,
        clear_stencil,
    })
}
